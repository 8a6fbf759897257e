// A line of output for each kind of answer.
use call_answers::answer::Answer;
use call_answers::choice::LoadChoice;
use std::io;
use std::io::Print;
use test_samples::bytes;
use update_verdict::BadUpdate;

// The verdict on the bytes, by its code or with its four numbers.
pub fn verdict<P: Print>(out: &P, label: &[u8], s: &[u8]) -> io::Result<()> {
    test_output::text(out, label)?;

    match update_verdict::check_update(s) {
        Ok(m) => {
            test_output::number(out, b": good, T ", m.total)?;
            test_output::number(out, b", data ", m.data)?;
            test_output::number(out, b", entries ", m.entries)?;
            test_output::number(out, b", blocks ", m.blocks)?;
            test_output::text(out, b"\n")
        }
        Err(BadUpdate::Header) => test_output::text(out, b": 95\n"),
        Err(BadUpdate::Sum) => test_output::text(out, b": 96\n"),
    }
}

fn answer<P: Print>(out: &P, yes: bool) -> io::Result<()> {
    if yes {
        test_output::text(out, b": yes\n")
    } else {
        test_output::text(out, b": no\n")
    }
}

pub fn covers<P: Print>(
    out: &P,
    label: &[u8],
    s: &[u8],
    signature: u32,
    platform: u32,
) -> io::Result<()> {
    test_output::text(out, label)?;
    answer(out, update_coverage::covers(s, signature, platform))
}

pub fn shares<P: Print>(out: &P, label: &[u8], a: &[u8], b: &[u8]) -> io::Result<()> {
    test_output::text(out, label)?;
    answer(out, update_sharing::shares(a, b))
}

pub fn platforms<P: Print>(out: &P, label: &[u8], s: &[u8]) -> io::Result<()> {
    test_output::text(out, label)?;
    test_output::number(
        out,
        b": platforms ",
        update_coverage::platforms::platform_count(s),
    )?;
    test_output::number(
        out,
        b", lowest ",
        update_coverage::platforms::lowest_platform(s),
    )?;
    test_output::text(out, b"\n")
}

// Both versions and the checksum, as a view gives them.
pub fn view<P: Print>(out: &P, label: &[u8], s: &[u8]) -> io::Result<()> {
    test_output::text(out, label)?;
    let v = update_view::summary(s);
    test_output::number(out, b": header version ", v.header_version)?;
    test_output::number(out, b", loader version ", v.loader_version)?;
    test_output::dword(out, b", checksum ", v.checksum)?;
    test_output::text(out, b"\n")
}

// An answer by its codes, or with its numbers.
pub fn reply<P: Print>(out: &P, label: &[u8], answer: Answer) -> io::Result<()> {
    test_output::text(out, label)?;
    match answer {
        Answer::Presence(a) => {
            test_output::text(out, b": presence ")?;
            let bytes = [
                a.byte0, a.byte1, a.byte2, a.byte3, a.byte4, a.byte5, a.byte6, a.byte7,
            ];
            test_output::text(out, &bytes)?;
            test_output::number(out, b", loader ", a.loader_version)?;
            test_output::number(out, b", blocks ", a.blocks)?;
        }
        Answer::Written(a) => {
            test_output::number(out, b": written, start ", a.start)?;
            test_output::number(out, b", emptied ", a.emptied)?;
            test_output::number(out, b", emptied blocks ", a.emptied_blocks)?;
        }
        Answer::Control(a) => test_output::number(out, b": control, status ", a.status)?,
        Answer::Read(a) => test_output::number(out, b": read, blocks ", a.blocks)?,
        Answer::Refused(a) => {
            test_output::code(out, b": refused, AH ", u32::from(a.ah))?;
            test_output::code(out, b", AL ", u32::from(a.al))?;
            test_output::code(out, b", status ", a.status)?;
        }
    }
    test_output::text(out, b"\n")
}

// The loading state after a call. Not one function with `answer`: only the words differ, and lent to it they make each call longer.
pub fn loading<P: Print>(out: &P, on: bool) -> io::Result<()> {
    if on {
        test_output::text(out, b"  loading on\n")
    } else {
        test_output::text(out, b"  loading off\n")
    }
}

// The destination after a read: its first dword, and the sum of all.
pub fn destination<P: Print>(out: &P, s: &[u8]) -> io::Result<()> {
    test_output::dword(out, b"  destination begins ", bytes_dwords::dword(s, 0))?;
    test_output::dword(out, b", sums to ", bytes_dwords::sum(s))?;
    test_output::text(out, b"\n")
}

// A load choice, and how many data bytes it gives.
pub fn load<P: Print>(out: &P, label: &[u8], choice: LoadChoice, data: &[u8]) -> io::Result<()> {
    test_output::text(out, label)?;
    match choice {
        Err(refusal) => {
            test_output::code(out, b": refused, AH ", u32::from(refusal.ah()))?;
            test_output::code(out, b", AL ", u32::from(refusal.al()))?;
        }
        Ok(None) => test_output::text(out, b": nothing")?,
        Ok(Some(chosen)) => {
            test_output::number(out, b": start ", chosen.start)?;
            test_output::number(out, b", revision ", chosen.revision)?;
        }
    }
    let n = data.len();
    println!(out; ", data {n}")
}

// The catalogue of a store.
pub fn catalogue<P: Print>(out: &P, s: &[u8]) -> io::Result<()> {
    let text: &mut [u8] = &mut [0u8; 4096];
    match report_catalogue::catalogue(s, text) {
        Ok(length) => test_output::text(out, bytes::first(text, length as usize)),
        Err(_) => test_output::text(out, b"short\n"),
    }
}
