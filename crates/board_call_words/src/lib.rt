// The answers of the calls, laid out in 16 words.
#![tactic(auto)]

ghost use Rattle.std.specs.Prelude.{◌≡◌};
ghost use Rattle.call_answers.specs.Codes.{not_implemented, none};
ghost use Rattle.call_answers.specs.Answers.{refusal, Coded};
ghost use Rattle.board_call_words.specs.Words.{ax_of, answer_words};

use call_answers::answer::Answer;
use call_answers::code;

// Writes the words of an unknown function or sub-function.
#[tactic(auto, unfolding(crate::specs::Words::answer_words, board_row::specs::Row::row_of))]
pub fn unknown_words(loading: bool, answer: &mut [u32; 16])
    ensures { answer.new ≡ answer_words (refusal not_implemented none) loading }
{
    let on = u32::from(loading);
    board_row::put(answer, code::NOT_IMPLEMENTED, code::NONE, on, 4, 0, 0, 0, 0)
}

// The image of AX. A call that was done has the codes 0, which needn't be read.
#[tactic(auto, unfolding(crate::specs::Words::ax_of, call_answers::specs::Answers::Coded))]
pub fn ax(a: Answer) -> u32
    requires { Coded a }
    ensures { result ≡ ax_of a }
{
    match a {
        Answer::Presence(_) => 0,
        Answer::Written(_) => 0,
        Answer::Control(_) => 0,
        Answer::Read(_) => 0,
        Answer::Refused(f) => board_row::ax(f.ah, f.al),
    }
}

// Writes the words of a call's answer. Those of the codes are 0 where the call was done.
#[tactic(auto, unfolding(crate::specs::Words::answer_words, board_row::specs::Row::row_of, call_answers::specs::Answers::Coded))]
pub fn call_words(a: Answer, loading: bool, answer: &mut [u32; 16])
    requires { Coded a }
    ensures { answer.new ≡ answer_words a loading }
{
    let on = u32::from(loading);
    match a {
        Answer::Presence(p) => {
            *answer = [
                0,
                0,
                0,
                on,
                0,
                u32::from(p.byte0),
                u32::from(p.byte1),
                u32::from(p.byte2),
                u32::from(p.byte3),
                u32::from(p.byte4),
                u32::from(p.byte5),
                u32::from(p.byte6),
                u32::from(p.byte7),
                p.loader_version,
                p.blocks,
                0,
            ];
        }
        Answer::Written(w) => {
            board_row::put(answer, 0, 0, on, 1, w.start, w.emptied, w.emptied_blocks, 0)
        }
        Answer::Control(k) => board_row::put_status(answer, on, k.status),
        Answer::Read(d) => board_row::put(answer, 0, 0, on, 3, d.blocks, 0, 0, 0),
        Answer::Refused(f) => board_row::put(answer, f.ah, f.al, on, 4, f.status, 0, 0, 0),
    }
}
