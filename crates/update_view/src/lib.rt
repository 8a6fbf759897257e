// A view of an update: a struct that holds a reference to the update's bytes, and thin functions that give its header fields, its sizes and
// its data, under the names that callers know. Each takes the view apart and calls a function of a plain slice. A caller that wants the
// numbers by value calls `summary`.
#![tactic(auto)]

ghost use Rattle.std.specs.Prelude.{◌≡◌, length};
ghost use Rattle.update_header.specs.DataPart.{data_part};
ghost use Rattle.update_header.specs.Fields.{version, revision, date, signature, checksum, loader_version, flags};
ghost use Rattle.update_view.specs.View.{viewed, holds_bytes, summary_of};

use crate::parts::Summary;
use update_header::data::data_part;
use update_header::fields;

pub mod parts;

#[derive(Clone, Copy)]
pub struct UpdateView<'a> {
    pub bytes: &'a [u8],
}

// The update that begins the slice; no bytes where there is none.
pub fn view(bytes: &[u8]) -> UpdateView<'_>
    ensures { result.bytes.now ≡ viewed bytes.now }
{
    UpdateView {
        bytes: parts::front(bytes),
    }
}

// A view of no update holds no bytes: of `view(s)` this is true exactly if an update begins s (`holds_update`).
pub fn is_update(v: UpdateView<'_>) -> bool
    ensures { result ≡ holds_bytes v.entry.bytes.now }
{
    parts::holds_bytes(v.bytes)
}

pub fn header_version(v: UpdateView<'_>) -> u32
    ensures { result ≡ version v.entry.bytes.now }
{
    fields::version(v.bytes)
}

pub fn revision(v: UpdateView<'_>) -> u32
    ensures { result ≡ revision v.entry.bytes.now }
{
    fields::revision(v.bytes)
}

pub fn date(v: UpdateView<'_>) -> u32
    ensures { result ≡ date v.entry.bytes.now }
{
    fields::date(v.bytes)
}

pub fn signature(v: UpdateView<'_>) -> u32
    ensures { result ≡ signature v.entry.bytes.now }
{
    fields::signature(v.bytes)
}

pub fn checksum(v: UpdateView<'_>) -> u32
    ensures { result ≡ checksum v.entry.bytes.now }
{
    fields::checksum(v.bytes)
}

pub fn loader_version(v: UpdateView<'_>) -> u32
    ensures { result ≡ loader_version v.entry.bytes.now }
{
    fields::loader_version(v.bytes)
}

pub fn flags(v: UpdateView<'_>) -> u32
    ensures { result ≡ flags v.entry.bytes.now }
{
    fields::flags(v.bytes)
}

pub fn data_size(v: UpdateView<'_>) -> usize
    ensures { result ≡ length (data_part v.entry.bytes.now) }
{
    parts::data_size(v.bytes)
}

pub fn total_size(v: UpdateView<'_>) -> usize
    ensures { result ≡ length v.entry.bytes.now }
{
    parts::total_size(v.bytes)
}

// The data bytes, as a part of the view's bytes.
pub fn data<'a>(v: UpdateView<'a>) -> &'a [u8]
    ensures { result.now ≡ data_part v.entry.bytes.now }
{
    data_part(v.bytes)
}

// All but the data, by value, of the update that begins the slice.
#[tactic(auto, using(crate::proofs::ViewLaws::holds_update))]
pub fn summary(bytes: &[u8]) -> Summary
    ensures { result ≡ summary_of bytes.now }
{
    let v = view(bytes);
    Summary {
        ok: is_update(v),
        header_version: header_version(v),
        revision: revision(v),
        date: date(v),
        signature: signature(v),
        checksum: checksum(v),
        loader_version: loader_version(v),
        flags: flags(v),
        data_size: data_size(v),
        total_size: total_size(v),
    }
}
