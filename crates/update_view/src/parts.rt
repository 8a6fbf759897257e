// What a view holds and gives, as functions of plain slices.
ghost use Rattle.std.specs.Prelude.{◌≡◌, length};
ghost use Rattle.update_header.specs.DataPart.{data_part};
ghost use Rattle.update_view.specs.View.{viewed, holds_bytes};

use update_header::data::data_part;

// The numbers that a view gives, by value.
#[derive(Clone, Copy)]
pub struct Summary {
    // a flag, not an Option: the public `summary` gives its numbers of any bytes, and can't fail
    pub ok: bool,
    pub header_version: u32,
    pub revision: u32,
    pub date: u32,
    pub signature: u32,
    pub checksum: u32,
    pub loader_version: u32,
    pub flags: u32,
    pub data_size: usize,
    pub total_size: usize,
}

// The bytes of the update that begins the slice; none where there is none.
#[tactic(auto, using(crate::proofs::ViewLaws::viewing))]
pub fn front(s: &[u8]) -> &[u8]
    ensures { result.now ≡ viewed s.now }
{
    match update_verdict::check_update(s) {
        Ok(m) => &s[..m.total as usize],
        Err(_) => &s[..0],
    }
}

pub fn holds_bytes(s: &[u8]) -> bool
    ensures { result ≡ holds_bytes s.now }
{
    0 < s.len()
}

pub fn total_size(s: &[u8]) -> usize
    ensures { result ≡ length s.now }
{
    s.len()
}

pub fn data_size(s: &[u8]) -> usize
    ensures { result ≡ length (data_part s.now) }
{
    data_part(s).len()
}
