// A text for people: what is written behind it while it is being made, and the text put into a lent buffer.
#![tactic(auto)]

pub mod give;

ghost use Rattle.std.specs.Prelude.{◌≡◌, ◌+◌, ◌≤◌, ◌<◌, [], ◌∷◌, length};
ghost use Rattle.report_text.specs.Digits.{TwoDigits, decimal, hex_digit, hex8};
ghost use Rattle.report_text.specs.Texts.{text_room, no_text, added};

// How many bytes a text has room for.
pub const ROOM: usize = 1024;

// A text of `needed` bytes, more than the buffer has, which is as it was.
#[derive(Clone, Copy, PartialEq, Eq)]
pub struct ShortBuffer {
    pub needed: u32,
}

// What became of a text: how many of the buffer's first bytes it is, or that the buffer is too short.
pub type Report = Result<u32, ShortBuffer>;

// A text that is being made. An array with a length: `no_text` and `added` fix the bytes behind it too, of which an `ArrayVec` says nothing.
// No ghost field for its bound: `added` makes a text of any bytes.
#[derive(Clone, Copy)]
pub struct Text {
    pub bytes: [u8; ROOM],
    // how many of them count
    pub len: usize,
}

impl Text {
    #[tactic(auto, unfolding(crate::specs::Texts::no_text))]
    pub fn empty() -> Text
        ensures text { result ≡ no_text }
        ensures long { result.len ≡ 0 }
    {
        Text {
            bytes: [0; ROOM],
            len: 0,
        }
    }

    #[tactic(auto, using(crate::specs::TextLaws::added_byte))]
    pub fn byte(self, b: u8) -> Text
        requires { self.len < text_room }
        ensures text { result ≡ added self (b ∷ []) }
        ensures long { result.len ≡ self.len + 1 }
    {
        let at = self.len;
        let mut bytes = self.bytes;
        bytes[at] = b;
        Text { bytes, len: at + 1 }
    }

    #[tactic(auto, using(crate::specs::TextListLaws::take_more, crate::specs::TextLaws::added_none, crate::specs::TextLaws::added_twice))]
    pub fn word(self, s: &[u8]) -> Text
        requires { self.len + length s.now ≤ text_room }
        ensures text { result ≡ added self s.now }
        ensures long { result.len ≡ self.len + length s.now }
    {
        let mut r = self;
        for b in s {
            r = r.byte(*b);
        }
        r
    }

    // A number below 100, without padding. By hand: the library's printing needs a buffer of its own, which one or two digits don't.
    #[tactic(auto, using(crate::specs::DigitLaws::decimal_one, crate::specs::DigitLaws::decimal_two, crate::specs::TextLaws::added_twice))]
    pub fn decimal(self, n: u32) -> Text
        requires { TwoDigits n × (self.len + 2 ≤ text_room) }
        ensures text { result ≡ added self (decimal n) }
        ensures long { result.len ≤ self.len + 2 }
    {
        if n < 10 {
            self.byte(b'0' + n as u8)
        } else {
            let tens = self.byte(b'0' + (n / 10) as u8);
            tens.byte(b'0' + (n % 10) as u8)
        }
    }

    // Eight upper-case hex digits.
    #[tactic(auto, using(crate::specs::DigitLaws::hex_none, crate::specs::DigitLaws::hex_more, crate::specs::DigitLaws::hex_all, crate::specs::TextLaws::added_none, crate::specs::TextLaws::added_twice))]
    pub fn hex8(self, n: u32) -> Text
        requires { self.len + 8 ≤ text_room }
        ensures text { result ≡ added self (hex8 n) }
        ensures long { result.len ≡ self.len + 8 }
    {
        let mut r = self;
        for i in 0..8u32 {
            r = r.byte(hex_digit((n >> (4 * (7 - i))) % 16));
        }
        r
    }
}

// By a table: `char::from_digit` gives lower-case letters.
#[tactic(auto, unfolding(crate::specs::Digits::hex_digit))]
fn hex_digit(d: u32) -> u8
    requires { d < 16 }
    ensures { result ≡ hex_digit d }
{
    b"0123456789ABCDEF"[d as usize]
}
