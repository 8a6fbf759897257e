// The lines of the catalogue.
ghost use Rattle.std.specs.Prelude.{◌≡◌, ◌+◌, ◌≤◌, [], ◌∷◌, ◌++◌};
ghost use Rattle.report_text.specs.Digits.{TwoDigits, decimal};
ghost use Rattle.report_text.specs.Texts.{text_room, added};
ghost use Rattle.report_catalogue.specs.Catalogue.{catalogue_line};
ghost use Rattle.report_catalogue.specs.Walk.{longest_number, longest_line};

use report_text::Text;
use update_coverage::platforms;
use update_header::fields;

// A number and the byte behind it.
#[tactic(auto, using(report_text::specs::TextLaws::added_twice))]
pub fn number(t: Text, n: u32, end: u8) -> Text
    requires { TwoDigits n × (t.len + longest_number ≤ text_room) }
    ensures text { result ≡ added t (decimal n ++ (end ∷ [])) }
    ensures long { result.len ≤ t.len + longest_number }
{
    t.decimal(n).byte(end)
}

// The line of the update of `size` blocks that begins at block `start`.
#[tactic(auto, using(report_text::specs::TextLaws::added_twice, crate::proofs::LineLaws::few_platforms, crate::proofs::LineLaws::low_platform), unfolding(crate::specs::Catalogue::line_of))]
pub fn update_line(t: Text, s: &[u8], start: u32, size: u32) -> Text
    requires { TwoDigits start × TwoDigits size × (t.len + longest_line ≤ text_room) }
    ensures text { result ≡ added t (catalogue_line s.now start size) }
    ensures long { result.len ≤ t.len + longest_line }
{
    let u = store_blocks::from_block(s, start);
    let blocks = number(number(t, start, b' '), size, b' ');
    let revision = blocks.hex8(fields::revision(u)).byte(b' ');
    let count = number(revision, platforms::platform_count(u), b' ');
    number(count, platforms::lowest_platform(u), b'\n')
}
