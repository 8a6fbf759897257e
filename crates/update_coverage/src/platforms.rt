// The platforms that the header's flags name.
ghost use Rattle.std.specs.Prelude.{◌≡◌};
ghost use Rattle.update_coverage.specs.Covers.{platforms_at};
ghost use Rattle.update_coverage.specs.Platforms.{platform_count, lowest_platform};

use update_header::fields;

// The flags of the header that count.
#[tactic(auto, unfolding(crate::specs::Covers::platforms_at, crate::specs::Covers::flags_at, crate::specs::Covers::flags_offset))]
pub fn header_platforms(s: &[u8]) -> u8
    ensures { result ≡ platforms_at s.now 0 }
{
    (fields::flags(s) % 256) as u8
}

// How many platforms.
#[tactic(auto, using(crate::proofs::PlatformLaws::ones_count))]
pub fn platform_count(s: &[u8]) -> u32
    ensures { result ≡ platform_count s.now }
{
    header_platforms(s).count_ones()
}

// The lowest platform, 8 where there is none.
#[tactic(auto, using(crate::proofs::PlatformLaws::zeros_first))]
pub fn lowest_platform(s: &[u8]) -> u32
    ensures { result ≡ lowest_platform s.now }
{
    header_platforms(s).trailing_zeros()
}
