// Checks 2 and 3 of the write, on any bytes.
ghost use Rattle.std.specs.Prelude.{◌≡◌};
ghost use Rattle.update_header.specs.Fields.{data_size, total_size, table_count};
ghost use Rattle.update_header.specs.Checks.{header_ok, sizes_fit};

use crate::fields;

// Check 2 of the write.
#[tactic(auto, unfolding(crate::specs::Checks::header_ok))]
pub fn header_ok(s: &[u8]) -> bool
    ensures { result ≡ header_ok s.now }
{
    s.len() >= update_sizes::HEADER && fields::version(s) == 1 && fields::loader_version(s) == 1
}

// Check 3 of the write. `d`, `t` and `n` are the sizes and the table's count field.
#[tactic(auto, unfolding(crate::specs::Checks::sizes_fit))]
pub fn sizes_fit(s: &[u8], d: u32, t: u32, n: u32) -> bool
    requires { (d ≡ data_size s.now) × (t ≡ total_size s.now) × (n ≡ table_count s.now) }
    ensures { result ≡ sizes_fit s.now }
{
    update_sizes::sizes_ok(d, t, n) && t as usize <= s.len()
}
