// The fields of an update's header, as stored, and the sizes that they mean.
ghost use Rattle.std.specs.Prelude.{◌≡◌};
ghost use Rattle.update_header.specs.Fields.{version, revision, date, signature, checksum, loader_version, flags, stored_data_size, stored_total_size, data_size, total_size, table_count};

// Where the signature stands in the header.
pub const SIGNATURE_AT: usize = 12;
// Where the flags stand in the header.
pub const FLAGS_AT: usize = 24;
// Where D stands.
pub const DATA_SIZE_AT: usize = 28;
// Where T stands.
pub const TOTAL_SIZE_AT: usize = 32;

// One function for each field, since callers know them by these names.
// Must be 1.
pub fn version(s: &[u8]) -> u32
    ensures { result ≡ version s.now }
{
    bytes_dwords::dword(s, 0)
}

pub fn revision(s: &[u8]) -> u32
    ensures { result ≡ revision s.now }
{
    bytes_dwords::dword(s, 4)
}

pub fn date(s: &[u8]) -> u32
    ensures { result ≡ date s.now }
{
    bytes_dwords::dword(s, 8)
}

pub fn signature(s: &[u8]) -> u32
    ensures { result ≡ signature s.now }
{
    bytes_dwords::dword(s, SIGNATURE_AT)
}

pub fn checksum(s: &[u8]) -> u32
    ensures { result ≡ checksum s.now }
{
    bytes_dwords::dword(s, 16)
}

// Must be 1.
pub fn loader_version(s: &[u8]) -> u32
    ensures { result ≡ loader_version s.now }
{
    bytes_dwords::dword(s, 20)
}

pub fn flags(s: &[u8]) -> u32
    ensures { result ≡ flags s.now }
{
    bytes_dwords::dword(s, FLAGS_AT)
}

// D as stored: 0 means 2,000.
pub fn stored_data_size(s: &[u8]) -> u32
    ensures { result ≡ stored_data_size s.now }
{
    bytes_dwords::dword(s, DATA_SIZE_AT)
}

// T as stored: it has no meaning where D is stored as 0.
pub fn stored_total_size(s: &[u8]) -> u32
    ensures { result ≡ stored_total_size s.now }
{
    bytes_dwords::dword(s, TOTAL_SIZE_AT)
}

// The number of data bytes.
#[tactic(auto, unfolding(crate::specs::Fields::data_size))]
pub fn data_size(s: &[u8]) -> u32
    ensures { result ≡ data_size s.now }
{
    update_sizes::data_size_of(stored_data_size(s))
}

// The number of bytes in all.
#[tactic(auto, unfolding(crate::specs::Fields::total_size))]
pub fn total_size(s: &[u8]) -> u32
    ensures { result ≡ total_size s.now }
{
    update_sizes::total_size_of(stored_data_size(s), stored_total_size(s))
}

// The table's count field, which stands behind the `d` data bytes.
#[tactic(auto, unfolding(crate::specs::Fields::table_count))]
pub fn table_count(s: &[u8], d: u32) -> u32
    requires { d ≡ data_size s.now }
    ensures { result ≡ table_count s.now }
{
    bytes_dwords::dword(s, update_sizes::HEADER + d as usize)
}
