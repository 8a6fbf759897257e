// A small store as blocks and marks: which blocks each update takes, whether it shares a processor with the candidate, and whether it is
// needed: covers a listed processor that the candidate doesn't.
ghost use Rattle.std.specs.Prelude.{◌≡◌, ◌+◌};
ghost use Rattle.test_all_outcomes.specs.SmallLayouts.{unused, block_bytes, with_update, kind_size, with_kind, codes, coded, owns, both_marks};

// Four arrays, not one of updates: the definitions of specs/ speak of each by itself.
#[derive(Clone, Copy)]
pub struct Layout {
    pub blocks: u32,
    pub count: u32,
    pub behind: u32,
    pub starts: [u32; 4],
    pub sizes: [u32; 4],
    pub shares: [bool; 4],
    pub needed: [bool; 4],
}

#[tactic(auto, unfolding(crate::specs::SmallLayouts::unused))]
fn unused(blocks: u32) -> Layout
    ensures { result ≡ unused blocks }
{
    Layout {
        blocks,
        count: 0,
        behind: 0,
        starts: [0; 4],
        sizes: [0; 4],
        shares: [false; 4],
        needed: [false; 4],
    }
}

// The bytes of a number of blocks below 64.
pub fn bytes(blocks: u32) -> u32
    ensures { result ≡ block_bytes blocks }
{
    blocks % 64 * 2048
}

fn sum(a: u32, b: u32) -> u64
    ensures { result ≡ a + b }
{
    a as u64 + b as u64
}

// The layout with an update more, which begins at `block`; none where the update has no room or is the fifth.
#[tactic(auto, unfolding(crate::specs::SmallLayouts::with_update, crate::specs::SmallLayouts::has_room, crate::specs::SmallLayouts::added))]
fn with_update(l: Layout, block: u32, size: u32, shares: bool, needed: bool) -> Option<Layout>
    ensures { result ≡ with_update l block size shares needed }
{
    let i = l.count as usize;
    if block < l.behind || i >= 4 || sum(block, size) > l.blocks as u64 {
        return None;
    }
    let mut m = l;
    m.starts[i] = block;
    m.sizes[i] = size;
    m.shares[i] = shares;
    m.needed[i] = needed;
    m.count = l.count + 1;
    m.behind = block + size;
    Some(m)
}

// The blocks of an update of a kind.
#[tactic(auto, unfolding(crate::specs::SmallLayouts::kind_size))]
fn kind_size(kind: u32) -> u32
    ensures { result ≡ kind_size kind }
{
    if kind < 5 { 1 } else { 2 }
}

// The layout with a block of one of nine kinds: 0 begins no update, 1 to 4 one of one block, 5 to 8 one of two, each with one pair of
// marks. None where the update has no room or is the fifth.
#[tactic(auto, unfolding(crate::specs::SmallLayouts::with_kind))]
fn with_block(l: Layout, block: u32, kind: u32) -> Option<Layout>
    ensures { result ≡ with_kind l block kind }
{
    if kind == 0 {
        return Some(l);
    }
    with_update(l, block, kind_size(kind), kind % 2 == 1, kind / 2 % 2 == 1)
}

// How many codes there are for a number of blocks: nine kinds for each.
#[tactic(auto, unfolding(crate::specs::SmallLayouts::codes))]
pub fn codes(blocks: u32) -> u32
    ensures { result ≡ codes blocks }
{
    match blocks {
        1 => 9,
        2 => 81,
        3 => 729,
        4 => 6561,
        5 => 59049,
        6 => 531441,
        _ => 0,
    }
}

// The layout with a code, a digit to base nine for each block. Each layout has one code.
#[tactic(auto, using(crate::specs::SmallLayoutLaws::coding))]
pub fn coded(blocks: u32, code: u32) -> Option<Layout>
    ensures { result ≡ coded blocks code }
{
    let mut l = unused(blocks);
    let mut rest = code;
    for block in 0..blocks {
        l = with_block(l, block, rest % 9)?;
        rest /= 9;
    }
    Some(l)
}

// Whether update `i` has block `c`.
#[tactic(auto, unfolding(crate::specs::SmallLayouts::owns))]
pub fn owns(l: Layout, i: usize, c: u32) -> bool
    ensures { result ≡ owns l i c }
{
    i < 4 && l.starts[i] <= c && (c as u64) < sum(l.starts[i], l.sizes[i])
}

// Whether some update has both marks.
pub fn both_marks(l: Layout) -> bool
    ensures { result ≡ both_marks l }
{
    (0..4).any(|i| l.shares[i] && l.needed[i])
}
