// Sub-function 3, read.
ghost use Rattle.std.specs.Prelude.{◌≡◌, length};
ghost use Rattle.call_reads.specs.Read.{read_blocks, read_kind, read_plan, answered, copied, read_answer, read_bytes};
ghost use Rattle.call_reads.specs.CopyBounds.{Copyable};

use call_answers::answer::{Answer, Read};
use call_answers::code;
use call_answers::refusal::Refusal;
use store_blocks::BLOCK;
use store_directory::kind;
use store_directory::kind::Kind;

// So many blocks are to be copied, or why the read is refused.
pub type ReadPlan = Result<u32, Refusal>;

// `k` blocks are to be copied into `lent` bytes.
#[tactic(auto, unfolding(crate::specs::Read::read_blocks, laws::specs::Unless::unless))]
pub fn read_blocks(k: u32, lent: usize) -> ReadPlan
    ensures { result ≡ read_blocks k lent }
{
    if lent < k as usize * BLOCK {
        Err(Refusal::ShortDestination)
    } else {
        Ok(k)
    }
}

#[tactic(auto, unfolding(crate::specs::Read::read_kind))]
fn read_kind(kind: Kind, lent: usize) -> ReadPlan
    ensures { result ≡ read_kind kind lent }
{
    match kind {
        Kind::Unused => read_blocks(1, lent),
        Kind::First { blocks } => read_blocks(blocks, lent),
        Kind::Later => Err(Refusal::NotEmpty),
    }
}

// The checks in their order, for a destination of `lent` bytes.
fn read_plan(store: &[u8], block: u32, lent: usize) -> ReadPlan
    ensures { result ≡ read_plan store.now block lent }
{
    let d = store_directory::read_store(store).ok_or(Refusal::BadStore)?;
    if block as usize >= store.len() / BLOCK {
        return Err(Refusal::InvalidBlock);
    }
    read_kind(kind::block_kind(d, block), lent)
}

// Carries a plan out: copies the blocks, or refuses. The bytes behind the blocks stay.
#[tactic(auto, using(crate::proofs::ReadLaws::copying), unfolding(crate::specs::Read::answered))]
pub fn copy_planned(store: &[u8], block: u32, destination: &mut [u8], plan: ReadPlan) -> Answer
    requires { Copyable store.now block (length destination.old) plan }
    ensures answers { result ≡ answered plan }
    ensures copies { destination.new ≡ copied store.now block destination.old plan }
{
    match plan {
        Ok(blocks) => {
            let from = store_blocks::from_block(store, block);
            bytes_copy::put(destination, 0, from, blocks as usize * BLOCK);
            Answer::Read(Read {
                ah: code::SUCCESS,
                al: code::NONE,
                carry: false,
                blocks,
            })
        }
        Err(r) => Answer::from(r),
    }
}

// Copies an unused block, or all blocks of the update that begins at the block. The bytes behind them stay.
pub fn read(store: &[u8], block: u32, destination: &mut [u8]) -> Answer
    ensures answers { result ≡ read_answer store.now block (length destination.old) }
    ensures copies { destination.new ≡ read_bytes store.now block destination.old }
{
    let plan = read_plan(store, block, destination.len());
    copy_planned(store, block, destination, plan)
}
