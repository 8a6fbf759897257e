// The board's calls: the proved calls, and their answers laid out in 16 words. board_c gives them to C.
#![tactic(auto)]

ghost use Rattle.std.specs.Prelude.{◌≡◌, length, false};
ghost use Rattle.call_dispatch.specs.Call.{inputs_of, call_reply, call_store, call_destination};
ghost use Rattle.load_choice.specs.Load.{load_choice};
ghost use Rattle.board_call_words.specs.Words.{ax_of, answer_words, call_words};
ghost use Rattle.board_load_words.specs.LoadWords.{load_ax, load_words};
ghost use Rattle.store_directory.specs.Scan.{store_ok};
ghost use Rattle.store_index.specs.Index.{index_of};
ghost use Rattle.store_index.specs.IndexAfter.{index_after};
ghost use Rattle.store_index.specs.IndexColumns.{columns_of, index_in};
ghost use Rattle.call_indexed.specs.IndexCall.{index_codes};
ghost use Rattle.call_indexed.specs.IndexedRead.{indexed_answer, indexed_bytes};
ghost use Rattle.load_indexed.specs.IndexedLoad.{indexed_choice};
ghost use Rattle.board_index_words.specs.IndexAnswerWords.{codes_words, codes_ax, carried_words};

use call_reads::read;
use store_blocks::MOST_BLOCKS;
use store_index::{COLUMNS, after};

// The image of AX of NOT_IMPLEMENTED.
const UNKNOWN: u32 = 0x8600;

// The four D042h calls. Function and sub-function are judged first, and an unknown one is answered at once. The arguments come one by one as
// from C: the IA-32 archive keeps no slice in a struct.
pub fn update_store_call(
    function: u32,
    sub_function: u32,
    task: u32,
    block: u32,
    loading: bool,
    store: &mut [u8],
    signatures: &[u32],
    platforms: &[u8],
    candidate: &[u8],
    read_back: u32,
    destination: &mut [u8],
    answer: &mut [u32; 16],
) -> u32
    ensures result { result ≡ ax_of (call_reply (inputs_of function sub_function task block loading store.old
        signatures.now
        platforms.now candidate.now read_back destination.old)).answer }
    ensures answers { answer.new ≡ call_words (call_reply (inputs_of function sub_function task block loading
        store.old signatures.now
        platforms.now candidate.now read_back destination.old)) }
    ensures stores { store.new ≡ call_store (inputs_of function sub_function task block loading
        store.old signatures.now
        platforms.now candidate.now read_back destination.old) }
    ensures copies { destination.new ≡ call_destination (inputs_of function sub_function task block loading
        store.old signatures.now
        platforms.now candidate.now read_back destination.old) }
{
    if call_dispatch::judged(function, sub_function).is_err() {
        board_call_words::unknown_words(loading, answer);
        return UNKNOWN;
    }
    let reply = call_dispatch::call(
        function,
        sub_function,
        task,
        block,
        loading,
        store,
        signatures,
        platforms,
        candidate,
        read_back,
        destination,
    );
    let a = reply.answer;
    board_call_words::call_words(a, reply.loading, answer);
    board_call_words::ax(a)
}

// The load choice.
#[tactic(auto, using(crate::specs::LoadAx::load_ax_outcome, load_choice::specs::LoadBoundLaws::load_inside))]
pub fn update_store_load(
    loading: bool,
    store: &[u8],
    signature: u32,
    platform: u32,
    answer: &mut [u32; 16],
) -> u32
    ensures result { result ≡ load_ax (load_choice loading store.now signature platform) }
    ensures answers { answer.new ≡ load_words loading store.now (load_choice loading
        store.now signature platform) }
{
    let choice = load_choice::choose(loading, store, signature, platform);
    board_load_words::load_words(choice, loading, store, answer);
    board_index_words::ax(choice)
}

// The index of a store, all unused for a bad one. An index is lent as four columns of 32 numbers, in C as 128 words.
#[tactic(auto, using(board_index_words::specs::IndexAnswerLaws::index_ax))]
pub fn update_store_index(
    store: &[u8],
    index: &mut [[u32; MOST_BLOCKS]; COLUMNS],
    answer: &mut [u32; 16],
) -> u32
    ensures result { result ≡ codes_ax (index_codes (store_ok store.now)) }
    ensures makes { index.new ≡ columns_of (index_of store.now) }
    ensures answers { answer.new ≡ codes_words (index_codes (store_ok store.now)) }
{
    let codes = call_indexed::index::put_index(store, index);
    board_index_words::codes_words(codes, answer);
    board_index_words::ax(codes)
}

// The index after an accepted write. It is never refused.
pub fn update_store_index_after(
    old: &[[u32; MOST_BLOCKS]; COLUMNS],
    emptied: u32,
    start: u32,
    revision: u32,
    size: u32,
    new_index: &mut [[u32; MOST_BLOCKS]; COLUMNS],
    answer: &mut [u32; 16],
) -> u32
    ensures result { result ≡ 0 }
    ensures makes { new_index.new ≡ columns_of (index_after (index_in old.now) emptied start revision size) }
    ensures answers { answer.new ≡ carried_words }
{
    *new_index = *old;
    after::carry(new_index, emptied, start, revision, size);
    *answer = [0; 16];
    0
}

// A read through an index.
#[tactic(auto, using(board_index_words::specs::IndexAnswerLaws::plan_ax, call_indexed::proofs::IndexedReadLaws::indexed_copyable), unfolding(call_indexed::specs::IndexedRead::indexed_answer, call_indexed::specs::IndexedRead::indexed_bytes))]
pub fn update_store_read_indexed(
    index: &[[u32; MOST_BLOCKS]; COLUMNS],
    block: u32,
    store: &[u8],
    destination: &mut [u8],
    answer: &mut [u32; 16],
) -> u32
    ensures result { result ≡ ax_of (indexed_answer store.now (index_in index.now) block
        (length destination.old)) }
    ensures answers { answer.new ≡ answer_words (indexed_answer store.now (index_in index.now)
        block (length destination.old)) false }
    ensures copies { destination.new ≡ indexed_bytes store.now (index_in index.now) block
        destination.old }
{
    let plan = call_indexed::read::indexed_plan(store, index, block, destination.len());
    read::copy_planned(store, block, destination, plan);
    board_index_words::plan_words(plan, answer);
    board_index_words::ax(plan)
}

// The load choice through an index.
#[tactic(auto, using(crate::specs::LoadAx::load_ax_outcome, load_indexed::proofs::IndexedLoadLaws::indexed_inside))]
pub fn update_store_load_indexed(
    loading: bool,
    index: &[[u32; MOST_BLOCKS]; COLUMNS],
    store: &[u8],
    signature: u32,
    platform: u32,
    answer: &mut [u32; 16],
) -> u32
    ensures result { result ≡ load_ax (indexed_choice loading store.now (index_in index.now) signature platform) }
    ensures answers { answer.new ≡ load_words loading store.now (indexed_choice loading
        store.now (index_in index.now) signature platform) }
{
    let choice = load_indexed::choose_by(loading, store, index, signature, platform);
    board_load_words::load_words(choice, loading, store, answer);
    board_index_words::ax(choice)
}
