// The load choice, laid out in 16 words. Its image of AX is board_index_words::ax, as of any Result.
#![tactic(auto)]

ghost use Rattle.std.specs.Prelude.{◌≡◌};
ghost use Rattle.load_choice.specs.LoadBounds.{StartBelow32};
ghost use Rattle.board_load_words.specs.LoadWords.{load_words};

use call_answers::choice::LoadChoice;
use update_header::fields;

// Bytes of a block, in 32 bits as the answer has its words.
const BLOCK: u32 = store_blocks::BLOCK as u32;
// Bytes of the header.
const HEADER: u32 = update_sizes::HEADER as u32;

// Writes the words of a load choice.
#[tactic(auto, unfolding(crate::specs::LoadWords::load_words, board_row::specs::Row::row_of))]
pub fn load_words(c: LoadChoice, loading: bool, store: &[u8], answer: &mut [u32; 16])
    requires { StartBelow32 c }
    ensures { answer.new ≡ load_words loading store.now c }
{
    let on = u32::from(loading);
    match c {
        Err(refusal) => board_row::put(answer, refusal.ah(), refusal.al(), on, 2, 0, 0, 0, 0),
        Ok(None) => board_row::put(answer, 0, 0, on, 0, 0, 0, 0, 0),
        Ok(Some(chosen)) => {
            let offset = chosen.start * BLOCK + HEADER;
            let count = fields::data_size(store_blocks::from_block(store, chosen.start));
            board_row::put(
                answer,
                0,
                0,
                on,
                1,
                chosen.start,
                chosen.revision,
                offset,
                count,
            )
        }
    }
}
