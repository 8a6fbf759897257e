// The answer words of the index functions, and the image of AX of a Result.
#![tactic(auto)]

ghost use Rattle.std.specs.Prelude.{◌≡◌, false};
ghost use Rattle.board_call_words.specs.Words.{answer_words};
ghost use Rattle.call_reads.specs.Read.{answered};
ghost use Rattle.board_index_words.specs.IndexAnswerWords.{outcome_ax, codes_words};

use call_answers::refusal::Refusal;
use call_reads::read::ReadPlan;

// The image of AX of a call that was done or refused: an index call, a read through an index, a load choice.
pub fn ax<T: Copy>(outcome: Result<T, Refusal>) -> u32
    ensures { result ≡ outcome_ax outcome }
{
    match outcome {
        Ok(_) => 0,
        Err(r) => board_row::ax(r.ah(), r.al()),
    }
}

// Writes the words of the index call: case 0 where it was done, 1 where it is refused.
#[tactic(auto, unfolding(crate::specs::IndexAnswerWords::codes_words, board_row::specs::Row::row_of))]
pub fn codes_words(codes: Result<(), Refusal>, answer: &mut [u32; 16])
    ensures { answer.new ≡ codes_words codes }
{
    match codes {
        Ok(()) => *answer = [0; 16],
        Err(r) => board_row::put(answer, r.ah(), r.al(), 0, 1, 0, 0, 0, 0),
    }
}

// Writes the words of a read that went by its plan, without call_words: with two callers the compiler makes a function of that one, and a control
// call then takes 8.0 ns for 6.3.
#[tactic(auto, using(call_answers::specs::RefusalLaws::refusal_coded), unfolding(board_call_words::specs::Words::answer_words, board_row::specs::Row::row_of, call_reads::specs::Read::answered))]
pub fn plan_words(plan: ReadPlan, answer: &mut [u32; 16])
    ensures { answer.new ≡ answer_words (answered plan) false }
{
    match plan {
        Ok(blocks) => board_row::put(answer, 0, 0, 0, 3, blocks, 0, 0, 0),
        Err(r) => board_row::put(answer, r.ah(), r.al(), 0, 4, 0, 0, 0, 0),
    }
}
