// A row of 16 answer words: the words that mean the same in every answer, and the numbers of the case behind them. The image of AX.
#![tactic(auto)]

ghost use Rattle.std.specs.Prelude.{◌≡◌, ◌+◌, ◌*◌};
ghost use Rattle.board_row.specs.Row.{row_of};

// The image of AX.
pub fn ax(ah: u8, al: u8) -> u32
    ensures { result ≡ ah * 256 + al }
{
    u32::from(ah) * 256 + u32::from(al)
}

// Writes the common words and four numbers of the case, one by one as they go out to C; the words behind them are 0. Carry is set exactly if AH
// is not 0.
#[tactic(auto, unfolding(crate::specs::Row::row_of))]
pub fn put(
    answer: &mut [u32; 16],
    ah: u8,
    al: u8,
    on: u32,
    case: u32,
    n0: u32,
    n1: u32,
    n2: u32,
    n3: u32,
)
    ensures { answer.new ≡ row_of ah al on case n0 n1 n2 n3 }
{
    let h = u32::from(ah);
    let l = u32::from(al);
    let c = u32::from(ah != 0);
    *answer = [h, l, c, on, case, n0, n1, n2, n3, 0, 0, 0, 0, 0, 0, 0];
}

// Writes the words of a control call that was done. Zeros and three words take fewer stores than sixteen words.
#[tactic(auto, unfolding(crate::specs::Row::row_of))]
pub fn put_status(answer: &mut [u32; 16], on: u32, status: u32)
    ensures { answer.new ≡ row_of 0 0 on 2 status 0 0 0 }
{
    *answer = [0; 16];
    answer[3] = on;
    answer[4] = 2;
    answer[5] = status;
}
