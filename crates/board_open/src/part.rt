// The steps' part of a board by place and length, for those who cannot be handed a part.
ghost use Rattle.std.specs.Prelude.{◌≡◌, take, drop};
ghost use Rattle.board_open.specs.Open.{steps_part};
ghost use Rattle.board_open.specs.Part.{steps_part_at};

use super::opening::{open, steps};

// A part of the caller's own bytes: where it starts, and its length.
#[repr(C)]
#[derive(Clone, Copy)]
pub struct Part {
    pub start: usize,
    pub length: usize,
}

// The part of the board that `steps` returns.
pub fn steps_at(board: &[u8]) -> Part
    ensures value { result ≡ steps_part_at board.now }
    ensures board_value { take result.length (drop result.start board.now) ≡ steps_part board.now }
{
    if open(board) != 0 {
        return Part {
            start: 0,
            length: 0,
        };
    }
    let part = steps(board);
    let length = part.len();
    Part {
        start: board.len() - length,
        length,
    }
}
