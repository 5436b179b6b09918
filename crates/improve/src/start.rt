// The planned board, from which the search starts.
ghost use Rattle.std.specs.Prelude.{◌≤◌};
ghost use Rattle.instance.specs.Columns.{turns_by, Held};
ghost use Rattle.improve.specs.Words.{word_bits};
ghost use Rattle.improve.specs.Start.{StartOf};

use super::words::word_of;
use instance::{PLACES, Size};

// The board's worth, its ceiling, and its set as a word.
#[derive(Clone, Copy)]
pub struct Start {
    pub worth: u32,
    pub ceiling: u32,
    pub turns: u64,
}

// The board is planned into a place of its own, with room for what planning puts down. The ceiling was
// counted while the steps were made.
pub fn start_of(p: Size, cols: &[u16; PLACES], room: &mut [u16; PLACES]) -> Start
    requires { Held p cols.now × (p.count ≤ word_bits) }
    ensures { StartOf (turns_by p cols.now) result }
{
    let mut space = [0u8; plan::BOARD_BYTES];
    let made = plan::write_board(p, cols, &mut space, &mut *room);
    let b = &space[..made.bytes as usize];
    Start {
        worth: board::worth(b),
        ceiling: made.ceiling,
        turns: word_of(board_open::map(b), p.count),
    }
}
