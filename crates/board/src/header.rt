// The board's layout: the header's numbers and where they stand, and the sizes after it.
ghost use Rattle.std.specs.Prelude.{◌≡◌, ◌≤◌, length};
ghost use Rattle.board.specs.Board.{board_header, board_turns, board_steps, board_tally, board_worth, steps_place, board_length};

use choice_map::map_bytes;

// After the mark, each number after the one before.
pub const TURNS_PLACE: usize = 3;

pub const STEP_COUNT_PLACE: usize = TURNS_PLACE + 2;

pub const TALLY_PLACE: usize = STEP_COUNT_PLACE + 2;

pub const WORTH_PLACE: usize = TALLY_PLACE + 4;

pub const HEADER_BYTES: usize = WORTH_PLACE + 4;

// The bytes of a step: turn number and amount, two bytes each.
pub const STEP_SIZE: usize = 2 + 2;

// The number of turns that a board names.
pub fn turns(b: &[u8]) -> u16
    requires { board_header ≤ length b.now }
    ensures { result ≡ board_turns b.now }
{
    wire::word_at(b, TURNS_PLACE)
}

// The number of steps that it names.
pub fn step_count(b: &[u8]) -> u16
    requires { board_header ≤ length b.now }
    ensures { result ≡ board_steps b.now }
{
    wire::word_at(b, STEP_COUNT_PLACE)
}

// The tally that it names.
pub fn tally(b: &[u8]) -> u32
    requires { board_header ≤ length b.now }
    ensures { result ≡ board_tally b.now }
{
    wire::quad_at(b, TALLY_PLACE)
}

// The worth that it names.
pub fn worth(b: &[u8]) -> u32
    requires { board_header ≤ length b.now }
    ensures { result ≡ board_worth b.now }
{
    wire::quad_at(b, WORTH_PLACE)
}

// Where the steps start in a board of n turns.
pub fn steps_place(n: u16) -> usize
    ensures { result ≡ steps_place n }
{
    HEADER_BYTES + map_bytes(n)
}

// The length of a board of n turns and m steps.
pub fn board_bytes(n: u16, m: u16) -> usize
    ensures { result ≡ board_length n m }
{
    steps_place(n) + STEP_SIZE * usize::from(m)
}
