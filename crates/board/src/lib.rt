// The board's bytes: where its numbers and its steps stand, and writing them.

#![tactic(auto)]

mod header;
mod writing;

pub use header::{
    HEADER_BYTES, STEP_SIZE, WORTH_PLACE, board_bytes, step_count, steps_place, tally, turns, worth,
};
pub use writing::{put_front, put_step, step_amount, step_turn, sum_amounts};
