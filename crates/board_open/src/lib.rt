// Opening a board: whether any bytes are one, where its steps and its map are, which turns it chooses.

#![tactic(auto)]

mod opening;
mod part;

pub use opening::{CountAnswer, chooses, count, map, open, steps};
pub use part::{Part, steps_at};
