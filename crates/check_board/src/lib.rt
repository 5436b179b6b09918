// The check of a board against its sheet.

#![tactic(auto)]

mod judge;
mod orders;
mod replay;

pub use judge::{board_fault, check};
