// A choice of turns, held in a choice map: whether a turn fits beside it, what the rules ask of it, and choosing by the
// steps: going back over them, then filling. It knows turns only as rows in columns.

#![tactic(auto)]

mod asking;
mod choosing;
mod gathered;
mod rules;

pub use asking::{ASKED, put_asked};
pub use choosing::choose_turns;
pub use rules::{chosen_worth, is_independent, is_maximal};
