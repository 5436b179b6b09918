// What rounds are made of, whatever their rule: the turns by worth, the list that a choice is made from, the
// lowest limit, the change, what a choice is worth.

#![tactic(auto)]

mod change;
mod lowest;
mod ranking;
mod worth;

pub use change::{greatest_worth, next_change};
pub use lowest::{is_over, keep_lower};
pub use ranking::{put_list, put_ranks};
pub use worth::worth_chosen;
