// The engine of the local ratio method: residuals, what a step takes, what steps count for.

#![tactic(auto)]

mod counting;
mod residuals;

pub use counting::{BLOCK, apply_step};
pub use residuals::{first_open, is_open, left_of, lessen, none_open, set_initial, value_if};
