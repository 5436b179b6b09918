// The charging hall by prices: its limit, and a better set by rounds in which the prices of minutes move.

#![tactic(auto)]

mod limit;
mod refine;

pub use limit::charge_limit;
pub use refine::charge_refine;
