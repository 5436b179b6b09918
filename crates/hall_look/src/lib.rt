// A look at a hall's prices of minutes: the limit, and the relaxed set.

#![tactic(auto)]

mod limit;
mod relaxed;
mod sums;

use instance::Size;
pub use limit::limit_at;
pub use relaxed::look_at;
pub use sums::MINUTES;

// The units of a hall's supply, its vehicles, and how many windows it has.
#[derive(Clone, Copy)]
pub struct HallSize {
    pub units: u16,
    pub vehicles: u16,
    pub size: Size,
}
