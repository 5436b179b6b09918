// What turns pay and count for at some prices, and the best sets of the groomers at these counts.

#![tactic(auto)]

mod counts;
mod driverless;
mod looking;
mod orders;
mod runs;
mod sums;

pub use driverless::{any_driver, limit_driverless};
use instance::{MOST_TURNS, Size};
pub use looking::{limit_at, look_at};
pub use orders::put_orders;
pub use runs::{DRIVERS, FROMS, TOS};

// Five columns: the groomers' order, where its sets go on, the drivers' order, where each turn's run starts and
// where it ends (Ordered).
pub const ORDERS: usize = 5 * MOST_TURNS;

// How many turns and slopes there are, and the gap.
#[derive(Clone, Copy)]
pub struct Extent {
    pub size: Size,
    pub slopes: usize,
}
