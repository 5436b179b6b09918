// Sums of prices: of all slopes, and from the front of the drivers' order.
ghost use Rattle.std.specs.Prelude.{◌≡◌, ◌*◌, ◌≤◌, ◌<◌, length, get_or, replicate};
ghost use Rattle.limit_spec.specs.Prices.{most_price};
ghost use Rattle.sheet.specs.Kind.{most_turns, most_slopes};
ghost use Rattle.best_table.specs.OrderAndTable.{entry_places};
ghost use Rattle.shift_look.specs.OrdersAndCounts.{turns_in, place_driver, slopes_sum, Priced, Ordered, NamedFrom, SumsTo};

use super::runs::DRIVERS;
use super::{Extent, ORDERS};
use best_table::ENTRIES;
use instance::{PLACES, row_at};

// The price at place i.
pub fn price_at(prices: &[u16], i: usize) -> u32
    requires { i < length prices.now }
    ensures { (result ≡ get_or prices.now i 0) × (result ≤ most_price) }
{
    u32::from(prices[i])
}

// The prices of all slopes, which come first.
pub fn slope_prices(prices: &[u16], slopes: usize) -> u32
    requires { (slopes ≤ most_slopes) × (slopes ≤ length prices.now) }
    ensures { (result ≡ slopes_sum prices.now slopes) × (result ≤ most_slopes * most_price) }
{
    let mut sum = 0;
    for k in 0..slopes {
        sum += price_at(prices, k);
    }
    sum
}

// The driver of the turn at place j of the drivers' order.
fn driver_at(e: Extent, cols: &[u16; PLACES], orders: &[u16; ORDERS], j: usize) -> u16
    requires { (j < e.size.count) × (e.size.count ≤ most_turns) × Ordered (turns_in e cols.now) orders.now }
    ensures { result ≡ place_driver (turns_in e cols.now) j }
{
    row_at(cols, orders[DRIVERS + j] as usize).driver
}

// The first place of the drivers' order whose turn names a driver: turns without one all stand before it. As many
// places as there are turns if none does.
fn first_named(e: Extent, cols: &[u16; PLACES], orders: &[u16; ORDERS]) -> usize
    requires { (e.size.count ≤ most_turns) × Ordered (turns_in e cols.now) orders.now }
    ensures { NamedFrom (turns_in e cols.now) e.size.count result }
{
    for j in 0..e.size.count {
        if 0 < driver_at(e, cols, orders, j) {
            return j;
        }
    }
    e.size.count
}

// The sums of what is paid at the first places, from none of them to all. They come in as zeros, and stay so for turns
// that name no driver, which come first.
pub fn put_sums(
    e: Extent,
    cols: &[u16; PLACES],
    orders: &[u16; ORDERS],
    prices: &[u16],
    sums: &mut [u32; ENTRIES],
)
    requires { Priced e cols.now prices.now × Ordered (turns_in e cols.now) orders.now × (sums.old ≡ replicate entry_places 0) }
    ensures { SumsTo (turns_in e cols.now) e.slopes prices.now sums.new e.size.count }
{
    for j in first_named(e, cols, orders)..e.size.count {
        let u = orders[DRIVERS + j] as usize;
        sums[j + 1] = sums[j] + price_at(prices, e.slopes + u);
    }
}
