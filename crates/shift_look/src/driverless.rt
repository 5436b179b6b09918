// Turns of which none names a driver. Each pays for its slope alone, so the sums along the drivers' order are
// left out, and for the limit that order too.
ghost use Rattle.std.specs.Prelude.{◌≡◌, ◌+◌, ◌≤◌, ◌<◌, ltb};
ghost use Rattle.sheet.specs.Kind.{most_turns};
ghost use Rattle.model.specs.Turns.{NoDrivers};
ghost use Rattle.instance.specs.Columns.{turns_by, Held};
ghost use Rattle.best_spec.specs.Table.{best_worth};
ghost use Rattle.best_table.specs.OrderAndTable.{Ranged};
ghost use Rattle.limit_spec.specs.Prices.{counts_for, price_sum};
ghost use Rattle.shift_look.specs.OrdersAndCounts.{counted_turns, turns_in, greatest_driver, Priced, CountsTo};

use super::counts::net_of;
use super::sums::{price_at, slope_prices};
use super::{Extent, ORDERS};
use best_table::{ENTRIES, fill_table};
use instance::{MOST_TURNS, PLACES, Size, row_at};

// The greatest driver that a turn names, 0 where none does.
fn greatest_driver(p: Size, cols: &[u16; PLACES]) -> u16
    requires { p.count ≤ most_turns }
    ensures { result ≡ greatest_driver (turns_by p cols.now) p.count }
{
    let mut greatest: u16 = 0;
    for t in 0..p.count {
        greatest = row_at(cols, t).driver.max(greatest);
    }
    greatest
}

// Whether a turn names a driver. The first turn is asked by itself: where turns have drivers it most often names one,
// and the others need not be asked.
pub fn any_driver(p: Size, cols: &[u16; PLACES]) -> bool
    requires { p.count ≤ most_turns }
    ensures { result ≡ ltb 0 (greatest_driver (turns_by p cols.now) p.count) }
{
    if p.count == 0 {
        return false;
    }
    if 0 < row_at(cols, 0).driver {
        return true;
    }
    0 < greatest_driver(p, cols)
}

// What turn t counts for.
fn slope_count(e: Extent, cols: &[u16; PLACES], prices: &[u16], t: usize) -> u16
    requires { (t < e.size.count) × Priced e cols.now prices.now × NoDrivers (turns_in e cols.now) }
    ensures { result ≡ counts_for (turns_in e cols.now) e.slopes prices.now t }
{
    let row = row_at(cols, t);
    let paid = price_at(prices, row.slope as usize - 1);
    net_of(row.worth, paid)
}

// What all turns count for.
pub fn put_slope_counts(
    e: Extent,
    cols: &[u16; PLACES],
    prices: &[u16],
    counts: &mut [u16; MOST_TURNS],
)
    requires { Priced e cols.now prices.now × NoDrivers (turns_in e cols.now) }
    ensures { CountsTo (turns_in e cols.now) e.slopes prices.now counts.new e.size.count }
{
    for t in 0..e.size.count {
        counts[t] = slope_count(e, cols, prices, t);
    }
}

// The limit at these prices, with places for the groomers' order.
pub fn limit_driverless(
    e: Extent,
    cols: &[u16; PLACES],
    prices: &[u16],
    orders: &mut [u16; ORDERS],
) -> u32
    requires { Held e.size cols.now × Ranged e.size cols.now × Priced e cols.now prices.now × NoDrivers (turns_in e cols.now) }
    ensures { result ≡ price_sum (turns_in e cols.now) e.slopes prices.now
        + best_worth (counted_turns (turns_in e cols.now) e.slopes prices.now) }
{
    best_table::put_places(e.size, cols, orders);
    let mut counts = [0u16; MOST_TURNS];
    put_slope_counts(e, cols, prices, &mut counts);
    let mut worths = [0u32; ENTRIES];
    let mut firsts = [0u16; ENTRIES];
    fill_table(e.size.count, orders, &counts, &mut worths, &mut firsts);
    slope_prices(prices, e.slopes) + worths[0]
}
