// What each turn pays, and what it counts for.
ghost use Rattle.std.specs.Prelude.{◌≡◌, ◌+◌, ◌-◌, ◌*◌, ◌≤◌, ◌<◌, get_or};
ghost use Rattle.sheet.specs.Kind.{most_turns, most_slopes};
ghost use Rattle.instance.specs.Columns.{turns_by};
ghost use Rattle.limit_spec.specs.Prices.{paid_by, price_sum, most_price};
ghost use Rattle.shift_look.specs.OrdersAndCounts.{turns_in, paid_from, paid_to, left_after, Priced, Ordered};
ghost use Rattle.shift_look.specs.OrdersAndCounts.{SumsTo, NumbersTo, PaymentsTo, CountsTo};

use super::driverless::{any_driver, put_slope_counts};
use super::runs::{FROMS, TOS};
use super::sums::{price_at, put_sums, slope_prices};
use super::{Extent, ORDERS};
use best_table::ENTRIES;
use instance::{MOST_TURNS, PLACES, Size, row_at};

// The sum of what is paid at the places of turn t's run.
fn run_sum(orders: &[u16; ORDERS], sums: &[u32; ENTRIES], t: usize) -> u32
    requires t_lt_most_turns { (t < most_turns) × (paid_from orders.now t ≤ most_turns) × (paid_to orders.now t ≤ most_turns) }
    requires t_bound { get_or sums.now (paid_from orders.now t) 0 ≤ get_or sums.now (paid_to orders.now t) 0 }
    ensures { result ≡ get_or sums.now (paid_to orders.now t) 0 - get_or sums.now (paid_from orders.now t) 0 }
{
    sums[orders[TOS + t] as usize] - sums[orders[FROMS + t] as usize]
}

// What is left of a worth, nothing if all of it is paid. Branch-free: a branch per turn would be mispredicted.
pub fn net_of(worth: u16, paid: u32) -> u16
    ensures { result ≡ worth - paid }
{
    u32::from(worth).saturating_sub(paid) as u16
}

// All that turn t pays.
fn paid_by(
    e: Extent,
    cols: &[u16; PLACES],
    orders: &[u16; ORDERS],
    prices: &[u16],
    sums: &[u32; ENTRIES],
    t: usize,
) -> u32
    requires t_lt_count { (t < e.size.count) × Priced e cols.now prices.now × Ordered (turns_in e cols.now) orders.now }
    requires sums_to { SumsTo (turns_in e cols.now) e.slopes prices.now sums.now e.size.count }
    ensures { result ≡ paid_by (turns_in e cols.now) e.slopes prices.now t }
{
    let row = row_at(cols, t);
    price_at(prices, row.slope as usize - 1) + run_sum(orders, sums, t)
}

// What all turns pay.
fn put_payments(
    e: Extent,
    cols: &[u16; PLACES],
    orders: &[u16; ORDERS],
    prices: &[u16],
    sums: &[u32; ENTRIES],
    paid: &mut [u32; MOST_TURNS],
)
    requires priced { Priced e cols.now prices.now × Ordered (turns_in e cols.now) orders.now }
    requires sums_to { SumsTo (turns_in e cols.now) e.slopes prices.now sums.now e.size.count }
    ensures { PaymentsTo (turns_in e cols.now) e.slopes prices.now paid.new e.size.count }
{
    for t in 0..e.size.count {
        paid[t] = paid_by(e, cols, orders, prices, sums, t);
    }
}

// What is left of turn t's worth.
fn net_at(p: Size, cols: &[u16; PLACES], paid: &[u32; MOST_TURNS], t: usize) -> u16
    requires { (t < p.count) × (p.count ≤ most_turns) }
    ensures { result ≡ left_after (turns_by p cols.now) paid.now t }
{
    let row = row_at(cols, t);
    net_of(row.worth, paid[t])
}

// What is left of all turns' worths. It has a loop of its own: in one with the payments the compiler would make
// a branch for each turn, and the branches would be mispredicted.
fn put_nets(p: Size, cols: &[u16; PLACES], paid: &[u32; MOST_TURNS], counts: &mut [u16; MOST_TURNS])
    requires { p.count ≤ most_turns }
    ensures { NumbersTo (left_after (turns_by p cols.now) paid.now) counts.new p.count }
{
    for t in 0..p.count {
        counts[t] = net_at(p, cols, paid, t);
    }
}

// What all turns count for, where some may name a driver; returns the limit's part that is prices.
fn put_counts_with_drivers(
    e: Extent,
    cols: &[u16; PLACES],
    orders: &[u16; ORDERS],
    prices: &[u16],
    counts: &mut [u16; MOST_TURNS],
) -> u32
    requires { Priced e cols.now prices.now × Ordered (turns_in e cols.now) orders.now }
    ensures counts_to { CountsTo (turns_in e cols.now) e.slopes prices.now counts.new e.size.count }
    ensures value { (result ≡ price_sum (turns_in e cols.now) e.slopes prices.now) × (result ≤ (most_slopes + most_turns) * most_price) }
{
    let mut sums = [0u32; ENTRIES];
    put_sums(e, cols, orders, prices, &mut sums);
    let mut paid = [0u32; MOST_TURNS];
    put_payments(e, cols, orders, prices, &sums, &mut paid);
    put_nets(e.size, cols, &paid, counts);
    slope_prices(prices, e.slopes) + sums[e.size.count]
}

// What all turns count for; returns the limit's part that is prices.
pub fn put_counts(
    e: Extent,
    cols: &[u16; PLACES],
    orders: &[u16; ORDERS],
    prices: &[u16],
    counts: &mut [u16; MOST_TURNS],
) -> u32
    requires { Priced e cols.now prices.now × Ordered (turns_in e cols.now) orders.now }
    ensures counts_to { CountsTo (turns_in e cols.now) e.slopes prices.now counts.new e.size.count }
    ensures value { (result ≡ price_sum (turns_in e cols.now) e.slopes prices.now) × (result ≤ (most_slopes + most_turns) * most_price) }
{
    if any_driver(e.size, cols) {
        return put_counts_with_drivers(e, cols, orders, prices, counts);
    }
    put_slope_counts(e, cols, prices, counts);
    slope_prices(prices, e.slopes)
}
