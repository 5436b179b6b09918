// A look at some prices: the limit, and the groomers' best sets.
ghost use Rattle.std.specs.Prelude.{◌≡◌, false, ◌+◌, replicate};
ghost use Rattle.choice_map.specs.Choice.{choice_in, Clean};
ghost use Rattle.best_spec.specs.Table.{best_worth, best_choice};
ghost use Rattle.best_table.specs.OrderAndTable.{Firsts};
ghost use Rattle.limit_spec.specs.Prices.{price_sum};
ghost use Rattle.shift_look.specs.OrdersAndCounts.{counted_turns, turns_in, Priced, Ordered};

use super::counts::put_counts;
use super::{Extent, ORDERS};
use best_table::{ENTRIES, fill_table, read_back};
use instance::{MOST_TURNS, PLACES};

// The table over the counts; returns the limit.
fn limit_with(
    e: Extent,
    cols: &[u16; PLACES],
    orders: &[u16; ORDERS],
    prices: &[u16],
    worths: &mut [u32; ENTRIES],
    firsts: &mut [u16; ENTRIES],
) -> u32
    requires { Priced e cols.now prices.now × Ordered (turns_in e cols.now) orders.now }
    ensures value { result ≡ price_sum (turns_in e cols.now) e.slopes prices.now
        + best_worth (counted_turns (turns_in e cols.now) e.slopes prices.now) }
    ensures firsts { Firsts (counted_turns (turns_in e cols.now) e.slopes prices.now) firsts.new }
{
    let mut counts = [0u16; MOST_TURNS];
    let sum = put_counts(e, cols, orders, prices, &mut counts);
    fill_table(e.size.count, orders, &counts, worths, firsts);
    sum + worths[0]
}

// The limit at these prices; the best sets of all groomers go into a map that has none chosen.
pub fn look_at(
    e: Extent,
    cols: &[u16; PLACES],
    orders: &[u16; ORDERS],
    prices: &[u16],
    map: &mut [u8],
) -> u32
    requires priced { Priced e cols.now prices.now × Ordered (turns_in e cols.now) orders.now }
    requires clean { Clean e.size.count map.old × (choice_in e.size.count map.old ≡ replicate e.size.count false) }
    ensures value { result ≡ price_sum (turns_in e cols.now) e.slopes prices.now
        + best_worth (counted_turns (turns_in e cols.now) e.slopes prices.now) }
    ensures clean_2 { Clean e.size.count map.new
        × (choice_in e.size.count map.new ≡ best_choice (counted_turns (turns_in e cols.now) e.slopes prices.now)) }
{
    let mut worths = [0u32; ENTRIES];
    let mut firsts = [0u16; ENTRIES];
    let limit = limit_with(e, cols, orders, prices, &mut worths, &mut firsts);
    read_back(e.size.count, orders, &firsts, map);
    limit
}

// The limit at these prices alone.
pub fn limit_at(e: Extent, cols: &[u16; PLACES], orders: &[u16; ORDERS], prices: &[u16]) -> u32
    requires { Priced e cols.now prices.now × Ordered (turns_in e cols.now) orders.now }
    ensures { result ≡ price_sum (turns_in e cols.now) e.slopes prices.now
        + best_worth (counted_turns (turns_in e cols.now) e.slopes prices.now) }
{
    let mut worths = [0u32; ENTRIES];
    let mut firsts = [0u16; ENTRIES];
    limit_with(e, cols, orders, prices, &mut worths, &mut firsts)
}
