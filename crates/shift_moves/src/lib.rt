// How a round moves the prices of a shift: each by how many turns of the relaxed set pay it. The payers of a
// slope are the turns with its number. A turn pays for a run of places in the drivers' order: it is counted
// where the run starts and where it ends, and sums along the order give the payers at each place.

#![tactic(auto)]

ghost use Rattle.std.specs.Prelude.{◌≡◌, cond, ◌+◌, ◌-◌, ◌*◌, ◌≤◌, ◌<◌, ltb, length, get_or, set, replicate};
ghost use Rattle.limit_spec.specs.Prices.{most_price};
ghost use Rattle.turn.specs.Turn.{most_worth};
ghost use Rattle.sheet.specs.Kind.{most_turns, most_slopes};
ghost use Rattle.shift_look.specs.OrdersAndCounts.{turns_in, Ordered, Priced};
ghost use Rattle.refine_spec.specs.Shift.{highest_price, moved_price, turn_change};
ghost use Rattle.shift_moves.specs.Moves.{payer_places, number_behind, payers_at, payers_after, slope_payers_in, turn_payers_in, own_place, turn_price_place};
ghost use Rattle.shift_moves.specs.Moves.{nobody, place_behind, Taken, SmallNumbers, Times, PaidRuns, Summable, Present, Payers, FewPayers, EachOnce, MovedBy, MovedFor};

use instance::{MOST_TURNS, PLACES};
use shift_look::{DRIVERS, Extent, FROMS, ORDERS, TOS, any_driver};

// The greatest number that a price list can hold.
const MOST_PRICE: u32 = 65535;

// No round raises a price above this.
const HIGHEST_PRICE: u32 = 60000;

// A place for each number from 0 to the most turns.
const PAYERS: usize = MOST_TURNS + 1;

// The change of a turn's price.
fn turn_change(c: u32) -> u32
    requires { c ≤ most_worth }
    ensures { (result ≡ turn_change c) × (result ≤ most_worth) }
{
    (c / 2).max(1)
}

// The highest price after a round. A price with two payers or more rises, to 60,000 at most; any other does not
// rise, and may stand above that.
fn most_price(payers: u16) -> u32
    ensures { (result ≡ cond (ltb payers 2) most_price highest_price) × (result ≤ most_price) }
{
    if payers < 2 {
        MOST_PRICE
    } else {
        HIGHEST_PRICE
    }
}

// A price that so many pay, after a round. It rises by the change for each payer, and falls by it once: so with
// one payer it stays.
fn moved_price(change: u32, payers: u16, price: u16) -> u16
    requires { (change ≤ most_worth) × (payers ≤ most_turns) }
    ensures { result ≡ moved_price change payers price }
{
    let raised = u32::from(price) + u32::from(payers) * change;
    raised.saturating_sub(change).min(most_price(payers)) as u16
}

// Moves the price at place i.
fn move_price(change: u32, payers: u16, prices: &mut [u16], i: usize)
    requires { (change ≤ most_worth) × (payers ≤ most_turns) × (i < length prices.old) }
    ensures { prices.new ≡ set prices.old i (moved_price change payers (get_or prices.old i 0)) }
{
    prices[i] = moved_price(change, payers, prices[i]);
}

// For each number, how many turns of a list have it in the column that starts at a place.
fn count_numbers(taken: &[u16], numbers: &[u16], at: usize, times: &mut [u16; PAYERS])
    requires { SmallNumbers taken.now numbers.now at × (times.old ≡ replicate payer_places 0) }
    ensures { Times taken.now (number_behind numbers.now at) times.new }
{
    for &t in taken {
        times[usize::from(numbers[at + usize::from(t)])] += 1;
    }
}

// The payers of each turn, from those that join and those that leave at each place of the drivers' order. They stand by
// the turns' numbers, so that prices and payers are read side by side and a loop takes many at once.
fn sum_payers(
    n: usize,
    orders: &[u16; ORDERS],
    joining: &[u16; PAYERS],
    leaving: &[u16; PAYERS],
    payers: &mut [u16; PAYERS],
)
    requires { Summable n joining.now leaving.now × EachOnce n orders.now }
    ensures { Present orders.now joining.now leaving.now payers.new n }
{
    let mut here: u16 = 0;
    for j in 0..n {
        here = here + joining[j] - leaving[j];
        payers[usize::from(orders[DRIVERS + j])] = here;
    }
}

// The payers of each turn.
fn count_payers(n: usize, orders: &[u16; ORDERS], taken: &[u16], payers: &mut [u16; PAYERS])
    requires { Taken n taken.now × PaidRuns n orders.now × EachOnce n orders.now }
    ensures { Payers n taken.now orders.now payers.new }
{
    let mut joining = [0u16; PAYERS];
    let mut leaving = [0u16; PAYERS];
    count_numbers(taken, orders, FROMS, &mut joining);
    count_numbers(taken, orders, TOS, &mut leaving);
    sum_payers(n, orders, &joining, &leaving, payers);
}

// Moves the prices of the slopes. Place s of the payers is for slope s.
fn move_slope_prices(slopes: usize, payers: &[u16; PAYERS], change: u32, prices: &mut [u16])
    requires { (slopes ≤ most_slopes) × (slopes ≤ length prices.old) × (change ≤ most_worth) × FewPayers (slopes + 1) payers.now }
    ensures { MovedBy change (payers_after payers.now) own_place slopes prices.old prices.new }
{
    for k in 0..slopes {
        move_price(change, payers[k + 1], prices, k);
    }
}

// Moves the prices of the turns. Place u of the payers is for turn u.
fn move_turn_prices(e: Extent, payers: &[u16; PAYERS], change: u32, prices: &mut [u16])
    requires slopes_le_most_slopes { (e.slopes ≤ most_slopes) × (e.size.count ≤ most_turns) × (length prices.old ≡ e.slopes + e.size.count) }
    requires change_le_most_worth { (change ≤ most_worth) × FewPayers e.size.count payers.now }
    ensures { MovedBy change (payers_at payers.now) (place_behind e.slopes) e.size.count
        prices.old prices.new }
{
    for u in 0..e.size.count {
        move_price(change, payers[u], prices, e.slopes + u);
    }
}

// Lowers the price at place i, to 0 at the lowest.
fn lower_price(change: u16, prices: &mut [u16], i: usize)
    requires { i < length prices.old }
    ensures { prices.new ≡ set prices.old i (get_or prices.old i 0 - change) }
{
    prices[i] = prices[i].saturating_sub(change);
}

// Moves the prices of the turns where no turn names a driver: all of them fall.
fn lower_turn_prices(e: Extent, change: u16, prices: &mut [u16])
    requires { (e.slopes ≤ most_slopes) × (e.size.count ≤ most_turns) × (length prices.old ≡ e.slopes + e.size.count) }
    ensures { MovedBy change nobody (place_behind e.slopes) e.size.count prices.old prices.new }
{
    for u in 0..e.size.count {
        lower_price(change, prices, e.slopes + u);
    }
}

fn move_slopes(e: Extent, cols: &[u16; PLACES], taken: &[u16], change: u32, prices: &mut [u16])
    requires { Priced e cols.now prices.old × Taken e.size.count taken.now × (change ≤ most_worth) }
    ensures { MovedBy change (slope_payers_in e cols.now taken.now) own_place e.slopes
        prices.old prices.new }
{
    let mut payers = [0u16; PAYERS];
    count_numbers(taken, cols, 0, &mut payers);
    move_slope_prices(e.slopes, &payers, change, prices);
}

fn move_turns(e: Extent, orders: &[u16; ORDERS], taken: &[u16], change: u32, prices: &mut [u16])
    requires slopes_le_most_slopes { (e.slopes ≤ most_slopes) × (length prices.old ≡ e.slopes + e.size.count) × (change ≤ most_worth) }
    requires taken { Taken e.size.count taken.now × PaidRuns e.size.count orders.now × EachOnce e.size.count orders.now }
    ensures { MovedBy (turn_change change) (turn_payers_in orders.now taken.now)
        (turn_price_place e.slopes orders.now) e.size.count prices.old prices.new }
{
    let mut payers = [0u16; PAYERS];
    count_payers(e.size.count, orders, taken, &mut payers);
    move_turn_prices(e, &payers, turn_change(change), prices);
}

// Moves every price by how many turns of the relaxed set pay it. The set comes as a list of its turns: to go
// through them alone takes less than to ask of each turn whether it is taken.
pub fn move_prices(
    e: Extent,
    cols: &[u16; PLACES],
    orders: &[u16; ORDERS],
    taken: &[u16],
    change: u32,
    prices: &mut [u16],
)
    requires priced { Priced e cols.now prices.old × Ordered (turns_in e cols.now) orders.now × Taken e.size.count taken.now }
    requires change_le_most_worth { change ≤ most_worth }
    ensures { MovedFor e cols.now taken.now change prices.old prices.new }
{
    move_slopes(e, cols, taken, change, prices);
    if any_driver(e.size, cols) {
        move_turns(e, orders, taken, change, prices);
        return;
    }
    lower_turn_prices(e, turn_change(change) as u16, prices);
}
