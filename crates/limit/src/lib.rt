// A limit by prices: any bytes as a sheet, and any numbers as a price list.

#![tactic(auto)]

ghost use Rattle.std.specs.Prelude.{◌≡◌, ◌+◌};
ghost use Rattle.refusal.specs.Failure.{number_of};
ghost use Rattle.instance.specs.Columns.{Held};
ghost use Rattle.best_spec.specs.Table.{best_worth};
ghost use Rattle.best_table.specs.OrderAndTable.{Ranged};
ghost use Rattle.limit_spec.specs.Prices.{price_sum};
ghost use Rattle.limit_spec.specs.Limit.{limit_refused, limit_of};
ghost use Rattle.shift_look.specs.OrdersAndCounts.{counted_turns, turns_in, Driven, Priced};

use instance::PLACES;
use limit_spec::LimitAnswer;
use refusal::Refusal;
use shift_look::{Extent, ORDERS};

// The limit of a problem, with places for the orders. Where no turn names a driver, the groomers'
// order alone is enough.
fn limit_with(
    e: Extent,
    cols: &[u16; PLACES],
    prices: &[u16],
    orders: &mut [u16; ORDERS],
    room: &mut [u16; PLACES],
) -> u32
    requires { Held e.size cols.now × Ranged e.size cols.now × Driven e.size cols.now × Priced e cols.now prices.now }
    ensures { result ≡ price_sum (turns_in e cols.now) e.slopes prices.now
        + best_worth (counted_turns (turns_in e cols.now) e.slopes prices.now) }
{
    if shift_look::any_driver(e.size, cols) {
        shift_look::put_orders(e, cols, orders, room);
        return shift_look::limit_at(e, cols, orders, prices);
    }
    shift_look::limit_driverless(e, cols, prices, orders)
}

fn refused(k: Refusal) -> LimitAnswer
    ensures { result ≡ limit_refused (number_of k) }
{
    LimitAnswer {
        refusal: u8::from(k),
        limit: 0,
    }
}

// The limit of any bytes as a sheet and any numbers as a price list.
pub fn limit(s: &[u8], prices: &[u16]) -> LimitAnswer
    ensures { result ≡ limit_of s.now prices.now }
{
    let mut cols = [0u16; PLACES];
    let mut room = [0u16; PLACES];
    let (counts, n) = match instance::load_with(s, &mut cols, &mut room) {
        Ok(read) => read,
        Err(fault) => return refused(fault),
    };
    let slopes = usize::from(counts.slopes);
    let turns = usize::from(n);
    if prices.len() != slopes + turns {
        return refused(Refusal::BadPrices);
    }
    let e = Extent {
        size: instance::shift_size(n),
        slopes,
    };
    let mut orders = [0u16; ORDERS];
    let limit = limit_with(e, &cols, prices, &mut orders, &mut room);
    LimitAnswer { refusal: 0, limit }
}
