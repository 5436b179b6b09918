// What does not depend on prices: the groomers' order and where its sets go on, the drivers' order and what each turn
// pays for in it.
ghost use Rattle.std.specs.Prelude.{◌≡◌, ◌≤◌};
ghost use Rattle.sheet.specs.Kind.{most_turns};
ghost use Rattle.instance.specs.Columns.{turns_by, Held};
ghost use Rattle.best_table.specs.OrderAndTable.{Ranged};
ghost use Rattle.shift_look.specs.OrdersAndCounts.{by_drivers, turns_in, Driven, DriversPut, Ordered};

use super::runs::put_drivers;
use super::{Extent, ORDERS};
use instance::{MOST_TURNS, PLACES, Size};

// The first place of the groomers and of the drivers in columns.
const GROOMER_COLUMN: usize = MOST_TURNS;

const DRIVER_COLUMN: usize = 5 * MOST_TURNS;

// Writes the driver of each of the first n turns where its groomer stands.
fn put_drivers_as_groomers(cols: &[u16; PLACES], n: usize, room: &mut [u16; PLACES])
    requires { (n ≤ most_turns) × (room.old ≡ cols.now) }
    ensures { DriversPut cols.now room.new n }
{
    for t in 0..n {
        room[GROOMER_COLUMN + t] = cols[DRIVER_COLUMN + t];
    }
}

// Copies the columns, with each turn's driver where its groomer stands.
fn put_by_drivers(p: Size, cols: &[u16; PLACES], room: &mut [u16; PLACES])
    requires { Held p cols.now }
    ensures { turns_by p room.new ≡ by_drivers (turns_by p cols.now) }
{
    *room = *cols;
    put_drivers_as_groomers(cols, p.count, room);
}

// Puts both orders, with what stands beside them. The room is for the columns by drivers; what it holds
// afterwards is of no use.
pub fn put_orders(
    e: Extent,
    cols: &[u16; PLACES],
    orders: &mut [u16; ORDERS],
    room: &mut [u16; PLACES],
)
    requires { Held e.size cols.now × Ranged e.size cols.now × Driven e.size cols.now }
    ensures { Ordered (turns_in e cols.now) orders.new }
{
    let p = e.size;
    best_table::put_places(p, cols, orders);
    put_by_drivers(p, cols, room);
    put_drivers(p, room, orders);
}
