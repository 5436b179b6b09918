// The drivers' order, and the run of places in it whose prices each turn pays. It is taken from columns that
// have the drivers in the groomers' place.
ghost use Rattle.std.specs.Prelude.{◌≡◌, ◌&&◌, ◌*◌, ◌≤◌, ◌<◌, eqb, length};
ghost use Rattle.sheet.specs.Kind.{most_turns};
ghost use Rattle.instance.specs.Columns.{turns_by, Held};
ghost use Rattle.best_table.specs.OrderAndTable.{KeysFit, InTurnOrder};
ghost use Rattle.shift_look.specs.OrdersAndCounts.{with_run, RunStart, RunBefore, PlaceRun, PlaceRunsTo};

use super::ORDERS;
use best_table::{row_at_place, skip_blocked};
use instance::{MOST_TURNS, PLACES, Row, Size};

// After the groomers' order and where its sets go on: the turns in the drivers' order.
pub const DRIVERS: usize = 2 * MOST_TURNS;

// For each turn, the first place of its run in that order.
pub const FROMS: usize = 3 * MOST_TURNS;

// For each turn, the place after the last of its run.
pub const TOS: usize = 4 * MOST_TURNS;

// Places of the drivers' order, from one to before another.
#[derive(Clone, Copy)]
struct Run {
    from: u16,
    to: u16,
}

// Whether two turns have one groomer and one end.
fn end_together(x: Row, y: Row) -> bool
    ensures { result ≡ (eqb x.groomer y.groomer && eqb x.end y.end) }
{
    (x.groomer == y.groomer) & (x.end == y.end)
}

// The first place whose turn has the groomer and end of the one at i; from is that place for i - 1.
fn run_start(p: Size, cols: &[u16; PLACES], order: &[u16], i: usize, from: usize) -> usize
    requires { (i < p.count) × Held p cols.now × InTurnOrder (turns_by p cols.now) order.now × RunBefore (turns_by p cols.now) i from }
    ensures { RunStart (turns_by p cols.now) i result }
{
    if i == 0 {
        return 0;
    }
    let last = row_at_place(cols, order, i - 1);
    if end_together(last, row_at_place(cols, order, i)) {
        return from;
    }
    i
}

// What the turn at place i pays for: all that end with it, and all after that are in its way; nothing if it
// names no driver.
fn run_of(p: Size, cols: &[u16; PLACES], order: &[u16], i: usize, from: usize) -> Run
    requires { (i < p.count) × Held p cols.now × InTurnOrder (turns_by p cols.now) order.now × RunStart (turns_by p cols.now) i from }
    ensures { PlaceRun (turns_by p cols.now) i result.from result.to }
{
    let row = row_at_place(cols, order, i);
    if row.groomer == 0 {
        return Run { from: 0, to: 0 };
    }
    let to = skip_blocked(p, cols, order, i);
    Run {
        from: from as u16,
        to: to as u16,
    }
}

// Puts turn t and its run at place i.
fn put_run(orders: &mut [u16; ORDERS], i: usize, t: u16, run: Run)
    requires { (i < most_turns) × (t < most_turns) }
    ensures { orders.new ≡ with_run orders.old i t run.from run.to }
{
    let at = t as usize;
    orders[DRIVERS + i] = t;
    orders[FROMS + at] = run.from;
    orders[TOS + at] = run.to;
}

// All turns in the drivers' order, with their runs.
fn put_runs(p: Size, cols: &[u16; PLACES], order: &[u16], orders: &mut [u16; ORDERS])
    requires { Held p cols.now × InTurnOrder (turns_by p cols.now) order.now }
    ensures { PlaceRunsTo (turns_by p cols.now) orders.old orders.new p.count }
{
    let mut from = 0;
    for i in 0..p.count {
        from = run_start(p, cols, order, i, from);
        put_run(orders, i, order[i], run_of(p, cols, order, i, from));
    }
}

// Puts the turns in the drivers' order, in a place for it, and then with their runs into the orders.
fn put_drivers_with(p: Size, cols: &[u16; PLACES], order: &mut [u16], orders: &mut [u16; ORDERS])
    requires { Held p cols.now × KeysFit p cols.now × (p.count ≤ length order.old) }
    ensures { PlaceRunsTo (turns_by p cols.now) orders.old orders.new p.count }
{
    best_table::put_any_order(p, cols, &mut order[..p.count]);
    put_runs(p, cols, order, orders);
}

// Puts the turns in the drivers' order and their runs into the orders.
pub fn put_drivers(p: Size, cols: &[u16; PLACES], orders: &mut [u16; ORDERS])
    requires { Held p cols.now × KeysFit p cols.now }
    ensures { PlaceRunsTo (turns_by p cols.now) orders.old orders.new p.count }
{
    let mut order = [0u16; MOST_TURNS];
    put_drivers_with(p, cols, &mut order, orders);
}
