// The windows of one kind in a hall, as the engine's turns. Of a hall's rows the slope is the vehicle and
// the groomer the draw.
ghost use Rattle.std.specs.Prelude.{◌≡◌};
ghost use Rattle.instance.specs.Columns.{turns_by, Held};
ghost use Rattle.hall_steps.specs.OneKind.{kind_draw, kind_row, engine_turns};
ghost use Rattle.hall_steps.specs.Bounds.{HallHeld};

use instance::{PLACES, Row, Size, put_row, row_at};
use local_ratio::value_if;

// The hall's units, how many windows it has, and which of them are meant: the wide ones, or the small.
#[derive(Clone, Copy)]
pub struct OneKind {
    pub units: u16,
    pub size: Size,
    pub wide: bool,
}

// Whether a window with this draw is of the kind that is meant.
pub fn is_of_kind(a: OneKind, draw: u16) -> bool
    ensures { result ≡ kind_draw a draw }
{
    let is_wide = u32::from(a.units) < 2 * u32::from(draw);
    if a.wide { is_wide } else { !is_wide }
}

// A window's row as the engine gets it: no driver; a small window with its draw, a wide one with groomer 0, so
// that all wide windows have one groomer; and a window of the other kind without a worth, so that it is closed
// from the start.
fn kind_row(a: OneKind, r: Row) -> Row
    ensures { result ≡ kind_row a r }
{
    let own = is_of_kind(a, r.groomer);
    let draw = value_if(own, r.groomer);
    let groomer = value_if(!a.wide, draw);
    let worth = value_if(own, r.worth);
    Row {
        groomer,
        worth,
        driver: 0,
        ..r
    }
}

// Puts the rows of all windows as the engine gets them.
pub fn put_kind(a: OneKind, cols: &[u16; PLACES], own: &mut [u16; PLACES])
    requires { HallHeld a.units a.size cols.now }
    ensures own_after { turns_by a.size own.new ≡ engine_turns a cols.now }
    ensures held { Held a.size own.new }
{
    for t in 0..a.size.count {
        let row = kind_row(a, row_at(cols, t));
        put_row(own, t, row);
    }
}
