// Turns in columns: all slopes, all groomers, all starts, all ends, all worths, all drivers. What is
// done to every turn at each step reads them side by side.
ghost use Rattle.std.specs.Prelude.{◌≡◌, ◌+◌, ◌*◌, ◌<◌};
ghost use Rattle.sheet.specs.Kind.{most_turns};
ghost use Rattle.lists.specs.Lists.{tab};
ghost use Rattle.instance.specs.Columns.{row_in, with_row, turns_by, Held};

use super::ways::Row;

// A column has a place for each turn that a sheet can have.
pub const MOST_TURNS: usize = sheet::MOST_TURNS as usize;

// A bit for each turn that a sheet can have.
pub const MAP_BYTES: usize = (MOST_TURNS + 7) / 8;

// Slopes, groomers, starts, ends, worths, drivers.
const COLUMNS: usize = 6;

pub const PLACES: usize = COLUMNS * MOST_TURNS;

const GROOMERS: usize = MOST_TURNS;

const STARTS: usize = 2 * MOST_TURNS;

const ENDS: usize = 3 * MOST_TURNS;

const WORTHS: usize = 4 * MOST_TURNS;

const DRIVERS: usize = 5 * MOST_TURNS;

// How many turns there are, and the free minutes that a groomer or a driver needs between two turns.
#[derive(Clone, Copy)]
pub struct Size {
    pub count: usize,
    pub gap: u16,
}

// The row at place i.
pub fn row_at(cols: &[u16; PLACES], i: usize) -> Row
    requires { i < most_turns }
    ensures { result ≡ row_in cols.now i }
{
    Row {
        slope: cols[i],
        groomer: cols[GROOMERS + i],
        start: cols[STARTS + i],
        end: cols[ENDS + i],
        worth: cols[WORTHS + i],
        driver: cols[DRIVERS + i],
    }
}

// Puts a row at place i.
pub fn put_row(cols: &mut [u16; PLACES], i: usize, r: Row)
    requires { i < most_turns }
    ensures { cols.new ≡ with_row cols.old i r }
{
    cols[i] = r.slope;
    cols[GROOMERS + i] = r.groomer;
    cols[STARTS + i] = r.start;
    cols[ENDS + i] = r.end;
    cols[WORTHS + i] = r.worth;
    cols[DRIVERS + i] = r.driver;
}

// All turns' starts, as that part of the columns. One function of both, by a constant, would be no plainer than these lines.
pub fn starts(p: Size, cols: &[u16; PLACES]) -> &[u16]
    requires { Held p cols.now }
    ensures { result.now ≡ tab p.count (turns_by p cols.now).start }
{
    &cols[STARTS..STARTS + p.count]
}

// All turns' ends.
pub fn ends(p: Size, cols: &[u16; PLACES]) -> &[u16]
    requires { Held p cols.now }
    ensures { result.now ≡ tab p.count (turns_by p cols.now).end }
{
    &cols[ENDS..ENDS + p.count]
}
