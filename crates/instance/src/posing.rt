// From a sheet to the columns.
ghost use Rattle.std.specs.Prelude.{◌≡◌, ℕ, ◌+◌, ◌*◌, ◌≤◌, ◌<◌, length};
ghost use Rattle.turn.specs.Turn.{row_numbers};
ghost use Rattle.sheet.specs.Kind.{most_turns, Sound, kind_in_numbers};
ghost use Rattle.sheet.specs.Read.{answer_by, answer_for};
ghost use Rattle.instance.specs.Columns.{column_count};
ghost use Rattle.instance.specs.Load.{shift_size, EndsFit, Copied, with_end, LengthsFit, EndsPut, RowsOf, PosedFor, Loaded};

use super::columns::{MOST_TURNS, PLACES, Size, put_row, row_at};
use super::ways::Row;
use refusal::Refusal;
use sheet::Kind;
use turn::{Counts, ROW_NUMBERS};

// The free minutes that a groomer or a driver needs between two turns of a shift.
pub const SHIFT_GAP: u16 = 10;

// A shift's size: as many turns as its sheet has.
pub fn shift_size(n: u16) -> Size
    ensures { result ≡ shift_size n }
{
    Size {
        count: n as usize,
        gap: SHIFT_GAP,
    }
}

// Value k of each of the first n turns of a table goes into column k.
fn put_column(cols: &mut [u16; PLACES], table: &[u16], k: usize, n: usize)
    requires { (k < column_count) × (n ≤ most_turns) × (row_numbers * n ≤ length table.now) × Copied table.now n cols.old k }
    ensures { Copied table.now n cols.new (k + 1) }
{
    for t in 0..n {
        cols[k * MOST_TURNS + t] = table[t * ROW_NUMBERS + k];
    }
}

// All values go into the columns as they stand, a length where an end is due.
fn put_columns(cols: &mut [u16; PLACES], table: &[u16], n: usize)
    requires { (n ≤ most_turns) × (row_numbers * n ≤ length table.now) }
    ensures { Copied table.now n cols.new column_count }
{
    for k in 0..ROW_NUMBERS {
        put_column(cols, table, k, n);
    }
}

// A row that has a length where an end is due, put right.
fn with_end(r: Row) -> Row
    requires { r.start + r.end < 65536 }
    ensures { result ≡ with_end r }
{
    Row {
        end: r.start + r.end,
        ..r
    }
}

// The ends of the first n turns, each its start and length together.
fn put_ends(cols: &mut [u16; PLACES], n: usize)
    requires { (n ≤ most_turns) × LengthsFit n cols.old }
    ensures { EndsPut n cols.old cols.new n }
{
    for t in 0..n {
        let row = with_end(row_at(cols, t));
        put_row(cols, t, row);
    }
}

// The first n turns of a table go into the columns, one column after another. A loop over rows would be short enough
// to be compiled into every entry.
fn put_rows(cols: &mut [u16; PLACES], table: &[u16], n: usize)
    requires { (n ≤ most_turns) × (row_numbers * n ≤ length table.now) × EndsFit n table.now }
    ensures { RowsOf table.now cols.new n }
{
    put_columns(cols, table, n);
    put_ends(cols, n);
}

// Reads any bytes as a sheet of a kind into columns; what is returned is the reader's, counts and the number of turns. No gap is fixed
// here: the caller's `Size` has it. The room is for the table of turns on the way: nothing is said of what it
// holds afterwards, nor of what the columns hold after a refusal.
pub fn load_as(
    kind: Kind,
    s: &[u8],
    cols: &mut [u16; PLACES],
    room: &mut [u16; PLACES],
) -> Result<(Counts, u16), Refusal>
    requires { Sound (kind_in_numbers kind) }
    ensures { (answer_by result ≡ answer_for (kind_in_numbers kind) s.now) × ((answer_by result).refusal ≡ 0 → (gap : ℕ) → PosedFor gap s.now cols.new) }
{
    let (counts, n) = sheet_read::read_table_of(kind, s, room)?;
    put_rows(cols, room, n as usize);
    Ok((counts, n))
}

// Reads any bytes as a shift's sheet into columns, with lent room for the table of turns.
pub fn load_with(
    s: &[u8],
    cols: &mut [u16; PLACES],
    room: &mut [u16; PLACES],
) -> Result<(Counts, u16), Refusal>
    ensures { Loaded s.now (answer_by result) cols.new }
{
    load_as(sheet_read::shift_sheet(), s, cols, room)
}

// Reads any bytes as a shift's sheet into columns, with a table of its own.
pub fn load(s: &[u8], cols: &mut [u16; PLACES]) -> Result<(Counts, u16), Refusal>
    ensures { Loaded s.now (answer_by result) cols.new }
{
    let mut room = [0u16; PLACES];
    load_with(s, cols, &mut room)
}
