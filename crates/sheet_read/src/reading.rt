// Reading a whole sheet.
ghost use Rattle.std.specs.Prelude.{◌≡◌, ◌+◌, ◌*◌, ◌≤◌, ◌<◌, length, OnOk};
ghost use Rattle.refusal.specs.Cause.{first_of};
ghost use Rattle.refusal.specs.Failure.{number_of, failure};
ghost use Rattle.wire.specs.Number.{puts};
ghost use Rattle.turn.specs.Turn.{row_numbers, row_of, rows, Numbered};
ghost use Rattle.sheet.specs.Kind.{table_places, Sound, kind_in_numbers};
ghost use Rattle.sheet.specs.Record.{first_cursor};
ghost use Rattle.sheet.specs.Read.{records_causes, turns_from, table_of, read_refused, answer_by, answer_for, answer_of, read_for, read_of};
ghost use Rattle.refusal.specs.Written.{at_front};
ghost use Rattle.refusal.specs.Outcome.{beside};

use super::header::read_header;
use super::kind::shift_sheet;
use refusal::Refusal;
use sheet::{Cursor, HEADER_BYTES, Kind, ReadAnswer, TABLE_PLACES};
use turn::{Counts, ROW_NUMBERS, Turn};

// The cursor before the first record.
pub fn first_cursor() -> Cursor
    ensures { result ≡ first_cursor }
{
    let none = Turn {
        slope: 0,
        groomer: 0,
        start: 0,
        length: 0,
        worth: 0,
        driver: 0,
    };
    Cursor {
        at: HEADER_BYTES,
        first: true,
        prev: none,
    }
}

// A turn's row from a place on; the place after it.
pub fn put_turn(table: &mut [u16], at: usize, t: Turn) -> usize
    requires { at + row_numbers ≤ length table.old }
    ensures { (result ≡ at + row_numbers) × (table.new ≡ puts table.old at (row_of t)) }
{
    let a1 = at + 1;
    let a2 = a1 + 1;
    let a3 = a2 + 1;
    let a4 = a3 + 1;
    let a5 = a4 + 1;
    table[at] = t.slope;
    table[a1] = t.groomer;
    table[a2] = t.start;
    table[a3] = t.length;
    table[a4] = t.worth;
    table[a5] = t.driver;
    at + ROW_NUMBERS
}

// Goes through the next n records and puts each turn's row into the table as it is read; or the first
// cause to refuse a record or what follows them.
fn read_records(
    kind: Kind,
    s: &[u8],
    n: u16,
    limits: Counts,
    from: Cursor,
    table: &mut [u16],
) -> Result<(), Refusal>
    requires { Numbered (kind_in_numbers kind).refusals × (row_numbers * n ≤ length table.old) }
    ensures refused { failure result ≡ first_of (records_causes (kind_in_numbers kind) n s.now limits from) }
    ensures table_after { OnOk result (table.new ≡ puts table.old 0 (rows (turns_from n s.now from))) }
{
    let mut c = from;
    let mut at: usize = 0;
    for i in 0..n {
        let (t, next) = c.next(kind, s, limits)?;
        at = put_turn(table, at, t);
        c = next;
    }
    if c.at < s.len() {
        Err(Refusal::TrailingBytes)
    } else {
        Ok(())
    }
}

fn refused(k: Refusal) -> ReadAnswer
    ensures { result ≡ read_refused (number_of k) }
{
    ReadAnswer {
        refusal: u8::from(k),
        groomers: 0,
        slopes: 0,
        turns: 0,
    }
}

// Reads any bytes as a sheet of a kind into a table with places for every sheet. No entry: the table
// is written as the records are read, and after a refusal nothing is said of what it holds. It is for
// those who own their table and look at it only where nothing is refused.
pub fn read_table_of(kind: Kind, s: &[u8], table: &mut [u16]) -> Result<(Counts, u16), Refusal>
    requires { Sound (kind_in_numbers kind) × (table_places ≤ length table.old) }
    ensures { (answer_by result ≡ answer_for (kind_in_numbers kind) s.now)
        × ((answer_by result).refusal ≡ 0 → table.new ≡ at_front (table_of s.now) table.old) }
{
    let (limits, n) = read_header(kind, s)?;
    read_records(kind, s, n, limits, first_cursor(), table)?;
    Ok((limits, n))
}

// Reads any bytes as a shift's sheet, as read_table_of does a sheet of any kind.
pub fn read_table(s: &[u8], table: &mut [u16]) -> Result<(Counts, u16), Refusal>
    requires { table_places ≤ length table.old }
    ensures { (answer_by result ≡ answer_of s.now) × ((answer_by result).refusal ≡ 0 → table.new ≡ at_front (table_of s.now) table.old) }
{
    read_table_of(shift_sheet(), s, table)
}

// Reads any bytes as a sheet of a kind into any lent table. Whether the last record is right is known
// only at the end, so the turns go into a table of its own first: the lent one is not touched on a
// refusal.
pub fn read_as(kind: Kind, s: &[u8], table: &mut [u16]) -> ReadAnswer
    requires { Sound (kind_in_numbers kind) }
    ensures { beside result table.new ≡ read_for (kind_in_numbers kind) s.now table.old }
{
    let mut own = [0u16; TABLE_PLACES];
    let (counts, n) = match read_table_of(kind, s, &mut own) {
        Ok(read) => read,
        Err(fault) => return refused(fault),
    };
    let end = ROW_NUMBERS * (n as usize);
    if table.len() < end {
        return refused(Refusal::BufferTooSmall);
    }
    table[..end].copy_from_slice(&own[..end]);
    ReadAnswer {
        refusal: 0,
        groomers: counts.groomers,
        slopes: counts.slopes,
        turns: n,
    }
}

// Reads any bytes as a shift's sheet into any lent table.
pub fn read(s: &[u8], table: &mut [u16]) -> ReadAnswer
    ensures { beside result table.new ≡ read_of s.now table.old }
{
    read_as(shift_sheet(), s, table)
}
