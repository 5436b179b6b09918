// A field of many turns side by side, a column: put from a turn table, and read back into one.

#![tactic(auto)]

ghost use Rattle.std.specs.Prelude.{◌≡◌, ◌+◌, ◌*◌, ◌≤◌, length};
ghost use Rattle.wire.specs.Number.{puts};
ghost use Rattle.turn.specs.Turn.{row_numbers};
ghost use Rattle.archive_spec.specs.Column.{ColumnsLaid, size_in, field_in, field_value};
ghost use Rattle.archive_spec.specs.Column.{column_size, column_read, widths, column_turns, first_turns, table_column, table_columns, spread};

use archive_spec::Field;
use turn::ROW_NUMBERS;

const SLOPES: Field = Field {
    place: 0,
    unit: 1,
    width: 1,
};

const GROOMERS: Field = Field {
    place: 1,
    unit: 2,
    width: 1,
};

const STARTS: Field = Field {
    place: 2,
    unit: 4,
    width: 2,
};

const LENGTHS: Field = Field {
    place: 3,
    unit: 8,
    width: 2,
};

const WORTHS: Field = Field {
    place: 4,
    unit: 16,
    width: 2,
};

const DRIVERS: Field = Field {
    place: 5,
    unit: 32,
    width: 1,
};

// How many bytes a record with this map has for a field.
fn size_in(field: Field, m: u8) -> usize
    requires { ColumnsLaid field }
    ensures { (result ≡ size_in field m) × (result ≤ 2) }
{
    let bit = m / field.unit % 2;
    if field.width == 1 {
        bit as usize
    } else {
        2 * (bit as usize)
    }
}

// Writes a field's value at a place if the map names it; returns the place after it.
fn put_field(out: &mut [u8], at: usize, field: Field, m: u8, x: u16) -> usize
    requires { ColumnsLaid field × (at + size_in field m ≤ length out.old) }
    ensures { (result ≡ at + size_in field m) × (out.new ≡ puts out.old at (field_in field m x)) }
{
    let bit = m / field.unit % 2;
    if field.width == 1 {
        write::put_byte_field(out, at, bit, x)
    } else {
        write::put_word_field(out, at, bit, x)
    }
}

// Reads a field's value at a place if the map names it, else gives the value before.
fn read_field(k: &[u8], at: usize, field: Field, m: u8, old: u16) -> u16
    requires { ColumnsLaid field × (at + size_in field m ≤ length k.now) }
    ensures { result ≡ field_value field k.now at m old }
{
    let bit = m / field.unit % 2;
    if field.width == 1 {
        sheet::byte_field(k, at, bit, old)
    } else {
        sheet::word_field(k, at, bit, old)
    }
}

// Writes one column of a table's turns from a place on; returns the place after it.
fn put_column(out: &mut [u8], from: usize, field: Field, maps: &[u8], table: &[u16]) -> usize
    requires { ColumnsLaid field × (from + column_size field maps.now ≤ length out.old) × (row_numbers * length maps.now ≤ length table.now) }
    ensures value { result ≡ from + column_size field maps.now }
    ensures out_after { out.new ≡ puts out.old from (table_column field maps.now table.now) }
{
    let mut at = from;
    for i in 0..maps.len() {
        let x = table[i * ROW_NUMBERS + field.place];
        at = put_field(out, at, field, maps[i], x);
    }
    at
}

// Reads one column from a place on, each value into its turn's row; returns the place after the column.
fn read_column(k: &[u8], from: usize, field: Field, maps: &[u8], table: &mut [u16]) -> usize
    requires { ColumnsLaid field × (from + column_size field maps.now ≤ length k.now) × (row_numbers * length maps.now ≤ length table.old) }
    ensures value { result ≡ from + column_size field maps.now }
    ensures table_after { table.new ≡ spread table.old field.place (column_read field maps.now k.now from 0) }
{
    let mut at = from;
    let mut old: u16 = 0;
    for i in 0..maps.len() {
        let m = maps[i];
        old = read_field(k, at, field, m, old);
        let cell = i * ROW_NUMBERS + field.place;
        table[cell] = old;
        at += size_in(field, m);
    }
    at
}

// Writes all columns of a table's turns, one after another, from a place on.
pub fn put_columns(out: &mut [u8], from: usize, maps: &[u8], table: &[u16])
    requires { (from + widths maps.now ≤ length out.old) × (row_numbers * length maps.now ≤ length table.now) }
    ensures { out.new ≡ puts out.old from (table_columns maps.now table.now) }
{
    let p1 = put_column(out, from, SLOPES, maps, table);
    let p2 = put_column(out, p1, GROOMERS, maps, table);
    let p3 = put_column(out, p2, STARTS, maps, table);
    let p4 = put_column(out, p3, LENGTHS, maps, table);
    let p5 = put_column(out, p4, WORTHS, maps, table);
    put_column(out, p5, DRIVERS, maps, table);
}

// Reads all columns from a place on into the first rows of a table.
pub fn read_columns(k: &[u8], from: usize, maps: &[u8], table: &mut [u16])
    requires { (from + widths maps.now ≤ length k.now) × (row_numbers * length maps.now ≤ length table.old) }
    ensures { first_turns (length maps.now) table.new ≡ column_turns maps.now k.now from }
{
    let p1 = read_column(k, from, SLOPES, maps, table);
    let p2 = read_column(k, p1, GROOMERS, maps, table);
    let p3 = read_column(k, p2, STARTS, maps, table);
    let p4 = read_column(k, p3, LENGTHS, maps, table);
    let p5 = read_column(k, p4, WORTHS, maps, table);
    read_column(k, p5, DRIVERS, maps, table);
}
