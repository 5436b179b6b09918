// From a sheet to its kept form.
ghost use Rattle.std.specs.Prelude.{◌≡◌, ◌+◌, ◌*◌, ◌≤◌, length};
ghost use Rattle.wire.specs.Number.{puts};
ghost use Rattle.turn.specs.Turn.{row_numbers};
ghost use Rattle.sheet.specs.Read.{header_bytes};
ghost use Rattle.refusal.specs.Outcome.{beside};
ghost use Rattle.archive_spec.specs.Column.{widths};
ghost use Rattle.archive_spec.specs.Kept.{form_size, maps_from, kept_table, kept_first};
ghost use Rattle.archive_spec.specs.Archive.{keep_of};

use super::form::put_front;
use refusal::{Refusal, WriteAnswer, refused};
use sheet::{HEADER_BYTES, MOST_TURNS, TABLE_PLACES, width};
use turn::ROW_NUMBERS;

// Copies the maps of a sheet's records, as many as there are places.
fn fill_maps(s: &[u8], maps: &mut [u8])
    requires { header_bytes + length maps.old + widths (maps_from (length maps.old) s.now header_bytes) ≤ length s.now }
    ensures { maps.new ≡ maps_from (length maps.old) s.now header_bytes }
{
    let mut at = HEADER_BYTES;
    for i in 0..maps.len() {
        let m = s[at];
        maps[i] = m;
        at = at + 1 + width(m);
    }
}

// Writes the kept form of a sheet from its maps and the turns of a table.
fn put_kept(s: &[u8], maps: &[u8], table: &[u16], out: &mut [u8])
    requires { (header_bytes ≤ length s.now) × (form_size maps.now ≤ length out.old) × (row_numbers * length maps.now ≤ length table.now) }
    ensures { out.new ≡ puts out.old 0 (kept_table s.now maps.now table.now) }
{
    put_front(out, wire::GRC, s);
    wire::put_bytes(out, HEADER_BYTES, maps);
    let at = HEADER_BYTES + maps.len();
    archive_columns::put_columns(out, at, maps, table);
}

// Writes the kept form of a sheet from the sheet itself and the turns of a table. Its maps are copied into
// the lent places first.
fn keep_turns(s: &[u8], n: usize, table: &[u16], maps: &mut [u8], out: &mut [u8])
    requires n_in_bounds { (n ≤ length maps.old) × (header_bytes ≤ length s.now) × (row_numbers * n ≤ length table.now) }
    requires header_bytes_in_bounds { (header_bytes + n + widths (maps_from n s.now header_bytes) ≤ length s.now) × (length s.now ≤ length out.old) }
    ensures { out.new ≡ puts out.old 0 (kept_first n s.now table.now) }
{
    let some = &mut maps[0..n];
    fill_maps(s, some);
    put_kept(s, some, table, out);
}

// Keeps any bytes as a sheet by column in any lent bytes.
pub fn keep(sheet: &[u8], kept: &mut [u8]) -> WriteAnswer
    ensures { beside result kept.new ≡ keep_of sheet.now kept.old }
{
    let mut table = [0u16; TABLE_PLACES];
    let (_, n) = match sheet_read::read_table(sheet, &mut table) {
        Ok(read) => read,
        Err(fault) => return refused(fault),
    };
    if kept.len() < sheet.len() {
        return refused(Refusal::BufferTooSmall);
    }
    let n = n as usize;
    let end = ROW_NUMBERS * n;
    let mut maps = [0u8; MOST_TURNS as usize];
    keep_turns(sheet, n, &table[..end], &mut maps, kept);
    WriteAnswer {
        refusal: 0,
        bytes: sheet.len() as u32,
    }
}
