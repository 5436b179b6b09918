// From a kept form to its sheet.
ghost use Rattle.std.specs.Prelude.{◌≡◌, true, ◌++◌, ◌+◌, ◌*◌, ◌≤◌, length, OnOk};
ghost use Rattle.refusal.specs.Cause.{first_of};
ghost use Rattle.refusal.specs.Failure.{failure};
ghost use Rattle.wire.specs.Number.{puts};
ghost use Rattle.turn.specs.Turn.{row_numbers};
ghost use Rattle.sheet.specs.Kind.{most_turns, table_places, kind_in_numbers};
ghost use Rattle.sheet.specs.Record.{record_bytes};
ghost use Rattle.sheet.specs.Read.{header_bytes, counts_in, turn_count};
ghost use Rattle.write_spec.specs.Write.{turns_causes};
ghost use Rattle.refusal.specs.Outcome.{beside};
ghost use Rattle.archive_spec.specs.Column.{widths, first_turns};
ghost use Rattle.archive_spec.specs.Kept.{form_size, archive, kept_maps, columns_at, kept_turns, table_records, restored_first};
ghost use Rattle.archive_spec.specs.Archive.{maps_causes, form_causes, kept_causes, restore_of};

use super::form::put_front;
use refusal::{Refusal, WriteAnswer, refused};
use sheet::{HEADER_BYTES, Kind, Maps, TABLE_PLACES, width};
use turn::Counts;

// A shift's sheet with the mark of a kept form.
fn archive() -> Kind
    ensures { kind_in_numbers result ≡ archive }
{
    Kind {
        mark: wire::GRC,
        ..sheet_read::shift_sheet()
    }
}

// The maps of a kept form, as that part of the caller's bytes.
fn maps_of(k: &[u8], n: u16) -> &[u8]
    requires { (n ≡ turn_count k.now) × (columns_at k.now ≤ length k.now) }
    ensures { (result.now ≡ kept_maps k.now) × (length result.now ≡ n) }
{
    let rest = &k[HEADER_BYTES..];
    &rest[..n as usize]
}

// The refusal of the first bad map, if any; the first of the maps goes by its own rule.
fn map_fault(rule: Maps, maps: &[u8]) -> Result<(), Refusal>
    ensures { failure result ≡ first_of (maps_causes rule true maps.now) }
{
    let mut first = true;
    for &m in maps {
        if sheet::bad_map_for(rule, first, m) {
            return Err(Refusal::BadMap);
        }
        first = false;
    }
    Ok(())
}

// How many bytes the fields of all maps take.
fn fields_width(maps: &[u8]) -> usize
    requires { length maps.now ≤ most_turns }
    ensures { (result ≡ widths maps.now) × (result ≤ record_bytes * most_turns) }
{
    let mut sum = 0;
    for &m in maps {
        sum += width(m);
    }
    sum
}

// The first thing wrong with a kept form between its header and its values, if any.
fn form_fault(rule: Maps, k: &[u8], n: u16) -> Result<(), Refusal>
    requires { (rule ≡ archive.maps) × (n ≡ turn_count k.now) × (n ≤ most_turns) }
    ensures { failure result ≡ first_of (form_causes k.now) }
{
    let from = HEADER_BYTES + n as usize;
    if k.len() < from {
        return Err(Refusal::Truncated);
    }
    let maps = maps_of(k, n);
    map_fault(rule, maps)?;
    let end = from + fields_width(maps);
    if k.len() < end {
        return Err(Refusal::Truncated);
    }
    if end < k.len() {
        return Err(Refusal::TrailingBytes);
    }
    Ok(())
}

// The first thing wrong with a kept form after its header, if any; if none, the turns stand in the table.
fn judge_form(
    kind: Kind,
    k: &[u8],
    n: u16,
    limits: Counts,
    table: &mut [u16],
) -> Result<(), Refusal>
    requires { (kind_in_numbers kind ≡ archive) × (n ≡ turn_count k.now) × (n ≤ most_turns) × (limits ≡ counts_in k.now) × (table_places ≤ length table.old) }
    ensures refused { failure result ≡ first_of (form_causes k.now ++ turns_causes archive.refusals (counts_in k.now) (kept_turns k.now)) }
    ensures table_after { OnOk result (first_turns (turn_count k.now) table.new ≡ kept_turns k.now) }
{
    form_fault(kind.maps, k, n)?;
    let from = HEADER_BYTES + n as usize;
    archive_columns::read_columns(k, from, maps_of(k, n), table);
    write::judge_turns(table, n, limits, kind.refusals)
}

// The first thing wrong with any bytes as a kept form, if any; if none, the turns stand in the table.
fn judge_kept(k: &[u8], table: &mut [u16]) -> Result<(), Refusal>
    requires { table_places ≤ length table.old }
    ensures refused { failure result ≡ first_of (kept_causes k.now) }
    ensures table_after { OnOk result (first_turns (turn_count k.now) table.new ≡ kept_turns k.now) }
{
    let kind = archive();
    let (limits, n) = sheet_read::read_header(kind, k)?;
    judge_form(kind, k, n, limits, table)
}

// The records of these maps and of the turns of a table, after the header.
fn put_records(maps: &[u8], table: &[u16], out: &mut [u8])
    requires { (form_size maps.now ≤ length out.old) × (row_numbers * length maps.now ≤ length table.now) }
    ensures { out.new ≡ puts out.old header_bytes (table_records maps.now table.now) }
{
    let mut at = HEADER_BYTES;
    for i in 0..maps.len() {
        let t = turn::turn_at(table, i);
        at = write::put_record(out, at, maps[i], t);
    }
}

// The sheet of a kept form whose turns stand in a table.
fn put_sheet(k: &[u8], n: u16, table: &[u16], out: &mut [u8])
    requires n_value { (n ≡ turn_count k.now) × (columns_at k.now ≤ length k.now) × (row_numbers * n ≤ length table.now) }
    requires k_in_bounds { columns_at k.now + widths (kept_maps k.now) ≤ length out.old }
    ensures { out.new ≡ puts out.old 0 (restored_first n k.now table.now) }
{
    put_front(out, wire::GRM, k);
    put_records(maps_of(k, n), table, out);
}

// Restores the sheet of any bytes as a kept form in any lent bytes.
pub fn restore(kept: &[u8], sheet: &mut [u8]) -> WriteAnswer
    ensures { beside result sheet.new ≡ restore_of kept.now sheet.old }
{
    let mut table = [0u16; TABLE_PLACES];
    match judge_kept(kept, &mut table) {
        Err(fault) => refused(fault),
        Ok(()) => {
            if sheet.len() < kept.len() {
                return refused(Refusal::BufferTooSmall);
            }
            let n = wire::word_at(kept, 5);
            put_sheet(kept, n, &table, sheet);
            WriteAnswer {
                refusal: 0,
                bytes: kept.len() as u32,
            }
        }
    }
}
