// The parts of the listing: one a groomer, by number, then the sums.
ghost use Rattle.std.specs.Prelude.{◌≡◌, ◌+◌, ◌≤◌, length};
ghost use Rattle.wire.specs.Number.{puts};
ghost use Rattle.text.specs.Place.{last_place};
ghost use Rattle.instance.specs.Columns.{turns_by};
ghost use Rattle.choice_map.specs.Choice.{choice_in};
ghost use Rattle.list.specs.Ready.{Ready};
ghost use Rattle.list_spec.specs.Text.{groomer_text, groomers_from, listing_of};

use super::lines::{put_heading, put_sums};
use super::notes::{note_round, put_notes};
use instance::{PLACES, Size};
use list_spec::Sums;

// A note for each minute of the shift; a bit for each in a map of them.
const NOTES: usize = turn::SHIFT_MINUTES as usize;

// Puts a groomer's heading and the lines of its round.
fn put_groomer(
    out: &mut [u8],
    at: usize,
    p: Size,
    cols: &[u16; PLACES],
    map: &[u8],
    groomer: u32,
) -> usize
    requires { Ready p cols.now map.now × (at + length (groomer_text (turns_by p cols.now) (choice_in p.count map.now) groomer) ≤ last_place) }
    ensures value { result ≡ at + length (groomer_text (turns_by p cols.now) (choice_in p.count map.now) groomer) }
    ensures out_after { out.new
        ≡ puts out.old at (groomer_text (turns_by p cols.now) (choice_in p.count map.now) groomer) }
{
    let next = put_heading(&mut *out, at, groomer);
    let mut minutes = [0u8; NOTES / 8];
    let mut notes = [0u16; NOTES];
    note_round(p, cols, map, groomer, &mut minutes, &mut notes);
    put_notes(&mut *out, next, p, cols, &minutes, &notes)
}

// Puts the parts of all groomers, by number.
fn put_groomers(out: &mut [u8], p: Size, cols: &[u16; PLACES], map: &[u8], groomers: u16) -> usize
    requires { Ready p cols.now map.now × (length (groomers_from (turns_by p cols.now) (choice_in p.count map.now) groomers 1) ≤ last_place) }
    ensures value { result ≡ length (groomers_from (turns_by p cols.now) (choice_in p.count map.now) groomers 1) }
    ensures out_after { out.new
        ≡ puts out.old 0 (groomers_from (turns_by p cols.now) (choice_in p.count map.now) groomers 1) }
{
    let mut to = 0;
    for groomer in 1..=u32::from(groomers) {
        to = put_groomer(&mut *out, to, p, cols, map, groomer);
    }
    to
}

// The whole listing; returns its bytes, of which those that find a place are written.
pub fn put_listing(
    out: &mut [u8],
    p: Size,
    cols: &[u16; PLACES],
    map: &[u8],
    groomers: u16,
    sums: Sums,
) -> usize
    requires { Ready p cols.now map.now
        × (length (listing_of groomers (turns_by p cols.now) (choice_in p.count map.now) sums) ≤ last_place) }
    ensures value { result ≡ length (listing_of groomers (turns_by p cols.now) (choice_in p.count map.now) sums) }
    ensures out_after { out.new ≡ puts out.old 0
        (listing_of groomers (turns_by p cols.now) (choice_in p.count map.now) sums) }
{
    let last = put_groomers(&mut *out, p, cols, map, groomers);
    put_sums(&mut *out, last, sums)
}
