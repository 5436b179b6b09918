// What the chosen windows use: the units drawn at each minute of the shift, and after them a place for each
// vehicle, not 0 where it is among them.
ghost use Rattle.std.specs.Prelude.{◌≡◌, ◌+◌, ◌-◌, ◌≤◌};
ghost use Rattle.turn.specs.Turn.{shift_minutes};
ghost use Rattle.charge.specs.Supply.{part_minutes, free_row, lasts_for, lasts_row, allowed_row, RowInHall, RoomFor, Drawn, WithWindow};

use instance::Row;

const MINUTES: usize = turn::SHIFT_MINUTES as usize;

// Vehicles have numbers from 1 on; place 0 is not used.
pub const MOST_VEHICLES: u16 = 60;

pub const USED: usize = MINUTES + MOST_VEHICLES as usize + 1;

// So many minutes are looked at together.
const PART: usize = 32;

// Whether at each of n minutes from one on at most so much is used. No early exit, so that the loop vectorises.
fn lasts_from(used: &[u8; USED], room: u8, from: usize, n: usize) -> bool
    requires { from + n ≤ shift_minutes }
    ensures { result ≡ lasts_for used.now from room n }
{
    let mut all = true;
    for &drawn in &used[from..from + n] {
        all &= drawn <= room;
    }
    all
}

// The same for the minutes from a start to an end, part by part up to the first that has a minute without room. The
// last part ends at the end, so it may have minutes of the one before.
fn lasts_long(used: &[u8; USED], room: u8, start: usize, end: usize) -> bool
    requires { (start + part_minutes ≤ end) × (end ≤ shift_minutes) }
    ensures { result ≡ lasts_for used.now start room (end - start) }
{
    let last = end - PART;
    for m in (start..last).step_by(PART) {
        if !lasts_from(used, room, m, PART) {
            return false;
        }
    }
    lasts_from(used, room, last, PART)
}

// Whether the supply has the window's draw left at each of its minutes.
fn lasts(units: u16, used: &[u8; USED], r: Row) -> bool
    requires { RowInHall units r }
    ensures { result ≡ lasts_row units used.now r }
{
    let room = (units - r.groomer) as u8;
    let start = usize::from(r.start);
    let end = usize::from(r.end);
    if end - start < PART {
        lasts_from(used, room, start, end - start)
    } else {
        lasts_long(used, room, start, end)
    }
}

// Whether a window's vehicle is not among those of the chosen ones.
pub fn is_free(units: u16, used: &[u8; USED], r: Row) -> bool
    requires { RowInHall units r }
    ensures { result ≡ free_row used.now r }
{
    used[MINUTES + usize::from(r.slope)] == 0
}

// Whether a window can be beside the chosen ones: its vehicle is not among them, and the supply lasts.
pub fn is_allowed(units: u16, used: &[u8; USED], r: Row) -> bool
    requires { RowInHall units r }
    ensures { result ≡ allowed_row units used.now r }
{
    is_free(units, used, r) && lasts(units, used, r)
}

// Adds a window's draw at each of its minutes.
fn draw_row(used: &mut [u8; USED], units: u16, r: Row)
    requires { RowInHall units r × RoomFor units used.old r }
    ensures { Drawn r.start r.groomer r.end used.old used.new }
{
    let draw = r.groomer as u8;
    for m in usize::from(r.start)..usize::from(r.end) {
        used[m] += draw;
    }
}

// Puts down that a window is chosen: its draw at its minutes, and its vehicle.
pub fn use_row(used: &mut [u8; USED], units: u16, r: Row)
    requires { RowInHall units r × RoomFor units used.old r }
    ensures { WithWindow r used.old used.new }
{
    draw_row(&mut *used, units, r);
    used[MINUTES + usize::from(r.slope)] = 1;
}
