// The days of a board's groomers where some turns finish late: from when to when each turn is worked, in
// one table of numbers.
ghost use Rattle.std.specs.Prelude.{◌≡◌, ◌+◌, ◌-◌, ◌*◌, ◌≤◌, ◌<◌, max, length, get_or};
ghost use Rattle.turn.specs.Turn.{shift_minutes};
ghost use Rattle.sheet.specs.Kind.{most_groomers, most_turns};
ghost use Rattle.choice_map.specs.Choice.{chosen_in, choice_in};
ghost use Rattle.instance.specs.Columns.{row_in, turns_by, Held};
ghost use Rattle.instance_spec.specs.ByStart.{order_by_start};
ghost use Rattle.play_spec.specs.Day.{most_delay, delay_in, delays_fit};
ghost use Rattle.play_spec.specs.DayTable.{day_rows, day_table_places, cut, stint_in, DelaysFit, Days};
ghost use Rattle.play.specs.Table.{with_stint, stint_by, with_next, after_next, table_with, progress_with, blank_table, RoomForTurn, Playable};

use instance::{MOST_TURNS, PLACES, Row, Size, row_at};
use play_spec::Stint;

// Driving over takes the minutes that a groomer has free between two turns.
pub const OVER_MINUTES: u16 = instance::SHIFT_GAP;

// The longest delay that a turn may have, in minutes.
const MOST_DELAY: u16 = 120;

// The minutes of a shift.
pub const MINUTES: u16 = turn::SHIFT_MINUTES as u16;

// As many groomers as a sheet can have.
const GROOMERS: usize = sheet::MOST_GROOMERS as usize;

// Ten minutes of driving over follow each stint, so no more than these can be over in a shift.
const DAY_ROWS: usize = (turn::SHIFT_MINUTES / OVER_MINUTES as u32) as usize;

// Turn, begin, end.
const ROW_SIZE: usize = 3;

const DAY_PLACES: usize = DAY_ROWS * ROW_SIZE;

pub const DAY_TABLE_PLACES: usize = GROOMERS * DAY_PLACES;

// How far the groomers are while the table is filled: from when on each is free, then how many stints it has.
const PROGRESS_PLACES: usize = GROOMERS + GROOMERS;

// A minute, or the shift's end where that is earlier.
fn cut_off(x: u16) -> u16
    ensures { (result ≡ cut x) × (result ≤ shift_minutes) }
{
    x.min(MINUTES)
}

// A turn as a stint, from the minute on which its groomer is free.
fn stint_by(r: Row, t: u16, delay: u16, free: u16) -> Stint
    requires { (r.start < r.end) × (r.end ≤ shift_minutes) × (delay ≤ most_delay) × (free ≤ shift_minutes) }
    ensures { (result ≡ stint_by r t delay free) × (result.end ≤ shift_minutes) }
{
    let begin = r.start.max(free);
    Stint {
        turn: t,
        begin,
        end: cut_off(begin + (r.end - r.start) + delay),
    }
}

// Puts a stint into row j of groomer g's day, groomers from 0.
fn put_stint(table: &mut [u16], g: usize, j: usize, s: Stint)
    requires { (length table.old ≡ day_table_places) × (g < most_groomers) × (j < day_rows) }
    ensures { table.new ≡ with_stint table.old g j s }
{
    let at = g * DAY_PLACES + j * ROW_SIZE;
    table[at] = s.turn;
    table[at + 1] = s.begin;
    table[at + 2] = s.end;
}

// The stint in row j of groomer g's day.
pub fn stint_in(table: &[u16], g: usize, j: usize) -> Stint
    requires { (length table.now ≡ day_table_places) × (g < most_groomers) × (j < day_rows) }
    ensures { result ≡ stint_in table.now g j }
{
    let at = g * DAY_PLACES + j * ROW_SIZE;
    Stint {
        turn: table[at],
        begin: table[at + 1],
        end: table[at + 2],
    }
}

// Puts a stint after groomer g's last one.
fn put_next(table: &mut [u16], progress: &[u16], g: usize, s: Stint)
    requires { (length table.old ≡ day_table_places) × RoomForTurn progress.now × (g < most_groomers) }
    ensures { table.new ≡ with_next table.old progress.now g s }
{
    let j = progress[GROOMERS + g] as usize;
    put_stint(&mut *table, g, j, s);
}

// The groomer is free when it has driven over, and has a stint more.
fn move_on(progress: &mut [u16], g: usize, s: Stint)
    requires { RoomForTurn progress.old × (g < most_groomers) × (s.end ≤ shift_minutes) }
    ensures { progress.new ≡ after_next progress.old g s }
{
    let j = progress[GROOMERS + g];
    progress[g] = cut_off(s.end + OVER_MINUTES);
    progress[GROOMERS + g] = j + 1;
}

// Puts turn t of groomer g, a row with its delay, into the groomer's day.
fn put_turn(table: &mut [u16], progress: &mut [u16], g: usize, r: Row, t: u16, delay: u16)
    requires table_len { (length table.old ≡ day_table_places) × RoomForTurn progress.old × (g < most_groomers) }
    requires start_lt_end { (r.start < r.end) × (r.end ≤ shift_minutes) × (delay ≤ most_delay) }
    ensures { (table.new ≡ with_next table.old progress.old g (stint_by r t delay (get_or progress.old g 0)))
        × (progress.new ≡ after_next progress.old g (stint_by r t delay (get_or progress.old g 0))) }
{
    let s = stint_by(r, t, delay, progress[g]);
    put_next(&mut *table, &*progress, g, s);
    move_on(&mut *progress, g, s);
}

// Puts turn u into its groomer's day if it is chosen.
fn put_chosen(
    cols: &[u16; PLACES],
    map: &[u8],
    delays: &[u16],
    u: u16,
    table: &mut [u16],
    progress: &mut [u16],
)
    requires u_lt_most_turns { (u < most_turns) × (u < 8 * length map.now) × (u < length delays.now) × (delay_in delays.now u ≤ most_delay) }
    requires u_bound { ((row_in cols.now u).start < (row_in cols.now u).end) × ((row_in cols.now u).end ≤ shift_minutes) }
    requires bound { (1 ≤ (row_in cols.now u).groomer) × ((row_in cols.now u).groomer ≤ most_groomers) }
    requires table_len { (length table.old ≡ day_table_places) × RoomForTurn progress.old }
    ensures { (table.new ≡ table_with (chosen_in map.now u) (row_in cols.now u) u (delay_in delays.now u)
        table.old progress.old)
        × (progress.new ≡ progress_with (chosen_in map.now u) (row_in cols.now u) u (delay_in delays.now u)
        progress.old) }
{
    let t = u as usize;
    if choice_map::is_chosen(map, t) {
        let r = row_at(cols, t);
        let g = (r.groomer - 1) as usize;
        put_turn(&mut *table, &mut *progress, g, r, u, delays[t]);
    }
}

// Puts the chosen turns, in their order, into the days of a blank table.
fn put_turns(
    p: Size,
    cols: &[u16; PLACES],
    map: &[u8],
    delays: &[u16],
    order: &[u16],
    table: &mut [u16],
)
    requires held { Held p cols.now × (p.count ≤ 8 * length map.now) × DelaysFit delays.now p.count }
    requires order_value { (order.now ≡ order_by_start (turns_by p cols.now)) × (table.old ≡ blank_table) }
    requires playable { Playable (turns_by p cols.now) (choice_in p.count map.now) }
    ensures { Days (turns_by p cols.now) (choice_in p.count map.now) (delay_in delays.now) table.new }
{
    let mut progress = [0u16; PROGRESS_PLACES];
    for &u in order {
        put_chosen(cols, map, delays, u, &mut *table, &mut progress);
    }
}

// Puts the days of a board's groomers, of chosen turns with a delay each, into a blank table.
pub fn put_days(
    p: Size,
    cols: &[u16; PLACES],
    map: &[u8],
    delays: &[u16],
    table: &mut [u16; DAY_TABLE_PLACES],
)
    requires held { Held p cols.now × (p.count ≤ 8 * length map.now) × DelaysFit delays.now p.count × (table.old ≡ blank_table) }
    requires playable { Playable (turns_by p cols.now) (choice_in p.count map.now) }
    ensures { Days (turns_by p cols.now) (choice_in p.count map.now) (delay_in delays.now) table.new }
{
    let mut places = [0u16; MOST_TURNS];
    let order = &mut places[..p.count];
    instance::put_order(p, cols, &mut *order);
    put_turns(p, cols, map, delays, &*order, &mut *table);
}

// Whether each of the delays is within its limit.
pub fn delays_fit(delays: &[u16]) -> bool
    ensures { result ≡ delays_fit delays.now (length delays.now) }
{
    for &delay in delays {
        if MOST_DELAY < delay {
            return false;
        }
    }
    true
}
