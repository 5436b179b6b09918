// Standings in the caller's list, moved by a minute.
ghost use Rattle.std.specs.Prelude.{◌≡◌, ◌+◌, ◌≤◌, ◌<◌, length};
ghost use Rattle.turn.specs.Turn.{shift_minutes};
ghost use Rattle.play_spec.specs.DayTable.{doing_by};
ghost use Rattle.play_spec.specs.Standing.{fresh_of, moved_by, total_of};
ghost use Rattle.play_spec.specs.Minutes.{begun_of, step_of, minute_of, MinuteReady, AllReady};
ghost use Rattle.play.specs.Packed.{packed, most_added};

use super::days::{OVER_MINUTES, stint_in};
use play_spec::{Standing, Stint};

// The turn in hand where none is.
const NO_TURN: u16 = u16::MAX;

// A standing packed into 64 bits, 16 for each: minutes worked, driven over, stood, and the turn in hand.
const DRIVING_UNIT: u64 = 65536;

const STANDING_UNIT: u64 = 4294967296;

const TURN_UNIT: u64 = 281474976710656;

const NONE_IN_HAND: u64 = NO_TURN as u64 * TURN_UNIT;

// Before the first minute.
fn fresh() -> Standing
    ensures { result ≡ fresh_of }
{
    Standing {
        working: 0,
        driving: 0,
        standing: 0,
        turn: NO_TURN,
    }
}

// What minute m starts from. What the caller left in the list does not count: the first minute starts anew.
fn begun(s: Standing, m: u16) -> Standing
    ensures { result ≡ begun_of s m }
{
    if m == 0 {
        return fresh();
    }
    s
}

// What minute m of a stint adds to a packed standing: before the stint the groomer stands, in it it works, after
// it it drives over. The stint comes as its numbers, so that the compiled code has no branch.
fn added(turn: u16, begin: u16, end: u16, m: u16) -> u64
    ensures { (result ≡ packed (moved_by fresh_of (doing_by (record { turn = turn; begin = begin; end = end }) m))) × (result ≤ most_added) }
{
    let worked = 1 + turn as u64 * TURN_UNIT;
    if m < begin {
        return STANDING_UNIT + NONE_IN_HAND;
    }
    if m < end {
        return worked;
    }
    DRIVING_UNIT + NONE_IN_HAND
}

// A standing after minute m.
fn moved(s: Standing, k: Stint, m: u16) -> Standing
    requires { total_of s < shift_minutes }
    ensures { result ≡ moved_by s (doing_by k m) }
{
    let counts = s.working as u64
        + s.driving as u64 * DRIVING_UNIT
        + s.standing as u64 * STANDING_UNIT;
    let x = counts + added(k.turn, k.begin, k.end, m);
    Standing {
        working: (x % DRIVING_UNIT) as u16,
        driving: (x / DRIVING_UNIT % DRIVING_UNIT) as u16,
        standing: (x / STANDING_UNIT % DRIVING_UNIT) as u16,
        turn: (x / TURN_UNIT) as u16,
    }
}

// Minute m of the groomer at place g. Ten minutes of driving over follow each stint, so they tell how many
// stints are over, and which one is in hand or next.
fn step(s: Standing, table: &[u16], g: usize, m: u16) -> Standing
    requires { MinuteReady table.now g m s }
    ensures { result ≡ step_of s table.now g m }
{
    let b = begun(s, m);
    let k = stint_in(table, g, (b.driving / OVER_MINUTES) as usize);
    moved(b, k, m)
}

// Minute m of the first n groomers.
pub fn minute(list: &mut [Standing], table: &[u16], n: usize, m: u16)
    requires { (n ≤ length list.old) × AllReady table.now m n list.old }
    ensures { list.new ≡ minute_of n 0 list.old table.now m }
{
    for g in 0..n {
        list[g] = step(list[g], table, g, m);
    }
}
