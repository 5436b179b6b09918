// A turn: one groomer on one slope for some minutes, what that is worth, and who drives.

#![tactic(auto)]

ghost use Rattle.std.specs.Prelude.{◌≡◌, ◌+◌, ◌*◌, ◌≤◌, length};
ghost use Rattle.refusal.specs.Cause.{first_of};
ghost use Rattle.refusal.specs.Failure.{failure};
ghost use Rattle.turn.specs.Turn.{row_numbers, turn_in, outside_range, past_shift, turn_causes, number_in, numbers_of};

use refusal::Refusal;

// A shift's last minute, as an end, and the greatest worth of a turn.
pub const SHIFT_MINUTES: u32 = 960;

pub const MOST_WORTH: u16 = 60000;

// The greatest number of a driver; 0 is none.
pub const MOST_DRIVER: u16 = 40;

// Numbers a turn in a table.
pub const ROW_NUMBERS: usize = 6;

#[derive(Clone, Copy)]
pub struct Turn {
    pub slope: u16,
    pub groomer: u16,
    pub start: u16,
    pub length: u16,
    pub worth: u16,
    pub driver: u16,
}

// How many groomers and slopes a sheet has.
#[derive(Clone, Copy)]
pub struct Counts {
    pub groomers: u16,
    pub slopes: u16,
}

// The refusals that go by the kind of sheet: of its counts, of too many turns, of a turn's slope and
// of its groomer. Where there is none, the fault is passed over, and what comes after it is not looked at.
#[derive(Clone, Copy)]
pub struct Refusals {
    pub counts: Option<Refusal>,
    pub turns: Option<Refusal>,
    pub slope: Option<Refusal>,
    pub groomer: Option<Refusal>,
}

// What a kind of sheet refuses with, if it refuses at all.
pub fn refused_by(k: Option<Refusal>) -> Result<(), Refusal>
    ensures { failure result ≡ number_in k }
{
    match k {
        Some(refusal) => Err(refusal),
        None => Ok(()),
    }
}

// Turn i of a table.
pub fn turn_at(table: &[u16], i: usize) -> Turn
    requires { row_numbers * i + row_numbers ≤ length table.now }
    ensures { result ≡ turn_in table.now i }
{
    let at = i * ROW_NUMBERS;
    Turn {
        slope: table[at],
        groomer: table[at + 1],
        start: table[at + 2],
        length: table[at + 3],
        worth: table[at + 4],
        driver: table[at + 5],
    }
}

// Whether x, however wide, is outside 1 to top.
pub fn outside_range(x: u32, top: u16) -> bool
    ensures { result ≡ outside_range x top }
{
    x == 0 || (top as u32) < x
}

// Whether a turn has no length or ends after the shift.
fn past_shift(start: u16, minutes: u16) -> bool
    ensures { result ≡ past_shift start minutes }
{
    minutes == 0 || SHIFT_MINUTES < start as u32 + minutes as u32
}

// The first thing wrong with a turn's values, if any.
pub fn turn_fault(t: Turn, limits: Counts, refusals: Refusals) -> Result<(), Refusal>
    ensures { failure result ≡ first_of (turn_causes (numbers_of refusals) limits t) }
{
    if outside_range(t.slope as u32, limits.slopes) {
        return refused_by(refusals.slope);
    }
    if outside_range(t.groomer as u32, limits.groomers) {
        return refused_by(refusals.groomer);
    }
    if past_shift(t.start, t.length) {
        return Err(Refusal::BadTime);
    }
    if outside_range(t.worth as u32, MOST_WORTH) {
        return Err(Refusal::BadWorth);
    }
    if MOST_DRIVER < t.driver {
        return Err(Refusal::BadDriver);
    }
    Ok(())
}
