// Turns get their numbers one after another. Of each groomer it is enough to know until when it is busy
// with its last turn.
ghost use Rattle.std.specs.Prelude.{◌≡◌, ◌+◌, ◌≤◌, ◌<◌, set, replicate};
ghost use Rattle.turn.specs.Turn.{shift_minutes};
ghost use Rattle.sheet.specs.Kind.{most_turns};
ghost use Rattle.instance.specs.Columns.{turns_by, Held};
ghost use Rattle.instance_spec.specs.ByStart.{order_by_start};
ghost use Rattle.assign_spec.specs.Numbering.{number_for, numbers_of, used_of};
ghost use Rattle.assign.specs.Serving.{NextIn, BusyUntil, NoneBefore, FirstFree};

use instance::{MOST_TURNS, PLACES, Size, row_at};

// The groomers that have got a turn: how many, and a minute before which none of them is free.
#[derive(Clone, Copy)]
pub struct Groomers {
    pub used: usize,
    pub earliest: u16,
}

// The first of the groomers used that is free at a start: its place, or the next one's if all are busy.
fn first_free(busy: &[u16; MOST_TURNS], used: usize, start: u16) -> usize
    requires { used ≤ most_turns }
    ensures { FirstFree busy.now used start result }
{
    busy[..used]
        .iter()
        .position(|&until| until <= start)
        .unwrap_or(used)
}

// The first groomer that is free at a start, as first_free gives it; but where the earliest minute says that
// all are busy, none is looked at.
fn place_for(busy: &[u16; MOST_TURNS], g: Groomers, start: u16) -> usize
    requires { (g.used ≤ most_turns) × NoneBefore busy.now g }
    ensures { FirstFree busy.now g.used start result }
{
    if start < g.earliest {
        return g.used;
    }
    first_free(busy, g.used, start)
}

// Gives turn t its number; returns the groomers that have a turn then.
fn number_turn(
    p: Size,
    cols: &[u16; PLACES],
    t: usize,
    g: Groomers,
    busy: &mut [u16; MOST_TURNS],
    numbers: &mut [u16],
) -> Groomers
    requires held { Held p cols.now × NextIn (turns_by p cols.now) numbers.old t × (shift_minutes + p.gap < 65536) }
    requires busy_until { BusyUntil (turns_by p cols.now) numbers.old g.used busy.old × NoneBefore busy.old g × (g.used < most_turns) }
    ensures numbers_after { numbers.new ≡ set numbers.old t (number_for (turns_by p cols.now) numbers.old t) }
    ensures busy_until_2 { BusyUntil (turns_by p cols.now) numbers.new result.used busy.new × NoneBefore busy.new result }
{
    let row = row_at(cols, t);
    let k = place_for(&*busy, g, row.start);
    let until = row.end + p.gap;
    busy[k] = until;
    numbers[t] = (k + 1) as u16;
    Groomers {
        used: g.used.max(k + 1),
        earliest: g.earliest.min(until),
    }
}

// Gives all turns their numbers, in order of start; returns how many groomers are used.
pub fn number_all(p: Size, cols: &[u16; PLACES], order: &[u16], numbers: &mut [u16]) -> usize
    requires held { Held p cols.now × (numbers.old ≡ replicate p.count 0) × (order.now ≡ order_by_start (turns_by p cols.now)) }
    requires gap_bound { shift_minutes + p.gap < 65536 }
    ensures { (numbers.new ≡ numbers_of (turns_by p cols.now))
        × (result ≡ used_of (turns_by p cols.now)) × (result ≤ most_turns) }
{
    let mut busy = [0u16; MOST_TURNS];
    // No groomer is used yet, so none is free at any start.
    let mut g = Groomers {
        used: 0,
        earliest: u16::MAX,
    };
    for &t in order {
        g = number_turn(p, cols, usize::from(t), g, &mut busy, &mut *numbers);
    }
    g.used
}
