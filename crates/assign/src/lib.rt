// Groomers for all turns: each turn gets the number of the groomer who does it, where any groomer
// can do any turn.

#![tactic(auto)]

ghost use Rattle.std.specs.Prelude.{◌≡◌, ◌+◌, ◌≤◌, ◌<◌, length};
ghost use Rattle.turn.specs.Turn.{shift_minutes};
ghost use Rattle.sheet.specs.Kind.{most_turns};
ghost use Rattle.instance.specs.Columns.{turns_by, Held};
ghost use Rattle.refusal.specs.Failure.{number_of};
ghost use Rattle.refusal.specs.Outcome.{beside};
ghost use Rattle.assign_spec.specs.Numbering.{numbers_of, used_of};
ghost use Rattle.assign_spec.specs.Assign.{assign_refused, assign_of};

mod assigning;

use assign_spec::AssignAnswer;
use instance::{MOST_TURNS, PLACES, Size};
use refusal::Refusal;

// Writes each turn's number at its place, with lent places for the order; returns how many groomers are
// used.
fn number_by_order(p: Size, cols: &[u16; PLACES], order: &mut [u16], numbers: &mut [u16]) -> usize
    requires { Held p cols.now × (length order.old ≡ p.count) × (length numbers.old ≡ p.count) × (shift_minutes + p.gap < 65536) }
    ensures { (numbers.new ≡ numbers_of (turns_by p cols.now))
        × (result ≡ used_of (turns_by p cols.now)) × (result ≤ most_turns) }
{
    instance::put_order(p, cols, &mut *order);
    // No turn has a number yet.
    numbers.fill(0);
    assigning::number_all(p, cols, &*order, &mut *numbers)
}

// Writes each turn's number at its place. The order of the turns stands in a local array.
fn number_turns(p: Size, cols: &[u16; PLACES], numbers: &mut [u16]) -> usize
    requires { Held p cols.now × (length numbers.old ≡ p.count) × (shift_minutes + p.gap < 65536) }
    ensures { (numbers.new ≡ numbers_of (turns_by p cols.now))
        × (result ≡ used_of (turns_by p cols.now)) × (result ≤ most_turns) }
{
    let mut order = [0u16; MOST_TURNS];
    number_by_order(p, cols, &mut order[..p.count], &mut *numbers)
}

fn refused(k: Refusal) -> AssignAnswer
    ensures { result ≡ assign_refused (number_of k) }
{
    AssignAnswer {
        refusal: u8::from(k),
        groomers: 0,
    }
}

// Takes any bytes as a sheet, and writes the number of each turn's groomer into any lent places.
pub fn assign(s: &[u8], places: &mut [u16]) -> AssignAnswer
    ensures { beside result places.new ≡ assign_of s.now places.old }
{
    let mut cols = [0u16; PLACES];
    let (_, turns) = match instance::load(s, &mut cols) {
        Ok(read) => read,
        Err(fault) => return refused(fault),
    };
    let n = usize::from(turns);
    if places.len() < n {
        return refused(Refusal::BufferTooSmall);
    }
    let used = number_turns(instance::shift_size(turns), &cols, &mut places[..n]);
    AssignAnswer {
        refusal: 0,
        groomers: used as u16,
    }
}
