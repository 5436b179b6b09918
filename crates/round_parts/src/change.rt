// The change of a round.
ghost use Rattle.std.specs.Prelude.{◌≡◌, ◌≤◌};
ghost use Rattle.turn.specs.Turn.{most_worth};
ghost use Rattle.instance.specs.Columns.{turns_by, Held};
ghost use Rattle.refine_spec.specs.Rounds.{next_change};
ghost use Rattle.refine_spec.specs.Shift.{greatest_worth};

use instance::{PLACES, Size, row_at};

// The change of the next round.
pub fn next_change(c: u32) -> u32
    requires { c ≤ most_worth }
    ensures { (result ≡ next_change c) × (result ≤ most_worth) }
{
    (15 * c / 16).max(1)
}

// The greatest worth of all turns.
pub fn greatest_worth(p: Size, cols: &[u16; PLACES]) -> u32
    requires { Held p cols.now }
    ensures { (result ≡ greatest_worth (turns_by p cols.now)) × (result ≤ most_worth) }
{
    let mut greatest = 0u32;
    for t in 0..p.count {
        greatest = greatest.max(u32::from(row_at(cols, t).worth));
    }
    greatest
}
