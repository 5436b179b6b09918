// What a choice is worth.
ghost use Rattle.std.specs.Prelude.{◌≡◌};
ghost use Rattle.model.specs.Choice.{chosen};
ghost use Rattle.choice_map.specs.Choice.{choice_in, Clean};
ghost use Rattle.instance.specs.Columns.{turns_by, Held};

use instance::{PLACES, Size, row_at};

// The worths of the turns that a map has chosen, together; only these are gone through.
pub fn worth_chosen(p: Size, cols: &[u16; PLACES], map: &[u8]) -> u32
    requires { Held p cols.now × Clean p.count map.now }
    ensures { result ≡ chosen p.count (choice_in p.count map.now) (turns_by p cols.now).worth }
{
    let mut sum = 0;
    let mut t = choice_map::next_chosen(map, 0);
    while t < p.count {
        sum += u32::from(row_at(cols, t).worth);
        t = choice_map::next_chosen(map, t + 1);
    }
    sum
}
