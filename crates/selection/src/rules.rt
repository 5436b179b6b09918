// The rules for a choice that is held in a choice map: no two chosen turns conflict, and no further turn
// fits beside them. Also the worth of a choice.
ghost use Rattle.std.specs.Prelude.{◌≡◌, cond, ◌<◌, replicate};
ghost use Rattle.model.specs.Choice.{has, chosen};
ghost use Rattle.model.specs.Rules.{independent, maximal};
ghost use Rattle.choice_map.specs.Choice.{choice_in};
ghost use Rattle.instance.specs.Columns.{slope_places, turns_by};
ghost use Rattle.selection.specs.Bounds.{HeldWithMap};
ghost use Rattle.selection.specs.Gathered.{Gathered};

use super::gathered::{fits_beside, gather_if_fits, gather_row};
use instance::{PLACES, SLOPES, Size, row_at};

// Whether no two chosen turns conflict: each must fit beside those of lower numbers. Their rows are
// gathered in the lent columns.
pub fn is_independent(p: Size, cols: &[u16; PLACES], map: &[u8], rows: &mut [u16; PLACES]) -> bool
    requires { HeldWithMap p cols.now map.now }
    ensures { result ≡ independent (turns_by p cols.now) (choice_in p.count map.now) }
{
    let mut flags = [0u8; SLOPES];
    let mut c = 0;
    for x in 0..p.count {
        if choice_map::is_chosen(map, x) {
            if !gather_if_fits(p.gap, rows, &mut flags, c, row_at(cols, x)) {
                return false;
            }
            c += 1;
        }
    }
    true
}

// Gathers the rows of all chosen turns and sets the flags of their slopes; returns how many they are.
fn gather_chosen(
    p: Size,
    cols: &[u16; PLACES],
    map: &[u8],
    rows: &mut [u16; PLACES],
    flags: &mut [u8; SLOPES],
) -> usize
    requires { HeldWithMap p cols.now map.now × (flags.old ≡ replicate slope_places 0) }
    ensures { Gathered (turns_by p cols.now) (choice_in p.count map.now) p.count result rows.new flags.new }
{
    let mut c = 0;
    for x in 0..p.count {
        if choice_map::is_chosen(map, x) {
            gather_row(rows, flags, c, row_at(cols, x));
            c += 1;
        }
    }
    c
}

// Whether every turn is chosen or does not fit beside the rows of all chosen turns.
fn are_settled(
    p: Size,
    cols: &[u16; PLACES],
    map: &[u8],
    rows: &[u16; PLACES],
    flags: &[u8; SLOPES],
    c: usize,
) -> bool
    requires { HeldWithMap p cols.now map.now × Gathered (turns_by p cols.now) (choice_in p.count map.now) p.count c rows.now flags.now }
    ensures { result ≡ maximal (turns_by p cols.now) (choice_in p.count map.now) }
{
    for t in 0..p.count {
        if !choice_map::is_chosen(map, t) && fits_beside(p.gap, rows, flags, c, row_at(cols, t)) {
            return false;
        }
    }
    true
}

// Whether every turn is chosen or conflicts with a chosen one. The rows of the chosen turns are gathered
// in the lent columns.
pub fn is_maximal(p: Size, cols: &[u16; PLACES], map: &[u8], rows: &mut [u16; PLACES]) -> bool
    requires { HeldWithMap p cols.now map.now }
    ensures { result ≡ maximal (turns_by p cols.now) (choice_in p.count map.now) }
{
    let mut flags = [0u8; SLOPES];
    let c = gather_chosen(p, cols, map, rows, &mut flags);
    are_settled(p, cols, map, rows, &flags, c)
}

// A turn's worth if it is chosen, else 0.
fn worth_if_chosen(p: Size, cols: &[u16; PLACES], map: &[u8], t: usize) -> u32
    requires { (t < p.count) × HeldWithMap p cols.now map.now }
    ensures { (result ≡ cond (has (choice_in p.count map.now) t) ((turns_by p cols.now).worth t) 0) × (result < 65536) }
{
    if choice_map::is_chosen(map, t) {
        row_at(cols, t).worth as u32
    } else {
        0
    }
}

// What the chosen turns are worth together.
pub fn chosen_worth(p: Size, cols: &[u16; PLACES], map: &[u8]) -> u32
    requires { HeldWithMap p cols.now map.now }
    ensures { result ≡ chosen p.count (choice_in p.count map.now) (turns_by p cols.now).worth }
{
    let mut sum: u32 = 0;
    for t in 0..p.count {
        sum += worth_if_chosen(p, cols, map, t);
    }
    sum
}
