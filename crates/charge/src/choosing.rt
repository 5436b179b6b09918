// Choosing windows: those of a list of numbers, from its last to its first, each with which the set stays
// allowed. A shift's turns are chosen so too, with another test of what fits.
ghost use Rattle.std.specs.Prelude.{◌≡◌, false, ◌*◌, ◌≤◌, ◌<◌, length, take, replicate};
ghost use Rattle.lists.specs.Lists.{keep};
ghost use Rattle.model.specs.Choice.{choose, choose_each};
ghost use Rattle.sheet.specs.Kind.{most_turns};
ghost use Rattle.choice_map.specs.Choice.{choice_in, Clean};
ghost use Rattle.board.specs.Board.{step_size, steps_in};
ghost use Rattle.selection.specs.Bounds.{StepsOf};
ghost use Rattle.selection.specs.Asked.{NumbersOf};
ghost use Rattle.charge_spec.specs.Hall.{stays_allowed};
ghost use Rattle.charge_spec.specs.Plan.{fits_among, choose_among};
ghost use Rattle.hall_steps.specs.OneKind.{kind_hall, of_kind};
ghost use Rattle.hall_steps.specs.Bounds.{HallHeld};
ghost use Rattle.charge.specs.OneKind.{meant};
ghost use Rattle.charge.specs.Supply.{free_in, Supplied};

use super::supply::{USED, is_allowed, is_free, use_row};
use hall_steps::OneKind;
use instance::{MOST_TURNS, PLACES, row_at};
use selection::{ASKED, put_asked};

// Chooses window j if the set stays allowed.
fn add_if_allowed(a: OneKind, cols: &[u16; PLACES], map: &mut [u8], used: &mut [u8; USED], j: usize)
    requires j_lt_count { (j < a.size.count) × HallHeld a.units a.size cols.now × Clean a.size.count map.old }
    requires supplied { Supplied (kind_hall a cols.now) (choice_in a.size.count map.old) used.old }
    ensures map_after { choice_in a.size.count map.new
        ≡ choose (stays_allowed (kind_hall a cols.now)) (choice_in a.size.count map.old) j }
    ensures clean { Clean a.size.count map.new }
    ensures supplied_2 { Supplied (kind_hall a cols.now) (choice_in a.size.count map.new) used.new }
{
    let row = row_at(cols, j);
    if is_allowed(a.units, &*used, row) {
        choice_map::set_bit(&mut *map, j);
        use_row(&mut *used, a.units, row);
    }
}

// Chooses window j if the set stays allowed with it; unless any is meant, only one of the kind.
fn add_if_meant(
    a: OneKind,
    any: bool,
    cols: &[u16; PLACES],
    map: &mut [u8],
    used: &mut [u8; USED],
    j: usize,
)
    requires j_lt_count { (j < a.size.count) × HallHeld a.units a.size cols.now × Clean a.size.count map.old }
    requires supplied { Supplied (kind_hall a cols.now) (choice_in a.size.count map.old) used.old }
    ensures map_after { choice_in a.size.count map.new
        ≡ choose (fits_among (kind_hall a cols.now) (meant a any cols.now)) (choice_in a.size.count map.old) j }
    ensures clean { Clean a.size.count map.new }
    ensures supplied_2 { Supplied (kind_hall a cols.now) (choice_in a.size.count map.new) used.new }
{
    let own = hall_steps::is_of_kind(a, row_at(cols, j).groomer);
    if any | own {
        add_if_allowed(a, cols, &mut *map, &mut *used, j);
    }
}

// The windows of a list of numbers that are of the kind, or any, from its last to its first, beside those chosen
// before.
fn choose_beside(
    a: OneKind,
    any: bool,
    cols: &[u16; PLACES],
    list: &[u16],
    map: &mut [u8],
    used: &mut [u8; USED],
)
    requires hall_held { HallHeld a.units a.size cols.now × NumbersOf a.size.count list.now × Clean a.size.count map.old }
    requires supplied { Supplied (kind_hall a cols.now) (choice_in a.size.count map.old) used.old }
    ensures map_after { choice_in a.size.count map.new
        ≡ choose_each (fits_among (kind_hall a cols.now) (meant a any cols.now)) list.now
        (choice_in a.size.count map.old) }
    ensures clean { Clean a.size.count map.new }
    ensures supplied_2 { Supplied (kind_hall a cols.now) (choice_in a.size.count map.new) used.new }
{
    for i in (0..list.len()).rev() {
        add_if_meant(a, any, cols, &mut *map, &mut *used, usize::from(list[i]));
    }
}

// The windows of a list whose vehicles are not among those of the chosen ones, in the same order, to the front of a
// place; returns how many they are. Each window is put there, and the next over it unless its vehicle is free: so
// there is no branch to guess.
fn put_free(
    a: OneKind,
    cols: &[u16; PLACES],
    used: &[u8; USED],
    list: &[u16],
    free: &mut [u16; MOST_TURNS],
) -> usize
    requires hall_held { HallHeld a.units a.size cols.now × NumbersOf a.size.count list.now }
    requires list_len_bound { length list.now ≤ most_turns }
    ensures free_after { take result free.new ≡ keep (free_in cols.now used.now) list.now }
    ensures upper_bound { result ≤ length list.now }
{
    let mut count = 0;
    for &t in list {
        free[count] = t;
        count += usize::from(is_free(a.units, used, row_at(cols, usize::from(t))));
    }
    count
}

// The same as choose_beside on a list no longer than all windows. Most of its windows are of vehicles that have one
// already: these are left out at once.
fn choose_free(
    a: OneKind,
    any: bool,
    cols: &[u16; PLACES],
    list: &[u16],
    map: &mut [u8],
    used: &mut [u8; USED],
)
    requires hall_held { HallHeld a.units a.size cols.now × NumbersOf a.size.count list.now × Clean a.size.count map.old }
    requires supplied { Supplied (kind_hall a cols.now) (choice_in a.size.count map.old) used.old × (length list.now ≤ most_turns) }
    ensures map_after { choice_in a.size.count map.new
        ≡ choose_each (fits_among (kind_hall a cols.now) (meant a any cols.now)) list.now
        (choice_in a.size.count map.old) }
    ensures clean { Clean a.size.count map.new }
{
    let mut free = [0u16; MOST_TURNS];
    let count = put_free(a, cols, &*used, list, &mut free);
    choose_beside(a, any, cols, &free[..count], &mut *map, &mut *used);
}

// Chooses windows of the kind, or any, from the list's last number to its first, into a map that has none chosen.
// First come the numbers after as many as there are windows: after these most vehicles have a window, and the
// windows of these vehicles are left out of the others.
fn choose_each(a: OneKind, any: bool, cols: &[u16; PLACES], list: &[u16], map: &mut [u8])
    requires hall_held { HallHeld a.units a.size cols.now × NumbersOf a.size.count list.now × Clean a.size.count map.old }
    requires map_value { choice_in a.size.count map.old ≡ replicate a.size.count false }
    ensures map_after { choice_in a.size.count map.new
        ≡ choose_each (fits_among (kind_hall a cols.now) (meant a any cols.now)) list.now (replicate a.size.count false) }
    ensures clean { Clean a.size.count map.new }
{
    let mut used = [0u8; USED];
    let later = list.len().min(a.size.count);
    choose_beside(a, any, cols, &list[later..], &mut *map, &mut used);
    choose_free(a, any, cols, &list[..later], &mut *map, &mut used);
}

// All windows of a list of numbers, whatever their kind.
pub fn choose_listed(a: OneKind, cols: &[u16; PLACES], list: &[u16], map: &mut [u8])
    requires hall_held { HallHeld a.units a.size cols.now × NumbersOf a.size.count list.now × Clean a.size.count map.old }
    requires map_value { choice_in a.size.count map.old ≡ replicate a.size.count false }
    ensures map_after { choice_in a.size.count map.new
        ≡ choose_each (stays_allowed (kind_hall a cols.now)) list.now (replicate a.size.count false) }
    ensures clean { Clean a.size.count map.new }
{
    choose_each(a, true, cols, list, &mut *map);
}

// Going back over m steps, then filling, into a map that has none chosen.
pub fn choose_windows(a: OneKind, cols: &[u16; PLACES], steps: &[u8], m: usize, map: &mut [u8])
    requires hall_held { HallHeld a.units a.size cols.now × (m ≤ most_turns) × (step_size * m ≤ length steps.now) × StepsOf a.size.count m steps.now }
    requires clean { Clean a.size.count map.old × (choice_in a.size.count map.old ≡ replicate a.size.count false) }
    ensures map_after { choice_in a.size.count map.new
        ≡ choose_among (kind_hall a cols.now) (of_kind a cols.now) (steps_in m steps.now) }
    ensures clean_2 { Clean a.size.count map.new }
{
    let n = a.size.count;
    let mut numbers = [0u16; ASKED];
    let list = &mut numbers[..n + m];
    put_asked(n, steps, m, &mut *list);
    choose_each(a, false, cols, &*list, &mut *map);
}
