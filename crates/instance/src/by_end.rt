// A problem's turns by end, in columns of their own: which turn stands at a place, and at which place a
// turn stands.
ghost use Rattle.std.specs.Prelude.{◌≡◌, ◌≤◌, ◌<◌, length};
ghost use Rattle.sheet.specs.Kind.{most_turns};
ghost use Rattle.instance.specs.Columns.{turns_by, Held};
ghost use Rattle.instance.specs.Placing.{by_end, place_at, PutByEnd, Permutation, PlacesOfAll};

use super::{PLACES, Size, put_row, row_at};

// All turns in order of end, those of one end by number; nothing is said of what the spare numbers hold
// afterwards.
fn set_by_end(p: Size, cols: &[u16; PLACES], order: &mut [u16], spare: &mut [u16])
    requires { (length order.old ≡ p.count) × (p.count ≤ length spare.old) × Held p cols.now }
    ensures { order.new ≡ by_end (turns_by p cols.now) }
{
    counting_sort::put_order(super::ends(p, cols), order, &mut spare[..p.count]);
}

// The rows of the turns, each at its place in the order.
fn put_rows(p: Size, cols: &[u16; PLACES], order: &[u16], own: &mut [u16; PLACES])
    requires { Held p cols.now × (order.now ≡ by_end (turns_by p cols.now)) }
    ensures { PutByEnd p cols.now order.now own.new }
{
    for (i, &t) in order.iter().enumerate() {
        put_row(own, i, row_at(cols, t as usize));
    }
}

// The turns' order by end, and their rows in that order, in a set of columns of their own.
pub fn put_by_end(p: Size, cols: &[u16; PLACES], order: &mut [u16], own: &mut [u16; PLACES])
    requires { Held p cols.now × (length order.old ≡ p.count) }
    ensures { PutByEnd p cols.now order.new own.new }
{
    set_by_end(p, cols, order, own);
    put_rows(p, cols, order, own);
}

// For each turn its place in an order.
pub fn put_places(order: &[u16], places: &mut [u16])
    requires { Permutation order.now × (length order.now ≤ most_turns) × (length places.old ≡ length order.now) }
    ensures { PlacesOfAll order.now places.new }
{
    for (i, &t) in order.iter().enumerate() {
        places[t as usize] = i as u16;
    }
}

// The place of a turn, or the number of turns if the turn has none: a number, since the check of a board asks for a place.
pub fn place_of(places: &[u16], t: u16) -> usize
    ensures { result ≡ place_at places.now t }
{
    let i = t as usize;
    if i < places.len() {
        places[i] as usize
    } else {
        places.len()
    }
}
