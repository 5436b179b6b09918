// The relaxed set as a choice map: the windows that the vehicles take.
ghost use Rattle.std.specs.Prelude.{◌≡◌, false, ◌*◌, ◌≤◌, length, replicate};
ghost use Rattle.turn.specs.Turn.{shift_minutes};
ghost use Rattle.choice_map.specs.Choice.{choice_in, Clean};
ghost use Rattle.hall_by_prices_spec.specs.Prices.{hall_limit, hall_relaxed};
ghost use Rattle.hall_look.specs.Look.{hall_for, with_before, HallPosed, WindowsTaken};

use super::HallSize;
use super::limit::{VEHICLES, limit_with};
use instance::PLACES;

// Sets the bit of window number - 1, and none where the number is 0.
fn put_before(number: u16, map: &mut [u8])
    requires { number ≤ 8 * length map.old }
    ensures { map.new ≡ with_before number map.old }
{
    if let Some(t) = number.checked_sub(1) {
        choice_map::set_bit(map, usize::from(t));
    }
}

// Sets the bits of the windows that the vehicles take, where none is set before.
fn put_relaxed(
    h: HallSize,
    cols: &[u16; PLACES],
    prices: &[u16],
    taken: &[u16; VEHICLES],
    map: &mut [u8],
)
    requires hall_posed { HallPosed h cols.now × WindowsTaken (hall_for h cols.now) prices.now taken.now }
    requires clean { Clean h.size.count map.old × (choice_in h.size.count map.old ≡ replicate h.size.count false) }
    ensures clean_2 { Clean h.size.count map.new }
    ensures map_after { choice_in h.size.count map.new ≡ hall_relaxed (hall_for h cols.now) prices.now }
{
    for &number in taken {
        put_before(number, map);
    }
}

// The limit at some prices, and the relaxed set into a map that has none chosen.
pub fn look_at(h: HallSize, cols: &[u16; PLACES], prices: &[u16], relaxed: &mut [u8]) -> u32
    requires hall_posed { HallPosed h cols.now × (length prices.now ≡ shift_minutes) }
    requires clean { Clean h.size.count relaxed.old × (choice_in h.size.count relaxed.old ≡ replicate h.size.count false) }
    ensures value { result ≡ hall_limit (hall_for h cols.now) h.vehicles prices.now }
    ensures clean_2 { Clean h.size.count relaxed.new
        × (choice_in h.size.count relaxed.new ≡ hall_relaxed (hall_for h cols.now) prices.now) }
{
    let mut most = [0u16; VEHICLES];
    let mut taken = [0u16; VEHICLES];
    let limit = limit_with(h, cols, prices, &mut most, &mut taken);
    put_relaxed(h, cols, prices, &taken, relaxed);
    limit
}
