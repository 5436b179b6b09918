// The limit at some prices, and each vehicle's best window at them.
ghost use Rattle.std.specs.Prelude.{◌≡◌, cond, ◌+◌, ◌*◌, ◌/◌, ◌≤◌, ◌<◌, ltb, length, get_or, set, replicate};
ghost use Rattle.limit_spec.specs.Prices.{most_price};
ghost use Rattle.turn.specs.Turn.{shift_minutes};
ghost use Rattle.sheet.specs.Kind.{most_turns};
ghost use Rattle.charge_spec.specs.Hall.{most_units, most_vehicles};
ghost use Rattle.hall_by_prices_spec.specs.Prices.{price_parts, supply_cost, hall_limit};
ghost use Rattle.hall_look.specs.Look.{vehicle_places, hall_for, bests_sum, HallPosed, MinuteSums, Bests, WindowsTaken};

use super::HallSize;
use super::sums::{MINUTES, PARTS, SUMS, counts_for, put_sums};
use instance::{PLACES, row_at};

// A place for each number of a vehicle; place 0 is not used.
pub const VEHICLES: usize = 61;

// Takes window t for vehicle v if it counts for more than the one there. Taken has t + 1, and 0 where there is none: no
// Option, since Bests and WindowsTaken of specs/Look hold numbers.
fn keep_best(
    v: usize,
    count: u16,
    t: usize,
    most: &mut [u16; VEHICLES],
    taken: &mut [u16; VEHICLES],
)
    requires { (v ≤ most_vehicles) × (t < most_turns) }
    ensures most_after { most.new ≡ cond (ltb (get_or most.old v 0) count) (set most.old v count) most.old }
    ensures taken_after { taken.new ≡ cond (ltb (get_or most.old v 0) count) (set taken.old v (t + 1)) taken.old }
{
    if most[v] < count {
        most[v] = count;
        taken[v] = (t + 1) as u16;
    }
}

// The vehicles' best windows, where none is there before.
fn put_bests(
    h: HallSize,
    cols: &[u16; PLACES],
    prices: &[u16],
    sums: &[u32; SUMS],
    most: &mut [u16; VEHICLES],
    taken: &mut [u16; VEHICLES],
)
    requires hall_posed { HallPosed h cols.now × MinuteSums prices.now sums.now }
    requires most_value { (most.old ≡ replicate vehicle_places 0) × (taken.old ≡ replicate vehicle_places 0) }
    ensures { Bests (hall_for h cols.now) prices.now h.size.count most.new taken.new }
{
    for t in 0..h.size.count {
        let row = row_at(cols, t);
        let count = counts_for(prices, sums, row);
        keep_best(usize::from(row.slope), count as u16, t, most, taken);
    }
}

// What the best windows of vehicles 1 to the last count for together.
fn bests_sum(vehicles: u16, most: &[u16; VEHICLES]) -> u32
    requires { vehicles ≤ most_vehicles }
    ensures { (result ≡ bests_sum most.now vehicles) × (result ≤ most_vehicles * most_price) }
{
    let mut sum = 0;
    for &count in &most[1..=usize::from(vehicles)] {
        sum += u32::from(count);
    }
    sum
}

// What all units cost at all minutes.
fn supply_cost(h: HallSize, cols: &[u16; PLACES], prices: &[u16], sums: &[u32; SUMS]) -> u32
    requires { HallPosed h cols.now × MinuteSums prices.now sums.now }
    ensures { (result ≡ supply_cost (hall_for h cols.now) prices.now) × (result ≤ most_units * (shift_minutes * most_price) / price_parts) }
{
    u32::from(h.units) * sums[MINUTES] / PARTS
}

// The limit, and the vehicles' best windows, where none is there before.
pub fn limit_with(
    h: HallSize,
    cols: &[u16; PLACES],
    prices: &[u16],
    most: &mut [u16; VEHICLES],
    taken: &mut [u16; VEHICLES],
) -> u32
    requires hall_posed { HallPosed h cols.now × (length prices.now ≡ shift_minutes) }
    requires most_value { (most.old ≡ replicate vehicle_places 0) × (taken.old ≡ replicate vehicle_places 0) }
    ensures value { result ≡ hall_limit (hall_for h cols.now) h.vehicles prices.now }
    ensures windows_taken { WindowsTaken (hall_for h cols.now) prices.now taken.new }
{
    let mut sums = [0u32; SUMS];
    put_sums(prices, &mut sums);
    put_bests(h, cols, prices, &sums, most, taken);
    supply_cost(h, cols, prices, &sums) + bests_sum(h.vehicles, most)
}

// The limit alone.
pub fn limit_at(h: HallSize, cols: &[u16; PLACES], prices: &[u16]) -> u32
    requires { HallPosed h cols.now × (length prices.now ≡ shift_minutes) }
    ensures { result ≡ hall_limit (hall_for h cols.now) h.vehicles prices.now }
{
    let mut most = [0u16; VEHICLES];
    let mut taken = [0u16; VEHICLES];
    limit_with(h, cols, prices, &mut most, &mut taken)
}
