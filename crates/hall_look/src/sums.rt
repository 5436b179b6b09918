// What windows pay and count for, by sums of the prices from the first minute on.
ghost use Rattle.std.specs.Prelude.{◌≡◌, ◌*◌, ◌-◌, ◌≤◌, length};
ghost use Rattle.limit_spec.specs.Prices.{most_price};
ghost use Rattle.turn.specs.Turn.{shift_minutes, most_worth};
ghost use Rattle.hall_look.specs.Look.{row_cost, row_counts, MinuteSums, WindowRow};

use instance::Row;

pub const MINUTES: usize = turn::SHIFT_MINUTES as usize;

// The sum of the prices before each minute, and of all.
pub const SUMS: usize = MINUTES + 1;

// Prices are in parts of worth: so many parts are a worth of 1.
pub const PARTS: u32 = 16;

// All sums of a list with a price for each minute.
pub fn put_sums(prices: &[u16], sums: &mut [u32; SUMS])
    requires { length prices.now ≡ shift_minutes }
    ensures { MinuteSums prices.now sums.new }
{
    let mut sum = 0;
    sums[0] = 0;
    for (m, &price) in prices.iter().enumerate() {
        sum += u32::from(price);
        sums[m + 1] = sum;
    }
}

// What a window's minutes cost together.
fn cost_of(prices: &[u16], sums: &[u32; SUMS], r: Row) -> u32
    requires { WindowRow r × MinuteSums prices.now sums.now }
    ensures { (result ≡ row_cost prices.now r) × (result ≤ shift_minutes * most_price) }
{
    sums[usize::from(r.end)] - sums[usize::from(r.start)]
}

// What a window counts for: what is left of its worth, nothing if all of it is paid. Its groomer is its draw, as in a hall's columns.
pub fn counts_for(prices: &[u16], sums: &[u32; SUMS], r: Row) -> u32
    requires { WindowRow r × MinuteSums prices.now sums.now }
    ensures { (result ≡ row_counts prices.now r) × (result ≤ most_worth) }
{
    let cost = cost_of(prices, sums, r);
    u32::from(r.worth).saturating_sub(u32::from(r.groomer) * cost / PARTS)
}
