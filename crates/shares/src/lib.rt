// A step by shares, as a hall's small windows have it. Of a row the slope is the vehicle and the groomer the
// draw. The step takes its amount from the windows of its own vehicle, and from those that share a minute
// with it a part of the amount, by their draws.

#![tactic(auto)]

ghost use Rattle.std.specs.Prelude.{◌≡◌, ◌*◌, ◌≤◌, ◌<◌};
ghost use Rattle.turn.specs.Turn.{most_worth};
ghost use Rattle.model.specs.Steps.{after_step_by};
ghost use Rattle.instance.specs.Columns.{Held};
ghost use Rattle.local_ratio.specs.Bounds.{Residuals, ClosedTo};
ghost use Rattle.charge_spec.specs.Hall.{most_units};
ghost use Rattle.charge_spec.specs.Plan.{rounded_up, small_takes};
ghost use Rattle.shares.specs.Taking.{hall_by, row_takes, SharesBy, HalfDraws};

use instance::{PLACES, Row, Size, overlap, row_at};
use local_ratio::{lessen, value_if};

// The free minutes between two windows: none.
pub const HALL_GAP: u16 = 0;

// No small window draws more than half of the units, of which there are at most 48.
const SHARES: usize = 25;

// A step on a window for an amount, in a hall of so many units.
#[derive(Clone, Copy)]
pub struct Share {
    pub turn: usize,
    pub amount: u16,
    pub units: u16,
}

// Twice the draw times the amount, divided by the units, rounded up.
fn share_of(units: u16, draw: u16, amount: u16) -> u16
    requires { (1 ≤ units) × (2 * draw ≤ units) × (amount ≤ most_worth) }
    ensures { (result ≡ rounded_up (2 * draw * amount) units) × (result ≤ amount) }
{
    let whole = 2 * u32::from(draw) * u32::from(amount);
    let by = u32::from(units);
    ((whole + (by - 1)) / by) as u16
}

// The shares of an amount, by the draws that a small window can have. They are computed once for a step, since
// a division for each window would take longer.
fn shares_of(units: u16, amount: u16) -> [u16; SHARES]
    requires { (1 ≤ units) × (units ≤ most_units) × (amount ≤ most_worth) }
    ensures { SharesBy units amount result }
{
    let mut shares = [0u16; SHARES];
    for draw in 0..=units / 2 {
        shares[draw as usize] = share_of(units, draw, amount);
    }
    shares
}

// What a step on a window of row x takes from one of row y. Branch-free: a branch per window would be
// mispredicted.
fn take_of(s: Share, x: Row, y: Row, shares: &[u16; SHARES]) -> u16
    requires { SharesBy s.units s.amount shares.now × (2 * y.groomer ≤ s.units) × (s.units ≤ most_units) }
    ensures { (result ≡ row_takes s.units x s.amount y) × (result ≤ s.amount) }
{
    let part = value_if(
        overlap(HALL_GAP, x.start, x.end, y.start, y.end),
        shares[y.groomer as usize],
    );
    if x.slope == y.slope { s.amount } else { part }
}

// The step, over the windows from the first that may be open on.
pub fn apply_shares(residuals: &mut [i32], p: Size, cols: &[u16; PLACES], s: Share, from: usize)
    requires turn_lt_count { (s.turn < p.count) × (s.amount ≤ most_worth) × Held p cols.now × HalfDraws s.units p cols.now }
    requires residuals { Residuals p.count residuals.old × ClosedTo from residuals.old }
    ensures residuals_after { residuals.new ≡ after_step_by (small_takes (hall_by s.units p cols.now)) residuals.old
        (record { turn = s.turn; amount = s.amount }) }
    ensures residuals_2 { Residuals p.count residuals.new × ClosedTo from residuals.new }
{
    let x = row_at(cols, s.turn);
    let shares = shares_of(s.units, s.amount);
    for t in from..p.count {
        let less = take_of(s, x, row_at(cols, t), &shares);
        lessen(residuals, t, less);
    }
}
