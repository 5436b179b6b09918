// The order of steps: which open turn the check lets a step be about.
ghost use Rattle.std.specs.Prelude.{◌≡◌, ◌<◌};
ghost use Rattle.model.specs.Rules.{no_earlier, right};
ghost use Rattle.instance.specs.Columns.{turns_by, Held};
ghost use Rattle.instance.specs.Placing.{EndsRise};
ghost use Rattle.local_ratio.specs.Bounds.{Residuals, ClosedTo};
ghost use Rattle.local_ratio.specs.Below.{earliest_below};

use instance::{PLACES, Size, row_at, shared_of};
use local_ratio::{is_open, left_of};

// Whether turn t is not an open turn of j's groomer or driver with an earlier end. All tests are always
// made: a branch at each turn would be mispredicted too often.
fn is_no_earlier(residuals: &[i32], p: Size, cols: &[u16; PLACES], j: usize, t: usize) -> bool
    requires { (j < p.count) × (t < p.count) × Residuals p.count residuals.now × Held p cols.now }
    ensures { result ≡ no_earlier (turns_by p cols.now) residuals.now j t }
{
    let live = is_open(residuals, t);
    let x = row_at(cols, j);
    let y = row_at(cols, t);
    let shared = shared_of(x, y);
    let earlier = y.end < x.end;
    !(live & (shared.groomer | shared.driver) & earlier)
}

// Whether no open turn of j's groomer or driver has an earlier end. The turns stand in order of end, so that
// only those before j can have one, and those before a turn are closed.
fn is_earliest(residuals: &[i32], p: Size, cols: &[u16; PLACES], j: usize, from: usize) -> bool
    requires { (j < p.count) × Residuals p.count residuals.now × Held p cols.now × ClosedTo from residuals.now × EndsRise (turns_by p cols.now) }
    ensures { result ≡ earliest_below (turns_by p cols.now) residuals.now j p.count }
{
    let mut all = true;
    for t in from..j {
        all &= is_no_earlier(residuals, p, cols, j, t);
    }
    all
}

// Whether a step is right where it stands.
pub fn is_right(
    residuals: &[i32],
    p: Size,
    cols: &[u16; PLACES],
    j: usize,
    amount: u16,
    from: usize,
) -> bool
    requires { Residuals p.count residuals.now × Held p cols.now × ClosedTo from residuals.now × EndsRise (turns_by p cols.now) }
    ensures { result ≡ right (turns_by p cols.now) residuals.now (record { turn = j; amount = amount }) }
{
    j < p.count
        && is_open(residuals, j)
        && amount == left_of(residuals, j)
        && is_earliest(residuals, p, cols, j, from)
}
