// Whether a shift has one turn a slope and no drivers.
ghost use Rattle.std.specs.Prelude.{◌≡◌, true, ◌<◌, set};
ghost use Rattle.instance.specs.Columns.{slope_places, turns_by, Held};
ghost use Rattle.instance.specs.Flags.{clear_at, Flagged};
ghost use Rattle.best_spec.specs.Single.{single_turns};

use instance::{PLACES, SLOPES, Size, is_clear, row_at, set_flag};

// Sets a slope's flag; returns whether it was clear.
fn is_first(flags: &mut [u8; SLOPES], slope: u16) -> bool
    requires { slope < slope_places }
    ensures { (result ≡ clear_at flags.old slope) × (flags.new ≡ set flags.old slope 1) }
{
    let clear = is_clear(flags, slope);
    set_flag(flags, slope);
    clear
}

// Whether no turn is on the slope of one before it and none names a driver. The lent flags are clear. There
// is no early exit: a jump at each turn would cost more than the few turns that it saves.
fn all_single(p: Size, cols: &[u16; PLACES], flags: &mut [u8; SLOPES]) -> bool
    requires { Held p cols.now × Flagged (turns_by p cols.now) (λ u. true) 0 flags.old }
    ensures { result ≡ single_turns (turns_by p cols.now) }
{
    let mut all = true;
    for x in 0..p.count {
        let row = row_at(cols, x);
        all &= is_first(flags, row.slope) & (row.driver == 0);
    }
    all
}

// Whether no slope has two turns and no turn names a driver.
pub fn is_single(p: Size, cols: &[u16; PLACES]) -> bool
    requires { Held p cols.now }
    ensures { result ≡ single_turns (turns_by p cols.now) }
{
    let mut flags = [0u8; SLOPES];
    all_single(p, cols, &mut flags)
}
