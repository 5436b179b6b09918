// The steps of one kind. The wide windows' are those of a shift with one groomer; the small windows' take by shares.
ghost use Rattle.std.specs.Prelude.{◌≡◌, ◌*◌, ◌≤◌, length};
ghost use Rattle.wire.specs.Number.{puts};
ghost use Rattle.board.specs.Board.{step_size, step_bytes};
ghost use Rattle.hall_steps.specs.OneKind.{taking_rule, steps_by};
ghost use Rattle.hall_steps.specs.Bounds.{HallHeld};

use super::one_kind::{OneKind, put_kind};
use instance::PLACES;
use steps::{Rule, plan_by};

// The rule by which a step takes from windows of the kind.
fn rule_of(a: OneKind) -> Rule
    ensures { result ≡ taking_rule a }
{
    if a.wide {
        Rule::Conflicts
    } else {
        Rule::Shares(a.units)
    }
}

// Writes the steps of the kind that is meant; returns how many.
pub fn plan_one_kind(a: OneKind, cols: &[u16; PLACES], out: &mut [u8]) -> usize
    requires { (step_size * a.size.count ≤ length out.old) × HallHeld a.units a.size cols.now }
    ensures value { result ≡ length (steps_by a cols.now) }
    ensures out_after { out.new ≡ puts out.old 0 (step_bytes (steps_by a cols.now)) }
{
    let mut own = [0u16; PLACES];
    let mut room = [0u16; PLACES];
    put_kind(a, cols, &mut own);
    let made = plan_by(rule_of(a), a.size, &own, out, &mut room);
    made.count
}
