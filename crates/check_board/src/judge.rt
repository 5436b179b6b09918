// The check: the sheet's causes first, then the board's, one after another.
ghost use Rattle.std.specs.Prelude.{◌≡◌, not, ◌&&◌, ◌*◌, ◌≤◌, ◌<◌, length, eqb, leb, IfOk};
ghost use Rattle.refusal.specs.Cause.{first_of};
ghost use Rattle.refusal.specs.Failure.{number_of, failure};
ghost use Rattle.choice_map.specs.Choice.{choice_in};
ghost use Rattle.board.specs.Board.{board_header, step_size, board_steps, board_tally, board_worth, steps_in, written_steps};
ghost use Rattle.instance.specs.Columns.{turns_by, Held};
ghost use Rattle.selection.specs.Bounds.{HeldWithMap};
ghost use Rattle.model.specs.Ceiling.{ceiling};
ghost use Rattle.check_spec.specs.Check.{choice_causes, rule_causes, sum_causes, part_causes, board_causes, checked, check_of};

use super::replay::steps_fault;
use check_spec::CheckAnswer;
use instance::{MOST_TURNS, PLACES, Size};
use refusal::Refusal;

// The first cause that the choice gives, if any. Here and below, the room is for the rows of the
// chosen turns, and then for all rows by end: nothing is said of what it holds afterwards.
fn choice_fault(
    p: Size,
    cols: &[u16; PLACES],
    map: &[u8],
    room: &mut [u16; PLACES],
) -> Result<(), Refusal>
    requires { HeldWithMap p cols.now map.now }
    ensures { failure result ≡ first_of (choice_causes (turns_by p cols.now) (choice_in p.count map.now)) }
{
    if !selection::is_independent(p, cols, map, room) {
        return Err(Refusal::ChosenConflict);
    }
    if !selection::is_maximal(p, cols, map, room) {
        return Err(Refusal::NotMaximal);
    }
    Ok(())
}

// Whether the sums that a board names are not those of its steps and its choice, or its worth is below its
// tally.
fn sums_differ(tally: u32, worth: u32, amounts: u32, earned: u32) -> bool
    ensures { not result ≡ (eqb tally amounts && (eqb worth earned && leb tally worth)) }
{
    tally != amounts || worth != earned || worth < tally
}

// The first cause that the choice or the steps give; if none, the ceiling of the steps.
fn rules_fault(
    p: Size,
    cols: &[u16; PLACES],
    map: &[u8],
    steps: &[u8],
    m: usize,
    room: &mut [u16; PLACES],
) -> Result<u32, Refusal>
    requires { HeldWithMap p cols.now map.now × (step_size * m ≤ length steps.now) × (m ≤ p.count) }
    ensures refused { failure result ≡ first_of (rule_causes (turns_by p cols.now) (choice_in p.count map.now) (steps_in m steps.now)) }
    ensures counted { IfOk result (λ c. c ≡ ceiling (turns_by p cols.now) (steps_in m steps.now)) }
{
    choice_fault(p, cols, map, room)?;
    let mut space = [0i32; MOST_TURNS];
    steps_fault(&mut space[..p.count], p, cols, steps, m, room)
}

// The cause that the sums of a board give, if any.
fn sums_fault(
    b: &[u8],
    p: Size,
    cols: &[u16; PLACES],
    map: &[u8],
    steps: &[u8],
    m: u16,
) -> Result<(), Refusal>
    requires { (board_header ≤ length b.now) × HeldWithMap p cols.now map.now × (step_size * m ≤ length steps.now) }
    ensures { failure result ≡ first_of (sum_causes (turns_by p cols.now) (choice_in p.count map.now) (steps_in m steps.now)
        (board_tally b.now) (board_worth b.now)) }
{
    let tally = board::tally(b);
    let worth = board::worth(b);
    let amounts = board::sum_amounts(steps, m);
    let earned = selection::chosen_worth(p, cols, map);
    if sums_differ(tally, worth, amounts, earned) {
        return Err(Refusal::WrongSums);
    }
    Ok(())
}

// The first cause that the parts of a board give, its map and its steps; if none, the ceiling of the steps.
fn parts_fault(
    b: &[u8],
    map: &[u8],
    steps: &[u8],
    p: Size,
    cols: &[u16; PLACES],
    room: &mut [u16; PLACES],
) -> Result<u32, Refusal>
    requires { (board_header ≤ length b.now) × HeldWithMap p cols.now map.now
        × (step_size * board_steps b.now ≤ length steps.now) × (board_steps b.now ≤ p.count) }
    ensures refused { failure result ≡ first_of (part_causes (turns_by p cols.now) (choice_in p.count map.now)
        (steps_in (board_steps b.now) steps.now) (board_tally b.now) (board_worth b.now)) }
    ensures counted { IfOk result (λ c. c ≡ ceiling (turns_by p cols.now) (steps_in (board_steps b.now) steps.now)) }
{
    let m = board::step_count(b);
    let ceiling = rules_fault(p, cols, map, steps, m as usize, room)?;
    sums_fault(b, p, cols, map, steps, m)?;
    Ok(ceiling)
}

// The first cause to refuse a board for a problem; if none, the ceiling of its steps.
pub fn board_fault(
    b: &[u8],
    p: Size,
    cols: &[u16; PLACES],
    room: &mut [u16; PLACES],
) -> Result<u32, Refusal>
    requires { Held p cols.now }
    ensures refused { failure result ≡ first_of (board_causes (turns_by p cols.now) b.now) }
    ensures counted { IfOk result (λ c. c ≡ ceiling (turns_by p cols.now) (written_steps b.now)) }
{
    if board_open::open(b) != 0 {
        return Err(Refusal::MalformedBoard);
    }
    if board::turns(b) as usize != p.count {
        return Err(Refusal::MalformedBoard);
    }
    let map = board_open::map(b);
    let steps = board_open::steps(b);
    parts_fault(b, map, steps, p, cols, room)
}

fn refused(k: Refusal) -> CheckAnswer
    ensures { result ≡ checked (number_of k) 0 0 0 }
{
    CheckAnswer {
        refusal: u8::from(k),
        tally: 0,
        worth: 0,
        ceiling: 0,
    }
}

// Checks any bytes as a board against any bytes as a sheet.
pub fn check(s: &[u8], b: &[u8]) -> CheckAnswer
    ensures { result ≡ check_of s.now b.now }
{
    let mut cols = [0u16; PLACES];
    let mut room = [0u16; PLACES];
    let (_, n) = match instance::load_with(s, &mut cols, &mut room) {
        Ok(read) => read,
        Err(fault) => return refused(fault),
    };
    match board_fault(b, instance::shift_size(n), &cols, &mut room) {
        Err(fault) => refused(fault),
        Ok(ceiling) => CheckAnswer {
            refusal: 0,
            tally: board::tally(b),
            worth: board::worth(b),
            ceiling,
        },
    }
}
