// Replaying the steps that stand in a board.

ghost use Rattle.std.specs.Prelude.{◌≡◌, true, false, ◌+◌, ◌*◌, ◌≤◌, length, MatchOption, IfOk};
ghost use Rattle.refusal.specs.Cause.{first_of};
ghost use Rattle.refusal.specs.Failure.{failure};
ghost use Rattle.turn.specs.Turn.{most_worth};
ghost use Rattle.model.specs.Steps.{after_step, after_steps};
ghost use Rattle.model.specs.Rules.{right, all_right};
ghost use Rattle.model.specs.Ceiling.{step_cost, ceiling};
ghost use Rattle.board.specs.Board.{step_size, step_at, steps_in};
ghost use Rattle.instance.specs.Columns.{turns_by, Held};
ghost use Rattle.instance.specs.Placing.{place_at, EndsRise};
ghost use Rattle.local_ratio.specs.Bounds.{Residuals, ClosedTo};
ghost use Rattle.local_ratio.specs.Counting.{costs_from};
ghost use Rattle.check_spec.specs.Check.{step_causes};
ghost use Rattle.check_board.specs.Moves.{moves_in};

use super::orders::is_right;
use instance::{MOST_TURNS, PLACES, Size};
use refusal::Refusal;

// What a right step counts for, and how many turns at the front are closed after it.
#[derive(Clone, Copy)]
pub struct StepReplayed {
    pub cost: u32,
    pub closed: usize,
}

// A written step: the place of its turn, and its amount.
#[derive(Clone, Copy)]
pub struct Move {
    pub place: usize,
    pub amount: u16,
}

// Step i of the written ones, its turn by place.
fn move_at(places: &[u16], steps: &[u8], i: usize) -> Move
    requires { step_size * i + step_size ≤ length steps.now }
    ensures { (result.place ≡ place_at places.now (step_at steps.now i).turn) × (result.amount ≡ (step_at steps.now i).amount) }
{
    let turn = board::step_turn(steps, i);
    let amount = board::step_amount(steps, i);
    let place = instance::place_of(places, turn);
    Move { place, amount }
}

// A step on the turn at place j, if it is right where it stands; else nothing is changed.
fn replay_one(
    residuals: &mut [i32],
    p: Size,
    cols: &[u16; PLACES],
    j: usize,
    amount: u16,
    closed: usize,
) -> Option<StepReplayed>
    requires { Residuals p.count residuals.old × Held p cols.now × ClosedTo closed residuals.old × EndsRise (turns_by p cols.now) }
    ensures { MatchOption result
        ((right (turns_by p cols.now) residuals.old (record { turn = j; amount = amount }) ≡ false) × (residuals.new ≡ residuals.old))
        (λ one. (right (turns_by p cols.now) residuals.old (record { turn = j; amount = amount }) ≡ true)
        × (residuals.new ≡ after_step (turns_by p cols.now) residuals.old (record { turn = j; amount = amount }))
        × Residuals p.count residuals.new × ClosedTo one.closed residuals.new
        × (one.cost ≡ step_cost (turns_by p cols.now) residuals.old (record { turn = j; amount = amount }))
        × (one.cost ≤ 3 * most_worth)) }
{
    let closed = local_ratio::first_open(residuals, closed);
    if !is_right(residuals, p, cols, j, amount, closed) {
        return None;
    }
    let cost = local_ratio::apply_step(residuals, p, cols, j, amount, closed);
    Some(StepReplayed { cost, closed })
}

// What m steps in order count for, if each is right where it stands; the residuals are then those after the
// last. The turns stand in order of end; the places say where.
fn replay(
    residuals: &mut [i32],
    p: Size,
    cols: &[u16; PLACES],
    places: &[u16],
    steps: &[u8],
    m: usize,
) -> Option<u32>
    requires { Residuals p.count residuals.old × Held p cols.now × EndsRise (turns_by p cols.now)
        × (step_size * m ≤ length steps.now) × (m ≤ p.count) }
    ensures { MatchOption result (all_right (turns_by p cols.now) residuals.old (moves_in places.now m steps.now) ≡ false)
        (λ cost. (all_right (turns_by p cols.now) residuals.old (moves_in places.now m steps.now) ≡ true)
        × (residuals.new ≡ after_steps (turns_by p cols.now) residuals.old (moves_in places.now m steps.now))
        × (cost ≡ costs_from (turns_by p cols.now) residuals.old (moves_in places.now m steps.now))
        × (length residuals.new ≡ p.count)) }
{
    let mut sum: u32 = 0;
    let mut closed = 0;
    for i in 0..m {
        let next = move_at(places, steps, i);
        let one = replay_one(residuals, p, cols, next.place, next.amount, closed)?;
        sum += one.cost;
        closed = one.closed;
    }
    Some(sum)
}

// The first cause to refuse m steps; if none, their ceiling, by place.
fn judge_moves(
    residuals: &mut [i32],
    p: Size,
    cols: &[u16; PLACES],
    places: &[u16],
    steps: &[u8],
    m: usize,
) -> Result<u32, Refusal>
    requires { (length residuals.old ≡ p.count) × Held p cols.now × EndsRise (turns_by p cols.now) × (step_size * m ≤ length steps.now)
        × (m ≤ p.count) }
    ensures refused { failure result ≡ first_of (step_causes (turns_by p cols.now) (moves_in places.now m steps.now)) }
    ensures counted { IfOk result (λ c. c ≡ ceiling (turns_by p cols.now) (moves_in places.now m steps.now)) }
{
    local_ratio::set_initial(residuals, p, cols);
    let ceiling = replay(residuals, p, cols, places, steps, m).ok_or(Refusal::WrongStep)?;
    if !local_ratio::none_open(residuals) {
        return Err(Refusal::TurnLeftOpen);
    }
    Ok(ceiling)
}

// The first cause to refuse m steps; if none, their ceiling. The residuals and the room, in which the turns are
// put in order of end, are for this function to use.
pub fn steps_fault(
    residuals: &mut [i32],
    p: Size,
    cols: &[u16; PLACES],
    steps: &[u8],
    m: usize,
    room: &mut [u16; PLACES],
) -> Result<u32, Refusal>
    requires { (length residuals.old ≡ p.count) × Held p cols.now × (step_size * m ≤ length steps.now)
        × (m ≤ p.count) }
    ensures refused { failure result ≡ first_of (step_causes (turns_by p cols.now) (steps_in m steps.now)) }
    ensures counted { IfOk result (λ c. c ≡ ceiling (turns_by p cols.now) (steps_in m steps.now)) }
{
    let n = p.count;
    let mut numbers = [0u16; MOST_TURNS];
    let order = &mut numbers[..n];
    instance::put_by_end(p, cols, order, room);
    let mut spots = [0u16; MOST_TURNS];
    let places = &mut spots[..n];
    instance::put_places(order, places);
    judge_moves(residuals, p, room, places, steps, m)
}
