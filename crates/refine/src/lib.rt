// A better board, and a limit close above it, by rounds in which prices move.

#![tactic(auto)]

ghost use Rattle.std.specs.Prelude.{◌≡◌, ◌+◌, ◌≤◌, length};
ghost use Rattle.model.specs.Choice.{choice};
ghost use Rattle.board.specs.Board.{board_length};
ghost use Rattle.shift_look.specs.OrdersAndCounts.{turns_in};
ghost use Rattle.refusal.specs.Failure.{number_of};
ghost use Rattle.refine_spec.specs.Refine.{refinement_of, refine_of};
ghost use Rattle.refine_spec.specs.Answer.{refined_by, refine_refused};
ghost use Rattle.price_rule.specs.Rules.{ShiftPosed};
ghost use Rattle.refine.specs.PlannedBoard.{shift_rounds};

mod planned;

use instance::{MAP_BYTES, PLACES};
use planned::{plan_board, write_choice};
use price_rounds::{Start, make_rounds};
use refine_spec::RefineAnswer;
use refusal::Refusal;
use shift_look::Extent;

// Plans a board and makes it better by rounds, where the lent places suffice.
fn refine_with(
    e: Extent,
    rounds: u32,
    cols: &[u16; PLACES],
    board: &mut [u8],
    prices: &mut [u16],
    room: &mut [u16; PLACES],
) -> RefineAnswer
    requires shift_posed { ShiftPosed e cols.now × (e.slopes + e.size.count ≤ length prices.old) }
    requires count_in_bounds { board_length e.size.count e.size.count ≤ length board.old }
    ensures { refined_by result board.new prices.new ≡ refinement_of (turns_in e cols.now)
        (shift_rounds e cols.now rounds (choice (turns_in e cols.now))) board.old prices.old }
{
    let p = e.size;
    let size = choice_map::map_bytes(p.count as u16);
    let mut space = [0u8; MAP_BYTES];
    let map = &mut space[..size];
    let plan = plan_board(p, cols, &mut *board, &mut *map, &mut *room);
    let start = Start {
        rounds,
        worth: plan.worth,
    };
    let k = e.slopes + p.count;
    let r = make_rounds(e, start, cols, &mut prices[..k], &mut *map, &mut *room);
    write_choice(&mut *board, r.worth, &*map);
    RefineAnswer {
        refusal: 0,
        bytes: plan.bytes,
        worth: r.worth,
        limit: r.limit,
        rounds: r.rounds,
    }
}

fn refused(k: Refusal) -> RefineAnswer
    ensures { result ≡ refine_refused (number_of k) }
{
    RefineAnswer {
        refusal: u8::from(k),
        bytes: 0,
        worth: 0,
        limit: 0,
        rounds: 0,
    }
}

// Makes at most so many rounds for any bytes as a sheet, and writes the best board and the prices of the lowest
// limit into any lent places.
pub fn refine(s: &[u8], rounds: u32, board: &mut [u8], prices: &mut [u16]) -> RefineAnswer
    ensures { refined_by result board.new prices.new
        ≡ refine_of s.now rounds board.old prices.old }
{
    let mut cols = [0u16; PLACES];
    let mut room = [0u16; PLACES];
    let (counts, n) = match instance::load_with(s, &mut cols, &mut room) {
        Ok(read) => read,
        Err(fault) => return refused(fault),
    };
    if board.len() < board::board_bytes(n, n) {
        return refused(Refusal::BufferTooSmall);
    }
    let slopes = counts.slopes as usize;
    if prices.len() < slopes + n as usize {
        return refused(Refusal::BufferTooSmall);
    }
    let e = Extent {
        size: instance::shift_size(n),
        slopes,
    };
    refine_with(e, rounds, &cols, &mut *board, &mut *prices, &mut room)
}
