// The archive for C: each function has the name, the contract and the answer of the one in `slopeboard` after it.

#![tactic(auto)]

ghost use Rattle.std.specs.Prelude.{◌≡◌, take, drop};
ghost use Rattle.turn.specs.Turn.{counts_of};
ghost use Rattle.sheet.specs.Read.{read_of};
ghost use Rattle.write_spec.specs.Write.{write_of};
ghost use Rattle.board_open.specs.Open.{open_of, steps_part};
ghost use Rattle.board_open.specs.Chosen.{count_of, turn_chosen};
ghost use Rattle.check_spec.specs.Check.{check_of};
ghost use Rattle.plan_spec.specs.Plan.{plan_of};
ghost use Rattle.list_spec.specs.List.{list_of};
ghost use Rattle.assign_spec.specs.Assign.{assign_of};
ghost use Rattle.sheet.specs.Short.{read_short_of};
ghost use Rattle.draw_spec.specs.DrawnSheet.{draw_of};
ghost use Rattle.best_spec.specs.Best.{best_of};
ghost use Rattle.limit_spec.specs.Limit.{limit_of};
ghost use Rattle.refine_spec.specs.Refine.{refine_of};
ghost use Rattle.hall_by_prices_spec.specs.Limit.{charge_limit_of};
ghost use Rattle.hall_by_prices_spec.specs.Refine.{charge_refine_of};
ghost use Rattle.hall_by_prices_spec.specs.Answer.{charge_refined_by};
ghost use Rattle.refine_spec.specs.Answer.{refined_by};
ghost use Rattle.improve_spec.specs.Improve.{improve_of};
ghost use Rattle.archive_spec.specs.Archive.{keep_of, restore_of};
ghost use Rattle.play_spec.specs.Play.{play_of};
ghost use Rattle.charge_spec.specs.Charge.{charge_of};
ghost use Rattle.board_open.specs.Part.{steps_part_at};
ghost use Rattle.refusal.specs.Outcome.{beside};

use assign_spec::AssignAnswer;
use best_spec::BestAnswer;
use board_open::{CountAnswer, Part};
use charge_spec::ChargeAnswer;
use check_spec::CheckAnswer;
use hall_by_prices_spec::ChargeRefineAnswer;
use improve_spec::ImproveAnswer;
use limit_spec::LimitAnswer;
use play_spec::{PlayAnswer, Standing};
use refine_spec::RefineAnswer;
use refusal::WriteAnswer;
use sheet::ReadAnswer;

#[unsafe(no_mangle)]
pub extern "C" fn slopeboard_read(sheet: &[u8], table: &mut [u16]) -> ReadAnswer
    ensures { beside result table.new ≡ read_of sheet.now table.old }
{
    slopeboard::slopeboard_read(sheet, &mut *table)
}

#[unsafe(no_mangle)]
pub extern "C" fn slopeboard_read_short(sheet: &[u8], table: &mut [u16]) -> ReadAnswer
    ensures { beside result table.new ≡ read_short_of sheet.now table.old }
{
    slopeboard::slopeboard_read_short(sheet, &mut *table)
}

#[unsafe(no_mangle)]
pub extern "C" fn slopeboard_write(
    groomers: u32,
    slopes: u32,
    table: &[u16],
    bytes: &mut [u8],
) -> WriteAnswer
    ensures { beside result bytes.new ≡ write_of (counts_of groomers slopes) table.now bytes.old }
{
    slopeboard::slopeboard_write(groomers, slopes, table, &mut *bytes)
}

#[unsafe(no_mangle)]
pub extern "C" fn slopeboard_open(board: &[u8]) -> u8
    ensures { result ≡ open_of board.now }
{
    slopeboard::slopeboard_open(board)
}

// The part of the board that `board_open::steps` returns, by place and length.
#[unsafe(no_mangle)]
pub extern "C" fn slopeboard_steps(board: &[u8]) -> Part
    ensures value { result ≡ steps_part_at board.now }
    ensures board_value { take result.length (drop result.start board.now) ≡ steps_part board.now }
{
    slopeboard::slopeboard_steps(board)
}

#[unsafe(no_mangle)]
pub extern "C" fn slopeboard_count(board: &[u8]) -> CountAnswer
    ensures { result ≡ count_of board.now }
{
    slopeboard::slopeboard_count(board)
}

#[unsafe(no_mangle)]
pub extern "C" fn slopeboard_is_chosen(board: &[u8], turn: usize) -> bool
    ensures { result ≡ turn_chosen board.now turn }
{
    slopeboard::slopeboard_is_chosen(board, turn)
}

#[unsafe(no_mangle)]
pub extern "C" fn slopeboard_check(sheet: &[u8], board: &[u8]) -> CheckAnswer
    ensures { result ≡ check_of sheet.now board.now }
{
    slopeboard::slopeboard_check(sheet, board)
}

#[unsafe(no_mangle)]
pub extern "C" fn slopeboard_draw(
    seed: u64,
    groomers: u32,
    slopes: u32,
    turns: u32,
    bytes: &mut [u8],
) -> WriteAnswer
    ensures { beside result bytes.new ≡ draw_of seed (counts_of groomers slopes) turns bytes.old }
{
    slopeboard::slopeboard_draw(seed, groomers, slopes, turns, &mut *bytes)
}

#[unsafe(no_mangle)]
pub extern "C" fn slopeboard_plan(sheet: &[u8], board: &mut [u8]) -> WriteAnswer
    ensures { beside result board.new ≡ plan_of sheet.now board.old }
{
    slopeboard::slopeboard_plan(sheet, &mut *board)
}

#[unsafe(no_mangle)]
pub extern "C" fn slopeboard_list(sheet: &[u8], text: &mut [u8]) -> WriteAnswer
    ensures { beside result text.new ≡ list_of sheet.now text.old }
{
    slopeboard::slopeboard_list(sheet, &mut *text)
}

#[unsafe(no_mangle)]
pub extern "C" fn slopeboard_assign(sheet: &[u8], places: &mut [u16]) -> AssignAnswer
    ensures { beside result places.new ≡ assign_of sheet.now places.old }
{
    slopeboard::slopeboard_assign(sheet, &mut *places)
}

#[unsafe(no_mangle)]
pub extern "C" fn slopeboard_best(sheet: &[u8], map: &mut [u8]) -> BestAnswer
    ensures { beside result map.new ≡ best_of sheet.now map.old }
{
    slopeboard::slopeboard_best(sheet, &mut *map)
}

#[unsafe(no_mangle)]
pub extern "C" fn slopeboard_improve(sheet: &[u8], visits: u64, map: &mut [u8]) -> ImproveAnswer
    ensures { beside result map.new ≡ improve_of sheet.now visits map.old }
{
    slopeboard::slopeboard_improve(sheet, visits, &mut *map)
}

#[unsafe(no_mangle)]
pub extern "C" fn slopeboard_keep(sheet: &[u8], kept: &mut [u8]) -> WriteAnswer
    ensures { beside result kept.new ≡ keep_of sheet.now kept.old }
{
    slopeboard::slopeboard_keep(sheet, &mut *kept)
}

#[unsafe(no_mangle)]
pub extern "C" fn slopeboard_restore(kept: &[u8], sheet: &mut [u8]) -> WriteAnswer
    ensures { beside result sheet.new ≡ restore_of kept.now sheet.old }
{
    slopeboard::slopeboard_restore(kept, &mut *sheet)
}

#[unsafe(no_mangle)]
pub extern "C" fn slopeboard_play<'a>(
    sheet: &'a [u8],
    board: &'a [u8],
    delays: &'a [u16],
    list: &mut [Standing],
) -> PlayAnswer
    ensures { beside result list.new ≡ play_of sheet.now board.now delays.now list.old }
{
    slopeboard::slopeboard_play(sheet, board, delays, list)
}

#[unsafe(no_mangle)]
pub extern "C" fn slopeboard_charge(sheet: &[u8], map: &mut [u8]) -> ChargeAnswer
    ensures { beside result map.new ≡ charge_of sheet.now map.old }
{
    slopeboard::slopeboard_charge(sheet, &mut *map)
}

#[unsafe(no_mangle)]
pub extern "C" fn slopeboard_limit(sheet: &[u8], prices: &[u16]) -> LimitAnswer
    ensures { result ≡ limit_of sheet.now prices.now }
{
    slopeboard::slopeboard_limit(sheet, prices)
}

#[unsafe(no_mangle)]
pub extern "C" fn slopeboard_refine(
    sheet: &[u8],
    rounds: u32,
    board: &mut [u8],
    prices: &mut [u16],
) -> RefineAnswer
    ensures { refined_by result board.new prices.new ≡ refine_of sheet.now rounds board.old prices.old }
{
    slopeboard::slopeboard_refine(sheet, rounds, &mut *board, &mut *prices)
}

#[unsafe(no_mangle)]
pub extern "C" fn slopeboard_charge_limit(sheet: &[u8], prices: &[u16]) -> LimitAnswer
    ensures { result ≡ charge_limit_of sheet.now prices.now }
{
    slopeboard::slopeboard_charge_limit(sheet, prices)
}

#[unsafe(no_mangle)]
pub extern "C" fn slopeboard_charge_refine(
    sheet: &[u8],
    rounds: u32,
    map: &mut [u8],
    prices: &mut [u16],
) -> ChargeRefineAnswer
    ensures { charge_refined_by result map.new prices.new
        ≡ charge_refine_of sheet.now rounds map.old prices.old }
{
    slopeboard::slopeboard_charge_refine(sheet, rounds, &mut *map, &mut *prices)
}
