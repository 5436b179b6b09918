// A shift in which turns are late, gone through by minutes. The caller lends a list; it holds a standing for
// each groomer, which every minute moves on.

#![tactic(auto)]

mod days;
mod moving;
mod preparing;

ghost use Rattle.std.specs.Prelude.{◌≡◌};
ghost use Rattle.refusal.specs.Outcome.{beside};
ghost use Rattle.play_spec.specs.Play.{play_of};

use days::{DAY_TABLE_PLACES, MINUTES};
use moving::minute;
use play_spec::{PlayAnswer, Standing};
use preparing::prepare;

// Plays a board for a sheet through, with a delay for each turn; the standings of the sheet's groomers go
// into the lent list. That the minutes of the table give the standings of the days is the law `minutes_say`
// (play_spec).
pub fn play<'a>(
    sheet: &'a [u8],
    board: &'a [u8],
    delays: &'a [u16],
    list: &mut [Standing],
) -> PlayAnswer
    ensures { beside result list.new ≡ play_of sheet.now board.now delays.now list.old }
{
    let mut table = [MINUTES; DAY_TABLE_PLACES];
    let p = prepare(sheet, board, delays, list.len(), &mut table);
    for m in 0..p.minutes {
        minute(list, &table, p.moved, m);
    }
    PlayAnswer {
        refusal: p.refusal,
        groomers: p.groomers,
    }
}
