// The short reader: a shift's, with a smaller limit on turns.

#![tactic(auto)]

ghost use Rattle.sheet.specs.Kind.{kind_in_numbers};
ghost use Rattle.std.specs.Prelude.{◌≡◌};
ghost use Rattle.sheet.specs.Short.{short_sheet, read_short_of};
ghost use Rattle.refusal.specs.Outcome.{beside};

use refusal::Refusal;
use sheet::{Kind, Most, ReadAnswer};
use turn::Refusals;

// The most turns that the short reader takes.
const SHORT_TURNS: u16 = 96;

// A shift's sheet with that limit, and a refusal of its own of more.
fn short_sheet() -> Kind
    ensures { kind_in_numbers result ≡ short_sheet }
{
    let shift = sheet_read::shift_sheet();
    Kind {
        most: Most {
            turns: SHORT_TURNS,
            ..shift.most
        },
        refusals: Refusals {
            turns: Some(Refusal::TooManyForShort),
            ..shift.refusals
        },
        ..shift
    }
}

// Reads any bytes as a sheet for the short reader into any lent table.
pub fn read_short(s: &[u8], table: &mut [u16]) -> ReadAnswer
    ensures { beside result table.new ≡ read_short_of s.now table.old }
{
    sheet_read::read_as(short_sheet(), s, &mut *table)
}
