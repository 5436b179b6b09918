// A shift's kind of sheet, as a value.
ghost use Rattle.std.specs.Prelude.{◌≡◌};
ghost use Rattle.sheet.specs.Kind.{shift_sheet, kind_in_numbers};

use refusal::Refusal;
use sheet::{FIRST_MAP, FULL_MAP, Kind, MOST_GROOMERS, MOST_SLOPES, MOST_TURNS, Maps, Most};
use turn::Refusals;

// A shift's sheet.
pub fn shift_sheet() -> Kind
    ensures { kind_in_numbers result ≡ shift_sheet }
{
    Kind {
        mark: wire::GRM,
        most: Most {
            groomers: MOST_GROOMERS,
            slopes: MOST_SLOPES,
            turns: MOST_TURNS,
        },
        maps: Maps {
            first: FIRST_MAP,
            full: FULL_MAP,
        },
        refusals: Refusals {
            counts: Some(Refusal::BadCounts),
            turns: Some(Refusal::TooManyTurns),
            slope: Some(Refusal::BadSlope),
            groomer: Some(Refusal::BadGroomer),
        },
    }
}
