// The hall's limit at given prices.
ghost use Rattle.std.specs.Prelude.{◌≡◌};
ghost use Rattle.refusal.specs.Failure.{number_of};
ghost use Rattle.limit_spec.specs.Limit.{limit_refused};
ghost use Rattle.hall_by_prices_spec.specs.Limit.{charge_limit_of};

use hall_look::{HallSize, MINUTES};
use instance::{PLACES, Size};
use limit_spec::LimitAnswer;
use refusal::Refusal;

fn refused(k: Refusal) -> LimitAnswer
    ensures { result ≡ limit_refused (number_of k) }
{
    LimitAnswer {
        refusal: u8::from(k),
        limit: 0,
    }
}

// The limit of any bytes as a charging sheet and any numbers as a price list.
pub fn charge_limit(s: &[u8], prices: &[u16]) -> LimitAnswer
    ensures { result ≡ charge_limit_of s.now prices.now }
{
    let mut cols = [0u16; PLACES];
    let mut room = [0u16; PLACES];
    let (counts, n) = match instance::load_as(charge::charging_sheet(), s, &mut cols, &mut room) {
        Ok(read) => read,
        Err(fault) => return refused(fault),
    };
    if prices.len() != MINUTES {
        return refused(Refusal::BadPrices);
    }
    let h = HallSize {
        units: counts.groomers,
        vehicles: counts.slopes,
        size: Size {
            count: n as usize,
            gap: charge::HALL_GAP,
        },
    };
    LimitAnswer {
        refusal: 0,
        limit: hall_look::limit_at(h, &cols, prices),
    }
}
