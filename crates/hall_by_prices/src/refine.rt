// A better set for a hall, and a limit close above it, by rounds in which the prices of minutes move.
ghost use Rattle.std.specs.Prelude.{◌≡◌, ◌≤◌, length};
ghost use Rattle.refusal.specs.Failure.{number_of};
ghost use Rattle.turn.specs.Turn.{shift_minutes};
ghost use Rattle.choice_map.specs.Choice.{map_bytes};
ghost use Rattle.price_rounds.specs.Rounds.{Reaches};
ghost use Rattle.hall_by_prices_spec.specs.Hall.{hall_refined};
ghost use Rattle.hall_by_prices_spec.specs.Refine.{charge_refinement, charge_refine_of};
ghost use Rattle.hall_by_prices_spec.specs.Answer.{charge_refined_by, charge_refine_refused};
ghost use Rattle.hall_look.specs.Look.{hall_for, HallPosed};

use hall_by_prices_spec::ChargeRefineAnswer;
use hall_look::{HallSize, MINUTES};
use instance::{PLACES, Size};
use price_rounds::{Reached, Start, make_rounds};
use refusal::Refusal;

// Plans the hall into a map, and makes the rounds from that choice. The room is lent because the loop asks
// for one; for a hall nothing is put there.
fn plan_rounds(
    h: HallSize,
    rounds: u32,
    cols: &[u16; PLACES],
    map: &mut [u8],
    lowest: &mut [u16],
    room: &mut [u16; PLACES],
) -> Reached
    requires hall_posed { HallPosed h cols.now × (length map.old ≡ map_bytes h.size.count) × (length lowest.old ≡ shift_minutes) }
    ensures { Reaches h.size.count (hall_refined (hall_for h cols.now) h.vehicles rounds) result lowest.new map.new }
{
    let start = Start {
        rounds,
        worth: charge::write_plan(h.units, h.size, cols, &mut *map),
    };
    make_rounds(h, start, cols, &mut *lowest, &mut *map, &mut *room)
}

// The rounds into lent places that suffice.
fn refine_hall(
    h: HallSize,
    rounds: u32,
    cols: &[u16; PLACES],
    map: &mut [u8],
    prices: &mut [u16],
    room: &mut [u16; PLACES],
) -> ChargeRefineAnswer
    requires hall_posed { HallPosed h cols.now × (map_bytes h.size.count ≤ length map.old) × (shift_minutes ≤ length prices.old) }
    ensures { charge_refined_by result map.new prices.new
        ≡ charge_refinement (hall_refined (hall_for h cols.now) h.vehicles rounds) map.old prices.old }
{
    let size = choice_map::map_bytes(h.size.count as u16);
    let lowest = &mut prices[..MINUTES];
    let r = plan_rounds(h, rounds, cols, &mut map[..size], &mut *lowest, &mut *room);
    ChargeRefineAnswer {
        refusal: 0,
        worth: r.worth,
        limit: r.limit,
        rounds: r.rounds,
    }
}

fn refused(k: Refusal) -> ChargeRefineAnswer
    ensures { result ≡ charge_refine_refused (number_of k) }
{
    ChargeRefineAnswer {
        refusal: u8::from(k),
        worth: 0,
        limit: 0,
        rounds: 0,
    }
}

// Makes at most so many rounds for any bytes as a charging sheet, and writes the best set and the prices of the
// lowest limit into any lent places.
pub fn charge_refine(
    s: &[u8],
    rounds: u32,
    map: &mut [u8],
    prices: &mut [u16],
) -> ChargeRefineAnswer
    ensures { charge_refined_by result map.new prices.new
        ≡ charge_refine_of s.now rounds map.old prices.old }
{
    let mut cols = [0u16; PLACES];
    let mut room = [0u16; PLACES];
    let (counts, n) = match instance::load_as(charge::charging_sheet(), s, &mut cols, &mut room) {
        Ok(read) => read,
        Err(fault) => return refused(fault),
    };
    if map.len() < choice_map::map_bytes(n) {
        return refused(Refusal::BufferTooSmall);
    }
    if prices.len() < MINUTES {
        return refused(Refusal::BufferTooSmall);
    }
    let h = HallSize {
        units: counts.groomers,
        vehicles: counts.slopes,
        size: Size {
            count: n as usize,
            gap: charge::HALL_GAP,
        },
    };
    refine_hall(h, rounds, &cols, &mut *map, &mut *prices, &mut room)
}
