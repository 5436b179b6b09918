// The charging hall: a plan of its wide windows, a plan of its small ones, and of the two the one of greater
// worth.

#![tactic(auto)]

ghost use Rattle.sheet.specs.Kind.{kind_in_numbers};
ghost use Rattle.std.specs.Prelude.{◌≡◌, false, length, replicate};
ghost use Rattle.choice_map.specs.Choice.{choice_in, map_bytes, map_of, Clean};
ghost use Rattle.charge_spec.specs.Plan.{hall_choice, hall_worth, worth_in};
ghost use Rattle.shares.specs.Taking.{hall_by};
ghost use Rattle.hall_steps.specs.OneKind.{kind_hall};
ghost use Rattle.hall_steps.specs.Bounds.{HallHeld};
ghost use Rattle.charge.specs.OneKind.{kind_choice};
ghost use Rattle.refusal.specs.Outcome.{beside};
ghost use Rattle.refusal.specs.Failure.{number_of};
ghost use Rattle.charge_spec.specs.Charge.{charging_sheet, charge_refused, charge_in, charge_of};

mod choosing;
mod supply;

use charge_spec::ChargeAnswer;
pub use choosing::choose_listed;
use choosing::choose_windows;
use hall_steps::OneKind;
use instance::{MAP_BYTES, MOST_TURNS, PLACES, Size};
use refusal::Refusal;
pub use shares::HALL_GAP;
use sheet::{Kind, Maps, Most};
use supply::MOST_VEHICLES;
use turn::Refusals;

// The most units that a hall has.
const MOST_UNITS: u16 = 48;

// Steps for as many windows as a sheet can have.
const STEPS_BYTES: usize = board::STEP_SIZE * MOST_TURNS;

// A charging sheet: its first count is the hall's units, its second the vehicles, and a window's second field
// is its draw. No map has a driver.
pub fn charging_sheet() -> Kind
    ensures { kind_in_numbers result ≡ charging_sheet }
{
    Kind {
        mark: wire::GRE,
        most: Most {
            groomers: MOST_UNITS,
            slopes: MOST_VEHICLES,
            turns: sheet::MOST_TURNS,
        },
        maps: Maps {
            first: sheet::FIRST_MAP,
            full: sheet::FIRST_MAP,
        },
        refusals: Refusals {
            counts: Some(Refusal::BadCounts),
            turns: Some(Refusal::TooManyTurns),
            slope: Some(Refusal::BadSlope),
            groomer: Some(Refusal::BadDraw),
        },
    }
}

// The plan of one kind into a map that has none chosen; returns its worth.
fn plan_kind(a: OneKind, cols: &[u16; PLACES], map: &mut [u8]) -> u32
    requires { HallHeld a.units a.size cols.now × Clean a.size.count map.old
        × (choice_in a.size.count map.old ≡ replicate a.size.count false) }
    ensures value { result ≡ worth_in (kind_hall a cols.now) (kind_choice a cols.now) }
    ensures map_after { map.new ≡ map_of (kind_choice a cols.now) }
{
    let mut steps = [0u8; STEPS_BYTES];
    let m = hall_steps::plan_one_kind(a, cols, &mut steps);
    choose_windows(a, cols, &steps, m, &mut *map);
    selection::chosen_worth(a.size, cols, &*map)
}

// Plans both kinds, each into a map of its own, and copies one of them out: the wide windows' only if it earns
// more than the other. Returns what the copied one earns.
pub fn write_plan(units: u16, p: Size, cols: &[u16; PLACES], map: &mut [u8]) -> u32
    requires { HallHeld units p cols.now × (length map.old ≡ map_bytes p.count) }
    ensures value { result ≡ hall_worth (hall_by units p cols.now) }
    ensures map_after { map.new ≡ map_of (hall_choice (hall_by units p cols.now)) }
{
    let size = map.len();
    let mut first = [0u8; MAP_BYTES];
    let mut second = [0u8; MAP_BYTES];
    let wide_map = &mut first[..size];
    let small_map = &mut second[..size];
    let wide_kind = OneKind {
        units,
        size: p,
        wide: true,
    };
    let small_kind = OneKind {
        wide: false,
        ..wide_kind
    };
    let wide = plan_kind(wide_kind, cols, &mut *wide_map);
    let small = plan_kind(small_kind, cols, &mut *small_map);
    if small < wide {
        map.copy_from_slice(&*wide_map);
        wide
    } else {
        map.copy_from_slice(&*small_map);
        small
    }
}

fn refused(k: Refusal) -> ChargeAnswer
    ensures { result ≡ charge_refused (number_of k) }
{
    ChargeAnswer {
        refusal: u8::from(k),
        worth: 0,
    }
}

// The worth of a hall's plan, and its map into any lent bytes.
fn answer(units: u16, p: Size, cols: &[u16; PLACES], map: &mut [u8]) -> ChargeAnswer
    requires { HallHeld units p cols.now }
    ensures { beside result map.new ≡ charge_in (hall_by units p cols.now) map.old }
{
    let size = choice_map::map_bytes(p.count as u16);
    if map.len() < size {
        return refused(Refusal::BufferTooSmall);
    }
    let worth = write_plan(units, p, cols, &mut map[..size]);
    ChargeAnswer { refusal: 0, worth }
}

// Plans any bytes as a charging sheet: the worth of the hall's plan, and its choice map into any lent bytes.
pub fn charge(s: &[u8], map: &mut [u8]) -> ChargeAnswer
    ensures { beside result map.new ≡ charge_of s.now map.old }
{
    let mut cols = [0u16; PLACES];
    let mut room = [0u16; PLACES];
    let (counts, n) = match instance::load_as(charging_sheet(), s, &mut cols, &mut room) {
        Ok(read) => read,
        Err(fault) => return refused(fault),
    };
    let p = Size {
        count: n as usize,
        gap: HALL_GAP,
    };
    answer(counts.groomers, p, &cols, &mut *map)
}
