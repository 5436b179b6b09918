// How a round moves the price of each minute, by what the relaxed set draws then.

#![tactic(auto)]

ghost use Rattle.std.specs.Prelude.{◌≡◌, ◌+◌, ◌-◌, ◌≤◌, ◌<◌, min, length, replicate};
ghost use Rattle.limit_spec.specs.Prices.{most_price};
ghost use Rattle.turn.specs.Turn.{shift_minutes, most_worth};
ghost use Rattle.choice_map.specs.Choice.{choice_in, Clean};
ghost use Rattle.charge_spec.specs.Hall.{most_units};
ghost use Rattle.charge.specs.Supply.{Drawn};
ghost use Rattle.hall_by_prices_spec.specs.Hall.{highest_minute_price, moved_minutes};
ghost use Rattle.hall_look.specs.Look.{hall_for, HallPosed, WindowRow};
ghost use Rattle.hall_moves.specs.Moves.{most_drawn, no_move, most_move, move_places, move_by, moved_by, MovesTo, EachTo, FewMoves, PricesFit, FewDrawn, RoomForMore, DrawnBy};

use hall_look::{HallSize, MINUTES};
use instance::{PLACES, Row, row_at};

const HIGHEST_MINUTE_PRICE: u32 = 65535;

// A move is computed once a round for each draw up to four times the units of any hall.
const MOST_LISTED: usize = 192;

const MOVES: usize = MOST_LISTED + 1;

// A move is held as a number, so that prices move alike whether up or down: this one is none, what is above it is up,
// what is below it down. No price falls by more.
const NO_MOVE: u32 = 2880000;

// The move of the price of a minute at which so much is drawn.
fn move_by(units: u16, change: u32, drawn: u16) -> u32
    requires { (1 ≤ units) × (units ≤ most_units) × (drawn ≤ most_drawn) × (change ≤ most_worth) }
    ensures { (result ≡ move_by change units drawn) × (result ≤ most_move) }
{
    let all = u32::from(units);
    if drawn > units {
        NO_MOVE + (change * (u32::from(drawn) - all) + (all - 1)) / all
    } else {
        NO_MOVE - change * (all - u32::from(drawn)) / all
    }
}

// Puts that move for each draw of the list.
fn put_moves(units: u16, change: u32, moves: &mut [u32; MOVES])
    requires { (1 ≤ units) × (units ≤ most_units) × (change ≤ most_worth) }
    ensures { MovesTo units change moves.new move_places }
{
    for (d, by) in moves.iter_mut().enumerate() {
        *by = move_by(units, change, d as u16);
    }
}

// The move for a draw: from the list if it is there, else worked out.
fn listed_move(units: u16, change: u32, moves: &[u32; MOVES], drawn: u16) -> u32
    requires { (1 ≤ units) × (units ≤ most_units) × (drawn ≤ most_drawn) × (change ≤ most_worth) × MovesTo units change moves.now move_places }
    ensures { (result ≡ move_by change units drawn) × (result ≤ most_move) }
{
    let d = drawn as usize;
    if d <= MOST_LISTED {
        moves[d]
    } else {
        move_by(units, change, drawn)
    }
}

// A price after a move, neither below 0 nor above the highest.
fn moved_minute(by: u32, price: u32) -> u16
    requires { (by ≤ most_move) × (price ≤ most_price) }
    ensures { result ≡ min highest_minute_price (price + by - no_move) }
{
    (price + by)
        .saturating_sub(NO_MOVE)
        .min(HIGHEST_MINUTE_PRICE) as u16
}

// The move of each minute, where it is known what is drawn then.
fn put_minute_moves(
    units: u16,
    change: u32,
    moves: &[u32; MOVES],
    drawn: &[u16; MINUTES],
    by: &mut [u32; MINUTES],
)
    requires le_units { (1 ≤ units) × (units ≤ most_units) × (change ≤ most_worth) × FewDrawn drawn.now }
    requires moves_to { MovesTo units change moves.now move_places }
    ensures { EachTo units change drawn.now by.new shift_minutes }
{
    for (m, &much) in drawn.iter().enumerate() {
        by[m] = listed_move(units, change, moves, much);
    }
}

// Moves all prices. The moves are looked up before, so that this loop vectorises.
fn move_each(by: &[u32; MINUTES], prices: &mut [u16])
    requires { FewMoves by.now × (length prices.old ≡ shift_minutes) }
    ensures { (prices.new ≡ moved_by by.now prices.old) × PricesFit prices.old }
{
    for m in 0..MINUTES {
        prices[m] = moved_minute(by[m], u32::from(prices[m]));
    }
}

// A window draws at its minutes. draw_row of charge does the same in bytes: one function of both would need a trait
// of adding for these two lines.
fn draw_window(drawn: &mut [u16; MINUTES], r: Row)
    requires { WindowRow r × RoomForMore drawn.old }
    ensures { Drawn r.start r.groomer r.end drawn.old drawn.new }
{
    for m in usize::from(r.start)..usize::from(r.end) {
        drawn[m] += r.groomer;
    }
}

// What the windows of a set draw at each minute, where nothing is drawn before.
fn put_drawn(h: HallSize, cols: &[u16; PLACES], relaxed: &[u8], drawn: &mut [u16; MINUTES])
    requires { HallPosed h cols.now × Clean h.size.count relaxed.now × (drawn.old ≡ replicate shift_minutes 0) }
    ensures { DrawnBy (hall_for h cols.now) (choice_in h.size.count relaxed.now) drawn.new }
{
    // A `while`: next_chosen passes over windows that are not chosen eight at a time, a `for` would test each.
    let mut t = choice_map::next_chosen(relaxed, 0);
    while t < h.size.count {
        draw_window(drawn, row_at(cols, t));
        t = choice_map::next_chosen(relaxed, t + 1);
    }
}

// Moves the prices of all minutes by what the relaxed set draws then.
pub fn move_minutes(
    h: HallSize,
    cols: &[u16; PLACES],
    relaxed: &[u8],
    change: u32,
    prices: &mut [u16],
)
    requires { HallPosed h cols.now × Clean h.size.count relaxed.now × (change ≤ most_worth) × (length prices.old ≡ shift_minutes) }
    ensures { prices.new ≡ moved_minutes (hall_for h cols.now) (choice_in h.size.count relaxed.now) change
        prices.old }
{
    let mut drawn = [0u16; MINUTES];
    put_drawn(h, cols, relaxed, &mut drawn);
    let mut moves = [0u32; MOVES];
    put_moves(h.units, change, &mut moves);
    let mut by = [0u32; MINUTES];
    put_minute_moves(h.units, change, &moves, &drawn, &mut by);
    move_each(&by, prices);
}
