// Opening a board: any bytes are a board or are refused.
ghost use Rattle.std.specs.Prelude.{◌≡◌, false, ◌≤◌, length};
ghost use Rattle.choice_map.specs.Choice.{map_bytes};
ghost use Rattle.board.specs.Board.{board_header, board_turns, board_map};
ghost use Rattle.board_open.specs.Open.{bad_sizes, malformed, open_of, steps_part};
ghost use Rattle.board_open.specs.Part.{steps_part_at, LiesAt};
ghost use Rattle.board_open.specs.Chosen.{count_of, turn_chosen};

use board::{HEADER_BYTES, board_bytes, step_count, steps_place, turns};
use choice_map::{clear_past, count_chosen, is_chosen};
use refusal::Refusal;

// What counting returns: a refusal, 0 if none, and the number of chosen turns, 0 on a refusal. No Result: C is handed it.
#[repr(C)]
#[derive(Clone, Copy)]
pub struct CountAnswer {
    pub refusal: u8,
    pub turns: u32,
}

fn bad_sizes(b: &[u8]) -> bool
    requires { board_header ≤ length b.now }
    ensures { result ≡ bad_sizes b.now }
{
    let n = turns(b);
    let m = step_count(b);
    if n < m {
        return true;
    }
    if b.len() != board_bytes(n, m) {
        return true;
    }
    let place = steps_place(n);
    !clear_past(&b[HEADER_BYTES..place], n)
}

fn is_malformed(b: &[u8]) -> bool
    ensures { result ≡ malformed b.now }
{
    if b.len() < HEADER_BYTES {
        return true;
    }
    if wire::opens_with(b, wire::GRB) {
        bad_sizes(b)
    } else {
        true
    }
}

// 12 where the bytes are no board, else 0. No Result: C is handed the number.
pub fn open(b: &[u8]) -> u8
    ensures { result ≡ open_of b.now }
{
    if is_malformed(b) {
        u8::from(Refusal::MalformedBoard)
    } else {
        0
    }
}

// The part of the board's bytes that holds its steps, empty where it does not open.
pub fn steps(b: &[u8]) -> &[u8]
    ensures result_value { result.now ≡ steps_part b.now }
    ensures lies_at { LiesAt result b.entry (steps_part_at b.now).start }
{
    if is_malformed(b) {
        return &b[..0];
    }
    let place = steps_place(turns(b));
    &b[place..]
}

// The choice map of a board that opens, as that part of the caller's bytes.
pub fn map(b: &[u8]) -> &[u8]
    requires { malformed b.now ≡ false }
    ensures { (result.now ≡ board_map b.now) × (length result.now ≡ map_bytes (board_turns b.now)) × (length result.now ≤ 8192) }
{
    let place = steps_place(turns(b));
    &b[HEADER_BYTES..place]
}

// How many turns any bytes choose as a board.
pub fn count(b: &[u8]) -> CountAnswer
    ensures { result ≡ count_of b.now }
{
    if is_malformed(b) {
        return CountAnswer {
            refusal: u8::from(Refusal::MalformedBoard),
            turns: 0,
        };
    }
    CountAnswer {
        refusal: 0,
        turns: count_chosen(map(b)),
    }
}

// Whether any bytes choose turn t as a board; they choose none that they do not have.
pub fn chooses(b: &[u8], t: usize) -> bool
    ensures { result ≡ turn_chosen b.now t }
{
    if is_malformed(b) {
        return false;
    }
    if t < usize::from(turns(b)) {
        return is_chosen(map(b), t);
    }
    false
}
