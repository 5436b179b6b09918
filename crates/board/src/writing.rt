// Writing a board: its steps, its header, its map; and the steps read back.
ghost use Rattle.std.specs.Prelude.{◌≡◌, [], ◌∷◌, ◌++◌, ◌+◌, ◌*◌, ◌≤◌, length, drop};
ghost use Rattle.wire.specs.Number.{puts};
ghost use Rattle.model.specs.Steps.{tally};
ghost use Rattle.choice_map.specs.Choice.{map_bytes};
ghost use Rattle.board.specs.Board.{board_header, step_size, steps_place, board_length, step_at, steps_in, step_bytes, count_bytes, head_bytes};

use super::header::{
    HEADER_BYTES, STEP_COUNT_PLACE, STEP_SIZE, TALLY_PLACE, TURNS_PLACE, WORTH_PLACE, steps_place,
};

// The turn number of step i.
pub fn step_turn(steps: &[u8], i: usize) -> u16
    requires { step_size * i + step_size ≤ length steps.now }
    ensures { result ≡ (step_at steps.now i).turn }
{
    wire::word_at(steps, STEP_SIZE * i)
}

// The amount of step i.
pub fn step_amount(steps: &[u8], i: usize) -> u16
    requires { step_size * i + step_size ≤ length steps.now }
    ensures { result ≡ (step_at steps.now i).amount }
{
    wire::word_at(steps, STEP_SIZE * i + 2)
}

// The sum of the amounts of m steps.
pub fn sum_amounts(steps: &[u8], m: u16) -> u32
    requires { step_size * m ≤ length steps.now }
    ensures { result ≡ tally (steps_in m steps.now) }
{
    let mut sum = 0;
    for i in 0..usize::from(m) {
        sum += u32::from(step_amount(steps, i));
    }
    sum
}

// Writes step i.
pub fn put_step(steps: &mut [u8], i: usize, turn: u16, amount: u16)
    requires { step_size * i + step_size ≤ length steps.old }
    ensures { steps.new ≡ puts steps.old (step_size * i) (step_bytes (record { turn = turn; amount = amount } ∷ [])) }
{
    let at = STEP_SIZE * i;
    wire::put_word(steps, at, turn);
    wire::put_word(steps, at + 2, amount);
}

// The mark, the turns and the steps.
fn put_counts(out: &mut [u8], n: u16, m: u16)
    requires { board_header ≤ length out.old }
    ensures { out.new ≡ puts out.old 0 (count_bytes n m) }
{
    wire::put_mark(out, wire::GRB);
    wire::put_word(out, TURNS_PLACE, n);
    wire::put_word(out, STEP_COUNT_PLACE, m);
}

fn put_header(out: &mut [u8], n: u16, m: u16, tallied: u32, worth: u32)
    requires { board_header ≤ length out.old }
    ensures { out.new ≡ puts out.old 0 (head_bytes n m tallied worth) }
{
    put_counts(out, n, m);
    wire::put_quad(out, TALLY_PLACE, tallied);
    wire::put_quad(out, WORTH_PLACE, worth);
}

// Writes what stands before m steps that are written already: the header, with their sum, and the map.
pub fn put_front(out: &mut [u8], n: u16, m: u16, worth: u32, map: &[u8])
    requires { (length map.now ≡ map_bytes n) × (board_length n m ≤ length out.old) }
    ensures { out.new ≡ puts out.old 0
        (head_bytes n m (tally (steps_in m (drop (steps_place n) out.old))) worth ++ map.now) }
{
    let place = steps_place(n);
    let tallied = sum_amounts(&out[place..], m);
    put_header(out, n, m, tallied, worth);
    wire::put_bytes(out, HEADER_BYTES, map);
}
