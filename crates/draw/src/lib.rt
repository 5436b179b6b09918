// Drawn sheets: from a seed, turns by the generator of Park and Miller, and the sheet that the writer
// makes of them. The same seed and counts give the same sheet on every machine.

#![tactic(auto)]

ghost use Rattle.std.specs.Prelude.{◌≡◌, ◌+◌, ◌*◌, ◌%◌, ◌≤◌, ◌<◌, length};
ghost use Rattle.refusal.specs.Cause.{first_of};
ghost use Rattle.refusal.specs.Failure.{failure};
ghost use Rattle.refusal.specs.Outcome.{beside};
ghost use Rattle.turn.specs.Turn.{counts_of};
ghost use Rattle.sheet.specs.Kind.{shift_sheet, most_turns};
ghost use Rattle.sheet.specs.Accepted.{Legal};
ghost use Rattle.write_spec.specs.Write.{write_of};
ghost use Rattle.write_spec.specs.Key.{keys_of};
ghost use Rattle.draw_spec.specs.Draw.{draw_modulus, length_places, draw_number, drawn_length, from_one, turn_drawn, turn_draws, turn_after, drawn_turns, drawn_table, Drawable};
ghost use Rattle.draw_spec.specs.DrawnSheet.{seed_causes, draw_of};

use refusal::{Refusal, WriteAnswer, refused};
use sheet::MOST_TURNS;
use turn::{Counts, MOST_WORTH, Turn};

// The generator: a draw times the factor, modulo a prime.
const DRAW_FACTOR: u64 = 16807;

const DRAW_MODULUS: u64 = 2147483647;

// Two to the power of 31, which is 1 more than the modulus.
const DRAW_POWER: u64 = 2147483648;

// The factor's second to fifth power, modulo the modulus: what a draw is multiplied by for those after the next.
const SECOND_FACTOR: u64 = 282475249;

const THIRD_FACTOR: u64 = 1622650073;

const FOURTH_FACTOR: u64 = 984943658;

const FIFTH_FACTOR: u64 = 1144108930;

// Starts are 0 to one less than this, and lengths go by the place of a draw among so many.
const DRAWN_STARTS: u32 = 841;

const LENGTH_PLACES: u32 = 100;

// A drawn turn, and the last of its draws.
#[derive(Clone, Copy)]
pub struct Drawn {
    pub turn: Turn,
    pub last: u32,
}

// The remainder of a product of two draws by the modulus, without a division: what stands above two to the power of
// 31 counts once more.
fn remainder(product: u64) -> u32
    requires { product < draw_modulus * draw_modulus }
    ensures { result ≡ product % draw_modulus }
{
    let sum = product % DRAW_POWER + product / DRAW_POWER;
    if sum < DRAW_MODULUS {
        return sum as u32;
    }
    (sum - DRAW_MODULUS) as u32
}

// A turn's length.
fn drawn_length(draw: u32) -> u16
    ensures { result ≡ drawn_length (draw % length_places) }
{
    let place = draw % LENGTH_PLACES;
    match place {
        0..=39 => 30,
        40..=69 => 45,
        70..=89 => 60,
        _ => 90,
    }
}

// A number from 1 to a count.
fn from_one(count: u16, draw: u32) -> u16
    requires { 1 ≤ count }
    ensures { result ≡ from_one count draw }
{
    let wide = count as u32;
    (1 + draw % wide) as u16
}

// The turn of five draws.
fn turn_drawn(
    counts: Counts,
    slope: u32,
    groomer: u32,
    start: u32,
    minutes: u32,
    worth: u32,
) -> Turn
    requires { (1 ≤ counts.groomers) × (1 ≤ counts.slopes) }
    ensures { result ≡ turn_drawn counts slope groomer start minutes worth }
{
    Turn {
        slope: from_one(counts.slopes, slope),
        groomer: from_one(counts.groomers, groomer),
        start: (start % DRAWN_STARTS) as u16,
        length: drawn_length(minutes),
        worth: from_one(MOST_WORTH, worth),
        driver: 0,
    }
}

// The turn of the five draws after x. Each is had from x itself, so that none waits for another.
fn turn_after(counts: Counts, x: u32) -> Drawn
    requires { (1 ≤ counts.groomers) × (1 ≤ counts.slopes) × Drawable x }
    ensures { (result.turn ≡ turn_after counts x) × (result.last ≡ draw_number turn_draws x) × Drawable result.last }
{
    let from = x as u64;
    let slope = remainder(DRAW_FACTOR * from);
    let groomer = remainder(SECOND_FACTOR * from);
    let start = remainder(THIRD_FACTOR * from);
    let minutes = remainder(FOURTH_FACTOR * from);
    let worth = remainder(FIFTH_FACTOR * from);
    Drawn {
        turn: turn_drawn(counts, slope, groomer, start, minutes, worth),
        last: worth,
    }
}

// The keys of drawn turns, as many as there are places.
fn fill_keys(seed: u32, counts: Counts, keys: &mut [u64])
    requires { (1 ≤ counts.groomers) × (1 ≤ counts.slopes) × Drawable seed }
    ensures { keys.new ≡ keys_of (drawn_turns (length keys.old) counts seed) }
{
    let mut x = seed;
    for i in 0..keys.len() {
        let d = turn_after(counts, x);
        keys[i] = write::key_of(d.turn);
        x = d.last;
    }
}

// What the writer makes of n drawn turns, which need not be judged.
fn write_drawn(seed: u32, counts: Counts, n: u16, keys: &mut [u64], out: &mut [u8]) -> WriteAnswer
    requires n_le_most_turns { (n ≤ most_turns) × (n ≤ length keys.old) × Drawable seed × Legal shift_sheet counts n }
    requires le_groomers { (1 ≤ counts.groomers) × (counts.groomers < 256) × (1 ≤ counts.slopes) × (counts.slopes < 256) }
    ensures { beside result out.new ≡ write_of counts (drawn_table n counts seed) out.old }
{
    let end = n as usize;
    let some = &mut keys[0..end];
    fill_keys(seed, counts, some);
    write::write_keys(counts, some, out)
}

// The first thing wrong with the seed or the counts, if any.
fn seed_fault(seed: u64, groomers: u32, slopes: u32, turns: u32) -> Result<(), Refusal>
    ensures { failure result ≡ first_of (seed_causes seed (counts_of groomers slopes) turns) }
{
    if seed == 0 {
        return Err(Refusal::BadSeed);
    }
    if DRAW_MODULUS <= seed {
        return Err(Refusal::BadSeed);
    }
    sheet_read::count_fault(sheet_read::shift_sheet(), groomers, slopes, turns as usize)
}

// Draws turns from any seed with any counts, and writes their sheet into any lent bytes.
pub fn draw(seed: u64, groomers: u32, slopes: u32, turns: u32, out: &mut [u8]) -> WriteAnswer
    ensures { beside result out.new ≡ draw_of seed (counts_of groomers slopes) turns out.old }
{
    match seed_fault(seed, groomers, slopes, turns) {
        Err(fault) => refused(fault),
        Ok(()) => {
            let counts = Counts {
                groomers: groomers as u16,
                slopes: slopes as u16,
            };
            let mut keys = [0u64; MOST_TURNS as usize];
            write_drawn(seed as u32, counts, turns as u16, &mut keys, out)
        }
    }
}
