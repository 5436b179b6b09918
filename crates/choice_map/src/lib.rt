// The choice map: byte t / 8 has turn t, at its bit t % 8.

#![tactic(auto)]

ghost use Rattle.std.specs.Prelude.{◌≡◌, ◌+◌, ◌-◌, ◌*◌, ◌≤◌, ◌<◌, length};
ghost use Rattle.choice_map.specs.Choice.{bit_of, with_bit, map_bytes, chosen_in, with_turn, ones_in, clear_past, low_among, next_chosen};

// The bytes of a map that has a bit for each of n turns.
pub fn map_bytes(n: u16) -> usize
    ensures { result ≡ map_bytes n }
{
    (usize::from(n) + 7) / 8
}

fn bit(x: u8, k: u32) -> bool
    requires { k < 8 }
    ensures { result ≡ bit_of x k }
{
    (x >> k) % 2 == 1
}

fn with_bit(x: u8, k: u32) -> u8
    requires { k < 8 }
    ensures { result ≡ with_bit x k }
{
    x | 1 << k
}

// Whether turn t is chosen.
pub fn is_chosen(map: &[u8], t: usize) -> bool
    requires { t < 8 * length map.now }
    ensures { result ≡ chosen_in map.now t }
{
    bit(map[t / 8], (t % 8) as u32)
}

// Sets bit t: in a choice map, turn t is chosen too.
pub fn set_bit(map: &mut [u8], t: usize)
    requires { t < 8 * length map.old }
    ensures { map.new ≡ with_turn map.old t }
{
    let i = t / 8;
    let b = map[i];
    map[i] = with_bit(b, (t % 8) as u32);
}

// How many turns a map of at most 65,536 bytes has chosen.
pub fn count_chosen(map: &[u8]) -> u32
    requires { length map.now ≤ 65536 }
    ensures { result ≡ ones_in map.now }
{
    let mut sum = 0;
    for &byte in map {
        sum += byte.count_ones();
    }
    sum
}

// Whether the bits past the last of n turns are clear.
pub fn clear_past(map: &[u8], n: u16) -> bool
    requires { length map.now ≡ map_bytes n }
    ensures { result ≡ clear_past n map.now }
{
    for t in n as usize..8 * map.len() {
        if is_chosen(map, t) {
            return false;
        }
    }
    true
}

// The lowest bit that stands in a byte, from bit k on; 8 if there is none.
fn low_bit(x: u8, k: u32) -> u32
    requires { k < 8 }
    ensures { (result ≡ low_among (8 - k) x k) × (result ≤ 8) }
{
    ((x >> k) << k).trailing_zeros()
}

// The first chosen turn from t on; as many turns as the map has bits if there is none. No Option: list, round_parts and
// hall_moves compare the number with their own ends.
pub fn next_chosen(map: &[u8], t: usize) -> usize
    requires { (t ≤ 8 * length map.now) × (length map.now ≤ 65536) }
    ensures { (result ≡ next_chosen map.now t) × (result ≤ 8 * length map.now) }
{
    let end = 8 * map.len();
    let mut u = t;
    // A while: from t it goes to the next byte's first turn, and then by whole bytes.
    while u < end {
        let i = u / 8;
        let low = low_bit(map[i], (u % 8) as u32);
        if low < 8 {
            return 8 * i + low as usize;
        }
        u = 8 * i + 8;
    }
    u
}
