// Text into lent bytes, one piece after another. Each function returns the place after what it
// put; a byte for which there is no place is counted, not written.

#![tactic(auto)]

ghost use Rattle.std.specs.Prelude.{◌≡◌, [], ◌∷◌, ◌+◌, ◌-◌, ◌≤◌, ◌<◌, length, take, drop};
ghost use Rattle.wire.specs.Number.{puts};
ghost use Rattle.text.specs.Decimal.{most_digits, decimal};
ghost use Rattle.text.specs.Place.{last_place};

// The other digits follow it.
const ZERO: u8 = b'0';

pub fn put_byte(out: &mut [u8], at: usize, b: u8) -> usize
    requires { at + 1 ≤ last_place }
    ensures { (result ≡ at + 1) × (out.new ≡ puts out.old at (b ∷ [])) }
{
    let next = at + 1;
    if out.len() <= at {
        return next;
    }
    out[at] = b;
    next
}

pub fn put_text(out: &mut [u8], at: usize, text: &[u8]) -> usize
    requires { at + length text.now ≤ last_place }
    ensures { (result ≡ at + length text.now) × (out.new ≡ puts out.old at text.now) }
{
    let mut to = at;
    for &byte in text {
        to = put_byte(out, to, byte);
    }
    to
}

// The digits of x at the end of ten places; returns where they begin.
fn spell(x: u32, space: &mut [u8; 10]) -> usize
    ensures { (result ≤ most_digits) × (take (most_digits - result) (drop result space.new) ≡ decimal x) }
{
    let mut rest = x;
    let mut k = 9;
    // A while: it ends by the number that is left, which a for over the places would have to test as well.
    while 9 < rest {
        space[k] = (rest % 10) as u8 + ZERO;
        rest /= 10;
        k -= 1;
    }
    space[k] = rest as u8 + ZERO;
    k
}

// A number in decimal.
pub fn put_number(out: &mut [u8], at: usize, x: u32) -> usize
    requires { at + length (decimal x) ≤ last_place }
    ensures { (result ≡ at + length (decimal x)) × (out.new ≡ puts out.old at (decimal x)) }
{
    let mut space = [0u8; 10];
    let k = spell(x, &mut space);
    put_text(out, at, &space[k..])
}
