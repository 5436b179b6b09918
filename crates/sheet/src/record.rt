// One record of a sheet: a map byte, then the fields whose bit stands.
ghost use Rattle.sheet.specs.Kind.{kind_in_numbers};
ghost use Rattle.std.specs.Prelude.{◌≡◌, ◌+◌, ◌*◌, ◌≤◌, ◌<◌, length, IfOk};
ghost use Rattle.refusal.specs.Cause.{first_of};
ghost use Rattle.refusal.specs.Failure.{failure};
ghost use Rattle.sheet.specs.Record.{width_of, record_bytes, field, turn_from, bad_map_for, turn_at, cursor_after, record_causes};

use super::kind::{Kind, Maps};
use refusal::Refusal;
use turn::{Counts, Turn};

// Where the next record starts, and the turn before it.
#[derive(Clone, Copy)]
pub struct Cursor {
    pub at: usize,
    pub first: bool,
    pub prev: Turn,
}

// How many bytes the fields of a map take.
pub fn width(m: u8) -> usize
    ensures { (result ≡ width_of m) × (result < record_bytes) }
{
    let w = m as usize;
    w % 2 + w / 2 % 2 + 2 * (w / 4 % 2) + 2 * (w / 8 % 2) + 2 * (w / 16 % 2) + w / 32 % 2
}

// A one-byte field where its bit stands, else the value before. The byte is read in both cases, so that no step depends
// on the bit; where there is none, the bit does not stand. Beside word_field, and not one function with a width: it
// would choose between wire's two reads by an if, and be no plainer.
pub fn byte_field(s: &[u8], at: usize, bit: u8, old: u16) -> u16
    requires { at + bit ≤ length s.now }
    ensures { result ≡ field 1 s.now at bit old }
{
    if s.len() - at < 1 {
        return old;
    }
    let x = wire::byte_at(s, at);
    if bit == 0 { old } else { x }
}

// A two-byte field where its bit stands, else the value before, likewise.
pub fn word_field(s: &[u8], at: usize, bit: u8, old: u16) -> u16
    requires { at + 2 * bit ≤ length s.now }
    ensures { result ≡ field 2 s.now at bit old }
{
    if s.len() - at < 2 {
        return old;
    }
    let x = wire::word_at(s, at);
    if bit == 0 { old } else { x }
}

// The turn whose fields start at a place, after the turn before it.
fn turn_from(s: &[u8], at: usize, m: u8, old: Turn) -> Turn
    requires { at + width_of m ≤ length s.now }
    ensures { result ≡ turn_from s.now at m old }
{
    let w = m as usize;
    let p1 = at + w % 2;
    let p2 = p1 + w / 2 % 2;
    let p3 = p2 + 2 * (w / 4 % 2);
    let p4 = p3 + 2 * (w / 8 % 2);
    let p5 = p4 + 2 * (w / 16 % 2);
    Turn {
        slope: byte_field(s, at, m % 2, old.slope),
        groomer: byte_field(s, p1, m / 2 % 2, old.groomer),
        start: word_field(s, p2, m / 4 % 2, old.start),
        length: word_field(s, p3, m / 8 % 2, old.length),
        worth: word_field(s, p4, m / 16 % 2, old.worth),
        driver: byte_field(s, p5, m / 32 % 2, old.driver),
    }
}

// Whether a record may not have this map.
pub fn bad_map_for(maps: Maps, first: bool, m: u8) -> bool
    ensures { result ≡ bad_map_for maps first m }
{
    if maps.full < m {
        return true;
    }
    if first {
        if m == maps.first {
            false
        } else {
            m != maps.full
        }
    } else {
        false
    }
}

impl Cursor {
    // The next turn and where the record after it starts, or the first cause to refuse this record.
    pub fn next(self, kind: Kind, s: &[u8], limits: Counts) -> Result<(Turn, Cursor), Refusal>
        ensures refused { failure result ≡ first_of (record_causes (kind_in_numbers kind) s.now limits self) }
        ensures read { IfOk result (λ r. (r.0 ≡ turn_at s.now self) × (r.1 ≡ cursor_after s.now self)) }
    {
        let at = self.at;
        if s.len() <= at {
            return Err(Refusal::Truncated);
        }
        let m = s[at];
        if bad_map_for(kind.maps, self.first, m) {
            return Err(Refusal::BadMap);
        }
        let fields = at + 1;
        let end = fields + width(m);
        if s.len() < end {
            return Err(Refusal::Truncated);
        }
        let t = turn_from(s, fields, m, self.prev);
        turn::turn_fault(t, limits, kind.refusals)?;
        Ok((
            t,
            Cursor {
                at: end,
                first: false,
                prev: t,
            },
        ))
    }
}
