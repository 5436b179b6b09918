// Numbers as bytes, high byte first, and the opening marks.

#![tactic(auto)]

ghost use Rattle.std.specs.Prelude.{◌≡◌, ◌+◌, ◌≤◌, ◌<◌, length};
ghost use Rattle.wire.specs.Number.{value_at, bytes_of, bytes_at, puts};
ghost use Rattle.wire.specs.Mark.{opens_with};

// The marks of a sheet, of a board, of a sheet that is kept by column and of a charging sheet, for reading and
// for writing.
pub const GRM: [u8; 3] = *b"GRM";

pub const GRB: [u8; 3] = *b"GRB";

pub const GRC: [u8; 3] = *b"GRC";

pub const GRE: [u8; 3] = *b"GRE";

// Whether the first three bytes are the mark's.
pub fn opens_with(s: &[u8], mark: [u8; 3]) -> bool
    requires { 3 ≤ length s.now }
    ensures { result ≡ opens_with mark s.now }
{
    s[..3] == mark[..]
}

// The byte at a place, as a wider number.
pub fn byte_at(s: &[u8], at: usize) -> u16
    requires { at + 1 ≤ length s.now }
    ensures { (result ≡ value_at s.now at 1) × (result < 256) }
{
    u16::from(s[at])
}

// The number in the two bytes from a place on.
pub fn word_at(s: &[u8], at: usize) -> u16
    requires { at + 2 ≤ length s.now }
    ensures { result ≡ value_at s.now at 2 }
{
    u16::from_be_bytes([s[at], s[at + 1]])
}

// The number in the four bytes from a place on.
pub fn quad_at(s: &[u8], at: usize) -> u32
    requires { at + 4 ≤ length s.now }
    ensures { result ≡ value_at s.now at 4 }
{
    u32::from_be_bytes([s[at], s[at + 1], s[at + 2], s[at + 3]])
}

// The mark at the front of lent bytes.
pub fn put_mark(out: &mut [u8], mark: [u8; 3])
    requires { 3 ≤ length out.old }
    ensures { out.new ≡ puts out.old 0 (bytes_at mark 0 3) }
{
    out[..3].copy_from_slice(&mark);
}

// A number's low byte at a place.
pub fn put_byte(out: &mut [u8], at: usize, x: u16)
    requires { at + 1 ≤ length out.old }
    ensures { out.new ≡ puts out.old at (bytes_of 1 x) }
{
    out[at] = (x % 256) as u8;
}

// A number as two bytes from a place on.
pub fn put_word(out: &mut [u8], at: usize, x: u16)
    requires { at + 2 ≤ length out.old }
    ensures { out.new ≡ puts out.old at (bytes_of 2 x) }
{
    out[at..at + 2].copy_from_slice(&x.to_be_bytes());
}

// A number as four bytes from a place on.
pub fn put_quad(out: &mut [u8], at: usize, x: u32)
    requires { at + 4 ≤ length out.old }
    ensures { out.new ≡ puts out.old at (bytes_of 4 x) }
{
    out[at..at + 4].copy_from_slice(&x.to_be_bytes());
}

// Bytes copied to a place.
pub fn put_bytes(out: &mut [u8], at: usize, bytes: &[u8])
    requires { at + length bytes.now ≤ length out.old }
    ensures { out.new ≡ puts out.old at bytes.now }
{
    out[at..at + bytes.len()].copy_from_slice(bytes);
}
