// The lines of the listing, each put after the one before it. Each function returns the place
// after what it put.
ghost use Rattle.std.specs.Prelude.{◌≡◌, ◌++◌, ◌+◌, ◌≤◌, ◌<◌, length};
ghost use Rattle.wire.specs.Number.{puts};
ghost use Rattle.text.specs.Place.{last_place};
ghost use Rattle.instance.specs.Columns.{turns_by, Held};
ghost use Rattle.list_spec.specs.Text.{labelled, two_labelled, heading_of, line_of, sums_line, refused_line};

use instance::{PLACES, Size, row_at};
use list_spec::Sums;

// A word and then a number.
fn put_labelled(out: &mut [u8], at: usize, word: &[u8], x: u32) -> usize
    requires { at + length (labelled word.now x) ≤ last_place }
    ensures { (result ≡ at + length (labelled word.now x)) × (out.new ≡ puts out.old at (labelled word.now x)) }
{
    let next = text::put_text(&mut *out, at, word);
    text::put_number(&mut *out, next, x)
}

// Two of them. The lines of turns go through here, so that their loops are compiled once.
fn put_pair(out: &mut [u8], at: usize, word: &[u8], x: u32, second: &[u8], y: u32) -> usize
    requires { at + length (labelled word.now x ++ labelled second.now y) ≤ last_place }
    ensures { (result ≡ at + length (labelled word.now x ++ labelled second.now y))
        × (out.new ≡ puts out.old at (labelled word.now x ++ labelled second.now y)) }
{
    let next = put_labelled(&mut *out, at, word, x);
    put_labelled(&mut *out, next, second, y)
}

// Two of them, and the end of the line.
fn put_two(out: &mut [u8], at: usize, word: &[u8], x: u32, second: &[u8], y: u32) -> usize
    requires { at + length (two_labelled word.now x second.now y) ≤ last_place }
    ensures { (result ≡ at + length (two_labelled word.now x second.now y))
        × (out.new ≡ puts out.old at (two_labelled word.now x second.now y)) }
{
    let last = put_pair(&mut *out, at, word, x, second, y);
    text::put_byte(&mut *out, last, b'\n')
}

// A groomer's heading.
pub fn put_heading(out: &mut [u8], at: usize, groomer: u32) -> usize
    requires { at + length (heading_of groomer) ≤ last_place }
    ensures { (result ≡ at + length (heading_of groomer)) × (out.new ≡ puts out.old at (heading_of groomer)) }
{
    let last = put_labelled(&mut *out, at, b"groomer ", groomer);
    text::put_byte(&mut *out, last, b'\n')
}

// The line of turn u.
pub fn put_line(out: &mut [u8], at: usize, p: Size, cols: &[u16; PLACES], u: usize) -> usize
    requires { (u < p.count) × Held p cols.now × (at + length (line_of (turns_by p cols.now) u) ≤ last_place) }
    ensures { (result ≡ at + length (line_of (turns_by p cols.now) u))
        × (out.new ≡ puts out.old at (line_of (turns_by p cols.now) u)) }
{
    let row = row_at(cols, u);
    let next = put_pair(&mut *out, at, b"", row.start as u32, b"-", row.end as u32);
    put_two(
        &mut *out,
        next,
        b" slope ",
        row.slope as u32,
        b" worth ",
        row.worth as u32,
    )
}

// The last line.
pub fn put_sums(out: &mut [u8], at: usize, sums: Sums) -> usize
    requires { at + length (sums_line sums) ≤ last_place }
    ensures { (result ≡ at + length (sums_line sums)) × (out.new ≡ puts out.old at (sums_line sums)) }
{
    let next = put_labelled(&mut *out, at, b"worth ", sums.worth);
    put_two(
        &mut *out,
        next,
        b" tally ",
        sums.tally,
        b" ceiling ",
        sums.ceiling,
    )
}

// The line of a refusal.
pub fn put_refused(out: &mut [u8], k: u32) -> usize
    requires { length (refused_line k) ≤ last_place }
    ensures { (result ≡ length (refused_line k)) × (out.new ≡ puts out.old 0 (refused_line k)) }
{
    let last = put_labelled(&mut *out, 0, b"refused ", k);
    text::put_byte(&mut *out, last, b'\n')
}
