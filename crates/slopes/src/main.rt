// Plans the sheet that comes on standard input; prints the drivers' listing, or the line of a refusal.

#![tactic(auto)]

ghost use Rattle.std.specs.Prelude.{◌≡◌, ◌≤◌, length, take};
ghost use Rattle.list_spec.specs.Limits.{input_bytes, listing_bytes};
ghost use Rattle.slopes.specs.Printed.{printed};

use list::LISTING_BYTES;
use std::io;
use std::io::Read;

// One byte more than the longest sheet has: what is after it changes no answer.
const INPUT_BYTES: usize = 4008;

// Puts what is to be printed for a sheet to the front of the text; returns its bytes.
fn answer(sheet: &[u8], text: &mut [u8]) -> usize
    requires { listing_bytes ≤ length text.old }
    ensures { (result ≤ length text.new) × (take result text.new ≡ printed sheet.now) }
{
    let a = list::list(sheet, text);
    if a.refusal == 0 {
        a.bytes as usize
    } else {
        list::refused_line(text, a.refusal)
    }
}

// Bytes of standard input to the front of these, until they are full, the input ends or a read fails; returns how many came, no more than there is place for.
// What a read gives no contract can say. A while, since a read says how many bytes it gave.
fn gather(rt: &impl Input, sheet: &mut [u8]) -> usize
    requires { length sheet.old ≡ input_bytes }
    ensures { result ≤ length sheet.new }
{
    let mut input = rt.reader();
    let mut got = 0;
    while got < sheet.len() {
        let more = input.read(&mut sheet[got..]).unwrap_or(0);
        if more == 0 {
            break;
        }
        got += more;
    }
    got
}

fn main(rt: HostRuntime) -> io::Result<()> {
    let mut sheet = [0u8; INPUT_BYTES];
    let got = gather(&rt, &mut sheet);
    let mut text = [0u8; LISTING_BYTES];
    let bytes = answer(&sheet[..got], &mut text);
    rt.write_all(&text[..bytes])
}
