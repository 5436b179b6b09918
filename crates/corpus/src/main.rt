// Runs the cases of standard input through the library and prints a line for each: the case's name, the
// refusal and what else the entry returned, then all that was lent as it is after the call. The cases and
// the lines that must come are made by the independent Rust version: the head of
// reference/src/bin/corpus.rs says how a case is laid out.
//
// It is proved that each case runs safely to its end, and of each function in entries.rt that what its line
// says and what was lent are given by the entry's definition. Which of them a case calls, with which part of
// its input, no contract says, and none can say what is printed: the lines are held to the file stdout.
//
// A further entry is an arm of run_entry, a function in entries.rt and a line in specs/Line.

#![tactic(auto)]

ghost use Rattle.std.specs.Prelude.{◌≤◌, length};

mod entries;

use entries::Line;
use std::io;
use std::io::Read;

// Bytes before a case's name.
const HEAD: usize = 10;

// Most bytes of a case's name and input, and most places that are lent.
const MOST_INPUT: usize = 8192;

const MOST_LENT: usize = 4096;

// Most cases that are run.
const MOST_CASES: u32 = 1000000;

// What each lent place holds before the call.
const NUMBER_BEFORE: u16 = 42405;

const BYTE_BEFORE: u8 = 165;

// The number of the entry whose line has the steps of a board too.
const OPEN: u8 = 4;

// A case: the number of its entry, its name, and the two parts of its input.
#[derive(Clone, Copy)]
struct Case<'a> {
    entry: u8,
    name: &'a [u8],
    front: &'a [u8],
    rest: &'a [u8],
}

// Calls the entry; what its line says.
fn run_entry(case: Case, numbers: &mut [u16], bytes: &mut [u8]) -> Line {
    match case.entry {
        1 => entries::read(case.front, numbers),
        2 => entries::write(case.front, case.rest, bytes),
        3 => entries::plan(case.front, bytes),
        4 => entries::open(case.front, numbers),
        5 => entries::check(case.front, case.rest),
        6 => entries::list(case.front, bytes),
        9 => entries::assign(case.front, numbers),
        10 => entries::short(case.front, numbers),
        11 => entries::best(case.front, bytes),
        12 => entries::improve(case.front, case.rest, bytes),
        13 => entries::draw(case.front, bytes),
        14 => entries::keep(case.front, bytes),
        15 => entries::restore(case.front, bytes),
        17 => entries::charge(case.front, bytes),
        _ => Line::Nothing,
    }
}

// Each value with a space before it.
fn print(rt: &impl Print, line: Line) -> io::Result<()> {
    match line {
        Line::Nothing => Ok(()),
        Line::One(refusal, a) => print!(rt; " {refusal} {a}"),
        Line::Two(refusal, a, b) => print!(rt; " {refusal} {a} {b}"),
        Line::Three(refusal, a, b, c) => print!(rt; " {refusal} {a} {b} {c}"),
        Line::Four(refusal, a, b, c, d) => print!(rt; " {refusal} {a} {b} {c} {d}"),
    }
}

// What a lent place holds, as it is printed: a number as it is, a byte in hexadecimal.
trait Place: Copy {
    fn print(self, rt: &impl Print) -> io::Result<()>;
}

impl Place for u16 {
    fn print(self, rt: &impl Print) -> io::Result<()> {
        print!(rt; " {self}")
    }
}

impl Place for u8 {
    fn print(self, rt: &impl Print) -> io::Result<()> {
        print!(rt; " {self:02x}")
    }
}

// Lent places after a bar.
fn print_places<T: Place>(rt: &impl Print, places: &[T]) -> io::Result<()> {
    rt.write_all(b" |")?;
    for &place in places {
        place.print(rt)?;
    }
    Ok(())
}

// How many bytes of name and input follow a case's head.
fn input_size(head: &[u8; HEAD]) -> usize {
    wire::byte_at(head, 1) as usize
        + wire::word_at(head, 6) as usize
        + wire::word_at(head, 8) as usize
}

// Prints the line of a case: its name, what the entry's line says, and the steps of a board where it was opened.
fn print_line(
    rt: &impl Print,
    case: Case,
    numbers: &mut [u16],
    bytes: &mut [u8],
) -> io::Result<()> {
    rt.write_all(case.name)?;
    print(rt, run_entry(case, numbers, bytes))?;
    if case.entry == OPEN {
        print_places(rt, board_open::steps(case.front))?;
    }
    print_places(rt, numbers)?;
    print_places(rt, bytes)?;
    rt.write_all(b"\n")
}

// Runs a case, which is lent so many of the numbers and bytes here; false where it asks for more.
fn run_case(
    rt: &impl Print,
    head: &[u8; HEAD],
    input: &[u8],
    numbers: &mut [u16],
    bytes: &mut [u8],
) -> io::Result<bool> {
    let name = wire::byte_at(head, 1) as usize;
    let places = wire::word_at(head, 2) as usize;
    let lent = wire::word_at(head, 4) as usize;
    let cut = name + wire::word_at(head, 6) as usize;
    let end = cut + wire::word_at(head, 8) as usize;
    if input.len() < end || numbers.len() < places || bytes.len() < lent {
        return Ok(false);
    }
    let case = Case {
        entry: head[0],
        name: &input[..name],
        front: &input[name..cut],
        rest: &input[cut..end],
    };
    print_line(rt, case, &mut numbers[..places], &mut bytes[..lent])?;
    Ok(true)
}

// Reads until these are full, the input ends or a read fails; returns how many bytes came to the front. A while, since a
// read says how many bytes it gave.
fn read_full(input: &mut impl Read, bytes: &mut [u8]) -> usize
    ensures { result ≤ length bytes.new }
{
    let mut done = 0;
    while done < bytes.len() {
        let more = input.read(&mut bytes[done..]).unwrap_or(0);
        if more == 0 {
            break;
        }
        done += more;
    }
    done
}

// Fetches so many bytes of standard input to the front; false where they are not there, or do not fit.
fn fetch(rt: &impl Input, buffer: &mut [u8], count: usize) -> bool {
    if buffer.len() < count {
        return false;
    }
    read_full(&mut rt.reader(), &mut buffer[..count]) == count
}

// Fetches and runs the next case; false where standard input ends, or where the case does not fit.
fn next_case(rt: &(impl Input + Print)) -> io::Result<bool> {
    let mut head = [0u8; HEAD];
    if !fetch(rt, &mut head, HEAD) {
        return Ok(false);
    }
    let mut input = [0u8; MOST_INPUT];
    if !fetch(rt, &mut input, input_size(&head)) {
        return Ok(false);
    }
    let mut numbers = [NUMBER_BEFORE; MOST_LENT];
    let mut bytes = [BYTE_BEFORE; MOST_LENT];
    run_case(rt, &head, &input, &mut numbers, &mut bytes)
}

// The loop has to end, and nothing says that the input does: so no more than so many cases are run.
fn main(rt: HostRuntime) -> io::Result<()> {
    for _ in 0..MOST_CASES {
        if !next_case(&rt)? {
            break;
        }
    }
    Ok(())
}
