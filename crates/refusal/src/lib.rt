// What an entry refuses for, and what one that writes returns.

#![tactic(auto)]

ghost use Rattle.std.specs.Prelude.{◌≡◌};
ghost use Rattle.refusal.specs.Failure.{number_of, NamedBy};
ghost use Rattle.refusal.specs.Written.{write_refused};

mod number;

pub use number::OtherNumber;

// The refusals, in the order of their numbers; 0 is none. After each of 1 to
// 18 stands the trade's word.
#[derive(Clone, Copy, PartialEq, Eq, Debug)]
pub enum Refusal {
    Truncated, // torn: the sheet stops short of the end of its header or of a record that must follow
    BadMagic, // stranger: the opening mark is another
    BadCounts, // fleet: groomers not in 1 to 16, or slopes not in 1 to 120
    TooManyTurns, // crowded: more than 400 turns
    BadMap, // blind: a record's map with a bit that it may not have, or a first map without a field that it needs
    BadSlope, // no slope: the slope is not in 1 to the number of slopes
    BadGroomer, // no groomer: the groomer is not in 1 to the number of groomers
    BadTime, // clock: length 0, or an end after minute 960
    BadWorth, // worthless: the worth is not in 1 to 60,000
    TrailingBytes, // tail: the sheet goes on after its last record
    BufferTooSmall, // narrow: the lent buffer is too short
    MalformedBoard, // misfit: the bytes do not have the form of a board or, in the check, not as many turns as the sheet
    ChosenConflict, // clash: two chosen turns conflict
    NotMaximal, // idle: an unchosen turn conflicts with no chosen one
    WrongStep, // bad step: a step is not right where it stands
    TurnLeftOpen, // unpaid: some turn is still open when the steps are over
    WrongSums, // sums: the amounts do not add up to the tally, the chosen worths not to the worth, or the tally is the greater of the two
    PartialTurn, // uneven: the numbers of a turn table do not make whole turns
    BadDriver, // the driver is above 40
    TooManyForShort, // more than 96 turns, for the short reader
    NotSingleTurns, // a slope with two turns, or a driver, on a sheet that may have neither
    TooManyToSearch, // more than 64 turns, for the search
    BadSeed, // a seed that no draw can be: 0, or the generator's modulus or above
    BadDelays, // the delay table has not a number for each turn, or a delay is above 120
    BadDraw, // a window's draw is not in 1 to the hall's units
    BadPrices, // a price list of another length than is due: slopes plus turns, in a hall the minutes
    Other(OtherNumber), // what a kind of sheet refuses that a caller makes, by a number of its own
}

// The number of a refusal with a name; of another it says nothing. It is not inlined: the compiled code then has no
// table of jumps, which the measure of the stack would not follow.
#[inline(never)]
fn named(k: Refusal) -> u8
    ensures { NamedBy k result }
{
    match k {
        Refusal::Truncated => 1,
        Refusal::BadMagic => 2,
        Refusal::BadCounts => 3,
        Refusal::TooManyTurns => 4,
        Refusal::BadMap => 5,
        Refusal::BadSlope => 6,
        Refusal::BadGroomer => 7,
        Refusal::BadTime => 8,
        Refusal::BadWorth => 9,
        Refusal::TrailingBytes => 10,
        Refusal::BufferTooSmall => 11,
        Refusal::MalformedBoard => 12,
        Refusal::ChosenConflict => 13,
        Refusal::NotMaximal => 14,
        Refusal::WrongStep => 15,
        Refusal::TurnLeftOpen => 16,
        Refusal::WrongSums => 17,
        Refusal::PartialTurn => 18,
        Refusal::BadDriver => 19,
        Refusal::TooManyForShort => 20,
        Refusal::NotSingleTurns => 21,
        Refusal::TooManyToSearch => 22,
        Refusal::BadSeed => 23,
        Refusal::BadDelays => 24,
        Refusal::BadDraw => 25,
        Refusal::BadPrices => 26,
        Refusal::Other(_) => 27,
    }
}

// The number that an answer has of a refusal.
impl From<Refusal> for u8 {
    ghost from_gives = { λ k n. n ≡ number_of k };

    fn from(k: Refusal) -> u8 {
        if let Refusal::Other(other) = k {
            other.number
        } else {
            named(k)
        }
    }
}

// What an entry returns that writes bytes into a lent place: a refusal, 0 if none, and the bytes written, 0 on a
// refusal. The refusal is a number, and no Result or Refusal, for the C interface.
#[repr(C)]
#[derive(Clone, Copy)]
pub struct WriteAnswer {
    pub refusal: u8,
    pub bytes: u32,
}

// A refusal's answer.
pub fn refused(k: Refusal) -> WriteAnswer
    ensures { result ≡ write_refused (number_of k) }
{
    WriteAnswer {
        refusal: u8::from(k),
        bytes: 0,
    }
}
