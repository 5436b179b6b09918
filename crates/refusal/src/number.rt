// The numbers of refusals that have no name. In a file of its own, since the definitions of numbers speak of the type.
ghost use Rattle.std.specs.Prelude.{◌<◌};

// A refusal's number that is none of the 26 with a name.
#[derive(Clone, Copy, PartialEq, Eq, Debug)]
pub struct OtherNumber {
    pub number: u8,
    ghost other: { 26 < number },
}
