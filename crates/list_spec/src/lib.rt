// The drivers' listing: rounds, lines, the whole text; when it is refused; no code.

#![tactic(auto)]

// What the last line says.
#[derive(Clone, Copy)]
pub struct Sums {
    pub worth: u32,
    pub tally: u32,
    pub ceiling: u32,
}
