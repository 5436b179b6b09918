// The kept form of a sheet, by column; what keeping and restoring give; no code.

#![tactic(auto)]

// A field of a record: its place in a turn's row, what its bit counts for in a map, and its bytes.
#[derive(Clone, Copy)]
pub struct Field {
    pub place: usize,
    pub unit: u8,
    pub width: u8,
}
