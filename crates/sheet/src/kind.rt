// A kind of sheet: what may differ between sheets that are read alike.
use turn::Refusals;

// A map with every field of a turn but the driver, which is then none, and a map with every field.
pub const FIRST_MAP: u8 = 31;

pub const FULL_MAP: u8 = 63;

// The most groomers and slopes of a shift's sheet.
pub const MOST_GROOMERS: u16 = 16;

pub const MOST_SLOPES: u16 = 120;

// The most turns that a sheet of any kind may have, and the places that a table needs for them.
pub const MOST_TURNS: u16 = 400;

pub const TABLE_PLACES: usize = turn::ROW_NUMBERS * (MOST_TURNS as usize);

// The greatest counts that a header may name.
#[derive(Clone, Copy)]
pub struct Most {
    pub groomers: u16,
    pub slopes: u16,
    pub turns: u16,
}

// The map with every field, and the least map of a first record. A first record has one of the two,
// a later one none above the full map.
#[derive(Clone, Copy)]
pub struct Maps {
    pub first: u8,
    pub full: u8,
}

// What opens a sheet, what its header and its maps may be, and the refusals that are its own.
#[derive(Clone, Copy)]
pub struct Kind {
    pub mark: [u8; 3],
    pub most: Most,
    pub maps: Maps,
    pub refusals: Refusals,
}
