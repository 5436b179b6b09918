// The sheet: kinds of sheet, and a record read from its bytes.

#![tactic(auto)]

mod answer;
mod header;
mod kind;
mod record;

pub use answer::ReadAnswer;
pub use header::HEADER_BYTES;
pub use kind::{
    FIRST_MAP, FULL_MAP, Kind, MOST_GROOMERS, MOST_SLOPES, MOST_TURNS, Maps, Most, TABLE_PLACES,
};
pub use record::{Cursor, bad_map_for, byte_field, width, word_field};
