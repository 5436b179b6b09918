// A sheet's turns as the engine holds them: in columns of numbers; and by which ways two turns conflict.

#![tactic(auto)]

mod by_end;
mod by_start;
mod columns;
mod flags;
mod posing;
mod ways;

pub use by_end::{place_of, put_by_end, put_places};
pub use by_start::put_order;
pub use columns::{MAP_BYTES, MOST_TURNS, PLACES, Size, ends, put_row, row_at, starts};
pub use flags::{SLOPES, is_clear, set_flag};
pub use posing::{SHIFT_GAP, load, load_as, load_with, shift_size};
pub use ways::{Row, Ways, overlap, rows_conflict, shared_of, ways_of};
