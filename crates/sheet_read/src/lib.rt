// The reader: a sheet of any kind into a turn table.

#![tactic(auto)]

mod header;
mod kind;
mod reading;

pub use header::{count_fault, read_header};
pub use kind::shift_sheet;
pub use reading::{first_cursor, put_turn, read, read_as, read_table, read_table_of};
