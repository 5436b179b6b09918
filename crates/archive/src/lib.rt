// Sheets kept by column: from a sheet to its kept form, and back.

#![tactic(auto)]

mod form;
mod keeping;
mod restoring;

pub use keeping::keep;
pub use restoring::restore;
