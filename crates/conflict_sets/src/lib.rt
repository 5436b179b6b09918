// Conflicts as sets: each turn's row is the set of the turns that conflict with it, and a turn fits beside a choice iff
// no chosen turn's row has it. A set of turns is seven words of 64 bits; sets stand one after another.

#![tactic(auto)]

mod choosing;
mod filling;
mod sets;

pub use choosing::choose_listed;
pub use filling::fill_rows;
pub use sets::ROW_WORDS;
