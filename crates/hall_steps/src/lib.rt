// A hall's windows of one kind as the engine's turns, and their steps.

#![tactic(auto)]

mod one_kind;
mod running;

pub use one_kind::{OneKind, is_of_kind, put_kind};
pub use running::plan_one_kind;
