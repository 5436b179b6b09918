// Definitions and theorems only: this crate has no program.

#![tactic(auto)]
