// The planner's steps, by the printed lines: what is spent is removed, the pick is made, the step is taken.

#![tactic(auto)]

mod stepping;

pub use stepping::{Rule, StepsMade, plan_by, plan_steps};
