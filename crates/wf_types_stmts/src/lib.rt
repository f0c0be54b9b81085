// The rules of types and effects on statements: one walk over a body finds the first refusal among all that stands
// in it. Each statement is visited once, and once more for whether the body reaches its end.
#![tactic(auto)]

pub mod assignments;
pub mod ends;
mod results;
pub mod statements;
mod targets;
