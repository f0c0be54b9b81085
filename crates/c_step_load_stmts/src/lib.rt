//! The body of a function of C as the flat text that a machine runs: each statement is an instruction with a number, exactly
//! as `Emitted` has them. The work takes time in proportion to the body, and nothing calls itself but for expressions, whose
//! brackets bound it.
#![tactic(auto)]

pub mod bodies;
mod calls;
mod labels;
pub mod statements;
pub mod tasks;

pub use bodies::Body;
pub use labels::label_numbers;
pub use statements::Spot;
pub use tasks::{Work, put};
