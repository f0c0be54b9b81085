//! Expressions of a C text as instructions: names become numbers by tables, and the instructions of an expression are put at
//! the end of a list, exactly as `Resolving` has them. An expression is gone through once.
#![tactic(auto)]

mod emitting;
mod exprs;
pub mod names;
pub mod numbers;
mod parts;

pub use emitting::cell_type;
pub use names::Names;
pub use numbers::Numbers;
