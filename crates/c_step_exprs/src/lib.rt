//! Expressions of C as a machine runs them: instructions over a stack of values, made once at loading. Their run is the
//! value of the expression, exactly as `CExprs` has it.
#![tactic(auto)]

mod acting;
pub mod instrs;
pub mod laws;
mod numbers;
mod places;
mod running;
mod stack;

pub use instrs::{Instr, Join, Put, Test, Turn};
pub use numbers::convert;
pub use places::{cast, cell_for, is_same_pointer, value_holds};
pub use running::{Stop, run};
pub use stack::Stack;
