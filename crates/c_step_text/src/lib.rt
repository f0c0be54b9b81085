//! The flat text of C functions (ISO/IEC 9899:1999, 6.8): each statement is one instruction with a number, and each
//! instruction names what follows it by a number. A number stands for a statement and all that follows it, and doing
//! an instruction is the step, or the steps, that the meaning takes there.
#![tactic(auto)]

pub mod laws;
mod text;

pub use text::{Arm, Span, StmtInstr, Text};
