// The nodes of expressions: what makes of each number, truth value, status and slice of the source its expression of C in a unit.
#![tactic(auto)]

pub mod asking;
mod chains;
mod comparands;
pub mod conditions;
pub mod helpers;
pub mod marks;
pub mod numbers;
pub mod parts;
pub mod statuses;
pub mod values;

pub use conditions::condition;
pub use numbers::{given, lower_slice, number};
pub use values::lower_expr;
