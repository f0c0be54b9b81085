// A stack, for machines that read a grammar: what is wanted, and what is made of what is read; and the shapes of the
// values on it.
#![tactic(auto)]

pub mod shapes;
pub mod stack;

pub use shapes::{ShapeOf, fits};
pub use stack::Stack;
