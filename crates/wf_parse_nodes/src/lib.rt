// What the machine of the grammar makes of the tokens that it reads: values on a stack, by numbers of nodes, and the
// nodes of a package's tree. Each action of the grammar takes values from the top of the stack and makes one thing of
// them; that this is what the action means as trees is the contract of `Maker::perform`.
#![tactic(auto)]

mod actions;
mod branches;
mod calls;
mod declarations;
mod expressions;
pub mod maker;
mod paths;
mod pops;
mod shapes;
mod statements;
mod types;
pub mod values;

pub use maker::Maker;
