// What the machine of the C grammar makes of the tokens that it reads: values on a stack, by numbers of nodes, and the
// nodes of a unit's tree. Each action of the grammar takes values from the top of the stack and makes one thing of them;
// that this is what the action means as trees is the contract of `Maker::perform`.
#![tactic(auto)]

mod blocks;
mod conditions;
pub mod keeping;
mod make_exprs;
mod make_items;
mod make_stmts;
mod make_types;
pub mod maker;
mod making;
mod pops;
mod shapes;
pub mod statements;
pub mod values;

pub use maker::Maker;
pub use values::SemanticValue;
