// From the resolved body of a method that breaks no rule to the nodes of its typed tree: statements above the expressions in
// them, those inside a statement before it.
#![tactic(auto)]

pub mod assignments;
pub mod bodies;
pub mod building;
mod calls;
mod counting;
mod heads;
pub mod laws;
mod lists;
mod simple;
mod simple_stmts;
mod targets;

pub use bodies::elaborate_body;
pub use building::BodyBuilding;
