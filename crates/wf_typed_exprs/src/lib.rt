// From the resolved tree of a package that breaks no rule to the nodes of its typed tree. The typed tree is a function of
// the resolved one; the code makes its nodes, those of a part before those of the whole.
#![tactic(auto)]

pub mod building;
pub mod columns;
pub mod elaborated;
pub mod forms;
pub mod laws;
pub mod operands;
pub mod typed_exprs;
pub mod walk;

pub use building::Building;
pub use elaborated::Elaborated;
