// The resolved tree of a package, between names and types: every name stands for what it names, and nothing has a type
// yet. Other crates see it as mathematical trees, which are functions of lists of nodes.
#![tactic(auto)]

pub mod building;
pub mod declarations;
pub mod examples;
pub mod named;
pub mod nodes;
pub mod reading;

pub use building::{NameAndOrders, NamedNodes};
pub use declarations::{NamedConst, NamedMethod, NamedStruct, NamedVar};
pub use named::Named;
pub use nodes::{
    BaseType, NamedCall, NamedCallee, NamedCore, NamedExpr, NamedExprNode, NamedPath, NamedStmt,
    NamedStmtNode, NamedTarget, NamedType, Variable,
};
