// The trees of a package. The parsed tree is what a package's files say by the grammar: names are texts, and
// every place that a rule of names or types may refuse stands in it. In the typed tree every name stands for what it
// names, and each expression has a type. The resolved tree between them is wf_named's. Other crates see trees as
// mathematical ones, which are functions of lists of nodes.
#![tactic(auto)]

pub mod declarations;
mod io_args;
pub mod laws;
mod mentioning;
pub mod numbers;
pub mod operators;
pub mod package_nodes;
pub mod parsed;
pub mod parsed_package;
mod parts;
mod sameness;
pub mod sequences;
pub mod texts;
pub mod things;
pub mod typed;
pub mod typed_code;
pub mod typed_nodes;
pub mod types;
pub mod variables;

pub use declarations::{Method, Struct, Var};
pub use io_args::io_arg;
pub use mentioning::mentions;
pub use numbers::{ExprId, StmtId, TextId};
pub use operators::Op;
pub use package_nodes::PackageNodes;
pub use parsed::Clause;
pub use parsed_package::Package;
pub use sameness::same;
pub use sequences::Sequence;
pub use things::Thing;
pub use typed::Typed;
pub use typed_code::{Arm, AxiomRef, Block, Callee, Expr, ExprNode, LoopHead, Stmt, StmtNode};
pub use typed_nodes::TypedNodes;
pub use types::Ty;
pub use variables::{ArgId, ConstId, FieldId, LocalId};
pub use wf_text::{MethodId, StatusId, StructId};
