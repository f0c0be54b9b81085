// An expression of the typed tree with all that is known of it.

use wf_ast::{ExprNode, Ty};

/// The node of an expression, its type, and its number where it is constant.
#[derive(Drop)]
pub struct TypedExpr {
    pub node: ExprNode,
    pub ty: Ty,
    pub constant: Option<u64>,
}
