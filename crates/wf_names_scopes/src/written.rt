// What declarations say, as they are written.

use wf_ast::ExprId;
use wf_ast::parsed::{Block, Field, Name, TypeExpr};

/// What a constant's declaration says.
#[derive(Clone, Copy)]
pub struct WrittenConst<'a> {
    pub name: Name,
    pub of: &'a TypeExpr,
    pub value: ExprId,
}

/// What of a method's declaration uses names.
#[derive(Clone, Copy)]
pub(crate) struct MethodParts<'a> {
    /// The struct that it is a method of.
    pub owner: Name,
    pub args: &'a [Field],
    pub gives: &'a Option<TypeExpr>,
    pub body: &'a Block,
}
