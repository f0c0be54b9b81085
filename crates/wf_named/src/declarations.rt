// The declarations of the resolved tree, each with its name.

use crate::nodes::NamedType;
use wf_ast::parsed::{Block, Name};
use wf_ast::{ExprId, Sequence};
use wf_base::Mark;
use wf_text::StructId;

/// A field, an argument or a local.
#[derive(Drop)]
pub struct NamedVar {
    pub name: Name,
    pub of: NamedType,
}

/// A constant.
#[derive(Drop)]
pub struct NamedConst {
    pub name: Name,
    pub of: NamedType,
    pub value: ExprId,
}

/// A struct.
#[derive(Drop)]
pub struct NamedStruct {
    pub name: Name,
    pub public: bool,
    pub fields: Sequence<NamedVar>,
}

/// A method. `mark` is the declared one, and `gives` the written result.
#[derive(Drop)]
pub struct NamedMethod {
    pub name: Name,
    pub of: StructId,
    pub public: bool,
    pub mark: Mark,
    pub args: Sequence<NamedVar>,
    pub locals: Sequence<NamedVar>,
    pub gives: Option<NamedType>,
    pub body: Block,
}
