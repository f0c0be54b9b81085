// What the reader keeps of the tokens that it has read: a stack of these values. Parts of the unit stand by their
// numbers.

use crate::statements::Statement;
use c_text::{
    CArg, CExpr, CExprId, CField, CItem, CList, CLocal, CNameId, CNumber, CParam, CStmtId,
    CStringId, CType, Linkage,
};

/// An operation that may have more operands.
#[derive(Drop)]
pub struct OpenOperation {
    pub(crate) first: CExprId,
    pub(crate) second: CExprId,
    pub(crate) others: CList<CExprId>,
}

/// A test and the block after it.
#[derive(Clone, Copy, PartialEq, Eq)]
pub struct Arm {
    pub(crate) test: CExprId,
    pub(crate) body: CStmtId,
}

/// What a function results in; no type for `void`.
#[derive(Clone, Copy, PartialEq, Eq)]
pub struct Outcome {
    pub(crate) linkage: Linkage,
    pub(crate) of: Option<CType>,
}

/// What a part of the grammar means, or what of it is read so far. Lists are in the order of the text.
#[derive(Drop)]
pub enum SemanticValue {
    /// A name.
    Name(CNameId),
    /// A literal.
    Number(CNumber),
    /// A string.
    Text(CStringId),
    /// An expression.
    Expr(CExprId),
    /// An operation that may have more operands.
    Operation(OpenOperation),
    /// Arguments, as far as they are read.
    Args(CList<CArg>),
    /// A type.
    Type(CType),
    /// A block begins.
    Block,
    /// A whole block.
    Code(CStmtId),
    /// A statement.
    Statement(Statement),
    /// An arm of an `if`.
    Arm(Arm),
    /// A field.
    Field(CField),
    /// Fields, as far as they are read.
    Fields(CList<CField>),
    /// What a function results in.
    Outcome(Outcome),
    /// Parameters, as far as they are read.
    Params(CList<CParam>),
    /// Locals, as far as they are read.
    Locals(CList<CLocal>),
    /// The unit, with the items that are read.
    Unit,
}

/// What an action makes: a value, an expression of the unit, or an item of it.
#[derive(Drop)]
pub(crate) enum Product {
    Value(SemanticValue),
    Expr(CExpr),
    Item(CItem),
}
