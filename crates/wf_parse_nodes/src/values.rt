// What the parser keeps of the tokens that it has read: a stack of these values. Expressions and statements stand
// by the numbers of their nodes.

use wf_ast::parsed::{
    Arm, Block, Bounds, Call, Field, Given, Link, LoopClause, Name, Path, Prefix, Receiver, Target,
    TypeExpr, Via, WrittenMark,
};
use wf_ast::{ExprId, Op, Sequence, StmtId};
use wf_text::Place;

/// The sign of an assignment: `=`, or an operator before it.
#[derive(Clone, Copy)]
pub struct Sign {
    pub(crate) op: Option<Op>,
    pub(crate) at: Place,
}

/// A chain that may go on. `at` is the place of its first operator.
#[derive(Drop)]
pub struct OpenChain {
    pub(crate) op: Op,
    pub(crate) first: ExprId,
    pub(crate) links: Sequence<Link>,
    pub(crate) at: Place,
}

/// What a type that begins with `base` names. `at` is the place of `base`.
#[derive(Clone, Copy)]
pub enum OpenCore {
    Base { name: Name, at: Place },
    Status { at: Place },
}

/// What a part of the grammar means, or what of it is read so far. Lists are in the order of the file.
#[derive(Drop)]
pub enum SemanticValue {
    /// A name or a quoted text.
    Name(Name),
    /// The place of a token.
    Place(Place),
    /// The mark of a call or a declaration.
    Mark(WrittenMark),
    /// Whether a declaration is `pub`.
    Public(bool),
    /// The sign of an assignment.
    Sign(Sign),
    /// A path.
    Path(Path),
    /// What a call is made on.
    Receiver(Receiver),
    /// An expression.
    Expr(ExprId),
    /// An expression that may be absent.
    Part(Option<ExprId>),
    /// A chain that may go on.
    Chain(OpenChain),
    /// Arguments, as far as they are read.
    Givens(Sequence<Given>),
    /// A call.
    Call(Call),
    /// What stands before a type, as far as it is read.
    Prefixes(Sequence<Prefix>),
    /// What a type that begins with `base` names.
    Core(OpenCore),
    /// The bounds of a type.
    Bounds(Option<Bounds>),
    /// A type.
    Type(TypeExpr),
    /// The statements of a block, as far as they are read.
    Items(Sequence<StmtId>),
    /// A block.
    Block(Block),
    /// A statement.
    Stmt(StmtId),
    /// What is written to.
    Target(Target),
    /// The arms of an `if`, as far as they are read.
    Arms(Sequence<Arm>),
    /// The block after a last `else`.
    Otherwise(Option<Block>),
    /// The promises of a loop, as far as they are read.
    Clauses(Sequence<LoopClause>),
    /// The label of a jump.
    Label(Option<Name>),
    /// What an assertion names.
    Via(Option<Via>),
    /// Fields or arguments, as far as they are read.
    Fields(Sequence<Field>),
    /// The result of a method.
    Result(Option<TypeExpr>),
}
