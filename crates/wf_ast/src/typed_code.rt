// The expressions and statements of the typed tree: every name stands for what it names. Parts are told by the numbers of
// their nodes, which are smaller than that of the whole.

use crate::numbers::{ExprId, StmtId, TextId};
use crate::operators::Op;
use crate::parsed::Clause;
use crate::sequences::Sequence;
use crate::variables::{ArgId, ConstId, FieldId, LocalId};
use wf_base::{BaseSig, Width};
use wf_text::{MethodId, Place, StatusId};

/// An expression.
#[derive(Drop)]
pub enum Expr {
    Number(u64),
    Const(ConstId),
    Status(StatusId),
    Truth(bool),
    Local(LocalId),
    /// A field of the receiver.
    Field(FieldId),
    Arg(ArgId),
    /// An element of an array or a slice.
    Index {
        base: ExprId,
        at: ExprId,
    },
    /// The elements of an array or a slice from `from` on up to `to`; absent ends are 0 and the length.
    Cut {
        base: ExprId,
        from: Option<ExprId>,
        to: Option<ExprId>,
    },
    /// One operator between two or more operands, in order.
    Chain {
        op: Op,
        parts: Sequence<ExprId>,
    },
    /// `as`
    Convert {
        of: ExprId,
        to: Width,
    },
    Not(ExprId),
    /// A base method without a mark.
    Base {
        on: ExprId,
        sig: BaseSig,
    },
}

/// An expression with its place, and the places of its operator signs, in order.
#[derive(Drop)]
pub struct ExprNode {
    pub expr: Expr,
    pub at: Place,
    pub signs: Sequence<Place>,
}

/// What a statement calls.
#[derive(Clone, Copy, PartialEq, Eq)]
pub enum Callee {
    /// A method of the receiver.
    Own(MethodId),
    /// A base method, of what `on` names.
    Base { on: ExprId, sig: BaseSig },
    /// A public method of what stands in a field of struct type.
    Sub { field: FieldId, method: MethodId },
}

/// Statements in order.
#[derive(Drop)]
pub struct Block {
    pub items: Sequence<StmtId>,
}

/// A condition of an `if` with the statements that it guards.
#[derive(Drop)]
pub struct Arm {
    pub cond: ExprId,
    pub body: Block,
}

/// What stands before a loop's body. `has_break` tells whether a `break` leaves this loop.
#[derive(Drop)]
pub struct LoopHead {
    pub cond: ExprId,
    pub clauses: Sequence<(Clause, ExprId)>,
    pub has_break: bool,
}

/// An axiom by its text, whose opening quote stands at `at`, and the expressions that are given for its letters.
#[derive(Drop)]
pub struct AxiomRef {
    pub name: TextId,
    pub at: Place,
    pub given: Sequence<(TextId, ExprId)>,
}

/// A statement.
#[derive(Drop)]
pub enum Stmt {
    /// With an operator, `value` is the node of the operator between the target and what stands after the sign.
    Assign {
        target: ExprId,
        op: Option<Op>,
        value: ExprId,
    },
    /// `keep` is told by `=?`: the target takes whatever status the call comes to.
    Call {
        target: Option<ExprId>,
        keep: bool,
        callee: Callee,
        args: Sequence<ExprId>,
    },
    If {
        arms: Sequence<Arm>,
        otherwise: Option<Block>,
    },
    While {
        head: LoopHead,
        body: Block,
    },
    /// The loop that is left.
    Break(StmtId),
    /// The loop that goes on.
    Continue(StmtId),
    Return(Option<ExprId>),
    Yield(StatusId),
    Assert {
        goal: ExprId,
        axiom: Option<AxiomRef>,
    },
}

/// A statement with the place of its first token. `inner` is the second place that rules name: of a call that of
/// its method's name, of a loop that of its body's closing brace, and of every other statement the first again.
#[derive(Drop)]
pub struct StmtNode {
    pub stmt: Stmt,
    pub at: Place,
    pub inner: Place,
}
