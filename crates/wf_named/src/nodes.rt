// The nodes of the resolved tree: what a package's files say, with every name standing for what it names, before
// anything has a type. It has the shape of the parsed tree and its places. A constant expression has no number yet,
// and a type may still be none of the language.

use wf_ast::parsed::{Arm, Block, Bounds, Link, LoopClause, Prefix, Via};
use wf_ast::{ArgId, ConstId, ExprId, FieldId, LocalId, Op, Sequence};
use wf_base::{BaseSig, Mark, Width};
use wf_text::{MethodId, Place, StatusId, StructId};

/// What a path names.
#[derive(Clone, Copy, PartialEq, Eq)]
pub enum Variable {
    Const(ConstId),
    Local(LocalId),
    /// A field of the receiver.
    Field(FieldId),
    Arg(ArgId),
}

/// A path that stands for what it names. `at` is its first token.
#[derive(Clone, Copy, PartialEq, Eq)]
pub struct NamedPath {
    pub of: Variable,
    pub at: Place,
}

/// A type of the language that has a name after `base.`.
#[derive(Clone, Copy, PartialEq, Eq)]
pub enum BaseType {
    Number(Width),
    /// `base.bool`
    Flag,
    /// `base.status`
    Status,
    /// `base.io_reader`
    Reader,
    /// `base.io_writer`
    Writer,
}

/// What a type ends with. `at` is the place of `base`, or of the struct's name.
#[derive(Clone, Copy, PartialEq, Eq)]
pub enum NamedCore {
    /// `of` is None where the language has no type of this name.
    Base { of: Option<BaseType>, at: Place },
    Struct { of: StructId, at: Place },
}

/// A type: its prefixes from the left, its core, and the bounds after a core that begins with `base`.
#[derive(Drop)]
pub struct NamedType {
    pub prefixes: Sequence<Prefix>,
    pub core: NamedCore,
    pub bounds: Option<Bounds>,
}

/// What is called.
#[derive(Clone, Copy, PartialEq, Eq)]
pub enum NamedCallee {
    /// A method of the receiver's own struct.
    Own(MethodId),
    /// A method of the struct that stands in a field of the receiver.
    Sub { field: FieldId, method: MethodId },
    /// A base method, on what a path names.
    Base { on: NamedPath, sig: BaseSig },
}

/// A call. `at` is the place of the method's name, and `mark` the one that is written. There is an argument for each
/// that the method declares, in the order of its declaration.
#[derive(Drop)]
pub struct NamedCall {
    pub callee: NamedCallee,
    pub at: Place,
    pub mark: Mark,
    pub args: Sequence<ExprId>,
}

/// An expression. The place stands beside it in its node: a literal, a path or a status stands at its first token, an
/// operator at its first sign, an index or a slice at its `[`, and a call at its method's name.
#[derive(Drop)]
pub enum NamedExpr {
    Number(u64),
    /// `ok`, a status of the language or one of the package.
    Status(StatusId),
    Truth(bool),
    Path(NamedPath),
    Index {
        base: NamedPath,
        index: ExprId,
    },
    Slice {
        base: NamedPath,
        from: Option<ExprId>,
        to: Option<ExprId>,
    },
    Call(NamedCall),
    /// One operator between two or more operands, in order: the first, and each other one with the sign before
    /// it.
    Chain {
        op: Op,
        first: ExprId,
        links: Sequence<Link>,
    },
    Convert {
        of: ExprId,
        to: NamedType,
    },
    Not(ExprId),
}

/// An expression with its place.
#[derive(Drop)]
pub struct NamedExprNode {
    pub expr: NamedExpr,
    pub at: Place,
}

/// What is written to. `at` of an element is the place of its `[`.
#[derive(Clone, Copy, PartialEq, Eq)]
pub enum NamedTarget {
    Path(NamedPath),
    Element {
        base: NamedPath,
        index: ExprId,
        at: Place,
    },
}

/// A statement. Its place, that of its first token, stands beside it in its node. The locals of a method stand with its
/// declaration, so no `var` is here.
#[derive(Drop)]
pub enum NamedStmt {
    /// `=`, or an operator followed by `=`; `sign` is the place of that token.
    Assign {
        target: NamedTarget,
        op: Option<Op>,
        sign: Place,
        value: ExprId,
    },
    /// `=?`
    Keep {
        target: NamedTarget,
        call: NamedCall,
    },
    Call(NamedCall),
    If {
        arms: Sequence<Arm>,
        otherwise: Option<Block>,
    },
    While {
        condition: ExprId,
        clauses: Sequence<LoopClause>,
        body: Block,
    },
    /// The loop that is left, by how many loops stand between it and the statement: 0 is the innermost one.
    Break(u32),
    /// The loop that goes on, counted likewise.
    Continue(u32),
    /// Without a value also where `nothing` is written.
    Return(Option<ExprId>),
    Yield(ExprId),
    Assert {
        goal: ExprId,
        via: Option<Via>,
    },
}

/// A statement with its place.
#[derive(Drop)]
pub struct NamedStmtNode {
    pub stmt: NamedStmt,
    pub at: Place,
}
