// The nodes of the parsed tree: what a package's files say by the grammar, with the places at which a later
// rule may refuse the package. A literal, a path or a status stands at its first token, an operator at its
// first operator sign, an index or a slice at its `[`, a call at its method's name, and a statement at its
// first token. Parentheses leave no trace.

use crate::numbers::{ExprId, StmtId, TextId};
use crate::operators::Op;
use crate::sequences::Sequence;
use wf_text::Place;

/// A name or a quoted text, as it stands in a file.
#[derive(Clone, Copy, PartialEq, Eq)]
pub struct Name {
    pub text: TextId,
    pub at: Place,
}

/// What stands before a path's name.
#[derive(Clone, Copy, PartialEq, Eq)]
pub enum Root {
    /// Nothing: a local or a constant.
    Bare,
    /// `this.`: a field.
    This,
    /// `args.`: an argument.
    Args,
}

/// A name with what stands before it. `at` is the path's first token.
#[derive(Clone, Copy, PartialEq, Eq)]
pub struct Path {
    pub root: Root,
    pub name: Name,
    pub at: Place,
}

/// The mark of a declaration or a call, as it is written.
#[derive(Clone, Copy, PartialEq, Eq)]
pub enum WrittenMark {
    /// No mark.
    Unmarked,
    /// `!`
    Exclamation,
    /// `?`
    Question,
}

/// What a call is made on. `This` has the place of the word.
#[derive(Clone, Copy, PartialEq, Eq)]
pub enum Receiver {
    This(Place),
    Path(Path),
}

/// An argument of a call, or an expression given to an axiom.
#[derive(Clone, Copy, PartialEq, Eq)]
pub struct Given {
    pub name: Name,
    pub value: ExprId,
}

/// A call; its place is that of the method's name.
#[derive(Drop)]
pub struct Call {
    pub on: Receiver,
    pub method: Name,
    pub mark: WrittenMark,
    pub args: Sequence<Given>,
}

/// An operator sign of a chain with the operand after it.
#[derive(Clone, Copy, PartialEq, Eq)]
pub struct Link {
    pub sign: Place,
    pub operand: ExprId,
}

/// What a type may begin with: `slice`, or `array` with its length in brackets.
#[derive(Clone, Copy, PartialEq, Eq)]
pub enum Prefix {
    Slice(Place),
    Array { length: ExprId, at: Place },
}

/// What a type ends with: `base.` and a name or the word `status`, or the name of a struct. `at` is the place
/// of `base`.
#[derive(Clone, Copy, PartialEq, Eq)]
pub enum Core {
    Base { name: Name, at: Place },
    BaseStatus { at: Place },
    Struct(Name),
}

/// The bounds of a refined type. An absent `low` means 0.
#[derive(Clone, Copy, PartialEq, Eq)]
pub struct Bounds {
    pub low: Option<ExprId>,
    pub high: ExprId,
}

/// A type: its prefixes from the left, its core, and the bounds after a core that begins with `base`.
#[derive(Drop)]
pub struct TypeExpr {
    pub prefixes: Sequence<Prefix>,
    pub core: Core,
    pub bounds: Option<Bounds>,
}

/// An expression. The place stands beside it in its node.
#[derive(Drop)]
pub enum Expr {
    Number(u64),
    /// A status of the package, by its text.
    OwnStatus(Name),
    /// `base.` and a text: a status of the language.
    BaseStatus(Name),
    Fine,
    Truth(bool),
    Path(Path),
    Index {
        base: Path,
        index: ExprId,
    },
    Slice {
        base: Path,
        from: Option<ExprId>,
        to: Option<ExprId>,
    },
    Call(Call),
    /// One operator between two or more operands, in order: the first, and each other one with the sign before
    /// it.
    Chain {
        op: Op,
        first: ExprId,
        links: Sequence<Link>,
    },
    Convert {
        of: ExprId,
        to: TypeExpr,
    },
    Not(ExprId),
}

/// An expression with its place.
#[derive(Drop)]
pub struct ExprNode {
    pub expr: Expr,
    pub at: Place,
}

/// What is written to. `at` of an element is the place of its `[`.
#[derive(Clone, Copy, PartialEq, Eq)]
pub enum Target {
    Path(Path),
    Element {
        base: Path,
        index: ExprId,
        at: Place,
    },
}

/// Statements in order, up to the closing brace.
#[derive(Drop)]
pub struct Block {
    pub items: Sequence<StmtId>,
    pub close: Place,
}

/// A condition of an `if` with the statements that it guards.
#[derive(Drop)]
pub struct Arm {
    pub condition: ExprId,
    pub body: Block,
}

/// The kinds of conditions that a loop may promise.
#[derive(Clone, Copy, PartialEq, Eq)]
pub enum Clause {
    Pre,
    Inv,
    Post,
}

/// A promise of a loop. `at` is the place of its word.
#[derive(Clone, Copy, PartialEq, Eq)]
pub struct LoopClause {
    pub kind: Clause,
    pub condition: ExprId,
    pub at: Place,
}

/// The axiom that an assertion names, with what is given to it.
#[derive(Drop)]
pub struct Via {
    pub axiom: Name,
    pub given: Sequence<Given>,
}

/// A statement. Its place, that of its first token, stands beside it in its node.
#[derive(Drop)]
pub enum Stmt {
    Var {
        name: Name,
        of: TypeExpr,
    },
    /// `=`, or an operator followed by `=`; `sign` is the place of that token.
    Assign {
        target: Target,
        op: Option<Op>,
        sign: Place,
        value: ExprId,
    },
    /// `=?`
    Keep {
        target: Target,
        call: Call,
    },
    Call(Call),
    If {
        arms: Sequence<Arm>,
        otherwise: Option<Block>,
    },
    While {
        label: Option<Name>,
        condition: ExprId,
        clauses: Sequence<LoopClause>,
        body: Block,
    },
    Break(Option<Name>),
    Continue(Option<Name>),
    /// Without a value also where `nothing` is written.
    Return(Option<ExprId>),
    Yield(ExprId),
    Assert {
        goal: ExprId,
        via: Option<Via>,
    },
}

/// A statement with its place.
#[derive(Drop)]
pub struct StmtNode {
    pub stmt: Stmt,
    pub at: Place,
}

/// A field of a struct or an argument of a method.
#[derive(Drop)]
pub struct Field {
    pub name: Name,
    pub of: TypeExpr,
}

/// A declaration. The fields of a struct are those of its two lists, in order.
#[derive(Drop)]
pub enum Decl {
    Status(Name),
    Const {
        name: Name,
        of: TypeExpr,
        value: ExprId,
    },
    Struct {
        name: Name,
        mark: WrittenMark,
        fields: Sequence<Field>,
    },
    Method {
        of: Name,
        name: Name,
        mark: WrittenMark,
        args: Sequence<Field>,
        gives: Option<TypeExpr>,
        body: Block,
    },
}

/// A declaration with what stands before it: whether it is `pub`, and the place of its word `status`,
/// `const`, `struct` or `func`.
#[derive(Drop)]
pub struct DeclNode {
    pub public: bool,
    pub decl: Decl,
    pub at: Place,
}
