// What the machine of the C grammar still wants: parts of the grammar, what is left of a part after its first
// tokens, and single tokens.

use c_text::{CMark, COp, Linkage};

/// A part of an expression or of the arguments of a call.
#[derive(Clone, Copy, PartialEq, Eq)]
pub enum ExprSym {
    /// An expression.
    Expr,
    /// An expression that isn't a literal.
    Post,
    /// Any number of `->` NAME and `[` expr `]`.
    Tail,
    /// The same, at least one.
    FirstTail,
    /// What is left of an expression after its `(`.
    Paren,
    /// What is left of an expression after `(` NAME.
    ParenName,
    /// What is left of an expression after `( (`.
    ParenParen,
    /// What is left of an expression after `( (` NAME.
    ParenParenName,
    /// What is left of an expression after `( (` NAME `*`.
    ParenParenStar,
    /// What is left of an expression after `(` and its first operand.
    Operator,
    /// More operands of this operator, where it repeats, and `)`.
    Operands(COp),
    /// The arguments of a call and its `)`.
    Args,
    /// An argument.
    Arg,
    /// What is left of the arguments after one, and `)`.
    MoreArgs,
}

/// A part of a statement or block.
#[derive(Clone, Copy, PartialEq, Eq)]
pub enum StmtSym {
    /// The statements of a block and its `}`.
    Stmts,
    /// A statement.
    Stmt,
    /// What is left of a statement after a NAME.
    StmtName,
    /// What is left of a statement after a `(`.
    StmtParen,
    /// `=` and what is assigned.
    Becomes,
    /// What is assigned, after the `=`.
    Value,
    /// The same, after its NAME.
    ValueName,
    /// What is left of a `return` after its word.
    Returned,
    /// What may follow the block of an `if`.
    Else,
    /// What is left of an `else` after its word.
    ElseTail,
}

/// A part of an item.
#[derive(Clone, Copy, PartialEq, Eq)]
pub enum ItemSym {
    /// Any number of items.
    Unit,
    /// What is left of an item after `static`.
    StaticItem,
    /// A function, from its result type on.
    Returns(Linkage),
    /// What is left of an item after `static const char`.
    ConstChar,
    /// The parameters of a function and its `)`.
    Params,
    /// A parameter.
    Param,
    /// What is left of the parameters after one, and `)`.
    MoreParams,
    /// The locals and the statements of a function and its `}`.
    Body,
    /// The same, after a NAME.
    BodyName,
    /// What is left of a local after its name.
    LocalEnd,
    /// A field.
    Field,
    /// What is left of a field after the NAME that begins its type.
    FieldName,
    /// What is left of a field after its name.
    FieldEnd,
    /// What is left of the fields after one, and `}`.
    MoreFields,
}

/// A single token.
#[derive(Clone, Copy, PartialEq, Eq)]
pub enum TokenSym {
    /// A name.
    Name,
    /// A literal.
    Number,
    /// A string.
    Quoted,
    /// `struct`
    StructWord,
    /// `char`
    CharWord,
    /// `*`
    Star,
    /// `*`, or nothing.
    MaybeStar,
    /// This mark.
    Mark(CMark),
}

/// What is read next.
#[derive(Clone, Copy, PartialEq, Eq)]
pub enum Sym {
    /// A part of an expression.
    Expr(ExprSym),
    /// A part of a statement.
    Stmt(StmtSym),
    /// A part of an item.
    Item(ItemSym),
    /// A token.
    Token(TokenSym),
}
