// Facts: what is known at a place of a method. They name expressions by the numbers of their nodes; contracts see what
// they claim of the typed trees.

use wf_ast::ExprId;

/// How two numbers compare.
#[derive(Clone, Copy)]
pub enum Cmp {
    /// `<`
    Lt,
    /// `<=`
    Le,
    /// `==`
    Eq,
    /// `<>`
    Ne,
    /// `>=`
    Ge,
    /// `>`
    Gt,
}

/// One side of a comparison.
#[derive(Clone, Copy)]
pub enum Side {
    /// The value of a numeric expression; that of a constant one is its number.
    Expr(ExprId),
    /// The sum of the values of two numeric expressions, as a whole number without width.
    Sum(ExprId, ExprId),
    /// The length of a slice, an array, a reader or a writer: what `length()` gives.
    Length(ExprId),
    /// A number.
    Num(u64),
}

/// A fact.
#[derive(Clone, Copy)]
pub enum Fact {
    /// The two sides compare so.
    Compare { left: Side, op: Cmp, right: Side },
    /// The condition has this answer: `true` is yes, `false` is no.
    Cond { expr: ExprId, answer: bool },
}
