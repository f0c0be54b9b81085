// The numbers by which a package's texts and the nodes of its trees are named.

/// A text of the package, a name or the bytes between two quotes: its place, from 0, in the order in which
/// the texts are first seen. Equal texts have equal numbers.
#[derive(Clone, Copy, PartialEq, Eq)]
pub struct TextId(pub u32);

/// An expression: its place, from 0, among the expression nodes of its tree. A part has a smaller number
/// than its whole.
#[derive(Clone, Copy, PartialEq, Eq)]
pub struct ExprId(pub u32);

/// A statement: its place, from 0, among the statement nodes of its tree. A part has a smaller number than
/// its whole.
#[derive(Clone, Copy, PartialEq, Eq)]
pub struct StmtId(pub u32);
