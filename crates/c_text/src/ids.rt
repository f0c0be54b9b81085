// The numbers by which the parts of a unit are named. Each is made by one unit and means nothing in another.

/// An expression of a unit.
#[derive(Clone, Copy, PartialEq, Eq)]
pub struct CExprId(pub usize);

/// A statement of a unit, with the statements that follow it in its block.
#[derive(Clone, Copy, PartialEq, Eq)]
pub struct CStmtId(pub usize);

/// An item of a unit: its place, from 0, in the text.
#[derive(Clone, Copy, PartialEq, Eq)]
pub struct CItemId(pub usize);

/// A name of a unit. Two names have one number exactly where they are spelt alike.
#[derive(Clone, Copy, PartialEq, Eq)]
pub struct CNameId(pub usize);

/// The bytes of a string literal of a unit, without its quotes.
#[derive(Clone, Copy, PartialEq, Eq)]
pub struct CStringId(pub usize);
