// What an expression may mention.

use crate::variables::{ArgId, FieldId, LocalId};

/// A variable, or all of one kind.
#[derive(Clone, Copy, PartialEq, Eq)]
pub enum Thing {
    Local(LocalId),
    Field(FieldId),
    Arg(ArgId),
    /// Any field.
    This,
    /// Any argument.
    Args,
    /// Any element of an array or a slice.
    Element,
    /// Any local that is a slice.
    SliceLocals,
}
