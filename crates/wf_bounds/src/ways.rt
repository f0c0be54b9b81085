// Where a walk through statements has come.

/// Where a walk has come.
#[derive(Clone, Copy, PartialEq, Eq)]
pub(crate) enum Way {
    /// Past the statements, which go on.
    GoesOn,
    /// Past the statements, of which one never goes on.
    Stops,
    /// To the statement that is looked for.
    Found,
}
