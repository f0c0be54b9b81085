// What a walk has found so far.

use graphs::rows::Row;
use wf_ast::parsed::Name;
use wf_text::found::Found;

/// The first refusal so far, and whether all names that were used have a meaning.
#[derive(Clone, Copy)]
pub struct Seen {
    pub found: Found,
    pub known: bool,
}

/// What a walk over bodies gathers beside what their uses of names break.
#[derive(Drop)]
pub struct Gathered {
    /// The methods that are called, by their numbers, in order and each as often as it is called.
    pub row: Row,
    /// The loops that stand round the next statement, the outermost first, each with its label if it has one.
    pub loops: Vec<Option<Name>>,
    /// The first refusal of the loops and the jumps so far.
    pub labels: Found,
}
