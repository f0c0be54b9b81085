// What a walk over the resolved tree answers.

use wf_ast::{ExprId, ExprNode};
use wf_types_rules::{Meaning, PlacedMeaning};

/// An expression whose nodes are there: the number of its node, and what it means, with its place.
#[derive(Clone, Copy, PartialEq, Eq)]
pub struct Elaborated {
    pub node: ExprId,
    pub value: PlacedMeaning,
}

/// The node of an expression whose parts are there, and what the expression means.
#[derive(Drop)]
pub(crate) struct MadeNode {
    pub node: ExprNode,
    pub of: Option<Meaning>,
}
