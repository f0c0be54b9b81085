// What stays the same along a walk.

use std::alloc::Global;
use wf_named::NamedNodes;
use wf_types_rules::Around;

/// The nodes of a resolved package, what stands round the part that is judged, and where lists are made.
#[derive(Clone, Copy)]
pub struct Here<'a> {
    pub alloc: Global,
    pub nodes: &'a NamedNodes,
    pub around: &'a Around<'a>,
}
