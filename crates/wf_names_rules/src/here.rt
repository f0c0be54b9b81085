// What stays the same along a walk.

use crate::tables::{Scope, Tables};
use wf_ast::PackageNodes;

/// A package, what it knows, and what is known at a place in it besides.
#[derive(Clone, Copy)]
pub struct Here<'a> {
    pub parsed: &'a PackageNodes,
    pub tables: &'a Tables,
    pub scope: &'a Scope,
}
