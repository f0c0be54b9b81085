// A walk through the statements of a method.

use std::alloc::Global;
use wf_ast::{StmtId, Typed};
use wf_text::MethodId;

/// What stays the same along a walk: the package, the method, and the statement that is looked for, if one is.
#[derive(Clone, Copy)]
pub(crate) struct Walk<'a> {
    pub(crate) alloc: Global,
    pub(crate) t: &'a Typed,
    pub(crate) m: MethodId,
    pub(crate) sought: Option<StmtId>,
}
