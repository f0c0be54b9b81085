// What stays the same along a walk over the declarations of a package.

use crate::numbers::ConstantValue;
use indexmap::IndexMap;
use wf_ast::PackageNodes;
use wf_names_rules::tables::Tables;

/// A package, its tables, and the values of its constants.
#[derive(Clone, Copy)]
pub(crate) struct Setting<'a> {
    pub parsed: &'a PackageNodes,
    pub tables: &'a Tables,
    pub constants: &'a IndexMap<u32, Option<ConstantValue>>,
}
