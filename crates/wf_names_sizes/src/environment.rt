// What gives names in constant expressions their values.

use crate::numbers::ConstantValue;
use indexmap::IndexMap;
use wf_ast::PackageNodes;
use wf_names_rules::tables::Variables;

/// The constants of a package that have values here, and the locals that hide them.
#[derive(Clone, Copy)]
pub(crate) struct Environment<'a> {
    pub parsed: &'a PackageNodes,
    pub constants: &'a IndexMap<u32, Option<ConstantValue>>,
    /// The locals of the method; None outside methods, where nothing is hidden.
    pub locals: Option<&'a Variables>,
}
