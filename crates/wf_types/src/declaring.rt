// What a package declares, as the nodes of a typed package without expressions, statements and bodies.

ghost use Rattle.std.specs.Prelude.{◌≡◌, [], IfOk};
ghost use Rattle.wf_named.specs.NamedParts.{named_package};
ghost use Rattle.wf_types_rules.specs.DeclaredTypes.{status_texts};
ghost use Rattle.wf_types_decls.specs.Packages.{IsJudged};
ghost use Rattle.wf_types.specs.DeclaredNodes.{declared_nodes, without_name_and_orders};

use crate::declared::{methods, structs};
use crate::texts::{seen_statuses, texts_copied};
use std::alloc::Global;
use wf_ast::{Sequence, TypedNodes};
use wf_named::NamedNodes;
use wf_text::faults::NoMemory;
use wf_types_decls::Judged;

// A package with these texts, in which nothing is declared yet. It gets its name and its orders later.
fn nothing_declared(
    alloc: Global,
    nodes: &NamedNodes,
    statuses: &[Sequence<u8>],
) -> Result<TypedNodes, NoMemory>
    requires { statuses.now ≡ status_texts (named_package nodes.now) }
    ensures { IfOk result (λ all. all ≡ without_name_and_orders (record (declared_nodes nodes.now) { structs = []; methods = [] })) }
{
    let statuses = seen_statuses(alloc, nodes, statuses)?;
    let texts = texts_copied(alloc, nodes)?;
    Ok(TypedNodes {
        package: Sequence::new(alloc),
        statuses,
        texts,
        exprs: Sequence::new(alloc),
        types: Sequence::new(alloc),
        constants: Sequence::new(alloc),
        stmts: Sequence::new(alloc),
        structs: Sequence::new(alloc),
        methods: Sequence::new(alloc),
        bodies: Sequence::new(alloc),
        first_locals: Sequence::new(alloc),
        order: Sequence::new(alloc),
        struct_order: Sequence::new(alloc),
    })
}

/// What a package declares that was judged, but for its name and its orders. `Err` also comes where it has more texts than there
/// are numbers.
pub(crate) fn declared(
    alloc: Global,
    nodes: &NamedNodes,
    judged: &Judged,
) -> Result<TypedNodes, NoMemory>
    requires { IsJudged (named_package nodes.now) judged.now }
    ensures { IfOk result (λ all. all ≡ without_name_and_orders (declared_nodes nodes.now)) }
{
    let mut all = nothing_declared(alloc, nodes, judged.around.statuses.as_slice())?;
    all.structs = structs(alloc, nodes, judged.fields.as_slice())?;
    all.methods = methods(alloc, nodes, judged.heads.as_slice())?;
    Ok(all)
}
