// The resolved tree of a parsed package, where the package breaks no rule of names; else the first refusal.

ghost use Rattle.std.specs.Prelude.{◌≡◌, None, IfErr, IfOk};
ghost use Rattle.wf_ast.specs.ReadPackage.{IsRead};
ghost use Rattle.wf_names.specs.Naming.{AreFindings, IsMisnamed, IsResolved};
ghost use Rattle.wf_names_rules.specs.Declarations.{declared_in};

use crate::findings::{Findings, look_through};
use std::alloc::Global;
use wf_ast::{Package, PackageNodes};
use wf_named::{Named, NamedNodes};
use wf_names_nodes::packages::resolve_package;
use wf_text::faults::{NoMemory, PhaseFault};

// The nodes of the resolved package of one that breaks no rule, by what was found of it.
fn resolved_nodes(
    alloc: Global,
    parsed: &PackageNodes,
    found: Findings,
) -> Result<NamedNodes, NoMemory>
    requires found { AreFindings (declared_in parsed.now) found }
    requires kept { found.refusal ≡ None }
    ensures { IfOk result (IsResolved parsed.now) }
{
    let Findings {
        refusal: _,
        tables,
        order,
        struct_order,
    } = found;
    resolve_package(alloc, parsed, &tables, order, struct_order)
}

// The same as a package that is known to be well named.
fn resolved(alloc: Global, parsed: &PackageNodes, found: Findings) -> Result<Named, NoMemory>
    requires read { IsRead parsed.now }
    requires found { AreFindings (declared_in parsed.now) found }
    requires kept { found.refusal ≡ None }
    ensures { IfOk result (IsResolved parsed.now) }
{
    let nodes = resolved_nodes(alloc, parsed, found)?;
    Ok(Named::new(nodes))
}

/// Resolves the names of a package. `Refused` where it breaks rules of names, N1 to N8, L6 and L7: by the
/// first refusal of all that it breaks. `Memory` where memory was refused, or
/// more is named than there are numbers for.
pub fn resolve(alloc: Global, parsed: Package) -> Result<Named, PhaseFault>
    ensures refused { IfErr result (IsMisnamed parsed) }
    ensures resolved { IfOk result (IsResolved parsed) }
{
    let nodes = parsed.nodes();
    let found = look_through(alloc, nodes)?;
    match found.refusal {
        Some(refusal) => Err(PhaseFault::Refused(refusal)),
        None => Ok(resolved(alloc, nodes, found)?),
    }
}
