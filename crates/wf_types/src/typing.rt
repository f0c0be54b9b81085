// The typed tree of a resolved package, where the package breaks no rule of types and effects; else the first
// refusal.

ghost use Rattle.std.specs.Prelude.{◌≡◌, ◌&&◌, true, None, IfErr, IfOk};
ghost use Rattle.wf_ast.specs.StatementOrder.{stand_in_order};
ghost use Rattle.wf_ast.specs.TypedInvariant.{IsTyped};
ghost use Rattle.wf_ast.specs.TypedPackage.{package_of};
ghost use Rattle.wf_named.specs.NamedParts.{named_package};
ghost use Rattle.wf_named.specs.WellNamed.{well_named};
ghost use Rattle.wf_named.specs.Grammar.{package_by_grammar};
ghost use Rattle.wf_types_rules.specs.FirstBreak.{deciding};
ghost use Rattle.wf_typed_tree.specs.ElaboratedPackage.{typed_package};
ghost use Rattle.wf_types_decls.specs.Packages.{IsJudged};
ghost use Rattle.wf_types.specs.Bodies.{AreRightBodies, IsWhole, finished, has_numbers as are_numbered, without_bodies};
ghost use Rattle.wf_types.specs.DeclaredNodes.{declared_nodes};
ghost use Rattle.wf_typed_tree.specs.Entries as known;
ghost use Rattle.wf_typed_tree.specs.Entries.{package_entries};
ghost use Rattle.wf_types.specs.Locals.{AreRightLocals};
ghost use Rattle.wf_types.specs.Typing.{IsMistyped, IsElaborated};

use crate::bodies::{MadeBodies, elaborate_bodies};
use crate::declaring::declared;
use std::alloc::Global;
use wf_ast::{Sequence, Typed, TypedNodes};
use wf_named::{NameAndOrders, Named, NamedNodes};
use wf_text::faults::{NoMemory, PhaseFault};
use wf_typed_stmts::BodyBuilding;
use wf_types_decls::{Judged, judge_package};

// How many numbers there are for statuses, for structs and for methods.
const NUMBERS: usize = 4294967296;

// The package with these bodies, and with the name and the orders of the resolved one, which is given up.
fn with_bodies(nodes: TypedNodes, made: MadeBodies, named: NamedNodes) -> TypedNodes
    ensures { result ≡ finished named nodes made.bodies made.first_locals }
{
    let NameAndOrders {
        package_name,
        order,
        struct_order,
    } = named.into_name_and_orders();
    let mut whole = nodes;
    whole.package = Sequence::from_vec(package_name);
    whole.bodies = made.bodies;
    whole.first_locals = made.first_locals;
    whole.order = Sequence::from_vec(order);
    whole.struct_order = Sequence::from_vec(struct_order);
    whole
}

// The nodes of a package that was judged, whose bodies and locals break no rule.
fn whole_nodes(alloc: Global, named: NamedNodes, judged: Judged) -> Result<TypedNodes, NoMemory>
    requires judged { IsJudged (named_package named) judged }
    requires right { AreRightBodies (named_package named) }
    requires paths { AreRightLocals (named_package named) }
    ensures whole { IfOk result (IsWhole named) }
{
    let nodes = declared(alloc, &named, &judged)?;
    let mut building = BodyBuilding::new(alloc, nodes);
    // Beside those of the resolved package, a typed one has expressions for what is assigned or called, and for locals.
    let more = named.stmts().saturating_mul(2);
    building.reserve(named.exprs().saturating_add(more), named.stmts())?;
    let made = elaborate_bodies(alloc, &mut building, &named, judged)?;
    Ok(with_bodies(building.finish(), made, named))
}

// Whether each status, each struct and each method has a number.
fn has_numbers(nodes: &TypedNodes) -> bool
    ensures { result ≡ are_numbered nodes.now }
{
    nodes.statuses.as_slice().len() < NUMBERS
        && nodes.structs.as_slice().len() < NUMBERS
        && nodes.methods.as_slice().len() < NUMBERS
}

// The typed package of one that was judged, and breaks no rule.
fn typed(alloc: Global, named: NamedNodes, judged: Judged) -> Result<Typed, NoMemory>
    requires judged { IsJudged (named_package named) judged }
    requires kept { deciding (named_package named) ≡ None }
    requires names { well_named (named_package named) ≡ true }
    requires grammar { package_by_grammar (named_package named) ≡ true }
    requires placed { stand_in_order (typed_package (named_package named)) ≡ true }
    ensures tree { IfOk result (λ typed. package_of typed ≡ typed_package (named_package named)) }
    ensures declared { IfOk result (λ typed. without_bodies typed ≡ declared_nodes named) }
    ensures entries { IfOk result (λ typed. known.entries typed ≡ package_entries (named_package named)) }
    ensures kept { IfOk result (λ typed. IsTyped typed) }
{
    let nodes = whole_nodes(alloc, named, judged)?;
    if has_numbers(&nodes) {
        Ok(Typed::new(nodes))
    } else {
        Err(NoMemory)
    }
}

/// Gives the types of a package. `Refused` where it breaks rules of types and effects, T1 to T5 and E1 to E5: by the
/// first refusal of all that it breaks. `Memory` where memory was refused,
/// or more is counted than there are numbers for. What the typed package declares has the names, the places and the types of the
/// resolved one. Beside the expressions in bodies, it has one for each local of each method: its path, at the place of its name.
/// What holds of every typed package is told of it too, for the phases after this one.
pub fn type_check(alloc: Global, named: Named) -> Result<Typed, PhaseFault>
    ensures refused { IfErr result (IsMistyped named) }
    ensures typed { IfOk result (IsElaborated named) }
    ensures kept { IfOk result (λ typed. IsTyped typed) }
{
    let nodes = named.into_nodes();
    let judged = judge_package(alloc, &nodes)?;
    match judged.refusal {
        None => Ok(typed(alloc, nodes, judged)?),
        Some(refusal) => Err(PhaseFault::Refused(refusal)),
    }
}
