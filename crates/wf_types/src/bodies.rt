// The bodies of a package's methods, one after the other.

ghost use Rattle.std.specs.Prelude.{◌≡◌, [], length, IfOk, OnOk};
ghost use Rattle.wf_named.specs.NamedParts.{exprs_of, stmts_of, named_package, NamedMethodBelow};
ghost use Rattle.wf_named.specs.NamedTrees.{method_made};
ghost use Rattle.wf_types_rules.specs.DeclaredTypes.{in_method};
ghost use Rattle.wf_types_decls.specs.Packages.{IsJudged};
ghost use Rattle.wf_typed_tree.specs.Entries.{method_entries};
ghost use Rattle.wf_typed_exprs.specs.Growth.{AddsEntries};
ghost use Rattle.wf_typed_stmts.specs.Right.{known_in, IsRightBlock};
ghost use Rattle.wf_typed_stmts.specs.StmtGrowth.{Adds, IsBegun, StandsForBlock};
ghost use Rattle.wf_types.specs.Bodies.{AreRightBodies, BodiesMade};
ghost use Rattle.wf_types.specs.DeclaredNodes.{declared_nodes, without_name_and_orders};
ghost use Rattle.wf_types.specs.Locals.{places_of, HaveNodes, AreRightPaths, MethodsHaveNodes, AreRightLocals};

use crate::locals::elaborate_locals;
use std::alloc::Global;
use wf_ast::{Block, ExprId, Sequence};
use wf_named::{NamedMethod, NamedNodes};
use wf_text::faults::NoMemory;
use wf_typed_stmts::{BodyBuilding, elaborate_body};
use wf_types_decls::Judged;
use wf_types_decls::packages::round_body;
use wf_types_exprs::Here;

// The body of a method, and the expression that is its first local.
#[derive(Drop)]
struct MadeBody {
    body: Block,
    first_local: ExprId,
}

/// The bodies of all methods, and the expressions that are their first locals.
#[derive(Drop)]
pub(crate) struct MadeBodies {
    pub bodies: Sequence<Block>,
    pub first_locals: Sequence<ExprId>,
}

// Adds the nodes of a method: of the names of its locals, and after them those of its body. `here` knows what stands round the body.
fn elaborate_method(
    here: &Here<'_>,
    nodes: &mut BodyBuilding,
    method: &NamedMethod,
) -> Result<MadeBody, NoMemory>
    requires inside { here.now.around.now ≡ in_method (named_package here.now.nodes.now) (method_made here.now.nodes.now.texts (exprs_of here.now.nodes.now) (stmts_of here.now.nodes.now) method.now) }
    requires below { NamedMethodBelow (length here.now.nodes.now.texts) (length here.now.nodes.now.exprs) (length here.now.nodes.now.stmts) method.now }
    requires begun { IsBegun here.now.nodes.now nodes.old }
    requires right { IsRightBlock (in_method (named_package here.now.nodes.now) (method_made here.now.nodes.now.texts (exprs_of here.now.nodes.now) (stmts_of here.now.nodes.now) method.now)) (known_in (named_package here.now.nodes.now)) 0 (method_made here.now.nodes.now.texts (exprs_of here.now.nodes.now) (stmts_of here.now.nodes.now) method.now).body }
    requires paths { AreRightPaths (in_method (named_package here.now.nodes.now) (method_made here.now.nodes.now.texts (exprs_of here.now.nodes.now) (stmts_of here.now.nodes.now) method.now)) (known_in (named_package here.now.nodes.now)).statuses (places_of (method_made here.now.nodes.now.texts (exprs_of here.now.nodes.now) (stmts_of here.now.nodes.now) method.now).locals) }
    ensures adds { OnOk result (Adds [] nodes.old nodes.new) }
    ensures entries { OnOk result (AddsEntries nodes.old nodes.new (method_entries (named_package here.now.nodes.now) (method_made here.now.nodes.now.texts (exprs_of here.now.nodes.now) (stmts_of here.now.nodes.now) method.now))) }
    ensures begun { OnOk result (IsBegun here.now.nodes.now nodes.new) }
    ensures stands { IfOk result (λ made. StandsForBlock (in_method (named_package here.now.nodes.now) (method_made here.now.nodes.now.texts (exprs_of here.now.nodes.now) (stmts_of here.now.nodes.now) method.now)) [] (length nodes.old.stmts) (method_made here.now.nodes.now.texts (exprs_of here.now.nodes.now) (stmts_of here.now.nodes.now) method.now).body nodes.new made.body) }
    ensures locals { IfOk result (λ made. HaveNodes (in_method (named_package here.now.nodes.now) (method_made here.now.nodes.now.texts (exprs_of here.now.nodes.now) (stmts_of here.now.nodes.now) method.now)) nodes.new made.first_local.0 (places_of (method_made here.now.nodes.now.texts (exprs_of here.now.nodes.now) (stmts_of here.now.nodes.now) method.now).locals)) }
{
    let first_local = nodes.next_expr();
    elaborate_locals(here, nodes, method.locals.as_slice())?;
    let body = elaborate_body(here, nodes, &method.body)?;
    Ok(MadeBody { body, first_local })
}

/// Adds the nodes of the locals and of the bodies of all methods of a package that was judged, and answers the blocks of their
/// bodies with the expressions that are their first locals. `Err` also comes where no number is left.
pub(crate) fn elaborate_bodies(
    alloc: Global,
    nodes: &mut BodyBuilding,
    named: &NamedNodes,
    judged: Judged,
) -> Result<MadeBodies, NoMemory>
    requires judged { IsJudged (named_package named.now) judged }
    requires declared { nodes.old ≡ without_name_and_orders (declared_nodes named.now) }
    requires right { AreRightBodies (named_package named.now) }
    requires paths { AreRightLocals (named_package named.now) }
    ensures bodies { IfOk result (λ made. BodiesMade named.now (named_package named.now).methods nodes.new made.bodies) }
    ensures locals { IfOk result (λ made. MethodsHaveNodes (named_package named.now) nodes.new made.first_locals (named_package named.now).methods) }
{
    let mut bodies = Sequence::new(alloc);
    let mut first_locals = Sequence::new(alloc);
    let heads = judged.heads.as_slice();
    let fields = judged.fields.as_slice();
    let methods = named.methods();
    for number in 0..methods.len() {
        let method = &methods[number];
        let inside = round_body(named, &judged.around, &heads[number], fields, method);
        let here = Here {
            alloc,
            nodes: named,
            around: &inside,
        };
        let made = elaborate_method(&here, nodes, method)?;
        bodies.push(made.body)?;
        first_locals.push(made.first_local)?;
    }
    Ok(MadeBodies {
        bodies,
        first_locals,
    })
}
