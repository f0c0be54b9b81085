// The phase of bounds as one call.

ghost use Rattle.std.specs.Prelude.{◌≡◌, IfOk, IfErr};
ghost use Rattle.wf_ast.specs.TypedInvariant.{IsTyped};
ghost use Rattle.wf_loops.specs.LoopNodes.{Decides};
ghost use Rattle.wf_bounds_stmts.specs.MethodRules.{facts_refusal};
ghost use Rattle.wf_bounds.specs.Acceptance.{IsAccepted, IsRefusedFor};

use crate::accepted::Accepted;
use crate::methods::check_method;
use std::alloc::Global;
use wf_ast::Typed;
use wf_facts::Facts;
use wf_points::points;
use wf_points::table::Points;
use wf_text::{MethodId, PhaseFault};

/// Accepts a typed package, or refuses it: by the first refusal of the rules of facts, methods in order, and where these refuse
/// nothing by L9, where a method has too many points. `Memory` where memory was refused. It takes time in proportion to the
/// statements, each under the facts that are known there, and recurses as deep as blocks nest.
pub fn check(alloc: Global, t: Typed) -> Result<Accepted, PhaseFault>
    requires { IsTyped t }
    ensures package { IfOk result (λ a. a.nodes ≡ t) }
    ensures accepted { IfOk result (λ a. IsAccepted a) }
    ensures refused { IfErr result (IsRefusedFor t) }
{
    let points = examine(alloc, &t)?;
    Ok(Accepted::new(t, points))
}

// The points of a package that is accepted.
fn examine(alloc: Global, t: &Typed) -> Result<Points, PhaseFault>
    requires { IsTyped t.now }
    ensures accepted { IfOk result (λ points. IsAccepted (record { nodes = t.now; points = points })) }
    ensures refused { IfErr result (IsRefusedFor t.now) }
{
    check_methods(alloc, t)?;
    points(alloc, t)
}

// What the rules of facts refuse, methods in order.
fn check_methods(alloc: Global, t: &Typed) -> Result<(), PhaseFault>
    requires { IsTyped t.now }
    ensures { Decides (facts_refusal t.now) result }
{
    let mut facts = Facts::new(alloc)?;
    for m in 0..t.methods() {
        check_method(alloc, t, MethodId(m), &mut facts)?;
    }
    Ok(())
}
