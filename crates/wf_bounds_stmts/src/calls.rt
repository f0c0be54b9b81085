// Calls that are whole statements, or whole right sides.

ghost use Rattle.std.specs.Prelude.{◌≡◌, ◌<◌, length, map, option_and_then, true, IsTrue};
ghost use Rattle.std.specs.List.{list_all};
ghost use Rattle.wf_ast.specs.TypedTree.{invoke as invoke_tree, Called};
ghost use Rattle.wf_ast.specs.TypedTrees.{call_made, mark_of, optional_target, tree_of};
ghost use Rattle.wf_ast.specs.TypedInvariant.{callee_exists, is_expr, is_optional_expr, IsTyped};
ghost use Rattle.wf_ast.specs.WellTyped.{number_of};
ghost use Rattle.wf_facts_exprs.specs.Claims.{claims_in};
ghost use Rattle.wf_facts.specs.IndexedFacts.{IsOver};
ghost use Rattle.wf_bounds_stmts.specs.Requirements.{number_type};
ghost use Rattle.wf_bounds_stmts.specs.Targets.{written_by};
ghost use Rattle.wf_bounds_stmts.specs.Outcomes.{Leaves, MayBeDropped};
ghost use Rattle.wf_bounds_stmts.specs.Passing.{fits_callee, KeepsTypes, TakesArgs};

use crate::base_calls::call_base;
use crate::calling::{Call, invoke};
use wf_ast::{Callee, MethodId, Ty, Typed};
use wf_facts::Facts;
use wf_text::Refusal;

/// The rule of a call.
pub(crate) fn call(t: &Typed, facts: &mut Facts, call: Call<'_>) -> Result<(), Refusal>
    requires typed { IsTyped t.now }
    requires target { IsTrue (is_optional_expr t.now call.target) }
    requires callee { IsTrue (callee_exists t.now call.callee) }
    requires there { IsTrue (list_all (is_expr t.now) call.args.now) }
    requires receiver { fits_callee t.now call.callee ≡ true }
    requires well { KeepsTypes t.now (call_made t.now (tree_of t.now) call.at (optional_target (tree_of t.now) call.target) call.keep call.callee (map (tree_of t.now) call.args.now)) }
    requires few { MayBeDropped (written_by (optional_target (tree_of t.now) call.target)) }
    requires over { IsOver t.now facts.old }
    ensures over { IsOver t.now facts.new }
    ensures leaves { Leaves t.now (claims_in t.now facts.old.list) (call_made t.now (tree_of t.now) call.entry.at (optional_target (tree_of t.now) call.entry.target) call.entry.keep call.entry.callee (map (tree_of t.now) call.entry.args.now)) result facts.new }
{
    match call.callee {
        Callee::Own(m) => call_method(t, facts, call, m),
        Callee::Sub { method, .. } => call_method(t, facts, call, method),
        Callee::Base { on, sig } => call_base(t, facts, call, on, sig),
    }
}

// A call of the method `m` of the package.
fn call_method(t: &Typed, facts: &mut Facts, call: Call<'_>, m: MethodId) -> Result<(), Refusal>
    requires method { m.0 < length t.now.methods }
    requires target { IsTrue (is_optional_expr t.now call.target) }
    requires there { IsTrue (list_all (is_expr t.now) call.args.now) }
    requires all { TakesArgs t.now m (length call.args.now) }
    requires few { MayBeDropped (written_by (optional_target (tree_of t.now) call.target)) }
    requires over { IsOver t.now facts.old }
    ensures over { IsOver t.now facts.new }
    ensures leaves { (called : Called) → number_of called ≡ m.0 → length t.now.bodies ≡ length t.now.methods → Leaves t.now (claims_in t.now facts.old.list) (invoke_tree call.entry.at (optional_target (tree_of t.now) call.entry.target) call.entry.keep (mark_of t.now m.0) called (map (tree_of t.now) call.entry.args.now)) result facts.new }
{
    let method = t.method(m);
    invoke(
        t,
        facts,
        call,
        method.mark,
        method.args.as_slice(),
        answered(method.gives),
    )
}

// The type of what a method answers; one of no numbers where it answers nothing.
fn answered(gives: Option<Ty>) -> Ty
    ensures { number_type result ≡ option_and_then number_type gives }
{
    match gives {
        Some(ty) => ty,
        None => Ty::Flag,
    }
}
