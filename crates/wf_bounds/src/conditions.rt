// The value of a condition.

ghost use Rattle.std.specs.Prelude.{◌≡◌, true};
ghost use Rattle.wf_ast.specs.NodeKinds.{is_condition_at, node_cond};
ghost use Rattle.wf_facts_exprs.specs.Knowledge.{IsKnown, told};
ghost use Rattle.wf_facts_exprs.specs.Claims.{claims_in};
ghost use Rattle.wf_facts_exprs.specs.Demands.{cond_refusal, unless_refused};

use wf_ast::{ExprId, Typed};
use wf_facts_exprs::{Known, check_value};
use wf_text::Refusal;

/// Checks the value of a condition under these facts.
pub(crate) fn check_condition(t: &Typed, facts: &Known, e: ExprId) -> Result<(), Refusal>
    requires known { IsKnown t.now facts.now }
    requires condition { is_condition_at t.now e ≡ true }
    ensures { result ≡ unless_refused (cond_refusal (claims_in t.now (told facts.now)) (node_cond t.now e)) tt }
{
    let _node = t.expr(e);
    check_value(t, facts, e)
}
