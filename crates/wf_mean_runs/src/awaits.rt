// Calls of base methods in a body that runs.

ghost use Rattle.std.specs.Prelude.{◌≡◌, ◌<◌, ℕ, IsTrue, length, map};
ghost use Rattle.std.specs.List.{list_all};
ghost use Rattle.wf_ast.specs.TypedTree.{Block, plain};
ghost use Rattle.wf_ast.specs.TypedTrees.{base_call as call_tree, optional_target, tree_of};
ghost use Rattle.wf_ast.specs.TypedInvariant.{IsTyped, is_expr, is_optional_expr};
ghost use Rattle.wf_mean_exprs.specs.MachineState.{done_seen};
ghost use Rattle.wf_mean_stmts.specs.Stages.{shape};
ghost use Rattle.wf_mean_flows.specs.Flows.{Runs, inner_of, made_of, site_of};

use wf_ast::{StmtId, Typed};
use wf_mean_exprs::objects::Progress;
use wf_mean_flows::flows::Flow;
use wf_mean_stmts::awaiting::Did;
use wf_mean_stmts::base_calls::{BaseCall, base_call};
use wf_mean_stmts::stage::Stage;

/// Runs the call of a base method, the statement `s`, which has done so much of it.
pub(crate) fn run_base(
    t: &Typed,
    stage: &mut Stage,
    s: StmtId,
    call: BaseCall<'_>,
    done: Progress,
) -> Flow
    requires typed { IsTyped t.now }
    requires known { s.0 < length t.now.stmts }
    requires target { IsTrue (is_optional_expr t.now call.target) }
    requires on { IsTrue (is_expr t.now call.on) }
    requires args { IsTrue (list_all (is_expr t.now) call.args.now) }
    requires made { (rest : Block) → made_of t.now s rest ≡ plain (site_of t.now s) (call_tree (inner_of t.now s.0) (optional_target (tree_of t.now) call.target) (tree_of t.now call.on) call.sig (map (tree_of t.now) call.args.now)) rest }
    ensures runs { (level : ℕ) → Runs t.now level (made_of t.now s) (done_seen done) stage.old stage.new result }
    ensures shape { shape stage.new ≡ shape stage.old }
    ensures turns { stage.new.turns ≡ stage.old.turns }
{
    let at = t.stmt_place(s);
    match base_call(t, stage, call, done) {
        Did::Goes => Flow::Falls,
        Did::Suspends { status, done } => Flow::Suspends { status, at, done },
        Did::Stuck => Flow::Stuck,
    }
}
