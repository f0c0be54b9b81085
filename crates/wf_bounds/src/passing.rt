// A statement without blocks along a walk.

ghost use Rattle.std.specs.Prelude.{◌≡◌, ◌<◌, length, true};
ghost use Rattle.wf_facts_exprs.specs.Claims.{claims_in};
ghost use Rattle.wf_facts.specs.IndexedFacts.{IsOver};
ghost use Rattle.wf_bounds_stmts.specs.Passing.{simple_at, site_at, is_single};
ghost use Rattle.wf_bounds.specs.MethodWalks.{IsReady};
ghost use Rattle.wf_bounds.specs.WalkAnswers.{Comes};
ghost use Rattle.wf_bounds.specs.WalkNodes.{all_round, stands_well, walked_single};

use crate::walks::Walk;
use crate::ways::Way;
use wf_ast::StmtId;
use wf_bounds_stmts::pass;
use wf_facts::Facts;
use wf_text::PhaseFault;

/// Passes a statement that has no blocks.
pub(crate) fn pass_stmt(walk: &Walk, s: StmtId, facts: &mut Facts) -> Result<Way, PhaseFault>
    requires ready { IsReady walk.now.t.now walk.now.m.0 }
    requires known { s.0 < length walk.now.t.now.stmts }
    requires stands { stands_well walk.now.t.now walk.now.m.0 s ≡ true }
    requires single { is_single walk.now.t.now s ≡ true }
    requires over { IsOver walk.now.t.now facts.old }
    ensures over { IsOver walk.now.t.now facts.new }
    ensures comes { Comes walk.now.t.now (walked_single (all_round walk.now.t.now walk.now.m.0) (claims_in walk.now.t.now facts.old.list) (site_at walk.now.t.now s) (simple_at walk.now.t.now s)) result facts.new }
{
    if pass(walk.t, walk.m, facts, s)? {
        Ok(Way::GoesOn)
    } else {
        Ok(Way::Stops)
    }
}
