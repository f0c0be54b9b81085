// The walk through a whole method.

ghost use Rattle.std.specs.Prelude.{◌≡◌, IfOk};
ghost use Rattle.wf_facts_exprs.specs.Claims.{claims_in};
ghost use Rattle.wf_facts.specs.IndexedFacts.{IsOver};
ghost use Rattle.wf_loops.specs.LoopNodes.{Decides};
ghost use Rattle.wf_bounds.specs.Acceptance.{TellsKnown};
ghost use Rattle.wf_bounds.specs.MethodWalks.{method_front, method_refusal, start_facts, walked_method, IsReady};
ghost use Rattle.wf_bounds.specs.WalkAnswers.{Comes};

use crate::starting::start;
use crate::walking::walk_block;
use crate::walks::Walk;
use crate::ways::Way;
use std::alloc::Global;
use wf_ast::{StmtId, Typed};
use wf_facts::Facts;
use wf_text::{MethodId, NoMemory, PhaseFault};

// Walks through a method, under the facts with which it begins.
fn walk_method(walk: &Walk, facts: &mut Facts) -> Result<Way, PhaseFault>
    requires ready { IsReady walk.now.t.now walk.now.m.0 }
    requires starts { claims_in walk.now.t.now facts.old.list ≡ start_facts walk.now.t.now walk.now.m.0 }
    requires over { IsOver walk.now.t.now facts.old }
    ensures over { IsOver walk.now.t.now facts.new }
    ensures comes { Comes walk.now.t.now (walked_method walk.now.t.now walk.now.m.0 walk.now.sought) result facts.new }
{
    walk_block(walk, u32::MAX, walk.t.body(walk.m), facts)
}

/// What the rules of facts refuse in a method. Whatever the list holds is let go of; its room is used.
pub(crate) fn check_method(
    alloc: Global,
    t: &Typed,
    m: MethodId,
    facts: &mut Facts,
) -> Result<(), PhaseFault>
    requires ready { IsReady t.now m.0 }
    ensures { Decides (method_refusal t.now m.0) result }
{
    start(t, m, facts);
    let walk = Walk {
        alloc,
        t,
        m,
        sought: None,
    };
    walk_method(&walk, facts)?;
    Ok(())
}

/// What is known before a statement, as far as it stands in a method in which nothing is refused.
pub(crate) fn look_in(
    alloc: Global,
    t: &Typed,
    m: MethodId,
    s: StmtId,
) -> Result<Option<Facts>, NoMemory>
    requires ready { IsReady t.now m.0 }
    requires sound { method_refusal t.now m.0 ≡ None }
    ensures { IfOk result (TellsKnown t.now (method_front t.now m.0 s)) }
{
    let mut facts = Facts::new(alloc)?;
    start(t, m, &mut facts);
    let walk = Walk {
        alloc,
        t,
        m,
        sought: Some(s),
    };
    match walk_method(&walk, &mut facts) {
        Ok(Way::Found) => Ok(Some(facts)),
        Ok(Way::GoesOn) => Ok(None),
        Ok(Way::Stops) => Ok(None),
        Err(PhaseFault::Memory) => Err(NoMemory),
        Err(PhaseFault::Refused(_)) => unreachable!(),
    }
}
