// What stays known where a method may be left and gone on with later.

ghost use Rattle.std.specs.Prelude.{◌≡◌};
ghost use Rattle.wf_facts_exprs.specs.Claims.{claims_in};
ghost use Rattle.wf_facts.specs.IndexedFacts.{IsOver};
ghost use Rattle.wf_bounds_stmts.specs.Calls.{interrupted};

use wf_ast::{Thing, Typed};
use wf_facts::Facts;

/// Drops what doesn't stay known where the method may be left here.
pub(crate) fn interrupt(t: &Typed, facts: &mut Facts)
    requires over { IsOver t.now facts.old }
    ensures over { IsOver t.now facts.new }
    ensures claims { claims_in t.now facts.new.list ≡ interrupted (claims_in t.now facts.old.list) }
{
    let _tree = t;
    facts.drop_indexed(Thing::This);
    facts.drop_indexed(Thing::Args);
    facts.drop_indexed(Thing::Element);
    facts.drop_indexed(Thing::SliceLocals);
}
