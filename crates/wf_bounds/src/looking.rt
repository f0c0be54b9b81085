// What is known before a statement of an accepted package.

ghost use Rattle.std.specs.Prelude.{◌≡◌, false, IfOk};
ghost use Rattle.wf_bounds_stmts.specs.MethodRules.{facts_in_front};
ghost use Rattle.wf_bounds.specs.Acceptance.{TellsKnown};
ghost use Rattle.wf_bounds.specs.MethodWalks.{last_reaches};

use crate::accepted::Accepted;
use crate::methods::look_in;
use std::alloc::Global;
use wf_ast::{Block, StmtId};
use wf_facts::Facts;
use wf_text::{MethodId, NoMemory};

/// The list of what is known before a statement, and None exactly where it isn't reached. It takes time in proportion to the
/// method in which the statement stands.
pub fn facts_at(alloc: Global, a: &Accepted, s: StmtId) -> Result<Option<Facts>, NoMemory>
    ensures { IfOk result (TellsKnown a.now.nodes (facts_in_front a.now.nodes s.0)) }
{
    let t = a.typed();
    for m in 0..t.methods() {
        if may_hold(t.body(MethodId(m)), s) {
            return look_in(alloc, t, MethodId(m), s);
        }
    }
    Ok(None)
}

// Whether a statement may stand in the body of a method, if it stands in none before: statements are numbered in order.
fn may_hold(body: &Block, s: StmtId) -> bool
    ensures { result ≡ last_reaches s.0 false body.now.items }
{
    let mut reaches = false;
    for i in body.items.as_slice() {
        reaches = s.0 <= i.0;
    }
    reaches
}
