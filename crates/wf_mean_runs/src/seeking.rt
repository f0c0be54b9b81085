// The search for the point at which a method has suspended: statements by themselves.

ghost use Rattle.std.specs.Prelude.{◌≡◌, ◌<◌, ℕ, length, IsTrue};
ghost use Rattle.wf_ast.specs.TypedTree.{Block as TreeBlock, plain, yield as yields};
ghost use Rattle.wf_ast.specs.TypedInvariant.{callee_exists};
ghost use Rattle.wf_points.specs.FoundPoints.{base_suspends as suspends_with, call_suspends};
ghost use Rattle.wf_mean_exprs.specs.MachineState.{done_seen, same_place};
ghost use Rattle.wf_mean_flows.specs.Flows.{made_of, place_of, site_of};
ghost use Rattle.wf_mean_runs.specs.Seeking.{SoughtIn};

use wf_ast::{Callee, StatusId, StmtId, Typed};
use wf_base::BaseSig;
use wf_mean_exprs::objects::Progress;
use wf_mean_flows::flows::Flow;
use wf_mean_flows::simple::pause;
use wf_mean_stmts::entry::is_coroutine;
use wf_mean_stmts::stage::Stage;
use wf_text::Place;

/// The point that a search looks for: its place, and how much of it is done.
#[derive(Clone, Copy)]
pub(crate) struct Point {
    pub at: Place,
    pub done: Progress,
}

/// Goes on with the statement `s`, a `yield?`, where it is the point.
pub(crate) fn seek_yield(
    t: &Typed,
    stage: &Stage,
    s: StmtId,
    status: StatusId,
    point: Point,
) -> Option<Flow>
    requires known { s.0 < length t.now.stmts }
    requires made { (rest : TreeBlock) → made_of t.now s rest ≡ plain (site_of t.now s) (yields status.0) rest }
    ensures sought { (level : ℕ) → SoughtIn t.now level point.at (done_seen point.done) (made_of t.now s) stage.now result stage.now }
{
    if is_at(t, s, point.at) {
        Some(pause(t, stage, s, status, point.done))
    } else {
        None
    }
}

/// Whether a statement stands at a place.
pub(crate) fn is_at(t: &Typed, s: StmtId, at: Place) -> bool
    requires known { s.0 < length t.now.stmts }
    ensures { result ≡ same_place (place_of t.now s.0) at }
{
    let own = t.stmt_place(s);
    own.file == at.file && own.line == at.line && own.col == at.col
}

/// Whether a method may suspend with a call in it that has so many arguments.
pub(crate) fn suspends_at(t: &Typed, keep: bool, callee: Callee, args: usize) -> bool
    requires callee { IsTrue (callee_exists t.now callee) }
    ensures { result ≡ call_suspends t.now keep callee args }
{
    match callee {
        Callee::Own(m) => !keep && is_coroutine(t.method(m).mark),
        Callee::Sub { method, .. } => !keep && is_coroutine(t.method(method).mark),
        Callee::Base { sig, .. } => base_suspends(sig, args),
    }
}

// Whether a base method may suspend; one that does takes so many arguments.
fn base_suspends(sig: BaseSig, args: usize) -> bool
    ensures { result ≡ suspends_with sig args }
{
    match sig {
        BaseSig::Read(_) => args == 0,
        BaseSig::Skip | BaseSig::Write => args == 1,
        _ => false,
    }
}
