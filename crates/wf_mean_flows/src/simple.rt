// Statements that stand by themselves: assignments, returns, `yield?` and assertions.

ghost use Rattle.std.specs.Prelude.{◌≡◌, ◌<◌, ℕ, IsTrue, Some, length, option_map};
ghost use Rattle.wf_ast.specs.TypedTree.{Block, Simple, Site, assign as assigns, claim as claims, give_back as returns, plain, yield as yields};
ghost use Rattle.wf_ast.specs.TypedTrees.{assigned_by, axiom_made, cond_in, target_of, tree_of};
ghost use Rattle.wf_ast.specs.TypedInvariant.{IsTyped, is_expr, is_optional_expr};
ghost use Rattle.wf_ast.specs.Value.{status_number};
ghost use Rattle.wf_meaning.specs.SourceState.{Behind, untouched};
ghost use Rattle.wf_meaning.specs.World.{Vars};
ghost use Rattle.wf_meaning.specs.SourceStep.{given_back, gives, is_result as is_of_result, returned_status, where_true};
ghost use Rattle.turns.specs.Run.{End};
ghost use Rattle.wf_mean_exprs.specs.MachineState.{done_seen, slot_seen};
ghost use Rattle.wf_mean_stmts.specs.Stages.{body_on, shape};
ghost use Rattle.wf_mean_flows.specs.Flows.{IsAt, Runs, flow_steps, made_of, site_of};

use crate::flows::Flow;
use wf_ast::{AxiomRef, ExprId, Op, StatusId, StmtId, Ty, Typed};
use wf_base::Mark;
use wf_mean_exprs::objects::Progress;
use wf_mean_exprs::values::Slot;
use wf_mean_stmts::any::{condition_on, value_on};
use wf_mean_stmts::entry::{is_coroutine, status_kind};
use wf_mean_stmts::stage::Stage;
use wf_mean_stmts::targets::put;
use wf_text::Category;

/// An assignment evaluates its right side and writes it.
pub fn assign(
    t: &Typed,
    stage: &mut Stage,
    s: StmtId,
    target: ExprId,
    op: Option<Op>,
    value: ExprId,
) -> Flow
    requires typed { IsTyped t.now }
    requires target { IsTrue (is_expr t.now target) }
    requires value { IsTrue (is_expr t.now value) }
    requires made { (rest : Block) → made_of t.now s rest ≡ plain (site_of t.now s) (assigns (target_of (tree_of t.now target)) (assigned_by op) (tree_of t.now value)) rest }
    ensures runs { (level : ℕ) → Runs t.now level (made_of t.now s) untouched stage.old stage.new result }
    ensures shape { shape stage.new ≡ shape stage.old }
    ensures turns { stage.new.turns ≡ stage.old.turns }
{
    let _named = op;
    match value_on(t, stage, value) {
        Some(v) => {
            if put(t, stage, target, v) {
                Flow::Falls
            } else {
                Flow::Stuck
            }
        }
        None => Flow::Stuck,
    }
}

/// `assert`, of which a run sees the condition alone.
pub fn claim(t: &Typed, stage: &Stage, s: StmtId, goal: ExprId, by: &Option<AxiomRef>) -> Flow
    requires typed { IsTyped t.now }
    requires goal { IsTrue (is_expr t.now goal) }
    requires made { (rest : Block) → made_of t.now s rest ≡ plain (site_of t.now s) (claims (cond_in (tree_of t.now goal)) (axiom_made t.now (tree_of t.now) by.now)) rest }
    ensures runs { (level : ℕ) → Runs t.now level (made_of t.now s) untouched stage.now stage.now result }
{
    let _by = by;
    match condition_on(t, stage, goal) {
        Some(holds) => { if holds { Flow::Falls } else { Flow::Stuck } }
        None => Flow::Stuck,
    }
}

/// `yield?` suspends, and goes on when it is resumed.
pub fn pause(t: &Typed, stage: &Stage, s: StmtId, status: StatusId, done: Progress) -> Flow
    requires known { s.0 < length t.now.stmts }
    requires made { (rest : Block) → made_of t.now s rest ≡ plain (site_of t.now s) (yields status.0) rest }
    ensures runs { (level : ℕ) → Runs t.now level (made_of t.now s) (done_seen done) stage.now stage.now result }
{
    let suspended = Flow::Suspends {
        status: status.0,
        at: t.stmt_place(s),
        done: Progress::Yielded,
    };
    match done {
        Progress::Yielded => Flow::Falls,
        Progress::Untouched => suspended,
        Progress::Bytes { .. } => suspended,
        Progress::ToSkip(_) => suspended,
        Progress::ToWrite(_) => suspended,
    }
}

/// `return`.
pub fn give_back(t: &Typed, stage: &Stage, s: StmtId, value: Option<ExprId>) -> Flow
    requires typed { IsTyped t.now }
    requires value { IsTrue (is_optional_expr t.now value) }
    requires made { (rest : Block) → made_of t.now s rest ≡ plain (site_of t.now s) (returns (option_map (tree_of t.now) value)) rest }
    ensures runs { (level : ℕ) → Runs t.now level (made_of t.now s) untouched stage.now stage.now result }
{
    match value {
        Some(e) => match value_on(t, stage, e) {
            Some(v) => give_value(t, stage, v),
            None => Flow::Stuck,
        },
        None => {
            if is_coroutine(own_mark(t, stage)) {
                Flow::Stuck
            } else {
                Flow::Returns(None)
            }
        }
    }
}

// `return` with a value: it has to be of the method's result, and a coroutine's is a status.
fn give_value(t: &Typed, stage: &Stage, v: Slot) -> Flow
    requires typed { IsTyped t.now }
    ensures steps { (n : ℕ) (here rest : Block) (behind : Behind) (vars : Vars) → given_back (body_on t.now stage.now) n vars.world (slot_seen v) ≡ flow_steps (body_on t.now stage.now) n result here rest behind vars }
    ensures at { (site : Site) (st : Simple) → IsAt site st result }
{
    match v {
        Slot::Status(s) => give_status(t, stage, s),
        Slot::Num(_) => give_plain(t, stage, v),
        Slot::Truth(_) => give_plain(t, stage, v),
        Slot::Elements(_) => give_plain(t, stage, v),
        Slot::Buffer(_) => give_plain(t, stage, v),
    }
}

// A value that is no status.
fn give_plain(t: &Typed, stage: &Stage, v: Slot) -> Flow
    requires typed { IsTyped t.now }
    ensures steps { (n : ℕ) (here rest : Block) (behind : Behind) (vars : Vars) → where_true (is_of_result (body_on t.now stage.now).method.gives (slot_seen v)) (End n (gives (Some (slot_seen v)), vars.world)) ≡ flow_steps (body_on t.now stage.now) n result here rest behind vars }
    ensures at { (site : Site) (st : Simple) → IsAt site st result }
{
    if is_result(own_result(t, stage), v) {
        Flow::Returns(Some(v))
    } else {
        Flow::Stuck
    }
}

fn give_status(t: &Typed, stage: &Stage, s: u32) -> Flow
    requires typed { IsTyped t.now }
    ensures steps { (n : ℕ) (here rest : Block) (behind : Behind) (vars : Vars) → given_back (body_on t.now stage.now) n vars.world (status_number s) ≡ flow_steps (body_on t.now stage.now) n result here rest behind vars }
    ensures at { (site : Site) (st : Simple) → IsAt site st result }
{
    if is_coroutine(own_mark(t, stage)) {
        return Flow::Returns(Some(Slot::Status(answered_status(t, s))));
    }
    if is_result(own_result(t, stage), Slot::Status(s)) {
        Flow::Returns(Some(Slot::Status(s)))
    } else {
        Flow::Stuck
    }
}

// A suspension that a coroutine returns is an error.
fn answered_status(t: &Typed, s: u32) -> u32
    requires typed { IsTyped t.now }
    ensures { (stage : Stage) → result ≡ returned_status (body_on t.now stage) s }
{
    match status_kind(t, s) {
        Category::Suspension => 9,
        Category::Fine | Category::Note | Category::Fault => s,
    }
}

// Whether a value is of a method's result.
fn is_result(gives: Option<Ty>, v: Slot) -> bool
    ensures { result ≡ is_of_result gives (slot_seen v) }
{
    match gives {
        Some(Ty::Num { lo, hi, .. }) => match v {
            Slot::Num(n) => lo <= n && n <= hi,
            _ => false,
        },
        Some(Ty::Flag) => matches!(v, Slot::Truth(_)),
        Some(Ty::Status) => matches!(v, Slot::Status(_)),
        _ => false,
    }
}

/// The mark of the method whose body runs.
pub fn own_mark(t: &Typed, stage: &Stage) -> Mark
    requires typed { IsTyped t.now }
    ensures { result ≡ (body_on t.now stage.now).method.mark }
{
    if stage.frame.method.0 < t.methods() {
        t.method(stage.frame.method).mark
    } else {
        Mark::Pure
    }
}

// What the method gives whose body runs.
fn own_result(t: &Typed, stage: &Stage) -> Option<Ty>
    requires typed { IsTyped t.now }
    ensures { result ≡ (body_on t.now stage.now).method.gives }
{
    if stage.frame.method.0 < t.methods() {
        t.method(stage.frame.method).gives
    } else {
        None
    }
}
