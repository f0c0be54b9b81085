// One statement without blocks: what it requires, and what is known after it.

ghost use Rattle.std.specs.Prelude.{◌≡◌, ◌<◌, length, false, true, is_some, Option, Some, IsTrue};
ghost use Rattle.wf_text.specs.declared.place.Place.{Place};
ghost use Rattle.wf_text.specs.declared.rules.Refusal.{Refusal};
ghost use Rattle.wf_ast.specs.declared.typed_nodes.TypedNodes.{TypedNodes};
ghost use Rattle.wf_ast.specs.TypedTrees.{assigned_by, target_of, tree_of};
ghost use Rattle.wf_ast.specs.TypedInvariant.{is_expr, IsTyped};
ghost use Rattle.wf_facts_exprs.specs.Claims.{claims_in};
ghost use Rattle.wf_facts_exprs.specs.Demands.{unless_refused};
ghost use Rattle.wf_facts.specs.IndexedFacts.{IsOver};
ghost use Rattle.wf_bounds_stmts.specs.FactRules.{Around, Known, known_behind, single_refusal};
ghost use Rattle.wf_bounds_stmts.specs.Outcomes.{MayBeDropped, Told};
ghost use Rattle.wf_bounds_stmts.specs.Passing.{fits_receiver, has_few_locals, simple_at, site_at, IsPlaced, Passes, StandsIn};
ghost use Rattle.wf_bounds_stmts.specs.Targets.{assign_refusal, assigned, written_by};

use crate::asserting::assert;
use crate::assigning::assign;
use crate::calling::Call;
use crate::calls::call;
use crate::interrupting::interrupt;
use crate::returning::check_returned;
use crate::stepping::assign_by;
use wf_ast::{ExprId, MethodId, Op, Stmt, StmtId, Typed};
use wf_facts::Facts;
use wf_loops::{at_break, way_back};
use wf_text::{Place, Refusal};

/// Passes statement `s` of method `m`, which has no blocks, under these facts. Ok(true) tells that the statement goes on, and
/// the facts are then those that are known after it; Ok(false) that it never goes on. Err tells the first of what it requires
/// that isn't met, or L8 at its first token where more than 512 facts would be known after it. Where the statement doesn't go
/// on, or is refused, nothing is told of the facts that are left. It takes no memory.
pub fn pass(t: &Typed, m: MethodId, facts: &mut Facts, s: StmtId) -> Result<bool, Refusal>
    requires typed { IsTyped t.now }
    requires method { m.0 < length t.now.methods }
    requires stmt { s.0 < length t.now.stmts }
    requires placed { IsPlaced t.now m s }
    requires few { has_few_locals t.now m ≡ true }
    requires receiver { fits_receiver t.now s ≡ true }
    requires over { IsOver t.now facts.old }
    ensures over { IsOver t.now facts.new }
    ensures passes { (a : Around) → StandsIn t.now m a s → Passes t.now (site_at t.now s).at (single_refusal a (claims_in t.now facts.old.list) (site_at t.now s) (simple_at t.now s)) (known_behind (claims_in t.now facts.old.list) (simple_at t.now s)) result facts.new }
{
    let at = t.stmt_place(s);
    match t.stmt(s) {
        Stmt::Assign { target, op, value } => {
            let answer = write(t, facts, at, *target, *op, *value);
            after(facts, answer)
        }
        Stmt::Call {
            target,
            keep,
            callee,
            args,
        } => {
            let name_at = t.inner_place(s);
            let it = Call {
                at: name_at,
                target: *target,
                keep: *keep,
                callee: *callee,
                args: args.as_slice(),
            };
            let answer = call(t, facts, it);
            after(facts, answer)
        }
        Stmt::Break(w) => leaves(at_break(facts, t, *w, at)),
        Stmt::Continue(w) => leaves(way_back(facts, t, *w, at)),
        Stmt::Return(value) => {
            leaves(check_returned(t, &facts.as_known(t), t.method(m).gives, *value))
        }
        Stmt::Yield(_) => {
            interrupt(t, facts);
            after(facts, Ok(()))
        }
        Stmt::Assert { goal, axiom } => {
            let answer = assert(t, facts, at, *goal, axiom);
            after(facts, answer)
        }
        Stmt::If { .. } => unreachable!(),
        Stmt::While { .. } => unreachable!(),
    }
}

// An assignment, with an operator or without one.
fn write(
    t: &Typed,
    facts: &mut Facts,
    at: Place,
    target: ExprId,
    op: Option<Op>,
    value: ExprId,
) -> Result<(), Refusal>
    requires target { IsTrue (is_expr t.now target) }
    requires value { IsTrue (is_expr t.now value) }
    requires few { MayBeDropped (written_by (target_of (tree_of t.now target))) }
    requires over { IsOver t.now facts.old }
    ensures over { IsOver t.now facts.new }
    ensures told { Told t.now at (assign_refusal (claims_in t.now facts.old.list) (target_of (tree_of t.now target)) (tree_of t.now value)) (Some (assigned (claims_in t.now facts.old.list) (target_of (tree_of t.now target)) (assigned_by op) (tree_of t.now value))) result facts.new }
{
    if is_arithmetic(op) {
        assign_by(t, facts, target, value)
    } else {
        assign(t, facts, at, target, value)
    }
}

// Whether an assignment has an operator, which gives a number.
fn is_arithmetic(op: Option<Op>) -> bool
    ensures { result ≡ is_some (assigned_by op) }
{
    match op {
        None => false,
        Some(Op::And | Op::Or | Op::Same | Op::Differs | Op::Less | Op::LessOrSame) => false,
        Some(Op::Greater | Op::GreaterOrSame) => false,
        Some(_) => true,
    }
}

// A statement that goes on. A list that stands holds at most 512 facts.
fn after(facts: &Facts, answer: Result<(), Refusal>) -> Result<bool, Refusal>
    ensures { (nodes : TypedNodes) (at : Place) (refusal : Option Refusal) (known : Known) → Told nodes at refusal known answer facts.now → Passes nodes at refusal known result facts.now }
{
    facts.keeps_limit();
    answer?;
    Ok(true)
}

// One that doesn't.
fn leaves(answer: Result<(), Refusal>) -> Result<bool, Refusal>
    ensures { (refusal : Option Refusal) → answer ≡ unless_refused refusal tt → result ≡ unless_refused refusal false }
{
    answer?;
    Ok(false)
}
