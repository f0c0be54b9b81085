// Assignments: `=`, operators with `=`, and `=?`.

ghost use Rattle.std.specs.Prelude.{◌≡◌, ◌<◌, ◌∷◌, ◌++◌, None, Some, not, length, IfOk, OnOk, IfSome, IfNone, option_and_then};
ghost use Rattle.wf_ast.specs.TypedTrees.{operator_kind};
ghost use Rattle.wf_named.specs.NamedParts.{exprs_of, ArgsBelow, NamedTargetBelow};
ghost use Rattle.wf_named.specs.NamedTrees.{expr_at, call_at, target_at};
ghost use Rattle.wf_types_rules.specs.Judgements.{right_value, at_if as at_place_if, type_in as typed_so, both_fail, fails, takes as takes_value, not_assigned, two_operands, outside_coroutine, is_coroutine_called as calls_coroutine};
ghost use Rattle.wf_types_rules.specs.Meanings.{is_status as means_status};
ghost use Rattle.wf_types_rules.specs.Operands.{not_taken as first_untaken, not_fitting as first_unfit};
ghost use Rattle.wf_types_rules.specs.Parts.{assigned, kept, target_parts, value_parts, whole_call_parts};
ghost use Rattle.wf_types_exprs.specs.Judged.{judged};
ghost use Rattle.wf_types_stmts.specs.Statements.{assigned_found, operands_found, kept_found};
ghost use Rattle.wf_types_stmts.specs.Targets.{call_in, lacks_value};

use crate::targets::judge_target;
use wf_ast::{ExprId, Op, Ty};
use wf_named::{NamedCall, NamedCallee, NamedExpr, NamedNodes, NamedTarget};
use wf_text::Place;
use wf_text::faults::NoMemory;
use wf_text::found::Found;
use wf_text::rules::Rule;
use wf_types_exprs::Here;
use wf_types_exprs::reading::place_of;
use wf_types_exprs::walk::judge_value;
use wf_types_exprs::whole::judge_whole_call;
use wf_types_meanings::calls::{gives_no_value, is_coroutine_called};
use wf_types_meanings::marks::is_coroutine;
use wf_types_meanings::places::at_if;
use wf_types_meanings::values::{takes, type_in};
use wf_types_operators::fitting::not_fitting;
use wf_types_operators::meanings::is_status;
use wf_types_operators::taken::not_taken;
use wf_types_rules::{Around, Meaning, Operand, PlacedMeaning};

/// The right side of `=`: what it means, with its place, and whether it is a call that gives no value.
#[derive(Clone, Copy, PartialEq, Eq)]
pub(crate) struct RightSide {
    pub value: PlacedMeaning,
    pub lacks: bool,
}

fn type_of(of: Option<Meaning>) -> Option<Ty>
    ensures { result ≡ option_and_then typed_so of }
{
    type_in(of?)
}

/// Whether a type doesn't take a value, where both are known.
pub(crate) fn is_not_taken(ty: Option<Ty>, of: Option<Meaning>) -> bool
    ensures { result ≡ both_fail takes_value ty of }
{
    match (ty, of) {
        (Some(ty), Some(m)) => !takes(ty, m),
        (None, Some(_)) => false,
        (Some(_), None) => false,
        (None, None) => false,
    }
}

/// Whether it means something that is no status.
pub(crate) fn is_no_status(of: Option<Meaning>) -> bool
    ensures { result ≡ fails means_status of }
{
    match of {
        Some(m) => !is_status(m),
        None => false,
    }
}

fn wrong_assigned(target: PlacedMeaning, value: PlacedMeaning) -> Option<Place>
    ensures { result ≡ not_assigned target value }
{
    at_if(is_not_taken(type_of(target.of), value.of), target.at)
}

fn no_value_assigned(target: PlacedMeaning, lacks: bool) -> Option<Place>
    ensures { result ≡ at_place_if lacks target.at }
{
    at_if(lacks, target.at)
}

/// Tells what `=` breaks.
pub(crate) fn tell_assigned(found: &mut Found, target: PlacedMeaning, right: RightSide)
    ensures { found.new ≡ assigned_found target right.value right.lacks found.old }
{
    found.tell(Rule::T2, wrong_assigned(target, right.value));
    found.tell(Rule::T2, no_value_assigned(target, right.lacks));
}

fn wrong_update(op: Op, os: &[Operand]) -> Option<Place>
    ensures { result ≡ first_untaken (operator_kind op) os.now }
{
    not_taken(op, os)
}

fn unfit_update(op: Op, os: &[Operand]) -> Option<Place>
    ensures { result ≡ first_unfit (operator_kind op) os.now }
{
    not_fitting(op, os)
}

fn tell_operands(found: &mut Found, op: Op, os: &[Operand])
    ensures { found.new ≡ operands_found op (Some os.now) found.old }
{
    found.tell(Rule::T1, wrong_update(op, os));
    found.tell(Rule::T5, unfit_update(op, os));
}

/// Tells what an operator with `=` breaks.
pub(crate) fn tell_update(found: &mut Found, op: Op, target: PlacedMeaning, value: PlacedMeaning)
    ensures { found.new ≡ operands_found op (two_operands target value) found.old }
{
    match (target.of, value.of) {
        (Some(first), Some(second)) => {
            let os = [
                Operand {
                    at: target.at,
                    of: first,
                },
                Operand {
                    at: value.at,
                    of: second,
                },
            ];
            tell_operands(found, op, os.as_slice());
        }
        (None, Some(_)) => {}
        (Some(_), None) => {}
        (None, None) => {}
    }
}

fn kept_outside(around: &Around<'_>, at: Place) -> Option<Place>
    ensures { result ≡ outside_coroutine around.now at }
{
    at_if(!is_coroutine(around.mark()), at)
}

fn not_kept_in_status(target: Option<Meaning>, at: Place) -> Option<Place>
    ensures { result ≡ at_place_if (fails means_status target) at }
{
    at_if(is_no_status(target), at)
}

fn keeps_no_coroutine(around: &Around<'_>, callee: NamedCallee, at: Place) -> Option<Place>
    ensures { result ≡ at_place_if (not (calls_coroutine around.now callee)) at }
{
    at_if(!is_coroutine_called(around, callee), at)
}

/// Tells what `=?` breaks, by the meaning of its target.
pub(crate) fn tell_kept(
    found: &mut Found,
    around: &Around<'_>,
    target: Option<Meaning>,
    callee: NamedCallee,
    at: Place,
)
    ensures { found.new ≡ kept_found around.now target callee at found.old }
{
    found.tell(Rule::E2, kept_outside(around, at));
    found.tell(Rule::E4, not_kept_in_status(target, at));
    found.tell(Rule::E4, keeps_no_coroutine(around, callee, at));
}

/// The call that an expression is, if it is one.
pub fn as_call(nodes: &NamedNodes, e: ExprId) -> Option<&NamedCall>
    requires { e.0 < length nodes.now.exprs }
    ensures call { IfSome result (λ c. call_in (expr_at (exprs_of nodes.now) e) ≡ Some (call_at (exprs_of nodes.now) c.now)) }
    ensures args { IfSome result (λ c. ArgsBelow (length nodes.now.exprs) c.now.args) }
    ensures none { IfNone result (call_in (expr_at (exprs_of nodes.now) e) ≡ None) }
{
    let node = nodes.expr(e);
    match &node.expr {
        NamedExpr::Call(call) => Some(call),
        NamedExpr::Path(_) => None,
        NamedExpr::Number(_) => None,
        NamedExpr::Status(_) => None,
        NamedExpr::Truth(_) => None,
        NamedExpr::Index { .. } => None,
        NamedExpr::Slice { .. } => None,
        NamedExpr::Chain { .. } => None,
        NamedExpr::Convert { .. } => None,
        NamedExpr::Not(_) => None,
    }
}

// The right side of `=` where it is no call.
fn judge_plain(here: &Here<'_>, found: &mut Found, e: ExprId) -> Result<RightSide, NoMemory>
    requires e { e.0 < length here.now.nodes.now.exprs }
    requires plain { call_in (expr_at (exprs_of here.now.nodes.now) e) ≡ None }
    ensures found { OnOk result (found.new ≡ judged here.now.around.now found.old (value_parts None (expr_at (exprs_of here.now.nodes.now) e))) }
    ensures value { IfOk result (λ j. j.value ≡ right_value here.now.around.now (expr_at (exprs_of here.now.nodes.now) e)) }
    ensures lacks { IfOk result (λ j. j.lacks ≡ lacks_value here.now.around.now (expr_at (exprs_of here.now.nodes.now) e)) }
{
    let value = judge_value(here, found, e)?;
    Ok(RightSide {
        value,
        lacks: false,
    })
}

/// The right side of `=`.
pub(crate) fn judge_right(
    here: &Here<'_>,
    found: &mut Found,
    e: ExprId,
) -> Result<RightSide, NoMemory>
    requires { e.0 < length here.now.nodes.now.exprs }
    ensures found { OnOk result (found.new ≡ judged here.now.around.now found.old (value_parts None (expr_at (exprs_of here.now.nodes.now) e))) }
    ensures value { IfOk result (λ j. j.value ≡ right_value here.now.around.now (expr_at (exprs_of here.now.nodes.now) e)) }
    ensures lacks { IfOk result (λ j. j.lacks ≡ lacks_value here.now.around.now (expr_at (exprs_of here.now.nodes.now) e)) }
{
    match as_call(here.nodes, e) {
        Some(call) => {
            let of = judge_whole_call(here, found, call)?;
            Ok(RightSide {
                value: PlacedMeaning {
                    of,
                    at: place_of(here.nodes, e),
                },
                lacks: gives_no_value(here.around, call.callee),
            })
        }
        None => judge_plain(here, found, e),
    }
}

/// `=`.
pub(crate) fn judge_equal(
    here: &Here<'_>,
    found: &mut Found,
    target: NamedTarget,
    e: ExprId,
) -> Result<(), NoMemory>
    requires target { NamedTargetBelow (length here.now.nodes.now.exprs) target }
    requires e { e.0 < length here.now.nodes.now.exprs }
    ensures { OnOk result (found.new ≡ judged here.now.around.now found.old (assigned (target_at (exprs_of here.now.nodes.now) target) None (expr_at (exprs_of here.now.nodes.now) e) ∷ (target_parts (target_at (exprs_of here.now.nodes.now) target) ++ value_parts None (expr_at (exprs_of here.now.nodes.now) e)))) }
{
    let to = judge_target(here, found, target)?;
    let right = judge_right(here, found, e)?;
    tell_assigned(found, to, right);
    Ok(())
}

/// An operator with `=`.
pub(crate) fn judge_update(
    here: &Here<'_>,
    found: &mut Found,
    target: NamedTarget,
    op: Op,
    e: ExprId,
) -> Result<(), NoMemory>
    requires target { NamedTargetBelow (length here.now.nodes.now.exprs) target }
    requires e { e.0 < length here.now.nodes.now.exprs }
    ensures { OnOk result (found.new ≡ judged here.now.around.now found.old (assigned (target_at (exprs_of here.now.nodes.now) target) (Some op) (expr_at (exprs_of here.now.nodes.now) e) ∷ (target_parts (target_at (exprs_of here.now.nodes.now) target) ++ value_parts (Some op) (expr_at (exprs_of here.now.nodes.now) e)))) }
{
    let to = judge_target(here, found, target)?;
    let v = judge_value(here, found, e)?;
    tell_update(found, op, to, v);
    Ok(())
}

/// An assignment, with or without an operator.
pub(crate) fn judge_assign(
    here: &Here<'_>,
    found: &mut Found,
    target: NamedTarget,
    op: Option<Op>,
    e: ExprId,
) -> Result<(), NoMemory>
    requires target { NamedTargetBelow (length here.now.nodes.now.exprs) target }
    requires e { e.0 < length here.now.nodes.now.exprs }
    ensures { OnOk result (found.new ≡ judged here.now.around.now found.old (assigned (target_at (exprs_of here.now.nodes.now) target) op (expr_at (exprs_of here.now.nodes.now) e) ∷ (target_parts (target_at (exprs_of here.now.nodes.now) target) ++ value_parts op (expr_at (exprs_of here.now.nodes.now) e)))) }
{
    match op {
        Some(op) => judge_update(here, found, target, op, e),
        None => judge_equal(here, found, target, e),
    }
}

/// `=?`.
pub(crate) fn judge_keep(
    here: &Here<'_>,
    found: &mut Found,
    target: NamedTarget,
    call: &NamedCall,
) -> Result<(), NoMemory>
    requires target { NamedTargetBelow (length here.now.nodes.now.exprs) target }
    requires args { ArgsBelow (length here.now.nodes.now.exprs) call.now.args }
    ensures { OnOk result (found.new ≡ judged here.now.around.now found.old (kept (target_at (exprs_of here.now.nodes.now) target) (call_at (exprs_of here.now.nodes.now) call.now) ∷ (target_parts (target_at (exprs_of here.now.nodes.now) target) ++ whole_call_parts (call_at (exprs_of here.now.nodes.now) call.now)))) }
{
    let to = judge_target(here, found, target)?;
    judge_whole_call(here, found, call)?;
    tell_kept(found, here.around, to.of, call.callee, call.at);
    Ok(())
}
