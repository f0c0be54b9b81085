// What goes to a target.

ghost use Rattle.std.specs.Prelude.{◌≡◌, ℕ, IsTrue, option_map, option_and_then};
ghost use Rattle.wf_ast.specs.declared.typed_nodes.TypedNodes.{TypedNodes};
ghost use Rattle.wf_ast.specs.TypedTree.{local, field as field_path, arg, to_element};
ghost use Rattle.wf_text.specs.declared.place.Place.{Place};
ghost use Rattle.wf_ast.specs.TypedTrees.{named, num_type, target_of, optional_target, tree_of, place_of_node, type_of_node};
ghost use Rattle.wf_ast.specs.TypedInvariant.{IsTyped, is_expr, is_numeric, is_optional_expr};
ghost use Rattle.wf_ast.specs.Value.{num};
ghost use Rattle.wf_ast.specs.NodeKinds.{is_number_at, node_number, node_slice};
ghost use Rattle.wf_meaning.specs.World.{Body, Vars, in_range, put_value, set_element as set_in_meaning};
ghost use Rattle.wf_mean_exprs.specs.MachineState.{slot_seen, span_seen};
ghost use Rattle.wf_mean_stmts.specs.Stages.{body_on, vars_on, shape, Comes};
ghost use Rattle.wf_mean_stmts.specs.Targets.{stored_if, taken_by};

use crate::any::{number_on, slice_on};
use crate::stage::Stage;
use crate::storing::{put_field, put_local, set_element};
use wf_ast::{Expr, ExprId, FieldId, LocalId, Ty, Typed};
use wf_mean_exprs::values::{SliceSpan, Slot};

/// What becomes of a value that goes to a variable.
#[derive(Clone, Copy)]
pub(crate) enum Taken {
    /// It stands there.
    Stored,
    /// The variable is no target, and stays.
    Passed,
    /// It leaves the variable's type.
    Stuck,
}

/// A value goes to a target. False where it leaves the target's type, or the target's index or slice is stuck; the
/// variables are then left as they happen to be.
pub fn put(t: &Typed, stage: &mut Stage, target: ExprId, v: Slot) -> bool
    requires typed { IsTyped t.now }
    requires node { IsTrue (is_expr t.now target) }
    ensures vars { Comes result (put_value (body_on t.now stage.old) (target_of (tree_of t.now target)) (slot_seen v) (vars_on t.now stage.old)) (vars_on t.now stage.new) }
    ensures shape { shape stage.new ≡ shape stage.old }
    ensures turns { stage.new.turns ≡ stage.old.turns }
{
    let expr = t.expr(target);
    match t.constant(target) {
        Some(_) => true,
        None => match expr {
            Expr::Local(x) => local_takes(stage, *x, t.type_of(target), v),
            Expr::Field(x) => field_takes(stage, *x, t.type_of(target), v),
            Expr::Arg(_) => arg_takes(t.type_of(target), v),
            Expr::Index { base, at } => element_takes(t, stage, target, *base, *at, v),
            Expr::Number(_) | Expr::Const(_) | Expr::Status(_) | Expr::Truth(_) => true,
            Expr::Cut { .. } | Expr::Convert { .. } | Expr::Not(_) => true,
            Expr::Chain { op, parts } => true,
            Expr::Base { on, sig } => true,
        },
    }
}

/// The same, where a target is given.
pub fn put_if_any(t: &Typed, stage: &mut Stage, target: Option<ExprId>, v: Slot) -> bool
    requires typed { IsTyped t.now }
    requires node { IsTrue (is_optional_expr t.now target) }
    ensures vars { Comes result (put_value (body_on t.now stage.old) (optional_target (tree_of t.now) target) (slot_seen v) (vars_on t.now stage.old)) (vars_on t.now stage.new) }
    ensures shape { shape stage.new ≡ shape stage.old }
    ensures turns { stage.new.turns ≡ stage.old.turns }
{
    match target {
        Some(target) => put(t, stage, target, v),
        None => true,
    }
}

// What a variable of a type does with a value.
fn fate(ty: Ty, v: Slot) -> Taken
    ensures { result ≡ taken_by ty (slot_seen v) }
{
    match ty {
        Ty::Num { lo, hi, .. } => match v {
            Slot::Num(n) => if_fits(lo <= n && n <= hi),
            Slot::Truth(_) | Slot::Status(_) | Slot::Elements(_) | Slot::Buffer(_) => Taken::Stuck,
        },
        Ty::Flag => if_fits(matches!(v, Slot::Truth(_))),
        Ty::Status => if_fits(matches!(v, Slot::Status(_))),
        Ty::Slice(_) => if_fits(matches!(v, Slot::Elements(_))),
        Ty::Reader | Ty::Writer | Ty::Array { .. } | Ty::Part(_) => Taken::Passed,
    }
}

fn if_fits(fits: bool) -> Taken
    ensures { result ≡ stored_if fits }
{
    if fits { Taken::Stored } else { Taken::Stuck }
}

#[tactic(auto, using(crate::proofs::TargetLemmas::named_takes))]
fn local_takes(stage: &mut Stage, x: LocalId, ty: Ty, v: Slot) -> bool
    ensures vars { (nodes : TypedNodes) (at : Place) → Comes result (put_value (body_on nodes stage.old) (target_of (named at ty (local x.0))) (slot_seen v) (vars_on nodes stage.old)) (vars_on nodes stage.new) }
    ensures shape { shape stage.new ≡ shape stage.old }
    ensures turns { stage.new.turns ≡ stage.old.turns }
{
    match fate(ty, v) {
        Taken::Stored => {
            put_local(stage, x, v);
            true
        }
        Taken::Passed => true,
        Taken::Stuck => false,
    }
}

#[tactic(auto, using(crate::proofs::TargetLemmas::named_takes))]
fn field_takes(stage: &mut Stage, x: FieldId, ty: Ty, v: Slot) -> bool
    ensures vars { (nodes : TypedNodes) (at : Place) → Comes result (put_value (body_on nodes stage.old) (target_of (named at ty (field_path x.0))) (slot_seen v) (vars_on nodes stage.old)) (vars_on nodes stage.new) }
    ensures shape { shape stage.new ≡ shape stage.old }
    ensures turns { stage.new.turns ≡ stage.old.turns }
{
    match fate(ty, v) {
        Taken::Stored => {
            put_field(stage, x, v);
            true
        }
        Taken::Passed => true,
        Taken::Stuck => false,
    }
}

// An argument stays as it is.
#[tactic(auto, using(crate::proofs::TargetLemmas::named_takes))]
fn arg_takes(ty: Ty, v: Slot) -> bool
    ensures { (b : Body) (at : Place) (n : ℕ) (vars : Vars) → Comes result (put_value b (target_of (named at ty (arg n))) (slot_seen v) vars) vars }
{
    match fate(ty, v) {
        Taken::Stored => true,
        Taken::Passed => true,
        Taken::Stuck => false,
    }
}

fn element_takes(t: &Typed, stage: &mut Stage, e: ExprId, base: ExprId, at: ExprId, v: Slot) -> bool
    requires node { IsTrue (is_number_at t.now e) }
    requires typed { IsTyped t.now }
    requires base { IsTrue (is_expr t.now base) }
    requires at { IsTrue (is_expr t.now at) }
    ensures vars { Comes result (put_value (body_on t.now stage.old) (to_element (place_of_node t.now e.0) (num_type (type_of_node t.now e.0)) (node_slice t.now base) (node_number t.now at)) (slot_seen v) (vars_on t.now stage.old)) (vars_on t.now stage.new) }
    ensures shape { shape stage.new ≡ shape stage.old }
    ensures turns { stage.new.turns ≡ stage.old.turns }
{
    match v {
        Slot::Num(n) => number_to_element(t, stage, e, base, at, n),
        Slot::Truth(_) | Slot::Status(_) | Slot::Elements(_) | Slot::Buffer(_) => false,
    }
}

fn number_to_element(
    t: &Typed,
    stage: &mut Stage,
    e: ExprId,
    base: ExprId,
    at: ExprId,
    n: u64,
) -> bool
    requires node { IsTrue (is_number_at t.now e) }
    requires typed { IsTyped t.now }
    requires base { IsTrue (is_expr t.now base) }
    requires at { IsTrue (is_expr t.now at) }
    ensures vars { Comes result (put_value (body_on t.now stage.old) (to_element (place_of_node t.now e.0) (num_type (type_of_node t.now e.0)) (node_slice t.now base) (node_number t.now at)) (num n) (vars_on t.now stage.old)) (vars_on t.now stage.new) }
    ensures shape { shape stage.new ≡ shape stage.old }
    ensures turns { stage.new.turns ≡ stage.old.turns }
{
    if !lies_in(t.type_of(e), n) {
        return false;
    }
    let span = slice_on(t, stage, base);
    let k = number_on(t, stage, at);
    put_at(stage, span, k, n)
}

fn put_at(stage: &mut Stage, span: Option<SliceSpan>, k: Option<u64>, n: u64) -> bool
    ensures vars { (nodes : TypedNodes) → Comes result (option_and_then (λ xs. option_and_then (λ k. set_in_meaning xs k n (vars_on nodes stage.old)) k) (option_map span_seen span)) (vars_on nodes stage.new) }
    ensures shape { shape stage.new ≡ shape stage.old }
    ensures turns { stage.new.turns ≡ stage.old.turns }
{
    match (span, k) {
        (Some(span), Some(k)) => set_element(stage, span, k, n),
        (Some(_), None) => false,
        (None, Some(_)) => false,
        (None, None) => false,
    }
}

// Whether a number is one of its type.
fn lies_in(ty: Ty, n: u64) -> bool
    requires { IsTrue (is_numeric ty) }
    ensures { result ≡ in_range (num_type ty) n }
{
    match ty {
        Ty::Num { lo, hi, .. } => lo <= n && n <= hi,
        _ => unreachable!(),
    }
}
