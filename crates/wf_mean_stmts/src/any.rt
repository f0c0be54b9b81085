// The values of parts of statements. A part that isn't of the kind that is wanted, which no typed package has, stands for
// the first local.

ghost use Rattle.std.specs.Prelude.{◌≡◌, IsTrue, option_map};
ghost use Rattle.wf_ast.specs.TypedTree.{local};
ghost use Rattle.wf_ast.specs.TypedTrees.{io_in, tree_of};
ghost use Rattle.wf_ast.specs.TypedInvariant.{IsTyped, is_expr, is_numeric, is_logical, is_list, is_io as is_stream};
ghost use Rattle.wf_ast.specs.Value.{span_of, truth_of, value, value_of};
ghost use Rattle.wf_ast.specs.NodeKinds.{node_cond, node_number, node_slice};
ghost use Rattle.wf_mean_exprs.specs.MachineState.{seen_from, slot_seen, span_seen};
ghost use Rattle.wf_mean_stmts.specs.Entries.{itself};
ghost use Rattle.wf_mean_stmts.specs.Stages.{sight_on};

use crate::stage::Stage;
use wf_ast::{ArgId, ExprId, LocalId, Ty, Typed, io_arg};
use wf_mean_exprs::conditions::truth;
use wf_mean_exprs::evaluating::evaluate;
use wf_mean_exprs::numbers::{number, slice};
use wf_mean_exprs::reading::Scene;
use wf_mean_exprs::values::{SliceSpan, Slot};

/// The value of an expression; None where it is stuck.
#[tactic(auto, using(wf_ast::proofs::Accessors::tree_kind))]
pub(crate) fn any_value(scene: &Scene, e: ExprId) -> Option<Slot>
    requires typed { IsTyped scene.now.package.now }
    requires node { IsTrue (is_expr scene.now.package.now e) }
    ensures { option_map slot_seen result ≡ value_of (seen_from scene.now) (tree_of scene.now.package.now e) }
{
    evaluate(scene, e)
}

/// The value of a number.
#[tactic(auto, using(crate::proofs::AnyLemmas::no_number_there))]
pub(crate) fn any_number(scene: &Scene, e: ExprId) -> Option<u64>
    requires typed { IsTyped scene.now.package.now }
    requires node { IsTrue (is_expr scene.now.package.now e) }
    ensures { result ≡ value (seen_from scene.now) (node_number scene.now.package.now e) }
{
    if is_number(scene.package.type_of(e)) {
        number(scene, e)
    } else {
        scene.local_number(LocalId(0))
    }
}

/// The truth value of a condition.
#[tactic(auto, using(crate::proofs::AnyLemmas::no_condition_there))]
pub(crate) fn any_condition(scene: &Scene, e: ExprId) -> Option<bool>
    requires typed { IsTyped scene.now.package.now }
    requires node { IsTrue (is_expr scene.now.package.now e) }
    ensures { result ≡ truth_of (seen_from scene.now) (node_cond scene.now.package.now e) }
{
    if is_flag(scene.package.type_of(e)) {
        truth(scene, e)
    } else {
        is_itself(scene)
    }
}

/// A slice.
#[tactic(auto, using(crate::proofs::AnyLemmas::no_slice_there))]
pub(crate) fn any_slice(scene: &Scene, e: ExprId) -> Option<SliceSpan>
    requires typed { IsTyped scene.now.package.now }
    requires node { IsTrue (is_expr scene.now.package.now e) }
    ensures { option_map span_seen result ≡ span_of (seen_from scene.now) (node_slice scene.now.package.now e) }
{
    if is_slice(scene.package.type_of(e)) {
        slice(scene, e)
    } else {
        scene.local_span(LocalId(0))
    }
}

/// The argument that a reader or a writer is.
#[tactic(auto, using(crate::proofs::AnyLemmas::no_io_there))]
pub(crate) fn any_io(t: &Typed, e: ExprId) -> ArgId
    requires typed { IsTyped t.now }
    requires node { IsTrue (is_expr t.now e) }
    ensures { result.0 ≡ io_in (tree_of t.now e) }
{
    if is_io(t.type_of(e)) {
        io_arg(t, e)
    } else {
        ArgId(0)
    }
}

fn is_itself(scene: &Scene) -> Option<bool>
    ensures { result ≡ itself ((seen_from scene.now).number_at (local 0)) }
{
    scene.local_number(LocalId(0))?;
    Some(true)
}

// Kinds of types.

fn is_number(ty: Ty) -> bool
    ensures { result ≡ is_numeric ty }
{
    matches!(ty, Ty::Num { .. })
}

fn is_flag(ty: Ty) -> bool
    ensures { result ≡ is_logical ty }
{
    matches!(ty, Ty::Flag)
}

fn is_slice(ty: Ty) -> bool
    ensures { result ≡ is_list ty }
{
    matches!(ty, Ty::Slice(_) | Ty::Array { .. })
}

fn is_io(ty: Ty) -> bool
    ensures { result ≡ is_stream ty }
{
    matches!(ty, Ty::Reader | Ty::Writer)
}

// The same on a stage.

/// The value of an expression where a body stands; None where it is stuck.
pub fn value_on(t: &Typed, stage: &Stage, e: ExprId) -> Option<Slot>
    requires typed { IsTyped t.now }
    requires node { IsTrue (is_expr t.now e) }
    ensures { option_map slot_seen result ≡ value_of (sight_on t.now stage.now) (tree_of t.now e) }
{
    any_value(&stage.scene(t), e)
}

/// The value of a number.
pub(crate) fn number_on(t: &Typed, stage: &Stage, e: ExprId) -> Option<u64>
    requires typed { IsTyped t.now }
    requires node { IsTrue (is_expr t.now e) }
    ensures { result ≡ value (sight_on t.now stage.now) (node_number t.now e) }
{
    any_number(&stage.scene(t), e)
}

/// The truth value of a condition.
pub fn condition_on(t: &Typed, stage: &Stage, e: ExprId) -> Option<bool>
    requires typed { IsTyped t.now }
    requires node { IsTrue (is_expr t.now e) }
    ensures { result ≡ truth_of (sight_on t.now stage.now) (node_cond t.now e) }
{
    any_condition(&stage.scene(t), e)
}

/// A slice.
pub(crate) fn slice_on(t: &Typed, stage: &Stage, e: ExprId) -> Option<SliceSpan>
    requires typed { IsTyped t.now }
    requires node { IsTrue (is_expr t.now e) }
    ensures { option_map span_seen result ≡ span_of (sight_on t.now stage.now) (node_slice t.now e) }
{
    any_slice(&stage.scene(t), e)
}
