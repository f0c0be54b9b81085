// The value of an expression of any kind in the source's machine.

ghost use Rattle.std.specs.Prelude.{◌≡◌, IsTrue, option_map};
ghost use Rattle.wf_ast.specs.TypedTrees.{tree_of, type_of_node};
ghost use Rattle.wf_ast.specs.TypedInvariant.{is_expr, is_tree_of};
ghost use Rattle.wf_ast.specs.Value.{value_of};
ghost use Rattle.wf_ast.specs.Value as values;
ghost use Rattle.wf_mean_exprs.specs.MachineState.{seen_from, slot_seen, span_seen};

use crate::conditions::{status, truth};
use crate::numbers::{number, slice};
use crate::reading::Scene;
use crate::values::{SliceSpan, Slot};
use wf_ast::{ExprId, Ty, io_arg};

/// The value of an expression, whose tree is of the kind of its type, as every one of a typed package is; None where it is stuck.
pub fn evaluate(scene: &Scene, e: ExprId) -> Option<Slot>
    requires node { IsTrue (is_expr scene.now.package.now e) }
    requires kind { IsTrue (is_tree_of (type_of_node scene.now.package.now e.0) (tree_of scene.now.package.now e)) }
    ensures { option_map slot_seen result ≡ value_of (seen_from scene.now) (tree_of scene.now.package.now e) }
{
    match scene.package.type_of(e) {
        Ty::Num { .. } => number_slot(number(scene, e)),
        Ty::Flag => truth_slot(truth(scene, e)),
        Ty::Status => status_slot(status(scene, e)),
        Ty::Slice(_) => span_slot(slice(scene, e)),
        Ty::Array { .. } => span_slot(slice(scene, e)),
        Ty::Reader => buffer_slot(scene.buffer_number(io_arg(scene.package, e))),
        Ty::Writer => buffer_slot(scene.buffer_number(io_arg(scene.package, e))),
        Ty::Part(_) => unreachable!(),
    }
}

fn number_slot(n: Option<u64>) -> Option<Slot>
    ensures { option_map slot_seen result ≡ option_map values.num n }
{
    Some(Slot::Num(n?))
}

fn truth_slot(b: Option<bool>) -> Option<Slot>
    ensures { option_map slot_seen result ≡ option_map values.truth_value b }
{
    Some(Slot::Truth(b?))
}

fn status_slot(s: Option<u32>) -> Option<Slot>
    ensures { option_map slot_seen result ≡ option_map values.status_number s }
{
    Some(Slot::Status(s?))
}

fn span_slot(span: Option<SliceSpan>) -> Option<Slot>
    ensures { option_map slot_seen result ≡ option_map values.span (option_map span_seen span) }
{
    Some(Slot::Elements(span?))
}

fn buffer_slot(k: Option<u16>) -> Option<Slot>
    ensures { option_map slot_seen result ≡ option_map values.buffer k }
{
    Some(Slot::Buffer(k?))
}
