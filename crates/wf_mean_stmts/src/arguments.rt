// The arguments of calls.

ghost use Rattle.std.specs.Prelude.{◌≡◌, IsTrue, length, map, option_map};
ghost use Rattle.std.specs.List.{list_all};
ghost use Rattle.wf_ast.specs.TypedTrees.{tree_of};
ghost use Rattle.wf_ast.specs.TypedPackage.{variable_of};
ghost use Rattle.wf_ast.specs.TypedInvariant.{IsTyped, is_expr};
ghost use Rattle.wf_meaning.specs.SourceStep.{fits_argument as fits_type, values_of};
ghost use Rattle.wf_mean_exprs.specs.MachineState.{slot_seen};
ghost use Rattle.wf_mean_stmts.specs.Stages.{sight_on};
ghost use Rattle.wf_mean_stmts.specs.Arguments.{Fills, fitting_value};

use crate::any::value_on;
use crate::stage::Stage;
use wf_ast::{ExprId, Ty, Typed, Var};
use wf_mean_exprs::values::Slot;

/// The values of a call's arguments, in order. False where one is stuck or leaves the type of its argument, and where they are
/// not as many as the method's; the slots then hold what they happen to hold.
pub fn fill_args(
    t: &Typed,
    stage: &Stage,
    declared: &[Var],
    args: &[ExprId],
    into: &mut [Slot],
) -> bool
    requires typed { IsTyped t.now }
    requires args { IsTrue (list_all (is_expr t.now) args.now) }
    requires sizes { length into.old ≡ length declared.now }
    ensures values { Fills result (values_of (sight_on t.now stage.now) (map (variable_of t.now) declared.now) (map (tree_of t.now) args.now)) (map slot_seen into.new) }
    ensures size { length into.new ≡ length into.old }
{
    if args.len() != declared.len() {
        return false;
    }
    for i in 0..args.len() {
        match fitting(declared[i].ty, value_on(t, stage, args[i])) {
            Some(v) => into[i] = v,
            None => return false,
        }
    }
    true
}

// A value, where it lies in a type.
fn fitting(ty: Ty, v: Option<Slot>) -> Option<Slot>
    ensures { option_map slot_seen result ≡ fitting_value ty (option_map slot_seen v) }
{
    let v = v?;
    if fits_argument(ty, v) { Some(v) } else { None }
}

/// Whether a value lies in the type of an argument.
pub fn fits_argument(ty: Ty, v: Slot) -> bool
    ensures { result ≡ fits_type ty (slot_seen v) }
{
    match ty {
        Ty::Num { lo, hi, .. } => match v {
            Slot::Num(n) => lo <= n && n <= hi,
            Slot::Truth(_) | Slot::Status(_) | Slot::Elements(_) | Slot::Buffer(_) => false,
        },
        Ty::Flag | Ty::Status | Ty::Reader | Ty::Writer => true,
        Ty::Slice(_) | Ty::Array { .. } | Ty::Part(_) => true,
    }
}
