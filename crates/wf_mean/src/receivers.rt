// The receivers of the source's machine.

ghost use Rattle.std.specs.Prelude.{◌≡◌, map, length, None, All};
ghost use Rattle.wf_meaning.specs.SourceState.{cleared, cleared_object};
ghost use Rattle.wf_ast.specs.TypedPackage.{PackageTree};
ghost use Rattle.wf_mean_exprs.specs.MachineState.{field_seen, object_seen};
ghost use Rattle.wf_mean_stmts.specs.Stages.{kept_lengths};

use wf_bufs::ReceiverDecl;
use wf_mean_exprs::objects::{FieldState, KeptBody, LifeState, ObjectState};

/// A receiver as it was declared, with its struct states: its own, and after it those inside it. A null one has none.
#[derive(Drop)]
pub(crate) struct ReceiverState {
    pub decl: ReceiverDecl,
    pub objects: Vec<ObjectState>,
}

/// An init makes all struct states of a receiver ready.
pub(crate) fn clear_objects(objects: &mut [ObjectState])
    ensures cleared { (p : PackageTree) → map (object_seen p) objects.new ≡ map cleared_object (map (object_seen p) objects.old) }
    ensures kept { map kept_lengths objects.new ≡ map kept_lengths objects.old }
{
    for i in 0..objects.len() {
        clear_object(&mut objects[i]);
    }
}

fn clear_object(o: &mut ObjectState)
    ensures cleared { (p : PackageTree) → object_seen p o.new ≡ cleared_object (object_seen p o.old) }
    ensures kept { kept_lengths o.new ≡ kept_lengths o.old }
{
    o.life = LifeState::Ready;
    o.active = None;
    clear_fields(o.fields.as_mut_slice());
    forget_bodies(o.kept.as_mut_slice());
}

fn clear_fields(fields: &mut [FieldState])
    ensures { map field_seen fields.new ≡ map cleared (map field_seen fields.old) }
{
    for i in 0..fields.len() {
        clear_field(&mut fields[i]);
    }
}

fn clear_field(field: &mut FieldState)
    ensures { field_seen field.new ≡ cleared (field_seen field.old) }
{
    match field {
        FieldState::Num(n) => *n = 0,
        FieldState::Truth(b) => *b = false,
        FieldState::Status(s) => *s = 0,
        FieldState::Cells(cells) => cells.as_mut_slice().fill(0),
        FieldState::Part(_) => {}
    }
}

// Nothing remains of any method.
fn forget_bodies(kept: &mut [KeptBody])
    ensures none { All (λ k. k.point ≡ None) kept.new }
    ensures locals { map (λ k. length k.locals.items) kept.new ≡ map (λ k. length k.locals.items) kept.old }
{
    for i in 0..kept.len() {
        kept[i].point = None;
    }
}
