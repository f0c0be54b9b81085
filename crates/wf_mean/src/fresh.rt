// The struct states of new receivers, and the frames of a package's methods: all the memory that the machine takes.

ghost use Rattle.std.specs.Prelude.{◌≡◌, ◌+◌, ◌++◌, ◌∷◌, [], length, map, reverse, None, All, IfOk, OnOk};
ghost use Rattle.wf_ast.specs.TypedInvariant.{IsTyped};
ghost use Rattle.wf_ast.specs.TypedPackage.{package_of};
ghost use Rattle.wf_bufs.specs.SurfaceViews.{receiver_of};
ghost use Rattle.wf_meaning.specs.SourceState.{fresh_field, fresh_receiver, fresh_state};
ghost use Rattle.wf_mean_exprs.specs.MachineState.{field_seen, object_seen};
ghost use Rattle.wf_mean_runs.specs.Frames.{local_counts, sizes_for, sizes_of};
ghost use Rattle.wf_mean_stmts.specs.Stages.{kept_lengths};
ghost use Rattle.wf_mean.specs.Machines.{AreFrames, KeepAll, ReceiversKeepAll, receiver_seen, receivers_seen};
ghost use Rattle.wf_mean.specs.Sizes.{AreSizes, field_types, fields_from, raw_with, states_of, structs_in};

use crate::receivers::ReceiverState;
use crate::sizes::{fields_of, size_inside, struct_sizes, sum};
use std::alloc::Global;
use wf_ast::{Ty, Typed, Var};
use wf_bufs::ReceiverDecl;
use wf_mean_exprs::objects::{FieldState, Frame, KeptBody, LifeState, ObjectState, Progress};
use wf_mean_exprs::values::Slot;
use wf_text::{MethodId, NoMemory};

fn slots(alloc: Global, count: usize) -> Result<Vec<Slot>, NoMemory>
    ensures { IfOk result (λ slots. length slots.items ≡ count) }
{
    let slots = vec![in alloc; Slot::Num(0); count]?;
    Ok(slots)
}

// What is kept of a method with so many locals, of which nothing remains.
fn fresh_body(alloc: Global, locals: usize) -> Result<KeptBody, NoMemory>
    ensures none { IfOk result (λ kept. kept.point ≡ None) }
    ensures locals { IfOk result (λ kept. length kept.locals.items ≡ locals) }
{
    let locals = slots(alloc, locals)?;
    Ok(KeptBody {
        point: None,
        done: Progress::Untouched,
        locals,
    })
}

// What is kept of each method at first.
fn fresh_bodies(alloc: Global, t: &Typed) -> Result<Vec<KeptBody>, NoMemory>
    ensures none { IfOk result (λ kept. All (λ k. k.point ≡ None) kept.items) }
    ensures locals { IfOk result (λ kept. map (λ k. length k.locals.items) kept.items ≡ local_counts t.now) }
{
    let mut kept = Vec::new(alloc);
    for m in 0..t.methods() {
        let locals = t.method(MethodId(m)).locals.as_slice().len();
        let body = fresh_body(alloc, locals)?;
        kept.push(body)?;
    }
    Ok(kept)
}

// A struct state that was never made ready, with these fields.
fn raw_object(alloc: Global, t: &Typed, fields: Vec<FieldState>) -> Result<ObjectState, NoMemory>
    requires typed { IsTyped t.now }
    ensures raw { IfOk result (λ o. object_seen (package_of t.now) o ≡ raw_with (package_of t.now) (map field_seen fields.items)) }
    ensures kept { IfOk result (λ o. kept_lengths o ≡ local_counts t.now) }
{
    let kept = fresh_bodies(alloc, t)?;
    Ok(ObjectState {
        life: LifeState::Raw,
        fields,
        active: None,
        kept,
    })
}

// The number of a struct state; want of memory where it is no such number.
fn number(n: usize) -> Result<u32, NoMemory>
    ensures { IfOk result (λ number. number ≡ n) }
{
    u32::try_from(n).map_err(|_| NoMemory)
}

// What stands in a field of this type at first. The struct state in a field of struct type has the number `next`.
fn new_field(alloc: Global, next: usize, ty: Ty) -> Result<FieldState, NoMemory>
    ensures { IfOk result (λ field. field_seen field ≡ fresh_field next ty) }
{
    match ty {
        Ty::Num { .. } => Ok(FieldState::Num(0)),
        Ty::Flag => Ok(FieldState::Truth(false)),
        Ty::Status => Ok(FieldState::Status(0)),
        Ty::Array { len, .. } => {
            let cells = vec![in alloc; 0; len as usize]?;
            Ok(FieldState::Cells(cells))
        }
        Ty::Part(_) => {
            let number = number(next)?;
            Ok(FieldState::Part(number))
        }
        Ty::Reader => Ok(FieldState::Num(0)),
        Ty::Writer => Ok(FieldState::Num(0)),
        Ty::Slice(_) => Ok(FieldState::Num(0)),
    }
}

// What stands in these fields at first, where the struct states inside them are numbered from `from` on.
fn new_fields(
    alloc: Global,
    sizes: &[usize],
    declared: &[Var],
    from: usize,
) -> Result<Vec<FieldState>, NoMemory>
    ensures { IfOk result (λ fields. map field_seen fields.items ≡ fields_from sizes.now from (map (λ x. x.ty) declared.now)) }
{
    let mut fields = Vec::new(alloc);
    let mut next = from;
    for i in 0..declared.len() {
        let ty = declared[i].ty;
        let field = new_field(alloc, next, ty)?;
        fields.push(field)?;
        next = sum(next, size_inside(sizes, ty))?;
    }
    Ok(fields)
}

// Puts the numbers of the structs in these fields on a stack, the first one on top.
fn put_inside(declared: &[Var], left: &mut Vec<u32>) -> Result<(), NoMemory>
    ensures { OnOk result (reverse left.new.items ≡ structs_in (map (λ x. x.ty) declared.now) ++ reverse left.old.items) }
{
    let mut i = declared.len();
    while i > 0 {
        i -= 1;
        match declared[i].ty {
            Ty::Part(s) => left.push(s.0)?,
            Ty::Num { .. } | Ty::Flag | Ty::Status | Ty::Reader => {}
            Ty::Writer | Ty::Slice(_) | Ty::Array { .. } => {}
        }
    }
    Ok(())
}

// Adds a struct state of the struct `s`, and puts the structs of those inside it on the stack of what is left.
fn add_object(
    alloc: Global,
    t: &Typed,
    sizes: &[usize],
    s: u32,
    left: &mut Vec<u32>,
    objects: &mut Vec<ObjectState>,
) -> Result<(), NoMemory>
    requires typed { IsTyped t.now }
    requires kept { KeepAll t.now objects.old.items }
    ensures left { OnOk result (reverse left.new.items ≡ structs_in (field_types (package_of t.now) s) ++ reverse left.old.items) }
    ensures added { OnOk result (map (object_seen (package_of t.now)) objects.new.items ≡ map (object_seen (package_of t.now)) objects.old.items ++ raw_with (package_of t.now) (fields_from sizes.now (length objects.old.items + 1) (field_types (package_of t.now) s)) ∷ []) }
    ensures kept { OnOk result (KeepAll t.now objects.new.items) }
{
    let declared = fields_of(t, s);
    put_inside(declared, left)?;
    let inside = sum(objects.len(), 1)?;
    let fields = new_fields(alloc, sizes, declared, inside)?;
    let object = raw_object(alloc, t, fields)?;
    objects.push(object)?;
    Ok(())
}

// Adds a struct state of the struct `s` and those inside it, each before those inside it and after those that stand before it.
fn add_objects(
    alloc: Global,
    t: &Typed,
    sizes: &[usize],
    s: u32,
    objects: &mut Vec<ObjectState>,
) -> Result<(), NoMemory>
    requires typed { IsTyped t.now }
    requires sizes { AreSizes (package_of t.now) sizes.now }
    requires kept { KeepAll t.now objects.old.items }
    ensures added { OnOk result (map (object_seen (package_of t.now)) objects.new.items ≡ map (object_seen (package_of t.now)) objects.old.items ++ states_of (package_of t.now) s (length objects.old.items)) }
    ensures kept { OnOk result (KeepAll t.now objects.new.items) }
{
    let mut left = Vec::new(alloc);
    left.push(s)?;
    while let Some(s) = left.pop() {
        add_object(alloc, t, sizes, s, &mut left, objects)?;
    }
    Ok(())
}

// A new receiver.
fn new_receiver(
    alloc: Global,
    t: &Typed,
    sizes: &[usize],
    decl: ReceiverDecl,
) -> Result<ReceiverState, NoMemory>
    requires typed { IsTyped t.now }
    requires sizes { AreSizes (package_of t.now) sizes.now }
    ensures declared { IfOk result (λ r. r.decl ≡ decl) }
    ensures fresh { IfOk result (λ r. receiver_seen (package_of t.now) r ≡ fresh_receiver (package_of t.now) decl.null decl.of.0) }
    ensures kept { IfOk result (λ r. KeepAll t.now r.objects.items) }
{
    let mut objects = Vec::new(alloc);
    if decl.null {
        return Ok(ReceiverState { decl, objects });
    }
    add_objects(alloc, t, sizes, decl.of.0, &mut objects)?;
    Ok(ReceiverState { decl, objects })
}

/// New receivers, as they are declared.
pub(crate) fn new_receivers(
    alloc: Global,
    t: &Typed,
    declared: &[ReceiverDecl],
) -> Result<Vec<ReceiverState>, NoMemory>
    requires typed { IsTyped t.now }
    ensures declared { IfOk result (λ all. map (λ r. r.decl) all.items ≡ declared.now) }
    ensures fresh { IfOk result (λ all. receivers_seen (package_of t.now) all.items ≡ fresh_state (package_of t.now) (map receiver_of declared.now)) }
    ensures kept { IfOk result (λ all. ReceiversKeepAll t.now all.items) }
{
    let sizes = struct_sizes(alloc, t)?;
    let mut all = Vec::new(alloc);
    for i in 0..declared.len() {
        let receiver = new_receiver(alloc, t, &sizes, declared[i])?;
        all.push(receiver)?;
    }
    Ok(all)
}

// A frame for the method with this number. A number that names no method gets an empty one.
fn new_frame(alloc: Global, t: &Typed, m: u32) -> Result<Frame, NoMemory>
    ensures { IfOk result (λ frame. sizes_of frame ≡ sizes_for t.now m) }
{
    if m >= t.methods() {
        return empty_frame(alloc);
    }
    let method = t.method(MethodId(m));
    frame_of(
        alloc,
        MethodId(m),
        method.locals.as_slice().len(),
        method.args.as_slice().len(),
    )
}

// A frame with so many locals and arguments.
fn frame_of(alloc: Global, method: MethodId, locals: usize, args: usize) -> Result<Frame, NoMemory>
    ensures { IfOk result (λ frame. sizes_of frame ≡ record { locals = locals; args = args }) }
{
    let locals = slots(alloc, locals)?;
    let args = slots(alloc, args)?;
    Ok(Frame {
        method,
        object: 0,
        locals,
        args,
    })
}

/// A frame without locals and arguments.
pub(crate) fn empty_frame(alloc: Global) -> Result<Frame, NoMemory>
    ensures { IfOk result (λ frame. sizes_of frame ≡ record { locals = 0; args = 0 }) }
{
    frame_of(alloc, MethodId(0), 0, 0)
}

/// A frame for each method, in the package's order of calls.
pub(crate) fn new_frames(alloc: Global, t: &Typed) -> Result<Vec<Frame>, NoMemory>
    ensures { IfOk result (λ frames. AreFrames t.now frames.items) }
{
    let order = t.order();
    let mut frames = Vec::new(alloc);
    for i in 0..order.len() {
        let frame = new_frame(alloc, t, order[i])?;
        frames.push(frame)?;
    }
    Ok(frames)
}
