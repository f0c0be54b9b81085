// Values that go to locals, fields and elements. Where there is no local, field or element with the number, nothing changes.

ghost use Rattle.std.specs.Prelude.{◌≡◌, map, length, slice_set, IsTrue};
ghost use Rattle.wf_ast.specs.declared.typed_nodes.TypedNodes.{TypedNodes};
ghost use Rattle.wf_ast.specs.TypedTree.{local, field as field_path};
ghost use Rattle.wf_ast.specs.TypedPackage.{PackageTree};
ghost use Rattle.wf_meaning.specs.World.{updated, set_path, held_of, change_held, with_cells, fits_store as fits_in, set_element as set_in_meaning};
ghost use Rattle.wf_mean_exprs.specs.MachineState.{slot_seen, span_seen, store_seen, field_seen, object_seen};
ghost use Rattle.wf_mean_stmts.specs.Stages.{body_on, vars_on, shape, kept_lengths, ChangesField, with_field_changed, Comes};

use crate::stage::Stage;
use wf_ast::{FieldId, LocalId};
use wf_bufs::ByteArrays;
use wf_mean_exprs::objects::{FieldState, ObjectState};
use wf_mean_exprs::values::{SliceSpan, SliceStore, Slot};

/// A value goes to a local.
pub(crate) fn put_local(stage: &mut Stage, x: LocalId, v: Slot)
    ensures vars { (nodes : TypedNodes) → vars_on nodes stage.new ≡ set_path (body_on nodes stage.old) (local x.0) (slot_seen v) (vars_on nodes stage.old) }
    ensures shape { shape stage.new ≡ shape stage.old }
    ensures turns { stage.new.turns ≡ stage.old.turns }
{
    put_slot(stage.frame.locals.as_mut_slice(), x.0, v);
}

/// A value goes to a field of the struct state that the body runs in.
pub(crate) fn put_field(stage: &mut Stage, x: FieldId, v: Slot)
    ensures vars { (nodes : TypedNodes) → vars_on nodes stage.new ≡ set_path (body_on nodes stage.old) (field_path x.0) (slot_seen v) (vars_on nodes stage.old) }
    ensures shape { shape stage.new ≡ shape stage.old }
    ensures turns { stage.new.turns ≡ stage.old.turns }
{
    let object = stage.frame.object;
    set_field(stage.objects.as_mut_slice(), object, x.0, held(v));
}

#[tactic(auto, using(crate::proofs::StoringLemmas::set_to, crate::proofs::StoringLemmas::past_updated))]
fn put_slot(slots: &mut [Slot], x: u32, v: Slot)
    ensures items { map slot_seen slots.new ≡ updated (λ _. slot_seen v) x (map slot_seen slots.old) }
    ensures count { length slots.new ≡ length slots.old }
{
    if (x as usize) < slots.len() {
        slots[x as usize] = v;
    }
}

// A value as a field holds it.
fn held(v: Slot) -> FieldState
    ensures { field_seen result ≡ held_of (slot_seen v) }
{
    match v {
        Slot::Num(n) => FieldState::Num(n),
        Slot::Truth(b) => FieldState::Truth(b),
        Slot::Status(s) => FieldState::Status(s),
        Slot::Elements(_) | Slot::Buffer(_) => FieldState::Num(0),
    }
}

fn set_field(objects: &mut [ObjectState], object: u32, n: u32, v: FieldState)
    ensures objects { (p : PackageTree) → map (object_seen p) objects.new ≡ updated (with_field_changed n (λ _. field_seen v)) object (map (object_seen p) objects.old) }
    ensures kept { map kept_lengths objects.new ≡ map kept_lengths objects.old }
{
    if (object as usize) < objects.len() {
        set_in(&mut objects[object as usize], n, v);
    }
}

fn set_in(state: &mut ObjectState, n: u32, v: FieldState)
    ensures { ChangesField n (λ _. field_seen v) state.old state.new }
{
    if (n as usize) < state.fields.len() {
        state.fields[n as usize] = v;
    }
}

/// A number goes to an element of a slice. False, and nothing changes, where the slice has no such element, or where a byte
/// array would take what is no byte.
pub(crate) fn set_element(stage: &mut Stage, span: SliceSpan, k: u64, n: u64) -> bool
    ensures vars { (nodes : TypedNodes) → Comes result (set_in_meaning (span_seen span) k n (vars_on nodes stage.old)) (vars_on nodes stage.new) }
    ensures shape { shape stage.new ≡ shape stage.old }
    ensures turns { stage.new.turns ≡ stage.old.turns }
{
    if k < span.end.saturating_sub(span.from) && fits_store(span.store, n) {
        set_cell(stage, span.store, span.from + k, n);
        true
    } else {
        false
    }
}

/// Whether a number may go to a store.
pub(crate) fn fits_store(store: SliceStore, n: u64) -> bool
    ensures { result ≡ fits_in (store_seen store) n }
{
    match store {
        SliceStore::HostArray(_) => n < 0x100,
        SliceStore::Nowhere | SliceStore::FieldArray { .. } => true,
    }
}

/// A number goes to an element of a store, which takes it.
pub(crate) fn set_cell(stage: &mut Stage, store: SliceStore, k: u64, n: u64)
    requires fits { IsTrue (fits_in (store_seen store) n) }
    ensures vars { (nodes : TypedNodes) → vars_on nodes stage.new ≡ record (vars_on nodes stage.old) { world = with_cells (store_seen store) (λ xs. slice_set xs k n) (vars_on nodes stage.old).world } }
    ensures shape { shape stage.new ≡ shape stage.old }
    ensures turns { stage.new.turns ≡ stage.old.turns }
{
    match store {
        SliceStore::Nowhere => {}
        SliceStore::HostArray(a) => set_byte(&mut stage.host.arrays, a, k, n as u8),
        SliceStore::FieldArray { object, field } => {
            set_number(stage.objects.as_mut_slice(), object, field, k, n);
        }
    }
}

fn set_byte(arrays: &mut ByteArrays, a: u16, k: u64, b: u8)
    ensures { arrays.new ≡ updated (λ xs. slice_set xs k b) a arrays.old }
{
    if (a as usize) < arrays.len() {
        let array = arrays.at_mut(a as usize);
        let _within = array.set_byte(k, b);
    }
}

fn set_number(objects: &mut [ObjectState], object: u32, field: u32, k: u64, n: u64)
    ensures objects { (p : PackageTree) → map (object_seen p) objects.new ≡ updated (with_field_changed field (change_held (λ xs. slice_set xs k n))) object (map (object_seen p) objects.old) }
    ensures kept { map kept_lengths objects.new ≡ map kept_lengths objects.old }
{
    if (object as usize) < objects.len() {
        set_number_in(&mut objects[object as usize], field, k, n);
    }
}

fn set_number_in(state: &mut ObjectState, field: u32, k: u64, n: u64)
    ensures { ChangesField field (change_held (λ xs. slice_set xs k n)) state.old state.new }
{
    if (field as usize) < state.fields.len() {
        set_number_of(&mut state.fields[field as usize], k, n);
    }
}

fn set_number_of(held: &mut FieldState, k: u64, n: u64)
    ensures { field_seen held.new ≡ change_held (λ xs. slice_set xs k n) (field_seen held.old) }
{
    match held {
        FieldState::Cells(cells) => set_among(cells.as_mut_slice(), k, n),
        _ => {}
    }
}

fn set_among(cells: &mut [u64], k: u64, n: u64)
    ensures { cells.new ≡ slice_set cells.old k n }
{
    if (k as usize) < cells.len() {
        cells[k as usize] = n;
    }
}
