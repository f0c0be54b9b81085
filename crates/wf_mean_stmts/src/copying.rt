// Copies of elements to slices and to writers. Elements are copied one after the other, from the end where the target stands
// after the source, so that all are copied as they were before.

ghost use Rattle.std.specs.Prelude.{◌≡◌, ◌≤◌, ◌<◌, ◌+◌, ◌^◌, ℕ, [], ◌∷◌, IsTrue, nat_lt, Some, true, length, nat_le, option_and_then, slice_get, slice_set, take, unwrap_or};
ghost use Rattle.std.specs.List.{list_all};
ghost use Rattle.wf_base.specs.BaseOps.{Buffer, appended, has_room};
ghost use Rattle.wf_ast.specs.declared.typed_nodes.TypedNodes.{TypedNodes};
ghost use Rattle.wf_meaning.specs.World.{fits_store as fits_in, with_cells};
ghost use Rattle.wf_meaning.specs.SourceStep.{are_bytes, change_buffer, takes_all};
ghost use Rattle.wf_mean_exprs.specs.MachineState.{store_seen, span_seen};
ghost use Rattle.wf_mean_stmts.specs.Stages.{Comes, shape, vars_on};
ghost use Rattle.wf_mean_stmts.specs.Copies.{PutsOut, cells_on, copied_if, elements_on, with_set};
ghost use Rattle.wf_mean_exprs.specs.Operands.{cells_in};

use crate::awaiting::give_at;
use crate::stage::Stage;
use crate::storing::{fits_store, set_cell};
use wf_ast::Typed;
use wf_bufs::ByteArrays;
use wf_mean_exprs::objects::{FieldState, ObjectState};
use wf_mean_exprs::values::{SliceSpan, SliceStore};

/// How many elements a slice has.
pub(crate) fn count(span: SliceSpan) -> u64
    ensures { result ≡ (span_seen span).count }
{
    span.end.saturating_sub(span.from)
}

// How many elements a store has.
fn store_len(stage: &Stage, store: SliceStore) -> u64
    ensures { (nodes : TypedNodes) → result ≡ length (cells_on nodes stage.now store) }
{
    match store {
        SliceStore::Nowhere => 0,
        SliceStore::HostArray(a) => array_len(&stage.host.arrays, a),
        SliceStore::FieldArray { object, field } => {
            field_len(stage.objects.as_slice(), object, field)
        }
    }
}

fn array_len(arrays: &ByteArrays, a: u16) -> u64
    ensures { result ≡ length (unwrap_or (slice_get arrays.now a) []) }
{
    if (a as usize) < arrays.len() {
        arrays.at(a as usize).bytes().len() as u64
    } else {
        0
    }
}

fn field_len(objects: &[ObjectState], object: u32, field: u32) -> u64
    ensures { result ≡ length (cells_in (option_and_then (λ o. slice_get o.fields.items field) (slice_get objects.now object))) }
{
    match objects.get(object as usize) {
        Some(state) => held_len(state.fields.as_slice(), field),
        None => 0,
    }
}

fn held_len(fields: &[FieldState], field: u32) -> u64
    ensures { result ≡ length (cells_in (slice_get fields.now field)) }
{
    match fields.get(field as usize) {
        Some(FieldState::Cells(cells)) => cells.as_slice().len() as u64,
        _ => 0,
    }
}

// The element of a store with this number.
fn cell(t: &Typed, stage: &Stage, store: SliceStore, k: u64) -> Option<u64>
    ensures { result ≡ slice_get (cells_on t.now stage.now store) k }
{
    stage.scene(t).cell(store, k)
}

/// How many elements of a slice stand in its store.
#[tactic(auto, using(crate::proofs::CopyLemmas::elements_count))]
pub(crate) fn elements_len(t: &Typed, stage: &Stage, span: SliceSpan) -> u64
    ensures len { result ≡ length (elements_on t.now stage.now span) }
    ensures most { result ≤ (span_seen span).count }
{
    let there = store_len(stage, span.store).saturating_sub(span.from);
    count(span).min(there)
}

/// Whether a slice lies in its store.
pub(crate) fn lies_in_store(t: &Typed, stage: &Stage, span: SliceSpan) -> bool
    ensures { result ≡ nat_le ((span_seen span).from + (span_seen span).count) (length (cells_on t.now stage.now span.store)) }
{
    let there = store_len(stage, span.store);
    let _package = t;
    count(span) <= there && span.from <= there - count(span)
}

/// Whether all elements of a slice may go to a store.
pub(crate) fn all_fit(t: &Typed, stage: &Stage, store: SliceStore, span: SliceSpan) -> bool
    ensures { result ≡ list_all (fits_in (store_seen store)) (elements_on t.now stage.now span) }
{
    for i in 0..elements_len(t, stage, span) {
        if !fits_at(t, stage, store, span, i) {
            return false;
        }
    }
    true
}

fn fits_at(t: &Typed, stage: &Stage, store: SliceStore, span: SliceSpan, i: u64) -> bool
    requires within { i < (span_seen span).count }
    ensures { (v : ℕ) → slice_get (cells_on t.now stage.now span.store) (span.from + i) ≡ Some v → result ≡ fits_in (store_seen store) v }
{
    match cell(t, stage, span.store, span.from + i) {
        Some(v) => fits_store(store, v),
        None => true,
    }
}

// One element goes from one slice to another, where it may.
fn copy_one(t: &Typed, stage: &mut Stage, to: SliceSpan, from: SliceSpan, i: u64)
    requires to { i < (span_seen to).count }
    requires from { i < (span_seen from).count }
    ensures locals { (vars_on t.now stage.new).locals ≡ (vars_on t.now stage.old).locals }
    ensures vars { (v : ℕ) → slice_get (cells_on t.now stage.old from.store) (from.from + i) ≡ Some v → fits_in (store_seen to.store) v ≡ true → vars_on t.now stage.new ≡ record (vars_on t.now stage.old) { world = with_cells (store_seen to.store) (λ xs. slice_set xs (to.from + i) v) (vars_on t.now stage.old).world } }
    ensures shape { shape stage.new ≡ shape stage.old }
    ensures turns { stage.new.turns ≡ stage.old.turns }
{
    match cell(t, stage, from.store, from.from + i) {
        Some(v) => {
            if fits_store(to.store, v) {
                set_cell(stage, to.store, to.from + i, v);
            }
        }
        None => {}
    }
}

// Elements are copied upwards: each before those after it.
fn copy_up(t: &Typed, stage: &mut Stage, to: SliceSpan, from: SliceSpan, n: u64)
    requires up { to.from ≤ from.from }
    requires to { n ≤ (span_seen to).count }
    requires from { n ≤ length (elements_on t.now stage.old from) }
    requires fits { IsTrue (list_all (fits_in (store_seen to.store)) (elements_on t.now stage.old from)) }
    ensures vars { vars_on t.now stage.new ≡ with_set to (take n (elements_on t.now stage.old from)) (vars_on t.now stage.old) }
    ensures shape { shape stage.new ≡ shape stage.old }
    ensures turns { stage.new.turns ≡ stage.old.turns }
{
    for i in 0..n {
        copy_one(t, stage, to, from, i);
    }
}

// Elements are copied downwards: each after those that stand after it.
fn copy_down(t: &Typed, stage: &mut Stage, to: SliceSpan, from: SliceSpan, n: u64)
    requires down { from.from < to.from }
    requires to { n ≤ (span_seen to).count }
    requires from { n ≤ length (elements_on t.now stage.old from) }
    requires fits { IsTrue (list_all (fits_in (store_seen to.store)) (elements_on t.now stage.old from)) }
    ensures vars { vars_on t.now stage.new ≡ with_set to (take n (elements_on t.now stage.old from)) (vars_on t.now stage.old) }
    ensures shape { shape stage.new ≡ shape stage.old }
    ensures turns { stage.new.turns ≡ stage.old.turns }
{
    let mut i = n;
    while 0 < i {
        i -= 1;
        copy_one(t, stage, to, from, i);
    }
}

/// The elements of a slice go to another one, as they were before, as many as the shorter has. False, and nothing is copied,
/// where the target doesn't lie in its store, or doesn't take an element.
pub(crate) fn copy_elements(t: &Typed, stage: &mut Stage, to: SliceSpan, from: SliceSpan) -> bool
    ensures vars { Comes result (copied_if (takes_all (vars_on t.now stage.old) (span_seen to) (elements_on t.now stage.old from)) (span_seen to) (span_seen from) (vars_on t.now stage.old)) (vars_on t.now stage.new) }
    ensures shape { shape stage.new ≡ shape stage.old }
    ensures turns { stage.new.turns ≡ stage.old.turns }
{
    if !lies_in_store(t, stage, to) || !all_fit(t, stage, to.store, from) {
        return false;
    }
    let n = count(to).min(elements_len(t, stage, from));
    if to.from <= from.from {
        copy_up(t, stage, to, from, n);
    } else {
        copy_down(t, stage, to, from, n);
    }
    true
}

/// The elements of a slice go to a buffer, as many as there is room for, and how many these are. None, and nothing is written,
/// where one of the elements is no byte.
pub(crate) fn copy_out(t: &Typed, stage: &mut Stage, k: u16, from: SliceSpan) -> Option<u64>
    requires there { k < length stage.old.host.bufs }
    ensures vars { (buffer : Buffer) → slice_get stage.old.host.bufs k ≡ Some buffer → PutsOut result (are_bytes (elements_on t.now stage.old from)) (elements_on t.now stage.old from) k buffer (vars_on t.now stage.old) (vars_on t.now stage.new) }
    ensures shape { shape stage.new ≡ shape stage.old }
    ensures turns { stage.new.turns ≡ stage.old.turns }
{
    if !all_fit(t, stage, SliceStore::HostArray(0), from) {
        return None;
    }
    let n = elements_len(t, stage, from).min(stage.host.bufs.at(k as usize).writer_length());
    for i in 0..n {
        write_element(t, stage, k, from, i);
    }
    Some(n)
}

// An element goes to a buffer that has room, where it is a byte.
fn write_element(t: &Typed, stage: &mut Stage, k: u16, from: SliceSpan, i: u64)
    requires there { k < length stage.old.host.bufs }
    requires from { i < (span_seen from).count }
    ensures vars { (v : ℕ) (buffer : Buffer) → slice_get (cells_on t.now stage.old from.store) (from.from + i) ≡ Some v → nat_lt v (2 ^ 8) ≡ true → slice_get stage.old.host.bufs k ≡ Some buffer → has_room buffer ≡ true → vars_on t.now stage.new ≡ change_buffer k (appended (v ∷ [])) (vars_on t.now stage.old) }
    ensures count { length stage.new.host.bufs ≡ length stage.old.host.bufs }
    ensures shape { shape stage.new ≡ shape stage.old }
    ensures turns { stage.new.turns ≡ stage.old.turns }
{
    match cell(t, stage, from.store, from.from + i) {
        Some(v) => {
            if v < 0x100 {
                let _room = give_at(&mut stage.host.bufs, k as usize, v as u8);
            }
        }
        None => {}
    }
}
