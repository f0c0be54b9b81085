// Where a body stands that runs, and what stands in its variables.

ghost use Rattle.std.specs.Prelude.{◌≡◌, [], length, slice_get, unwrap_or, option_map, option_and_then};
ghost use Rattle.wf_text.specs.StatusText.{category_of};
ghost use Rattle.wf_ast.specs.TypedTree.{local, field, arg};
ghost use Rattle.wf_ast.specs.Value.{element_of, io_buffer};
ghost use Rattle.wf_meaning.specs.World.{as_num, as_truth, as_status, as_span, as_buffer};
ghost use Rattle.wf_mean_exprs.specs.MachineState.{slot_seen, span_seen, store_seen, seen_from};
ghost use Rattle.wf_mean_exprs.specs.Operands.{slot_in_field, cells_in};

use crate::objects::{FieldState, Frame, ObjectState};
use crate::values::{SliceSpan, SliceStore, Slot};
use wf_ast::{ArgId, FieldId, LocalId, Typed};
use wf_bufs::{Buf, BufList, Bufs, ByteArrays};
use wf_text::status_text::category;
use wf_text::{Category, StatusId};

/// What a body sees as it runs: the package, its frame, the struct states of its receiver, and the host's buffers and byte
/// arrays.
#[derive(Clone, Copy)]
pub struct Scene<'a> {
    pub package: &'a Typed,
    pub frame: &'a Frame,
    pub objects: &'a [ObjectState],
    pub host: &'a Bufs,
}

/// What stands at a number; None after the end.
pub(crate) fn slot_at(slots: &[Slot], n: u32) -> Option<Slot>
    ensures { result ≡ slice_get slots.now n }
{
    slots.get(n as usize).copied()
}

/// What stands in a field of a struct state; an array stands there as all of its elements, and a struct state as nothing.
pub(crate) fn field_slot(objects: &[ObjectState], object: u32, n: u32) -> Option<Slot>
    ensures { result ≡ slot_in_field object n (option_and_then (λ o. slice_get o.fields.items n) (slice_get objects.now object)) }
{
    let state = objects.get(object as usize)?;
    held_slot(state.fields.as_slice(), object, n)
}

fn held_slot(fields: &[FieldState], object: u32, n: u32) -> Option<Slot>
    ensures { result ≡ slot_in_field object n (slice_get fields.now n) }
{
    match fields.get(n as usize) {
        Some(FieldState::Num(m)) => Some(Slot::Num(*m)),
        Some(FieldState::Truth(b)) => Some(Slot::Truth(*b)),
        Some(FieldState::Status(s)) => Some(Slot::Status(*s)),
        Some(FieldState::Cells(cells)) => Some(Slot::Elements(whole_array(
            object,
            n,
            cells.as_slice(),
        ))),
        Some(FieldState::Part(_)) => None,
        None => None,
    }
}

// All elements of the array in a field.
fn whole_array(object: u32, n: u32, cells: &[u64]) -> SliceSpan
    ensures { result ≡ record { store = SliceStore.FieldArray object n; from = 0; end = length cells.now } }
{
    SliceSpan {
        store: SliceStore::FieldArray { object, field: n },
        from: 0,
        end: cells.len() as u64,
    }
}

/// The number that stands there.
pub(crate) fn number_in(slot: Option<Slot>) -> Option<u64>
    ensures { result ≡ option_and_then as_num (option_map slot_seen slot) }
{
    match slot {
        Some(Slot::Num(n)) => Some(n),
        _ => None,
    }
}

/// The truth value that stands there.
pub(crate) fn truth_in(slot: Option<Slot>) -> Option<bool>
    ensures { result ≡ option_and_then as_truth (option_map slot_seen slot) }
{
    match slot {
        Some(Slot::Truth(b)) => Some(b),
        _ => None,
    }
}

/// The status that stands there.
pub(crate) fn status_in(slot: Option<Slot>) -> Option<u32>
    ensures { result ≡ option_and_then as_status (option_map slot_seen slot) }
{
    match slot {
        Some(Slot::Status(s)) => Some(s),
        _ => None,
    }
}

/// The slice that stands there.
pub(crate) fn span_in(slot: Option<Slot>) -> Option<SliceSpan>
    ensures { option_map span_seen result ≡ option_and_then as_span (option_map slot_seen slot) }
{
    match slot {
        Some(Slot::Elements(span)) => Some(span),
        _ => None,
    }
}

impl Scene<'_> {
    /// The number in a local.
    #[tactic(auto, using(crate::proofs::Variables::local_number))]
    pub fn local_number(&self, x: LocalId) -> Option<u64>
        ensures { result ≡ (seen_from self.now).number_at (local x.0) }
    {
        number_in(slot_at(self.frame.locals.as_slice(), x.0))
    }

    /// The number in an argument.
    #[tactic(auto, using(crate::proofs::Variables::arg_number))]
    pub(crate) fn arg_number(&self, x: ArgId) -> Option<u64>
        ensures { result ≡ (seen_from self.now).number_at (arg x.0) }
    {
        number_in(slot_at(self.frame.args.as_slice(), x.0))
    }

    /// The number in a field of the struct state that the body runs in.
    #[tactic(auto, using(crate::proofs::Variables::field_number))]
    pub(crate) fn field_number(&self, x: FieldId) -> Option<u64>
        ensures { result ≡ (seen_from self.now).number_at (field x.0) }
    {
        number_in(field_slot(self.objects, self.frame.object, x.0))
    }

    /// The truth value in a local.
    #[tactic(auto, using(crate::proofs::Variables::local_flag))]
    pub(crate) fn local_truth(&self, x: LocalId) -> Option<bool>
        ensures { result ≡ (seen_from self.now).flag_at (local x.0) }
    {
        truth_in(slot_at(self.frame.locals.as_slice(), x.0))
    }

    /// The truth value in an argument.
    #[tactic(auto, using(crate::proofs::Variables::arg_flag))]
    pub(crate) fn arg_truth(&self, x: ArgId) -> Option<bool>
        ensures { result ≡ (seen_from self.now).flag_at (arg x.0) }
    {
        truth_in(slot_at(self.frame.args.as_slice(), x.0))
    }

    /// The truth value in a field of the struct state that the body runs in.
    #[tactic(auto, using(crate::proofs::Variables::field_flag))]
    pub(crate) fn field_truth(&self, x: FieldId) -> Option<bool>
        ensures { result ≡ (seen_from self.now).flag_at (field x.0) }
    {
        truth_in(field_slot(self.objects, self.frame.object, x.0))
    }

    /// The status in a local.
    #[tactic(auto, using(crate::proofs::Variables::local_status))]
    pub(crate) fn local_status(&self, x: LocalId) -> Option<u32>
        ensures { result ≡ (seen_from self.now).status_at (local x.0) }
    {
        status_in(slot_at(self.frame.locals.as_slice(), x.0))
    }

    /// The status in a field of the struct state that the body runs in.
    #[tactic(auto, using(crate::proofs::Variables::field_status))]
    pub(crate) fn field_status(&self, x: FieldId) -> Option<u32>
        ensures { result ≡ (seen_from self.now).status_at (field x.0) }
    {
        status_in(field_slot(self.objects, self.frame.object, x.0))
    }

    /// The kind of a status; of a number that is none of the package's, that of the empty text.
    #[tactic(auto, using(crate::proofs::Variables::text_at))]
    pub(crate) fn category(&self, s: u32) -> Category
        ensures { result ≡ category_of ((seen_from self.now).status_text s) }
    {
        if s < self.package.statuses() {
            category(self.package.status_text(StatusId(s)))
        } else {
            Category::Fine
        }
    }

    /// The slice in a local.
    #[tactic(auto, using(crate::proofs::Variables::local_span))]
    pub fn local_span(&self, x: LocalId) -> Option<SliceSpan>
        ensures { option_map span_seen result ≡ (seen_from self.now).span_at (local x.0) }
    {
        span_in(slot_at(self.frame.locals.as_slice(), x.0))
    }

    /// The slice in an argument.
    #[tactic(auto, using(crate::proofs::Variables::arg_span))]
    pub(crate) fn arg_span(&self, x: ArgId) -> Option<SliceSpan>
        ensures { option_map span_seen result ≡ (seen_from self.now).span_at (arg x.0) }
    {
        span_in(slot_at(self.frame.args.as_slice(), x.0))
    }

    /// The array in a field of the struct state that the body runs in, as a slice of all of its elements.
    #[tactic(auto, using(crate::proofs::Variables::field_span))]
    pub(crate) fn field_span(&self, x: FieldId) -> Option<SliceSpan>
        ensures { option_map span_seen result ≡ (seen_from self.now).span_at (field x.0) }
    {
        span_in(field_slot(self.objects, self.frame.object, x.0))
    }

    /// The number of the buffer of a reader or a writer.
    #[tactic(auto, using(crate::proofs::Variables::arg_number_of_buffer))]
    pub fn buffer_number(&self, x: ArgId) -> Option<u16>
        ensures { result ≡ (seen_from self.now).buffer_number x.0 }
    {
        buffer_in(slot_at(self.frame.args.as_slice(), x.0))
    }

    /// The buffer of a reader or a writer.
    #[tactic(auto, using(crate::proofs::Variables::arg_buffer))]
    pub(crate) fn buffer(&self, x: ArgId) -> Option<&Buf>
        ensures { option_map (λ b. b.now) result ≡ io_buffer (seen_from self.now) x.0 }
    {
        let k = buffer_in(slot_at(self.frame.args.as_slice(), x.0))?;
        buffer_at(&self.host.bufs, k as usize)
    }

    /// An element of a slice; None where it has no such element.
    pub(crate) fn element(&self, span: SliceSpan, k: u64) -> Option<u64>
        ensures { result ≡ element_of (seen_from self.now) (span_seen span) k }
    {
        if k < span.end.saturating_sub(span.from) {
            self.cell(span.store, span.from + k)
        } else {
            None
        }
    }

    /// The element of a store with this number.
    #[tactic(auto, using(crate::proofs::Variables::no_cell, crate::proofs::Variables::host_cells, crate::proofs::Variables::field_cells))]
    pub fn cell(&self, store: SliceStore, k: u64) -> Option<u64>
        ensures { result ≡ slice_get ((seen_from self.now).cells_at (store_seen store)) k }
    {
        match store {
            SliceStore::Nowhere => None,
            SliceStore::HostArray(a) => host_cell(&self.host.arrays, a as usize, k),
            SliceStore::FieldArray { object, field } => field_cell(self.objects, object, field, k),
        }
    }
}

fn buffer_in(slot: Option<Slot>) -> Option<u16>
    ensures { result ≡ option_and_then as_buffer (option_map slot_seen slot) }
{
    match slot {
        Some(Slot::Buffer(k)) => Some(k),
        _ => None,
    }
}

fn buffer_at(bufs: &BufList, k: usize) -> Option<&Buf>
    ensures { option_map (λ b. b.now) result ≡ slice_get bufs.now k }
{
    if k < bufs.len() {
        Some(bufs.at(k))
    } else {
        None
    }
}

fn host_cell(arrays: &ByteArrays, a: usize, k: u64) -> Option<u64>
    ensures { result ≡ slice_get (unwrap_or (slice_get arrays.now a) []) k }
{
    if a < arrays.len() {
        byte_at(arrays.at(a).bytes(), k)
    } else {
        None
    }
}

fn byte_at(bytes: &[u8], k: u64) -> Option<u64>
    ensures { result ≡ slice_get bytes.now k }
{
    Some(*bytes.get(k as usize)? as u64)
}

fn field_cell(objects: &[ObjectState], object: u32, field: u32, k: u64) -> Option<u64>
    ensures { result ≡ slice_get (cells_in (option_and_then (λ o. slice_get o.fields.items field) (slice_get objects.now object))) k }
{
    let state = objects.get(object as usize)?;
    held_cell(state.fields.as_slice(), field, k)
}

fn held_cell(fields: &[FieldState], field: u32, k: u64) -> Option<u64>
    ensures { result ≡ slice_get (cells_in (slice_get fields.now field)) k }
{
    match fields.get(field as usize) {
        Some(FieldState::Cells(cells)) => number_at(cells.as_slice(), k),
        _ => None,
    }
}

fn number_at(cells: &[u64], k: u64) -> Option<u64>
    ensures { result ≡ slice_get cells.now k }
{
    cells.get(k as usize).copied()
}
