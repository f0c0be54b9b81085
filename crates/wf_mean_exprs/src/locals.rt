// What a body does to its locals, and what is kept of them between calls.

ghost use Rattle.std.specs.Prelude.{◌≡◌, map, length};
ghost use Rattle.wf_meaning.specs.World.{kept_local as kept_value, kept_locals};
ghost use Rattle.wf_meaning.specs.SourceCall.{fresh_local as fresh_value};
ghost use Rattle.wf_mean_exprs.specs.MachineState.{slot_seen};

use crate::values::{SliceSpan, SliceStore, Slot};
use wf_ast::{Ty, Var};

/// A method begins with its locals zero, false, ok and empty.
pub fn begin_locals(types: &[Var], locals: &mut [Slot])
    requires { length types.now ≡ length locals.old }
    ensures { map slot_seen locals.new ≡ map (λ x. fresh_value x.ty) types.now }
{
    for i in 0..locals.len() {
        locals[i] = fresh_slot(types[i].ty);
    }
}

fn fresh_slot(ty: Ty) -> Slot
    ensures { slot_seen result ≡ fresh_value ty }
{
    match ty {
        Ty::Num { .. } => Slot::Num(0),
        Ty::Flag => Slot::Truth(false),
        Ty::Status => Slot::Status(0),
        Ty::Reader | Ty::Writer | Ty::Slice(_) => nothing(),
        Ty::Array { .. } | Ty::Part(_) => nothing(),
    }
}

// The empty slice.
fn nothing() -> Slot
    ensures { result ≡ Slot.Elements (record { store = SliceStore.Nowhere; from = 0; end = 0 }) }
{
    Slot::Elements(SliceSpan {
        store: SliceStore::Nowhere,
        from: 0,
        end: 0,
    })
}

/// What is kept of locals at a suspension: slices become empty.
pub fn keep_locals(locals: &[Slot], kept: &mut [Slot])
    requires { length locals.now ≡ length kept.old }
    ensures { map slot_seen kept.new ≡ kept_locals (map slot_seen locals.now) }
{
    for i in 0..kept.len() {
        kept[i] = kept_slot(locals[i]);
    }
}

fn kept_slot(slot: Slot) -> Slot
    ensures { slot_seen result ≡ kept_value (slot_seen slot) }
{
    match slot {
        Slot::Num(n) => Slot::Num(n),
        Slot::Truth(b) => Slot::Truth(b),
        Slot::Status(s) => Slot::Status(s),
        Slot::Elements(_) => nothing(),
        Slot::Buffer(k) => Slot::Buffer(k),
    }
}
