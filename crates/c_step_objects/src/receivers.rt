// The objects of receivers.

ghost use Rattle.std.specs.Prelude.{◌≡◌, ◌++◌, length, map, IfOk, OnOk};
ghost use Rattle.wf_text.specs.Surface.{Surface};
ghost use Rattle.wf_bufs.specs.SurfaceViews.{receiver_of};
ghost use Rattle.c_text.specs.CNodes.{unit_tree};
ghost use Rattle.c_meaning.specs.CCall.{Program, program_of};
ghost use Rattle.c_meaning.specs.CRun.{receiver_pointer, receiver_objects, make_receivers, made};
ghost use Rattle.c_step_objects.specs.Types.{IsTypes};

use crate::objects::add_objects;
use crate::texts::text_objects;
use crate::types::{Types, types_of};
use c_meaning::values::{CValue, Pointer};
use c_mem::Object;
use c_text::Unit;
use std::alloc::Global;
use wf_bufs::{PublicSurface, ReceiverDecl};
use wf_text::NoMemory;

/// The objects that stand at first, and the pointers to the receivers.
#[derive(Drop)]
pub(crate) struct Objects {
    /// The objects.
    pub(crate) all: Vec<Object>,
    /// The pointers.
    pub(crate) pointers: Vec<CValue>,
}

/// Adds the objects of a receiver; the pointer to it.
fn add_receiver(
    alloc: Global,
    types: &Types,
    receiver: ReceiverDecl,
    all: &mut Vec<Object>,
) -> Result<CValue, NoMemory>
    ensures pointer { IfOk result (λ v. v ≡ receiver_pointer (receiver_of receiver) (length all.old.items)) }
    ensures objects { (p : Program) (surface : Surface) → IsTypes types.now p surface → OnOk result (all.new.items ≡ all.old.items ++ receiver_objects p surface (receiver_of receiver) (length all.old.items)) }
{
    if receiver.null {
        return Ok(CValue::NullPointer);
    }
    let object = all.len();
    let k = types.numbers.get(&receiver.of.0).copied().unwrap_or(0);
    add_objects(alloc, types.shapes.as_slice(), k, all)?;
    Ok(CValue::Address(Pointer {
        object,
        field: 0,
        index: 0,
    }))
}

/// Adds the objects of receivers; the pointers to them.
fn add_receivers(
    alloc: Global,
    types: &Types,
    receivers: &[ReceiverDecl],
    all: &mut Vec<Object>,
) -> Result<Vec<CValue>, NoMemory>
    ensures pointers { (p : Program) (surface : Surface) → IsTypes types.now p surface → IfOk result (λ them. them.items ≡ (make_receivers p surface (map receiver_of receivers.now) all.old.items).pointers) }
    ensures objects { (p : Program) (surface : Surface) → IsTypes types.now p surface → OnOk result (all.new.items ≡ (make_receivers p surface (map receiver_of receivers.now) all.old.items).memory) }
{
    let mut pointers = Vec::new(alloc);
    for receiver in receivers {
        pointers.push(add_receiver(alloc, types, *receiver, all)?)?;
    }
    Ok(pointers)
}

/// The objects of the strings of a unit and of receivers.
pub(crate) fn objects_of(
    alloc: Global,
    unit: &Unit,
    surface: &PublicSurface,
    receivers: &[ReceiverDecl],
) -> Result<Objects, NoMemory>
    ensures objects { IfOk result (λ it. it.all.items ≡ (made (program_of (unit_tree unit.now)) surface.now (map receiver_of receivers.now)).memory) }
    ensures pointers { IfOk result (λ it. it.pointers.items ≡ (made (program_of (unit_tree unit.now)) surface.now (map receiver_of receivers.now)).pointers) }
{
    let types = types_of(alloc, unit, surface)?;
    let mut all = text_objects(alloc, unit)?;
    let pointers = add_receivers(alloc, &types, receivers, &mut all)?;
    Ok(Objects { all, pointers })
}
