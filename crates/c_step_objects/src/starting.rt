// A machine's memory at first, and what is kept for calls.

ghost use Rattle.std.specs.Prelude.{◌≡◌, ◌+◌, ◌<◌, length, map, vec_capacity, IfOk};
ghost use Rattle.wf_bufs.specs.SurfaceViews.{receiver_of};
ghost use Rattle.c_text.specs.CNodes.{unit_tree};
ghost use Rattle.c_meaning.specs.CCall.{program_of};
ghost use Rattle.c_meaning.specs.CRun.{made, most_args};
ghost use Rattle.c_mem.specs.MemoryViews.{memory};
ghost use Rattle.c_step_run.specs.Coding.{AreCoded};
ghost use Rattle.c_step_program.specs.Programs.{code_of};
ghost use Rattle.c_step_load.specs.Programs.{IsAtRest};
ghost use Rattle.c_step_calls.specs.Resting.{IsResting, AreSpare};

use crate::receivers::{Objects, objects_of};
use crate::rooms::{most_args, room, stack, stand};
use c_meaning::values::CValue;
use c_step_calls::Room;
use c_step_load::{Numbered, Program, load};
use c_step_run::{Code, Store};
use std::alloc::Global;
use wf_bufs::{PublicSurface, ReceiverDecl};
use wf_text::NoMemory;

/// The code of a text, and all that its calls take.
#[derive(Drop)]
pub struct Started {
    /// The functions.
    pub code: Code,
    /// The pointers to the receivers.
    pub pointers: Vec<CValue>,
    /// What is kept for calls.
    pub room: Room,
    /// Memory, the stack, and what calls are made of.
    pub store: Store,
}

/// The program at rest, in the memory of these objects.
fn resting(
    alloc: Global,
    program: Program,
    objects: Objects,
    room: Room,
) -> Result<Started, NoMemory>
    requires rests { IsAtRest program.code program.frames.items program.args.items program.values }
    requires objects { room.objects ≡ length objects.all.items }
    requires given { room.most + room.most < vec_capacity room.given }
    requires spares { AreSpare room.most room.spares }
    ensures memory { IfOk result (λ it. memory it.store.mem ≡ objects.all.items) }
    ensures pointers { IfOk result (λ it. it.pointers.items ≡ objects.pointers.items) }
    ensures code { IfOk result (λ it. it.code ≡ program.code) }
    ensures frames { IfOk result (λ it. it.store.frames.items ≡ program.frames.items) }
    ensures args { IfOk result (λ it. it.store.args.items ≡ program.args.items) }
    ensures rests { IfOk result (λ it. IsResting it.code it.room it.store) }
    ensures most { IfOk result (λ it. it.room.most ≡ room.most) }
{
    let Objects { all, pointers } = objects;
    let Program {
        code,
        frames,
        args,
        values,
    } = program;
    let stack = stack(alloc, values, room.most)?;
    let mem = stand(alloc, all, room.most, code.functions.len())?;
    Ok(Started {
        code,
        pointers,
        room,
        store: Store {
            mem,
            stack,
            frames,
            args,
        },
    })
}

/// The code of a unit of the unit form, the memory in which its strings and the receivers stand, these all zero, and what a
/// host's calls need beside it. `NoMemory` where memory was refused.
pub fn start(
    alloc: Global,
    numbered: &Numbered<'_>,
    surface: &PublicSurface,
    receivers: &[ReceiverDecl],
) -> Result<Started, NoMemory>
    ensures memory { IfOk result (λ it. memory it.store.mem ≡ (made (program_of (unit_tree numbered.now)) surface.now (map receiver_of receivers.now)).memory) }
    ensures pointers { IfOk result (λ it. it.pointers.items ≡ (made (program_of (unit_tree numbered.now)) surface.now (map receiver_of receivers.now)).pointers) }
    ensures code { IfOk result (λ it. it.code ≡ code_of (program_of (unit_tree numbered.now)) (program_of (unit_tree numbered.now)).functions) }
    ensures coded { IfOk result (λ it. AreCoded it.code it.store.frames.items it.store.args.items (program_of (unit_tree numbered.now)) (program_of (unit_tree numbered.now)).functions) }
    ensures rests { IfOk result (λ it. IsResting it.code it.room it.store) }
    ensures most { IfOk result (λ it. it.room.most ≡ most_args surface.now.structs) }
    ensures functions { IfOk result (λ it. length it.code.functions ≡ length (program_of (unit_tree numbered.now)).functions) }
{
    let objects = objects_of(alloc, numbered.unit(), surface, receivers)?;
    let room = room(
        alloc,
        objects.all.len(),
        most_args(surface.structs.as_slice()),
    )?;
    let program = load(alloc, numbered)?;
    resting(alloc, program, objects, room)
}
