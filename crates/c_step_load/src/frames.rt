// What the calls of a unit's functions are made of (ISO/IEC 9899:1999, 6.2.4p5).

ghost use Rattle.std.specs.Prelude.{◌≡◌, ◌<◌, ◌+◌, length, map, IfOk, OnOk};
ghost use Rattle.c_text.specs.CNodes.{Nodes, param_tree, local_tree, expr_of, unit_tree};
ghost use Rattle.c_meaning.specs.CTypes.{Function};
ghost use Rattle.c_meaning.specs.CCall.{program_of};
ghost use Rattle.c_step_frames.specs.Frames.{param_type, local_type};
ghost use Rattle.c_step_load.specs.Loading.{functions_before, local_types_by, frame_by, frames_by};

use c_meaning::cells::CellType;
use c_step_frames::Frame;
use c_step_load_exprs::cell_type;
use c_text::{CItem, CItemId, CLocal, CParam, Unit};
use std::alloc::Global;
use wf_text::NoMemory;

/// The types of the cells of parameters.
fn param_types(alloc: Global, params: &[CParam]) -> Result<Vec<CellType>, NoMemory>
    ensures { (nodes : Nodes) → IfOk result (λ types. types.items ≡ map param_type (map (param_tree nodes.names) params.now)) }
{
    let mut types = Vec::new(alloc);
    for param in params {
        types.push(cell_type(param.kind))?;
    }
    Ok(types)
}

/// The types of the cells of locals.
fn local_types(alloc: Global, locals: &[CLocal]) -> Result<Vec<CellType>, NoMemory>
    ensures { (nodes : Nodes) → IfOk result (λ types. types.items ≡ map local_type (map (local_tree nodes.names (expr_of nodes)) locals.now)) }
{
    let mut types = Vec::new(alloc);
    for local in locals {
        types.push(cell_type(local.kind))?;
    }
    Ok(types)
}

/// The same where `whole` says so; else none.
fn locals_by(alloc: Global, locals: &[CLocal], whole: bool) -> Result<Vec<CellType>, NoMemory>
    ensures { (nodes : Nodes) → IfOk result (λ types. types.items ≡ local_types_by whole (map (local_tree nodes.names (expr_of nodes)) locals.now)) }
{
    if whole {
        local_types(alloc, locals)
    } else {
        Ok(Vec::new(alloc))
    }
}

/// What the calls of a function with these parameters and locals are made of; `whole` tells whether the locals are among it.
fn frame(
    alloc: Global,
    params: &[CParam],
    locals: &[CLocal],
    whole: bool,
) -> Result<Frame, NoMemory>
    ensures { (nodes : Nodes) (f : Function) → f.params ≡ map (param_tree nodes.names) params.now → f.locals ≡ map (local_tree nodes.names (expr_of nodes)) locals.now → IfOk result (λ it. it ≡ frame_by whole f) }
{
    let params = param_types(alloc, params)?;
    let locals = locals_by(alloc, locals, whole)?;
    Frame::new(alloc, params, locals)
}

/// Adds what the calls of an item are made of, where it is a function; `whole` tells whether its locals are among it.
fn add_frame(
    alloc: Global,
    unit: &Unit,
    i: usize,
    whole: bool,
    frames: &mut Vec<Frame>,
) -> Result<(), NoMemory>
    requires { i < length unit.now.items }
    ensures { frames.old.items ≡ frames_by whole (functions_before unit.now i) → OnOk result (frames.new.items ≡ frames_by whole (functions_before unit.now (i + 1))) }
{
    match unit.item(CItemId(i)) {
        CItem::Function { params, locals, .. } => {
            let it = frame(alloc, params.as_slice(), locals.as_slice(), whole)?;
            frames.push(it)?;
            Ok(())
        }
        CItem::Struct { .. } => Ok(()),
        CItem::Text { .. } => Ok(()),
    }
}

/// What the calls of a unit's functions are made of: as statements, where `whole` says so, else in expressions, which have no
/// locals.
pub(crate) fn load_frames(alloc: Global, unit: &Unit, whole: bool) -> Result<Vec<Frame>, NoMemory>
    ensures { IfOk result (λ frames. frames.items ≡ frames_by whole (program_of (unit_tree unit.now)).functions) }
{
    let mut frames = Vec::new(alloc);
    let mut i = 0;
    while i < unit.items() {
        add_frame(alloc, unit, i, whole, &mut frames)?;
        i += 1;
    }
    Ok(frames)
}
