// Objects: those of structs, all zero, and those of bytes (ISO/IEC 9899:1999, 6.2.5p20, 6.7.8p10).

ghost use Rattle.std.specs.Prelude.{◌≡◌, ◌+◌, ◌++◌, ◌∷◌, List, [], length, reverse, IfOk, OnOk};
ghost use Rattle.c_meaning.specs.CTypes.{StructDecl};
ghost use Rattle.c_meaning.specs.CRun.{bytes_object as object_of_bytes, no_buffer};
ghost use Rattle.c_step_objects.specs.Shapes.{objects_of, inside_of, fields_at, all_shapes, placed, zero_object as object_of_zeros};

use crate::shapes::{Shape, fields_of, size_of, sum};
use c_meaning::cells::CellType;
use c_mem::{FieldDecl, Mem, ObjDecl, Object};
use std::alloc::Global;
use wf_text::NoMemory;

/// An object with these fields, all zero.
fn zero_object(alloc: Global, fields: Vec<FieldDecl>) -> Result<Object, NoMemory>
    ensures { IfOk result (λ object. object ≡ object_of_zeros fields.items) }
{
    // A memory makes objects zero, so it stands in one of its own for a moment.
    let decl = ObjDecl { fields };
    let mut mem = Mem::reserve(alloc, &[decl], 0)?;
    let _ = mem.zero(0);
    match mem.leave() {
        Some(object) => Ok(object),
        None => Err(NoMemory),
    }
}

/// An object of these bytes.
pub(crate) fn bytes_object(alloc: Global, mut bytes: Vec<u8>) -> Result<Object, NoMemory>
    ensures { IfOk result (λ object. object ≡ object_of_bytes bytes.items) }
{
    let mut object = no_bytes(alloc)?;
    object.swap_bytes(&mut bytes);
    Ok(object)
}

/// An object without bytes.
pub(crate) fn no_bytes(alloc: Global) -> Result<Object, NoMemory>
    ensures { IfOk result (λ object. object ≡ object_of_bytes []) }
{
    let mut fields = Vec::new(alloc);
    fields.push(FieldDecl::Cells {
        ty: CellType::U8,
        count: 0,
    })?;
    Object::new(alloc, &ObjDecl { fields })
}

/// The struct of an io buffer, nothing of which is set.
pub(crate) fn io_object(alloc: Global) -> Result<Object, NoMemory>
    ensures { IfOk result (λ object. object ≡ no_buffer) }
{
    let mut fields = Vec::new(alloc);
    fields.extend_from_slice(&[
        FieldDecl::Cells {
            ty: CellType::Pointer,
            count: 1,
        },
        FieldDecl::Cells {
            ty: CellType::U64,
            count: 1,
        },
        FieldDecl::Cells {
            ty: CellType::U64,
            count: 1,
        },
        FieldDecl::Cells {
            ty: CellType::U64,
            count: 1,
        },
        FieldDecl::Cells {
            ty: CellType::U64,
            count: 1,
        },
        FieldDecl::Cells {
            ty: CellType::Flag,
            count: 1,
        },
    ])?;
    Object::new(alloc, &ObjDecl { fields })
}

/// The fields of an object, where the objects inside it stand from `from` on.
fn place(
    alloc: Global,
    shapes: &[Shape],
    fields: &[FieldDecl],
    from: usize,
) -> Result<Vec<FieldDecl>, NoMemory>
    ensures { IfOk result (λ all. all.items ≡ placed shapes.now fields.now from) }
{
    let mut all = Vec::new(alloc);
    let mut at = from;
    for field in fields {
        match *field {
            FieldDecl::Cells { .. } => all.push(*field)?,
            FieldDecl::Part(k) => {
                all.push(FieldDecl::Part(at))?;
                at = sum(at, size_of(shapes, k))?;
            }
        }
    }
    Ok(all)
}

/// Puts the numbers of the structs of the objects inside on a stack, the first one on top.
fn put_inside(fields: &[FieldDecl], left: &mut Vec<usize>) -> Result<(), NoMemory>
    ensures { OnOk result (reverse left.new.items ≡ inside_of fields.now ++ reverse left.old.items) }
{
    let mut i = fields.len();
    while i > 0 {
        i -= 1;
        match fields[i] {
            FieldDecl::Cells { .. } => {}
            FieldDecl::Part(k) => left.push(k)?,
        }
    }
    Ok(())
}

/// Adds an object of the struct with a number, and puts those inside it on the stack of what is left.
fn add_object(
    alloc: Global,
    shapes: &[Shape],
    k: usize,
    left: &mut Vec<usize>,
    all: &mut Vec<Object>,
) -> Result<(), NoMemory>
    ensures left { OnOk result (reverse left.new.items ≡ inside_of (fields_at shapes.now k) ++ reverse left.old.items) }
    ensures all { OnOk result (all.new.items ≡ all.old.items ++ object_of_zeros (placed shapes.now (fields_at shapes.now k) (length all.old.items + 1)) ∷ []) }
{
    let fields = fields_of(shapes, k);
    put_inside(fields, left)?;
    let inside = sum(all.len(), 1)?;
    let placed = place(alloc, shapes, fields, inside)?;
    all.push(zero_object(alloc, placed)?)?;
    Ok(())
}

/// Adds an object of the struct with a number and the objects inside it, all zero.
pub(crate) fn add_objects(
    alloc: Global,
    shapes: &[Shape],
    k: usize,
    all: &mut Vec<Object>,
) -> Result<(), NoMemory>
    ensures { (structs : List StructDecl) → shapes.now ≡ all_shapes structs → OnOk result (all.new.items ≡ all.old.items ++ objects_of structs k (length all.old.items)) }
{
    let mut left = Vec::new(alloc);
    left.push(k)?;
    for _ in 0..size_of(shapes, k) {
        match left.pop() {
            Some(k) => add_object(alloc, shapes, k, &mut left, all)?,
            None => return Ok(()),
        }
    }
    Ok(())
}
