// What is kept for a host's calls.

ghost use Rattle.std.specs.Prelude.{◌≡◌, ◌+◌, ◌^◌, ◌<◌, ◌≤◌, [], length, vec_capacity, IfOk};
ghost use Rattle.c_meaning.specs.CRun.{most_in, most_args as most_args_of};
ghost use Rattle.c_mem.specs.MemoryViews.{memory, HasRoom};
ghost use Rattle.c_step_exprs.specs.Stacks.{on_stack, most};
ghost use Rattle.c_step_hosts.specs.Spares.{AreIos, HaveBytes};
ghost use Rattle.c_step_calls.specs.Resting.{AreSpare};

use crate::objects::{io_object, no_bytes};
use crate::shapes::sum;
use c_mem::{Mem, Object};
use c_step_calls::{Room, Spares};
use c_step_exprs::Stack;
use std::alloc::Global;
use wf_bufs::{MethodDecl, StructDecl};
use wf_text::NoMemory;

/// How many arguments one of these methods has at most.
fn most_args_in(methods: &[MethodDecl]) -> usize
    ensures { result ≡ most_in methods.now }
{
    let mut most = 0;
    for method in methods {
        most = most.max(method.args.len());
    }
    most
}

/// How many arguments a method of these structs has at most.
pub(crate) fn most_args(structs: &[StructDecl]) -> usize
    ensures { result ≡ most_args_of structs.now }
{
    let mut most = 0;
    for it in structs {
        most = most.max(most_args_in(it.methods.as_slice()));
    }
    most
}

/// So many structs of io buffers.
fn ios(alloc: Global, count: usize) -> Result<Vec<Object>, NoMemory>
    ensures are { IfOk result (λ all. AreIos all.items) }
    ensures many { IfOk result (λ all. length all.items ≡ count) }
{
    let mut all = Vec::with_capacity(alloc, count)?;
    for _ in 0..count {
        all.push(io_object(alloc)?)?;
    }
    Ok(all)
}

/// So many objects of bytes, without any.
fn byte_objects(alloc: Global, count: usize) -> Result<Vec<Object>, NoMemory>
    ensures are { IfOk result (λ all. HaveBytes all.items) }
    ensures many { IfOk result (λ all. length all.items ≡ count) }
{
    let mut all = Vec::with_capacity(alloc, count)?;
    for _ in 0..count {
        all.push(no_bytes(alloc)?)?;
    }
    Ok(all)
}

/// Objects for calls of so many arguments.
fn spares(alloc: Global, count: usize) -> Result<Spares, NoMemory>
    ensures { IfOk result (λ it. AreSpare count it) }
{
    let ios = ios(alloc, count)?;
    let bytes = byte_objects(alloc, count)?;
    Ok(Spares {
        ios,
        bytes,
        hand: Vec::new(alloc),
    })
}

/// What calls of so many arguments need, where so many objects stand between them.
pub(crate) fn room(alloc: Global, objects: usize, count: usize) -> Result<Room, NoMemory>
    ensures objects { IfOk result (λ it. it.objects ≡ objects) }
    ensures most { IfOk result (λ it. it.most ≡ count) }
    ensures given { IfOk result (λ it. count + count < vec_capacity it.given) }
    ensures spares { IfOk result (λ it. AreSpare count it.spares) }
{
    let passed = sum(sum(count, count)?, 1)?;
    let given = Vec::with_capacity(alloc, passed)?;
    let spares = spares(alloc, count)?;
    Ok(Room {
        spares,
        given,
        objects,
        most: count,
    })
}

/// A stack for expressions that need so many values, and for the values of so many arguments.
pub(crate) fn stack(alloc: Global, values: usize, count: usize) -> Result<Stack, NoMemory>
    ensures empty { IfOk result (λ it. on_stack it ≡ []) }
    ensures values { IfOk result (λ it. values ≤ most it) }
    ensures passed { IfOk result (λ it. count + count < most it) }
{
    let passed = sum(sum(count, count)?, 1)?;
    Stack::reserve(alloc, values.max(passed))
}

/// The memory of these objects, with room for so many more.
fn reserved(alloc: Global, objects: Vec<Object>, more: usize) -> Result<Mem, NoMemory>
    ensures objects { IfOk result (λ mem. memory mem ≡ objects.items) }
    ensures room { IfOk result (λ mem. HasRoom mem more) }
    ensures numbers { IfOk result (λ mem. length objects.items + more < 2 ^ 64) }
{
    let count = sum(objects.len(), more)?;
    let mut mem = Mem::reserve(alloc, &[], count)?;
    for object in objects {
        mem.enter(object);
    }
    Ok(mem)
}

/// The memory of these objects, with room for calls of so many functions with the objects of so many arguments.
pub(crate) fn stand(
    alloc: Global,
    objects: Vec<Object>,
    count: usize,
    functions: usize,
) -> Result<Mem, NoMemory>
    ensures objects { IfOk result (λ mem. memory mem ≡ objects.items) }
    ensures room { IfOk result (λ mem. HasRoom mem (count + count + functions)) }
    ensures numbers { IfOk result (λ mem. length objects.items + (count + count + functions) < 2 ^ 64) }
{
    let lent = sum(count, count)?;
    let more = sum(lent, functions)?;
    reserved(alloc, objects, more)
}
