// A copy of a public surface, for an engine that keeps one of its own.

ghost use Rattle.std.specs.Prelude.{◌≡◌, map, vec_items, IfOk};

use std::alloc::Global;
use wf_bufs::{ArgDecl, MethodDecl, PublicSurface, StructDecl};
use wf_text::NoMemory;

fn texts(alloc: Global, all: &[Vec<u8>]) -> Result<Vec<Vec<u8>>, NoMemory>
    ensures { IfOk result (λ copy. map vec_items copy.items ≡ map vec_items all.now) }
{
    let mut copy = Vec::new(alloc);
    for text in all {
        copy.push(Vec::from_slice(alloc, text.as_slice())?)?;
    }
    Ok(copy)
}

fn args(alloc: Global, all: &[ArgDecl]) -> Result<Vec<ArgDecl>, NoMemory>
    ensures { IfOk result (λ copy. copy.items ≡ all.now) }
{
    let mut copy = Vec::new(alloc);
    for arg in all {
        let name = Vec::from_slice(alloc, arg.name.as_slice())?;
        copy.push(ArgDecl {
            name,
            kind: arg.kind,
        })?;
    }
    Ok(copy)
}

fn method(alloc: Global, it: &MethodDecl) -> Result<MethodDecl, NoMemory>
    ensures { IfOk result (λ copy. copy ≡ it.now) }
{
    let name = Vec::from_slice(alloc, it.name.as_slice())?;
    let args = args(alloc, it.args.as_slice())?;
    Ok(MethodDecl {
        number: it.number,
        name,
        args,
        answers: it.answers,
    })
}

fn methods(alloc: Global, all: &[MethodDecl]) -> Result<Vec<MethodDecl>, NoMemory>
    ensures { IfOk result (λ copy. copy.items ≡ all.now) }
{
    let mut copy = Vec::new(alloc);
    for it in all {
        copy.push(method(alloc, it)?)?;
    }
    Ok(copy)
}

fn structs(alloc: Global, all: &[StructDecl]) -> Result<Vec<StructDecl>, NoMemory>
    ensures { IfOk result (λ copy. copy.items ≡ all.now) }
{
    let mut copy = Vec::new(alloc);
    for it in all {
        let name = Vec::from_slice(alloc, it.name.as_slice())?;
        let methods = methods(alloc, it.methods.as_slice())?;
        copy.push(StructDecl {
            number: it.number,
            name,
            methods,
        })?;
    }
    Ok(copy)
}

/// A copy of the public surface.
pub(crate) fn surface_copied(
    alloc: Global,
    surface: &PublicSurface,
) -> Result<PublicSurface, NoMemory>
    ensures { IfOk result (λ copy. copy ≡ surface.now) }
{
    let package_name = Vec::from_slice(alloc, surface.package_name.as_slice())?;
    let statuses = texts(alloc, surface.statuses.as_slice())?;
    let structs = structs(alloc, surface.structs.as_slice())?;
    Ok(PublicSurface {
        package_name,
        statuses,
        structs,
    })
}
