// The public surface of a typed package.

ghost use Rattle.std.specs.Prelude.{◌≡◌, ◌<◌, ◌&&◌, map, nat_eq, length, IfOk};
ghost use Rattle.wf_ast.specs.TypedTrees.{text_of};
ghost use Rattle.wf_ast.specs.declared.typed_code.Block.{Block};
ghost use Rattle.wf_ast.specs.TypedInvariant.{IsTyped};
ghost use Rattle.wf_ast.specs.TypedPackage.{kind_of, method_of, package_of, public_method, public_methods, public_structs, surface_of, variable_of};
ghost use Rattle.wf_surfaces.specs.Names.{AreNamed, HasNames, IsNamed};

use crate::kinds::{answer_kind, arg_kind};
use std::alloc::Global;
use wf_ast::{Method, TextId, Typed, Var};
use wf_bufs::{ArgDecl, MethodDecl, PublicSurface, StructDecl};
use wf_text::{MethodId, NoMemory, StatusId, StructId};

fn copied(alloc: Global, bytes: &[u8]) -> Result<Vec<u8>, NoMemory>
    ensures { IfOk result (λ copy. copy.items ≡ bytes.now) }
{
    let copy = Vec::from_slice(alloc, bytes)?;
    Ok(copy)
}

// A name of the package.
fn name(alloc: Global, t: &Typed, number: TextId) -> Result<Vec<u8>, NoMemory>
    requires { number.0 < length t.now.texts }
    ensures { IfOk result (λ copy. copy.items ≡ text_of t.now number) }
{
    copied(alloc, t.text(number))
}

// An argument as a host knows it.
fn arg(alloc: Global, t: &Typed, x: Var) -> Result<ArgDecl, NoMemory>
    requires { x.name.0 < length t.now.texts }
    ensures { IfOk result (λ it. it ≡ record { name = text_of t.now x.name; kind = kind_of x.ty }) }
{
    let name = name(alloc, t, x.name)?;
    Ok(ArgDecl {
        name,
        kind: arg_kind(x.ty),
    })
}

// Arguments in declared order.
fn args(alloc: Global, t: &Typed, declared: &[Var]) -> Result<Vec<ArgDecl>, NoMemory>
    requires { AreNamed (length t.now.texts) declared.now }
    ensures { IfOk result (λ all. all.items ≡ map (λ x. record { name = x.name; kind = kind_of x.ty }) (map (variable_of t.now) declared.now)) }
{
    let mut all = Vec::new(alloc);
    for i in 0..declared.len() {
        let it = arg(alloc, t, declared[i])?;
        all.push(it)?;
    }
    Ok(all)
}

// A public method, by its number.
fn method(alloc: Global, t: &Typed, number: u32, m: &Method) -> Result<MethodDecl, NoMemory>
    requires { IsNamed (length t.now.texts) m.now }
    ensures { (body : Block) → IfOk result (λ it. it ≡ public_method number (method_of t.now m.now body)) }
{
    let args = args(alloc, t, m.args.as_slice())?;
    let name = name(alloc, t, m.name)?;
    Ok(MethodDecl {
        number: MethodId(number),
        name,
        args,
        answers: answer_kind(m.mark, m.gives),
    })
}

// Whether a method is a public one of the struct with this number.
fn is_public_in(m: &Method, s: u32) -> bool
    ensures { result ≡ (m.now.public && nat_eq m.now.of.0 s) }
{
    m.public && m.of.0 == s
}

// The public methods of the struct with this number, in order.
fn methods(alloc: Global, t: &Typed, s: u32) -> Result<Vec<MethodDecl>, NoMemory>
    requires names { HasNames t.now }
    requires typed { IsTyped t.now }
    ensures { IfOk result (λ all. all.items ≡ public_methods s 0 (package_of t.now).methods) }
{
    let mut all = Vec::new(alloc);
    for m in 0..t.methods() {
        let declared = t.method(MethodId(m));
        if is_public_in(declared, s) {
            let it = method(alloc, t, m, declared)?;
            all.push(it)?;
        }
    }
    Ok(all)
}

// A public struct, by its number, with its public methods.
fn structure(alloc: Global, t: &Typed, s: u32, called: TextId) -> Result<StructDecl, NoMemory>
    requires names { HasNames t.now }
    requires typed { IsTyped t.now }
    requires name { called.0 < length t.now.texts }
    ensures { IfOk result (λ it. it ≡ record { number = s; name = text_of t.now called; methods = public_methods s 0 (package_of t.now).methods }) }
{
    let methods = methods(alloc, t, s)?;
    let name = name(alloc, t, called)?;
    Ok(StructDecl {
        number: StructId(s),
        name,
        methods,
    })
}

// The public structs, in order.
fn structs(alloc: Global, t: &Typed) -> Result<Vec<StructDecl>, NoMemory>
    requires names { HasNames t.now }
    requires typed { IsTyped t.now }
    ensures { IfOk result (λ all. all.items ≡ public_structs (package_of t.now).methods 0 (package_of t.now).structs) }
{
    let mut all = Vec::new(alloc);
    for s in 0..t.structs() {
        let declared = t.structure(StructId(s));
        if declared.public {
            let it = structure(alloc, t, s, declared.name)?;
            all.push(it)?;
        }
    }
    Ok(all)
}

// The texts of all statuses, as a caller sees them.
fn statuses(alloc: Global, t: &Typed) -> Result<Vec<Vec<u8>>, NoMemory>
    ensures { IfOk result (λ all. map (λ text. text.items) all.items ≡ t.now.statuses) }
{
    let mut all = Vec::new(alloc);
    for n in 0..t.statuses() {
        let text = copied(alloc, t.status_text(StatusId(n)))?;
        all.push(text)?;
    }
    Ok(all)
}

/// The public surface of a package: its name, the texts of its statuses, and its public structs with their public methods, by
/// the numbers that they have in the package.
#[tactic(auto, unfolding(wf_ast::specs::TypedPackage::surface_of, wf_ast::specs::TypedPackage::package_of))]
pub fn public_surface(alloc: Global, t: &Typed) -> Result<PublicSurface, NoMemory>
    requires names { HasNames t.now }
    requires typed { IsTyped t.now }
    ensures { IfOk result (λ surface. surface ≡ surface_of (package_of t.now)) }
{
    let package_name = copied(alloc, t.package())?;
    let statuses = statuses(alloc, t)?;
    let structs = structs(alloc, t)?;
    Ok(PublicSurface {
        package_name,
        statuses,
        structs,
    })
}
