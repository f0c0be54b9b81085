// How many struct states one of each struct is, with those inside it.

ghost use Rattle.std.specs.Prelude.{◌≡◌, ◌+◌, suc, map, IfOk};
ghost use Rattle.wf_ast.specs.TypedInvariant.{IsTyped};
ghost use Rattle.wf_ast.specs.TypedPackage.{package_of};
ghost use Rattle.wf_mean.specs.Sizes.{AreSizes, field_types, size_at, size_inside as inside_size, sizes_inside};

use std::alloc::Global;
use wf_ast::{Ty, Typed, Var};
use wf_text::{NoMemory, StructId};

/// The fields of a struct.
pub(crate) fn fields_of(t: &Typed, s: u32) -> &[Var]
    ensures { map (λ x. x.ty) result.now ≡ field_types (package_of t.now) s }
{
    if s < t.structs() {
        t.structure(StructId(s)).fields.as_slice()
    } else {
        &[]
    }
}

/// The sum; `NoMemory` where no list is so long.
pub(crate) fn sum(a: usize, b: usize) -> Result<usize, NoMemory>
    ensures { IfOk result (λ n. n ≡ a + b) }
{
    match a.checked_add(b) {
        Some(n) => Ok(n),
        None => Err(NoMemory),
    }
}

/// The size of the struct with a number.
pub(crate) fn size_of(sizes: &[usize], s: u32) -> usize
    ensures { result ≡ size_at sizes.now s }
{
    match sizes.get(s as usize) {
        Some(size) => *size,
        None => 1,
    }
}

/// How many struct states are inside a field of this type.
pub(crate) fn size_inside(sizes: &[usize], ty: Ty) -> usize
    ensures { result ≡ inside_size sizes.now ty }
{
    match ty {
        Ty::Part(s) => size_of(sizes, s.0),
        Ty::Num { .. } | Ty::Flag | Ty::Status | Ty::Reader => 0,
        Ty::Writer | Ty::Slice(_) | Ty::Array { .. } => 0,
    }
}

// How many struct states one with these fields is.
fn size(sizes: &[usize], declared: &[Var]) -> Result<usize, NoMemory>
    ensures { IfOk result (λ n. n ≡ suc (sizes_inside sizes.now (map (λ x. x.ty) declared.now))) }
{
    let mut n = 1;
    for i in 0..declared.len() {
        n = sum(n, size_inside(sizes, declared[i].ty))?;
    }
    Ok(n)
}

/// The size of each struct of the package, by number. In the order of the structs each stands after those inside it.
pub(crate) fn struct_sizes(alloc: Global, t: &Typed) -> Result<Vec<usize>, NoMemory>
    requires typed { IsTyped t.now }
    ensures { IfOk result (λ sizes. AreSizes (package_of t.now) sizes.items) }
{
    let order = t.struct_order();
    let mut sizes = vec![in alloc; 1; t.structs() as usize]?;
    for i in 0..order.len() {
        let s = order[i];
        sizes[s as usize] = size(&sizes, fields_of(t, s))?;
    }
    Ok(sizes)
}
