// The public structs and methods of a package, by the numbers of their functions in a text.

ghost use Rattle.std.specs.Prelude.{◌≡◌, ◌++◌, codes, IfOk};
ghost use Rattle.wf_text.specs.Surface.{Surface, PublicStruct};
ghost use Rattle.c_text.specs.CNodes.{unit_tree};
ghost use Rattle.c_meaning.specs.CCall.{program_of};
ghost use Rattle.c_meaning.specs.CRun.{struct_name};
ghost use Rattle.c_step_exprs.specs.Resolving.{function_number};
ghost use Rattle.c_step_load_exprs.specs.Knowing.{AreAlike};
ghost use Rattle.c_step_tables.specs.Tables.{IsMethod, AreMethods, IsStruct, AreStructs};

use c_form::{function_name, type_name};
use c_step_load::{Numbered, names_are_alike};
use c_step_load_exprs::Numbers;
use c_step_tables::{MethodEntry, StructEntry};
use std::alloc::Global;
use wf_bufs::{MethodDecl, PublicSurface, StructDecl};
use wf_text::NoMemory;

/// The number of a function of a struct with this type.
fn find_function(
    alloc: Global,
    numbers: &Numbers<'_>,
    of: &[u8],
    name: &[u8],
) -> Result<Option<usize>, NoMemory>
    requires { AreAlike (unit_tree numbers.now) }
    ensures { IfOk result (λ k. k ≡ function_number (program_of (unit_tree numbers.now)).functions (of.now ++ (codes "__" ++ name.now))) }
{
    let name = function_name(alloc, of, name)?;
    Ok(numbers.function_spelt(name.as_slice()))
}

/// What is kept of a method of a struct with this type.
fn method_entry(
    alloc: Global,
    numbers: &Numbers<'_>,
    of: &[u8],
    method: &MethodDecl,
) -> Result<MethodEntry, NoMemory>
    requires { AreAlike (unit_tree numbers.now) }
    ensures { (s : Surface) (it : PublicStruct) → of.now ≡ struct_name s it → IfOk result (IsMethod (program_of (unit_tree numbers.now)) s it method.now) }
{
    let function = find_function(alloc, numbers, of, method.name.as_slice())?;
    Ok(MethodEntry {
        number: method.number,
        kind: method.answers,
        function,
    })
}

/// What is kept of the methods of a struct with this type.
fn method_entries(
    alloc: Global,
    numbers: &Numbers<'_>,
    of: &[u8],
    methods: &[MethodDecl],
) -> Result<Vec<MethodEntry>, NoMemory>
    requires { AreAlike (unit_tree numbers.now) }
    ensures { (s : Surface) (it : PublicStruct) → of.now ≡ struct_name s it → IfOk result (λ es. AreMethods (program_of (unit_tree numbers.now)) s it methods.now es.items) }
{
    let mut entries = Vec::new(alloc);
    for method in methods {
        let entry = method_entry(alloc, numbers, of, method)?;
        entries.push(entry)?;
    }
    Ok(entries)
}

/// What is kept of a struct.
fn struct_entry(
    alloc: Global,
    numbers: &Numbers<'_>,
    surface: &PublicSurface,
    it: &StructDecl,
) -> Result<StructEntry, NoMemory>
    requires { AreAlike (unit_tree numbers.now) }
    ensures { IfOk result (IsStruct (program_of (unit_tree numbers.now)) surface.now it.now) }
{
    let of = type_name(alloc, surface.package_name.as_slice(), it.name.as_slice())?;
    let initialize = find_function(alloc, numbers, of.as_slice(), b"initialize")?;
    let methods = method_entries(alloc, numbers, of.as_slice(), it.methods.as_slice())?;
    Ok(StructEntry {
        number: it.number,
        initialize,
        methods,
    })
}

/// What is kept of all structs.
fn all_entries(
    alloc: Global,
    numbers: &Numbers<'_>,
    surface: &PublicSurface,
) -> Result<Vec<StructEntry>, NoMemory>
    requires { AreAlike (unit_tree numbers.now) }
    ensures { IfOk result (λ es. AreStructs (program_of (unit_tree numbers.now)) surface.now surface.now.structs es.items) }
{
    let mut entries = Vec::new(alloc);
    for it in surface.structs.as_slice() {
        let entry = struct_entry(alloc, numbers, surface, it)?;
        entries.push(entry)?;
    }
    Ok(entries)
}

/// What a machine keeps of a package's public structs and their methods, with the numbers of their functions in the text.
/// `NoMemory` where memory was refused.
pub fn struct_entries(
    alloc: Global,
    numbered: &Numbered<'_>,
    surface: &PublicSurface,
) -> Result<Vec<StructEntry>, NoMemory>
    ensures { IfOk result (λ es. AreStructs (program_of (unit_tree numbered.now)) surface.now surface.now.structs es.items) }
{
    names_are_alike(numbered.formed());
    all_entries(alloc, numbered.numbers(), surface)
}
