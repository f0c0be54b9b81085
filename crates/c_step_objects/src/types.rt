// The structs of a package in a text.

ghost use Rattle.std.specs.Prelude.{◌≡◌, ℕ, nat_eq, if◌then◌else◌, Some, IfOk, OnOk};
ghost use Rattle.indexmap.specs.IndexMap.{get};
ghost use Rattle.c_text.specs.CNodes.{unit_tree};
ghost use Rattle.c_meaning.specs.CCall.{program_of};
ghost use Rattle.c_step_objects.specs.Shapes.{number_in};
ghost use Rattle.c_step_objects.specs.Types.{type_name as name_of_type, numbered_type, IsTypes};

use crate::names::StructNumbers;
use crate::shapes::{Shape, shapes_of};
use c_form::type_name;
use c_text::Unit;
use indexmap::IndexMap;
use std::alloc::Global;
use wf_bufs::{PublicSurface, StructDecl};
use wf_text::NoMemory;

/// The structs of a text by number, and the numbers there of a package's public structs by theirs.
pub(crate) struct Types {
    /// The structs.
    pub(crate) shapes: Vec<Shape>,
    /// The numbers.
    pub(crate) numbers: IndexMap<u32, usize>,
}

impl Drop for Types {
    fn drop(self) {
        let Types {
            shapes: _,
            numbers: _,
        } = self;
    }
}

/// Gives a public struct, by its number, the number of its type, whatever one of this number had.
fn add_type(
    alloc: Global,
    names: &StructNumbers<'_>,
    of_package: &[u8],
    it: &StructDecl,
    numbers: &mut IndexMap<u32, usize>,
) -> Result<(), NoMemory>
    ensures { OnOk result ((k : ℕ) → get nat_eq numbers.new k ≡ (if nat_eq it.now.number k then Some (number_in names.now (name_of_type of_package.now it.now.name)) else get nat_eq numbers.old k)) }
{
    let name = type_name(alloc, of_package, it.name.as_slice())?;
    numbers.insert(it.number.0, names.number(name.as_slice()))?;
    Ok(())
}

/// The numbers of the types of public structs. Of two structs with one number the earlier one counts.
fn type_numbers(
    alloc: Global,
    names: &StructNumbers<'_>,
    of_package: &[u8],
    structs: &[StructDecl],
) -> Result<IndexMap<u32, usize>, NoMemory>
    ensures { IfOk result (λ numbers. (k : ℕ) → get nat_eq numbers k ≡ numbered_type (number_in names.now) of_package.now structs.now k) }
{
    let mut numbers = IndexMap::new(alloc);
    let mut i = structs.len();
    while i > 0 {
        i -= 1;
        add_type(alloc, names, of_package, &structs[i], &mut numbers)?;
    }
    Ok(numbers)
}

/// The structs of a package in a unit.
pub(crate) fn types_of(
    alloc: Global,
    unit: &Unit,
    surface: &PublicSurface,
) -> Result<Types, NoMemory>
    ensures { IfOk result (λ it. IsTypes it (program_of (unit_tree unit.now)) surface.now) }
{
    let shapes = shapes_of(alloc, unit)?;
    let of_package = surface.package_name.as_slice();
    let numbers = type_numbers(
        alloc,
        &shapes.numbers,
        of_package,
        surface.structs.as_slice(),
    )?;
    Ok(Types {
        shapes: shapes.shapes(),
        numbers,
    })
}
