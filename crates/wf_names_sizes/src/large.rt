// Structs whose fields take too many bytes.

ghost use Rattle.std.specs.Prelude.{◌≡◌, Some, map, OnOk};
ghost use Rattle.std.specs.List.{flat_map};
ghost use Rattle.wf_text.specs.Precedence.{soonest};
ghost use Rattle.wf_names_rules.specs.Declarations.{Declared, declared_in};
ghost use Rattle.wf_names_rules.specs.NameRules.{SizeBreaks};
ghost use Rattle.wf_names_scopes.specs.Agreeing.{TellsPackage};
ghost use Rattle.wf_names_sizes.specs.Deciding.{DecidesBehind};
ghost use Rattle.wf_names_sizes.specs.Orders.{IsHoldingOrder, IsSettlingOrder};
ghost use Rattle.wf_names_sizes.specs.Settings.{TellsSizes};
ghost use Rattle.wf_names_sizes.specs.StructSizes.{passes as passes_limit, too_large_struct as are_too_large, row_of, AreHolding, HasLargeField};

use crate::arrays::long_by_constants;
use crate::parts::FieldPart;
use crate::setting::Setting;
use crate::struct_sizes::{added, part_bytes, sizes};
use crate::tables::SizeTables;
use graphs::cycles::Cycles;
use std::alloc::Global;
use wf_ast::PackageNodes;
use wf_ast::sequences::Sequence;
use wf_names_rules::lists::refused_if;
use wf_names_rules::tables::Tables;
use wf_text::faults::NoMemory;
use wf_text::found::Found;
use wf_text::rules::Rule;

// The most bytes that the fields of a struct may take together.
const LIMIT: u32 = 1_048_576;

fn passes(before: Option<u32>, since: Option<u32>) -> bool
    ensures { result ≡ passes_limit before since }
{
    match (before, since) {
        (Some(before), Some(since)) => !(LIMIT < before) && LIMIT < since,
        (Some(_), None) => false,
        (None, _) => false,
    }
}

// The field that passes the limit.
fn too_large_struct(found: &mut Found, fields: &[FieldPart], flags: &[bool], sizes: &[Option<u32>])
    ensures { found.new ≡ soonest found.old (are_too_large flags.now sizes.now (Some 0) fields.now) }
{
    let mut sum = Some(0);
    for field in fields {
        let next = added(sum, part_bytes(field.part, flags, sizes));
        found.refuse(refused_if(passes(sum, next), Rule::L7, field.name.at));
        sum = next;
    }
}

// The same in each struct.
fn too_large_structs(
    found: &mut Found,
    structs: &[Sequence<FieldPart>],
    flags: &[bool],
    sizes: &[Option<u32>],
)
    ensures { found.new ≡ soonest found.old (flat_map (are_too_large flags.now sizes.now (Some 0)) structs.now) }
{
    for fields in structs {
        too_large_struct(found, fields.as_slice(), flags, sizes);
    }
}

// Structs whose fields take more than 1,048,576 bytes together, each refused by L7 at the field that passes this limit, join
// what was found before. A flag tells of each struct whether it holds itself; `order` has the numbers of all structs, each
// after those that it holds, but for those that hold themselves.
fn large_structs(
    alloc: Global,
    found: &mut Found,
    structs: &[Sequence<FieldPart>],
    flags: &[bool],
    order: &[u32],
) -> Result<(), NoMemory>
    requires { IsSettlingOrder flags.now structs.now order.now }
    ensures { OnOk result ((d : Declared) → structs.now ≡ map (row_of d) d.structs → AreHolding d flags.now → DecidesBehind (HasLargeField d) found.old found.new) }
{
    let sizes = sizes(alloc, structs, flags, order)?;
    too_large_structs(found, structs, flags, sizes.as_slice());
    Ok(())
}

/// Arrays that are too long and structs that are too large join what was found before. `sizes` is made of the package by its
/// tables; of its structs `cycles` tells which hold themselves, and has an order in which each stands after those that it
/// holds, but for those that hold themselves. `Err` where memory was refused. The time is that of a walk over the types of all
/// variables.
pub fn size_breaks(
    alloc: Global,
    found: &mut Found,
    parsed: &PackageNodes,
    tables: &Tables,
    sizes: &SizeTables,
    cycles: &Cycles,
) -> Result<(), NoMemory>
    requires tables { TellsPackage (declared_in parsed.now) tables.now }
    requires sizes { TellsSizes (declared_in parsed.now) sizes.now }
    requires holding { AreHolding (declared_in parsed.now) cycles.now.flags.items }
    requires order { IsHoldingOrder (declared_in parsed.now) cycles.now.order.items }
    ensures { OnOk result (DecidesBehind (SizeBreaks (declared_in parsed.now)) found.old found.new) }
{
    let setting = Setting {
        parsed,
        tables,
        constants: &sizes.constants,
    };
    long_by_constants(found, &setting);
    large_structs(
        alloc,
        found,
        sizes.structs.as_slice(),
        cycles.flags.as_slice(),
        cycles.order.as_slice(),
    )
}
