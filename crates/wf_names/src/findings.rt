// What a look for what a package breaks of the rules of names finds: the first refusal, section by section of their table,
// and what the resolved tree is made of.

ghost use Rattle.std.specs.Prelude.{◌≡◌, ◌<◌, ◌-◌, ◌^◌, None, length, IfOk, OnOk};
ghost use Rattle.wf_text.specs.Precedence.{Decides};
ghost use Rattle.wf_names_rules.specs.NameRules.{Breaks};
ghost use Rattle.wf_names_decls.specs.DeclarationPass.{declarations_found};
ghost use Rattle.wf_names_decls.specs.NameLists.{AreNameLists};
ghost use Rattle.wf_names_scopes.specs.Agreeing.{TellsPackage};
ghost use Rattle.wf_names_scopes.specs.CallRows.{AreRows};
ghost use Rattle.wf_names_scopes.specs.UsesFound.{names_found};
ghost use Rattle.wf_names_cycles.specs.CyclesFound.{ArePackageCycles};
ghost use Rattle.wf_names_sizes.specs.Settings.{TellsSizes};
ghost use Rattle.wf_names.specs.Naming.{AreFindings};
ghost use Rattle.wf_names_rules.specs.Declarations.{declared_in};

use graphs::rows::Row;
use std::alloc::Global;
use wf_ast::PackageNodes;
use wf_names_cycles::cycles_found::{PackageCycles, cycle_breaks, named_cycles};
use wf_names_decls::declarations::declarations;
use wf_names_decls::gathering::{NameLists, name_lists};
use wf_names_rules::tables::Tables;
use wf_names_scopes::tables::tables;
use wf_names_scopes::uses::uses;
use wf_names_sizes::holding::struct_rows;
use wf_names_sizes::large::size_breaks;
use wf_names_sizes::tables::{SizeTables, size_tables};
use wf_text::faults::NoMemory;
use wf_text::found::Found;
use wf_text::rules::Refusal;

/// What is known of a package once it was looked through for what it breaks.
#[derive(Drop)]
pub(crate) struct Findings {
    /// The first refusal; None exactly where the package keeps all rules of names.
    pub refusal: Option<Refusal>,
    /// What the package declares.
    pub tables: Tables,
    /// The numbers of all methods, each after those that it calls, apart from those that can reach it by calls.
    pub order: Vec<u32>,
    /// The numbers of all structs, each after those that its fields hold, apart from those that hold it.
    pub struct_order: Vec<u32>,
}

// What the declarations, the labels and the uses of names break joins what was found before. Answers the rows of the calls of
// all methods.
fn named(
    alloc: Global,
    found: &mut Found,
    parsed: &PackageNodes,
    tables: &Tables,
    names: &NameLists,
) -> Result<Vec<Row>, NoMemory>
    requires tables { TellsPackage (declared_in parsed.now) tables.now }
    requires names { AreNameLists (declared_in parsed.now) names.now }
    ensures found { OnOk result (found.new ≡ names_found (declared_in parsed.now) (declarations_found (declared_in parsed.now) found.old)) }
    ensures rows { IfOk result (λ rows. AreRows (declared_in parsed.now) rows.items (length (declared_in parsed.now).methods)) }
{
    declarations(alloc, found, parsed, names, &tables.constants)?;
    uses(alloc, found, parsed, tables)
}

// What the sizes of a package are made of, and the cycles of its structs and its methods; `calls` lists for each method those
// that it calls.
fn sizes_and_cycles(
    alloc: Global,
    parsed: &PackageNodes,
    tables: &Tables,
    names: NameLists,
    calls: &[Row],
) -> Result<(SizeTables, PackageCycles), NoMemory>
    requires few { length parsed.now.decls < 2 ^ 32 - 1 }
    requires tables { TellsPackage (declared_in parsed.now) tables.now }
    requires names { AreNameLists (declared_in parsed.now) names }
    requires calls { AreRows (declared_in parsed.now) calls.now (length (declared_in parsed.now).methods) }
    ensures sizes { IfOk result (λ made. TellsSizes (declared_in parsed.now) made.0) }
    ensures cycles { IfOk result (λ made. ArePackageCycles (declared_in parsed.now) made.1) }
{
    let (structs, methods) = names.into_structs_and_methods();
    let sizes = size_tables(alloc, parsed, tables)?;
    let holds = struct_rows(alloc, &sizes)?;
    let structs = named_cycles(alloc, structs, holds.as_slice())?;
    let methods = named_cycles(alloc, methods, calls)?;
    Ok((sizes, PackageCycles { structs, methods }))
}

// What the cycles of structs and methods and the sizes break joins what the declarations, the labels and the uses of names
// break: then the first refusal of all rules is found.
fn deciding(
    alloc: Global,
    found: &mut Found,
    parsed: &PackageNodes,
    tables: &Tables,
    sizes: &SizeTables,
    cycles: &PackageCycles,
) -> Result<(), NoMemory>
    requires tables { TellsPackage (declared_in parsed.now) tables.now }
    requires named { found.old ≡ names_found (declared_in parsed.now) (declarations_found (declared_in parsed.now) None) }
    requires sizes { TellsSizes (declared_in parsed.now) sizes.now }
    requires cycles { ArePackageCycles (declared_in parsed.now) cycles.now }
    ensures { OnOk result (Decides (Breaks (declared_in parsed.now)) found.new) }
{
    cycle_breaks(found, cycles);
    size_breaks(alloc, found, parsed, tables, sizes, &cycles.structs.cycles)
}

/// Looks through a package for what it breaks of the rules of names. `Err` where memory was refused.
pub(crate) fn look_through(alloc: Global, parsed: &PackageNodes) -> Result<Findings, NoMemory>
    requires few { length parsed.now.decls < 2 ^ 32 - 1 }
    ensures { IfOk result (AreFindings (declared_in parsed.now)) }
{
    let tables = tables(alloc, parsed)?;
    let names = name_lists(alloc, parsed)?;
    let mut found = Found::nothing();
    let calls = named(alloc, &mut found, parsed, &tables, &names)?;
    let (sizes, cycles) = sizes_and_cycles(alloc, parsed, &tables, names, calls.as_slice())?;
    deciding(alloc, &mut found, parsed, &tables, &sizes, &cycles)?;
    let (struct_order, order) = cycles.into_orders();
    Ok(Findings {
        refusal: found.first(),
        tables,
        order,
        struct_order,
    })
}
