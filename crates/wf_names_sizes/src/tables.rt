// What the sizes of a package are made of: the values of its constants, and the fields of its structs.

ghost use Rattle.std.specs.Prelude.{◌≡◌, ◌<◌, ◌++◌, [], ◌∷◌, Some, length, map, slice_get, IfOk, OnOk};
ghost use Rattle.wf_ast.specs.declared.parsed.DeclNode.{DeclNode};
ghost use Rattle.wf_ast.specs.ParsedTrees.{expr_trees, stmt_trees, decl_made};
ghost use Rattle.wf_names_rules.specs.Declarations.{structs_of, declared_in};
ghost use Rattle.wf_names_scopes.specs.Agreeing.{TellsPackage};
ghost use Rattle.wf_names_sizes.specs.Settings.{TellsSetting, TellsSizes};
ghost use Rattle.wf_names_sizes.specs.StructSizes.{row_of};

use crate::constants::constants;
use crate::numbers::ConstantValue;
use crate::parts::{FieldPart, row};
use crate::setting::Setting;
use indexmap::IndexMap;
use std::alloc::Global;
use wf_ast::PackageNodes;
use wf_ast::parsed::Decl;
use wf_ast::sequences::Sequence;
use wf_names_rules::tables::Tables;
use wf_text::faults::NoMemory;

/// What the lengths of arrays and the sizes of structs are made of.
pub struct SizeTables {
    // The values of the constants, by their names.
    pub(crate) constants: IndexMap<u32, Option<ConstantValue>>,
    // The fields of each struct, by its number.
    pub(crate) structs: Vec<Sequence<FieldPart>>,
}

impl Drop for SizeTables {
    fn drop(self) {
        let SizeTables {
            constants: _,
            structs: _,
        } = self;
    }
}

// Adds the fields of the struct that a declaration declares, if it declares one.
fn add_row(
    alloc: Global,
    rows: &mut Vec<Sequence<FieldPart>>,
    setting: &Setting<'_>,
    number: usize,
) -> Result<(), NoMemory>
    requires number { number < length setting.now.parsed.now.decls }
    requires setting { TellsSetting setting.now }
    ensures { OnOk result ((node : DeclNode) → slice_get setting.now.parsed.now.decls number ≡ Some node
        → rows.new.items ≡ rows.old.items ++ map (row_of (declared_in setting.now.parsed.now)) (structs_of (decl_made (expr_trees setting.now.parsed.now.exprs) (stmt_trees setting.now.parsed.now.exprs setting.now.parsed.now.stmts) node.public node.decl node.at ∷ []))) }
{
    let node = setting.parsed.decl(number);
    match &node.decl {
        Decl::Struct { fields, .. } => {
            let row = row(alloc, setting, fields.as_slice())?;
            rows.push(row)?;
            Ok(())
        }
        Decl::Status(_) => Ok(()),
        Decl::Const { .. } => Ok(()),
        Decl::Method { .. } => Ok(()),
    }
}

// The fields of each struct, by its number.
fn rows(alloc: Global, setting: &Setting<'_>) -> Result<Vec<Sequence<FieldPart>>, NoMemory>
    requires setting { TellsSetting setting.now }
    ensures { IfOk result (λ rows. rows.items ≡ map (row_of (declared_in setting.now.parsed.now)) (declared_in setting.now.parsed.now).structs) }
{
    let mut rows = Vec::new(alloc);
    for number in 0..setting.parsed.decls().len() {
        add_row(alloc, &mut rows, setting, number)?;
    }
    Ok(rows)
}

/// What the sizes of a package are made of, by its tables. `Err` where memory was refused. The time is that of a walk over the
/// constants and all fields.
pub fn size_tables(
    alloc: Global,
    parsed: &PackageNodes,
    tables: &Tables,
) -> Result<SizeTables, NoMemory>
    requires { TellsPackage (declared_in parsed.now) tables.now }
    ensures { IfOk result (TellsSizes (declared_in parsed.now)) }
{
    let constants = constants(alloc, parsed)?;
    let setting = Setting {
        parsed,
        tables,
        constants: &constants,
    };
    let structs = rows(alloc, &setting)?;
    Ok(SizeTables { constants, structs })
}
