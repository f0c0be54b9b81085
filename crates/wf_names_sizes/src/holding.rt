// The graph of the structs of a package: which holds which, read off their fields.

ghost use Rattle.std.specs.Prelude.{◌≡◌, ◌<◌, ◌-◌, ◌^◌, ◌++◌, length, IfOk, OnOk};
ghost use Rattle.wf_names_rules.specs.Declarations.{Declared};
ghost use Rattle.wf_names_rules.specs.StructRows.{AreStructRows};
ghost use Rattle.wf_names_sizes.specs.Settings.{TellsSizes};
ghost use Rattle.wf_names_sizes.specs.StructSizes.{struct_in, structs_in};

use crate::parts::{FieldPart, Part};
use crate::tables::SizeTables;
use graphs::rows::Row;
use std::alloc::Global;
use wf_text::faults::NoMemory;

// Joins the struct that a field holds at the end of a row, if it holds one.
fn add_struct(row: &mut Row, part: Part) -> Result<(), NoMemory>
    ensures { OnOk result (row.new ≡ row.old ++ struct_in part) }
{
    match part {
        Part::Struct(s) => {
            row.push(s)?;
            Ok(())
        }
        Part::Plain(_) => Ok(()),
    }
}

// The structs that fields hold.
fn struct_row(alloc: Global, fields: &[FieldPart]) -> Result<Row, NoMemory>
    ensures { IfOk result (λ row. row ≡ structs_in fields.now) }
{
    let mut row = Row::new(alloc);
    for field in fields {
        add_struct(&mut row, field.part)?;
    }
    Ok(row)
}

/// For each struct that is declared, in order, the structs that its fields hold, by their numbers, in the order of the fields.
/// `Err` where memory was refused.
pub fn struct_rows(alloc: Global, sizes: &SizeTables) -> Result<Vec<Row>, NoMemory>
    ensures { IfOk result (λ rows. (d : Declared) → TellsSizes d sizes.now → length d.structs < 2 ^ 32 - 1 → AreStructRows d rows.items) }
{
    let mut rows = Vec::new(alloc);
    for fields in sizes.structs.as_slice() {
        let row = struct_row(alloc, fields.as_slice())?;
        rows.push(row)?;
    }
    Ok(rows)
}
