// The labels of a function's body with the numbers of their statements (ISO/IEC 9899:1999, 6.8.1).

ghost use Rattle.std.specs.Prelude.{◌≡◌, ◌<◌, ◌++◌, ◌∷◌, [], ℕ, List, length, IfOk, OnOk};
ghost use Rattle.c_text.specs.CNodes.{code_of};
ghost use Rattle.c_meaning.specs.CStep.{by_name};
ghost use Rattle.c_form_exprs.specs.Tables.{named};
ghost use Rattle.c_step_text.specs.Layout.{seek};
ghost use Rattle.c_step_places.specs.Places.{PlaceTree, place_in, HasPlace};
ghost use Rattle.c_step_places.specs.Weights.{WeighsAll};
ghost use Rattle.c_step_load_stmts.specs.Bodies.{HasLabels};

use c_form_exprs::SpellingTable;
use c_step_places::{Place, Weighed, list_places};
use c_text::{CStmt, CStmtId};
use std::alloc::Global;
use wf_text::NoMemory;

/// Adds the label that a statement is, with the statement's number.
fn add_label<'u>(
    table: &mut SpellingTable<'u, usize>,
    it: &Weighed<'u>,
    at: Place,
) -> Result<(), NoMemory>
    requires { HasPlace it.now.unit.now at }
    ensures { (before : List PlaceTree) → HasLabels table.old before → OnOk result (HasLabels table.new (before ++ place_in it.now.unit.now at ∷ [])) }
{
    let unit = it.unit;
    match unit.stmt(at.stmt) {
        CStmt::Label { name, .. } => {
            table.add(unit.name(*name), at.number)?;
            Ok(())
        }
        _ => Ok(()),
    }
}

/// The labels of a body, whose first statement has a number.
pub fn label_numbers<'u>(
    alloc: Global,
    it: &Weighed<'u>,
    body: CStmtId,
    start: usize,
) -> Result<SpellingTable<'u, usize>, NoMemory>
    requires weights { WeighsAll it.now.unit.now it.now.weights.now }
    requires body { body.0 < length it.now.unit.now.stmts }
    ensures { IfOk result (λ table. (name : List ℕ) → named table name ≡ seek (by_name name) start (code_of it.now.unit.now body.0)) }
{
    let listed = list_places(alloc, it, body, start, true)?;
    let mut table = SpellingTable::new(alloc);
    let mut i = 0;
    while i < listed.len() {
        add_label(&mut table, it, listed[i])?;
        i += 1;
    }
    Ok(table)
}
