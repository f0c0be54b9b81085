// The labels of a function's body (ISO/IEC 9899:1999, 6.8.1).

ghost use Rattle.std.specs.Prelude.{◌≡◌, ◌<◌, ◌∷◌, ℕ, Bool, List, length, map, option_map, IfOk, IfSome, MatchOption, false, true};
ghost use Rattle.c_text.specs.CNodes.{bytes_at, code_of};
ghost use Rattle.c_text.specs.CFits.{HasName};
ghost use Rattle.c_meaning.specs.UnitForm.{all_distinct};
ghost use Rattle.c_form_exprs.specs.Tables.{named};
ghost use Rattle.c_form_stmts.specs.Lines.{LineTree, line_in, HasLine, HasLines};
ghost use Rattle.c_form_stmts.specs.Labels.{Labelled, LabelledNext};
ghost use Rattle.c_form_stmts.specs.Statements.{label_of, label_names, label_at};

use crate::lines::Line;
use c_form_exprs::SpellingTable;
use c_text::{CNameId, CStmt, CStmtId, Unit};
use std::alloc::Global;
use wf_text::NoMemory;

/// The label that a statement is; None for another one.
fn label(unit: &Unit, s: CStmtId) -> Option<CNameId>
    requires { s.0 < length unit.now.stmts }
    ensures is { option_map (λ n. bytes_at unit.now.names n.0) result ≡ label_of (code_of unit.now s.0) }
    ensures has { IfSome result (HasName unit.now) }
{
    match unit.stmt(s) {
        CStmt::Label { name, .. } => Some(*name),
        _ => None,
    }
}

/// Adds the label that a statement is, with the statement's number; whether it is new.
fn add_label<'u>(
    table: &mut SpellingTable<'u, usize>,
    unit: &'u Unit,
    at: Line,
    i: usize,
) -> Result<bool, NoMemory>
    requires { HasLine unit.now at }
    ensures { (whole left : List LineTree) (distinct : Bool) → Labelled whole (line_in unit.now at ∷ left) table.old i distinct → IfOk result (LabelledNext whole left table.new i distinct) }
{
    match label(unit, at.stmt) {
        Some(name) => table.add(unit.name(name), i),
        None => Ok(true),
    }
}

/// The labels of a body with the numbers of their statements; None where two have one name.
pub(crate) fn labels<'u>(
    alloc: Global,
    unit: &'u Unit,
    lines: &[Line],
) -> Result<Option<SpellingTable<'u, usize>>, NoMemory>
    requires { HasLines unit.now lines.now }
    ensures { IfOk result (λ it. MatchOption it (all_distinct (label_names (map (line_in unit.now) lines.now)) ≡ false) (λ table. (all_distinct (label_names (map (line_in unit.now) lines.now)) ≡ true) × ((q : List ℕ) → named table q ≡ label_at 0 (map (line_in unit.now) lines.now) q))) }
{
    let mut table = SpellingTable::new(alloc);
    let mut i = 0;
    while i < lines.len() {
        if !add_label(&mut table, unit, lines[i], i)? {
            return Ok(None);
        }
        i += 1;
    }
    Ok(Some(table))
}
