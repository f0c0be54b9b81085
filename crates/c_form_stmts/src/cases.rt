// The cases of a `switch` (ISO/IEC 9899:1999, 6.8.4.2p3).

ghost use Rattle.std.specs.Prelude.{◌≡◌, ◌<◌, length, map, IfOk, false, []};
ghost use Rattle.c_text.specs.CNodes.{code_of};
ghost use Rattle.c_meaning.specs.UnitForm.{cases_of, formed_cases};
ghost use Rattle.c_form_stmts.specs.Lines.{line_in, HasLines};
ghost use Rattle.c_form_stmts.specs.Cases.{mark_of, cases_fit};

use crate::lines::{Line, lines};
use c_text::{CNumber, CStmt, CStmtId, Unit};
use indexmap::IndexSet;
use std::alloc::Global;
use wf_text::NoMemory;

/// What a statement is for the `switch` round it.
#[derive(Clone, Copy)]
pub(crate) enum Mark {
    /// No label of its own.
    None,
    /// `case number:`
    Case(CNumber),
    /// `default:`
    Default,
}

fn mark_at(unit: &Unit, s: CStmtId) -> Mark
    requires { s.0 < length unit.now.stmts }
    ensures { result ≡ mark_of (code_of unit.now s.0) }
{
    match unit.stmt(s) {
        CStmt::Case { number, .. } => Mark::Case(*number),
        CStmt::Default { .. } => Mark::Default,
        _ => Mark::None,
    }
}

/// Whether the cases of these statements are plain and differ, with at most one `default`.
fn are_formed_cases(alloc: Global, unit: &Unit, lines: &[Line]) -> Result<bool, NoMemory>
    requires { HasLines unit.now lines.now }
    ensures { IfOk result (λ formed. formed ≡ cases_fit [] false (map (line_in unit.now) lines.now)) }
{
    let mut seen: IndexSet<u32> = IndexSet::new(alloc);
    let mut has_default = false;
    for line in lines {
        match mark_at(unit, line.stmt) {
            Mark::Case(CNumber::Int(n)) => {
                if !seen.insert(n)? {
                    return Ok(false);
                }
            }
            Mark::Case(CNumber::Unsigned(_)) => return Ok(false),
            Mark::Case(CNumber::Long(_)) => return Ok(false),
            Mark::Default => {
                if has_default {
                    return Ok(false);
                }
                has_default = true;
            }
            Mark::None => {}
        }
    }
    Ok(true)
}

/// Whether the cases of a `switch` with this block are formed.
pub(crate) fn has_formed_cases(alloc: Global, unit: &Unit, body: CStmtId) -> Result<bool, NoMemory>
    requires { body.0 < length unit.now.stmts }
    ensures { IfOk result (λ formed. formed ≡ formed_cases (cases_of (code_of unit.now body.0))) }
{
    let listed = lines(alloc, unit, body, false)?;
    are_formed_cases(alloc, unit, listed.as_slice())
}
