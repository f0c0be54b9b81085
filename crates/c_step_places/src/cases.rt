// The cases of a `switch` (ISO/IEC 9899:1999, 6.8.4.2).

ghost use Rattle.std.specs.Prelude.{◌≡◌, ◌<◌, ◌++◌, None, length, map, IfOk, OnOk};
ghost use Rattle.c_text.specs.CNodes.{code_of};
ghost use Rattle.c_meaning.specs.CValues.{literal_number};
ghost use Rattle.c_meaning.specs.CStep.{by_default};
ghost use Rattle.c_step_text.specs.Emitted.{cases_of};
ghost use Rattle.c_step_text.specs.Layout.{first_number, seek};
ghost use Rattle.c_step_places.specs.Marks.{marked, first_marked, case_at, cases_among};
ghost use Rattle.c_step_places.specs.Places.{place_in, HasPlaces};
ghost use Rattle.c_step_places.specs.Weights.{WeighsAll};

use crate::listing::{Place, list_places};
use crate::weighing::Weighed;
use c_meaning::values::Number;
use c_step_text::Arm;
use c_text::{CNumber, CStmt, CStmtId};
use std::alloc::Global;
use wf_num::CTy;
use wf_text::NoMemory;

/// The number of a literal (6.4.4.1p5).
pub(crate) fn literal(n: CNumber) -> Number
    ensures { result ≡ literal_number n }
{
    match n {
        CNumber::Int(value) => Number {
            ty: CTy::Int,
            bits: value as u64,
        },
        CNumber::Unsigned(value) => Number {
            ty: CTy::U32,
            bits: value as u64,
        },
        CNumber::Long(value) => Number {
            ty: CTy::U64,
            bits: value,
        },
    }
}

/// Adds the case that a statement is; its number where it is `default`, and none was before it.
fn add_case(
    it: &Weighed,
    at: Place,
    default: Option<usize>,
    arms: &mut Vec<Arm>,
) -> Result<Option<usize>, NoMemory>
    requires { at.stmt.0 < length it.now.unit.now.stmts }
    ensures default { IfOk result (λ found. found ≡ first_number default (marked by_default at.number (code_of it.now.unit.now at.stmt.0) None)) }
    ensures arms { OnOk result (arms.new.items ≡ arms.old.items ++ case_at at.number (code_of it.now.unit.now at.stmt.0)) }
{
    match it.unit.stmt(at.stmt) {
        CStmt::Case { number, .. } => {
            let arm = Arm {
                number: literal(*number),
                target: at.number,
            };
            arms.push(arm)?;
            Ok(default)
        }
        CStmt::Default { .. } => match default {
            Some(first) => Ok(Some(first)),
            None => Ok(Some(at.number)),
        },
        _ => Ok(default),
    }
}

/// Adds the cases among statements; the number of the first one that is `default`.
#[tactic(auto, using(crate::proofs::MarkLemmas::default_step, crate::proofs::MarkLemmas::arms_step))]
fn add_listed(
    it: &Weighed,
    listed: &[Place],
    arms: &mut Vec<Arm>,
) -> Result<Option<usize>, NoMemory>
    requires { HasPlaces it.now.unit.now listed.now }
    ensures default { IfOk result (λ found. found ≡ first_marked by_default (map (place_in it.now.unit.now) listed.now)) }
    ensures arms { OnOk result (arms.new.items ≡ arms.old.items ++ cases_among (map (place_in it.now.unit.now) listed.now)) }
{
    let mut default = None;
    for at in listed {
        default = add_case(it, *at, default, arms)?;
    }
    Ok(default)
}

/// Adds the cases of a `switch` whose block has a number; the number of its `default`.
#[tactic(auto, using(crate::proofs::MarkLemmas::default_found, crate::proofs::MarkLemmas::cases_found))]
pub fn add_cases(
    alloc: Global,
    it: &Weighed,
    body: CStmtId,
    number: usize,
    arms: &mut Vec<Arm>,
) -> Result<Option<usize>, NoMemory>
    requires weights { WeighsAll it.now.unit.now it.now.weights.now }
    requires body { body.0 < length it.now.unit.now.stmts }
    ensures default { IfOk result (λ found. found ≡ seek by_default number (code_of it.now.unit.now body.0)) }
    ensures arms { OnOk result (arms.new.items ≡ arms.old.items ++ cases_of number (code_of it.now.unit.now body.0)) }
{
    let listed = list_places(alloc, it, body, number, false)?;
    add_listed(it, listed.as_slice(), arms)
}
