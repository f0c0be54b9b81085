// Where the statements of a function lead (ISO/IEC 9899:1999, 6.8).

ghost use Rattle.std.specs.Prelude.{◌≡◌};
ghost use Rattle.c_step_text.specs.Flat.{arm_of};
ghost use Rattle.c_step_run.specs.Leaps.{entering, leaping, moving, going_back, testing, coming_back, switching, returning};

use crate::moved::{Ended, Moved};
use c_meaning::cells::CellType;
use c_meaning::values::{CValue, Number};
use c_step_exprs::{cast, convert, value_holds};
use c_step_text::Arm;

/// The turns that are left after the entry of a function (6.9.1p10).
pub(crate) fn entry(turn: bool, left: u64) -> Option<u64>
    ensures { result ≡ entering turn left }
{
    if !turn {
        return Some(left);
    }
    if left == 0 {
        return None;
    }
    Some(left - 1)
}

/// To an instruction: a turn, where that doesn't stand after the one that leads to it (6.8.6.1).
pub(crate) fn leap(pc: usize, to: usize, left: u64) -> Moved
    ensures { result ≡ leaping pc to left }
{
    if pc < to {
        return Moved::Goes { to, left };
    }
    if left == 0 {
        return Moved::Turns;
    }
    Moved::Goes { to, left: left - 1 }
}

/// The target of the first case with a number, which is converted to the type of what is switched on (6.8.4.2p5).
fn arm(n: Number, arms: &[Arm]) -> Option<usize>
    ensures { result ≡ arm_of n arms.now }
{
    for arm in arms {
        if n.bits == convert(n.ty, arm.number).bits {
            return Some(arm.target);
        }
    }
    None
}

/// To the next instruction, where what the statement did is defined.
pub(crate) fn moves(defined: bool, pc: usize, next: usize, left: u64) -> Moved
    ensures { result ≡ moving defined pc next left }
{
    if defined {
        leap(pc, next, left)
    } else {
        Moved::Undefined
    }
}

/// To the next instruction after a call.
pub(crate) fn goes_back(ended: Ended, pc: usize, next: usize) -> Moved
    ensures { result ≡ going_back ended pc next }
{
    match ended {
        Ended::Got { value: _, left } => leap(pc, next, left),
        Ended::More => Moved::Turns,
        Ended::Lost => Moved::Undefined,
    }
}

/// By a condition (6.8.4.1p2).
pub(crate) fn tests(v: Option<CValue>, pc: usize, met: usize, unmet: usize, left: u64) -> Moved
    ensures { result ≡ testing v pc met unmet left }
{
    match v {
        Some(v) => {
            if value_holds(v) {
                leap(pc, met, left)
            } else {
                leap(pc, unmet, left)
            }
        }
        None => Moved::Undefined,
    }
}

/// By a condition, after the turn of a loop (6.8.5p4).
pub(crate) fn comes_back(v: Option<CValue>, met: usize, unmet: usize, left: u64) -> Moved
    ensures { result ≡ coming_back v met unmet left }
{
    match v {
        Some(v) => {
            if value_holds(v) {
                Moved::Goes { to: met, left }
            } else {
                Moved::Goes { to: unmet, left }
            }
        }
        None => Moved::Undefined,
    }
}

/// By a number (6.8.4.2p5).
pub(crate) fn switches(v: Option<CValue>, arms: &[Arm], pc: usize, other: usize, left: u64) -> Moved
    ensures { result ≡ switching v arms.now pc other left }
{
    match v {
        Some(CValue::Numeric(n)) => match arm(n, arms) {
            Some(to) => leap(pc, to, left),
            None => leap(pc, other, left),
        },
        Some(CValue::Address(_)) | Some(CValue::NullPointer) | None => Moved::Undefined,
    }
}

/// Returns a value, converted to the type of the function's result (6.8.6.4p3).
pub(crate) fn returns(v: Option<CValue>, ty: CellType, left: u64) -> Moved
    ensures { result ≡ returning v ty left }
{
    match v {
        Some(v) => match cast(ty, v) {
            Some(w) => Moved::Ends {
                value: Some(w),
                left,
            },
            None => Moved::Undefined,
        },
        None => Moved::Undefined,
    }
}
