// Numbers: conversions and operators (ISO/IEC 9899:1999, 6.3.1, 6.5.3 to 6.5.12).

ghost use Rattle.std.specs.Prelude.{◌≡◌, ◌-◌, ◌^◌, ◌≤ℤ◌, ◌<ℤ◌, pos, negsuc};
ghost use Rattle.c_meaning.specs.CValues.{whole, converted, common, is_nonzero, truth, arithmetic, compared, shifted, operated, complemented};

use c_meaning::values::Number;
use c_text::COp;
use wf_num::{CTy, c_add, c_div, c_mul, c_rem, c_shl, c_shr, c_sub};

/// The whole number that a number is.
pub(crate) fn whole_of(n: Number) -> i128
    ensures exact { result ≡ whole n }
    ensures low { negsuc (2 ^ 31 - 1) ≤ℤ result }
    ensures high { result <ℤ pos (2 ^ 64) }
{
    let low = n.bits % (1 << 32);
    match n.ty {
        CTy::Int if low < 1 << 31 => low as i128,
        CTy::Int => low as i128 - (1 << 32),
        CTy::U32 => low as i128,
        CTy::U64 => n.bits as i128,
    }
}

/// A number converted to a type (6.3.1.3).
pub fn convert(ty: CTy, n: Number) -> Number
    ensures { result ≡ converted ty n }
{
    let value = whole_of(n);
    let bits = match ty {
        CTy::Int | CTy::U32 => value.rem_euclid(1 << 32) as u64,
        CTy::U64 => value.rem_euclid(1 << 64) as u64,
    };
    Number { ty, bits }
}

/// The type of two operands (6.3.1.8).
fn common_type(a: CTy, b: CTy) -> CTy
    ensures { result ≡ common a b }
{
    match (a, b) {
        (CTy::U64, _) | (CTy::U32, CTy::U64) => CTy::U64,
        (CTy::U32, _) => CTy::U32,
        (CTy::Int, _) => b,
    }
}

/// 1 where it holds, else 0 (6.5.8p6).
pub(crate) fn truth_number(holds: bool) -> Number
    ensures { result ≡ truth holds }
{
    let bits = if holds { 1 } else { 0 };
    Number { ty: CTy::Int, bits }
}

/// Whether a number isn't 0.
pub(crate) fn is_not_zero(n: Number) -> bool
    ensures { result ≡ is_nonzero n }
{
    n.bits != 0
}

/// `a op b` of one type; None where that is undefined, and where `op` is no such operator.
fn operate_in(op: COp, ty: CTy, a: u64, b: u64) -> Option<u64>
    ensures { result ≡ arithmetic op ty a b }
{
    match op {
        COp::Add => c_add(ty, a, b),
        COp::Sub => c_sub(ty, a, b),
        COp::Mul => c_mul(ty, a, b),
        COp::Div => c_div(ty, a, b),
        COp::Rem => c_rem(ty, a, b),
        COp::BitAnd => Some(a & b),
        COp::BitOr => Some(a | b),
        COp::BitXor => Some(a ^ b),
        COp::Shl
        | COp::Shr
        | COp::Lt
        | COp::Le
        | COp::Gt
        | COp::Ge
        | COp::Eq
        | COp::Ne
        | COp::Both
        | COp::Either => None,
    }
}

/// `a op b` as a comparison; None where `op` is none.
fn compare(op: COp, a: i128, b: i128) -> Option<bool>
    ensures { result ≡ compared op a b }
{
    match op {
        COp::Lt => Some(a < b),
        COp::Le => Some(a <= b),
        COp::Gt => Some(b < a),
        COp::Ge => Some(b <= a),
        COp::Eq => Some(a <= b && b <= a),
        COp::Ne => Some(!(a <= b && b <= a)),
        COp::Add
        | COp::Sub
        | COp::Mul
        | COp::Div
        | COp::Rem
        | COp::Shl
        | COp::Shr
        | COp::BitAnd
        | COp::BitOr
        | COp::BitXor
        | COp::Both
        | COp::Either => None,
    }
}

/// A shift; None where that is undefined, and where `op` is none.
fn shift(op: COp, a: Number, b: Number) -> Option<u64>
    ensures { result ≡ shifted op a b }
{
    match op {
        COp::Shl => c_shl(a.ty, a.bits, b.bits),
        COp::Shr => c_shr(a.ty, a.bits, b.bits),
        COp::Add
        | COp::Sub
        | COp::Mul
        | COp::Div
        | COp::Rem
        | COp::Lt
        | COp::Le
        | COp::Gt
        | COp::Ge
        | COp::Eq
        | COp::Ne
        | COp::BitAnd
        | COp::BitOr
        | COp::BitXor
        | COp::Both
        | COp::Either => None,
    }
}

/// `a op b` of two numbers; None where that is undefined, and for `&&` and `||` (6.5.5 to 6.5.12).
pub(crate) fn operate(op: COp, a: Number, b: Number) -> Option<Number>
    ensures { result ≡ operated op a b }
{
    match op {
        COp::Shl | COp::Shr => {
            let bits = shift(op, a, b)?;
            Some(Number { ty: a.ty, bits })
        }
        COp::Lt | COp::Le | COp::Gt | COp::Ge | COp::Eq | COp::Ne => {
            let ty = common_type(a.ty, b.ty);
            let holds = compare(op, whole_of(convert(ty, a)), whole_of(convert(ty, b)))?;
            Some(truth_number(holds))
        }
        COp::Both | COp::Either => None,
        COp::Add
        | COp::Sub
        | COp::Mul
        | COp::Div
        | COp::Rem
        | COp::BitAnd
        | COp::BitOr
        | COp::BitXor => {
            let ty = common_type(a.ty, b.ty);
            let bits = operate_in(op, ty, convert(ty, a).bits, convert(ty, b).bits)?;
            Some(Number { ty, bits })
        }
    }
}

/// `~a` (6.5.3.3p4).
pub(crate) fn complement(a: Number) -> Number
    ensures { result ≡ complemented a }
{
    let most: u64 = match a.ty {
        CTy::Int | CTy::U32 => 0xFFFF_FFFF,
        CTy::U64 => u64::MAX,
    };
    Number {
        ty: a.ty,
        bits: most.saturating_sub(a.bits),
    }
}
