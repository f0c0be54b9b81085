// Pointers, cells and values (ISO/IEC 9899:1999, 6.3.1.2, 6.3.2.3, 6.5.8, 6.5.9).

ghost use Rattle.std.specs.Prelude.{◌≡◌};
ghost use Rattle.c_meaning.specs.CValues.{holds, same_pointer, same_place, compared_places};
ghost use Rattle.c_meaning.specs.CMemory.{cell_of, value_of};
ghost use Rattle.c_meaning.specs.CExprs.{other_value};
ghost use Rattle.c_step_exprs.specs.Instrs.{as_cell};

use crate::numbers::{is_not_zero, operate, truth_number, whole_of};
use c_meaning::cells::{Cell, CellType};
use c_meaning::values::{CValue, Number, Pointer};
use c_text::COp;
use wf_num::CTy;

/// Whether a value isn't 0 or null (6.8.4.1p2).
pub fn value_holds(v: CValue) -> bool
    ensures { result ≡ holds v }
{
    match v {
        CValue::Numeric(n) => is_not_zero(n),
        CValue::Address(_) => true,
        CValue::NullPointer => false,
    }
}

/// Whether two pointers name one place.
pub fn is_same_pointer(p: Pointer, q: Pointer) -> bool
    ensures { result ≡ same_pointer p q }
{
    p.object == q.object && p.field == q.field && p.index == q.index
}

/// The same where either may be null (6.5.9p6).
fn is_same_place(v: CValue, w: CValue) -> bool
    ensures { result ≡ same_place v w }
{
    match (v, w) {
        (CValue::Address(p), CValue::Address(q)) => is_same_pointer(p, q),
        (CValue::Address(_), _) | (_, CValue::Address(_)) => false,
        (_, _) => true,
    }
}

/// `v op w` of pointers: only `==` and `!=` are defined.
fn compare_places(op: COp, v: CValue, w: CValue) -> Option<Number>
    ensures { result ≡ compared_places op v w }
{
    match op {
        COp::Eq => Some(truth_number(is_same_place(v, w))),
        COp::Ne => Some(truth_number(!is_same_place(v, w))),
        COp::Add
        | COp::Sub
        | COp::Mul
        | COp::Div
        | COp::Rem
        | COp::Shl
        | COp::Shr
        | COp::BitAnd
        | COp::BitOr
        | COp::BitXor
        | COp::Lt
        | COp::Le
        | COp::Gt
        | COp::Ge
        | COp::Both
        | COp::Either => None,
    }
}

/// `v op w` for every operator but `+`, `&&` and `||`; None where that is undefined.
pub(crate) fn operate_values(op: COp, v: CValue, w: CValue) -> Option<CValue>
    ensures { result ≡ other_value op v w }
{
    let number = match (v, w) {
        (CValue::Numeric(a), CValue::Numeric(b)) => operate(op, a, b)?,
        (_, _) => compare_places(op, v, w)?,
    };
    Some(CValue::Numeric(number))
}

/// What a cell of a type holds once a value is assigned to it (6.5.16.1p2).
pub fn cell_for(ty: CellType, v: CValue) -> Option<Cell>
    ensures { result ≡ cell_of ty v }
{
    match (ty, v) {
        (CellType::U8, CValue::Numeric(n)) => Some(Cell::Num(
            whole_of(n).rem_euclid(1 << 8) as u64,
        )),
        (CellType::U16, CValue::Numeric(n)) => Some(Cell::Num(
            whole_of(n).rem_euclid(1 << 16) as u64,
        )),
        (CellType::U32, CValue::Numeric(n)) => Some(Cell::Num(
            whole_of(n).rem_euclid(1 << 32) as u64,
        )),
        (CellType::U64, CValue::Numeric(n)) => Some(Cell::Num(
            whole_of(n).rem_euclid(1 << 64) as u64,
        )),
        (CellType::Flag, CValue::Numeric(n)) => Some(Cell::Num(truth_number(is_not_zero(n)).bits)),
        (CellType::Pointer, CValue::Numeric(_) | CValue::NullPointer) => Some(Cell::Null),
        (CellType::Pointer, CValue::Address(p)) => Some(Cell::At(p)),
        (_, _) => None,
    }
}

/// The value of a cell, promoted (6.3.1.1p2).
pub(crate) fn value_in(ty: CellType, cell: Cell) -> Option<CValue>
    ensures { result ≡ value_of ty cell }
{
    match (ty, cell) {
        (CellType::Pointer, Cell::Null) => Some(CValue::NullPointer),
        (CellType::Pointer, Cell::At(p)) => Some(CValue::Address(p)),
        (CellType::Pointer, _) => None,
        (CellType::U32, Cell::Num(bits)) => Some(CValue::Numeric(Number { ty: CTy::U32, bits })),
        (CellType::U64, Cell::Num(bits)) => Some(CValue::Numeric(Number { ty: CTy::U64, bits })),
        (_, Cell::Num(bits)) => Some(CValue::Numeric(Number { ty: CTy::Int, bits })),
        (_, _) => None,
    }
}

/// A value as a cell of a type would hold it (6.5.4).
pub fn cast(ty: CellType, v: CValue) -> Option<CValue>
    ensures { result ≡ as_cell ty v }
{
    value_in(ty, cell_for(ty, v)?)
}
