// Single instructions, and how they come to stand at the end of a list.

ghost use Rattle.std.specs.Prelude.{◌≡◌, ◌<◌, ◌∷◌, ◌++◌, [], ℕ, List, length, option_map, OnOk};
ghost use Rattle.c_text.specs.CNodes.{type_in};
ghost use Rattle.c_meaning.specs.CValues.{literal_number};
ghost use Rattle.c_meaning.specs.CExprs.{cell_type as cell_type_of, is_object_pointer};
ghost use Rattle.c_form_exprs.specs.TypeViews.{value_in, held_in};
ghost use Rattle.c_step_exprs.specs.declared.instrs.Instr.{Instr as InstrOf};
ghost use Rattle.c_step_exprs.specs.Resolving.{named_code, held_code, field_code, address_code, call_code};

use c_form_exprs::{ExprType, Held, Target};
use c_meaning::cells::CellType;
use c_meaning::values::Number;
use c_step_exprs::{Instr, Put, Turn};
use c_text::{CNumber, CType, CUint};
use wf_num::CTy;
use wf_text::NoMemory;

/// The number of a literal (ISO/IEC 9899:1999, 6.4.4.1p5).
pub(crate) fn literal(n: CNumber) -> Number
    ensures { result ≡ literal_number n }
{
    match n {
        CNumber::Int(value) => Number {
            ty: CTy::Int,
            bits: value as u64,
        },
        CNumber::Unsigned(value) => Number {
            ty: CTy::U32,
            bits: value as u64,
        },
        CNumber::Long(value) => Number {
            ty: CTy::U64,
            bits: value,
        },
    }
}

/// The cells of a type (6.2.5).
pub fn cell_type(ty: CType) -> CellType
    ensures { (names : List (List ℕ)) → result ≡ cell_type_of (type_in names ty) }
{
    match ty {
        CType::Uint(CUint::U8) => CellType::U8,
        CType::Uint(CUint::U16) => CellType::U16,
        CType::Uint(CUint::U32) => CellType::U32,
        CType::Uint(CUint::U64) => CellType::U64,
        CType::Size => CellType::U64,
        CType::Bool => CellType::Flag,
        CType::UintPointer(_) => CellType::Pointer,
        CType::StructPointer(_) => CellType::Pointer,
        CType::Text => CellType::Pointer,
    }
}

/// Puts an instruction at the end.
pub(crate) fn put(code: &mut Vec<Instr>, it: Instr) -> Result<(), NoMemory>
    ensures { OnOk result (code.new.items ≡ code.old.items ++ it ∷ []) }
{
    code.push(it)?;
    Ok(())
}

/// Puts another instruction in the place of one.
pub(crate) fn set(code: &mut Vec<Instr>, at: usize, it: Instr)
    requires { at < length code.old.items }
    ensures length { length code.new.items ≡ length code.old.items }
    ensures set { (front behind : List InstrOf) (old : InstrOf) → code.old.items ≡ front ++ old ∷ behind → at ≡ length front → code.new.items ≡ front ++ it ∷ behind }
{
    code[at] = it;
}

/// Whether a pointer is one to an object of a struct.
pub(crate) fn is_object(ty: Option<ExprType>) -> bool
    ensures { (names : List (List ℕ)) → result ≡ is_object_pointer (option_map (value_in names) ty) }
{
    match ty {
        Some(ExprType::PointsTo(Target::Object(_))) => true,
        Some(ExprType::PointsTo(Target::Cell(_))) => false,
        Some(ExprType::PointsTo(Target::Byte)) => false,
        Some(ExprType::Numbers(_)) => false,
        Some(ExprType::ZeroLiteral) => false,
        None => false,
    }
}

/// The place of a name.
pub(crate) fn named(local: Option<usize>, text: Option<usize>) -> Instr
    ensures { named_code local text ≡ result ∷ [] }
{
    match (local, text) {
        (Some(k), _) => Instr::Put(Put::Local(k)),
        (None, Some(k)) => Instr::Put(Put::Text(k)),
        (None, None) => Instr::Stuck,
    }
}

/// The value of an lvalue, by its place.
pub(crate) fn loaded(held: Option<Held>) -> Instr
    ensures { (names : List (List ℕ)) → held_code (option_map (held_in names) held) ≡ result ∷ [] }
{
    match held {
        Some(Held::One(_)) => Instr::Turn(Turn::Load),
        Some(Held::Fixed(_)) => Instr::Turn(Turn::Load),
        Some(Held::Character) => Instr::Turn(Turn::Load),
        Some(Held::Many(_)) => Instr::Turn(Turn::Place),
        Some(Held::Characters) => Instr::Turn(Turn::Place),
        Some(Held::Inner(_)) => Instr::Stuck,
        None => Instr::Stuck,
    }
}

/// The place of a field, by the pointer to its object.
pub(crate) fn field(number: Option<usize>) -> Instr
    ensures { field_code number ≡ result ∷ [] }
{
    match number {
        Some(k) => Instr::Turn(Turn::Field(k)),
        None => Instr::Stuck,
    }
}

/// The pointer to what an lvalue stands for, by its place.
pub(crate) fn address(held: Option<Held>) -> Instr
    ensures { (names : List (List ℕ)) → address_code (option_map (held_in names) held) ≡ result ∷ [] }
{
    match held {
        Some(Held::One(_)) => Instr::Turn(Turn::Cell),
        Some(Held::Character) => Instr::Turn(Turn::Cell),
        Some(Held::Inner(_)) => Instr::Turn(Turn::Inside),
        Some(Held::Fixed(_)) => Instr::Stuck,
        Some(Held::Many(_)) => Instr::Stuck,
        Some(Held::Characters) => Instr::Stuck,
        None => Instr::Stuck,
    }
}

/// A call of a function with so many arguments.
pub(crate) fn call(function: Option<usize>, count: usize) -> Instr
    ensures { call_code function count ≡ result ∷ [] }
{
    match function {
        Some(function) => Instr::Call { function, count },
        None => Instr::Stuck,
    }
}
