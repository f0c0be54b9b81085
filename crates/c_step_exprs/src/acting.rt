// What one instruction does to the stack.

ghost use Rattle.std.specs.Prelude.{◌≡◌, ◌<◌, ◌≤◌, suc, length, false, option_map, ℕ, List, Option, ◌^◌, ◌≤ℤ◌, ◌<ℤ◌, pos, negsuc};
ghost use Rattle.c_meaning.specs.declared.values.CValue.{CValue as AnyValue};
ghost use Rattle.c_meaning.specs.CExprs.{pointed_place, sum_value, complement_of, as_expr_type};
ghost use Rattle.c_mem.specs.MemoryViews.{memory};
ghost use Rattle.c_step_exprs.specs.Instrs.{put_value, turned, joined, tested, element_of, field_of, cell_there, object_inside, goes_on, pushed, by_one, by_two, by_test, step, as_pointer};
ghost use Rattle.c_meaning.specs.CValues.{holds};
ghost use Rattle.c_step_exprs.specs.Values.{placed, is_call};
ghost use Rattle.c_step_exprs.specs.Stacks.{on_stack, most};
ghost use Rattle.c_meaning.specs.CMemory.{loaded, offset_object};
ghost use Rattle.c_meaning.specs.CTypes.{numbers};

use crate::instrs::{Instr, Join, Put, Test, Turn};
use crate::numbers::{complement, convert, operate, truth_number, whole_of};
use crate::places::{cast, operate_values, value_holds, value_in};
use crate::stack::Stack;
use c_meaning::values::{CValue, Pointer};
use c_mem::Mem;
use c_text::COp;
use wf_num::CTy;

/// The pointer that a value is, where it is one and not null.
fn pointer_in(v: CValue) -> Option<Pointer>
    ensures { result ≡ pointed_place (Some v) }
{
    match v {
        CValue::Address(p) => Some(p),
        CValue::Numeric(_) | CValue::NullPointer => None,
    }
}

/// The value of the cell that a pointer names.
fn load_value(mem: &Mem, p: Pointer) -> Option<CValue>
    ensures { result ≡ loaded (memory mem.now) p }
{
    let (ty, cell) = mem.cell(p)?;
    value_in(ty, cell)
}

/// The pointer to a field of the object that a value points to.
fn field_pointer(field: usize, v: CValue) -> Option<CValue>
    ensures { result ≡ field_of field v }
{
    let p = pointer_in(v)?;
    if p.index != 0 {
        return None;
    }
    Some(CValue::Address(Pointer { field, ..p }))
}

/// The pointer to the object inside the field that a value points to.
fn inside_pointer(mem: &Mem, v: CValue) -> Option<CValue>
    ensures { result ≡ object_inside (memory mem.now) v }
{
    let p = pointer_in(v)?;
    let object = mem.part(p.object, p.field)?;
    Some(CValue::Address(Pointer {
        object,
        field: 0,
        index: 0,
    }))
}

/// A pointer to a cell that is there.
fn cell_pointer(mem: &Mem, v: CValue) -> Option<CValue>
    ensures { result ≡ cell_there (memory mem.now) v }
{
    let p = pointer_in(v)?;
    let _there = mem.cell(p)?;
    Some(CValue::Address(p))
}

/// The pointer to an element.
fn element_pointer(mem: &Mem, first: CValue, second: CValue) -> Option<CValue>
    ensures { result ≡ element_of (memory mem.now) first second }
{
    match (first, second) {
        (CValue::Address(p), CValue::Numeric(n)) => {
            let moved = mem.offset(p, whole_of(n))?;
            Some(CValue::Address(moved))
        }
        (_, _) => None,
    }
}

/// A pointer to an object of a struct moved by so many objects: by none, or to just past it (6.5.6p7).
fn move_object(p: Pointer, by: i128) -> Option<Pointer>
    requires low { negsuc (2 ^ 64) ≤ℤ by }
    requires high { by <ℤ pos (2 ^ 64) }
    ensures { result ≡ offset_object p by }
{
    let moved = p.index as i128 + by;
    if moved < 0 || moved > 1 {
        return None;
    }
    let index = moved as u64;
    Some(Pointer { index, ..p })
}

/// `first + second` (6.5.6).
fn add_values(mem: &Mem, whole_object: bool, first: CValue, second: CValue) -> Option<CValue>
    ensures { result ≡ sum_value (memory mem.now) whole_object first second }
{
    match (first, second) {
        (CValue::Numeric(a), CValue::Numeric(b)) => {
            let sum = operate(COp::Add, a, b)?;
            Some(CValue::Numeric(sum))
        }
        (CValue::Address(p), CValue::Numeric(n)) => {
            let by = whole_of(n);
            let moved = if whole_object {
                move_object(p, by)?
            } else {
                mem.offset(p, by)?
            };
            Some(CValue::Address(moved))
        }
        (_, _) => None,
    }
}

/// What is put.
fn value_put(it: Put, mem: &Mem, frame: usize) -> Option<CValue>
    ensures { (called : ℕ → List AnyValue → Option AnyValue) → result ≡ put_value (placed frame (memory mem.now) called) it }
{
    match it {
        Put::Number(n) => Some(CValue::Numeric(n)),
        Put::Text(object) => Some(CValue::Address(Pointer {
            object,
            field: 0,
            index: 0,
        })),
        Put::Local(field) => Some(CValue::Address(Pointer {
            object: frame,
            field,
            index: 0,
        })),
        Put::Fetch(field) => load_value(
            mem,
            Pointer {
                object: frame,
                field,
                index: 0,
            },
        ),
    }
}

/// `~` of a value.
fn complement_value(v: CValue) -> Option<CValue>
    ensures { result ≡ complement_of v }
{
    match v {
        CValue::Numeric(n) => Some(CValue::Numeric(complement(n))),
        CValue::Address(_) | CValue::NullPointer => None,
    }
}

/// A number as one of a type; a pointer stays.
fn as_number(ty: CTy, v: CValue) -> CValue
    ensures { result ≡ as_expr_type (numbers ty) v }
{
    match v {
        CValue::Numeric(n) => CValue::Numeric(convert(ty, n)),
        CValue::Address(_) | CValue::NullPointer => v,
    }
}

/// A null pointer in place of a number; a pointer stays.
fn pointer_for(v: CValue) -> CValue
    ensures { result ≡ as_pointer v }
{
    match v {
        CValue::Numeric(_) => CValue::NullPointer,
        CValue::Address(_) | CValue::NullPointer => v,
    }
}

/// What a value becomes.
fn turn_value(it: Turn, mem: &Mem, v: CValue) -> Option<CValue>
    ensures { result ≡ turned (memory mem.now) it v }
{
    match it {
        Turn::Field(field) => field_pointer(field, v),
        Turn::Place => {
            let p = pointer_in(v)?;
            Some(CValue::Address(p))
        }
        Turn::Load => {
            let p = pointer_in(v)?;
            load_value(mem, p)
        }
        Turn::Cell => cell_pointer(mem, v),
        Turn::Inside => inside_pointer(mem, v),
        Turn::Not => Some(CValue::Numeric(truth_number(!value_holds(v)))),
        Turn::Complement => complement_value(v),
        Turn::Cast(ty) => cast(ty, v),
        Turn::Truth => Some(CValue::Numeric(truth_number(value_holds(v)))),
        Turn::AsNumber(ty) => Some(as_number(ty, v)),
        Turn::AsPointer => Some(pointer_for(v)),
    }
}

/// What two values become.
fn join_values(it: Join, mem: &Mem, first: CValue, second: CValue) -> Option<CValue>
    ensures { result ≡ joined (memory mem.now) it first second }
{
    match it {
        Join::Element => element_pointer(mem, first, second),
        Join::Operate(op) => operate_values(op, first, second),
        Join::Add(whole_object) => add_values(mem, whole_object, first, second),
    }
}

/// Puts a value.
fn put(it: Put, mem: &Mem, frame: usize, stack: &mut Stack) -> Option<usize>
    requires { length (on_stack stack.old) < most stack.old }
    ensures step { (called : ℕ → List AnyValue → Option AnyValue) → goes_on (pushed (put_value (placed frame (memory mem.now) called) it) (on_stack stack.old)) ≡ option_map (λ count. (count, on_stack stack.new)) result }
    ensures room { most stack.old ≤ most stack.new }
    ensures grown { length (on_stack stack.new) ≤ suc (length (on_stack stack.old)) }
{
    let v = value_put(it, mem, frame)?;
    stack.push(v);
    Some(0)
}

/// Takes a value and puts another one.
fn turn(it: Turn, mem: &Mem, stack: &mut Stack) -> Option<usize>
    requires { length (on_stack stack.old) < most stack.old }
    ensures step { goes_on (by_one (turned (memory mem.now) it) (on_stack stack.old)) ≡ option_map (λ count. (count, on_stack stack.new)) result }
    ensures room { most stack.old ≤ most stack.new }
    ensures grown { length (on_stack stack.new) ≤ suc (length (on_stack stack.old)) }
{
    let v = stack.pop()?;
    let turned = turn_value(it, mem, v)?;
    stack.push(turned);
    Some(0)
}

/// Takes two values and puts another one.
fn join(it: Join, mem: &Mem, stack: &mut Stack) -> Option<usize>
    requires { length (on_stack stack.old) < most stack.old }
    ensures step { goes_on (by_two (joined (memory mem.now) it) (on_stack stack.old)) ≡ option_map (λ count. (count, on_stack stack.new)) result }
    ensures room { most stack.old ≤ most stack.new }
    ensures grown { length (on_stack stack.new) ≤ suc (length (on_stack stack.old)) }
{
    let second = stack.pop()?;
    let first = stack.pop()?;
    let joined = join_values(it, mem, first, second)?;
    stack.push(joined);
    Some(0)
}

/// Takes a value, and puts what a test puts.
fn test(it: Test, count: usize, stack: &mut Stack) -> Option<usize>
    requires { length (on_stack stack.old) < most stack.old }
    ensures step { by_test (on_stack stack.old) (λ v rest. tested it (holds v) count rest) ≡ option_map (λ count. (count, on_stack stack.new)) result }
    ensures room { most stack.old ≤ most stack.new }
    ensures grown { length (on_stack stack.new) ≤ suc (length (on_stack stack.old)) }
{
    let v = stack.pop()?;
    match (it, value_holds(v)) {
        (Test::And, true) | (Test::Or, false) | (Test::Unless, true) => Some(0),
        (Test::Unless, false) => Some(count),
        (Test::And, false) => {
            stack.push(CValue::Numeric(truth_number(false)));
            Some(count)
        }
        (Test::Or, true) => {
            stack.push(CValue::Numeric(truth_number(true)));
            Some(count)
        }
    }
}

/// What an instruction that isn't a call does to the stack: how many instructions are passed over. None where it isn't
/// defined.
pub(crate) fn act(i: Instr, mem: &Mem, frame: usize, stack: &mut Stack) -> Option<usize>
    requires room { length (on_stack stack.old) < most stack.old }
    requires plain { is_call i ≡ false }
    ensures step { (called : ℕ → List AnyValue → Option AnyValue) → step (placed frame (memory mem.now) called) i (on_stack stack.old) ≡ option_map (λ count. (count, on_stack stack.new)) result }
    ensures room { most stack.old ≤ most stack.new }
    ensures grown { length (on_stack stack.new) ≤ suc (length (on_stack stack.old)) }
{
    match i {
        Instr::Put(it) => put(it, mem, frame, stack),
        Instr::Turn(it) => turn(it, mem, stack),
        Instr::Join(it) => join(it, mem, stack),
        Instr::Test(it, count) => test(it, count, stack),
        Instr::Skip(count) => Some(count),
        Instr::Call { .. } | Instr::Stuck => None,
    }
}
