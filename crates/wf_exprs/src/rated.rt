// Numbers of C with the type in which C calculates them, and the operators between them. A cast stands where C would calculate
// in another type than the source, and beyond that round an or that may fill its width, where it is converted.

ghost use Rattle.std.specs.Prelude.{◌≡◌, ◌<◌, nat_eq, nat_lt, true, false, length, IfOk, Some, None};
ghost use Rattle.wf_base.specs.BaseTable.{bits_of};
ghost use Rattle.wf_ast.specs.TypedTrees.{operator_kind};
ghost use Rattle.c_text.specs.CNodes.{expr_of};
ghost use Rattle.c_text.specs.CSpelling.{IsLiteral};
ghost use Rattle.wf_num.specs.CArithmetic.{c_width};
ghost use Rattle.wf_exprs.specs.Exprs.{balanced as balanced_code, beside as beside_code, calculated as calculated_of, compared_with as compared_with_code, converted as converted_code, cut_off as cut_off_code, factor as factor_code, fills as fills_tree, firm as firm_code, greatest_of as greatest_in, is_beyond as is_beyond_tree, is_decided as is_decided_by, is_filled as is_filled_tree, is_calculated as is_calculated_tree, is_full as is_full_tree, is_step as is_step_tree, left_compared as left_compared_code, literal_type as type_of_literal, literal_value as value_of_literal, rank as rank_of, recast as recast_code, right_compared as right_compared_code, saturated as saturated_code, saturating_name as name_of_saturating, suffixed as suffixed_literal, taken as taken_code, unmoved as unmoved_code, unmoved_in as unmoved_in_code, widened as widened_code, wider as wider_of};
ghost use Rattle.wf_exprs.specs.Grown.{Grows, HasExpr, HasNamed};
ghost use Rattle.wf_exprs.specs.Making.{HasRated, c_op, linked_by, rated_in, small_number};
ghost use Rattle.wf_exprs.specs.Words.{two as two_trees};

use crate::alike::{are_alike, is_itself};
use crate::names::put_numbered;
use crate::nodes::{called, cast, is_held, is_literal, literal, number, put, two};
use crate::ors::{any_or, has_or, is_or};
use c_text::{CExpr, CExprId, CNameId, CNumber, COp, Unit};
use std::alloc::Global;
use wf_ast::Op;
use wf_base::Width;
use wf_num::CTy;
use wf_text::NoMemory;

/// A number of C, and the type that it has there. The type is never wider than that in which C calculates with numbers of the
/// source's width; where it is narrower, the value is the same.
#[derive(Clone, Copy)]
pub struct Rated {
    pub code: CExprId,
    pub ty: CTy,
}

/// A slice as its pointer and its length.
#[derive(Clone, Copy)]
pub struct Pair {
    pub pointer: CExprId,
    pub length: Rated,
}

/// The type in which C calculates with numbers of this width: small ones are promoted to `int`.
pub fn calculated(width: Width) -> CTy
    ensures { result ≡ calculated_of (bits_of width) }
{
    match width {
        Width::W8 | Width::W16 => CTy::Int,
        Width::W32 => CTy::U32,
        Width::W64 => CTy::U64,
    }
}

/// How wide a type is.
pub(crate) fn rank(ty: CTy) -> u32
    ensures { result ≡ rank_of ty }
{
    match ty {
        CTy::Int => 0,
        CTy::U32 => 1,
        CTy::U64 => 2,
    }
}

/// The wider one of two types.
pub fn wider(a: CTy, b: CTy) -> CTy
    ensures { result ≡ wider_of a b }
{
    if rank(a) < rank(b) { b } else { a }
}

/// The type that a literal has.
pub fn literal_type(number: CNumber) -> CTy
    ensures { result ≡ type_of_literal number }
{
    match number {
        CNumber::Int(_) => CTy::Int,
        CNumber::Unsigned(_) => CTy::U32,
        CNumber::Long(_) => CTy::U64,
    }
}

/// A literal with the suffix of a type.
fn suffixed(ty: CTy, n: u32) -> CNumber
    ensures is { result ≡ suffixed_literal ty n }
    ensures lawful { IsLiteral result }
{
    match ty {
        CTy::Int => literal(n as u64),
        CTy::U32 => CNumber::Unsigned(n),
        CTy::U64 => CNumber::Long(n as u64),
    }
}

/// The small number that an expression is, where it is one.
fn small_literal(u: &Unit, e: CExprId) -> Option<u32>
    requires { e.0 < length u.now.exprs }
    ensures { result ≡ small_number (expr_of u.now e.0) }
{
    match u.expr(e) {
        CExpr::Number(CNumber::Int(n)) => Some(*n),
        CExpr::Number(CNumber::Unsigned(n)) => Some(*n),
        _ => None,
    }
}

/// The same number in the type of this width: a literal gets its suffix, every other expression is cast.
fn recast(u: &mut Unit, width: Width, e: CExprId) -> Result<CExprId, NoMemory>
    requires { e.0 < length u.old.exprs }
    ensures grows { Grows u.old u.new }
    ensures made { IfOk result (λ it. HasExpr u.new it.0 (recast_code (bits_of width) (expr_of u.old e.0))) }
{
    match small_literal(u, e) {
        Some(n) => put(u, CExpr::Number(suffixed(calculated(width), n))),
        None => cast(u, width, e),
    }
}

/// The same number in the type in which C calculates with this width.
pub(crate) fn firm(u: &mut Unit, width: Width, a: Rated) -> Result<CExprId, NoMemory>
    requires { a.code.0 < length u.old.exprs }
    ensures grows { Grows u.old u.new }
    ensures made { IfOk result (λ it. HasExpr u.new it.0 (firm_code (bits_of width) (rated_in u.old a))) }
{
    if rank(a.ty) == rank(calculated(width)) {
        Ok(a.code)
    } else {
        recast(u, width, a.code)
    }
}

/// The left operand of two, of which one at least has to have that type: C converts the other.
pub fn balanced(u: &mut Unit, width: Width, a: Rated, b: Rated) -> Result<CExprId, NoMemory>
    requires { a.code.0 < length u.old.exprs }
    ensures grows { Grows u.old u.new }
    ensures made { IfOk result (λ it. HasExpr u.new it.0 (balanced_code (bits_of width) (rated_in u.old a) (rated_in u.old b))) }
{
    if rank(b.ty) == rank(calculated(width)) {
        Ok(a.code)
    } else {
        firm(u, width, a)
    }
}

/// A result modulo 2^N: C's own where it calculates in that width, else by a cast.
fn cut_off(u: &mut Unit, width: Width, e: CExprId) -> Result<CExprId, NoMemory>
    requires { e.0 < length u.old.exprs }
    ensures grows { Grows u.old u.new }
    ensures made { IfOk result (λ it. HasExpr u.new it.0 (cut_off_code (bits_of width) (expr_of u.old e.0))) }
{
    match width {
        Width::W8 | Width::W16 => cast(u, width, e),
        Width::W32 | Width::W64 => Ok(e),
    }
}

/// Whether an expression is all ones of 8 or 16 bits.
fn is_full(u: &Unit, e: CExprId) -> bool
    requires { e.0 < length u.now.exprs }
    ensures { result ≡ is_full_tree (expr_of u.now e.0) }
{
    match u.expr(e) {
        CExpr::Number(CNumber::Int(n)) => *n == 255 || *n == 65535,
        _ => false,
    }
}

/// Whether the first of two that are or-ed may make the or a constant, once it is converted: it is a constant, and either has all
/// ones or stands beside what is calculated.
fn fills(u: &Unit, a: CExprId, b: CExprId) -> bool
    requires first { a.0 < length u.now.exprs }
    requires second { b.0 < length u.now.exprs }
    ensures { result ≡ fills_tree (expr_of u.now a.0) (expr_of u.now b.0) }
{
    is_literal(u, a) && (is_full(u, a) || !is_held(u, b))
}

// Whether an operation has no more than two operands.
fn has_no_more(others: &[CExprId]) -> bool
    ensures { result ≡ nat_eq (length others.now) 0 }
{
    others.is_empty()
}

/// Whether an expression has an or that may be a constant once it is converted.
fn is_filled(u: &Unit, e: CExprId) -> bool
    requires { e.0 < length u.now.exprs }
    ensures { result ≡ is_filled_tree (expr_of u.now e.0) }
{
    match u.expr(e) {
        CExpr::Operation {
            op,
            first,
            second,
            others,
        } => {
            is_or(*op)
                && (!has_no_more(others.as_slice())
                    || (fills(u, *first, *second) || fills(u, *second, *first)))
                || (has_or(u, *first) || (has_or(u, *second) || any_or(u, e, others.as_slice())))
        }
        _ => false,
    }
}

/// What C converts to this width: where it is assigned, passed or returned.
pub fn taken(u: &mut Unit, width: Width, e: CExprId) -> Result<CExprId, NoMemory>
    requires { e.0 < length u.old.exprs }
    ensures grows { Grows u.old u.new }
    ensures made { IfOk result (λ it. HasExpr u.new it.0 (taken_code (bits_of width) (expr_of u.old e.0))) }
{
    if is_filled(u, e) {
        cut_off(u, width, e)
    } else {
        Ok(e)
    }
}

/// The left factor of a product modulo 2^N: two numbers of 16 bits would leave `int`.
fn factor(u: &mut Unit, width: Width, a: Rated, b: Rated) -> Result<CExprId, NoMemory>
    requires { a.code.0 < length u.old.exprs }
    ensures grows { Grows u.old u.new }
    ensures made { IfOk result (λ it. HasExpr u.new it.0 (factor_code (bits_of width) (rated_in u.old a) (rated_in u.old b))) }
{
    match width {
        Width::W16 => recast(u, Width::W32, a.code),
        Width::W8 | Width::W32 | Width::W64 => balanced(u, width, a, b),
    }
}

/// How many bits a width has.
fn bits_in(width: Width) -> u64
    ensures { result ≡ bits_of width }
{
    match width {
        Width::W8 => 8,
        Width::W16 => 16,
        Width::W32 => 32,
        Width::W64 => 64,
    }
}

/// The name of the function of a saturating operator.
pub fn saturating_name(u: &mut Unit, is_sum: bool, width: Width) -> Result<CNameId, NoMemory>
    ensures grows { Grows u.old u.new }
    ensures made { IfOk result (λ it. HasNamed u.new it.0 (name_of_saturating is_sum (bits_of width))) }
{
    if is_sum {
        put_numbered(u, b"sat_plus_u", bits_in(width))
    } else {
        put_numbered(u, b"sat_minus_u", bits_in(width))
    }
}

/// A call of the function of a saturating operator.
pub fn saturated(
    alloc: Global,
    u: &mut Unit,
    is_sum: bool,
    width: Width,
    a: CExprId,
    b: CExprId,
) -> Result<CExprId, NoMemory>
    requires first { a.0 < length u.old.exprs }
    requires second { b.0 < length u.old.exprs }
    ensures grows { Grows u.old u.new }
    ensures made { IfOk result (λ it. HasExpr u.new it.0 (saturated_code is_sum (bits_of width) (expr_of u.old a.0) (expr_of u.old b.0))) }
{
    let function = saturating_name(u, is_sum, width)?;
    called(alloc, u, function, a, b)
}

/// A saturating operator between two numbers: its function takes them.
fn saturated_taken(
    alloc: Global,
    u: &mut Unit,
    is_sum: bool,
    width: Width,
    a: CExprId,
    b: CExprId,
) -> Result<CExprId, NoMemory>
    requires first { a.0 < length u.old.exprs }
    requires second { b.0 < length u.old.exprs }
    ensures grows { Grows u.old u.new }
    ensures made { IfOk result (λ it. HasExpr u.new it.0 (saturated_code is_sum (bits_of width) (taken_code (bits_of width) (expr_of u.old a.0)) (taken_code (bits_of width) (expr_of u.old b.0)))) }
{
    let first = taken(u, width, a)?;
    let second = taken(u, width, b)?;
    saturated(alloc, u, is_sum, width, first, second)
}

/// A result modulo 2^N of two numbers, of which the left one is this.
fn cut_off_two(
    alloc: Global,
    u: &mut Unit,
    width: Width,
    op: COp,
    left: CExprId,
    right: CExprId,
) -> Result<CExprId, NoMemory>
    requires first { left.0 < length u.old.exprs }
    requires second { right.0 < length u.old.exprs }
    ensures grows { Grows u.old u.new }
    ensures made { IfOk result (λ it. HasExpr u.new it.0 (cut_off_code (bits_of width) (two_trees op (expr_of u.old left.0) (expr_of u.old right.0)))) }
{
    let whole = two(alloc, u, op, left, right)?;
    cut_off(u, width, whole)
}

/// An operator of the source as one of C.
pub fn op_of(op: Op) -> COp
    ensures { result ≡ c_op (operator_kind op) }
{
    match op {
        Op::Add | Op::ModAdd | Op::SatAdd => COp::Add,
        Op::Sub | Op::ModSub | Op::SatSub => COp::Sub,
        Op::Mul | Op::ModMul => COp::Mul,
        Op::Div => COp::Div,
        Op::Rem => COp::Rem,
        Op::Shl | Op::ModShl => COp::Shl,
        Op::Shr => COp::Shr,
        Op::BitAnd => COp::BitAnd,
        Op::BitOr => COp::BitOr,
        Op::BitXor => COp::BitXor,
        Op::And => COp::Both,
        Op::Or => COp::Either,
        Op::Same => COp::Eq,
        Op::Differs => COp::Ne,
        Op::Less => COp::Lt,
        Op::LessOrSame => COp::Le,
        Op::Greater => COp::Gt,
        Op::GreaterOrSame => COp::Ge,
    }
}

/// Two numbers with an operator between them.
pub fn linked(
    alloc: Global,
    u: &mut Unit,
    op: Op,
    width: Width,
    a: Rated,
    b: Rated,
) -> Result<CExprId, NoMemory>
    requires first { a.code.0 < length u.old.exprs }
    requires second { b.code.0 < length u.old.exprs }
    ensures grows { Grows u.old u.new }
    ensures made { IfOk result (λ it. HasExpr u.new it.0 (linked_by (operator_kind op) (bits_of width) (rated_in u.old a) (rated_in u.old b))) }
{
    match op {
        Op::Shl | Op::Shr => {
            let left = firm(u, width, a)?;
            two(alloc, u, op_of(op), left, b.code)
        }
        Op::ModShl => {
            let left = firm(u, width, a)?;
            cut_off_two(alloc, u, width, COp::Shl, left, b.code)
        }
        Op::ModMul => {
            let left = factor(u, width, a, b)?;
            cut_off_two(alloc, u, width, COp::Mul, left, b.code)
        }
        Op::ModAdd | Op::ModSub => {
            let left = balanced(u, width, a, b)?;
            cut_off_two(alloc, u, width, op_of(op), left, b.code)
        }
        Op::SatAdd => saturated_taken(alloc, u, true, width, a.code, b.code),
        Op::SatSub => saturated_taken(alloc, u, false, width, a.code, b.code),
        Op::Add
        | Op::Sub
        | Op::Mul
        | Op::Div
        | Op::Rem
        | Op::BitAnd
        | Op::BitOr
        | Op::BitXor
        | Op::And
        | Op::Or
        | Op::Same
        | Op::Differs
        | Op::Less
        | Op::LessOrSame
        | Op::Greater
        | Op::GreaterOrSame => {
            let left = balanced(u, width, a, b)?;
            two(alloc, u, op_of(op), left, b.code)
        }
    }
}

/// `as`: a cast where C calculates with numbers of this width in a narrower type. To a wider one C converts by itself.
pub fn converted(u: &mut Unit, width: Width, a: Rated) -> Result<Rated, NoMemory>
    requires { a.code.0 < length u.old.exprs }
    ensures grows { Grows u.old u.new }
    ensures made { IfOk result (λ r. HasRated u.new r (converted_code (bits_of width) (rated_in u.old a))) }
{
    let ty = calculated(width);
    if rank(ty) < rank(a.ty) {
        let code = cast(u, width, a.code)?;
        Ok(Rated { code, ty })
    } else {
        Ok(a)
    }
}

/// A number where it is compared with one of this width: what was calculated in `int` is cast, since beside an unsigned number
/// its sign is remarked.
pub fn widened(u: &mut Unit, width: Width, a: Rated) -> Result<Rated, NoMemory>
    requires { a.code.0 < length u.old.exprs }
    ensures grows { Grows u.old u.new }
    ensures made { IfOk result (λ r. HasRated u.new r (widened_code (bits_of width) (rated_in u.old a))) }
{
    if rank(a.ty) == 0 && !is_held(u, a.code) {
        let code = cast(u, width, a.code)?;
        Ok(Rated {
            code,
            ty: calculated(width),
        })
    } else {
        Ok(a)
    }
}

/// The width in which C calculates numbers of a type.
fn width_in(ty: CTy) -> Width
    ensures { bits_of result ≡ c_width ty }
{
    match ty {
        CTy::Int | CTy::U32 => Width::W32,
        CTy::U64 => Width::W64,
    }
}

/// A number beside one of this type: what was calculated in `int` is cast where that is wider.
fn beside(u: &mut Unit, a: Rated, ty: CTy) -> Result<Rated, NoMemory>
    requires { a.code.0 < length u.old.exprs }
    ensures grows { Grows u.old u.new }
    ensures made { IfOk result (λ r. HasRated u.new r (beside_code (rated_in u.old a) ty)) }
{
    if rank(a.ty) < rank(ty) {
        widened(u, width_in(ty), a)
    } else {
        Ok(a)
    }
}

/// The number that a literal is.
pub(crate) fn literal_value(number: CNumber) -> u64
    ensures { result ≡ value_of_literal number }
{
    match number {
        CNumber::Int(n) => n as u64,
        CNumber::Unsigned(n) => n as u64,
        CNumber::Long(n) => n,
    }
}

/// The greatest number of the narrowest cells with which C calculates in a type.
fn greatest_of(ty: CTy) -> u64
    ensures { result ≡ greatest_in ty }
{
    match ty {
        CTy::Int => 255,
        CTy::U32 => 4294967295,
        CTy::U64 => 18446744073709551615,
    }
}

/// Whether an expression is a constant that is the greatest number of a cell, or greater.
fn is_beyond(u: &Unit, e: CExprId, ty: CTy) -> bool
    requires { e.0 < length u.now.exprs }
    ensures { result ≡ is_beyond_tree (expr_of u.now e.0) ty }
{
    match u.expr(e) {
        CExpr::Number(n) => greatest_of(ty) <= literal_value(*n),
        _ => false,
    }
}

// Whether an operation of two operands is a sum or a difference of two that are held, of which compilers know nothing.
fn is_step(u: &Unit, op: COp, a: CExprId, b: CExprId) -> bool
    requires left { a.0 < length u.now.exprs }
    requires right { b.0 < length u.now.exprs }
    ensures { result ≡ is_step_tree op (expr_of u.now a.0) (expr_of u.now b.0) }
{
    match op {
        COp::Add => is_held(u, a) && is_held(u, b),
        COp::Sub => is_held(u, a) && (is_held(u, b) && !are_alike(u, a, b)),
        _ => false,
    }
}

/// Whether an expression is calculated, and compilers may know something of what it comes to.
fn is_calculated(u: &Unit, e: CExprId) -> bool
    requires { e.0 < length u.now.exprs }
    ensures { result ≡ is_calculated_tree (expr_of u.now e.0) }
{
    match u.expr(e) {
        CExpr::Operation {
            op,
            first,
            second,
            others,
        } => !(has_no_more(others.as_slice()) && is_step(u, *op, *first, *second)),
        CExpr::Cast { .. } => true,
        _ => false,
    }
}

/// Whether compilers may remark on a comparison that what it compares decides it.
fn is_decided(u: &Unit, a: Rated, b: Rated) -> bool
    requires left { a.code.0 < length u.now.exprs }
    requires right { b.code.0 < length u.now.exprs }
    ensures { result ≡ is_decided_by (rated_in u.now a) (rated_in u.now b) }
{
    is_beyond(u, b.code, a.ty) || is_calculated(u, a.code)
}

/// A number with 0 added to it or subtracted from it.
fn unmoved(alloc: Global, u: &mut Unit, sign: COp, e: CExprId, ty: CTy) -> Result<Rated, NoMemory>
    requires { e.0 < length u.old.exprs }
    ensures grows { Grows u.old u.new }
    ensures made { IfOk result (λ r. HasRated u.new r (unmoved_code sign (expr_of u.old e.0) ty)) }
{
    let none = number(u, 0)?;
    let code = two(alloc, u, sign, e, none)?;
    Ok(Rated { code, ty })
}

fn is_narrower(a: CTy, b: CTy) -> bool
    ensures { result ≡ nat_lt (rank_of a) (rank_of b) }
{
    rank(a) < rank(b)
}

/// A number with 0 added to it or subtracted from it in the wider of two types.
fn unmoved_in(alloc: Global, u: &mut Unit, sign: COp, a: Rated, ty: CTy) -> Result<Rated, NoMemory>
    requires { a.code.0 < length u.old.exprs }
    ensures grows { Grows u.old u.new }
    ensures made { IfOk result (λ r. HasRated u.new r (unmoved_in_code sign (rated_in u.old a) ty)) }
{
    if is_narrower(a.ty, ty) {
        let width = width_in(ty);
        let code = cast(u, width, a.code)?;
        unmoved(alloc, u, sign, code, calculated(width))
    } else {
        unmoved(alloc, u, sign, a.code, a.ty)
    }
}

// An operand of a comparison, with the other one. Where compilers may know that it decides 0 is added to it or subtracted from it.
fn compared_with(
    alloc: Global,
    u: &mut Unit,
    sign: COp,
    a: Rated,
    b: Rated,
) -> Result<Rated, NoMemory>
    requires operand { a.code.0 < length u.old.exprs }
    requires other { b.code.0 < length u.old.exprs }
    ensures grows { Grows u.old u.new }
    ensures made { IfOk result (λ r. HasRated u.new r (compared_with_code sign (rated_in u.old a) (rated_in u.old b))) }
{
    if is_decided(u, a, b) {
        unmoved_in(alloc, u, sign, a, b.ty)
    } else {
        beside(u, a, b.ty)
    }
}

/// The left operand of a comparison, with the right one. Where it may decide or is compared with itself 0 is added to it.
pub fn left_compared(alloc: Global, u: &mut Unit, a: Rated, b: Rated) -> Result<Rated, NoMemory>
    requires operand { a.code.0 < length u.old.exprs }
    requires other { b.code.0 < length u.old.exprs }
    ensures grows { Grows u.old u.new }
    ensures made { IfOk result (λ r. HasRated u.new r (left_compared_code (rated_in u.old a) (rated_in u.old b))) }
{
    if is_itself(u, a.code, b.code) {
        unmoved_in(alloc, u, COp::Add, a, b.ty)
    } else {
        compared_with(alloc, u, COp::Add, a, b)
    }
}

/// The right operand of a comparison, with the left one. Where it may decide 0 is subtracted from it.
pub fn right_compared(alloc: Global, u: &mut Unit, b: Rated, a: Rated) -> Result<Rated, NoMemory>
    requires operand { b.code.0 < length u.old.exprs }
    requires other { a.code.0 < length u.old.exprs }
    ensures grows { Grows u.old u.new }
    ensures made { IfOk result (λ r. HasRated u.new r (right_compared_code (rated_in u.old b) (rated_in u.old a))) }
{
    compared_with(alloc, u, COp::Sub, b, a)
}
