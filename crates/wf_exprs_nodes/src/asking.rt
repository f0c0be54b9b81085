// What a reader or a writer is asked for.

ghost use Rattle.std.specs.Prelude.{◌≡◌, ◌<◌, ◌≤◌, ◌-◌, ◌/◌, true, length, IfOk};
ghost use Rattle.wf_base.specs.BaseTable.{bits_of};
ghost use Rattle.c_text.specs.CNodes.{expr_of};
ghost use Rattle.wf_exprs.specs.Exprs.{byte_ahead as byte_ahead_code, byte_at as byte_at_code, bytes_ahead, number_ahead as number_ahead_code, peek_code, peeked as peeked_code, position_code, raised as raised_code, there as there_code, rated};
ghost use Rattle.wf_exprs.specs.Grown.{Grows, HasExpr};
ghost use Rattle.wf_exprs.specs.Making.{HasRated};
ghost use Rattle.wf_num.specs.declared.c_arithmetic.CTy.TheVariants.{U64};
ghost use Rattle.wf_exprs_nodes.specs.Trees.{HasOperands, place_behind as place_behind_code, widened as widened_code};

use crate::chains::operation;
use c_text::{CExprId, CList, COp, Unit};
use wf_ast::Op;
use wf_base::{PeekForm, Width};
use wf_exprs::nodes::{cast, element, number, two};
use wf_exprs::rated::saturated;
use wf_exprs::{BodyNames, Rated};
use wf_num::CTy;
use wf_text::NoMemory;

/// How many bytes of a reader are unread, or can still be written to a writer: `(e_src - p_src)`.
pub fn there(scope: &BodyNames, u: &mut Unit, a: u32) -> Result<CExprId, NoMemory>
    ensures grows { Grows u.old u.new }
    ensures made { IfOk result (λ it. HasExpr u.new it.0 (there_code scope.now.names a)) }
{
    let end = scope.end(u, a)?;
    let place = scope.place(u, a)?;
    two(scope.alloc(), u, COp::Sub, end, place)
}

/// The same as a number.
pub(crate) fn bytes_left(scope: &BodyNames, u: &mut Unit, a: u32) -> Result<Rated, NoMemory>
    ensures grows { Grows u.old u.new }
    ensures made { IfOk result (λ it. HasRated u.new it (rated (there_code scope.now.names a) U64)) }
{
    let code = there(scope, u, a)?;
    Ok(Rated { code, ty: CTy::U64 })
}

/// The place in the stream.
#[tactic(auto, unfolding(c_text::specs::CSpelling::is_reserved))]
pub(crate) fn position(scope: &BodyNames, u: &mut Unit, a: u32) -> Result<Rated, NoMemory>
    ensures grows { Grows u.old u.new }
    ensures made { IfOk result (λ it. HasRated u.new it (rated (position_code scope.now.names a) U64)) }
{
    let before = scope.buffer_member(u, a, b"pos")?;
    let place = scope.place(u, a)?;
    let code = saturated(scope.alloc(), u, true, Width::W64, before, place)?;
    Ok(Rated { code, ty: CTy::U64 })
}

// The place of the next byte but k.
fn place_behind(scope: &BodyNames, u: &mut Unit, a: u32, k: u32) -> Result<CExprId, NoMemory>
    ensures grows { Grows u.old u.new }
    ensures made { IfOk result (λ it. HasExpr u.new it.0 (place_behind_code scope.now.names a k)) }
{
    let place = scope.place(u, a)?;
    if k == 0 {
        return Ok(place);
    }
    let k = number(u, k as u64)?;
    two(scope.alloc(), u, COp::Add, place, k)
}

/// The next byte but k.
pub(crate) fn peeked(scope: &BodyNames, u: &mut Unit, a: u32, k: u32) -> Result<CExprId, NoMemory>
    ensures grows { Grows u.old u.new }
    ensures made { IfOk result (λ it. HasExpr u.new it.0 (peeked_code scope.now.names a k)) }
{
    let bytes = scope.bytes(u, a)?;
    let place = place_behind(scope, u, a, k)?;
    element(u, bytes, place)
}

// A byte as a number of this width: C shifts what is calculated in `int` to at most 16 bits.
fn widened(u: &mut Unit, width: Width, e: CExprId) -> Result<CExprId, NoMemory>
    requires { e.0 < length u.old.exprs }
    ensures grows { Grows u.old u.new }
    ensures made { IfOk result (λ it. HasExpr u.new it.0 (widened_code (bits_of width) (expr_of u.old e.0))) }
{
    match width {
        Width::W8 | Width::W16 => Ok(e),
        Width::W32 => cast(u, Width::W32, e),
        Width::W64 => cast(u, Width::W64, e),
    }
}

// The next byte but `at`, moved up by so many bytes within a number of this width.
fn raised(
    scope: &BodyNames,
    u: &mut Unit,
    width: Width,
    a: u32,
    at: u32,
    below: u32,
) -> Result<CExprId, NoMemory>
    requires { below < 8 }
    ensures grows { Grows u.old u.new }
    ensures made { IfOk result (λ it. HasExpr u.new it.0 (raised_code (bits_of width) below (peeked_code scope.now.names a at))) }
{
    let byte = peeked(scope, u, a, at)?;
    let left = widened(u, width, byte)?;
    let right = number(u, (8 * below) as u64)?;
    two(scope.alloc(), u, COp::Shl, left, right)
}

// How many bytes a number has.
fn bytes_in(width: Width) -> u32
    ensures bytes { result ≡ bits_of width / 8 }
    ensures few { result ≤ 8 }
{
    match width {
        Width::W8 => 1,
        Width::W16 => 2,
        Width::W32 => 4,
        Width::W64 => 8,
    }
}

// Where the byte of a number stands that has so many below it.
fn byte_at(width: Width, big: bool, below: u32) -> u32
    requires { below < bits_of width / 8 }
    ensures { result ≡ byte_at_code (bits_of width) big below }
{
    if big {
        bytes_in(width) - 1 - below
    } else {
        below
    }
}

fn byte_ahead(
    scope: &BodyNames,
    u: &mut Unit,
    a: u32,
    width: Width,
    big: bool,
    below: u32,
) -> Result<CExprId, NoMemory>
    requires within { below < bits_of width / 8 }
    requires few { below < 8 }
    ensures grows { Grows u.old u.new }
    ensures made { IfOk result (λ it. HasExpr u.new it.0 (byte_ahead_code scope.now.names a (bits_of width) big below)) }
{
    let at = byte_at(width, big, below);
    raised(scope, u, width, a, at, below)
}

// The bytes of a number from the third on.
fn higher_bytes(
    scope: &BodyNames,
    u: &mut Unit,
    a: u32,
    width: Width,
    big: bool,
) -> Result<CList<CExprId>, NoMemory>
    requires more { 1 < bits_of width / 8 }
    ensures grows { Grows u.old u.new }
    ensures made { IfOk result (λ list. HasOperands u.new list (bytes_ahead scope.now.names a (bits_of width) big 2 (bits_of width / 8 - 2))) }
{
    let mut others = CList::new(scope.alloc());
    for below in 2..bytes_in(width) {
        let byte = byte_ahead(scope, u, a, width, big, below)?;
        others.push(byte)?;
    }
    Ok(others)
}

/// The number that the next bytes spell, two at least: the lowest first or, in big endian, the highest.
pub fn number_ahead(
    scope: &BodyNames,
    u: &mut Unit,
    a: u32,
    width: Width,
    big: bool,
) -> Result<CExprId, NoMemory>
    requires more { 1 < bits_of width / 8 }
    ensures grows { Grows u.old u.new }
    ensures made { IfOk result (λ it. HasExpr u.new it.0 (number_ahead_code scope.now.names a (bits_of width) big)) }
{
    let lowest = peeked(scope, u, a, byte_at(width, big, 0))?;
    let second = byte_ahead(scope, u, a, width, big, 1)?;
    let others = higher_bytes(scope, u, a, width, big)?;
    operation(u, Op::Add, lowest, second, others)
}

/// What a peek sees.
pub(crate) fn peek(
    scope: &BodyNames,
    u: &mut Unit,
    a: u32,
    form: PeekForm,
) -> Result<Rated, NoMemory>
    ensures grows { Grows u.old u.new }
    ensures made { IfOk result (λ it. HasRated u.new it (peek_code scope.now.names a form)) }
{
    let (code, ty) = match form {
        PeekForm::PeekU8 => (peeked(scope, u, a, 0)?, CTy::Int),
        PeekForm::PeekU16Le => (number_ahead(scope, u, a, Width::W16, false)?, CTy::Int),
        PeekForm::PeekU32Le => (number_ahead(scope, u, a, Width::W32, false)?, CTy::U32),
    };
    Ok(Rated { code, ty })
}
