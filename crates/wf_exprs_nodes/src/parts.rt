// A part of a slice: its pointer is moved by its first end, where it has one.

ghost use Rattle.std.specs.Prelude.{◌<◌, length, IfOk, option_map};
ghost use Rattle.c_text.specs.CNodes.{expr_of};
ghost use Rattle.wf_exprs.specs.Exprs.{from_to as from_to_rated, moved as moved_code, part_length as length_of_part, part_pair, part_pointer as pointer_of_part};
ghost use Rattle.wf_exprs.specs.Grown.{Grows, HasExpr};
ghost use Rattle.wf_exprs.specs.Making.{HasEndAt, HasPair, HasPairAt, HasRated, pair_in, rated_in};

use c_text::{CExprId, COp, Unit};
use std::alloc::Global;
use wf_exprs::nodes::{choice, two};
use wf_exprs::rated::wider;
use wf_exprs::{Pair, Rated};
use wf_text::NoMemory;

/// A slice as its pointer and its length, and whether its pointer is never null: it points into an array then.
#[derive(Clone, Copy)]
pub(crate) struct Cells {
    pub pair: Pair,
    pub never_null: bool,
}

// A pointer moved on. Nothing may be added to a null pointer, which stays as it is.
fn moved(
    alloc: Global,
    u: &mut Unit,
    never_null: bool,
    pointer: CExprId,
    from: CExprId,
) -> Result<CExprId, NoMemory>
    requires pointer { pointer.0 < length u.old.exprs }
    requires from { from.0 < length u.old.exprs }
    ensures grows { Grows u.old u.new }
    ensures made { IfOk result (λ it. HasExpr u.new it.0 (moved_code never_null (expr_of u.old pointer.0) (expr_of u.old from.0))) }
{
    let sum = two(alloc, u, COp::Add, pointer, from)?;
    if never_null {
        return Ok(sum);
    }
    choice(u, pointer, sum, pointer)
}

fn part_pointer(
    alloc: Global,
    u: &mut Unit,
    never_null: bool,
    pointer: CExprId,
    from: Option<Rated>,
) -> Result<CExprId, NoMemory>
    requires pointer { pointer.0 < length u.old.exprs }
    requires from { HasEndAt u.old from }
    ensures grows { Grows u.old u.new }
    ensures made { IfOk result (λ it. HasExpr u.new it.0 (pointer_of_part never_null (expr_of u.old pointer.0) (option_map (rated_in u.old) from))) }
{
    match from {
        Some(from) => moved(alloc, u, never_null, pointer, from.code),
        None => Ok(pointer),
    }
}

// From one number up to another.
fn from_to(alloc: Global, u: &mut Unit, from: Rated, to: Rated) -> Result<Rated, NoMemory>
    requires from { from.code.0 < length u.old.exprs }
    requires to { to.code.0 < length u.old.exprs }
    ensures grows { Grows u.old u.new }
    ensures made { IfOk result (λ it. HasRated u.new it (from_to_rated (rated_in u.old from) (rated_in u.old to))) }
{
    let code = two(alloc, u, COp::Sub, to.code, from.code)?;
    Ok(Rated {
        code,
        ty: wider(from.ty, to.ty),
    })
}

fn part_length(
    alloc: Global,
    u: &mut Unit,
    whole: Rated,
    from: Option<Rated>,
    to: Option<Rated>,
) -> Result<Rated, NoMemory>
    requires whole { whole.code.0 < length u.old.exprs }
    requires from { HasEndAt u.old from }
    requires to { HasEndAt u.old to }
    ensures grows { Grows u.old u.new }
    ensures made { IfOk result (λ it. HasRated u.new it (length_of_part (rated_in u.old whole) (option_map (rated_in u.old) from) (option_map (rated_in u.old) to))) }
{
    match (from, to) {
        (None, None) => Ok(whole),
        (None, Some(to)) => Ok(to),
        (Some(from), None) => from_to(alloc, u, from, whole),
        (Some(from), Some(to)) => from_to(alloc, u, from, to),
    }
}

/// The part of a slice from one end up to another; absent ends are 0 and the length.
pub(crate) fn part(
    alloc: Global,
    u: &mut Unit,
    whole: Cells,
    from: Option<Rated>,
    to: Option<Rated>,
) -> Result<Pair, NoMemory>
    requires whole { HasPairAt u.old whole.pair }
    requires from { HasEndAt u.old from }
    requires to { HasEndAt u.old to }
    ensures grows { Grows u.old u.new }
    ensures made { IfOk result (λ it. HasPair u.new it (part_pair whole.never_null (pair_in u.old whole.pair) (option_map (rated_in u.old) from) (option_map (rated_in u.old) to))) }
{
    let pointer = part_pointer(alloc, u, whole.never_null, whole.pair.pointer, from)?;
    let length = part_length(alloc, u, whole.pair.length, from, to)?;
    Ok(Pair { pointer, length })
}
