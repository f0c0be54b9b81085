// The walk over expressions, types and calls: the first refusal of what was found before and of all that the rules say of
// their parts, and what they mean. Parts come before their whole.

ghost use Rattle.std.specs.Prelude.{◌≡◌, ◌<◌, [], ◌∷◌, ◌++◌, Some, length, IfOk, OnOk};
ghost use Rattle.std.specs.List.{AllByRecursion};
ghost use Rattle.wf_ast.specs.ParsedParts.{IsBelow, LinksBelow, PrefixBelow, BoundsBelow};
ghost use Rattle.wf_named.specs.NamedParts.{exprs_of, ArgsBelow, NamedTypeBelow};
ghost use Rattle.wf_named.specs.NamedTrees.{expr_at, part_at, links_at, args_at, call_at, bounds_at, core_at, prefixed, all_prefixed, type_at};
ghost use Rattle.wf_named.specs.NamedTree as tree;
ghost use Rattle.wf_types_rules.specs.declared.settings.Role.TheVariants as roles;
ghost use Rattle.wf_types_rules.specs.ExprTypes.{meaning, operands_behind, operands, plain_width};
ghost use Rattle.wf_types_rules.specs.Judgements.{value_of, end_value, bound_of, low_bound, wanted as type_wanted, meaning_of_argument, is_argument as fits_argument, are_arguments};
ghost use Rattle.wf_types_rules.specs.Parts.{calling, placed_type, expr_parts, end_parts, links_parts, args_parts, type_parts};
ghost use Rattle.wf_types_exprs.specs.Judged.{judged, argument_parts, operand_behind as behind, operands_joined, TellsType};

use crate::found::{Conversion, Ends, WrittenType};
use crate::here::Here;
use crate::operands::{all_fit, bound, operand_behind};
use crate::parts::{
    base_value, inner_answer, judged_argument, judged_chain, judged_conversion, judged_index,
    judged_negation, judged_pair, judged_path, judged_slice, tell_calling,
};
use crate::reading::{as_path, names_others, place_of};
use crate::types::{
    tell_place, written_array, written_plain, written_refined, written_slice, written_struct,
};
use wf_ast::parsed::{Bounds, Link, Prefix};
use wf_ast::{ExprId, Op, Sequence, Ty};
use wf_named::{BaseType, NamedCall, NamedCallee, NamedCore, NamedExpr, NamedType};
use wf_text::Place;
use wf_text::faults::NoMemory;
use wf_text::found::Found;
use wf_types_meanings::arguments::wanted;
use wf_types_rules::{Bound, Meaning, Operand, PlacedMeaning, Role};

/// An expression of the package: what it means, if anything.
#[cycle(judge_exprs)]
pub(crate) fn judge_expr(
    here: &Here<'_>,
    found: &mut Found,
    e: ExprId,
) -> Result<Option<Meaning>, NoMemory>
    requires { e.0 < length here.now.nodes.now.exprs }
    ensures found { OnOk result (found.new ≡ judged here.now.around.now found.old (expr_parts (expr_at (exprs_of here.now.nodes.now) e))) }
    ensures of { IfOk result (λ m. m ≡ meaning here.now.around.now (expr_at (exprs_of here.now.nodes.now) e)) }
{
    let node = here.nodes.expr(e);
    match &node.expr {
        NamedExpr::Number(value) => Ok(Some(Meaning::Constant {
            width: None,
            value: *value,
        })),
        NamedExpr::Status(_) => Ok(Some(Meaning::Typed(Ty::Status))),
        NamedExpr::Truth(_) => Ok(Some(Meaning::Typed(Ty::Flag))),
        NamedExpr::Path(path) => Ok(judged_path(found, here.around, *path)),
        NamedExpr::Index { base, index } => {
            let array = base_value(here.around, *base);
            let v = judge_value(here, found, *index)?;
            Ok(judged_index(found, array, v))
        }
        NamedExpr::Slice { base, from, to } => {
            let whole = base_value(here.around, *base);
            let ends = judge_ends(here, found, *from, *to)?;
            Ok(judged_slice(found, whole, ends))
        }
        NamedExpr::Call(call) => {
            judge_call(here, found, call, true)?;
            Ok(inner_answer(here.around, call))
        }
        NamedExpr::Chain { op, first, links } => {
            judge_chain(here, found, *op, *first, links.as_slice(), node.at)
        }
        NamedExpr::Convert { of, to } => {
            let of = judge_conversion(here, found, *of, to)?;
            Ok(judged_conversion(found, of, node.at))
        }
        NamedExpr::Not(of) => {
            let v = judge_value(here, found, *of)?;
            Ok(judged_negation(found, v))
        }
    }
}

/// An expression: what it means, with its place.
#[cycle(judge_exprs)]
pub fn judge_value(here: &Here<'_>, found: &mut Found, e: ExprId) -> Result<PlacedMeaning, NoMemory>
    requires { e.0 < length here.now.nodes.now.exprs }
    ensures found { OnOk result (found.new ≡ judged here.now.around.now found.old (expr_parts (expr_at (exprs_of here.now.nodes.now) e))) }
    ensures value { IfOk result (λ v. v ≡ value_of here.now.around.now (expr_at (exprs_of here.now.nodes.now) e)) }
{
    let of = judge_expr(here, found, e)?;
    Ok(PlacedMeaning {
        of,
        at: place_of(here.nodes, e),
    })
}

/// An expression that may be absent, as the end of a slice and the value of a `return`.
#[cycle(judge_exprs)]
pub fn judge_end(
    here: &Here<'_>,
    found: &mut Found,
    end: Option<ExprId>,
) -> Result<Option<PlacedMeaning>, NoMemory>
    requires { IsBelow (length here.now.nodes.now.exprs) end }
    ensures found { OnOk result (found.new ≡ judged here.now.around.now found.old (end_parts (part_at (exprs_of here.now.nodes.now) end))) }
    ensures end { IfOk result (λ v. v ≡ end_value here.now.around.now (part_at (exprs_of here.now.nodes.now) end)) }
{
    match end {
        Some(e) => {
            let v = judge_value(here, found, e)?;
            Ok(Some(v))
        }
        None => Ok(None),
    }
}

// Both ends of a slice.
#[cycle(judge_exprs)]
fn judge_ends(
    here: &Here<'_>,
    found: &mut Found,
    from: Option<ExprId>,
    to: Option<ExprId>,
) -> Result<Ends, NoMemory>
    requires from { IsBelow (length here.now.nodes.now.exprs) from }
    requires to { IsBelow (length here.now.nodes.now.exprs) to }
    ensures found { OnOk result (found.new ≡ judged here.now.around.now found.old (end_parts (part_at (exprs_of here.now.nodes.now) from) ++ end_parts (part_at (exprs_of here.now.nodes.now) to))) }
    ensures from { IfOk result (λ ends. ends.from ≡ end_value here.now.around.now (part_at (exprs_of here.now.nodes.now) from)) }
    ensures to { IfOk result (λ ends. ends.to ≡ end_value here.now.around.now (part_at (exprs_of here.now.nodes.now) to)) }
{
    let from = judge_end(here, found, from)?;
    let to = judge_end(here, found, to)?;
    Ok(Ends { from, to })
}

// A chain of operands. One of two needs no list of them.
#[cycle(judge_exprs)]
fn judge_chain(
    here: &Here<'_>,
    found: &mut Found,
    op: Op,
    first: ExprId,
    links: &[Link],
    at: Place,
) -> Result<Option<Meaning>, NoMemory>
    requires first { first.0 < length here.now.nodes.now.exprs }
    requires links { LinksBelow (length here.now.nodes.now.exprs) links.now }
    ensures found { OnOk result (found.new ≡ judged here.now.around.now found.old (expr_parts (tree.chain op (expr_at (exprs_of here.now.nodes.now) first) (links_at (exprs_of here.now.nodes.now) links.now) at))) }
    ensures of { IfOk result (λ m. m ≡ meaning here.now.around.now (tree.chain op (expr_at (exprs_of here.now.nodes.now) first) (links_at (exprs_of here.now.nodes.now) links.now) at)) }
{
    match links {
        [link] => judge_pair(here, found, op, first, *link, at),
        _ => {
            let operands = judge_operands(here, found, first, links)?;
            Ok(judged_chain(found, &operands, op, at))
        }
    }
}

// A chain of two operands.
#[cycle(judge_exprs)]
fn judge_pair(
    here: &Here<'_>,
    found: &mut Found,
    op: Op,
    first: ExprId,
    link: Link,
    at: Place,
) -> Result<Option<Meaning>, NoMemory>
    requires first { first.0 < length here.now.nodes.now.exprs }
    requires link { link.operand.0 < length here.now.nodes.now.exprs }
    ensures found { OnOk result (found.new ≡ judged here.now.around.now found.old (expr_parts (tree.chain op (expr_at (exprs_of here.now.nodes.now) first) (links_at (exprs_of here.now.nodes.now) (link ∷ [])) at))) }
    ensures of { IfOk result (λ m. m ≡ meaning here.now.around.now (tree.chain op (expr_at (exprs_of here.now.nodes.now) first) (links_at (exprs_of here.now.nodes.now) (link ∷ [])) at)) }
{
    let a = judge_value(here, found, first)?;
    let b = judge_value(here, found, link.operand)?;
    Ok(judged_pair(found, op, a, b, at))
}

// An operand after others.
#[cycle(judge_exprs)]
fn judge_operand(
    here: &Here<'_>,
    found: &mut Found,
    before: Option<Sequence<Operand>>,
    e: ExprId,
) -> Result<Option<Sequence<Operand>>, NoMemory>
    requires { e.0 < length here.now.nodes.now.exprs }
    ensures found { OnOk result (found.new ≡ judged here.now.around.now found.old (expr_parts (expr_at (exprs_of here.now.nodes.now) e))) }
    ensures of { IfOk result (λ os. os ≡ behind before (value_of here.now.around.now (expr_at (exprs_of here.now.nodes.now) e))) }
{
    let next = judge_value(here, found, e)?;
    operand_behind(before, next)
}

// The operands of a chain after its first.
#[cycle(judge_exprs)]
fn judge_links(
    here: &Here<'_>,
    found: &mut Found,
    before: Option<Sequence<Operand>>,
    links: &[Link],
) -> Result<Option<Sequence<Operand>>, NoMemory>
    requires { LinksBelow (length here.now.nodes.now.exprs) links.now }
    ensures found { OnOk result (found.new ≡ judged here.now.around.now found.old (links_parts (links_at (exprs_of here.now.nodes.now) links.now))) }
    ensures of { IfOk result (λ os. os ≡ operands_joined before (operands_behind here.now.around.now (links_at (exprs_of here.now.nodes.now) links.now))) }
{
    let mut all = before;
    for link in links {
        all = judge_operand(here, found, all, link.operand)?;
    }
    Ok(all)
}

/// The operands of a chain in order, where each means something.
#[cycle(judge_exprs)]
pub(crate) fn judge_operands(
    here: &Here<'_>,
    found: &mut Found,
    first: ExprId,
    links: &[Link],
) -> Result<Option<Sequence<Operand>>, NoMemory>
    requires first { first.0 < length here.now.nodes.now.exprs }
    requires links { LinksBelow (length here.now.nodes.now.exprs) links.now }
    ensures found { OnOk result (found.new ≡ judged here.now.around.now found.old (expr_parts (expr_at (exprs_of here.now.nodes.now) first) ++ links_parts (links_at (exprs_of here.now.nodes.now) links.now))) }
    ensures of { IfOk result (λ os. os ≡ operands here.now.around.now (expr_at (exprs_of here.now.nodes.now) first) (links_at (exprs_of here.now.nodes.now) links.now)) }
{
    let none = Some(Sequence::new(here.alloc));
    let begun = judge_operand(here, found, none, first)?;
    let all = judge_links(here, found, begun, links)?;
    Ok(all)
}

// Whether the argument with the number `n` fits.
#[cycle(judge_exprs)]
fn judge_argument(
    here: &Here<'_>,
    found: &mut Found,
    callee: NamedCallee,
    n: usize,
    e: ExprId,
) -> Result<bool, NoMemory>
    requires { e.0 < length here.now.nodes.now.exprs }
    ensures found { OnOk result (found.new ≡ judged here.now.around.now found.old (argument_parts callee n (expr_at (exprs_of here.now.nodes.now) e))) }
    ensures fit { IfOk result (λ fit. fit ≡ fits_argument (type_wanted here.now.around.now callee n) (meaning_of_argument here.now.around.now (expr_at (exprs_of here.now.nodes.now) e))) }
{
    let ty = wanted(here.around, callee, n);
    match as_path(here.nodes, e) {
        Some(path) => Ok(judged_argument(found, ty, base_value(here.around, path))),
        None => {
            let v = judge_value(here, found, e)?;
            Ok(judged_argument(found, ty, v))
        }
    }
}

/// Whether the arguments of a call fit, in order.
#[cycle(judge_exprs)]
pub(crate) fn judge_args(
    here: &Here<'_>,
    found: &mut Found,
    callee: NamedCallee,
    args: &[ExprId],
) -> Result<bool, NoMemory>
    requires { ArgsBelow (length here.now.nodes.now.exprs) args.now }
    ensures found { OnOk result (found.new ≡ judged here.now.around.now found.old (args_parts callee 0 (args_at (exprs_of here.now.nodes.now) args.now))) }
    ensures fit { IfOk result (λ fit. fit ≡ are_arguments here.now.around.now callee 0 (args_at (exprs_of here.now.nodes.now) args.now)) }
{
    let mut all = true;
    let mut n = 0;
    while n < args.len() {
        let next = judge_argument(here, found, callee, n, args[n])?;
        all = all_fit(all, next);
        n += 1;
    }
    Ok(all)
}

/// A call: whether its arguments fit. `inside` tells whether it stands inside an expression.
#[cycle(judge_exprs)]
pub(crate) fn judge_call(
    here: &Here<'_>,
    found: &mut Found,
    call: &NamedCall,
    inside: bool,
) -> Result<bool, NoMemory>
    requires { ArgsBelow (length here.now.nodes.now.exprs) call.now.args }
    ensures found { OnOk result (found.new ≡ judged here.now.around.now found.old (calling inside (call_at (exprs_of here.now.nodes.now) call.now) ∷ args_parts call.now.callee 0 (args_at (exprs_of here.now.nodes.now) call.now.args))) }
    ensures fit { IfOk result (λ fit. fit ≡ are_arguments here.now.around.now call.now.callee 0 (args_at (exprs_of here.now.nodes.now) call.now.args)) }
{
    tell_calling(found, here.around, call, inside);
    let all = judge_args(here, found, call.callee, call.args.as_slice())?;
    Ok(all)
}

// The operand and the type of an `as`.
#[cycle(judge_exprs)]
fn judge_conversion(
    here: &Here<'_>,
    found: &mut Found,
    of: ExprId,
    to: &NamedType,
) -> Result<Conversion, NoMemory>
    requires of { of.0 < length here.now.nodes.now.exprs }
    requires to { NamedTypeBelow (length here.now.nodes.now.exprs) to.now }
    ensures found { OnOk result (found.new ≡ judged here.now.around.now found.old (placed_type roles.Conversion (type_at (exprs_of here.now.nodes.now) to.now) ∷ (expr_parts (expr_at (exprs_of here.now.nodes.now) of) ++ type_parts (type_at (exprs_of here.now.nodes.now) to.now)))) }
    ensures value { IfOk result (λ j. j.value ≡ value_of here.now.around.now (expr_at (exprs_of here.now.nodes.now) of)) }
    ensures plain { IfOk result (λ j. j.plain ≡ plain_width (type_at (exprs_of here.now.nodes.now) to.now)) }
{
    let value = judge_value(here, found, of)?;
    let written = judge_written(here, found, to)?;
    tell_place(found, Role::Conversion, written);
    Ok(Conversion {
        value,
        plain: written.plain,
    })
}

// What has to be a constant number.
#[cycle(judge_exprs)]
fn judge_bound(here: &Here<'_>, found: &mut Found, e: ExprId) -> Result<Bound, NoMemory>
    requires { e.0 < length here.now.nodes.now.exprs }
    ensures found { OnOk result (found.new ≡ judged here.now.around.now found.old (expr_parts (expr_at (exprs_of here.now.nodes.now) e))) }
    ensures bound { IfOk result (λ b. b ≡ bound_of here.now.around.now (expr_at (exprs_of here.now.nodes.now) e)) }
{
    let v = judge_value(here, found, e)?;
    Ok(bound(names_others(here.nodes, e), v))
}

// A bound below that may be absent.
#[cycle(judge_exprs)]
fn judge_low(
    here: &Here<'_>,
    found: &mut Found,
    low: Option<ExprId>,
) -> Result<Option<Bound>, NoMemory>
    requires { IsBelow (length here.now.nodes.now.exprs) low }
    ensures found { OnOk result (found.new ≡ judged here.now.around.now found.old (end_parts (part_at (exprs_of here.now.nodes.now) low))) }
    ensures low { IfOk result (λ b. b ≡ low_bound here.now.around.now (part_at (exprs_of here.now.nodes.now) low)) }
{
    match low {
        Some(e) => {
            let b = judge_bound(here, found, e)?;
            Ok(Some(b))
        }
        None => Ok(None),
    }
}

// A type that begins with `base`, with its bounds.
#[cycle(judge_exprs)]
fn judge_refined(
    here: &Here<'_>,
    found: &mut Found,
    of: Option<BaseType>,
    at: Place,
    bounds: Bounds,
) -> Result<WrittenType, NoMemory>
    requires { BoundsBelow (length here.now.nodes.now.exprs) (Some bounds) }
    ensures { IfOk result (λ w. TellsType here.now.around.now found.old found.new (tree.base_type of at (bounds_at (exprs_of here.now.nodes.now) (Some bounds))) w) }
{
    let low = judge_low(here, found, bounds.low)?;
    let high = judge_bound(here, found, bounds.high)?;
    Ok(written_refined(found, of, low, high, at))
}

// A type without prefixes.
#[cycle(judge_exprs)]
fn judge_core(
    here: &Here<'_>,
    found: &mut Found,
    core: NamedCore,
    bounds: Option<Bounds>,
) -> Result<WrittenType, NoMemory>
    requires { BoundsBelow (length here.now.nodes.now.exprs) bounds }
    ensures { IfOk result (λ w. TellsType here.now.around.now found.old found.new (core_at (exprs_of here.now.nodes.now) core bounds) w) }
{
    match core {
        NamedCore::Base { of, at } => match bounds {
            Some(bounds) => judge_refined(here, found, of, at, bounds),
            None => Ok(written_plain(found, of, at)),
        },
        NamedCore::Struct { of, at } => Ok(written_struct(of, at)),
    }
}

// A prefix before a type.
#[cycle(judge_exprs)]
fn judge_prefix(
    here: &Here<'_>,
    found: &mut Found,
    element: WrittenType,
    prefix: Prefix,
) -> Result<WrittenType, NoMemory>
    requires { PrefixBelow (length here.now.nodes.now.exprs) prefix }
    ensures { IfOk result (λ w. (before : _) (t : _) → TellsType here.now.around.now before found.old t element → TellsType here.now.around.now before found.new (prefixed (exprs_of here.now.nodes.now) prefix t) w) }
{
    match prefix {
        Prefix::Slice(at) => Ok(written_slice(found, element, at)),
        Prefix::Array { length, at } => {
            let count = judge_bound(here, found, length)?;
            Ok(written_array(found, count, element, at))
        }
    }
}

// Prefixes before a type, from the last to the first.
#[cycle(judge_exprs)]
fn judge_prefixes(
    here: &Here<'_>,
    found: &mut Found,
    core: WrittenType,
    prefixes: &[Prefix],
) -> Result<WrittenType, NoMemory>
    requires { AllByRecursion (PrefixBelow (length here.now.nodes.now.exprs)) prefixes.now }
    ensures { IfOk result (λ w. (before : _) (t : _) → TellsType here.now.around.now before found.old t core → TellsType here.now.around.now before found.new (all_prefixed (exprs_of here.now.nodes.now) prefixes.now t) w) }
{
    let mut written = core;
    let mut left = prefixes.len();
    while left > 0 {
        left -= 1;
        written = judge_prefix(here, found, written, prefixes[left])?;
    }
    Ok(written)
}

/// A type that is written anywhere, with all types that stand in it.
#[cycle(judge_exprs)]
pub(crate) fn judge_written(
    here: &Here<'_>,
    found: &mut Found,
    of: &NamedType,
) -> Result<WrittenType, NoMemory>
    requires { NamedTypeBelow (length here.now.nodes.now.exprs) of.now }
    ensures { IfOk result (λ w. TellsType here.now.around.now found.old found.new (type_at (exprs_of here.now.nodes.now) of.now) w) }
{
    let core = judge_core(here, found, of.core, of.bounds)?;
    judge_prefixes(here, found, core, of.prefixes.as_slice())
}
