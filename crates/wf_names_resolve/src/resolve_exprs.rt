// The walk over expressions, types and calls: it makes the resolved nodes of each, parts before their whole.

ghost use Rattle.std.specs.Prelude.{◌≡◌, ◌<◌, length, IfOk, OnOk};
ghost use Rattle.std.specs.List.{AllByRecursion};
ghost use Rattle.wf_ast.specs.ParsedTrees.{expr_trees, expr_at as parsed_expr_at, part_at as parsed_part_at, links_at as parsed_links_at, given_at as parsed_given_at, call_at as parsed_call_at, type_at as parsed_type_at, bounds_at as parsed_bounds_at};
ghost use Rattle.wf_ast.specs.ParsedParts.{GivenBelow, LinksBelow, IsBelow, TypeBelow, BoundsBelow, PrefixBelow};
ghost use Rattle.wf_named.specs.NamedParts.{exprs_of, ArgsBelow, NamedTypeBelow, NamedExprParts};
ghost use Rattle.wf_named.specs.NamedTrees.{expr_at, part_at, links_at, call_at, bounds_at, type_at, expr_made};
ghost use Rattle.wf_names_resolve.specs.Standing.{standing_here};
ghost use Rattle.wf_names_resolve.specs.Resolved.{resolved_expr, resolved_part, resolved_links, resolved_given, resolved_call, resolved_type, resolved_bounds};
ghost use Rattle.wf_names_resolve.specs.Ordered.{given_trees};
ghost use Rattle.wf_names_resolve.specs.Growth.{Grows};
ghost use Rattle.wf_names_resolve.specs.Prefixes.{ResolvesPrefix, ResolvesPrefixes};

use crate::arguments::values;
use crate::parts::{base_status, callee, core, mark, named_callee, own_status, path};
use std::alloc::Global;
use wf_ast::parsed::{Bounds, Call, Expr, Given, Link, Prefix, TypeExpr};
use wf_ast::{ExprId, Sequence, StatusId};
use wf_named::{NamedCall, NamedExpr, NamedExprNode, NamedNodes, NamedType};
use wf_names_rules::here::Here;
use wf_names_rules::tables::text_bytes;
use wf_text::faults::NoMemory;

// Adds an expression whose parts are there.
fn put(nodes: &mut NamedNodes, node: NamedExprNode) -> Result<ExprId, NoMemory>
    requires { NamedExprParts (length nodes.old.exprs) node.expr }
    ensures grows { OnOk result (Grows nodes.old nodes.new) }
    ensures below { IfOk result (λ e. e.0 < length nodes.new.exprs) }
    ensures made { IfOk result (λ e. expr_at (exprs_of nodes.new) e ≡ expr_made (exprs_of nodes.old) node.expr node.at) }
{
    let e = nodes.push_expr(node)?;
    Ok(e)
}

/// Adds the nodes of an expression of the parsed package; what was there keeps its numbers and its trees. `Err` also comes
/// where no number is left.
#[cycle(resolve_exprs)]
pub fn resolve_expr(
    alloc: Global,
    nodes: &mut NamedNodes,
    here: &Here<'_>,
    e: ExprId,
) -> Result<ExprId, NoMemory>
    requires { e.0 < length here.now.parsed.now.exprs }
    ensures grows { OnOk result (Grows nodes.old nodes.new) }
    ensures below { IfOk result (λ r. r.0 < length nodes.new.exprs) }
    ensures made { IfOk result (λ r. expr_at (exprs_of nodes.new) r ≡ resolved_expr (standing_here here.now) (parsed_expr_at (expr_trees here.now.parsed.now.exprs) e)) }
{
    let node = resolve_node(alloc, nodes, here, e)?;
    put(nodes, node)
}

// The node of an expression, whose parts are added.
#[cycle(resolve_exprs)]
fn resolve_node(
    alloc: Global,
    nodes: &mut NamedNodes,
    here: &Here<'_>,
    e: ExprId,
) -> Result<NamedExprNode, NoMemory>
    requires { e.0 < length here.now.parsed.now.exprs }
    ensures grows { OnOk result (Grows nodes.old nodes.new) }
    ensures below { IfOk result (λ n. NamedExprParts (length nodes.new.exprs) n.expr) }
    ensures made { IfOk result (λ n. expr_made (exprs_of nodes.new) n.expr n.at ≡ resolved_expr (standing_here here.now) (parsed_expr_at (expr_trees here.now.parsed.now.exprs) e)) }
{
    let node = here.parsed.expr(e);
    match &node.expr {
        Expr::Number(value) => Ok(NamedExprNode {
            expr: NamedExpr::Number(*value),
            at: node.at,
        }),
        Expr::OwnStatus(text) => Ok(NamedExprNode {
            expr: NamedExpr::Status(own_status(here.tables, text.text)),
            at: text.at,
        }),
        Expr::BaseStatus(text) => Ok(NamedExprNode {
            expr: NamedExpr::Status(base_status(text_bytes(here.parsed, text.text))),
            at: node.at,
        }),
        Expr::Fine => Ok(NamedExprNode {
            expr: NamedExpr::Status(StatusId(0)),
            at: node.at,
        }),
        Expr::Truth(value) => Ok(NamedExprNode {
            expr: NamedExpr::Truth(*value),
            at: node.at,
        }),
        Expr::Path(of) => Ok(NamedExprNode {
            expr: NamedExpr::Path(path(here.tables, here.scope, *of)),
            at: node.at,
        }),
        Expr::Index { base, index } => {
            let array = path(here.tables, here.scope, *base);
            let index = resolve_expr(alloc, nodes, here, *index)?;
            Ok(NamedExprNode {
                expr: NamedExpr::Index { base: array, index },
                at: node.at,
            })
        }
        Expr::Slice { base, from, to } => {
            let whole = path(here.tables, here.scope, *base);
            let (from, to) = resolve_parts(alloc, nodes, here, *from, *to)?;
            Ok(NamedExprNode {
                expr: NamedExpr::Slice {
                    base: whole,
                    from,
                    to,
                },
                at: node.at,
            })
        }
        Expr::Call(call) => {
            let call = resolve_call(alloc, nodes, here, call)?;
            Ok(NamedExprNode {
                expr: NamedExpr::Call(call),
                at: node.at,
            })
        }
        Expr::Chain { op, first, links } => {
            let (first, links) = resolve_chain(alloc, nodes, here, *first, links.as_slice())?;
            Ok(NamedExprNode {
                expr: NamedExpr::Chain {
                    op: *op,
                    first,
                    links,
                },
                at: node.at,
            })
        }
        Expr::Convert { of, to } => {
            let (of, to) = resolve_convert(alloc, nodes, here, *of, to)?;
            Ok(NamedExprNode {
                expr: NamedExpr::Convert { of, to },
                at: node.at,
            })
        }
        Expr::Not(of) => {
            let of = resolve_expr(alloc, nodes, here, *of)?;
            Ok(NamedExprNode {
                expr: NamedExpr::Not(of),
                at: node.at,
            })
        }
    }
}

/// Adds the nodes of an expression that may be absent.
#[cycle(resolve_exprs)]
pub(crate) fn resolve_part(
    alloc: Global,
    nodes: &mut NamedNodes,
    here: &Here<'_>,
    part: Option<ExprId>,
) -> Result<Option<ExprId>, NoMemory>
    requires { IsBelow (length here.now.parsed.now.exprs) part }
    ensures grows { OnOk result (Grows nodes.old nodes.new) }
    ensures below { IfOk result (λ r. IsBelow (length nodes.new.exprs) r) }
    ensures made { IfOk result (λ r. part_at (exprs_of nodes.new) r ≡ resolved_part (standing_here here.now) (parsed_part_at (expr_trees here.now.parsed.now.exprs) part)) }
{
    match part {
        Some(e) => {
            let e = resolve_expr(alloc, nodes, here, e)?;
            Ok(Some(e))
        }
        None => Ok(None),
    }
}

#[cycle(resolve_exprs)]
fn resolve_parts(
    alloc: Global,
    nodes: &mut NamedNodes,
    here: &Here<'_>,
    from: Option<ExprId>,
    to: Option<ExprId>,
) -> Result<(Option<ExprId>, Option<ExprId>), NoMemory>
    requires from { IsBelow (length here.now.parsed.now.exprs) from }
    requires to { IsBelow (length here.now.parsed.now.exprs) to }
    ensures grows { OnOk result (Grows nodes.old nodes.new) }
    ensures below { IfOk result (λ r. IsBelow (length nodes.new.exprs) r.0 × IsBelow (length nodes.new.exprs) r.1) }
    ensures from { IfOk result (λ r. part_at (exprs_of nodes.new) r.0 ≡ resolved_part (standing_here here.now) (parsed_part_at (expr_trees here.now.parsed.now.exprs) from)) }
    ensures to { IfOk result (λ r. part_at (exprs_of nodes.new) r.1 ≡ resolved_part (standing_here here.now) (parsed_part_at (expr_trees here.now.parsed.now.exprs) to)) }
{
    let from = resolve_part(alloc, nodes, here, from)?;
    let to = resolve_part(alloc, nodes, here, to)?;
    Ok((from, to))
}

#[cycle(resolve_exprs)]
fn resolve_chain(
    alloc: Global,
    nodes: &mut NamedNodes,
    here: &Here<'_>,
    first: ExprId,
    links: &[Link],
) -> Result<(ExprId, Sequence<Link>), NoMemory>
    requires first { first.0 < length here.now.parsed.now.exprs }
    requires links { LinksBelow (length here.now.parsed.now.exprs) links.now }
    ensures grows { OnOk result (Grows nodes.old nodes.new) }
    ensures below { IfOk result (λ r. (r.0.0 < length nodes.new.exprs) × LinksBelow (length nodes.new.exprs) r.1) }
    ensures first { IfOk result (λ r. expr_at (exprs_of nodes.new) r.0 ≡ resolved_expr (standing_here here.now) (parsed_expr_at (expr_trees here.now.parsed.now.exprs) first)) }
    ensures links { IfOk result (λ r. links_at (exprs_of nodes.new) r.1 ≡ resolved_links (standing_here here.now) (parsed_links_at (expr_trees here.now.parsed.now.exprs) links.now)) }
{
    let first = resolve_expr(alloc, nodes, here, first)?;
    let links = resolve_links(alloc, nodes, here, links)?;
    Ok((first, links))
}

#[cycle(resolve_exprs)]
fn resolve_convert(
    alloc: Global,
    nodes: &mut NamedNodes,
    here: &Here<'_>,
    of: ExprId,
    to: &TypeExpr,
) -> Result<(ExprId, NamedType), NoMemory>
    requires of { of.0 < length here.now.parsed.now.exprs }
    requires to { TypeBelow (length here.now.parsed.now.exprs) to.now }
    ensures grows { OnOk result (Grows nodes.old nodes.new) }
    ensures below { IfOk result (λ r. (r.0.0 < length nodes.new.exprs) × NamedTypeBelow (length nodes.new.exprs) r.1) }
    ensures of { IfOk result (λ r. expr_at (exprs_of nodes.new) r.0 ≡ resolved_expr (standing_here here.now) (parsed_expr_at (expr_trees here.now.parsed.now.exprs) of)) }
    ensures to { IfOk result (λ r. type_at (exprs_of nodes.new) r.1 ≡ resolved_type (standing_here here.now) (parsed_type_at (expr_trees here.now.parsed.now.exprs) to.now)) }
{
    let of = resolve_expr(alloc, nodes, here, of)?;
    let to = resolve_type(alloc, nodes, here, to)?;
    Ok((of, to))
}

#[cycle(resolve_exprs)]
fn resolve_links(
    alloc: Global,
    nodes: &mut NamedNodes,
    here: &Here<'_>,
    links: &[Link],
) -> Result<Sequence<Link>, NoMemory>
    requires { LinksBelow (length here.now.parsed.now.exprs) links.now }
    ensures grows { OnOk result (Grows nodes.old nodes.new) }
    ensures below { IfOk result (λ r. LinksBelow (length nodes.new.exprs) r) }
    ensures made { IfOk result (λ r. links_at (exprs_of nodes.new) r ≡ resolved_links (standing_here here.now) (parsed_links_at (expr_trees here.now.parsed.now.exprs) links.now)) }
{
    let mut made = Sequence::new(alloc);
    for link in links {
        let operand = resolve_expr(alloc, nodes, here, link.operand)?;
        made.push(Link {
            sign: link.sign,
            operand,
        })?;
    }
    Ok(made)
}

/// Adds the nodes of what is given to a call or to an axiom, and answers it in its order.
#[cycle(resolve_exprs)]
pub(crate) fn resolve_given(
    alloc: Global,
    nodes: &mut NamedNodes,
    here: &Here<'_>,
    given: &[Given],
) -> Result<Sequence<Given>, NoMemory>
    requires { GivenBelow (length here.now.parsed.now.exprs) given.now }
    ensures grows { OnOk result (Grows nodes.old nodes.new) }
    ensures below { IfOk result (λ r. GivenBelow (length nodes.new.exprs) r) }
    ensures made { IfOk result (λ r. given_trees (exprs_of nodes.new) r ≡ resolved_given (standing_here here.now) (parsed_given_at (expr_trees here.now.parsed.now.exprs) given.now)) }
{
    let mut made = Sequence::new(alloc);
    for one in given {
        let value = resolve_expr(alloc, nodes, here, one.value)?;
        made.push(Given {
            name: one.name,
            value,
        })?;
    }
    Ok(made)
}

// A call, by what is given to it.
fn finish_call(
    alloc: Global,
    here: &Here<'_>,
    call: &Call,
    given: &Sequence<Given>,
) -> Result<NamedCall, NoMemory>
    ensures below { (n : _) → GivenBelow n given.now → IfOk result (λ r. ArgsBelow n r.args) }
    ensures made { (ts : _) (es : _) → given_trees ts given.now ≡ resolved_given (standing_here here.now) (parsed_given_at es call.now.args) → IfOk result (λ r. call_at ts r ≡ resolved_call (standing_here here.now) (parsed_call_at es call.now)) }
{
    let on = callee(here, call.on, call.method.text);
    let args = values(alloc, here.parsed, here.tables, on, given.as_slice())?;
    let callee = named_callee(here.tables, here.scope, call.on, on)?;
    Ok(NamedCall {
        callee,
        at: call.method.at,
        mark: mark(call.mark),
        args,
    })
}

/// Adds the nodes of a call's arguments, and answers the call.
#[cycle(resolve_exprs)]
pub(crate) fn resolve_call(
    alloc: Global,
    nodes: &mut NamedNodes,
    here: &Here<'_>,
    call: &Call,
) -> Result<NamedCall, NoMemory>
    requires { GivenBelow (length here.now.parsed.now.exprs) call.now.args }
    ensures grows { OnOk result (Grows nodes.old nodes.new) }
    ensures below { IfOk result (λ r. ArgsBelow (length nodes.new.exprs) r.args) }
    ensures made { IfOk result (λ r. call_at (exprs_of nodes.new) r ≡ resolved_call (standing_here here.now) (parsed_call_at (expr_trees here.now.parsed.now.exprs) call.now)) }
{
    let given = resolve_given(alloc, nodes, here, call.args.as_slice())?;
    finish_call(alloc, here, call, &given)
}

#[cycle(resolve_exprs)]
fn resolve_prefix(
    alloc: Global,
    nodes: &mut NamedNodes,
    here: &Here<'_>,
    prefix: Prefix,
) -> Result<Prefix, NoMemory>
    requires { PrefixBelow (length here.now.parsed.now.exprs) prefix }
    ensures grows { OnOk result (Grows nodes.old nodes.new) }
    ensures below { IfOk result (λ r. PrefixBelow (length nodes.new.exprs) r) }
    ensures made { IfOk result (λ r. ResolvesPrefix (standing_here here.now) (expr_trees here.now.parsed.now.exprs) prefix (exprs_of nodes.new) r) }
{
    match prefix {
        Prefix::Slice(at) => Ok(Prefix::Slice(at)),
        Prefix::Array { length, at } => {
            let length = resolve_expr(alloc, nodes, here, length)?;
            Ok(Prefix::Array { length, at })
        }
    }
}

#[cycle(resolve_exprs)]
fn resolve_prefixes(
    alloc: Global,
    nodes: &mut NamedNodes,
    here: &Here<'_>,
    prefixes: &[Prefix],
) -> Result<Sequence<Prefix>, NoMemory>
    requires { AllByRecursion (PrefixBelow (length here.now.parsed.now.exprs)) prefixes.now }
    ensures grows { OnOk result (Grows nodes.old nodes.new) }
    ensures below { IfOk result (λ r. AllByRecursion (PrefixBelow (length nodes.new.exprs)) r) }
    ensures made { IfOk result (λ r. ResolvesPrefixes (standing_here here.now) (expr_trees here.now.parsed.now.exprs) prefixes.now (exprs_of nodes.new) r) }
{
    let mut made = Sequence::new(alloc);
    for prefix in prefixes {
        let next = resolve_prefix(alloc, nodes, here, *prefix)?;
        made.push(next)?;
    }
    Ok(made)
}

#[cycle(resolve_exprs)]
fn resolve_bounds(
    alloc: Global,
    nodes: &mut NamedNodes,
    here: &Here<'_>,
    bounds: Option<Bounds>,
) -> Result<Option<Bounds>, NoMemory>
    requires { BoundsBelow (length here.now.parsed.now.exprs) bounds }
    ensures grows { OnOk result (Grows nodes.old nodes.new) }
    ensures below { IfOk result (λ r. BoundsBelow (length nodes.new.exprs) r) }
    ensures made { IfOk result (λ r. bounds_at (exprs_of nodes.new) r ≡ resolved_bounds (standing_here here.now) (parsed_bounds_at (expr_trees here.now.parsed.now.exprs) bounds)) }
{
    match bounds {
        Some(bounds) => {
            let low = resolve_part(alloc, nodes, here, bounds.low)?;
            let high = resolve_expr(alloc, nodes, here, bounds.high)?;
            Ok(Some(Bounds { low, high }))
        }
        None => Ok(None),
    }
}

/// Adds the nodes of a type's parts, and answers the type.
#[cycle(resolve_exprs)]
pub fn resolve_type(
    alloc: Global,
    nodes: &mut NamedNodes,
    here: &Here<'_>,
    of: &TypeExpr,
) -> Result<NamedType, NoMemory>
    requires { TypeBelow (length here.now.parsed.now.exprs) of.now }
    ensures grows { OnOk result (Grows nodes.old nodes.new) }
    ensures below { IfOk result (λ r. NamedTypeBelow (length nodes.new.exprs) r) }
    ensures made { IfOk result (λ r. type_at (exprs_of nodes.new) r ≡ resolved_type (standing_here here.now) (parsed_type_at (expr_trees here.now.parsed.now.exprs) of.now)) }
{
    let prefixes = resolve_prefixes(alloc, nodes, here, of.prefixes.as_slice())?;
    let bounds = resolve_bounds(alloc, nodes, here, of.bounds)?;
    Ok(NamedType {
        prefixes,
        core: core(here.parsed, here.tables, of.core),
        bounds,
    })
}
