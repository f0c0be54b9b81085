// The walk over expressions: it makes the nodes of each, parts before their whole, and tells what it means.

ghost use Rattle.std.specs.Prelude.{◌≡◌, ◌<◌, ◌+◌, ◌++◌, ◌∷◌, [], true, length, IfOk, IfSome, OnOk};
ghost use Rattle.wf_ast.specs.ParsedParts.{IsBelow, LinksBelow};
ghost use Rattle.wf_ast.specs.TypedTrees.{tree_of, made_or_number};
ghost use Rattle.wf_ast.specs.TypedInvariant.{parts_below, node_fits};
ghost use Rattle.wf_named.specs.NamedParts.{exprs_of};
ghost use Rattle.wf_named.specs.NamedTrees.{expr_at, part_at, links_at, type_at};
ghost use Rattle.wf_named.specs.NamedTree as tree;
ghost use Rattle.wf_types_rules.specs.Meanings.{variable as variable_in};
ghost use Rattle.wf_types_rules.specs.Judgements.{value_of as value_meant};
ghost use Rattle.wf_typed_tree.specs.ElaboratedExprs.{type_meant as type_of_meaning};
ghost use Rattle.wf_typed_tree.specs.Entries.{path_entry, expr_entries, part_entries, end_entries, link_entries, callee_entries};
ghost use Rattle.wf_typed_exprs.specs.Growth.{Grows, AddsEntries};
ghost use Rattle.wf_typed_exprs.specs.Nodes.{number_meant, Stands, StandsForExpr, StandsForPath, StandsForEnd, MakesExpr};
ghost use Rattle.wf_typed_exprs.specs.Chains.{AddsOperand, AddsLinks, AreOperands};
ghost use Rattle.wf_typed_exprs.specs.Right.{IsRight, IsRightPath, IsRightAnswer, IsRightEnd, AreRight};

use crate::building::Building;
use crate::elaborated::{Elaborated, MadeNode};
use crate::forms::{node_of, path_node, plain_width, type_meant, unsigned, value_of};
use crate::operands::{MadeOperands, pair_node};
use crate::typed_exprs::TypedExpr;
use wf_ast::parsed::Link;
use wf_ast::{Expr, ExprId, Op, Ty};
use wf_named::{NamedCall, NamedCallee, NamedExpr, NamedPath, NamedType};
use wf_text::Place;
use wf_text::faults::NoMemory;
use wf_types_exprs::Here;
use wf_types_exprs::parts::{index_meaning, inner_answer, slice_meaning};
use wf_types_exprs::reading::place_of;
use wf_types_meanings::values::{as_flag, as_value, conversion, number_in};
use wf_types_rules::{Meaning, PlacedMeaning};

// Adds a node whose parts are there.
fn put(nodes: &mut Building, made: MadeNode, at: Place) -> Result<Elaborated, NoMemory>
    requires below { parts_below (length nodes.old.exprs) made.node.expr ≡ true }
    requires fits { node_fits nodes.old (type_of_meaning made.of) (number_meant made.of) made.node.expr ≡ true }
    ensures grows { OnOk result (Grows nodes.old nodes.new) }
    ensures entries { OnOk result (AddsEntries nodes.old nodes.new (record { at = made.node.at; ty = type_of_meaning made.of; constant = number_meant made.of } ∷ [])) }
    ensures stands { IfOk result (λ r. Stands (made_or_number (tree_of nodes.old) made.node.at made.node.signs (type_of_meaning made.of) (number_meant made.of) made.node.expr) made.of nodes.new r.node) }
    ensures value { IfOk result (λ r. r.value ≡ record { of = made.of; at = at }) }
    ensures number { IfOk result (λ r. r.node.0 ≡ length nodes.old.exprs) }
    ensures count { OnOk result (length nodes.new.exprs ≡ length nodes.old.exprs + 1) }
{
    let of = made.of;
    let one = TypedExpr {
        node: made.node,
        ty: type_meant(of),
        constant: number_in(of),
    };
    let node = nodes.push_expr(one)?;
    Ok(Elaborated {
        node,
        value: PlacedMeaning { of, at },
    })
}

/// Adds the node of a path. `Err` also comes where no number is left.
pub fn elaborate_path(
    here: &Here<'_>,
    nodes: &mut Building,
    path: NamedPath,
) -> Result<Elaborated, NoMemory>
    requires { IsRightPath here.now.around.now (length nodes.old.statuses) path }
    ensures grows { OnOk result (Grows nodes.old nodes.new) }
    ensures entries { OnOk result (AddsEntries nodes.old nodes.new (path_entry here.now.around.now path ∷ [])) }
    ensures stands { IfOk result (λ r. StandsForPath here.now.around.now path nodes.new r.node) }
    ensures value { IfOk result (λ r. r.value ≡ record { of = variable_in here.now.around.now path.of; at = path.at }) }
    ensures number { IfOk result (λ r. r.node.0 ≡ length nodes.old.exprs) }
    ensures count { OnOk result (length nodes.new.exprs ≡ length nodes.old.exprs + 1) }
{
    let made = put(nodes, path_node(here.alloc, here.around, path), path.at)?;
    Ok(made)
}

/// Adds the nodes of an expression that breaks no rule, and tells what it means; what was there keeps its numbers, its
/// trees and its types. `Err` also comes where no number is left.
#[cycle(elaborate_exprs)]
pub fn elaborate_expr(
    here: &Here<'_>,
    nodes: &mut Building,
    e: ExprId,
) -> Result<Elaborated, NoMemory>
    requires there { e.0 < length here.now.nodes.now.exprs }
    requires right { IsRight here.now.around.now (length nodes.old.statuses) (expr_at (exprs_of here.now.nodes.now) e) }
    ensures grows { OnOk result (Grows nodes.old nodes.new) }
    ensures entries { OnOk result (AddsEntries nodes.old nodes.new (expr_entries here.now.around.now (expr_at (exprs_of here.now.nodes.now) e))) }
    ensures stands { IfOk result (λ r. StandsForExpr here.now.around.now (expr_at (exprs_of here.now.nodes.now) e) nodes.new r.node) }
    ensures value { IfOk result (λ r. r.value ≡ value_meant here.now.around.now (expr_at (exprs_of here.now.nodes.now) e)) }
{
    let made = elaborate_node(here, nodes, e)?;
    put(nodes, made, place_of(here.nodes, e))
}

/// Adds the nodes of an element that is written to, as those of the expression that it would be. `Err` also comes where no
/// number is left.
pub fn elaborate_element(
    here: &Here<'_>,
    nodes: &mut Building,
    base: NamedPath,
    index: ExprId,
    at: Place,
) -> Result<Elaborated, NoMemory>
    requires there { index.0 < length here.now.nodes.now.exprs }
    requires right { IsRight here.now.around.now (length nodes.old.statuses) (tree.index base (expr_at (exprs_of here.now.nodes.now) index) at) }
    ensures grows { OnOk result (Grows nodes.old nodes.new) }
    ensures entries { OnOk result (AddsEntries nodes.old nodes.new (expr_entries here.now.around.now (tree.index base (expr_at (exprs_of here.now.nodes.now) index) at))) }
    ensures stands { IfOk result (λ r. StandsForExpr here.now.around.now (tree.index base (expr_at (exprs_of here.now.nodes.now) index) at) nodes.new r.node) }
    ensures value { IfOk result (λ r. r.value ≡ value_meant here.now.around.now (tree.index base (expr_at (exprs_of here.now.nodes.now) index) at)) }
{
    let made = elaborate_index(here, nodes, base, index, at)?;
    put(nodes, made, at)
}

// The node of an expression, whose parts are added.
#[cycle(elaborate_exprs)]
fn elaborate_node(here: &Here<'_>, nodes: &mut Building, e: ExprId) -> Result<MadeNode, NoMemory>
    requires there { e.0 < length here.now.nodes.now.exprs }
    requires right { IsRight here.now.around.now (length nodes.old.statuses) (expr_at (exprs_of here.now.nodes.now) e) }
    ensures grows { OnOk result (Grows nodes.old nodes.new) }
    ensures entries { OnOk result (AddsEntries nodes.old nodes.new (part_entries here.now.around.now (expr_at (exprs_of here.now.nodes.now) e))) }
    ensures made { IfOk result (λ n. MakesExpr here.now.around.now (expr_at (exprs_of here.now.nodes.now) e) nodes.new n) }
{
    let node = here.nodes.expr(e);
    match &node.expr {
        NamedExpr::Number(value) => Ok(MadeNode {
            node: unsigned(here.alloc, Expr::Number(*value), node.at),
            of: Some(Meaning::Constant {
                width: None,
                value: *value,
            }),
        }),
        NamedExpr::Status(number) => Ok(MadeNode {
            node: unsigned(here.alloc, Expr::Status(*number), node.at),
            of: Some(Meaning::Typed(Ty::Status)),
        }),
        NamedExpr::Truth(value) => Ok(MadeNode {
            node: unsigned(here.alloc, Expr::Truth(*value), node.at),
            of: Some(Meaning::Typed(Ty::Flag)),
        }),
        NamedExpr::Path(path) => {
            let made = path_node(here.alloc, here.around, *path);
            Ok(MadeNode {
                node: made.node,
                of: as_value(made.of),
            })
        }
        NamedExpr::Index { base, index } => { elaborate_index(here, nodes, *base, *index, node.at) }
        NamedExpr::Slice { base, from, to } => {
            elaborate_slice(here, nodes, *base, *from, *to, node.at)
        }
        NamedExpr::Call(call) => elaborate_answer(here, nodes, call),
        NamedExpr::Chain { op, first, links } => {
            elaborate_chain(here, nodes, *op, *first, links.as_slice(), node.at)
        }
        NamedExpr::Convert { of, to } => { elaborate_convert(here, nodes, *of, to, node.at) }
        NamedExpr::Not(of) => elaborate_negation(here, nodes, *of, node.at),
    }
}

// An element of what a path stands for.
#[cycle(elaborate_exprs)]
fn elaborate_index(
    here: &Here<'_>,
    nodes: &mut Building,
    base: NamedPath,
    index: ExprId,
    at: Place,
) -> Result<MadeNode, NoMemory>
    requires there { index.0 < length here.now.nodes.now.exprs }
    requires right { IsRight here.now.around.now (length nodes.old.statuses) (tree.index base (expr_at (exprs_of here.now.nodes.now) index) at) }
    ensures grows { OnOk result (Grows nodes.old nodes.new) }
    ensures entries { OnOk result (AddsEntries nodes.old nodes.new (part_entries here.now.around.now (tree.index base (expr_at (exprs_of here.now.nodes.now) index) at))) }
    ensures made { IfOk result (λ n. MakesExpr here.now.around.now (tree.index base (expr_at (exprs_of here.now.nodes.now) index) at) nodes.new n) }
{
    let cells = elaborate_path(here, nodes, base)?;
    let index = elaborate_expr(here, nodes, index)?;
    Ok(MadeNode {
        node: unsigned(
            here.alloc,
            Expr::Index {
                base: cells.node,
                at: index.node,
            },
            at,
        ),
        of: index_meaning(cells.value.of, index.value.of),
    })
}

// A slice of what a path stands for.
#[cycle(elaborate_exprs)]
fn elaborate_slice(
    here: &Here<'_>,
    nodes: &mut Building,
    base: NamedPath,
    from: Option<ExprId>,
    to: Option<ExprId>,
    at: Place,
) -> Result<MadeNode, NoMemory>
    requires from { IsBelow (length here.now.nodes.now.exprs) from }
    requires to { IsBelow (length here.now.nodes.now.exprs) to }
    requires right { IsRight here.now.around.now (length nodes.old.statuses) (tree.slice base (part_at (exprs_of here.now.nodes.now) from) (part_at (exprs_of here.now.nodes.now) to) at) }
    ensures grows { OnOk result (Grows nodes.old nodes.new) }
    ensures entries { OnOk result (AddsEntries nodes.old nodes.new (part_entries here.now.around.now (tree.slice base (part_at (exprs_of here.now.nodes.now) from) (part_at (exprs_of here.now.nodes.now) to) at))) }
    ensures made { IfOk result (λ n. MakesExpr here.now.around.now (tree.slice base (part_at (exprs_of here.now.nodes.now) from) (part_at (exprs_of here.now.nodes.now) to) at) nodes.new n) }
{
    let cells = elaborate_path(here, nodes, base)?;
    let (from, to) = elaborate_ends(here, nodes, from, to)?;
    Ok(MadeNode {
        node: unsigned(
            here.alloc,
            Expr::Cut {
                base: cells.node,
                from: node_of(from),
                to: node_of(to),
            },
            at,
        ),
        of: slice_meaning(cells.value.of, value_of(from), value_of(to)),
    })
}

// Both ends of a slice.
#[cycle(elaborate_exprs)]
fn elaborate_ends(
    here: &Here<'_>,
    nodes: &mut Building,
    from: Option<ExprId>,
    to: Option<ExprId>,
) -> Result<(Option<Elaborated>, Option<Elaborated>), NoMemory>
    requires from { IsBelow (length here.now.nodes.now.exprs) from }
    requires to { IsBelow (length here.now.nodes.now.exprs) to }
    requires from_right { IsRightEnd here.now.around.now (length nodes.old.statuses) (part_at (exprs_of here.now.nodes.now) from) }
    requires to_right { IsRightEnd here.now.around.now (length nodes.old.statuses) (part_at (exprs_of here.now.nodes.now) to) }
    ensures grows { OnOk result (Grows nodes.old nodes.new) }
    ensures entries { OnOk result (AddsEntries nodes.old nodes.new (end_entries here.now.around.now (part_at (exprs_of here.now.nodes.now) from) ++ end_entries here.now.around.now (part_at (exprs_of here.now.nodes.now) to))) }
    ensures from { IfOk result (λ r. StandsForEnd here.now.around.now (part_at (exprs_of here.now.nodes.now) from) nodes.new r.0) }
    ensures to { IfOk result (λ r. StandsForEnd here.now.around.now (part_at (exprs_of here.now.nodes.now) to) nodes.new r.1) }
{
    let from = elaborate_end(here, nodes, from)?;
    let to = elaborate_end(here, nodes, to)?;
    Ok((from, to))
}

// An end of a slice, which may be absent.
#[cycle(elaborate_exprs)]
fn elaborate_end(
    here: &Here<'_>,
    nodes: &mut Building,
    end: Option<ExprId>,
) -> Result<Option<Elaborated>, NoMemory>
    requires there { IsBelow (length here.now.nodes.now.exprs) end }
    requires right { IsRightEnd here.now.around.now (length nodes.old.statuses) (part_at (exprs_of here.now.nodes.now) end) }
    ensures grows { OnOk result (Grows nodes.old nodes.new) }
    ensures entries { OnOk result (AddsEntries nodes.old nodes.new (end_entries here.now.around.now (part_at (exprs_of here.now.nodes.now) end))) }
    ensures stands { IfOk result (λ r. StandsForEnd here.now.around.now (part_at (exprs_of here.now.nodes.now) end) nodes.new r) }
{
    match end {
        Some(e) => {
            let made = elaborate_expr(here, nodes, e)?;
            Ok(Some(made))
        }
        None => Ok(None),
    }
}

// What a pure base method answers, which has no arguments.
fn elaborate_answer(
    here: &Here<'_>,
    nodes: &mut Building,
    call: &NamedCall,
) -> Result<MadeNode, NoMemory>
    requires { IsRightAnswer here.now.around.now (length nodes.old.statuses) call.now }
    ensures grows { OnOk result (Grows nodes.old nodes.new) }
    ensures entries { OnOk result (AddsEntries nodes.old nodes.new (callee_entries here.now.around.now call.now.callee)) }
    ensures made { IfOk result (λ n. (args : _) → MakesExpr here.now.around.now (tree.answer (tree.call call.now.callee call.now.at call.now.mark args)) nodes.new n) }
{
    match call.callee {
        NamedCallee::Base { on, sig } => {
            let asked = elaborate_path(here, nodes, on)?;
            Ok(MadeNode {
                node: unsigned(
                    here.alloc,
                    Expr::Base {
                        on: asked.node,
                        sig,
                    },
                    call.at,
                ),
                of: inner_answer(here.around, call),
            })
        }
        NamedCallee::Own(_) => unreachable!(),
        NamedCallee::Sub { .. } => unreachable!(),
    }
}

// The link behind a chain's first operand, where it is the only one.
fn only_link(links: &[Link]) -> Option<Link>
    ensures { IfSome result (λ link. links.now ≡ link ∷ []) }
{
    match links {
        [link] => Some(*link),
        _ => None,
    }
}

// A chain of operands.
#[cycle(elaborate_exprs)]
fn elaborate_chain(
    here: &Here<'_>,
    nodes: &mut Building,
    op: Op,
    first: ExprId,
    links: &[Link],
    at: Place,
) -> Result<MadeNode, NoMemory>
    requires first { first.0 < length here.now.nodes.now.exprs }
    requires links { LinksBelow (length here.now.nodes.now.exprs) links.now }
    requires right { IsRight here.now.around.now (length nodes.old.statuses) (tree.chain op (expr_at (exprs_of here.now.nodes.now) first) (links_at (exprs_of here.now.nodes.now) links.now) at) }
    ensures grows { OnOk result (Grows nodes.old nodes.new) }
    ensures entries { OnOk result (AddsEntries nodes.old nodes.new (part_entries here.now.around.now (tree.chain op (expr_at (exprs_of here.now.nodes.now) first) (links_at (exprs_of here.now.nodes.now) links.now) at))) }
    ensures made { IfOk result (λ n. MakesExpr here.now.around.now (tree.chain op (expr_at (exprs_of here.now.nodes.now) first) (links_at (exprs_of here.now.nodes.now) links.now) at) nodes.new n) }
{
    match only_link(links) {
        Some(link) => elaborate_pair(here, nodes, op, first, link, at),
        None => {
            let operands = elaborate_operands(here, nodes, first, links)?;
            Ok(operands.chain(op, at))
        }
    }
}

// A chain of two operands, which needs no lists that grow.
#[cycle(elaborate_exprs)]
fn elaborate_pair(
    here: &Here<'_>,
    nodes: &mut Building,
    op: Op,
    first: ExprId,
    link: Link,
    at: Place,
) -> Result<MadeNode, NoMemory>
    requires first { first.0 < length here.now.nodes.now.exprs }
    requires link { link.operand.0 < length here.now.nodes.now.exprs }
    requires right { IsRight here.now.around.now (length nodes.old.statuses) (tree.chain op (expr_at (exprs_of here.now.nodes.now) first) (links_at (exprs_of here.now.nodes.now) (link ∷ [])) at) }
    ensures grows { OnOk result (Grows nodes.old nodes.new) }
    ensures entries { OnOk result (AddsEntries nodes.old nodes.new (part_entries here.now.around.now (tree.chain op (expr_at (exprs_of here.now.nodes.now) first) (links_at (exprs_of here.now.nodes.now) (link ∷ [])) at))) }
    ensures made { IfOk result (λ n. MakesExpr here.now.around.now (tree.chain op (expr_at (exprs_of here.now.nodes.now) first) (links_at (exprs_of here.now.nodes.now) (link ∷ [])) at) nodes.new n) }
{
    let a = elaborate_expr(here, nodes, first)?;
    let b = elaborate_expr(here, nodes, link.operand)?;
    let made = pair_node(here.alloc, op, a, b, link.sign, at)?;
    Ok(made)
}

// The operands of a chain.
#[cycle(elaborate_exprs)]
fn elaborate_operands(
    here: &Here<'_>,
    nodes: &mut Building,
    first: ExprId,
    links: &[Link],
) -> Result<MadeOperands, NoMemory>
    requires first { first.0 < length here.now.nodes.now.exprs }
    requires links { LinksBelow (length here.now.nodes.now.exprs) links.now }
    requires first_right { IsRight here.now.around.now (length nodes.old.statuses) (expr_at (exprs_of here.now.nodes.now) first) }
    requires right { AreRight here.now.around.now (length nodes.old.statuses) (links_at (exprs_of here.now.nodes.now) links.now) }
    ensures grows { OnOk result (Grows nodes.old nodes.new) }
    ensures entries { OnOk result (AddsEntries nodes.old nodes.new (expr_entries here.now.around.now (expr_at (exprs_of here.now.nodes.now) first) ++ link_entries here.now.around.now (links_at (exprs_of here.now.nodes.now) links.now))) }
    ensures all { IfOk result (λ all. AreOperands here.now.around.now (expr_at (exprs_of here.now.nodes.now) first) (links_at (exprs_of here.now.nodes.now) links.now) nodes.new all) }
{
    let begun = elaborate_operand(here, nodes, MadeOperands::new(here.alloc), first)?;
    let all = elaborate_links(here, nodes, begun, links)?;
    Ok(all)
}

// An operand after others.
#[cycle(elaborate_exprs)]
fn elaborate_operand(
    here: &Here<'_>,
    nodes: &mut Building,
    before: MadeOperands,
    e: ExprId,
) -> Result<MadeOperands, NoMemory>
    requires there { e.0 < length here.now.nodes.now.exprs }
    requires right { IsRight here.now.around.now (length nodes.old.statuses) (expr_at (exprs_of here.now.nodes.now) e) }
    ensures grows { OnOk result (Grows nodes.old nodes.new) }
    ensures entries { OnOk result (AddsEntries nodes.old nodes.new (expr_entries here.now.around.now (expr_at (exprs_of here.now.nodes.now) e))) }
    ensures adds { IfOk result (λ all. AddsOperand here.now.around.now (expr_at (exprs_of here.now.nodes.now) e) nodes.new before all) }
{
    let next = elaborate_expr(here, nodes, e)?;
    before.with_operand(next)
}

// The operands after the first, each with the sign before it.
#[cycle(elaborate_exprs)]
fn elaborate_links(
    here: &Here<'_>,
    nodes: &mut Building,
    before: MadeOperands,
    links: &[Link],
) -> Result<MadeOperands, NoMemory>
    requires there { LinksBelow (length here.now.nodes.now.exprs) links.now }
    requires right { AreRight here.now.around.now (length nodes.old.statuses) (links_at (exprs_of here.now.nodes.now) links.now) }
    ensures grows { OnOk result (Grows nodes.old nodes.new) }
    ensures entries { OnOk result (AddsEntries nodes.old nodes.new (link_entries here.now.around.now (links_at (exprs_of here.now.nodes.now) links.now))) }
    ensures adds { IfOk result (λ all. AddsLinks here.now.around.now (links_at (exprs_of here.now.nodes.now) links.now) nodes.new before all) }
{
    let mut all = before;
    for link in links {
        all = elaborate_link(here, nodes, all, *link)?;
    }
    Ok(all)
}

// An operand with the sign before it.
#[cycle(elaborate_exprs)]
fn elaborate_link(
    here: &Here<'_>,
    nodes: &mut Building,
    before: MadeOperands,
    link: Link,
) -> Result<MadeOperands, NoMemory>
    requires there { link.operand.0 < length here.now.nodes.now.exprs }
    requires right { IsRight here.now.around.now (length nodes.old.statuses) (expr_at (exprs_of here.now.nodes.now) link.operand) }
    ensures grows { OnOk result (Grows nodes.old nodes.new) }
    ensures entries { OnOk result (AddsEntries nodes.old nodes.new (expr_entries here.now.around.now (expr_at (exprs_of here.now.nodes.now) link.operand))) }
    ensures adds { IfOk result (λ all. AddsOperand here.now.around.now (expr_at (exprs_of here.now.nodes.now) link.operand) nodes.new (record before { signs = before.signs ++ link.sign ∷ [] }) all) }
{
    let signed = before.with_sign(link.sign)?;
    elaborate_operand(here, nodes, signed, link.operand)
}

// A conversion to numbers of a width.
#[cycle(elaborate_exprs)]
fn elaborate_convert(
    here: &Here<'_>,
    nodes: &mut Building,
    of: ExprId,
    to: &NamedType,
    at: Place,
) -> Result<MadeNode, NoMemory>
    requires there { of.0 < length here.now.nodes.now.exprs }
    requires right { IsRight here.now.around.now (length nodes.old.statuses) (tree.convert (expr_at (exprs_of here.now.nodes.now) of) (type_at (exprs_of here.now.nodes.now) to.now) at) }
    ensures grows { OnOk result (Grows nodes.old nodes.new) }
    ensures entries { OnOk result (AddsEntries nodes.old nodes.new (part_entries here.now.around.now (tree.convert (expr_at (exprs_of here.now.nodes.now) of) (type_at (exprs_of here.now.nodes.now) to.now) at))) }
    ensures made { IfOk result (λ n. MakesExpr here.now.around.now (tree.convert (expr_at (exprs_of here.now.nodes.now) of) (type_at (exprs_of here.now.nodes.now) to.now) at) nodes.new n) }
{
    match plain_width(to) {
        Some(width) => {
            let made = elaborate_expr(here, nodes, of)?;
            Ok(MadeNode {
                node: unsigned(
                    here.alloc,
                    Expr::Convert {
                        of: made.node,
                        to: width,
                    },
                    at,
                ),
                of: conversion(Some(width), made.value.of),
            })
        }
        None => unreachable!(),
    }
}

// A `not`.
#[cycle(elaborate_exprs)]
fn elaborate_negation(
    here: &Here<'_>,
    nodes: &mut Building,
    of: ExprId,
    at: Place,
) -> Result<MadeNode, NoMemory>
    requires there { of.0 < length here.now.nodes.now.exprs }
    requires right { IsRight here.now.around.now (length nodes.old.statuses) (tree.negation (expr_at (exprs_of here.now.nodes.now) of) at) }
    ensures grows { OnOk result (Grows nodes.old nodes.new) }
    ensures entries { OnOk result (AddsEntries nodes.old nodes.new (part_entries here.now.around.now (tree.negation (expr_at (exprs_of here.now.nodes.now) of) at))) }
    ensures made { IfOk result (λ n. MakesExpr here.now.around.now (tree.negation (expr_at (exprs_of here.now.nodes.now) of) at) nodes.new n) }
{
    let made = elaborate_expr(here, nodes, of)?;
    Ok(MadeNode {
        node: unsigned(here.alloc, Expr::Not(made.node), at),
        of: as_flag(made.value.of),
    })
}
