// The walk over expressions, types and calls: what their uses of names break, and the row of the methods that they call.

ghost use Rattle.std.specs.Prelude.{◌≡◌, ◌<◌, ◌++◌, ◌&&◌, not, true, length, bytes_eq, OnOk};
ghost use Rattle.std.specs.List.{list_any, flat_map, AllByRecursion};
ghost use Rattle.wf_ast.specs.ParsedTrees.{expr_trees, expr_at, part_at, links_at, given_at, call_at, type_at, core_at, bounds_at};
ghost use Rattle.wf_ast.specs.ParsedParts.{GivenBelow, LinksBelow, IsBelow, TypeBelow, BoundsBelow, PrefixBelow};
ghost use Rattle.wf_names_rules.specs.Passes.{refused_if as refuses_if};
ghost use Rattle.wf_names_rules.specs.Uses.{own_status, base_status, variable, structure, receiver_uses, uses_of, part_uses, link_uses, given_uses, call_uses, type_uses, bounds_uses};
ghost use Rattle.wf_names_rules.specs.NodeUses.{prefix_uses};
ghost use Rattle.wf_names_rules.specs.Tables.{known_by, args_at};
ghost use Rattle.wf_names_rules.specs.Here.{known_here};
ghost use Rattle.wf_names_rules.specs.Meanings.{given_values, parameters_of, callee_of, is_base_status as is_of_language, is_known as knows};
ghost use Rattle.wf_names_rules.specs.Judged.{unknown_status as is_unknown_status, unknown_base_status as is_unknown_base_status, unknown_variable as is_unknown_variable, unknown_struct as is_unknown_struct, unknown_method as is_unknown_method, foreign_method as is_foreign_method, private_method as is_private_method, callee_refusal as refuses_callee, used_so, walked, walked_one, given_judged_if, call_finished};
ghost use Rattle.wf_names_rules.specs.Called.{with_callee, with_calls};

use crate::arguments::judge_given;
use crate::callees::{Callee, add_callee};
use crate::here::Here;
use crate::lists::refused_if;
use crate::seen::Seen;
use crate::tables::{Tables, callee_on, path_sort, text_bytes};
use graphs::rows::Row;
use std::alloc::Global;
use wf_ast::parsed::{
    Bounds, Call, Core, Expr, Given, Link, Name, Path, Prefix, Receiver, TypeExpr,
};
use wf_ast::{ExprId, PackageNodes};
use wf_text::faults::NoMemory;
use wf_text::found::Found;
use wf_text::rules::{Refusal, Rule};

const BASE_STATUSES: [&str; 9] = [
    "$short read",
    "$short write",
    "@end of data",
    "#bad receiver",
    "#bad argument",
    "#initialize not called",
    "#interleaved coroutine calls",
    "#disabled by previous error",
    "#cannot return a suspension",
];

fn is_among(words: &[&str], name: &[u8]) -> bool
    ensures { result ≡ list_any (λ word. bytes_eq word.now name.now) words.now }
{
    words.iter().any(|word| word.as_bytes() == name)
}

/// Whether a status of the language is written so after `base.`.
pub(crate) fn is_base_status(text: &[u8]) -> bool
    ensures { result ≡ is_of_language text.now }
{
    is_among(&BASE_STATUSES, text)
}

// A use, with its refusal where it has no meaning.
fn used(seen: &mut Seen, unknown: Option<Refusal>)
    ensures { (has_meaning : _) (at : _) → unknown ≡ refuses_if (not has_meaning) Rule.N1 at → seen.new ≡ used_so seen.old has_meaning at }
{
    seen.found.refuse(unknown);
    seen.known = seen.known && unknown.is_none();
}

// A status that the package doesn't have.
fn unknown_status(tables: &Tables, text: Name) -> Option<Refusal>
    ensures { (texts : _) (scope : _) → result ≡ is_unknown_status (known_by texts tables.now scope) text }
{
    refused_if(
        !tables.statuses.numbers.contains_key(&text.text.0),
        Rule::N1,
        text.at,
    )
}

fn walk_own_status(seen: &mut Seen, tables: &Tables, text: Name)
    ensures { (texts : _) (scope : _) → seen.new ≡ walked_one (known_by texts tables.now scope) seen.old (own_status text) }
{
    used(seen, unknown_status(tables, text));
}

// A status that the language doesn't have.
fn unknown_base_status(parsed: &PackageNodes, text: Name) -> Option<Refusal>
    ensures { (tables : _) (scope : _) → result ≡ is_unknown_base_status (known_by parsed.now.texts tables scope) text }
{
    refused_if(
        !is_base_status(text_bytes(parsed, text.text)),
        Rule::N1,
        text.at,
    )
}

fn walk_base_status(seen: &mut Seen, parsed: &PackageNodes, text: Name)
    ensures { (tables : _) (scope : _) → seen.new ≡ walked_one (known_by parsed.now.texts tables scope) seen.old (base_status text) }
{
    used(seen, unknown_base_status(parsed, text));
}

// A local or constant, a field or an argument that isn't known here.
fn unknown_variable(here: &Here<'_>, path: Path) -> Option<Refusal>
    ensures { result ≡ is_unknown_variable (known_here here.now) path }
{
    refused_if(
        path_sort(here.parsed, here.tables, here.scope, path).is_none(),
        Rule::N1,
        path.name.at,
    )
}

/// A use of a path.
pub(crate) fn walk_path(seen: &mut Seen, here: &Here<'_>, path: Path)
    ensures { seen.new ≡ walked_one (known_here here.now) seen.old (variable path) }
{
    used(seen, unknown_variable(here, path));
}

// A struct that the package doesn't have.
fn unknown_struct(tables: &Tables, name: Name) -> Option<Refusal>
    ensures { (texts : _) (scope : _) → result ≡ is_unknown_struct (known_by texts tables.now scope) name }
{
    refused_if(
        !tables.structs.numbers.contains_key(&name.text.0),
        Rule::N1,
        name.at,
    )
}

/// A use of a struct's name.
pub fn walk_struct(seen: &mut Seen, tables: &Tables, name: Name)
    ensures { (texts : _) (scope : _) → seen.new ≡ walked_one (known_by texts tables.now scope) seen.old (structure name) }
{
    used(seen, unknown_struct(tables, name));
}

fn walk_receiver(seen: &mut Seen, here: &Here<'_>, on: Receiver)
    ensures { seen.new ≡ walked (known_here here.now) seen.old (receiver_uses on) }
{
    match on {
        Receiver::This(_) => {}
        Receiver::Path(path) => walk_path(seen, here, path),
    }
}

// A method that what it is called on doesn't have.
fn unknown_method(name: Name) -> Refusal
    ensures { result ≡ is_unknown_method name }
{
    Refusal {
        rule: Rule::N1,
        at: name.at,
    }
}

// A method of another struct called on `this`.
fn foreign_method(name: Name) -> Refusal
    ensures { result ≡ is_foreign_method name }
{
    Refusal {
        rule: Rule::N8,
        at: name.at,
    }
}

// A private method called through a field.
fn private_method(name: Name) -> Refusal
    ensures { result ≡ is_private_method name }
{
    Refusal {
        rule: Rule::N8,
        at: name.at,
    }
}

fn callee_refusal(callee: Callee, name: Name) -> Option<Refusal>
    ensures { result ≡ refuses_callee callee name }
{
    match callee {
        Callee::Missing => Some(unknown_method(name)),
        Callee::Foreign => Some(foreign_method(name)),
        Callee::Hidden(_) => Some(private_method(name)),
        Callee::Own(_) => None,
        Callee::Base(_) => None,
        Callee::Baseless => None,
    }
}

fn is_known(callee: Callee) -> bool
    ensures { result ≡ knows callee }
{
    match callee {
        Callee::Own(_) => true,
        Callee::Hidden(_) => true,
        Callee::Base(_) => true,
        Callee::Foreign => false,
        Callee::Missing => false,
        Callee::Baseless => false,
    }
}

fn both(a: bool, b: bool) -> bool
    ensures { result ≡ (a && b) }
{
    a && b
}

// What the arguments of a call break, where it has a meaning.
fn judge_given_if(
    alloc: Global,
    known: bool,
    found: &mut Found,
    here: &Here<'_>,
    callee: Callee,
    call: &Call,
) -> Result<(), NoMemory>
    requires { GivenBelow (length here.now.parsed.now.exprs) call.now.args }
    ensures { OnOk result (found.new ≡ given_judged_if known (known_here here.now) found.old (parameters_of (args_at here.now.tables.now) callee) call.now.method (given_values (given_at (expr_trees here.now.parsed.now.exprs) call.now.args))) }
{
    if known {
        judge_given(
            alloc,
            found,
            here,
            callee,
            call.method,
            call.args.as_slice(),
        )
    } else {
        Ok(())
    }
}

// A call after what it is made on and its arguments' values; `seen` tells what these broke, and whether all in them
// has a meaning. Its method joins the row.
fn finish_call(
    alloc: Global,
    seen: &mut Seen,
    row: &mut Row,
    here: &Here<'_>,
    call: &Call,
) -> Result<(), NoMemory>
    requires { GivenBelow (length here.now.parsed.now.exprs) call.now.args }
    ensures seen { OnOk result (seen.new ≡ call_finished (known_here here.now) seen.old (call_at (expr_trees here.now.parsed.now.exprs) call.now)) }
    ensures row { OnOk result (row.new ≡ with_callee row.old (callee_of (known_here here.now) (call_at (expr_trees here.now.parsed.now.exprs) call.now))) }
{
    let callee = callee_on(
        here.parsed,
        here.tables,
        here.scope,
        call.on,
        call.method.text,
    );
    add_callee(row, callee)?;
    seen.found.refuse(callee_refusal(callee, call.method));
    seen.known = both(is_known(callee), seen.known);
    judge_given_if(alloc, seen.known, &mut seen.found, here, callee, call)
}

/// A walk past an expression. The methods that it calls join the row at its end, by their numbers, in order and each as
/// often as it is called. `Err` where memory was refused; the row may then have some of them.
#[cycle(walk_exprs)]
pub fn walk_expr(
    alloc: Global,
    seen: &mut Seen,
    row: &mut Row,
    here: &Here<'_>,
    e: ExprId,
) -> Result<(), NoMemory>
    requires { e.0 < length here.now.parsed.now.exprs }
    ensures seen { OnOk result (seen.new ≡ walked (known_here here.now) seen.old (uses_of (expr_at (expr_trees here.now.parsed.now.exprs) e))) }
    ensures row { OnOk result (row.new ≡ with_calls (known_here here.now) row.old (uses_of (expr_at (expr_trees here.now.parsed.now.exprs) e))) }
{
    let node = here.parsed.expr(e);
    match &node.expr {
        Expr::Number(_) => Ok(()),
        Expr::OwnStatus(text) => {
            walk_own_status(seen, here.tables, *text);
            Ok(())
        }
        Expr::BaseStatus(text) => {
            walk_base_status(seen, here.parsed, *text);
            Ok(())
        }
        Expr::Fine => Ok(()),
        Expr::Truth(_) => Ok(()),
        Expr::Path(path) => {
            walk_path(seen, here, *path);
            Ok(())
        }
        Expr::Index { base, index } => {
            walk_path(seen, here, *base);
            walk_expr(alloc, seen, row, here, *index)
        }
        Expr::Slice { base, from, to } => {
            walk_path(seen, here, *base);
            walk_parts(alloc, seen, row, here, *from, *to)
        }
        Expr::Call(call) => walk_call(alloc, seen, row, here, call),
        Expr::Chain { first, links, .. } => {
            walk_expr(alloc, seen, row, here, *first)?;
            walk_links(alloc, seen, row, here, links.as_slice())
        }
        Expr::Convert { of, to } => {
            walk_expr(alloc, seen, row, here, *of)?;
            walk_type(alloc, seen, row, here, to)
        }
        Expr::Not(of) => walk_expr(alloc, seen, row, here, *of),
    }
}

/// A walk past an expression that may be absent.
#[cycle(walk_exprs)]
pub(crate) fn walk_part(
    alloc: Global,
    seen: &mut Seen,
    row: &mut Row,
    here: &Here<'_>,
    part: Option<ExprId>,
) -> Result<(), NoMemory>
    requires { IsBelow (length here.now.parsed.now.exprs) part }
    ensures seen { OnOk result (seen.new ≡ walked (known_here here.now) seen.old (part_uses (part_at (expr_trees here.now.parsed.now.exprs) part))) }
    ensures row { OnOk result (row.new ≡ with_calls (known_here here.now) row.old (part_uses (part_at (expr_trees here.now.parsed.now.exprs) part))) }
{
    match part {
        Some(e) => walk_expr(alloc, seen, row, here, e),
        None => Ok(()),
    }
}

#[cycle(walk_exprs)]
fn walk_parts(
    alloc: Global,
    seen: &mut Seen,
    row: &mut Row,
    here: &Here<'_>,
    from: Option<ExprId>,
    to: Option<ExprId>,
) -> Result<(), NoMemory>
    requires from { IsBelow (length here.now.parsed.now.exprs) from }
    requires to { IsBelow (length here.now.parsed.now.exprs) to }
    ensures seen { OnOk result (seen.new ≡ walked (known_here here.now) seen.old (part_uses (part_at (expr_trees here.now.parsed.now.exprs) from) ++ part_uses (part_at (expr_trees here.now.parsed.now.exprs) to))) }
    ensures row { OnOk result (row.new ≡ with_calls (known_here here.now) row.old (part_uses (part_at (expr_trees here.now.parsed.now.exprs) from) ++ part_uses (part_at (expr_trees here.now.parsed.now.exprs) to))) }
{
    walk_part(alloc, seen, row, here, from)?;
    walk_part(alloc, seen, row, here, to)
}

#[cycle(walk_exprs)]
fn walk_links(
    alloc: Global,
    seen: &mut Seen,
    row: &mut Row,
    here: &Here<'_>,
    links: &[Link],
) -> Result<(), NoMemory>
    requires { LinksBelow (length here.now.parsed.now.exprs) links.now }
    ensures seen { OnOk result (seen.new ≡ walked (known_here here.now) seen.old (link_uses (links_at (expr_trees here.now.parsed.now.exprs) links.now))) }
    ensures row { OnOk result (row.new ≡ with_calls (known_here here.now) row.old (link_uses (links_at (expr_trees here.now.parsed.now.exprs) links.now))) }
{
    for link in links {
        walk_expr(alloc, seen, row, here, link.operand)?;
    }
    Ok(())
}

/// A walk past the values of arguments, or past what is given to an axiom.
#[cycle(walk_exprs)]
pub(crate) fn walk_given(
    alloc: Global,
    seen: &mut Seen,
    row: &mut Row,
    here: &Here<'_>,
    args: &[Given],
) -> Result<(), NoMemory>
    requires { GivenBelow (length here.now.parsed.now.exprs) args.now }
    ensures seen { OnOk result (seen.new ≡ walked (known_here here.now) seen.old (given_uses (given_at (expr_trees here.now.parsed.now.exprs) args.now))) }
    ensures row { OnOk result (row.new ≡ with_calls (known_here here.now) row.old (given_uses (given_at (expr_trees here.now.parsed.now.exprs) args.now))) }
{
    for given in args {
        walk_expr(alloc, seen, row, here, given.value)?;
    }
    Ok(())
}

/// A walk past a call.
#[cycle(walk_exprs)]
pub(crate) fn walk_call(
    alloc: Global,
    seen: &mut Seen,
    row: &mut Row,
    here: &Here<'_>,
    call: &Call,
) -> Result<(), NoMemory>
    requires { GivenBelow (length here.now.parsed.now.exprs) call.now.args }
    ensures seen { OnOk result (seen.new ≡ walked (known_here here.now) seen.old (call_uses (call_at (expr_trees here.now.parsed.now.exprs) call.now))) }
    ensures row { OnOk result (row.new ≡ with_calls (known_here here.now) row.old (call_uses (call_at (expr_trees here.now.parsed.now.exprs) call.now))) }
{
    walk_receiver(seen, here, call.on);
    let before = seen.known;
    seen.known = true;
    walk_given(alloc, seen, row, here, call.args.as_slice())?;
    finish_call(alloc, seen, row, here, call)?;
    seen.known = both(before, seen.known);
    Ok(())
}

#[cycle(walk_exprs)]
fn walk_prefix(
    alloc: Global,
    seen: &mut Seen,
    row: &mut Row,
    here: &Here<'_>,
    prefix: Prefix,
) -> Result<(), NoMemory>
    requires { PrefixBelow (length here.now.parsed.now.exprs) prefix }
    ensures seen { OnOk result (seen.new ≡ walked (known_here here.now) seen.old (prefix_uses (expr_trees here.now.parsed.now.exprs) prefix)) }
    ensures row { OnOk result (row.new ≡ with_calls (known_here here.now) row.old (prefix_uses (expr_trees here.now.parsed.now.exprs) prefix)) }
{
    match prefix {
        Prefix::Slice(_) => Ok(()),
        Prefix::Array { length, .. } => walk_expr(alloc, seen, row, here, length),
    }
}

#[cycle(walk_exprs)]
fn walk_prefixes(
    alloc: Global,
    seen: &mut Seen,
    row: &mut Row,
    here: &Here<'_>,
    prefixes: &[Prefix],
) -> Result<(), NoMemory>
    requires { AllByRecursion (PrefixBelow (length here.now.parsed.now.exprs)) prefixes.now }
    ensures seen { OnOk result (seen.new ≡ walked (known_here here.now) seen.old (flat_map (prefix_uses (expr_trees here.now.parsed.now.exprs)) prefixes.now)) }
    ensures row { OnOk result (row.new ≡ with_calls (known_here here.now) row.old (flat_map (prefix_uses (expr_trees here.now.parsed.now.exprs)) prefixes.now)) }
{
    for prefix in prefixes {
        walk_prefix(alloc, seen, row, here, *prefix)?;
    }
    Ok(())
}

#[cycle(walk_exprs)]
fn walk_bounds(
    alloc: Global,
    seen: &mut Seen,
    row: &mut Row,
    here: &Here<'_>,
    bounds: Option<Bounds>,
) -> Result<(), NoMemory>
    requires { BoundsBelow (length here.now.parsed.now.exprs) bounds }
    ensures seen { OnOk result (seen.new ≡ walked (known_here here.now) seen.old (bounds_uses (bounds_at (expr_trees here.now.parsed.now.exprs) bounds))) }
    ensures row { OnOk result (row.new ≡ with_calls (known_here here.now) row.old (bounds_uses (bounds_at (expr_trees here.now.parsed.now.exprs) bounds))) }
{
    match bounds {
        Some(bounds) => walk_parts(alloc, seen, row, here, bounds.low, Some(bounds.high)),
        None => Ok(()),
    }
}

#[cycle(walk_exprs)]
fn walk_core(
    alloc: Global,
    seen: &mut Seen,
    row: &mut Row,
    here: &Here<'_>,
    core: Core,
    bounds: Option<Bounds>,
) -> Result<(), NoMemory>
    requires { BoundsBelow (length here.now.parsed.now.exprs) bounds }
    ensures seen { OnOk result (seen.new ≡ walked (known_here here.now) seen.old (type_uses (core_at (expr_trees here.now.parsed.now.exprs) core bounds))) }
    ensures row { OnOk result (row.new ≡ with_calls (known_here here.now) row.old (type_uses (core_at (expr_trees here.now.parsed.now.exprs) core bounds))) }
{
    match core {
        Core::Base { .. } => walk_bounds(alloc, seen, row, here, bounds),
        Core::BaseStatus { .. } => walk_bounds(alloc, seen, row, here, bounds),
        Core::Struct(name) => {
            walk_struct(seen, here.tables, name);
            Ok(())
        }
    }
}

/// A walk past a type.
#[cycle(walk_exprs)]
pub fn walk_type(
    alloc: Global,
    seen: &mut Seen,
    row: &mut Row,
    here: &Here<'_>,
    of: &TypeExpr,
) -> Result<(), NoMemory>
    requires { TypeBelow (length here.now.parsed.now.exprs) of.now }
    ensures seen { OnOk result (seen.new ≡ walked (known_here here.now) seen.old (type_uses (type_at (expr_trees here.now.parsed.now.exprs) of.now))) }
    ensures row { OnOk result (row.new ≡ with_calls (known_here here.now) row.old (type_uses (type_at (expr_trees here.now.parsed.now.exprs) of.now))) }
{
    walk_prefixes(alloc, seen, row, here, of.prefixes.as_slice())?;
    walk_core(alloc, seen, row, here, of.core, of.bounds)
}
