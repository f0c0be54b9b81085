// The values of numbers and of slices in the source's machine. The recursion goes as deep as nodes stand inside one another; the
// operands of a chain stand side by side.

ghost use Rattle.std.specs.Prelude.{◌≡◌, ◌<◌, nat_lt, length, map, IsTrue, option_map, option_and_then};
ghost use Rattle.std.specs.List.{list_all};
ghost use Rattle.wf_base.specs.BaseTable.{bits_of, row_of};
ghost use Rattle.wf_ast.specs.TypedTree.{numeric, element, convert, length_of, cut, local, field, arg};
ghost use Rattle.wf_ast.specs.TypedTrees.{named, answer_of, chain_of, end_in, first_sign, num_type, place_of_node, signs_of_node, operator_kind, tree_of, type_of_node};
ghost use Rattle.wf_ast.specs.TypedInvariant.{has_kind, is_expr};
ghost use Rattle.wf_ast.specs.Value.{value, span_of, end_value, element_of, part_of, applied, fitted};
ghost use Rattle.wf_ast.specs.NodeKinds.{is_number_at, is_slice_at, node_number, node_slice, end_fits, gives_number};
ghost use Rattle.wf_ast.specs.OperatorForms.{is_arithmetic, arith_in};
ghost use Rattle.wf_mean_exprs.specs.MachineState.{seen_from, span_seen};
ghost use Rattle.wf_mean_exprs.specs.Operands.{count_or_zero};

use crate::arithmetic::{apply, fit};
use crate::asking::{Asked, ask};
use crate::reading::Scene;
use crate::values::SliceSpan;
use wf_ast::{ArgId, Expr, ExprId, FieldId, LocalId, Op, Ty, Typed};
use wf_base::{BaseSig, Width};

/// The value of a number; None where it is stuck.
#[cycle(valuing)]
pub fn number(scene: &Scene, e: ExprId) -> Option<u64>
    requires { IsTrue (is_number_at scene.now.package.now e) }
    ensures { result ≡ value (seen_from scene.now) (node_number scene.now.package.now e) }
{
    let expr = scene.package.expr(e);
    match scene.package.constant(e) {
        Some(n) => Some(n),
        None => match expr {
            Expr::Local(x) => local_number(scene, e, *x),
            Expr::Field(x) => field_number(scene, e, *x),
            Expr::Arg(x) => arg_number(scene, e, *x),
            Expr::Index { base, at } => number_of_element(scene, e, *base, *at),
            Expr::Chain { op, parts } => number_of_chain(scene, e, *op, parts.as_slice()),
            Expr::Convert { of, to } => converted(scene, e, *of, *to),
            Expr::Base { on, sig } => answer(scene, e, *on, *sig),
            Expr::Number(_) | Expr::Const(_) | Expr::Status(_) => unreachable!(),
            Expr::Truth(_) | Expr::Cut { .. } | Expr::Not(_) => unreachable!(),
        },
    }
}

// The number in a variable.

fn local_number(scene: &Scene, e: ExprId, x: LocalId) -> Option<u64>
    requires node { IsTrue (is_number_at scene.now.package.now e) }
    requires tree { tree_of scene.now.package.now e ≡ named (place_of_node scene.now.package.now e.0) (type_of_node scene.now.package.now e.0) (local x.0) }
    ensures { result ≡ value (seen_from scene.now) (node_number scene.now.package.now e) }
{
    scene.local_number(x)
}

fn field_number(scene: &Scene, e: ExprId, x: FieldId) -> Option<u64>
    requires node { IsTrue (is_number_at scene.now.package.now e) }
    requires tree { tree_of scene.now.package.now e ≡ named (place_of_node scene.now.package.now e.0) (type_of_node scene.now.package.now e.0) (field x.0) }
    ensures { result ≡ value (seen_from scene.now) (node_number scene.now.package.now e) }
{
    scene.field_number(x)
}

fn arg_number(scene: &Scene, e: ExprId, x: ArgId) -> Option<u64>
    requires node { IsTrue (is_number_at scene.now.package.now e) }
    requires tree { tree_of scene.now.package.now e ≡ named (place_of_node scene.now.package.now e.0) (type_of_node scene.now.package.now e.0) (arg x.0) }
    ensures { result ≡ value (seen_from scene.now) (node_number scene.now.package.now e) }
{
    scene.arg_number(x)
}

#[cycle(valuing)]
fn number_of_element(scene: &Scene, e: ExprId, base: ExprId, at: ExprId) -> Option<u64>
    requires tree { tree_of scene.now.package.now e ≡ numeric (element (place_of_node scene.now.package.now e.0) (num_type (type_of_node scene.now.package.now e.0)) (node_slice scene.now.package.now base) (node_number scene.now.package.now at)) }
    requires base { IsTrue (is_slice_at scene.now.package.now base) }
    requires at { IsTrue (is_number_at scene.now.package.now at) }
    requires base_below { base.0 < e.0 }
    requires at_below { at.0 < e.0 }
    ensures { result ≡ value (seen_from scene.now) (node_number scene.now.package.now e) }
{
    element_at(scene, slice(scene, base), number(scene, at))
}

fn element_at(scene: &Scene, span: Option<SliceSpan>, k: Option<u64>) -> Option<u64>
    ensures { result ≡ option_and_then (λ xs. option_and_then (element_of (seen_from scene.now) xs) k) (option_map span_seen span) }
{
    match (span, k) {
        (Some(span), Some(k)) => scene.element(span, k),
        (Some(_), None) => None,
        (None, Some(_)) => None,
        (None, None) => None,
    }
}

// A chain, from the left.
#[cycle(valuing)]
fn number_of_chain(scene: &Scene, e: ExprId, op: Op, parts: &[ExprId]) -> Option<u64>
    requires node { IsTrue (is_number_at scene.now.package.now e) }
    requires tree { tree_of scene.now.package.now e ≡ chain_of (place_of_node scene.now.package.now e.0) (signs_of_node scene.now.package.now e.0) (type_of_node scene.now.package.now e.0) (operator_kind op) (map (tree_of scene.now.package.now) parts.now) }
    requires below { IsTrue (list_all (λ p. nat_lt p.0 e.0) parts.now) }
    requires arithmetic { IsTrue (is_arithmetic (operator_kind op)) }
    requires numbers { IsTrue (list_all (is_number_at scene.now.package.now) parts.now) }
    requires some { 0 < length parts.now }
    ensures { result ≡ value (seen_from scene.now) (node_number scene.now.package.now e) }
{
    let width = width_of(scene.package, e);
    let mut so_far = number(scene, parts[0]);
    for i in 1..parts.len() {
        so_far = joined(op, width, so_far, number(scene, parts[i]));
    }
    so_far
}

fn joined(op: Op, width: Width, so_far: Option<u64>, next: Option<u64>) -> Option<u64>
    requires { IsTrue (is_arithmetic (operator_kind op)) }
    ensures { result ≡ option_and_then (λ m. option_and_then (applied (arith_in (operator_kind op)) (bits_of width) m) next) so_far }
{
    match (so_far, next) {
        (Some(m), Some(n)) => apply(op, width, m, n),
        (Some(_), None) => None,
        (None, Some(_)) => None,
        (None, None) => None,
    }
}

// The width of a number's type.
fn width_of(t: &Typed, e: ExprId) -> Width
    requires { IsTrue (is_number_at t.now e) }
    ensures { bits_of result ≡ (num_type (type_of_node t.now e.0)).bits }
{
    match t.type_of(e) {
        Ty::Num { width, .. } => width,
        Ty::Flag | Ty::Status | Ty::Reader | Ty::Writer => unreachable!(),
        Ty::Slice(_) | Ty::Array { .. } | Ty::Part(_) => unreachable!(),
    }
}

#[cycle(valuing)]
fn converted(scene: &Scene, e: ExprId, of: ExprId, to: Width) -> Option<u64>
    requires tree { tree_of scene.now.package.now e ≡ numeric (convert (place_of_node scene.now.package.now e.0) (first_sign (place_of_node scene.now.package.now e.0) (signs_of_node scene.now.package.now e.0)) (bits_of to) (node_number scene.now.package.now of)) }
    requires of { IsTrue (is_number_at scene.now.package.now of) }
    requires below { of.0 < e.0 }
    ensures { result ≡ value (seen_from scene.now) (node_number scene.now.package.now e) }
{
    fit_in(to, number(scene, of))
}

fn fit_in(width: Width, n: Option<u64>) -> Option<u64>
    ensures { result ≡ option_and_then (fitted (bits_of width)) n }
{
    fit(width, n? as u128)
}

// What a base method answers.
#[cycle(valuing)]
fn answer(scene: &Scene, e: ExprId, on: ExprId, sig: BaseSig) -> Option<u64>
    requires tree { tree_of scene.now.package.now e ≡ answer_of (place_of_node scene.now.package.now e.0) sig (tree_of scene.now.package.now on) }
    requires kind { IsTrue (has_kind (row_of sig).on (type_of_node scene.now.package.now on.0)) }
    requires number { IsTrue (gives_number sig) }
    requires on { IsTrue (is_expr scene.now.package.now on) }
    requires below { on.0 < e.0 }
    ensures { result ≡ value (seen_from scene.now) (node_number scene.now.package.now e) }
{
    match sig {
        BaseSig::SliceLength(_) => length_of_slice(scene, e, on),
        BaseSig::ArrayLength(_) => length_of_slice(scene, e, on),
        BaseSig::ReaderLength => ask(scene, e, on, Asked::ReaderLength),
        BaseSig::ReaderPosition => ask(scene, e, on, Asked::ReaderPosition),
        BaseSig::WriterLength => ask(scene, e, on, Asked::WriterLength),
        BaseSig::WriterPosition => ask(scene, e, on, Asked::WriterPosition),
        BaseSig::Peek(form) => ask(scene, e, on, Asked::Peek(form)),
        BaseSig::ReaderIsClosed | BaseSig::Read(_) | BaseSig::Skip => unreachable!(),
        BaseSig::SkipFast | BaseSig::Write | BaseSig::WriteFast => unreachable!(),
        BaseSig::WriterCopy | BaseSig::SliceCopy(_) | BaseSig::IsOk => unreachable!(),
        BaseSig::IsNote | BaseSig::IsSuspension | BaseSig::IsError => unreachable!(),
    }
}

#[cycle(valuing)]
fn length_of_slice(scene: &Scene, e: ExprId, on: ExprId) -> Option<u64>
    requires tree { tree_of scene.now.package.now e ≡ numeric (length_of (place_of_node scene.now.package.now e.0) (node_slice scene.now.package.now on)) }
    requires on { IsTrue (is_slice_at scene.now.package.now on) }
    requires below { on.0 < e.0 }
    ensures { result ≡ value (seen_from scene.now) (node_number scene.now.package.now e) }
{
    counted(slice(scene, on))
}

fn counted(span: Option<SliceSpan>) -> Option<u64>
    ensures { result ≡ option_map (λ xs. xs.count) (option_map span_seen span) }
{
    let span = span?;
    Some(span.end.saturating_sub(span.from))
}

/// A slice; None where it is stuck.
#[cycle(valuing)]
pub fn slice(scene: &Scene, e: ExprId) -> Option<SliceSpan>
    requires { IsTrue (is_slice_at scene.now.package.now e) }
    ensures { option_map span_seen result ≡ span_of (seen_from scene.now) (node_slice scene.now.package.now e) }
{
    let expr = scene.package.expr(e);
    match scene.package.constant(e) {
        Some(_) => unreachable!(),
        None => match expr {
            Expr::Local(x) => local_span(scene, e, *x),
            Expr::Field(x) => field_span(scene, e, *x),
            Expr::Arg(x) => arg_span(scene, e, *x),
            Expr::Cut { base, from, to } => cut_slice(scene, e, *base, *from, *to),
            Expr::Number(_) | Expr::Const(_) | Expr::Status(_) => unreachable!(),
            Expr::Truth(_) | Expr::Index { .. } => unreachable!(),
            Expr::Chain { .. } => unreachable!(),
            Expr::Convert { .. } | Expr::Not(_) | Expr::Base { .. } => unreachable!(),
        },
    }
}

// The slice in a variable.

fn local_span(scene: &Scene, e: ExprId, x: LocalId) -> Option<SliceSpan>
    requires node { IsTrue (is_slice_at scene.now.package.now e) }
    requires tree { tree_of scene.now.package.now e ≡ named (place_of_node scene.now.package.now e.0) (type_of_node scene.now.package.now e.0) (local x.0) }
    ensures { option_map span_seen result ≡ span_of (seen_from scene.now) (node_slice scene.now.package.now e) }
{
    scene.local_span(x)
}

fn field_span(scene: &Scene, e: ExprId, x: FieldId) -> Option<SliceSpan>
    requires node { IsTrue (is_slice_at scene.now.package.now e) }
    requires tree { tree_of scene.now.package.now e ≡ named (place_of_node scene.now.package.now e.0) (type_of_node scene.now.package.now e.0) (field x.0) }
    ensures { option_map span_seen result ≡ span_of (seen_from scene.now) (node_slice scene.now.package.now e) }
{
    scene.field_span(x)
}

fn arg_span(scene: &Scene, e: ExprId, x: ArgId) -> Option<SliceSpan>
    requires node { IsTrue (is_slice_at scene.now.package.now e) }
    requires tree { tree_of scene.now.package.now e ≡ named (place_of_node scene.now.package.now e.0) (type_of_node scene.now.package.now e.0) (arg x.0) }
    ensures { option_map span_seen result ≡ span_of (seen_from scene.now) (node_slice scene.now.package.now e) }
{
    scene.arg_span(x)
}

#[cycle(valuing)]
fn cut_slice(
    scene: &Scene,
    e: ExprId,
    base: ExprId,
    from: Option<ExprId>,
    to: Option<ExprId>,
) -> Option<SliceSpan>
    requires tree { node_slice scene.now.package.now e ≡ cut (place_of_node scene.now.package.now e.0) (node_slice scene.now.package.now base) (end_in (tree_of scene.now.package.now) from) (end_in (tree_of scene.now.package.now) to) }
    requires base { IsTrue (is_slice_at scene.now.package.now base) }
    requires from { IsTrue (end_fits scene.now.package.now e from) }
    requires to { IsTrue (end_fits scene.now.package.now e to) }
    requires below { base.0 < e.0 }
    ensures { option_map span_seen result ≡ span_of (seen_from scene.now) (node_slice scene.now.package.now e) }
{
    let span = slice(scene, base);
    let first = end_or(scene, e, from, 0);
    let last = end_or(scene, e, to, length_or_zero(span));
    part(span, first, last)
}

// The end of a part, or what stands for an absent one.
#[cycle(valuing)]
fn end_or(scene: &Scene, e: ExprId, end: Option<ExprId>, default: u64) -> Option<u64>
    requires { IsTrue (end_fits scene.now.package.now e end) }
    ensures { result ≡ end_value (seen_from scene.now) default (end_in (tree_of scene.now.package.now) end) }
{
    match end {
        Some(i) => number(scene, i),
        None => Some(default),
    }
}

fn length_or_zero(span: Option<SliceSpan>) -> u64
    ensures { result ≡ count_or_zero (option_map span_seen span) }
{
    match span {
        Some(span) => span.end.saturating_sub(span.from),
        None => 0,
    }
}

fn part(span: Option<SliceSpan>, first: Option<u64>, last: Option<u64>) -> Option<SliceSpan>
    ensures { option_map span_seen result ≡ option_and_then (λ xs. option_and_then (λ i. option_and_then (part_of xs i) last) first) (option_map span_seen span) }
{
    match (span, first, last) {
        (Some(span), Some(i), Some(j)) => elements_between(span, i, j),
        (Some(_), Some(_), None) => None,
        (Some(_), None, _) => None,
        (None, _, _) => None,
    }
}

#[tactic(auto, using(crate::proofs::Spans::between))]
fn elements_between(span: SliceSpan, i: u64, j: u64) -> Option<SliceSpan>
    ensures { option_map span_seen result ≡ part_of (span_seen span) i j }
{
    if i <= j && j <= span.end.saturating_sub(span.from) {
        Some(SliceSpan {
            store: span.store,
            from: span.from + i,
            end: span.from + j,
        })
    } else {
        None
    }
}
