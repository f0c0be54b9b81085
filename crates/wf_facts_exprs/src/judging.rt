// The demands and the range of an expression, found together: each node is looked at once, and each fact at each node.
// The recursion goes as deep as brackets nest; the operands of a chain stand side by side.

ghost use Rattle.std.specs.Prelude.{◌≡◌, ◌≤◌, ◌<◌, ◌||◌, ◌&&◌, length, map, false, nat_eq, nat_lt, ◌+◌, ◌-◌, IsTrue, IfOk, None, Some, drop};
ghost use Rattle.std.specs.List.{list_all};
ghost use Rattle.wf_num.specs.Ranges.{IsSmall, fits_width};
ghost use Rattle.wf_ast.specs.TypedTree.{absent, asked, at_most, convert, cut, element, length_of, numeric, peek, present};
ghost use Rattle.wf_ast.specs.TypedTrees.{answer_of, chain_of, end_in, first_sign, io_in, num_type, place_of_node, signs_of_node, operator_kind, tree_of, type_of_node};
ghost use Rattle.wf_ast.specs.TypedInvariant.{chain_fits, has_kind, is_expr, is_tree_of};
ghost use Rattle.wf_ast.specs.NodeKinds.{is_number_at, gives_number, node_number, node_slice};
ghost use Rattle.wf_ast.specs.OperatorForms.{is_arithmetic};
ghost use Rattle.wf_base.specs.BaseTable.{bits_of, bytes_of, peek_width, row_of};
ghost use Rattle.wf_facts_exprs.specs.Knowledge.{IsKnown, told};
ghost use Rattle.wf_facts_exprs.specs.Claims.{claims_in, is_side, side_in};
ghost use Rattle.wf_facts_exprs.specs.RangeOf.{first_rule as by_first_rule, is_ordered, length_range as range_of_length, side_range, type_range as range_of_type};
ghost use Rattle.wf_facts_exprs.specs.Given.{second_rule as by_second_rule};
ghost use Rattle.wf_facts_exprs.specs.Demands.{demand as wanted, unless_refused};
ghost use Rattle.wf_facts_exprs.specs.Shapes.{is_measured};
ghost use Rattle.wf_facts_exprs.specs.Operands.{arith_of, end_fits, ends_fit, ends_refusal, is_difference, is_operator, judged, judged_slice, one_more, part_number, rule_of_length, ruled, variable_range, width_demand};

use crate::facts::{Cmp, Side};
use crate::given::{Ranged, first_rule, gives_ranged};
use crate::known::Known;
use crate::meeting::meet_facts;
use crate::operators::{demand, operand_demand, operator_range, subtracts};
use crate::shapes::{Measured, Shape, expr_shape, look_at, shape_of};
use wf_ast::{Expr, ExprId, Op, Ty, Typed};
use wf_base::{BaseSig, PeekForm, Width};
use wf_num::Range;
use wf_text::{Place, Refusal, Rule};

/// The range of a number whose demands are met, or the first demand that isn't.
#[cycle(judging)]
pub(crate) fn judge(t: &Typed, facts: &Known, e: ExprId) -> Result<Range, Refusal>
    requires known { IsKnown t.now facts.now }
    requires node { IsTrue (is_number_at t.now e) }
    ensures answer { result ≡ judged (claims_in t.now (told facts.now)) (node_number t.now e) }
    ensures small { IfOk result (λ r. IsSmall r) }
{
    let r = judge_rule(t, facts, e)?;
    close(t, e, meet_facts(t, facts, expr_shape(t, e), r))
}

// An operator has to lie in its width.
fn close(t: &Typed, e: ExprId, r: Range) -> Result<Range, Refusal>
    requires node { IsTrue (is_number_at t.now e) }
    requires small { is_operator (node_number t.now e) ≡ false → IsSmall r }
    ensures answer { result ≡ unless_refused (width_demand (node_number t.now e) r) r }
    ensures small { IfOk result (λ r. IsSmall r) }
{
    let expr = t.expr(e);
    match t.constant(e) {
        Some(_) => Ok(r),
        None => match expr {
            Expr::Chain { op, parts } => close_chain(t, e, *op, parts.as_slice(), r),
            Expr::Number(_) | Expr::Const(_) => unreachable!(),
            Expr::Status(_) | Expr::Truth(_) => unreachable!(),
            Expr::Local(_) => Ok(r),
            Expr::Field(_) => Ok(r),
            Expr::Arg(_) => Ok(r),
            Expr::Index { .. } => Ok(r),
            Expr::Cut { .. } | Expr::Not(_) => unreachable!(),
            Expr::Convert { .. } => Ok(r),
            Expr::Base { .. } => Ok(r),
        },
    }
}

fn close_chain(t: &Typed, e: ExprId, op: Op, parts: &[ExprId], r: Range) -> Result<Range, Refusal>
    requires node { IsTrue (is_number_at t.now e) }
    requires tree { tree_of t.now e ≡ chain_of (place_of_node t.now e.0) (signs_of_node t.now e.0) (type_of_node t.now e.0) (operator_kind op) (map (tree_of t.now) parts.now) }
    requires fits { IsTrue (chain_fits t.now (operator_kind op) parts.now (type_of_node t.now e.0)) }
    ensures answer { result ≡ unless_refused (width_demand (node_number t.now e) r) r }
    ensures small { IfOk result (λ r. IsSmall r) }
{
    let bits = width_of(t, e);
    if r.fits(bits) {
        Ok(r)
    } else {
        Err(Refusal {
            rule: Rule::B1,
            at: sign_of(t, e, parts.len() - 2),
        })
    }
}

// The bits of a number's type.
fn width_of(t: &Typed, e: ExprId) -> u32
    requires { IsTrue (is_number_at t.now e) }
    ensures bits { result ≡ (num_type (type_of_node t.now e.0)).bits }
    ensures few { result ≤ 64 }
{
    match t.type_of(e) {
        Ty::Num { width, .. } => bits_in(width),
        Ty::Flag | Ty::Status | Ty::Reader | Ty::Writer => unreachable!(),
        Ty::Slice(_) | Ty::Array { .. } | Ty::Part(_) => unreachable!(),
    }
}

fn bits_in(width: Width) -> u32
    ensures bits { result ≡ bits_of width }
    ensures few { result ≤ 64 }
{
    match width {
        Width::W8 => 8,
        Width::W16 => 16,
        Width::W32 => 32,
        Width::W64 => 64,
    }
}

// The place of an operator's sign, from 0; of a chain that has fewer, its own.
fn sign_of(t: &Typed, e: ExprId, i: usize) -> Place
    requires { e.0 < length t.now.exprs }
    ensures { result ≡ first_sign (place_of_node t.now e.0) (drop i (signs_of_node t.now e.0)) }
{
    first_place(t.expr_place(e), t.signs(e), i)
}

fn first_place(at: Place, signs: &[Place], i: usize) -> Place
    ensures { result ≡ first_sign at (drop i signs.now) }
{
    if i < signs.len() { signs[i] } else { at }
}

// The range of an expression's rule where its demands are met, but for that of its own width.
#[cycle(judging)]
fn judge_rule(t: &Typed, facts: &Known, e: ExprId) -> Result<Range, Refusal>
    requires known { IsKnown t.now facts.now }
    requires node { IsTrue (is_number_at t.now e) }
    ensures answer { result ≡ ruled (claims_in t.now (told facts.now)) (node_number t.now e) }
    ensures small { is_operator (node_number t.now e) ≡ false → IfOk result (λ r. IsSmall r) }
{
    let expr = t.expr(e);
    match t.constant(e) {
        Some(n) => Ok(Range::exactly(n)),
        None => match expr {
            Expr::Local(_) => Ok(type_range(t, e)),
            Expr::Field(_) => Ok(type_range(t, e)),
            Expr::Arg(_) => Ok(type_range(t, e)),
            Expr::Index { base, at } => judge_element(t, facts, e, *base, *at),
            Expr::Chain { op, parts } => judge_chain(t, facts, e, *op, parts.as_slice()),
            Expr::Convert { of, to } => judge_convert(t, facts, e, *of, *to),
            Expr::Base { on, sig } => judge_answer(t, facts, e, *on, *sig),
            Expr::Number(_) | Expr::Const(_) => unreachable!(),
            Expr::Status(_) | Expr::Truth(_) => unreachable!(),
            Expr::Cut { .. } | Expr::Not(_) => unreachable!(),
        },
    }
}

// All numbers of a number's type.
fn type_range(t: &Typed, e: ExprId) -> Range
    requires { IsTrue (is_number_at t.now e) }
    ensures range { result ≡ range_of_type (num_type (type_of_node t.now e.0)) }
    ensures small { IsSmall result }
{
    match t.type_of(e) {
        Ty::Num { lo, hi, .. } => Range {
            lo: lo as i128,
            hi: hi as u128,
        },
        Ty::Flag | Ty::Status | Ty::Reader | Ty::Writer => unreachable!(),
        Ty::Slice(_) | Ty::Array { .. } | Ty::Part(_) => unreachable!(),
    }
}

#[cycle(judging)]
fn judge_element(
    t: &Typed,
    facts: &Known,
    e: ExprId,
    base: ExprId,
    at: ExprId,
) -> Result<Range, Refusal>
    requires known { IsKnown t.now facts.now }
    requires node { IsTrue (is_number_at t.now e) }
    requires tree { tree_of t.now e ≡ numeric (element (place_of_node t.now e.0) (num_type (type_of_node t.now e.0)) (node_slice t.now base) (node_number t.now at)) }
    requires base { IsTrue (is_measured t.now Measured.Elements base) }
    requires at { IsTrue (is_number_at t.now at) }
    requires base_below { base.0 < e.0 }
    requires at_below { at.0 < e.0 }
    ensures answer { result ≡ ruled (claims_in t.now (told facts.now)) (node_number t.now e) }
    ensures small { IfOk result (λ r. IsSmall r) }
{
    judge_slice(t, facts, base)?;
    let range = judge(t, facts, at)?;
    let index = Ranged {
        side: Side::Expr(at),
        range,
    };
    if gives_ranged(t, facts, index, Cmp::Lt, length_side(t, facts, base)) {
        Ok(type_range(t, e))
    } else {
        Err(Refusal {
            rule: Rule::B2,
            at: t.expr_place(e),
        })
    }
}

// A length with its range.
pub(crate) fn length_side(t: &Typed, facts: &Known, on: ExprId) -> Ranged
    requires known { IsKnown t.now facts.now }
    requires on { IsTrue (is_side t.now (Side.Length on)) }
    ensures side { result.side ≡ Side.Length on }
    ensures range { result.range ≡ side_range (claims_in t.now (told facts.now)) (side_in t.now (Side.Length on)) }
    ensures small { IsSmall result.range }
    ensures kind { IsTrue (is_tree_of (type_of_node t.now on.0) (tree_of t.now on)) }
{
    look_at(t, on);
    let side = Side::Length(on);
    let range = meet_facts(t, facts, shape_of(t, side), length_rule(t, on));
    Ranged { side, range }
}

// The range of a length by its rule: of an array its number of elements.
fn length_rule(t: &Typed, on: ExprId) -> Range
    requires { IsTrue (is_side t.now (Side.Length on)) }
    ensures range { result ≡ rule_of_length t.now on }
    ensures small { IsSmall result }
{
    match t.type_of(on) {
        Ty::Slice(_) | Ty::Array { .. } => elements_rule(t, on),
        Ty::Reader | Ty::Writer => Range::of_bits(64),
        Ty::Num { .. } | Ty::Flag | Ty::Status | Ty::Part(_) => unreachable!(),
    }
}

fn elements_rule(t: &Typed, on: ExprId) -> Range
    requires { IsTrue (is_measured t.now Measured.Elements on) }
    ensures range { result ≡ range_of_length (node_slice t.now on) }
    ensures small { IsSmall result }
{
    let expr = t.expr(on);
    match t.constant(on) {
        Some(_) => unreachable!(),
        None => match expr {
            Expr::Local(_) => variable_rule(t, on),
            Expr::Field(_) => variable_rule(t, on),
            Expr::Arg(_) => variable_rule(t, on),
            Expr::Cut { .. } => Range::of_bits(64),
            Expr::Number(_) | Expr::Const(_) | Expr::Status(_) => unreachable!(),
            Expr::Truth(_) | Expr::Index { .. } | Expr::Chain { .. } => unreachable!(),
            Expr::Convert { .. } | Expr::Not(_) | Expr::Base { .. } => unreachable!(),
        },
    }
}

fn variable_rule(t: &Typed, on: ExprId) -> Range
    requires { IsTrue (is_measured t.now Measured.Elements on) }
    ensures range { result ≡ variable_range (type_of_node t.now on.0) }
    ensures small { IsSmall result }
{
    match t.type_of(on) {
        Ty::Array { len, .. } => Range::exactly(len as u64),
        Ty::Slice(_) => Range::of_bits(64),
        Ty::Num { .. } | Ty::Flag | Ty::Status => unreachable!(),
        Ty::Reader | Ty::Writer | Ty::Part(_) => unreachable!(),
    }
}

#[cycle(judging)]
fn judge_convert(
    t: &Typed,
    facts: &Known,
    e: ExprId,
    of: ExprId,
    to: Width,
) -> Result<Range, Refusal>
    requires known { IsKnown t.now facts.now }
    requires node { IsTrue (is_number_at t.now e) }
    requires tree { tree_of t.now e ≡ numeric (convert (place_of_node t.now e.0) (first_sign (place_of_node t.now e.0) (signs_of_node t.now e.0)) (bits_of to) (node_number t.now of)) }
    requires of { IsTrue (is_number_at t.now of) }
    requires below { of.0 < e.0 }
    ensures answer { result ≡ ruled (claims_in t.now (told facts.now)) (node_number t.now e) }
    ensures small { IfOk result (λ r. IsSmall r) }
{
    let range = judge(t, facts, of)?;
    if range.fits(bits_in(to)) {
        Ok(range)
    } else {
        Err(Refusal {
            rule: Rule::B1,
            at: sign_of(t, e, 0),
        })
    }
}

// What a base method answers.
#[cycle(judging)]
fn judge_answer(
    t: &Typed,
    facts: &Known,
    e: ExprId,
    on: ExprId,
    sig: BaseSig,
) -> Result<Range, Refusal>
    requires known { IsKnown t.now facts.now }
    requires node { IsTrue (is_number_at t.now e) }
    requires tree { tree_of t.now e ≡ answer_of (place_of_node t.now e.0) sig (tree_of t.now on) }
    requires kind { IsTrue (has_kind (row_of sig).on (type_of_node t.now on.0)) }
    requires number { IsTrue (gives_number sig) }
    requires on { IsTrue (is_expr t.now on) }
    requires below { on.0 < e.0 }
    ensures answer { result ≡ ruled (claims_in t.now (told facts.now)) (node_number t.now e) }
    ensures small { IfOk result (λ r. IsSmall r) }
{
    match sig {
        BaseSig::SliceLength(_) => judge_length(t, facts, e, on),
        BaseSig::ArrayLength(_) => judge_length(t, facts, e, on),
        BaseSig::ReaderLength => Ok(Range::of_bits(64)),
        BaseSig::ReaderPosition => Ok(Range::of_bits(64)),
        BaseSig::WriterLength => Ok(Range::of_bits(64)),
        BaseSig::WriterPosition => Ok(Range::of_bits(64)),
        BaseSig::Peek(form) => judge_peek(t, facts, e, on, form),
        BaseSig::ReaderIsClosed | BaseSig::Read(_) | BaseSig::Skip => unreachable!(),
        BaseSig::SkipFast | BaseSig::Write | BaseSig::WriteFast => unreachable!(),
        BaseSig::WriterCopy | BaseSig::SliceCopy(_) | BaseSig::IsOk => unreachable!(),
        BaseSig::IsNote | BaseSig::IsSuspension | BaseSig::IsError => unreachable!(),
    }
}

#[cycle(judging)]
fn judge_length(t: &Typed, facts: &Known, e: ExprId, on: ExprId) -> Result<Range, Refusal>
    requires known { IsKnown t.now facts.now }
    requires node { IsTrue (is_number_at t.now e) }
    requires tree { tree_of t.now e ≡ numeric (length_of (place_of_node t.now e.0) (node_slice t.now on)) }
    requires on { IsTrue (is_measured t.now Measured.Elements on) }
    requires below { on.0 < e.0 }
    ensures answer { result ≡ ruled (claims_in t.now (told facts.now)) (node_number t.now e) }
    ensures small { IfOk result (λ r. IsSmall r) }
{
    judge_slice(t, facts, on)?;
    Ok(elements_rule(t, on))
}

// A peek needs its bytes.
fn judge_peek(
    t: &Typed,
    facts: &Known,
    e: ExprId,
    on: ExprId,
    form: PeekForm,
) -> Result<Range, Refusal>
    requires known { IsKnown t.now facts.now }
    requires node { IsTrue (is_number_at t.now e) }
    requires tree { tree_of t.now e ≡ numeric (asked (place_of_node t.now e.0) (peek form) (io_in (tree_of t.now on))) }
    requires on { IsTrue (is_expr t.now on) }
    requires kind { type_of_node t.now on.0 ≡ Ty.Reader }
    ensures answer { result ≡ ruled (claims_in t.now (told facts.now)) (node_number t.now e) }
    ensures small { IfOk result (λ r. IsSmall r) }
{
    let n = bytes_in(form);
    let bytes = Ranged {
        side: Side::Num(n),
        range: number_range(t, facts, n),
    };
    if gives_ranged(t, facts, length_side(t, facts, on), Cmp::Ge, bytes) {
        Ok(Range::of_bits(bits_in(form.width())))
    } else {
        Err(Refusal {
            rule: Rule::B9,
            at: t.expr_place(e),
        })
    }
}

fn bytes_in(form: PeekForm) -> u64
    ensures { result ≡ bytes_of (peek_width form) }
{
    match form {
        PeekForm::PeekU8 => 1,
        PeekForm::PeekU16Le => 2,
        PeekForm::PeekU32Le => 4,
    }
}

// The range of a number.
pub(crate) fn number_range(t: &Typed, facts: &Known, n: u64) -> Range
    requires known { IsKnown t.now facts.now }
    ensures range { result ≡ side_range (claims_in t.now (told facts.now)) (side_in t.now (Side.Num n)) }
    ensures small { IsSmall result }
{
    meet_facts(t, facts, Shape::Number(n as u128), Range::exactly(n))
}

/// A slice whose demands are met, or the first demand that isn't.
#[cycle(judging)]
pub(crate) fn judge_slice(t: &Typed, facts: &Known, e: ExprId) -> Result<(), Refusal>
    requires known { IsKnown t.now facts.now }
    requires node { IsTrue (is_measured t.now Measured.Elements e) }
    ensures answer { result ≡ judged_slice (claims_in t.now (told facts.now)) (node_slice t.now e) }
{
    let expr = t.expr(e);
    match t.constant(e) {
        Some(_) => unreachable!(),
        None => match expr {
            Expr::Local(_) => Ok(()),
            Expr::Field(_) => Ok(()),
            Expr::Arg(_) => Ok(()),
            Expr::Cut { base, from, to } => judge_cut(t, facts, e, *base, *from, *to),
            Expr::Number(_) | Expr::Const(_) | Expr::Status(_) => unreachable!(),
            Expr::Truth(_) | Expr::Index { .. } | Expr::Chain { .. } => unreachable!(),
            Expr::Convert { .. } | Expr::Not(_) | Expr::Base { .. } => unreachable!(),
        },
    }
}

#[cycle(judging)]
fn judge_cut(
    t: &Typed,
    facts: &Known,
    e: ExprId,
    base: ExprId,
    from: Option<ExprId>,
    to: Option<ExprId>,
) -> Result<(), Refusal>
    requires known { IsKnown t.now facts.now }
    requires node { IsTrue (is_measured t.now Measured.Elements e) }
    requires tree { node_slice t.now e ≡ cut (place_of_node t.now e.0) (node_slice t.now base) (end_in (tree_of t.now) from) (end_in (tree_of t.now) to) }
    requires base { IsTrue (is_measured t.now Measured.Elements base) }
    requires ends { IsTrue (ends_fit t.now e from to) }
    requires below { base.0 < e.0 }
    ensures answer { result ≡ judged_slice (claims_in t.now (told facts.now)) (node_slice t.now e) }
{
    judge_slice(t, facts, base)?;
    match (from, to) {
        (None, None) => Ok(()),
        (Some(i), None) => judge_from(t, facts, e, base, i),
        (None, Some(j)) => judge_up_to(t, facts, e, base, j),
        (Some(i), Some(j)) => judge_between(t, facts, e, base, i, j),
    }
}

// The ends of a slice, one of which is absent, and both.

#[cycle(judging)]
fn judge_from(t: &Typed, facts: &Known, e: ExprId, base: ExprId, i: ExprId) -> Result<(), Refusal>
    requires known { IsKnown t.now facts.now }
    requires base { IsTrue (is_measured t.now Measured.Elements base) }
    requires end { IsTrue (end_fits t.now e i) }
    requires here { e.0 < length t.now.exprs }
    ensures answer { result ≡ unless_refused (ends_refusal (claims_in t.now (told facts.now)) (place_of_node t.now e.0) (node_slice t.now base) (present (node_number t.now i)) absent) tt }
{
    let range = judge(t, facts, i)?;
    let first = Ranged {
        side: Side::Expr(i),
        range,
    };
    ordered_ends(t, facts, e, first, length_side(t, facts, base))
}

// Whether an end is at most what it has to be.
fn ordered_ends(
    t: &Typed,
    facts: &Known,
    e: ExprId,
    first: Ranged,
    last: Ranged,
) -> Result<(), Refusal>
    requires known { IsKnown t.now facts.now }
    requires first { IsTrue (is_side t.now first.side) }
    requires last { IsTrue (is_side t.now last.side) }
    requires here { e.0 < length t.now.exprs }
    ensures answer { result ≡ unless_refused (wanted (by_first_rule (claims_in t.now (told facts.now)) (side_in t.now first.side) at_most (side_in t.now last.side)
        || by_second_rule at_most first.range last.range) Rule.B3 (place_of_node t.now e.0)) tt }
{
    demand(
        gives_ranged(t, facts, first, Cmp::Le, last),
        Rule::B3,
        t.expr_place(e),
    )
}

#[cycle(judging)]
fn judge_up_to(t: &Typed, facts: &Known, e: ExprId, base: ExprId, j: ExprId) -> Result<(), Refusal>
    requires known { IsKnown t.now facts.now }
    requires base { IsTrue (is_measured t.now Measured.Elements base) }
    requires end { IsTrue (end_fits t.now e j) }
    requires here { e.0 < length t.now.exprs }
    ensures answer { result ≡ unless_refused (ends_refusal (claims_in t.now (told facts.now)) (place_of_node t.now e.0) (node_slice t.now base) absent (present (node_number t.now j))) tt }
{
    let range = judge(t, facts, j)?;
    let last = Ranged {
        side: Side::Expr(j),
        range,
    };
    let zero = Ranged {
        side: Side::Num(0),
        range: number_range(t, facts, 0),
    };
    ordered_ends(t, facts, e, zero, last)?;
    ordered_ends(t, facts, e, last, length_side(t, facts, base))
}

#[cycle(judging)]
fn judge_between(
    t: &Typed,
    facts: &Known,
    e: ExprId,
    base: ExprId,
    i: ExprId,
    j: ExprId,
) -> Result<(), Refusal>
    requires known { IsKnown t.now facts.now }
    requires base { IsTrue (is_measured t.now Measured.Elements base) }
    requires first { IsTrue (end_fits t.now e i) }
    requires last { IsTrue (end_fits t.now e j) }
    requires here { e.0 < length t.now.exprs }
    ensures answer { result ≡ unless_refused (ends_refusal (claims_in t.now (told facts.now)) (place_of_node t.now e.0) (node_slice t.now base) (present (node_number t.now i)) (present (node_number t.now j))) tt }
{
    let range = judge(t, facts, i)?;
    let first = Ranged {
        side: Side::Expr(i),
        range,
    };
    let range = judge(t, facts, j)?;
    let last = Ranged {
        side: Side::Expr(j),
        range,
    };
    ordered_ends(t, facts, e, first, last)?;
    ordered_ends(t, facts, e, last, length_side(t, facts, base))
}

/// An operator with its right operand's place in the chain.
#[derive(Clone, Copy)]
struct Link {
    op: Op,
    bits: u32,
    sign: Place,
    ordered: bool,
    last: bool,
}

// A chain, from the left.
#[cycle(judging)]
fn judge_chain(
    t: &Typed,
    facts: &Known,
    e: ExprId,
    op: Op,
    parts: &[ExprId],
) -> Result<Range, Refusal>
    requires known { IsKnown t.now facts.now }
    requires node { IsTrue (is_number_at t.now e) }
    requires tree { tree_of t.now e ≡ chain_of (place_of_node t.now e.0) (signs_of_node t.now e.0) (type_of_node t.now e.0) (operator_kind op) (map (tree_of t.now) parts.now) }
    requires fits { IsTrue (chain_fits t.now (operator_kind op) parts.now (type_of_node t.now e.0)) }
    requires below { IsTrue (list_all (λ p. nat_lt p.0 e.0) parts.now) }
    requires arithmetic { IsTrue (is_arithmetic (operator_kind op)) }
    requires numbers { IsTrue (list_all (is_number_at t.now) parts.now) }
    ensures answer { result ≡ ruled (claims_in t.now (told facts.now)) (node_number t.now e) }
{
    let mut r = judge(t, facts, parts[0])?;
    for i in 1..parts.len() {
        r = judge_next(t, facts, link_at(t, facts, e, op, parts, i), parts[i], r)?;
    }
    Ok(r)
}

// The operator before an operand.
fn link_at(t: &Typed, facts: &Known, e: ExprId, op: Op, parts: &[ExprId], i: usize) -> Link
    requires known { IsKnown t.now facts.now }
    requires node { IsTrue (is_number_at t.now e) }
    requires numbers { IsTrue (list_all (is_number_at t.now) parts.now) }
    requires place { 1 ≤ i }
    requires within { i < length parts.now }
    ensures op { result.op ≡ op }
    ensures bits { result.bits ≡ (num_type (type_of_node t.now e.0)).bits }
    ensures few { result.bits ≤ 64 }
    ensures sign { result.sign ≡ first_sign (place_of_node t.now e.0) (drop (i - 1) (signs_of_node t.now e.0)) }
    ensures ordered { result.ordered ≡ (is_difference (arith_of op) && is_ordered (claims_in t.now (told facts.now)) (nat_lt 1 i) (part_number t.now parts.now 0) (part_number t.now parts.now i)) }
    ensures last { result.last ≡ nat_eq (i + 1) (length parts.now) }
{
    Link {
        op,
        bits: width_of(t, e),
        sign: sign_of(t, e, i - 1),
        ordered: subtracts(op) && is_ordered_by_facts(t, facts, parts, i),
        last: i + 1 == parts.len(),
    }
}

// Whether the facts give that the second operand is at most the first; a later operand is joined to a part.
fn is_ordered_by_facts(t: &Typed, facts: &Known, parts: &[ExprId], i: usize) -> bool
    requires known { IsKnown t.now facts.now }
    requires numbers { IsTrue (list_all (is_number_at t.now) parts.now) }
    requires place { 1 ≤ i }
    requires within { i < length parts.now }
    ensures { result ≡ is_ordered (claims_in t.now (told facts.now)) (nat_lt 1 i) (part_number t.now parts.now 0) (part_number t.now parts.now i) }
{
    if 1 < i {
        false
    } else {
        first_rule(
            t,
            facts,
            Side::Expr(parts[i]),
            Cmp::Le,
            Side::Expr(parts[0]),
        )
    }
}

// One more operand.
#[cycle(judging)]
fn judge_next(
    t: &Typed,
    facts: &Known,
    link: Link,
    part: ExprId,
    r: Range,
) -> Result<Range, Refusal>
    requires known { IsKnown t.now facts.now }
    requires part { IsTrue (is_number_at t.now part) }
    requires arithmetic { IsTrue (is_arithmetic (operator_kind link.op)) }
    requires width { link.bits ≤ 64 }
    requires left { IsSmall r }
    ensures answer { result ≡ one_more (claims_in t.now (told facts.now)) (arith_of link.op) link.bits link.sign link.ordered link.last r (node_number t.now part) }
    ensures small { link.last ≡ false → IfOk result (λ r. IsSmall r) }
{
    let operand = judge(t, facts, part)?;
    operand_demand(link.op, link.bits, link.sign, operand)?;
    let next = operator_range(link.op, link.bits, link.ordered, r, operand);
    if lies_in(link, next) {
        Ok(next)
    } else {
        Err(Refusal {
            rule: Rule::B1,
            at: link.sign,
        })
    }
}

// Whether a part lies in its width; the whole chain is met with the facts first.
fn lies_in(link: Link, r: Range) -> bool
    requires { link.bits ≤ 64 }
    ensures { result ≡ (link.last || fits_width r link.bits) }
{
    link.last || r.fits(link.bits)
}
