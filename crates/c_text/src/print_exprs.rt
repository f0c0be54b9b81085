// Prints types and expressions. The links of `a->b[i]->c`, which no bracket bounds, are no calls in calls.

ghost use Rattle.std.specs.Prelude.{◌≡◌, ◌<◌, ◌≤◌, ◌+◌, ◌++◌, Some, None, MatchOption, length, codes, decimal};
ghost use Rattle.c_text.specs.CNodes.{bytes_at, type_in, args_in, operands_in, expr_of};
ghost use Rattle.c_text.specs.CFits.{HasType, HasExprs, HasArg, HasArgs, HasCall};
ghost use Rattle.c_text.specs.CSpelling.{op_bytes, literal_bytes};
ghost use Rattle.c_text.specs.CLayout.{uint_bytes, unary_bytes, type_text, expr_text, operands_text, args_text, more_args_text, call_text};
ghost use Rattle.c_text.specs.CLines.{arg_text};
ghost use Rattle.c_text.specs.CLinks.{front_of, link_count, without_links, link_text, links_text};
ghost use Rattle.c_text.specs.CTree.{choice as choice_tree, operation as operation_tree};

use crate::ids::CExprId;
use crate::kinds::{CNumber, COp, CUint, CUnary};
use crate::nodes::{CArg, CCall, CExpr, CType};
use crate::unit::Unit;
use pens::Pen;
use wf_text::number_text;

/// Prints a number of any length in decimal digits.
#[inline(never)]
fn long_number<P: Pen>(n: u64, pen: &mut P)
    requires { P.ready pen.old }
    ensures ready { P.ready pen.new }
    ensures writes { P.writes pen.old pen.new (decimal n) }
{
    let mut digits = [0u8; 20];
    let count = number_text(n, &mut digits);
    pen.write(&digits[..count]);
}

/// The digit of a number below 10.
#[inline]
fn digit(n: u64) -> u8
    requires { n < 10 }
    ensures { result ≡ 48 + n }
{
    48 + n as u8
}

/// Prints a number in decimal digits; most have one.
#[inline]
fn decimal_number<P: Pen>(n: u64, pen: &mut P)
    requires { P.ready pen.old }
    ensures ready { P.ready pen.new }
    ensures writes { P.writes pen.old pen.new (decimal n) }
{
    if n < 10 {
        pen.write(&[digit(n)]);
    } else {
        long_number(n, pen);
    }
}

#[inline]
pub(crate) fn literal<P: Pen>(n: CNumber, pen: &mut P)
    requires { P.ready pen.old }
    ensures ready { P.ready pen.new }
    ensures writes { P.writes pen.old pen.new (literal_bytes n) }
{
    match n {
        CNumber::Int(value) => decimal_number(u64::from(value), pen),
        CNumber::Unsigned(value) => {
            decimal_number(u64::from(value), pen);
            pen.write(b"u");
        }
        CNumber::Long(value) => {
            decimal_number(value, pen);
            pen.write(b"ull");
        }
    }
}

/// An operator with a space on both sides.
fn spaced_spelling(op: COp) -> &'static [u8]
    ensures { result.now ≡ codes " " ++ op_bytes op ++ codes " " }
{
    match op {
        COp::Add => b" + ",
        COp::Sub => b" - ",
        COp::Mul => b" * ",
        COp::Div => b" / ",
        COp::Rem => b" % ",
        COp::Shl => b" << ",
        COp::Shr => b" >> ",
        COp::BitAnd => b" & ",
        COp::BitOr => b" | ",
        COp::BitXor => b" ^ ",
        COp::Lt => b" < ",
        COp::Le => b" <= ",
        COp::Gt => b" > ",
        COp::Ge => b" >= ",
        COp::Eq => b" == ",
        COp::Ne => b" != ",
        COp::Both => b" && ",
        COp::Either => b" || ",
    }
}

fn unary_front(op: CUnary) -> &'static [u8]
    ensures { result.now ≡ unary_bytes op }
{
    match op {
        CUnary::Not => b"(!",
        CUnary::Complement => b"(~",
        CUnary::Address => b"(&",
    }
}

/// Prints an unsigned type.
fn uint_type<P: Pen>(kind: CUint, pen: &mut P)
    requires { P.ready pen.old }
    ensures ready { P.ready pen.new }
    ensures writes { P.writes pen.old pen.new (uint_bytes kind) }
{
    match kind {
        CUint::U8 => pen.write(b"uint8_t"),
        CUint::U16 => pen.write(b"uint16_t"),
        CUint::U32 => pen.write(b"uint32_t"),
        CUint::U64 => pen.write(b"uint64_t"),
    }
}

pub(crate) fn value_type<P: Pen>(u: &Unit, kind: CType, pen: &mut P)
    requires has { HasType u.now kind }
    requires ready { P.ready pen.old }
    ensures ready { P.ready pen.new }
    ensures writes { P.writes pen.old pen.new (type_text (type_in u.now.names kind)) }
{
    match kind {
        CType::Uint(uint) => uint_type(uint, pen),
        CType::Size => pen.write(b"size_t"),
        CType::Bool => pen.write(b"_Bool"),
        CType::UintPointer(uint) => {
            uint_type(uint, pen);
            pen.write(b"*");
        }
        CType::StructPointer(name) => {
            pen.write(u.name(name));
            pen.write(b"*");
        }
        CType::Text => pen.write(b"const char*"),
    }
}

/// The operator and the two operands that each operation has.
#[derive(Clone, Copy)]
struct FirstOperands {
    op: COp,
    first: CExprId,
    second: CExprId,
}

/// Prints an operator with a space on both sides.
fn spaced_op<P: Pen>(op: COp, pen: &mut P)
    requires { P.ready pen.old }
    ensures ready { P.ready pen.new }
    ensures writes { P.writes pen.old pen.new (codes " " ++ op_bytes op ++ codes " ") }
{
    pen.write(spaced_spelling(op));
}

/// What stands before the last link of an expression; None where the expression is one link.
fn front(u: &Unit, e: CExprId) -> Option<CExprId>
    requires { e.0 < length u.now.exprs }
    ensures { MatchOption result (front_of (expr_of u.now e.0) ≡ None) (λ of. (of.0 < e.0) × (front_of (expr_of u.now e.0) ≡ Some (expr_of u.now of.0))) }
{
    match u.expr(e) {
        CExpr::Number(_) => None,
        CExpr::Name(_) => None,
        CExpr::Member { of, .. } => Some(*of),
        CExpr::Index { of, .. } => Some(*of),
        CExpr::Deref(_) => None,
        CExpr::Operation { .. } => None,
        CExpr::Unary { .. } => None,
        CExpr::Cast { .. } => None,
        CExpr::Choice { .. } => None,
        CExpr::Call(_) => None,
    }
}

/// The number of links of an expression.
fn count_links(u: &Unit, e: CExprId) -> usize
    requires { e.0 < length u.now.exprs }
    ensures some { 0 < result }
    ensures counted { result ≡ link_count (expr_of u.now e.0) }
{
    let _most = u.exprs();
    let mut at = e;
    let mut count = 1;
    while let Some(of) = front(u, at) {
        at = of;
        count += 1;
    }
    count
}

/// What is left of an expression without its last `count` links.
fn before_links(u: &Unit, e: CExprId, count: usize) -> CExprId
    requires has { e.0 < length u.now.exprs }
    requires more { count < link_count (expr_of u.now e.0) }
    ensures below { result.0 + count ≤ e.0 }
    ensures is { expr_of u.now result.0 ≡ without_links (expr_of u.now e.0) count }
    ensures links { link_count (expr_of u.now result.0) + count ≡ link_count (expr_of u.now e.0) }
{
    let mut at = e;
    let mut left = count;
    while left > 0 {
        let Some(of) = front(u, at) else {
            unreachable!()
        };
        at = of;
        left -= 1;
    }
    at
}

/// Prints an expression. Most are a number or a name.
#[cycle(print_exprs)]
pub(crate) fn expr<P: Pen>(u: &Unit, e: CExprId, pen: &mut P)
    requires has { e.0 < length u.now.exprs }
    requires ready { P.ready pen.old }
    ensures ready { P.ready pen.new }
    ensures writes { P.writes pen.old pen.new (expr_text (expr_of u.now e.0)) }
{
    match u.expr(e) {
        CExpr::Number(n) => literal(*n, pen),
        CExpr::Name(n) => pen.write(u.name(*n)),
        _ => any_expr(u, e, pen),
    }
}

/// Prints an expression of any form.
#[cycle(print_exprs)]
fn any_expr<P: Pen>(u: &Unit, e: CExprId, pen: &mut P)
    requires has { e.0 < length u.now.exprs }
    requires ready { P.ready pen.old }
    ensures ready { P.ready pen.new }
    ensures writes { P.writes pen.old pen.new (expr_text (expr_of u.now e.0)) }
{
    match front(u, e) {
        None => link(u, e, pen),
        Some(of) => chain(u, of, e, pen),
    }
}

/// Prints an expression whose last link stands behind `of`. A name with one link behind it is printed as it stands.
#[cycle(print_exprs)]
fn chain<P: Pen>(u: &Unit, of: CExprId, whole: CExprId, pen: &mut P)
    requires has { whole.0 < length u.now.exprs }
    requires before { of.0 < whole.0 }
    requires front { front_of (expr_of u.now whole.0) ≡ Some (expr_of u.now of.0) }
    requires ready { P.ready pen.old }
    ensures ready { P.ready pen.new }
    ensures writes { P.writes pen.old pen.new (expr_text (expr_of u.now whole.0)) }
{
    match u.expr(of) {
        CExpr::Name(n) => {
            pen.write(u.name(*n));
            link(u, whole, pen);
        }
        _ => links(u, whole, count_links(u, whole), pen),
    }
}

/// Prints the last `count` links of an expression, the first half of them before the others. So the links that are
/// printed first are found without memory; calls in calls are as many as halvings, and n links take n log n steps.
#[cycle(print_exprs)]
fn links<P: Pen>(u: &Unit, e: CExprId, count: usize, pen: &mut P)
    requires has { e.0 < length u.now.exprs }
    requires some { 0 < count }
    requires within { count ≤ link_count (expr_of u.now e.0) }
    requires ready { P.ready pen.old }
    ensures ready { P.ready pen.new }
    ensures writes { P.writes pen.old pen.new (links_text (expr_of u.now e.0) count) }
{
    let mut left = count;
    while left > 1 {
        let half = left / 2;
        let middle = before_links(u, e, half);
        links(u, middle, left - half, pen);
        left = half;
    }
    link(u, e, pen);
}

/// Prints the last link of an expression.
#[cycle(print_exprs)]
fn link<P: Pen>(u: &Unit, e: CExprId, pen: &mut P)
    requires has { e.0 < length u.now.exprs }
    requires ready { P.ready pen.old }
    ensures ready { P.ready pen.new }
    ensures writes { P.writes pen.old pen.new (link_text (expr_of u.now e.0)) }
{
    match u.expr(e) {
        CExpr::Number(n) => literal(*n, pen),
        CExpr::Name(n) => pen.write(u.name(*n)),
        CExpr::Member { field, .. } => {
            pen.write(b"->");
            pen.write(u.name(*field));
        }
        CExpr::Index { at, .. } => {
            pen.write(b"[");
            expr(u, *at, pen);
            pen.write(b"]");
        }
        CExpr::Deref(of) => {
            pen.write(b"(*");
            expr(u, *of, pen);
            pen.write(b")");
        }
        CExpr::Operation {
            op,
            first,
            second,
            others,
        } => {
            let front = FirstOperands {
                op: *op,
                first: *first,
                second: *second,
            };
            operation(u, e.0, front, others.as_slice(), pen);
        }
        CExpr::Unary { op, of } => {
            pen.write(unary_front(*op));
            expr(u, *of, pen);
            pen.write(b")");
        }
        CExpr::Cast { to, of } => {
            pen.write(b"((");
            value_type(u, *to, pen);
            pen.write(b")");
            expr(u, *of, pen);
            pen.write(b")");
        }
        CExpr::Choice { test, met, unmet } => choice(u, e.0, (*test, *met, *unmet), pen),
        CExpr::Call(called) => {
            pen.write(b"(");
            call(u, e.0, called, pen);
            pen.write(b")");
        }
    }
}

/// Prints `(test ? met : unmet)`, whose parts have numbers below `below`.
#[cycle(print_exprs)]
fn choice<P: Pen>(u: &Unit, below: usize, parts: (CExprId, CExprId, CExprId), pen: &mut P)
    requires below { below ≤ length u.now.exprs }
    requires test { parts.0.0 < below }
    requires met { parts.1.0 < below }
    requires unmet { parts.2.0 < below }
    requires ready { P.ready pen.old }
    ensures ready { P.ready pen.new }
    ensures writes { P.writes pen.old pen.new (expr_text (choice_tree (expr_of u.now parts.0.0) (expr_of u.now parts.1.0) (expr_of u.now parts.2.0))) }
{
    pen.write(b"(");
    expr(u, parts.0, pen);
    pen.write(b" ? ");
    expr(u, parts.1, pen);
    pen.write(b" : ");
    expr(u, parts.2, pen);
    pen.write(b")");
}

/// Prints `(first op second op others)`, whose operands have numbers below `below`.
#[cycle(print_exprs)]
fn operation<P: Pen>(u: &Unit, below: usize, front: FirstOperands, others: &[CExprId], pen: &mut P)
    requires below { below ≤ length u.now.exprs }
    requires first { front.first.0 < below }
    requires second { front.second.0 < below }
    requires others { HasExprs below others.now }
    requires ready { P.ready pen.old }
    ensures ready { P.ready pen.new }
    ensures writes { P.writes pen.old pen.new (expr_text (operation_tree front.op (expr_of u.now front.first.0) (expr_of u.now front.second.0) (operands_in (expr_of u.now) others.now))) }
{
    pen.write(b"(");
    expr(u, front.first, pen);
    spaced_op(front.op, pen);
    expr(u, front.second, pen);
    operands(u, below, front.op, others, pen);
    pen.write(b")");
}

/// Prints further operands, each after its operator.
#[cycle(print_exprs)]
fn operands<P: Pen>(u: &Unit, below: usize, op: COp, others: &[CExprId], pen: &mut P)
    requires below { below ≤ length u.now.exprs }
    requires others { HasExprs below others.now }
    requires ready { P.ready pen.old }
    ensures ready { P.ready pen.new }
    ensures writes { P.writes pen.old pen.new (operands_text (operands_in (expr_of u.now) others.now) op) }
{
    for other in others {
        spaced_op(op, pen);
        expr(u, *other, pen);
    }
}

/// Prints a call without parentheses round it, whose arguments have numbers below `below`.
#[cycle(print_exprs)]
pub(crate) fn call<P: Pen>(u: &Unit, below: usize, called: &CCall, pen: &mut P)
    requires below { below ≤ length u.now.exprs }
    requires has { HasCall u.now below called.now }
    requires ready { P.ready pen.old }
    ensures ready { P.ready pen.new }
    ensures writes { P.writes pen.old pen.new (call_text (bytes_at u.now.names called.now.function.0) (args_in u.now.names (expr_of u.now) called.now.args)) }
{
    pen.write(u.name(called.function));
    pen.write(b"(");
    args(u, below, called.args.as_slice(), pen);
    pen.write(b")");
}

/// Prints arguments, with commas between them.
#[cycle(print_exprs)]
fn args<P: Pen>(u: &Unit, below: usize, given: &[CArg], pen: &mut P)
    requires below { below ≤ length u.now.exprs }
    requires has { HasArgs u.now below given.now }
    requires ready { P.ready pen.old }
    ensures ready { P.ready pen.new }
    ensures writes { P.writes pen.old pen.new (args_text (args_in u.now.names (expr_of u.now) given.now)) }
{
    match given {
        [] => {}
        [first, others @ ..] => {
            argument(u, below, *first, pen);
            more_args(u, below, others, pen);
        }
    }
}

/// Prints arguments, each after a comma.
#[cycle(print_exprs)]
fn more_args<P: Pen>(u: &Unit, below: usize, others: &[CArg], pen: &mut P)
    requires below { below ≤ length u.now.exprs }
    requires has { HasArgs u.now below others.now }
    requires ready { P.ready pen.old }
    ensures ready { P.ready pen.new }
    ensures writes { P.writes pen.old pen.new (more_args_text (args_in u.now.names (expr_of u.now) others.now)) }
{
    for other in others {
        pen.write(b", ");
        argument(u, below, *other, pen);
    }
}

/// Prints one argument.
#[cycle(print_exprs)]
fn argument<P: Pen>(u: &Unit, below: usize, given: CArg, pen: &mut P)
    requires below { below ≤ length u.now.exprs }
    requires has { HasArg u.now below given }
    requires ready { P.ready pen.old }
    ensures ready { P.ready pen.new }
    ensures writes { P.writes pen.old pen.new (arg_text u.now.names (expr_of u.now) given) }
{
    match given {
        CArg::Expr(e) => expr(u, e, pen),
        CArg::SizeOf(name) => {
            pen.write(b"sizeof(*");
            pen.write(u.name(name));
            pen.write(b")");
        }
    }
}
