// When two expressions are the same.

ghost use Rattle.std.specs.Prelude.{◌≡◌, ◌<◌, length};
ghost use Rattle.wf_ast.specs.TypedTrees.{tree_of};
ghost use Rattle.wf_ast.specs.Same.{same as same_trees};
ghost use Rattle.wf_ast.specs.Operators.{same_op as same_operators};
ghost use Rattle.wf_ast.specs.SameNodes.{same_kind as same_kinds, answer_number as number_of_answer, shift_width as width_of_shift, same_head as same_heads};

use crate::numbers::ExprId;
use crate::operators::Op;
use crate::typed::Typed;
use crate::typed_code::Expr;
use crate::types::Ty;
use wf_base::{BaseSig, PeekForm};

/// Whether two expressions are the same, wherever they stand: their trees are equal, where constant expressions count
/// as their numbers. It takes no memory. It recurses into parts, and so goes as deep as expressions stand inside one
/// another; the operands of a chain stand side by side.
pub fn same(t: &Typed, a: ExprId, b: ExprId) -> bool
    requires first { a.0 < length t.now.exprs }
    requires second { b.0 < length t.now.exprs }
    ensures { result ≡ same_trees (tree_of t.now a) (tree_of t.now b) }
{
    let one = t.expr(a);
    let other = t.expr(b);
    match (t.constant(a), t.constant(b)) {
        (Some(m), Some(n)) => return m == n,
        (None, None) => {}
        _ => return false,
    }
    if !same_head(one, t.type_of(a), other, t.type_of(b)) {
        return false;
    }
    if one.parts() != other.parts() {
        return false;
    }
    for i in 0..one.parts() {
        if !same(t, one.part(i), other.part(i)) {
            return false;
        }
    }
    true
}

// Whether two expressions, which are no constant numbers, are alike but for their parts.
fn same_head(one: &Expr, ty: Ty, other: &Expr, other_ty: Ty) -> bool
    ensures { result ≡ same_heads ty other_ty one.now other.now }
{
    match (one, other) {
        (Expr::Status(m), Expr::Status(n)) => m.0 == n.0,
        (Expr::Truth(b), Expr::Truth(c)) => *b == *c,
        (Expr::Local(m), Expr::Local(n)) => m.0 == n.0 && same_kind(ty, other_ty),
        (Expr::Field(m), Expr::Field(n)) => m.0 == n.0 && same_kind(ty, other_ty),
        (Expr::Arg(m), Expr::Arg(n)) => m.0 == n.0 && same_kind(ty, other_ty),
        (Expr::Index { .. }, Expr::Index { .. }) => true,
        (Expr::Cut { from, to, .. }, Expr::Cut { from: f, to: t, .. }) => {
            from.is_some() == f.is_some() && to.is_some() == t.is_some()
        }
        (Expr::Chain { op, .. }, Expr::Chain { op: sign, .. }) => {
            same_op(*op, *sign) && shift_width(*op, ty) == shift_width(*sign, other_ty)
        }
        (Expr::Convert { to, .. }, Expr::Convert { to: width, .. }) => to.bits() == width.bits(),
        (Expr::Not(_), Expr::Not(_)) => true,
        (Expr::Base { sig, .. }, Expr::Base { sig: row, .. }) => answer_number(*sig)
            == answer_number(*row),
        _ => false,
    }
}

// Whether variables of these types stand for values of one kind.
fn same_kind(a: Ty, b: Ty) -> bool
    ensures { result ≡ same_kinds a b }
{
    match (a, b) {
        (Ty::Num { .. }, Ty::Num { .. }) => true,
        (Ty::Flag, Ty::Flag) => true,
        (Ty::Status, Ty::Status) => true,
        (Ty::Reader | Ty::Writer, Ty::Reader | Ty::Writer) => true,
        (Ty::Slice(_), Ty::Slice(_)) => true,
        (Ty::Array { .. }, Ty::Array { .. }) => true,
        _ => false,
    }
}

fn same_op(a: Op, b: Op) -> bool
    ensures { result ≡ same_operators a b }
{
    a as u8 == b as u8
}

// The bits of a shift, which count when two are compared; those of other operators don't.
fn shift_width(op: Op, ty: Ty) -> u32
    ensures { result ≡ width_of_shift op ty }
{
    match (op, ty) {
        (Op::Shl | Op::Shr | Op::ModShl, Ty::Num { width, .. }) => width.bits(),
        _ => 0,
    }
}

// A number for each base method that stands in expressions; the length of a slice and that of an array have one.
fn answer_number(sig: BaseSig) -> u32
    ensures { result ≡ number_of_answer sig }
{
    match sig {
        BaseSig::Peek(PeekForm::PeekU8) => 0,
        BaseSig::Peek(PeekForm::PeekU16Le) => 1,
        BaseSig::Peek(PeekForm::PeekU32Le) => 2,
        BaseSig::ReaderLength => 3,
        BaseSig::ReaderPosition => 4,
        BaseSig::WriterLength => 5,
        BaseSig::WriterPosition => 6,
        BaseSig::ReaderIsClosed => 7,
        BaseSig::SliceLength(_) | BaseSig::ArrayLength(_) => 8,
        BaseSig::IsOk => 9,
        BaseSig::IsNote => 10,
        BaseSig::IsSuspension => 11,
        BaseSig::IsError => 12,
        _ => 13,
    }
}
