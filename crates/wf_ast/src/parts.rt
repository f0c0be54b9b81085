// The parts of an expression, one by one.

ghost use Rattle.std.specs.Prelude.{◌≡◌, ◌<◌, length, slice_get, Some};
ghost use Rattle.wf_ast.specs.declared.numbers.ExprId.{ExprId};
ghost use Rattle.wf_ast.specs.TypedInvariant.{parts_of, cut_parts};

use crate::numbers::ExprId;
use crate::typed_code::Expr;

impl Expr {
    /// How many expressions stand directly inside this one.
    pub fn parts(&self) -> usize
        ensures { result ≡ length (parts_of self.now) }
    {
        match self {
            Expr::Index { .. } => 2,
            Expr::Cut { from, to, .. } => cut_count(*from, *to),
            Expr::Chain { parts, .. } => parts.as_slice().len(),
            Expr::Convert { .. } | Expr::Not(_) | Expr::Base { .. } => 1,
            _ => 0,
        }
    }

    /// The expression that stands inside this one as its part `i`, from 0, in written order.
    pub fn part(&self, i: usize) -> ExprId
        requires { i < length (parts_of self.now) }
        ensures { slice_get (parts_of self.now) i ≡ Some result }
    {
        match self {
            Expr::Index { base, at } => { if i == 0 { *base } else { *at } }
            Expr::Cut { base, from, to } => cut_part(*base, *from, *to, i),
            Expr::Chain { parts, .. } => parts.as_slice()[i],
            Expr::Convert { of, .. } => *of,
            Expr::Not(of) => *of,
            Expr::Base { on, .. } => *on,
            _ => unreachable!(),
        }
    }
}

fn cut_count(from: Option<ExprId>, to: Option<ExprId>) -> usize
    ensures { (base : ExprId) → result ≡ length (cut_parts base from to) }
{
    match (from, to) {
        (None, None) => 1,
        (Some(_), Some(_)) => 3,
        _ => 2,
    }
}

fn cut_part(base: ExprId, from: Option<ExprId>, to: Option<ExprId>, i: usize) -> ExprId
    requires { i < length (cut_parts base from to) }
    ensures { slice_get (cut_parts base from to) i ≡ Some result }
{
    match (from, to) {
        (Some(e), _) if i == 1 => e,
        (Some(_), Some(f)) if i == 2 => f,
        (None, Some(f)) if i == 1 => f,
        _ => base,
    }
}
