// Expressions of C, each made of parts that the unit has already.

ghost use Rattle.std.specs.Prelude.{◌≡◌, IfOk, ◌<◌, ◌++◌, ◌∷◌, [], false, length};
ghost use Rattle.wf_base.specs.BaseTable.{bits_of};
ghost use Rattle.c_text.specs.CFits.{FitsExpr};
ghost use Rattle.c_text.specs.CGrammar.{IsName, is_literal as is_literal_tree};
ghost use Rattle.c_text.specs.CNodes.{bytes_at, expr_of, made_expr};
ghost use Rattle.c_text.specs.CSpelling.{IsLiteral};
ghost use Rattle.c_text.specs.CTree as c;
ghost use Rattle.c_text.specs.declared.kinds.CUnary.TheVariants as unaries;
ghost use Rattle.wf_exprs.specs.Exprs.{is_held as is_held_tree};
ghost use Rattle.wf_exprs.specs.Grown.{Grows, HasExpr};
ghost use Rattle.wf_exprs.specs.Words.{args, literal as literal_of, num, of_self as of_self_tree, self, two as two_trees, uint_of as type_of_bits, width_of};

use crate::names::{put_name, put_spelt};
use c_text::{
    CArg, CCall, CExpr, CExprId, CList, CNameId, CNumber, COp, CType, CUint, CUnary, Unit,
};
use std::alloc::Global;
use wf_base::Width;
use wf_text::NoMemory;

/// A number as C spells it: of the narrowest type that holds it.
pub fn literal(n: u64) -> CNumber
    ensures is { result ≡ literal_of n }
    ensures lawful { IsLiteral result }
{
    if n < 1 << 31 {
        CNumber::Int(n as u32)
    } else if n < 1 << 32 {
        CNumber::Unsigned(n as u32)
    } else {
        CNumber::Long(n)
    }
}

/// The unsigned type with these bits.
pub fn uint_of(width: Width) -> CUint
    ensures { result ≡ width_of (bits_of width) }
{
    match width {
        Width::W8 => CUint::U8,
        Width::W16 => CUint::U16,
        Width::W32 => CUint::U32,
        Width::W64 => CUint::U64,
    }
}

/// The number of an expression whose parts the unit has. What is without operands may be there already.
#[inline(always)]
pub fn put(u: &mut Unit, x: CExpr) -> Result<CExprId, NoMemory>
    requires { FitsExpr u.old (length u.old.exprs) x }
    ensures grows { Grows u.old u.new }
    ensures made { IfOk result (λ it. HasExpr u.new it.0 ((made_expr u.old.names (expr_of u.old) x))) }
{
    u.is_sound();
    u.share_expr(x)
}

/// A number.
pub fn number(u: &mut Unit, n: u64) -> Result<CExprId, NoMemory>
    ensures grows { Grows u.old u.new }
    ensures made { IfOk result (λ it. HasExpr u.new it.0 ((num n))) }
{
    put(u, CExpr::Number(literal(n)))
}

/// A variable.
pub fn variable(u: &mut Unit, name: &[u8]) -> Result<CExprId, NoMemory>
    requires { IsName name.now }
    ensures grows { Grows u.old u.new }
    ensures made { IfOk result (λ it. HasExpr u.new it.0 ((c.variable name.now))) }
{
    let name = put_name(u, name)?;
    put(u, CExpr::Name(name))
}

/// A variable with a name of two parts.
pub fn spelt_variable(u: &mut Unit, begin: &[u8], end: &[u8]) -> Result<CExprId, NoMemory>
    requires { IsName (begin.now ++ end.now) }
    ensures grows { Grows u.old u.new }
    ensures made { IfOk result (λ it. HasExpr u.new it.0 ((c.variable (begin.now ++ end.now)))) }
{
    let name = put_spelt(u, begin, end)?;
    put(u, CExpr::Name(name))
}

/// `of->name`
pub(crate) fn member(u: &mut Unit, of: CExprId, name: &[u8]) -> Result<CExprId, NoMemory>
    requires of_there { of.0 < length u.old.exprs }
    requires pointer { is_literal_tree (expr_of u.old of.0) ≡ false }
    requires name { IsName name.now }
    ensures grows { Grows u.old u.new }
    ensures made { IfOk result (λ it. HasExpr u.new it.0 ((c.member (expr_of u.old of.0) name.now))) }
{
    let field = put_name(u, name)?;
    put(u, CExpr::Member { of, field })
}

/// `self->name`, with a name that the unit has.
#[tactic(auto, unfolding(c_text::specs::CSpelling::is_reserved))]
pub fn member_of_self(u: &mut Unit, field: CNameId) -> Result<CExprId, NoMemory>
    requires { field.0 < length u.old.names }
    ensures grows { Grows u.old u.new }
    ensures made { IfOk result (λ it. HasExpr u.new it.0 ((of_self_tree (bytes_at u.old.names field.0)))) }
{
    let of = variable(u, b"self")?;
    put(u, CExpr::Member { of, field })
}

/// `self->name`
pub fn of_self(u: &mut Unit, name: &[u8]) -> Result<CExprId, NoMemory>
    requires { IsName name.now }
    ensures grows { Grows u.old u.new }
    ensures made { IfOk result (λ it. HasExpr u.new it.0 ((of_self_tree name.now))) }
{
    let field = put_name(u, name)?;
    member_of_self(u, field)
}

/// `of[at]`
pub fn element(u: &mut Unit, of: CExprId, at: CExprId) -> Result<CExprId, NoMemory>
    requires of_there { of.0 < length u.old.exprs }
    requires pointer { is_literal_tree (expr_of u.old of.0) ≡ false }
    requires at_there { at.0 < length u.old.exprs }
    ensures grows { Grows u.old u.new }
    ensures made { IfOk result (λ it. HasExpr u.new it.0 ((c.element (expr_of u.old of.0) (expr_of u.old at.0)))) }
{
    put(u, CExpr::Index { of, at })
}

/// `(first op second)`
pub fn two(
    alloc: Global,
    u: &mut Unit,
    op: COp,
    first: CExprId,
    second: CExprId,
) -> Result<CExprId, NoMemory>
    requires first { first.0 < length u.old.exprs }
    requires second { second.0 < length u.old.exprs }
    ensures grows { Grows u.old u.new }
    ensures made { IfOk result (λ it. HasExpr u.new it.0 ((two_trees op (expr_of u.old first.0) (expr_of u.old second.0)))) }
{
    put(
        u,
        CExpr::Operation {
            op,
            first,
            second,
            others: CList::new(alloc),
        },
    )
}

/// `(!of)`
pub fn negated(u: &mut Unit, of: CExprId) -> Result<CExprId, NoMemory>
    requires { of.0 < length u.old.exprs }
    ensures grows { Grows u.old u.new }
    ensures made { IfOk result (λ it. HasExpr u.new it.0 ((c.unary unaries.Not (expr_of u.old of.0)))) }
{
    put(
        u,
        CExpr::Unary {
            op: CUnary::Not,
            of,
        },
    )
}

/// `(&of)`
pub fn address(u: &mut Unit, of: CExprId) -> Result<CExprId, NoMemory>
    requires { of.0 < length u.old.exprs }
    ensures grows { Grows u.old u.new }
    ensures made { IfOk result (λ it. HasExpr u.new it.0 ((c.unary unaries.Address (expr_of u.old of.0)))) }
{
    put(
        u,
        CExpr::Unary {
            op: CUnary::Address,
            of,
        },
    )
}

/// `((uintN_t)of)`
pub fn cast(u: &mut Unit, width: Width, of: CExprId) -> Result<CExprId, NoMemory>
    requires { of.0 < length u.old.exprs }
    ensures grows { Grows u.old u.new }
    ensures made { IfOk result (λ it. HasExpr u.new it.0 ((c.cast (type_of_bits (bits_of width)) (expr_of u.old of.0)))) }
{
    put(
        u,
        CExpr::Cast {
            to: CType::Uint(uint_of(width)),
            of,
        },
    )
}

/// `(test ? met : unmet)`
pub fn choice(
    u: &mut Unit,
    test: CExprId,
    met: CExprId,
    unmet: CExprId,
) -> Result<CExprId, NoMemory>
    requires test { test.0 < length u.old.exprs }
    requires met { met.0 < length u.old.exprs }
    requires unmet { unmet.0 < length u.old.exprs }
    ensures grows { Grows u.old u.new }
    ensures made { IfOk result (λ it. HasExpr u.new it.0 ((c.choice (expr_of u.old test.0) (expr_of u.old met.0) (expr_of u.old unmet.0)))) }
{
    put(u, CExpr::Choice { test, met, unmet })
}

/// `(function(first, second))`
pub(crate) fn called(
    alloc: Global,
    u: &mut Unit,
    function: CNameId,
    first: CExprId,
    second: CExprId,
) -> Result<CExprId, NoMemory>
    requires function { function.0 < length u.old.names }
    requires first { first.0 < length u.old.exprs }
    requires second { second.0 < length u.old.exprs }
    ensures grows { Grows u.old u.new }
    ensures made { IfOk result (λ it. HasExpr u.new it.0 ((c.called (bytes_at u.old.names function.0) (args (expr_of u.old first.0 ∷ expr_of u.old second.0 ∷ []))))) }
{
    let args = CList::from_slice(alloc, &[CArg::Expr(first), CArg::Expr(second)])?;
    put(u, CExpr::Call(CCall { function, args }))
}

/// Whether an expression is a literal.
pub fn is_literal(u: &Unit, e: CExprId) -> bool
    requires { e.0 < length u.now.exprs }
    ensures { result ≡ is_literal_tree (expr_of u.now e.0) }
{
    match u.expr(e) {
        CExpr::Number(_) => true,
        _ => false,
    }
}

/// Whether an expression is what C keeps apart anyway: a variable, a field, an element or a literal.
pub fn is_held(u: &Unit, e: CExprId) -> bool
    requires { e.0 < length u.now.exprs }
    ensures { result ≡ is_held_tree (expr_of u.now e.0) }
{
    match u.expr(e) {
        CExpr::Number(_) | CExpr::Name(_) | CExpr::Member { .. } | CExpr::Index { .. } => true,
        _ => false,
    }
}
