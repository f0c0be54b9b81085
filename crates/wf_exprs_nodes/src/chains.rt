// The operations of chains.

ghost use Rattle.std.specs.Prelude.{◌≡◌, ◌<◌, true, length, IsTrue, IfOk};
ghost use Rattle.wf_base.specs.BaseTable.{bits_of};
ghost use Rattle.wf_ast.specs.TypedTrees.{operator_kind};
ghost use Rattle.wf_ast.specs.OperatorForms.{is_joining};
ghost use Rattle.c_text.specs.CFits.{HasExprs};
ghost use Rattle.c_text.specs.CNodes.{expr_of, operands_in};
ghost use Rattle.c_text.specs.CTree as c;
ghost use Rattle.wf_exprs.specs.Exprs.{balanced as balanced_code, calculated as calculated_of, rated};
ghost use Rattle.wf_exprs.specs.Grown.{Grows, HasExpr};
ghost use Rattle.wf_exprs.specs.Making.{HasRated, c_op, linked_by, rated_in};
ghost use Rattle.wf_exprs_nodes.specs.Trees.{repeats as repeats_sort};

use c_text::{CExpr, CExprId, CList, Unit};
use std::alloc::Global;
use wf_ast::Op;
use wf_base::Width;
use wf_exprs::Rated;
use wf_exprs::nodes::put;
use wf_exprs::rated::{balanced, calculated, linked, op_of};
use wf_text::NoMemory;

/// Whether a chain of this operator is one operation of C.
pub(crate) fn repeats(op: Op) -> bool
    ensures { result ≡ repeats_sort (operator_kind op) }
{
    match op {
        Op::Add | Op::Mul | Op::BitAnd | Op::BitOr | Op::BitXor => true,
        Op::And | Op::Or => true,
        Op::Sub | Op::Div | Op::Rem | Op::Shl | Op::Shr => false,
        Op::ModAdd | Op::ModSub | Op::ModMul | Op::ModShl => false,
        Op::SatAdd | Op::SatSub => false,
        Op::Same | Op::Differs | Op::Less | Op::LessOrSame => false,
        Op::Greater | Op::GreaterOrSame => false,
    }
}

/// Whether an operator joins conditions.
pub(crate) fn joins(op: Op) -> bool
    ensures { result ≡ is_joining (operator_kind op) }
{
    match op {
        Op::And | Op::Or => true,
        Op::Add | Op::Sub | Op::Mul | Op::Div | Op::Rem => false,
        Op::BitAnd | Op::BitOr | Op::BitXor | Op::Shl | Op::Shr => false,
        Op::ModAdd | Op::ModSub | Op::ModMul | Op::ModShl => false,
        Op::SatAdd | Op::SatSub => false,
        Op::Same | Op::Differs | Op::Less | Op::LessOrSame => false,
        Op::Greater | Op::GreaterOrSame => false,
    }
}

/// One operation of conditions, with all operands.
pub(crate) fn operation(
    u: &mut Unit,
    op: Op,
    first: CExprId,
    second: CExprId,
    others: CList<CExprId>,
) -> Result<CExprId, NoMemory>
    requires repeats { IsTrue (repeats_sort (operator_kind op)) }
    requires first { first.0 < length u.old.exprs }
    requires second { second.0 < length u.old.exprs }
    requires others { HasExprs (length u.old.exprs) others }
    ensures grows { Grows u.old u.new }
    ensures made { IfOk result (λ it. HasExpr u.new it.0 (c.operation (c_op (operator_kind op)) (expr_of u.old first.0) (expr_of u.old second.0) (operands_in (expr_of u.old) others))) }
{
    put(
        u,
        CExpr::Operation {
            op: op_of(op),
            first,
            second,
            others,
        },
    )
}

/// One operation of numbers of this width, with all operands.
pub(crate) fn number_operation(
    u: &mut Unit,
    op: Op,
    width: Width,
    first: Rated,
    second: Rated,
    others: CList<CExprId>,
) -> Result<Rated, NoMemory>
    requires repeats { IsTrue (repeats_sort (operator_kind op)) }
    requires first { first.code.0 < length u.old.exprs }
    requires second { second.code.0 < length u.old.exprs }
    requires others { HasExprs (length u.old.exprs) others }
    ensures grows { Grows u.old u.new }
    ensures made { IfOk result (λ it. HasRated u.new it (rated (c.operation (c_op (operator_kind op)) (balanced_code (bits_of width) (rated_in u.old first) (rated_in u.old second)) (expr_of u.old second.code.0) (operands_in (expr_of u.old) others)) (calculated_of (bits_of width)))) }
{
    let left = balanced(u, width, first, second)?;
    let code = operation(u, op, left, second.code, others)?;
    Ok(Rated {
        code,
        ty: calculated(width),
    })
}

/// Two numbers of this width with an operator between them.
pub(crate) fn link(
    alloc: Global,
    u: &mut Unit,
    op: Op,
    width: Width,
    a: Rated,
    b: Rated,
) -> Result<Rated, NoMemory>
    requires first { a.code.0 < length u.old.exprs }
    requires second { b.code.0 < length u.old.exprs }
    ensures grows { Grows u.old u.new }
    ensures made { IfOk result (λ it. HasRated u.new it (rated (linked_by (operator_kind op) (bits_of width) (rated_in u.old a) (rated_in u.old b)) (calculated_of (bits_of width)))) }
{
    let code = linked(alloc, u, op, width, a, b)?;
    Ok(Rated {
        code,
        ty: calculated(width),
    })
}
