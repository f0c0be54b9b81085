// What a condition asks of its operands: which of them, and how they are compared.

ghost use Rattle.std.specs.Prelude.{◌≡◌, false, IsTrue};
ghost use Rattle.wf_ast.specs.TypedTrees.{operator_kind, type_of_node};
ghost use Rattle.wf_ast.specs.TypedInvariant.{is_expr, is_numeric};
ghost use Rattle.wf_ast.specs.OperatorForms.{is_joining, order_in};
ghost use Rattle.wf_facts_exprs.specs.Claims.{order_of, with_answer};
ghost use Rattle.wf_facts_exprs.specs.Operands.{joins_all};

use crate::facts::Cmp;
use wf_ast::{ExprId, Op, Ty, Typed};

/// Whether an operator joins conditions: `and` and `or`.
pub fn joins(op: Op) -> bool
    ensures { result ≡ is_joining (operator_kind op) }
{
    matches!(op, Op::And | Op::Or)
}

/// Whether a condition has this answer exactly where all of its operands have it: `and` with yes and `or` with no.
pub fn needs_all(op: Op, answer: bool) -> bool
    ensures { result ≡ joins_all (operator_kind op) answer }
{
    match op {
        Op::And => answer,
        Op::Or => !answer,
        Op::Add | Op::Mul | Op::BitAnd | Op::BitOr | Op::BitXor | Op::Sub | Op::Div => false,
        Op::Rem | Op::Shl | Op::Shr | Op::Same | Op::Differs | Op::Less => false,
        Op::LessOrSame | Op::Greater | Op::GreaterOrSame | Op::ModAdd | Op::ModSub => false,
        Op::ModMul | Op::ModShl | Op::SatAdd | Op::SatSub => false,
    }
}

/// The comparison of two operands that holds where the condition has this answer: the operator's own with yes, and its
/// complement with no.
pub fn compared_by(op: Op, answer: bool) -> Cmp
    requires { is_joining (operator_kind op) ≡ false }
    ensures { order_of result ≡ with_answer answer (order_in (operator_kind op)) }
{
    match op {
        Op::Same => if answer { Cmp::Eq } else { Cmp::Ne },
        Op::Differs => if answer { Cmp::Ne } else { Cmp::Eq },
        Op::Less => if answer { Cmp::Lt } else { Cmp::Ge },
        Op::LessOrSame => if answer { Cmp::Le } else { Cmp::Gt },
        Op::Greater => if answer { Cmp::Gt } else { Cmp::Le },
        Op::GreaterOrSame => if answer { Cmp::Ge } else { Cmp::Lt },
        Op::Add | Op::Mul | Op::BitAnd | Op::BitOr | Op::BitXor | Op::And | Op::Or => unordered(
            answer,
        ),
        Op::Sub | Op::Div | Op::Rem | Op::Shl | Op::Shr | Op::ModAdd | Op::ModSub => unordered(
            answer,
        ),
        Op::ModMul | Op::ModShl | Op::SatAdd | Op::SatSub => unordered(answer),
    }
}

fn unordered(answer: bool) -> Cmp
    ensures { order_of result ≡ with_answer answer (order_of Cmp.Eq) }
{
    if answer { Cmp::Eq } else { Cmp::Ne }
}

/// Whether an expression is a number by its type.
pub fn is_number(t: &Typed, e: ExprId) -> bool
    requires { IsTrue (is_expr t.now e) }
    ensures { result ≡ is_numeric (type_of_node t.now e.0) }
{
    matches!(t.type_of(e), Ty::Num { .. })
}
