// What an action asks of the values that it takes, beside their shapes.

ghost use Rattle.std.specs.Prelude.{◌≡◌, ◌<◌, length, slice_get};
ghost use Rattle.c_text.specs.CGrammar.{is_literal, is_lvalue};
ghost use Rattle.c_text.specs.CNodes.{expr_of};
ghost use Rattle.c_read_nodes.specs.Seen.{ValuesFit};
ghost use Rattle.c_read_nodes.specs.Shapes.{value_expr, expr_in, is_pointer, is_target, repeats_lawfully, is_operation_of, meets};

use crate::values::SemanticValue;
use c_read_grammar::{Action, ExprAction, StmtAction};
use c_read_tokens::repeats;
use c_text::{CExpr, CExprId, COp, Unit};
use stacks::Stack;

/// Whether an expression is a literal.
fn is_literal(unit: &Unit, e: CExprId) -> bool
    requires { e.0 < length unit.now.exprs }
    ensures { result ≡ is_literal (expr_of unit.now e.0) }
{
    match unit.expr(e) {
        CExpr::Number(_) => true,
        _ => false,
    }
}

/// Whether an expression is an lvalue.
fn is_lvalue(unit: &Unit, e: CExprId) -> bool
    requires { e.0 < length unit.now.exprs }
    ensures { result ≡ is_lvalue (expr_of unit.now e.0) }
{
    match unit.expr(e) {
        CExpr::Name(_) | CExpr::Member { .. } | CExpr::Index { .. } | CExpr::Deref(_) => true,
        _ => false,
    }
}

/// The value, where it is an expression.
fn value_expr(value: &SemanticValue) -> Option<CExprId>
    ensures { result ≡ value_expr value.now }
{
    match value {
        SemanticValue::Expr(e) => Some(*e),
        _ => None,
    }
}

/// The value so far below the top, where it is an expression.
fn expr_at(values: &Stack<SemanticValue>, depth: usize) -> Option<CExprId>
    ensures { result ≡ expr_in (slice_get values.now depth) }
{
    value_expr(values.get(depth)?)
}

/// Whether the value so far below the top is an expression that isn't a literal.
fn is_pointer(unit: &Unit, values: &Stack<SemanticValue>, depth: usize) -> bool
    requires { ValuesFit unit.now values.now }
    ensures { result ≡ is_pointer unit.now (slice_get values.now depth) }
{
    match expr_at(values, depth) {
        Some(e) => !is_literal(unit, e),
        None => false,
    }
}

/// Whether the value so far below the top is an lvalue.
fn is_target(unit: &Unit, values: &Stack<SemanticValue>, depth: usize) -> bool
    requires { ValuesFit unit.now values.now }
    ensures { result ≡ is_target unit.now (slice_get values.now depth) }
{
    match expr_at(values, depth) {
        Some(e) => is_lvalue(unit, e),
        None => false,
    }
}

/// Whether there may be so many operands.
fn repeats_lawfully(op: COp, others: &[CExprId]) -> bool
    ensures { result ≡ repeats_lawfully op others.now }
{
    match others {
        [] => true,
        _ => repeats(op),
    }
}

/// Whether the value on the top is an operation with no more operands than the operator allows.
fn is_operation_of(op: COp, values: &Stack<SemanticValue>) -> bool
    ensures { result ≡ is_operation_of op (slice_get values.now 0) }
{
    match values.get(0) {
        Some(SemanticValue::Operation(operation)) => repeats_lawfully(
            op,
            operation.others.as_slice(),
        ),
        _ => false,
    }
}

/// Whether the topmost values are what the action asks for.
pub(crate) fn meets(unit: &Unit, action: Action, values: &Stack<SemanticValue>) -> bool
    requires { ValuesFit unit.now values.now }
    ensures { result ≡ meets unit.now action values.now }
{
    match action {
        Action::Expr(ExprAction::MakeMember) => is_pointer(unit, values, 1),
        Action::Expr(ExprAction::MakeElement) => is_pointer(unit, values, 1),
        Action::Expr(ExprAction::MakePointed) => is_pointer(unit, values, 0),
        Action::Expr(ExprAction::MakeOperation(op)) => is_operation_of(op, values),
        Action::Stmt(StmtAction::MakeAssign) => is_target(unit, values, 1),
        Action::Stmt(StmtAction::MakeCallInto) => is_target(unit, values, 2),
        _ => true,
    }
}
