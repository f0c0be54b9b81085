// What is made of expressions, as their last token is read.

ghost use Rattle.std.specs.Prelude.{◌≡◌, [], ◌∷◌, true, IfOk};
ghost use Rattle.c_read_grammar.specs.declared.actions.Action.TheVariants as acts;
ghost use Rattle.c_read_grammar.specs.declared.actions.ExprAction.TheVariants as does;
ghost use Rattle.c_read_nodes.specs.Making.{making};
ghost use Rattle.c_read_nodes.specs.Shapes.{fits, takes_expr, is_plain};
ghost use Rattle.c_read_nodes.specs.declared.shapes.Shape.TheVariants as shapes;

use crate::pops::{pop_args, pop_expr, pop_name, pop_number, pop_operation, pop_type};
use crate::values::{OpenOperation, Product, SemanticValue};
use c_read_grammar::ExprAction;
use c_text::{CArg, CCall, CExpr, CList, COp, CUnary};
use stacks::Stack;
use std::alloc::Global;
use wf_text::NoMemory;

/// A variable.
pub(crate) fn make_variable(values: &mut Stack<SemanticValue>) -> Product
    requires { fits (shapes.Name ∷ []) values.old ≡ true }
    ensures { making (acts.Expr does.MakeVariable) values.old ≡ record { product = result; vals = values.new } }
{
    let name = pop_name(values);
    Product::Expr(CExpr::Name(name))
}

/// A literal.
pub(crate) fn make_number(values: &mut Stack<SemanticValue>) -> Product
    requires { fits (shapes.Number ∷ []) values.old ≡ true }
    ensures { making (acts.Expr does.MakeNumber) values.old ≡ record { product = result; vals = values.new } }
{
    let number = pop_number(values);
    Product::Expr(CExpr::Number(number))
}

/// A field.
pub(crate) fn make_member(values: &mut Stack<SemanticValue>) -> Product
    requires { fits (shapes.Name ∷ shapes.Expr ∷ []) values.old ≡ true }
    ensures { making (acts.Expr does.MakeMember) values.old ≡ record { product = result; vals = values.new } }
{
    let field = pop_name(values);
    let of = pop_expr(values);
    Product::Expr(CExpr::Member { of, field })
}

/// An element.
pub(crate) fn make_element(values: &mut Stack<SemanticValue>) -> Product
    requires { fits (shapes.Expr ∷ shapes.Expr ∷ []) values.old ≡ true }
    ensures { making (acts.Expr does.MakeElement) values.old ≡ record { product = result; vals = values.new } }
{
    let at = pop_expr(values);
    let of = pop_expr(values);
    Product::Expr(CExpr::Index { of, at })
}

/// What a pointer points to.
pub(crate) fn make_pointed(values: &mut Stack<SemanticValue>) -> Product
    requires { fits (shapes.Expr ∷ []) values.old ≡ true }
    ensures { making (acts.Expr does.MakePointed) values.old ≡ record { product = result; vals = values.new } }
{
    let of = pop_expr(values);
    Product::Expr(CExpr::Deref(of))
}

/// An operation of two operands.
pub(crate) fn start_operation(alloc: Global, values: &mut Stack<SemanticValue>) -> Product
    requires { fits (shapes.Expr ∷ shapes.Expr ∷ []) values.old ≡ true }
    ensures { making (acts.Expr does.StartOperation) values.old ≡ record { product = result; vals = values.new } }
{
    let second = pop_expr(values);
    let first = pop_expr(values);
    Product::Value(SemanticValue::Operation(OpenOperation {
        first,
        second,
        others: CList::new(alloc),
    }))
}

/// One operand more of an operation.
pub(crate) fn add_operand(values: &mut Stack<SemanticValue>) -> Result<Product, NoMemory>
    requires { fits (shapes.Expr ∷ shapes.Operation ∷ []) values.old ≡ true }
    ensures { IfOk result (λ product. making (acts.Expr does.AddOperand) values.old ≡ record { product = product; vals = values.new }) }
{
    let operand = pop_expr(values);
    let operation = pop_operation(values);
    let OpenOperation {
        first,
        second,
        mut others,
    } = operation;
    others.push(operand)?;
    Ok(Product::Value(SemanticValue::Operation(OpenOperation {
        first,
        second,
        others,
    })))
}

/// A whole operation.
pub(crate) fn make_operation(op: COp, values: &mut Stack<SemanticValue>) -> Product
    requires { fits (shapes.Operation ∷ []) values.old ≡ true }
    ensures { making (acts.Expr (does.MakeOperation op)) values.old ≡ record { product = result; vals = values.new } }
{
    let operation = pop_operation(values);
    Product::Expr(CExpr::Operation {
        op,
        first: operation.first,
        second: operation.second,
        others: operation.others,
    })
}

/// An operator before its operand.
pub(crate) fn make_unary(op: CUnary, values: &mut Stack<SemanticValue>) -> Product
    requires { fits (shapes.Expr ∷ []) values.old ≡ true }
    ensures { making (acts.Expr (does.MakeUnary op)) values.old ≡ record { product = result; vals = values.new } }
{
    let of = pop_expr(values);
    Product::Expr(CExpr::Unary { op, of })
}

/// A cast.
pub(crate) fn make_cast(values: &mut Stack<SemanticValue>) -> Product
    requires { fits (shapes.Expr ∷ shapes.Type ∷ []) values.old ≡ true }
    ensures { making (acts.Expr does.MakeCast) values.old ≡ record { product = result; vals = values.new } }
{
    let of = pop_expr(values);
    let to = pop_type(values);
    Product::Expr(CExpr::Cast { to, of })
}

/// A choice.
pub(crate) fn make_choice(values: &mut Stack<SemanticValue>) -> Product
    requires { fits (shapes.Expr ∷ shapes.Expr ∷ shapes.Expr ∷ []) values.old ≡ true }
    ensures { making (acts.Expr does.MakeChoice) values.old ≡ record { product = result; vals = values.new } }
{
    let unmet = pop_expr(values);
    let met = pop_expr(values);
    let test = pop_expr(values);
    Product::Expr(CExpr::Choice { test, met, unmet })
}

/// A call that has a value.
pub(crate) fn make_called(values: &mut Stack<SemanticValue>) -> Product
    requires { fits (shapes.Args ∷ shapes.Name ∷ []) values.old ≡ true }
    ensures { making (acts.Expr does.MakeCalled) values.old ≡ record { product = result; vals = values.new } }
{
    let args = pop_args(values);
    let function = pop_name(values);
    Product::Expr(CExpr::Call(CCall { function, args }))
}

/// One argument more.
pub(crate) fn add_arg(values: &mut Stack<SemanticValue>) -> Result<Product, NoMemory>
    requires { fits (shapes.Expr ∷ shapes.Args ∷ []) values.old ≡ true }
    ensures { IfOk result (λ product. making (acts.Expr does.AddArg) values.old ≡ record { product = product; vals = values.new }) }
{
    let argument = pop_expr(values);
    let given = pop_args(values);
    let mut given = given;
    given.push(CArg::Expr(argument))?;
    Ok(Product::Value(SemanticValue::Args(given)))
}

/// One argument more, a size.
pub(crate) fn add_sizeof(values: &mut Stack<SemanticValue>) -> Result<Product, NoMemory>
    requires { fits (shapes.Name ∷ shapes.Args ∷ []) values.old ≡ true }
    ensures { IfOk result (λ product. making (acts.Expr does.AddSizeof) values.old ≡ record { product = product; vals = values.new }) }
{
    let name = pop_name(values);
    let given = pop_args(values);
    let mut given = given;
    given.push(CArg::SizeOf(name))?;
    Ok(Product::Value(SemanticValue::Args(given)))
}

/// Takes the action's values from the stack, and answers what is made of them.
pub(crate) fn make(
    alloc: Global,
    action: ExprAction,
    values: &mut Stack<SemanticValue>,
) -> Result<Product, NoMemory>
    requires fit { fits (takes_expr action) values.old ≡ true }
    requires plain { is_plain (acts.Expr action) ≡ true }
    ensures { IfOk result (λ product. making (acts.Expr action) values.old ≡ record { product = product; vals = values.new }) }
{
    match action {
        ExprAction::MakeVariable => Ok(make_variable(values)),
        ExprAction::MakeNumber => Ok(make_number(values)),
        ExprAction::MakeMember => Ok(make_member(values)),
        ExprAction::MakeElement => Ok(make_element(values)),
        ExprAction::MakePointed => Ok(make_pointed(values)),
        ExprAction::StartOperation => Ok(start_operation(alloc, values)),
        ExprAction::AddOperand => add_operand(values),
        ExprAction::MakeOperation(op) => Ok(make_operation(op, values)),
        ExprAction::MakeUnary(op) => Ok(make_unary(op, values)),
        ExprAction::MakeCast => Ok(make_cast(values)),
        ExprAction::MakeChoice => Ok(make_choice(values)),
        ExprAction::MakeCalled => Ok(make_called(values)),
        ExprAction::StartArgs => Ok(Product::Value(SemanticValue::Args(CList::new(alloc)))),
        ExprAction::AddArg => add_arg(values),
        ExprAction::AddSizeof => add_sizeof(values),
        ExprAction::MakeVariableBelow => unreachable!(),
    }
}
