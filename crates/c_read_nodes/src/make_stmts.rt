// What is made of statements, as their last token is read.

ghost use Rattle.std.specs.Prelude.{◌≡◌, [], ◌∷◌, true, IfOk};
ghost use Rattle.c_read_grammar.specs.declared.actions.Action.TheVariants as acts;
ghost use Rattle.c_read_grammar.specs.declared.actions.StmtAction.TheVariants as does;
ghost use Rattle.c_read_nodes.specs.Making.{making};
ghost use Rattle.c_read_nodes.specs.Shapes.{fits, takes_stmt, is_plain};
ghost use Rattle.c_read_nodes.specs.declared.shapes.Shape.TheVariants as shapes;

use crate::pops::{pop_args, pop_code, pop_expr, pop_name, pop_number};
use crate::statements::Statement;
use crate::values::{Arm, Product, SemanticValue};
use c_read_grammar::StmtAction;
use c_text::CCall;
use stacks::Stack;
use std::alloc::Global;
use wf_text::NoMemory;

/// A block in a block.
pub(crate) fn make_nested(values: &mut Stack<SemanticValue>) -> Product
    requires { fits (shapes.Code ∷ []) values.old ≡ true }
    ensures { making (acts.Stmt does.MakeNested) values.old ≡ record { product = result; vals = values.new } }
{
    let inner = pop_code(values);
    Product::Value(SemanticValue::Statement(Statement::Nested { inner }))
}

/// An assignment.
pub(crate) fn make_assign(values: &mut Stack<SemanticValue>) -> Product
    requires { fits (shapes.Expr ∷ shapes.Expr ∷ []) values.old ≡ true }
    ensures { making (acts.Stmt does.MakeAssign) values.old ≡ record { product = result; vals = values.new } }
{
    let value = pop_expr(values);
    let target = pop_expr(values);
    Product::Value(SemanticValue::Statement(Statement::Assign { target, value }))
}

/// A call.
pub(crate) fn make_call(values: &mut Stack<SemanticValue>) -> Product
    requires { fits (shapes.Args ∷ shapes.Name ∷ []) values.old ≡ true }
    ensures { making (acts.Stmt does.MakeCall) values.old ≡ record { product = result; vals = values.new } }
{
    let args = pop_args(values);
    let function = pop_name(values);
    Product::Value(SemanticValue::Statement(Statement::Call {
        target: None,
        call: CCall { function, args },
    }))
}

/// A call whose value is assigned.
pub(crate) fn make_call_into(values: &mut Stack<SemanticValue>) -> Product
    requires { fits (shapes.Args ∷ shapes.Name ∷ shapes.Expr ∷ []) values.old ≡ true }
    ensures { making (acts.Stmt does.MakeCallInto) values.old ≡ record { product = result; vals = values.new } }
{
    let args = pop_args(values);
    let function = pop_name(values);
    let target = pop_expr(values);
    Product::Value(SemanticValue::Statement(Statement::Call {
        target: Some(target),
        call: CCall { function, args },
    }))
}

/// A jump.
pub(crate) fn make_goto(values: &mut Stack<SemanticValue>) -> Product
    requires { fits (shapes.Name ∷ []) values.old ≡ true }
    ensures { making (acts.Stmt does.MakeGoto) values.old ≡ record { product = result; vals = values.new } }
{
    let label = pop_name(values);
    Product::Value(SemanticValue::Statement(Statement::Goto { label }))
}

/// An arm of an `if`.
pub(crate) fn add_arm(values: &mut Stack<SemanticValue>) -> Product
    requires { fits (shapes.Code ∷ shapes.Expr ∷ []) values.old ≡ true }
    ensures { making (acts.Stmt does.AddArm) values.old ≡ record { product = result; vals = values.new } }
{
    let body = pop_code(values);
    let test = pop_expr(values);
    Product::Value(SemanticValue::Arm(Arm { test, body }))
}

/// A loop.
pub(crate) fn make_while(values: &mut Stack<SemanticValue>) -> Product
    requires { fits (shapes.Code ∷ shapes.Expr ∷ []) values.old ≡ true }
    ensures { making (acts.Stmt does.MakeWhile) values.old ≡ record { product = result; vals = values.new } }
{
    let body = pop_code(values);
    let test = pop_expr(values);
    Product::Value(SemanticValue::Statement(Statement::While { test, body }))
}

/// A switch.
pub(crate) fn make_switch(values: &mut Stack<SemanticValue>) -> Product
    requires { fits (shapes.Code ∷ shapes.Expr ∷ []) values.old ≡ true }
    ensures { making (acts.Stmt does.MakeSwitch) values.old ≡ record { product = result; vals = values.new } }
{
    let body = pop_code(values);
    let on = pop_expr(values);
    Product::Value(SemanticValue::Statement(Statement::Switch { on, body }))
}

/// `return` of a value.
pub(crate) fn make_return_value(values: &mut Stack<SemanticValue>) -> Product
    requires { fits (shapes.Expr ∷ []) values.old ≡ true }
    ensures { making (acts.Stmt does.MakeReturnValue) values.old ≡ record { product = result; vals = values.new } }
{
    let value = pop_expr(values);
    Product::Value(SemanticValue::Statement(Statement::Return { value: Some(value) }))
}

/// The label `case`.
pub(crate) fn make_case(values: &mut Stack<SemanticValue>) -> Product
    requires { fits (shapes.Number ∷ []) values.old ≡ true }
    ensures { making (acts.Stmt does.MakeCase) values.old ≡ record { product = result; vals = values.new } }
{
    let number = pop_number(values);
    Product::Value(SemanticValue::Statement(Statement::Case { number }))
}

/// A label.
pub(crate) fn make_label(values: &mut Stack<SemanticValue>) -> Product
    requires { fits (shapes.Name ∷ []) values.old ≡ true }
    ensures { making (acts.Stmt does.MakeLabel) values.old ≡ record { product = result; vals = values.new } }
{
    let name = pop_name(values);
    Product::Value(SemanticValue::Statement(Statement::Label { name }))
}

/// Takes the action's values from the stack, and answers what is made of them.
pub(crate) fn make(
    alloc: Global,
    action: StmtAction,
    values: &mut Stack<SemanticValue>,
) -> Result<Product, NoMemory>
    requires fit { fits (takes_stmt action) values.old ≡ true }
    requires plain { is_plain (acts.Stmt action) ≡ true }
    ensures { IfOk result (λ product. making (acts.Stmt action) values.old ≡ record { product = product; vals = values.new }) }
{
    match action {
        StmtAction::StartBlock => Ok(Product::Value(SemanticValue::Block)),
        StmtAction::MakeNested => Ok(make_nested(values)),
        StmtAction::MakeEmpty => Ok(Product::Value(SemanticValue::Statement(Statement::Empty))),
        StmtAction::MakeAssign => Ok(make_assign(values)),
        StmtAction::MakeCall => Ok(make_call(values)),
        StmtAction::MakeCallInto => Ok(make_call_into(values)),
        StmtAction::MakeGoto => Ok(make_goto(values)),
        StmtAction::AddArm => Ok(add_arm(values)),
        StmtAction::MakeWhile => Ok(make_while(values)),
        StmtAction::MakeSwitch => Ok(make_switch(values)),
        StmtAction::MakeReturn => Ok(Product::Value(SemanticValue::Statement(Statement::Return {
            value: None,
        }))),
        StmtAction::MakeReturnValue => Ok(make_return_value(values)),
        StmtAction::MakeCase => Ok(make_case(values)),
        StmtAction::MakeDefault => Ok(Product::Value(SemanticValue::Statement(Statement::Default))),
        StmtAction::MakeLabel => Ok(make_label(values)),
        StmtAction::EndBlock => unreachable!(),
        StmtAction::MakeIf => unreachable!(),
    }
}
