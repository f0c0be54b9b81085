// Taking a value of a known shape from the top of the stack.

ghost use Rattle.std.specs.Prelude.{◌≡◌, [], ◌∷◌, true};
ghost use Rattle.c_text.specs.declared.nodes.CType.TheVariants as types;
ghost use Rattle.c_read_nodes.specs.Shapes.{fits};
ghost use Rattle.c_read_nodes.specs.declared.shapes.Shape.TheVariants as shapes;
ghost use Rattle.c_read_nodes.specs.declared.values.SemanticValue.TheVariants as vals;

use crate::statements::Statement;
use crate::values::{Arm, OpenOperation, Outcome, SemanticValue};
use c_text::{
    CArg, CExprId, CField, CList, CLocal, CNameId, CNumber, CParam, CStmtId, CStringId, CType,
    CUint,
};
use stacks::Stack;

/// Takes a name from the top.
pub(crate) fn pop_name(values: &mut Stack<SemanticValue>) -> CNameId
    requires { fits (shapes.Name ∷ []) values.old ≡ true }
    ensures { values.old ≡ vals.Name result ∷ values.new }
{
    match values.pop() {
        Some(SemanticValue::Name(value)) => value,
        _ => unreachable!(),
    }
}

/// Takes a literal from the top.
pub(crate) fn pop_number(values: &mut Stack<SemanticValue>) -> CNumber
    requires { fits (shapes.Number ∷ []) values.old ≡ true }
    ensures { values.old ≡ vals.Number result ∷ values.new }
{
    match values.pop() {
        Some(SemanticValue::Number(value)) => value,
        _ => unreachable!(),
    }
}

/// Takes a string from the top.
pub(crate) fn pop_text(values: &mut Stack<SemanticValue>) -> CStringId
    requires { fits (shapes.Text ∷ []) values.old ≡ true }
    ensures { values.old ≡ vals.Text result ∷ values.new }
{
    match values.pop() {
        Some(SemanticValue::Text(value)) => value,
        _ => unreachable!(),
    }
}

/// Takes an expression from the top.
pub(crate) fn pop_expr(values: &mut Stack<SemanticValue>) -> CExprId
    requires { fits (shapes.Expr ∷ []) values.old ≡ true }
    ensures { values.old ≡ vals.Expr result ∷ values.new }
{
    match values.pop() {
        Some(SemanticValue::Expr(value)) => value,
        _ => unreachable!(),
    }
}

/// Takes an operation from the top.
pub(crate) fn pop_operation(values: &mut Stack<SemanticValue>) -> OpenOperation
    requires { fits (shapes.Operation ∷ []) values.old ≡ true }
    ensures { values.old ≡ vals.Operation result ∷ values.new }
{
    match values.pop() {
        Some(SemanticValue::Operation(value)) => value,
        _ => unreachable!(),
    }
}

/// Takes arguments from the top.
pub(crate) fn pop_args(values: &mut Stack<SemanticValue>) -> CList<CArg>
    requires { fits (shapes.Args ∷ []) values.old ≡ true }
    ensures { values.old ≡ vals.Args result ∷ values.new }
{
    match values.pop() {
        Some(SemanticValue::Args(value)) => value,
        _ => unreachable!(),
    }
}

/// Takes a type from the top.
pub(crate) fn pop_type(values: &mut Stack<SemanticValue>) -> CType
    requires { fits (shapes.Type ∷ []) values.old ≡ true }
    ensures { values.old ≡ vals.Type result ∷ values.new }
{
    match values.pop() {
        Some(SemanticValue::Type(value)) => value,
        _ => unreachable!(),
    }
}

/// Takes a type of exact width from the top.
pub(crate) fn pop_uint_type(values: &mut Stack<SemanticValue>) -> CUint
    requires { fits (shapes.UintType ∷ []) values.old ≡ true }
    ensures { values.old ≡ vals.Type (types.Uint result) ∷ values.new }
{
    match values.pop() {
        Some(SemanticValue::Type(CType::Uint(value))) => value,
        _ => unreachable!(),
    }
}

/// Takes the beginning of a block from the top.
pub(crate) fn pop_block(values: &mut Stack<SemanticValue>)
    requires { fits (shapes.Block ∷ []) values.old ≡ true }
    ensures { values.old ≡ vals.Block ∷ values.new }
{
    match values.pop() {
        Some(SemanticValue::Block) => {}
        _ => unreachable!(),
    }
}

/// Takes a block from the top.
pub(crate) fn pop_code(values: &mut Stack<SemanticValue>) -> CStmtId
    requires { fits (shapes.Code ∷ []) values.old ≡ true }
    ensures { values.old ≡ vals.Code result ∷ values.new }
{
    match values.pop() {
        Some(SemanticValue::Code(value)) => value,
        _ => unreachable!(),
    }
}

/// Takes a statement from the top.
pub(crate) fn pop_statement(values: &mut Stack<SemanticValue>) -> Statement
    requires { fits (shapes.Statement ∷ []) values.old ≡ true }
    ensures { values.old ≡ vals.Statement result ∷ values.new }
{
    match values.pop() {
        Some(SemanticValue::Statement(value)) => value,
        _ => unreachable!(),
    }
}

/// Takes an arm of an `if` from the top.
pub(crate) fn pop_arm(values: &mut Stack<SemanticValue>) -> Arm
    requires { fits (shapes.Arm ∷ []) values.old ≡ true }
    ensures { values.old ≡ vals.Arm result ∷ values.new }
{
    match values.pop() {
        Some(SemanticValue::Arm(value)) => value,
        _ => unreachable!(),
    }
}

/// Takes a field from the top.
pub(crate) fn pop_field(values: &mut Stack<SemanticValue>) -> CField
    requires { fits (shapes.Field ∷ []) values.old ≡ true }
    ensures { values.old ≡ vals.Field result ∷ values.new }
{
    match values.pop() {
        Some(SemanticValue::Field(value)) => value,
        _ => unreachable!(),
    }
}

/// Takes fields from the top.
pub(crate) fn pop_fields(values: &mut Stack<SemanticValue>) -> CList<CField>
    requires { fits (shapes.Fields ∷ []) values.old ≡ true }
    ensures { values.old ≡ vals.Fields result ∷ values.new }
{
    match values.pop() {
        Some(SemanticValue::Fields(value)) => value,
        _ => unreachable!(),
    }
}

/// Takes fields, at least one from the top.
pub(crate) fn pop_some_fields(values: &mut Stack<SemanticValue>) -> CList<CField>
    requires { fits (shapes.SomeFields ∷ []) values.old ≡ true }
    ensures { values.old ≡ vals.Fields result ∷ values.new }
{
    match values.pop() {
        Some(SemanticValue::Fields(value)) => value,
        _ => unreachable!(),
    }
}

/// Takes what a function results in from the top.
pub(crate) fn pop_outcome(values: &mut Stack<SemanticValue>) -> Outcome
    requires { fits (shapes.Outcome ∷ []) values.old ≡ true }
    ensures { values.old ≡ vals.Outcome result ∷ values.new }
{
    match values.pop() {
        Some(SemanticValue::Outcome(value)) => value,
        _ => unreachable!(),
    }
}

/// Takes parameters from the top.
pub(crate) fn pop_params(values: &mut Stack<SemanticValue>) -> CList<CParam>
    requires { fits (shapes.Params ∷ []) values.old ≡ true }
    ensures { values.old ≡ vals.Params result ∷ values.new }
{
    match values.pop() {
        Some(SemanticValue::Params(value)) => value,
        _ => unreachable!(),
    }
}

/// Takes locals from the top.
pub(crate) fn pop_locals(values: &mut Stack<SemanticValue>) -> CList<CLocal>
    requires { fits (shapes.Locals ∷ []) values.old ≡ true }
    ensures { values.old ≡ vals.Locals result ∷ values.new }
{
    match values.pop() {
        Some(SemanticValue::Locals(value)) => value,
        _ => unreachable!(),
    }
}

/// Takes the unit from the top.
pub(crate) fn pop_unit(values: &mut Stack<SemanticValue>)
    requires { fits (shapes.Unit ∷ []) values.old ≡ true }
    ensures { values.old ≡ vals.Unit ∷ values.new }
{
    match values.pop() {
        Some(SemanticValue::Unit) => {}
        _ => unreachable!(),
    }
}
