// Taking a value of a known shape from the top of the stack.

ghost use Rattle.std.specs.Prelude.{◌≡◌, ◌<◌, [], ◌∷◌, true};
ghost use Rattle.wf_parse_nodes.specs.Shapes.{fits};
ghost use Rattle.wf_parse_nodes.specs.declared.shapes.Shape.TheVariants as shapes;
ghost use Rattle.wf_parse_nodes.specs.declared.values.SemanticValue.TheVariants as vals;

use crate::values::{OpenChain, OpenCore, SemanticValue, Sign};
use stacks::Stack;
use std::mem::ManuallyDrop;
use wf_ast::parsed::{
    Arm, Block, Bounds, Call, Field, Given, LoopClause, Name, Path, Prefix, Receiver, Target,
    TypeExpr, Via, WrittenMark,
};
use wf_ast::{ExprId, Sequence, StmtId};
use wf_text::Place;

/// Lets go of what was on the top, which holds no memory.
#[inline(always)]
fn lost(top: Option<SemanticValue>) {
    let _kept = ManuallyDrop::new(top);
}

/// Takes a name or a text from the top.
pub(crate) fn pop_name(values: &mut Stack<SemanticValue>) -> Name
    requires { fits (shapes.Name ∷ []) values.old ≡ true }
    ensures { values.old ≡ vals.Name result ∷ values.new }
{
    let top = values.pop();
    let value = match &top {
        Some(SemanticValue::Name(value)) => *value,
        _ => unreachable!(),
    };
    lost(top);
    value
}

/// Takes a place from the top.
pub(crate) fn pop_place(values: &mut Stack<SemanticValue>) -> Place
    requires { fits (shapes.Place ∷ []) values.old ≡ true }
    ensures { values.old ≡ vals.Place result ∷ values.new }
{
    let top = values.pop();
    let value = match &top {
        Some(SemanticValue::Place(value)) => *value,
        _ => unreachable!(),
    };
    lost(top);
    value
}

/// Takes a mark from the top.
pub(crate) fn pop_mark(values: &mut Stack<SemanticValue>) -> WrittenMark
    requires { fits (shapes.Mark ∷ []) values.old ≡ true }
    ensures { values.old ≡ vals.Mark result ∷ values.new }
{
    let top = values.pop();
    let value = match &top {
        Some(SemanticValue::Mark(value)) => *value,
        _ => unreachable!(),
    };
    lost(top);
    value
}

/// Takes whether a declaration is public from the top.
pub(crate) fn pop_public(values: &mut Stack<SemanticValue>) -> bool
    requires { fits (shapes.Public ∷ []) values.old ≡ true }
    ensures { values.old ≡ vals.Public result ∷ values.new }
{
    let top = values.pop();
    let value = match &top {
        Some(SemanticValue::Public(value)) => *value,
        _ => unreachable!(),
    };
    lost(top);
    value
}

/// Takes the sign of an assignment from the top.
pub(crate) fn pop_sign(values: &mut Stack<SemanticValue>) -> Sign
    requires { fits (shapes.Sign ∷ []) values.old ≡ true }
    ensures { values.old ≡ vals.Sign result ∷ values.new }
{
    let top = values.pop();
    let value = match &top {
        Some(SemanticValue::Sign(value)) => *value,
        _ => unreachable!(),
    };
    lost(top);
    value
}

/// Takes a path from the top.
pub(crate) fn pop_path(values: &mut Stack<SemanticValue>) -> Path
    requires { fits (shapes.Path ∷ []) values.old ≡ true }
    ensures { values.old ≡ vals.Path result ∷ values.new }
{
    let top = values.pop();
    let value = match &top {
        Some(SemanticValue::Path(value)) => *value,
        _ => unreachable!(),
    };
    lost(top);
    value
}

/// Takes what a call is made on from the top.
pub(crate) fn pop_receiver(values: &mut Stack<SemanticValue>) -> Receiver
    requires { fits (shapes.Receiver ∷ []) values.old ≡ true }
    ensures { values.old ≡ vals.Receiver result ∷ values.new }
{
    let top = values.pop();
    let value = match &top {
        Some(SemanticValue::Receiver(value)) => *value,
        _ => unreachable!(),
    };
    lost(top);
    value
}

/// Takes an expression from the top.
pub(crate) fn pop_expr(values: &mut Stack<SemanticValue>) -> ExprId
    requires { fits (shapes.Expr ∷ []) values.old ≡ true }
    ensures { values.old ≡ vals.Expr result ∷ values.new }
{
    let top = values.pop();
    let value = match &top {
        Some(SemanticValue::Expr(value)) => *value,
        _ => unreachable!(),
    };
    lost(top);
    value
}

/// Takes an expression that may be absent from the top.
pub(crate) fn pop_part(values: &mut Stack<SemanticValue>) -> Option<ExprId>
    requires { fits (shapes.Part ∷ []) values.old ≡ true }
    ensures { values.old ≡ vals.Part result ∷ values.new }
{
    let top = values.pop();
    let value = match &top {
        Some(SemanticValue::Part(value)) => *value,
        _ => unreachable!(),
    };
    lost(top);
    value
}

/// Takes a chain from the top.
pub(crate) fn pop_chain(values: &mut Stack<SemanticValue>) -> OpenChain
    requires { fits (shapes.Chain ∷ []) values.old ≡ true }
    ensures { values.old ≡ vals.Chain result ∷ values.new }
{
    match values.pop() {
        Some(SemanticValue::Chain(value)) => value,
        _ => unreachable!(),
    }
}

/// Takes arguments from the top.
pub(crate) fn pop_givens(values: &mut Stack<SemanticValue>) -> Sequence<Given>
    requires { fits (shapes.Givens ∷ []) values.old ≡ true }
    ensures { values.old ≡ vals.Givens result ∷ values.new }
{
    match values.pop() {
        Some(SemanticValue::Givens(value)) => value,
        _ => unreachable!(),
    }
}

/// Takes a call from the top.
pub(crate) fn pop_call(values: &mut Stack<SemanticValue>) -> Call
    requires { fits (shapes.Call ∷ []) values.old ≡ true }
    ensures { values.old ≡ vals.Call result ∷ values.new }
{
    match values.pop() {
        Some(SemanticValue::Call(value)) => value,
        _ => unreachable!(),
    }
}

/// Takes the prefixes of a type from the top.
pub(crate) fn pop_prefixes(values: &mut Stack<SemanticValue>) -> Sequence<Prefix>
    requires { fits (shapes.Prefixes ∷ []) values.old ≡ true }
    ensures { values.old ≡ vals.Prefixes result ∷ values.new }
{
    match values.pop() {
        Some(SemanticValue::Prefixes(value)) => value,
        _ => unreachable!(),
    }
}

/// Takes what a type that begins with `base` names from the top.
pub(crate) fn pop_core(values: &mut Stack<SemanticValue>) -> OpenCore
    requires { fits (shapes.Core ∷ []) values.old ≡ true }
    ensures { values.old ≡ vals.Core result ∷ values.new }
{
    let top = values.pop();
    let value = match &top {
        Some(SemanticValue::Core(value)) => *value,
        _ => unreachable!(),
    };
    lost(top);
    value
}

/// Takes bounds from the top.
pub(crate) fn pop_bounds(values: &mut Stack<SemanticValue>) -> Option<Bounds>
    requires { fits (shapes.Bounds ∷ []) values.old ≡ true }
    ensures { values.old ≡ vals.Bounds result ∷ values.new }
{
    let top = values.pop();
    let value = match &top {
        Some(SemanticValue::Bounds(value)) => *value,
        _ => unreachable!(),
    };
    lost(top);
    value
}

/// Takes a type from the top.
pub(crate) fn pop_type(values: &mut Stack<SemanticValue>) -> TypeExpr
    requires { fits (shapes.Type ∷ []) values.old ≡ true }
    ensures { values.old ≡ vals.Type result ∷ values.new }
{
    match values.pop() {
        Some(SemanticValue::Type(value)) => value,
        _ => unreachable!(),
    }
}

/// Takes statements from the top.
pub(crate) fn pop_items(values: &mut Stack<SemanticValue>) -> Sequence<StmtId>
    requires { fits (shapes.Items ∷ []) values.old ≡ true }
    ensures { values.old ≡ vals.Items result ∷ values.new }
{
    match values.pop() {
        Some(SemanticValue::Items(value)) => value,
        _ => unreachable!(),
    }
}

/// Takes a block from the top.
pub(crate) fn pop_block(values: &mut Stack<SemanticValue>) -> Block
    requires { fits (shapes.Block ∷ []) values.old ≡ true }
    ensures { values.old ≡ vals.Block result ∷ values.new }
{
    match values.pop() {
        Some(SemanticValue::Block(value)) => value,
        _ => unreachable!(),
    }
}

/// Takes a statement from the top.
pub(crate) fn pop_stmt(values: &mut Stack<SemanticValue>) -> StmtId
    requires { fits (shapes.Stmt ∷ []) values.old ≡ true }
    ensures { values.old ≡ vals.Stmt result ∷ values.new }
{
    let top = values.pop();
    let value = match &top {
        Some(SemanticValue::Stmt(value)) => *value,
        _ => unreachable!(),
    };
    lost(top);
    value
}

/// Takes a target from the top.
pub(crate) fn pop_target(values: &mut Stack<SemanticValue>) -> Target
    requires { fits (shapes.Target ∷ []) values.old ≡ true }
    ensures { values.old ≡ vals.Target result ∷ values.new }
{
    let top = values.pop();
    let value = match &top {
        Some(SemanticValue::Target(value)) => *value,
        _ => unreachable!(),
    };
    lost(top);
    value
}

/// Takes the arms of an `if` from the top.
pub(crate) fn pop_arms(values: &mut Stack<SemanticValue>) -> Sequence<Arm>
    requires { fits (shapes.Arms ∷ []) values.old ≡ true }
    ensures { values.old ≡ vals.Arms result ∷ values.new }
{
    match values.pop() {
        Some(SemanticValue::Arms(value)) => value,
        _ => unreachable!(),
    }
}

/// Takes the block after a last `else` from the top.
pub(crate) fn pop_otherwise(values: &mut Stack<SemanticValue>) -> Option<Block>
    requires { fits (shapes.Otherwise ∷ []) values.old ≡ true }
    ensures { values.old ≡ vals.Otherwise result ∷ values.new }
{
    match values.pop() {
        Some(SemanticValue::Otherwise(value)) => value,
        _ => unreachable!(),
    }
}

/// Takes the promises of a loop from the top.
pub(crate) fn pop_clauses(values: &mut Stack<SemanticValue>) -> Sequence<LoopClause>
    requires { fits (shapes.Clauses ∷ []) values.old ≡ true }
    ensures { values.old ≡ vals.Clauses result ∷ values.new }
{
    match values.pop() {
        Some(SemanticValue::Clauses(value)) => value,
        _ => unreachable!(),
    }
}

/// Takes a label from the top.
pub(crate) fn pop_label(values: &mut Stack<SemanticValue>) -> Option<Name>
    requires { fits (shapes.Label ∷ []) values.old ≡ true }
    ensures { values.old ≡ vals.Label result ∷ values.new }
{
    let top = values.pop();
    let value = match &top {
        Some(SemanticValue::Label(value)) => *value,
        _ => unreachable!(),
    };
    lost(top);
    value
}

/// Takes an axiom with what is given to it from the top.
pub(crate) fn pop_via(values: &mut Stack<SemanticValue>) -> Option<Via>
    requires { fits (shapes.Via ∷ []) values.old ≡ true }
    ensures { values.old ≡ vals.Via result ∷ values.new }
{
    match values.pop() {
        Some(SemanticValue::Via(value)) => value,
        _ => unreachable!(),
    }
}

/// Takes fields from the top.
pub(crate) fn pop_fields(values: &mut Stack<SemanticValue>) -> Sequence<Field>
    requires { fits (shapes.Fields ∷ []) values.old ≡ true }
    ensures { values.old ≡ vals.Fields result ∷ values.new }
{
    match values.pop() {
        Some(SemanticValue::Fields(value)) => value,
        _ => unreachable!(),
    }
}

/// Takes the result of a method from the top.
pub(crate) fn pop_result(values: &mut Stack<SemanticValue>) -> Option<TypeExpr>
    requires { fits (shapes.Result ∷ []) values.old ≡ true }
    ensures { values.old ≡ vals.Result result ∷ values.new }
{
    match values.pop() {
        Some(SemanticValue::Result(value)) => value,
        _ => unreachable!(),
    }
}
