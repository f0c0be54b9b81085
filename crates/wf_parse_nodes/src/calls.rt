// Calls.

ghost use Rattle.std.specs.Prelude.{◌≡◌, ◌<◌, [], ◌∷◌, true, IfOk};
ghost use Rattle.wf_parse_grammar.specs.declared.symbols.Action.TheVariants as does;
ghost use Rattle.wf_parse_nodes.specs.Making.{making};
ghost use Rattle.wf_parse_nodes.specs.Products as makes;
ghost use Rattle.wf_parse_nodes.specs.Shapes.{fits};
ghost use Rattle.wf_parse_nodes.specs.declared.shapes.Shape.TheVariants as shapes;

use crate::pops::{pop_expr, pop_givens, pop_mark, pop_name, pop_receiver};
use crate::values::SemanticValue;
use stacks::Stack;
use wf_ast::parsed::{Call, Given};
use wf_text::NoMemory;

/// One argument more.
pub(crate) fn add_given(values: &mut Stack<SemanticValue>) -> Result<SemanticValue, NoMemory>
    requires { fits (shapes.Expr ∷ shapes.Name ∷ shapes.Givens ∷ []) values.old ≡ true }
    ensures { IfOk result (λ value. making does.AddGiven values.old ≡ record { product = makes.Value value; vals = values.new }) }
{
    let value = pop_expr(values);
    let name = pop_name(values);
    let mut givens = pop_givens(values);
    givens.push(Given { name, value })?;
    Ok(SemanticValue::Givens(givens))
}

/// A whole call.
pub(crate) fn finish_call(values: &mut Stack<SemanticValue>) -> SemanticValue
    requires { fits (shapes.Givens ∷ shapes.Mark ∷ shapes.Name ∷ shapes.Receiver ∷ []) values.old ≡ true }
    ensures { making does.FinishCall values.old ≡ record { product = makes.Value result; vals = values.new } }
{
    let given = pop_givens(values);
    let mark = pop_mark(values);
    let method = pop_name(values);
    let on = pop_receiver(values);
    SemanticValue::Call(Call {
        on,
        method,
        mark,
        args: given,
    })
}
