// Paths, and what calls are made on.

ghost use Rattle.std.specs.Prelude.{◌≡◌, ◌<◌, [], ◌∷◌, true, IfOk};
ghost use Rattle.wf_parse_grammar.specs.declared.symbols.Action.TheVariants as does;
ghost use Rattle.wf_parse_nodes.specs.Making.{making};
ghost use Rattle.wf_parse_nodes.specs.Products as makes;
ghost use Rattle.wf_parse_nodes.specs.Shapes.{fits};
ghost use Rattle.wf_parse_nodes.specs.declared.shapes.Shape.TheVariants as shapes;

use crate::pops::{pop_name, pop_path, pop_place};
use crate::values::SemanticValue;
use stacks::Stack;
use wf_ast::parsed::{Path, Receiver, Root};
use wf_text::NoMemory;

/// A name after `this` and a dot.
pub(crate) fn this_path(values: &mut Stack<SemanticValue>) -> SemanticValue
    requires { fits (shapes.Name ∷ shapes.Place ∷ []) values.old ≡ true }
    ensures { making does.ThisPath values.old ≡ record { product = makes.Value result; vals = values.new } }
{
    let name = pop_name(values);
    let at = pop_place(values);
    SemanticValue::Path(Path {
        root: Root::This,
        name,
        at,
    })
}

/// A name after `args` and a dot.
pub(crate) fn args_path(values: &mut Stack<SemanticValue>) -> SemanticValue
    requires { fits (shapes.Name ∷ shapes.Place ∷ []) values.old ≡ true }
    ensures { making does.ArgsPath values.old ≡ record { product = makes.Value result; vals = values.new } }
{
    let name = pop_name(values);
    let at = pop_place(values);
    SemanticValue::Path(Path {
        root: Root::Args,
        name,
        at,
    })
}

/// A path that a call is made on.
pub(crate) fn path_receiver(values: &mut Stack<SemanticValue>) -> SemanticValue
    requires { fits (shapes.Path ∷ []) values.old ≡ true }
    ensures { making does.PathReceiver values.old ≡ record { product = makes.Value result; vals = values.new } }
{
    let path = pop_path(values);
    SemanticValue::Receiver(Receiver::Path(path))
}

/// `this` that a call is made on, below the method's name.
pub(crate) fn this_method(values: &mut Stack<SemanticValue>) -> Result<SemanticValue, NoMemory>
    requires { fits (shapes.Name ∷ shapes.Place ∷ []) values.old ≡ true }
    ensures { IfOk result (λ value. making does.ThisMethod values.old ≡ record { product = makes.Value value; vals = values.new }) }
{
    let name = pop_name(values);
    let at = pop_place(values);
    values.push(SemanticValue::Receiver(Receiver::This(at)))?;
    Ok(SemanticValue::Name(name))
}
