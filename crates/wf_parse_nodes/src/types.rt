// Types.

ghost use Rattle.std.specs.Prelude.{◌≡◌, ◌<◌, [], ◌∷◌, true, IfOk};
ghost use Rattle.wf_parse_grammar.specs.declared.symbols.Action.TheVariants as does;
ghost use Rattle.wf_parse_nodes.specs.Products as makes;
ghost use Rattle.wf_parse_nodes.specs.Making.{making, closed_core};
ghost use Rattle.wf_parse_nodes.specs.Shapes.{fits};
ghost use Rattle.wf_parse_nodes.specs.declared.shapes.Shape.TheVariants as shapes;

use crate::pops::{pop_bounds, pop_core, pop_expr, pop_part, pop_place, pop_prefixes};
use crate::values::{OpenCore, SemanticValue};
use stacks::Stack;
use wf_ast::parsed::{Bounds, Core, Name, Prefix, TypeExpr};
use wf_text::{NoMemory, Place};

/// What a type ends with.
fn closed_core(core: OpenCore) -> Core
    ensures { result ≡ closed_core core }
{
    match core {
        OpenCore::Base { name, at } => Core::Base { name, at },
        OpenCore::Status { at } => Core::BaseStatus { at },
    }
}

/// `slice` before a type.
pub(crate) fn add_slice(
    at: Place,
    values: &mut Stack<SemanticValue>,
) -> Result<SemanticValue, NoMemory>
    requires { fits (shapes.Prefixes ∷ []) values.old ≡ true }
    ensures { IfOk result (λ value. making (does.AddSlice at) values.old ≡ record { product = makes.Value value; vals = values.new }) }
{
    let mut prefixes = pop_prefixes(values);
    prefixes.push(Prefix::Slice(at))?;
    Ok(SemanticValue::Prefixes(prefixes))
}

/// `array` with a length before a type.
pub(crate) fn add_array(values: &mut Stack<SemanticValue>) -> Result<SemanticValue, NoMemory>
    requires { fits (shapes.Expr ∷ shapes.Place ∷ shapes.Prefixes ∷ []) values.old ≡ true }
    ensures { IfOk result (λ value. making does.AddArray values.old ≡ record { product = makes.Value value; vals = values.new }) }
{
    let length = pop_expr(values);
    let at = pop_place(values);
    let mut prefixes = pop_prefixes(values);
    prefixes.push(Prefix::Array { length, at })?;
    Ok(SemanticValue::Prefixes(prefixes))
}

/// A type that ends with the name of a struct.
pub(crate) fn struct_type(name: Name, values: &mut Stack<SemanticValue>) -> SemanticValue
    requires { fits (shapes.Prefixes ∷ []) values.old ≡ true }
    ensures { making (does.StructType name) values.old ≡ record { product = makes.Value result; vals = values.new } }
{
    let prefixes = pop_prefixes(values);
    SemanticValue::Type(TypeExpr {
        prefixes,
        core: Core::Struct(name),
        bounds: None,
    })
}

/// A type of the language, by its name.
pub(crate) fn base_core(name: Name, values: &mut Stack<SemanticValue>) -> SemanticValue
    requires { fits (shapes.Place ∷ []) values.old ≡ true }
    ensures { making (does.BaseCore name) values.old ≡ record { product = makes.Value result; vals = values.new } }
{
    let at = pop_place(values);
    SemanticValue::Core(OpenCore::Base { name, at })
}

/// The type of statuses.
pub(crate) fn status_core(values: &mut Stack<SemanticValue>) -> SemanticValue
    requires { fits (shapes.Place ∷ []) values.old ≡ true }
    ensures { making does.StatusCore values.old ≡ record { product = makes.Value result; vals = values.new } }
{
    let at = pop_place(values);
    SemanticValue::Core(OpenCore::Status { at })
}

/// The bounds of a refined type.
pub(crate) fn some_bounds(values: &mut Stack<SemanticValue>) -> SemanticValue
    requires { fits (shapes.Expr ∷ shapes.Part ∷ []) values.old ≡ true }
    ensures { making does.SomeBounds values.old ≡ record { product = makes.Value result; vals = values.new } }
{
    let high = pop_expr(values);
    let low = pop_part(values);
    SemanticValue::Bounds(Some(Bounds { low, high }))
}

/// A type that ends with a type of the language.
pub(crate) fn finish_type(values: &mut Stack<SemanticValue>) -> SemanticValue
    requires { fits (shapes.Bounds ∷ shapes.Core ∷ shapes.Prefixes ∷ []) values.old ≡ true }
    ensures { making does.FinishType values.old ≡ record { product = makes.Value result; vals = values.new } }
{
    let bounds = pop_bounds(values);
    let core = pop_core(values);
    let prefixes = pop_prefixes(values);
    SemanticValue::Type(TypeExpr {
        prefixes,
        core: closed_core(core),
        bounds,
    })
}
