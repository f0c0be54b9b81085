// What is made of types, as their last token is read.

ghost use Rattle.std.specs.Prelude.{◌≡◌, [], ◌∷◌, true, IfOk};
ghost use Rattle.c_read_grammar.specs.declared.actions.Action.TheVariants as acts;
ghost use Rattle.c_read_grammar.specs.declared.actions.TypeAction.TheVariants as does;
ghost use Rattle.c_read_nodes.specs.Making.{making};
ghost use Rattle.c_read_nodes.specs.Shapes.{fits, takes_type, is_plain};
ghost use Rattle.c_read_nodes.specs.declared.shapes.Shape.TheVariants as shapes;

use crate::pops::{pop_name, pop_uint_type};
use crate::values::{Product, SemanticValue};
use c_read_grammar::TypeAction;
use c_text::CType;
use stacks::Stack;
use std::alloc::Global;
use wf_text::NoMemory;

/// A pointer to such a type.
pub(crate) fn make_uint_pointer(values: &mut Stack<SemanticValue>) -> Product
    requires { fits (shapes.UintType ∷ []) values.old ≡ true }
    ensures { making (acts.Type does.MakeUintPointer) values.old ≡ record { product = result; vals = values.new } }
{
    let uint = pop_uint_type(values);
    Product::Value(SemanticValue::Type(CType::UintPointer(uint)))
}

/// A pointer to a struct.
pub(crate) fn make_struct_pointer(values: &mut Stack<SemanticValue>) -> Product
    requires { fits (shapes.Name ∷ []) values.old ≡ true }
    ensures { making (acts.Type does.MakeStructPointer) values.old ≡ record { product = result; vals = values.new } }
{
    let name = pop_name(values);
    Product::Value(SemanticValue::Type(CType::StructPointer(name)))
}

/// Takes the action's values from the stack, and answers what is made of them.
pub(crate) fn make(
    alloc: Global,
    action: TypeAction,
    values: &mut Stack<SemanticValue>,
) -> Result<Product, NoMemory>
    requires fit { fits (takes_type action) values.old ≡ true }
    requires plain { is_plain (acts.Type action) ≡ true }
    ensures { IfOk result (λ product. making (acts.Type action) values.old ≡ record { product = product; vals = values.new }) }
{
    match action {
        TypeAction::MakeUint(uint) => Ok(Product::Value(SemanticValue::Type(CType::Uint(uint)))),
        TypeAction::MakeUintPointer => Ok(make_uint_pointer(values)),
        TypeAction::MakeSize => Ok(Product::Value(SemanticValue::Type(CType::Size))),
        TypeAction::MakeBool => Ok(Product::Value(SemanticValue::Type(CType::Bool))),
        TypeAction::MakeStructPointer => Ok(make_struct_pointer(values)),
        TypeAction::MakeText => Ok(Product::Value(SemanticValue::Type(CType::Text))),
    }
}
