// What is made of items, as their last token is read.

ghost use Rattle.std.specs.Prelude.{◌≡◌, [], ◌∷◌, true, IfOk};
ghost use Rattle.c_read_grammar.specs.declared.actions.Action.TheVariants as acts;
ghost use Rattle.c_read_grammar.specs.declared.actions.ItemAction.TheVariants as does;
ghost use Rattle.c_read_nodes.specs.Making.{making};
ghost use Rattle.c_read_nodes.specs.Shapes.{fits, takes_item, is_plain};
ghost use Rattle.c_read_nodes.specs.declared.shapes.Shape.TheVariants as shapes;

use crate::pops::{
    pop_code, pop_expr, pop_field, pop_fields, pop_locals, pop_name, pop_number, pop_outcome,
    pop_params, pop_some_fields, pop_text, pop_type, pop_unit,
};
use crate::values::{Outcome, Product, SemanticValue};
use c_read_grammar::ItemAction;
use c_text::{CField, CFieldType, CItem, CList, CLocal, CParam, Linkage};
use stacks::Stack;
use std::alloc::Global;
use wf_text::NoMemory;

/// A field of a type.
pub(crate) fn make_field(values: &mut Stack<SemanticValue>) -> Product
    requires { fits (shapes.Name ∷ shapes.Type ∷ []) values.old ≡ true }
    ensures { making (acts.Item does.MakeField) values.old ≡ record { product = result; vals = values.new } }
{
    let name = pop_name(values);
    let kind = pop_type(values);
    Product::Value(SemanticValue::Field(CField {
        kind: CFieldType::Plain(kind),
        name,
        count: None,
    }))
}

/// A field that is a struct.
pub(crate) fn make_struct_field(values: &mut Stack<SemanticValue>) -> Product
    requires { fits (shapes.Name ∷ shapes.Name ∷ []) values.old ≡ true }
    ensures { making (acts.Item does.MakeStructField) values.old ≡ record { product = result; vals = values.new } }
{
    let name = pop_name(values);
    let of = pop_name(values);
    Product::Value(SemanticValue::Field(CField {
        kind: CFieldType::Struct(of),
        name,
        count: None,
    }))
}

/// The count of a field.
pub(crate) fn set_count(values: &mut Stack<SemanticValue>) -> Product
    requires { fits (shapes.Number ∷ shapes.Field ∷ []) values.old ≡ true }
    ensures { making (acts.Item does.SetCount) values.old ≡ record { product = result; vals = values.new } }
{
    let count = pop_number(values);
    let field = pop_field(values);
    Product::Value(SemanticValue::Field(CField {
        kind: field.kind,
        name: field.name,
        count: Some(count),
    }))
}

/// One field more.
pub(crate) fn add_field(values: &mut Stack<SemanticValue>) -> Result<Product, NoMemory>
    requires { fits (shapes.Field ∷ shapes.Fields ∷ []) values.old ≡ true }
    ensures { IfOk result (λ product. making (acts.Item does.AddField) values.old ≡ record { product = product; vals = values.new }) }
{
    let field = pop_field(values);
    let fields = pop_fields(values);
    let mut fields = fields;
    fields.push(field)?;
    Ok(Product::Value(SemanticValue::Fields(fields)))
}

/// A struct.
pub(crate) fn make_struct(values: &mut Stack<SemanticValue>) -> Product
    requires { fits (shapes.Name ∷ shapes.SomeFields ∷ shapes.Unit ∷ []) values.old ≡ true }
    ensures { making (acts.Item does.MakeStruct) values.old ≡ record { product = result; vals = values.new } }
{
    let name = pop_name(values);
    let fields = pop_some_fields(values);
    pop_unit(values);
    Product::Item(CItem::Struct { fields, name })
}

/// A string object.
pub(crate) fn make_text_item(values: &mut Stack<SemanticValue>) -> Product
    requires { fits (shapes.Text ∷ shapes.Name ∷ shapes.Unit ∷ []) values.old ≡ true }
    ensures { making (acts.Item does.MakeTextItem) values.old ≡ record { product = result; vals = values.new } }
{
    let text = pop_text(values);
    let name = pop_name(values);
    pop_unit(values);
    Product::Item(CItem::Text { name, text })
}

/// What a function results in.
pub(crate) fn make_result(linkage: Linkage, values: &mut Stack<SemanticValue>) -> Product
    requires { fits (shapes.Type ∷ []) values.old ≡ true }
    ensures { making (acts.Item (does.MakeResult linkage)) values.old ≡ record { product = result; vals = values.new } }
{
    let kind = pop_type(values);
    Product::Value(SemanticValue::Outcome(Outcome {
        linkage,
        of: Some(kind),
    }))
}

/// One parameter more.
pub(crate) fn add_param(values: &mut Stack<SemanticValue>) -> Result<Product, NoMemory>
    requires { fits (shapes.Name ∷ shapes.Type ∷ shapes.Params ∷ []) values.old ≡ true }
    ensures { IfOk result (λ product. making (acts.Item does.AddParam) values.old ≡ record { product = product; vals = values.new }) }
{
    let name = pop_name(values);
    let kind = pop_type(values);
    let params = pop_params(values);
    let mut params = params;
    params.push(CParam { kind, name })?;
    Ok(Product::Value(SemanticValue::Params(params)))
}

/// One local more.
pub(crate) fn add_local(values: &mut Stack<SemanticValue>) -> Result<Product, NoMemory>
    requires { fits (shapes.Name ∷ shapes.Type ∷ shapes.Locals ∷ []) values.old ≡ true }
    ensures { IfOk result (λ product. making (acts.Item does.AddLocal) values.old ≡ record { product = product; vals = values.new }) }
{
    let name = pop_name(values);
    let kind = pop_type(values);
    let locals = pop_locals(values);
    let mut locals = locals;
    locals.push(CLocal {
        kind,
        name,
        initial: None,
    })?;
    Ok(Product::Value(SemanticValue::Locals(locals)))
}

/// One local more, with its initial value.
pub(crate) fn add_initial_local(values: &mut Stack<SemanticValue>) -> Result<Product, NoMemory>
    requires { fits (shapes.Expr ∷ shapes.Name ∷ shapes.Type ∷ shapes.Locals ∷ []) values.old ≡ true }
    ensures { IfOk result (λ product. making (acts.Item does.AddInitialLocal) values.old ≡ record { product = product; vals = values.new }) }
{
    let initial = pop_expr(values);
    let name = pop_name(values);
    let kind = pop_type(values);
    let locals = pop_locals(values);
    let mut locals = locals;
    locals.push(CLocal {
        kind,
        name,
        initial: Some(initial),
    })?;
    Ok(Product::Value(SemanticValue::Locals(locals)))
}

/// A function.
pub(crate) fn make_function(values: &mut Stack<SemanticValue>) -> Product
    requires { fits (shapes.Code ∷ shapes.Locals ∷ shapes.Params ∷ shapes.Name ∷ shapes.Outcome ∷ shapes.Unit ∷ []) values.old ≡ true }
    ensures { making (acts.Item does.MakeFunction) values.old ≡ record { product = result; vals = values.new } }
{
    let body = pop_code(values);
    let locals = pop_locals(values);
    let params = pop_params(values);
    let name = pop_name(values);
    let outcome = pop_outcome(values);
    pop_unit(values);
    Product::Item(CItem::Function {
        linkage: outcome.linkage,
        result: outcome.of,
        name,
        params,
        locals,
        body,
    })
}

/// Takes the action's values from the stack, and answers what is made of them.
pub(crate) fn make(
    alloc: Global,
    action: ItemAction,
    values: &mut Stack<SemanticValue>,
) -> Result<Product, NoMemory>
    requires fit { fits (takes_item action) values.old ≡ true }
    requires plain { is_plain (acts.Item action) ≡ true }
    ensures { IfOk result (λ product. making (acts.Item action) values.old ≡ record { product = product; vals = values.new }) }
{
    match action {
        ItemAction::StartFields => Ok(Product::Value(SemanticValue::Fields(CList::new(alloc)))),
        ItemAction::MakeField => Ok(make_field(values)),
        ItemAction::MakeStructField => Ok(make_struct_field(values)),
        ItemAction::SetCount => Ok(set_count(values)),
        ItemAction::AddField => add_field(values),
        ItemAction::MakeStruct => Ok(make_struct(values)),
        ItemAction::MakeTextItem => Ok(make_text_item(values)),
        ItemAction::MakeResult(linkage) => Ok(make_result(linkage, values)),
        ItemAction::MakeVoid(linkage) => Ok(Product::Value(SemanticValue::Outcome(Outcome {
            linkage,
            of: None,
        }))),
        ItemAction::StartParams => Ok(Product::Value(SemanticValue::Params(CList::new(alloc)))),
        ItemAction::AddParam => add_param(values),
        ItemAction::StartLocals => Ok(Product::Value(SemanticValue::Locals(CList::new(alloc)))),
        ItemAction::AddLocal => add_local(values),
        ItemAction::AddInitialLocal => add_initial_local(values),
        ItemAction::MakeFunction => Ok(make_function(values)),
    }
}
