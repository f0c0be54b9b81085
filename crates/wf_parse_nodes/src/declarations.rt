// Declarations and their fields.

ghost use Rattle.std.specs.Prelude.{◌≡◌, ◌<◌, [], ◌∷◌, true, IfOk};
ghost use Rattle.wf_parse_grammar.specs.declared.symbols.Action.TheVariants as does;
ghost use Rattle.wf_parse_nodes.specs.Making.{making};
ghost use Rattle.wf_parse_nodes.specs.Products as makes;
ghost use Rattle.wf_parse_nodes.specs.Shapes.{fits};
ghost use Rattle.wf_parse_nodes.specs.declared.shapes.Shape.TheVariants as shapes;

use crate::pops::{
    pop_block, pop_expr, pop_fields, pop_mark, pop_name, pop_place, pop_prefixes, pop_public,
    pop_result, pop_type,
};
use crate::values::SemanticValue;
use stacks::Stack;
use wf_ast::parsed::{Decl, DeclNode, Field};
use wf_text::NoMemory;

/// One field more.
pub(crate) fn add_field(values: &mut Stack<SemanticValue>) -> Result<SemanticValue, NoMemory>
    requires { fits (shapes.Type ∷ shapes.Name ∷ shapes.Fields ∷ []) values.old ≡ true }
    ensures { IfOk result (λ value. making does.AddField values.old ≡ record { product = makes.Value value; vals = values.new }) }
{
    let of = pop_type(values);
    let name = pop_name(values);
    let mut fields = pop_fields(values);
    fields.push(Field { name, of })?;
    Ok(SemanticValue::Fields(fields))
}

/// No result of a method.
pub(crate) fn no_result(values: &mut Stack<SemanticValue>) -> SemanticValue
    requires { fits (shapes.Prefixes ∷ []) values.old ≡ true }
    ensures { making does.NoResult values.old ≡ record { product = makes.Value result; vals = values.new } }
{
    let _prefixes = pop_prefixes(values);
    SemanticValue::Result(None)
}

/// The result of a method.
pub(crate) fn some_result(values: &mut Stack<SemanticValue>) -> SemanticValue
    requires { fits (shapes.Type ∷ []) values.old ≡ true }
    ensures { making does.SomeResult values.old ≡ record { product = makes.Value result; vals = values.new } }
{
    let of = pop_type(values);
    SemanticValue::Result(Some(of))
}

/// A status.
pub(crate) fn status_decl(values: &mut Stack<SemanticValue>) -> DeclNode
    requires { fits (shapes.Name ∷ shapes.Place ∷ shapes.Public ∷ []) values.old ≡ true }
    ensures { making does.StatusDecl values.old ≡ record { product = makes.Decl result; vals = values.new } }
{
    let text = pop_name(values);
    let at = pop_place(values);
    let public = pop_public(values);
    DeclNode {
        public,
        decl: Decl::Status(text),
        at,
    }
}

/// A constant.
pub(crate) fn const_decl(values: &mut Stack<SemanticValue>) -> DeclNode
    requires { fits (shapes.Expr ∷ shapes.Type ∷ shapes.Name ∷ shapes.Place ∷ shapes.Public ∷ []) values.old ≡ true }
    ensures { making does.ConstDecl values.old ≡ record { product = makes.Decl result; vals = values.new } }
{
    let value = pop_expr(values);
    let of = pop_type(values);
    let name = pop_name(values);
    let at = pop_place(values);
    let public = pop_public(values);
    DeclNode {
        public,
        decl: Decl::Const { name, of, value },
        at,
    }
}

/// A struct.
pub(crate) fn struct_decl(values: &mut Stack<SemanticValue>) -> DeclNode
    requires { fits (shapes.Fields ∷ shapes.Mark ∷ shapes.Name ∷ shapes.Place ∷ shapes.Public ∷ []) values.old ≡ true }
    ensures { making does.StructDecl values.old ≡ record { product = makes.Decl result; vals = values.new } }
{
    let fields = pop_fields(values);
    let mark = pop_mark(values);
    let name = pop_name(values);
    let at = pop_place(values);
    let public = pop_public(values);
    DeclNode {
        public,
        decl: Decl::Struct { name, mark, fields },
        at,
    }
}

/// A method.
pub(crate) fn method_decl(values: &mut Stack<SemanticValue>) -> DeclNode
    requires { fits (shapes.Block ∷ shapes.Result ∷ shapes.Fields ∷ shapes.Mark ∷ shapes.Name ∷ shapes.Name ∷ shapes.Place ∷ shapes.Public ∷ []) values.old ≡ true }
    ensures { making does.MethodDecl values.old ≡ record { product = makes.Decl result; vals = values.new } }
{
    let body = pop_block(values);
    let gives = pop_result(values);
    let args = pop_fields(values);
    let mark = pop_mark(values);
    let name = pop_name(values);
    let of = pop_name(values);
    let at = pop_place(values);
    let public = pop_public(values);
    DeclNode {
        public,
        decl: Decl::Method {
            of,
            name,
            mark,
            args,
            gives,
            body,
        },
        at,
    }
}
