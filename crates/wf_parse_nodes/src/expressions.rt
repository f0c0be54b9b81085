// Expressions, as their last token is read.

ghost use Rattle.std.specs.Prelude.{◌≡◌, ◌<◌, [], ◌∷◌, true, IfOk};
ghost use Rattle.wf_parse_grammar.specs.declared.symbols.Action.TheVariants as does;
ghost use Rattle.wf_ast.specs.declared.parsed.Expr.TheVariants as exprs;
ghost use Rattle.wf_parse_nodes.specs.Making.{making};
ghost use Rattle.wf_parse_nodes.specs.Products as makes;
ghost use Rattle.wf_parse_nodes.specs.Shapes.{fits};
ghost use Rattle.wf_parse_nodes.specs.declared.shapes.Shape.TheVariants as shapes;

use crate::pops::{
    pop_call, pop_chain, pop_expr, pop_name, pop_part, pop_path, pop_place, pop_type,
};
use crate::values::{OpenChain, SemanticValue};
use stacks::Stack;
use std::alloc::Global;
use wf_ast::parsed::{Expr, ExprNode, Link, Name};
use wf_ast::{Op, Sequence};
use wf_text::{NoMemory, Place};

/// A number.
pub(crate) fn number_expr(value: u64, at: Place) -> ExprNode
    ensures { result ≡ record { expr = exprs.Number value; at = at } }
{
    ExprNode {
        expr: Expr::Number(value),
        at,
    }
}

/// A status of the package.
pub(crate) fn own_status_expr(text: Name) -> ExprNode
    ensures { result ≡ record { expr = exprs.OwnStatus text; at = text.at } }
{
    ExprNode {
        expr: Expr::OwnStatus(text),
        at: text.at,
    }
}

/// `ok`
pub(crate) fn fine_expr(at: Place) -> ExprNode
    ensures { result ≡ record { expr = exprs.Fine; at = at } }
{
    ExprNode {
        expr: Expr::Fine,
        at,
    }
}

/// `true` or `false`
pub(crate) fn truth_expr(value: bool, at: Place) -> ExprNode
    ensures { result ≡ record { expr = exprs.Truth value; at = at } }
{
    ExprNode {
        expr: Expr::Truth(value),
        at,
    }
}

/// A status of the language.
pub(crate) fn base_status_expr(values: &mut Stack<SemanticValue>) -> ExprNode
    requires { fits (shapes.Name ∷ shapes.Place ∷ []) values.old ≡ true }
    ensures { making does.BaseStatusExpr values.old ≡ record { product = makes.Expr result; vals = values.new } }
{
    let text = pop_name(values);
    let at = pop_place(values);
    ExprNode {
        expr: Expr::BaseStatus(text),
        at,
    }
}

/// A path as an operand.
pub(crate) fn path_expr(values: &mut Stack<SemanticValue>) -> ExprNode
    requires { fits (shapes.Path ∷ []) values.old ≡ true }
    ensures { making does.PathExpr values.old ≡ record { product = makes.Expr result; vals = values.new } }
{
    let path = pop_path(values);
    ExprNode {
        expr: Expr::Path(path),
        at: path.at,
    }
}

/// An index.
pub(crate) fn index_expr(values: &mut Stack<SemanticValue>) -> ExprNode
    requires { fits (shapes.Expr ∷ shapes.Place ∷ shapes.Path ∷ []) values.old ≡ true }
    ensures { making does.IndexExpr values.old ≡ record { product = makes.Expr result; vals = values.new } }
{
    let index = pop_expr(values);
    let at = pop_place(values);
    let base = pop_path(values);
    ExprNode {
        expr: Expr::Index { base, index },
        at,
    }
}

/// A slice.
pub(crate) fn slice_expr(values: &mut Stack<SemanticValue>) -> ExprNode
    requires { fits (shapes.Part ∷ shapes.Part ∷ shapes.Place ∷ shapes.Path ∷ []) values.old ≡ true }
    ensures { making does.SliceExpr values.old ≡ record { product = makes.Expr result; vals = values.new } }
{
    let to = pop_part(values);
    let from = pop_part(values);
    let at = pop_place(values);
    let base = pop_path(values);
    ExprNode {
        expr: Expr::Slice { base, from, to },
        at,
    }
}

/// A call as an operand.
pub(crate) fn call_expr(values: &mut Stack<SemanticValue>) -> ExprNode
    requires { fits (shapes.Call ∷ []) values.old ≡ true }
    ensures { making does.CallExpr values.old ≡ record { product = makes.Expr result; vals = values.new } }
{
    let call = pop_call(values);
    let at = call.method.at;
    ExprNode {
        expr: Expr::Call(call),
        at,
    }
}

/// A negation.
pub(crate) fn not_expr(values: &mut Stack<SemanticValue>) -> ExprNode
    requires { fits (shapes.Expr ∷ shapes.Place ∷ []) values.old ≡ true }
    ensures { making does.NotExpr values.old ≡ record { product = makes.Expr result; vals = values.new } }
{
    let of = pop_expr(values);
    let at = pop_place(values);
    ExprNode {
        expr: Expr::Not(of),
        at,
    }
}

/// A conversion.
pub(crate) fn convert_expr(values: &mut Stack<SemanticValue>) -> ExprNode
    requires { fits (shapes.Type ∷ shapes.Place ∷ shapes.Expr ∷ []) values.old ≡ true }
    ensures { making does.ConvertExpr values.old ≡ record { product = makes.Expr result; vals = values.new } }
{
    let to = pop_type(values);
    let at = pop_place(values);
    let of = pop_expr(values);
    ExprNode {
        expr: Expr::Convert { of, to },
        at,
    }
}

/// A chain with its first operand.
pub(crate) fn start_chain(
    alloc: Global,
    op: Op,
    at: Place,
    values: &mut Stack<SemanticValue>,
) -> SemanticValue
    requires { fits (shapes.Expr ∷ []) values.old ≡ true }
    ensures { making (does.StartChain op at) values.old ≡ record { product = makes.Value result; vals = values.new } }
{
    let first = pop_expr(values);
    SemanticValue::Chain(OpenChain {
        op,
        first,
        links: Sequence::new(alloc),
        at,
    })
}

/// One operand more of a chain.
pub(crate) fn add_link(values: &mut Stack<SemanticValue>) -> Result<SemanticValue, NoMemory>
    requires { fits (shapes.Expr ∷ shapes.Place ∷ shapes.Chain ∷ []) values.old ≡ true }
    ensures { IfOk result (λ value. making does.AddLink values.old ≡ record { product = makes.Value value; vals = values.new }) }
{
    let operand = pop_expr(values);
    let sign = pop_place(values);
    let chain = pop_chain(values);
    let mut links = chain.links;
    links.push(Link { sign, operand })?;
    Ok(SemanticValue::Chain(OpenChain {
        op: chain.op,
        first: chain.first,
        links,
        at: chain.at,
    }))
}

/// A whole chain.
pub(crate) fn finish_chain(values: &mut Stack<SemanticValue>) -> ExprNode
    requires { fits (shapes.Chain ∷ []) values.old ≡ true }
    ensures { making does.FinishChain values.old ≡ record { product = makes.Expr result; vals = values.new } }
{
    let chain = pop_chain(values);
    ExprNode {
        expr: Expr::Chain {
            op: chain.op,
            first: chain.first,
            links: chain.links,
        },
        at: chain.at,
    }
}

/// An expression that might be absent.
pub(crate) fn some_part(values: &mut Stack<SemanticValue>) -> SemanticValue
    requires { fits (shapes.Expr ∷ []) values.old ≡ true }
    ensures { making does.SomePart values.old ≡ record { product = makes.Value result; vals = values.new } }
{
    let part = pop_expr(values);
    SemanticValue::Part(Some(part))
}
