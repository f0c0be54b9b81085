// Statements but for those with blocks.

ghost use Rattle.std.specs.Prelude.{◌≡◌, ◌<◌, [], ◌∷◌, true, IfOk};
ghost use Rattle.wf_parse_grammar.specs.declared.symbols.Action.TheVariants as does;
ghost use Rattle.wf_parse_nodes.specs.Making.{making};
ghost use Rattle.wf_parse_nodes.specs.Products as makes;
ghost use Rattle.wf_parse_nodes.specs.Shapes.{fits};
ghost use Rattle.wf_parse_nodes.specs.declared.shapes.Shape.TheVariants as shapes;

use crate::pops::{
    pop_call, pop_expr, pop_givens, pop_items, pop_name, pop_part, pop_path, pop_place, pop_sign,
    pop_stmt, pop_target, pop_type, pop_via,
};
use crate::values::SemanticValue;
use stacks::Stack;
use wf_ast::parsed::{Block, Stmt, StmtNode, Target, Via};
use wf_text::{NoMemory, Place};

/// One statement more of a block.
pub(crate) fn add_stmt(values: &mut Stack<SemanticValue>) -> Result<SemanticValue, NoMemory>
    requires { fits (shapes.Stmt ∷ shapes.Items ∷ []) values.old ≡ true }
    ensures { IfOk result (λ value. making does.AddStmt values.old ≡ record { product = makes.Value value; vals = values.new }) }
{
    let stmt = pop_stmt(values);
    let mut items = pop_items(values);
    items.push(stmt)?;
    Ok(SemanticValue::Items(items))
}

/// A whole block.
pub(crate) fn close_block(close: Place, values: &mut Stack<SemanticValue>) -> SemanticValue
    requires { fits (shapes.Items ∷ []) values.old ≡ true }
    ensures { making (does.CloseBlock close) values.old ≡ record { product = makes.Value result; vals = values.new } }
{
    let items = pop_items(values);
    SemanticValue::Block(Block { items, close })
}

/// A declaration of a local.
pub(crate) fn var_stmt(values: &mut Stack<SemanticValue>) -> StmtNode
    requires { fits (shapes.Type ∷ shapes.Name ∷ shapes.Place ∷ []) values.old ≡ true }
    ensures { making does.VarStmt values.old ≡ record { product = makes.Stmt result; vals = values.new } }
{
    let of = pop_type(values);
    let name = pop_name(values);
    let at = pop_place(values);
    StmtNode {
        stmt: Stmt::Var { name, of },
        at,
    }
}

/// A path that is written to.
pub(crate) fn path_target(values: &mut Stack<SemanticValue>) -> SemanticValue
    requires { fits (shapes.Path ∷ []) values.old ≡ true }
    ensures { making does.PathTarget values.old ≡ record { product = makes.Value result; vals = values.new } }
{
    let path = pop_path(values);
    SemanticValue::Target(Target::Path(path))
}

/// An element that is written to.
pub(crate) fn element_target(values: &mut Stack<SemanticValue>) -> SemanticValue
    requires { fits (shapes.Expr ∷ shapes.Place ∷ shapes.Path ∷ []) values.old ≡ true }
    ensures { making does.ElementTarget values.old ≡ record { product = makes.Value result; vals = values.new } }
{
    let index = pop_expr(values);
    let at = pop_place(values);
    let base = pop_path(values);
    SemanticValue::Target(Target::Element { base, index, at })
}

/// An assignment.
pub(crate) fn assign_stmt(values: &mut Stack<SemanticValue>) -> StmtNode
    requires { fits (shapes.Expr ∷ shapes.Sign ∷ shapes.Target ∷ shapes.Place ∷ []) values.old ≡ true }
    ensures { making does.AssignStmt values.old ≡ record { product = makes.Stmt result; vals = values.new } }
{
    let value = pop_expr(values);
    let sign = pop_sign(values);
    let target = pop_target(values);
    let at = pop_place(values);
    StmtNode {
        stmt: Stmt::Assign {
            target,
            op: sign.op,
            sign: sign.at,
            value,
        },
        at,
    }
}

/// An assignment by `=?`.
pub(crate) fn keep_stmt(values: &mut Stack<SemanticValue>) -> StmtNode
    requires { fits (shapes.Call ∷ shapes.Target ∷ shapes.Place ∷ []) values.old ≡ true }
    ensures { making does.KeepStmt values.old ≡ record { product = makes.Stmt result; vals = values.new } }
{
    let call = pop_call(values);
    let target = pop_target(values);
    let at = pop_place(values);
    StmtNode {
        stmt: Stmt::Keep { target, call },
        at,
    }
}

/// A call as a statement.
pub(crate) fn call_stmt(values: &mut Stack<SemanticValue>) -> StmtNode
    requires { fits (shapes.Call ∷ shapes.Place ∷ []) values.old ≡ true }
    ensures { making does.CallStmt values.old ≡ record { product = makes.Stmt result; vals = values.new } }
{
    let call = pop_call(values);
    let at = pop_place(values);
    StmtNode {
        stmt: Stmt::Call(call),
        at,
    }
}

/// A `return`.
pub(crate) fn return_stmt(values: &mut Stack<SemanticValue>) -> StmtNode
    requires { fits (shapes.Part ∷ shapes.Place ∷ []) values.old ≡ true }
    ensures { making does.ReturnStmt values.old ≡ record { product = makes.Stmt result; vals = values.new } }
{
    let value = pop_part(values);
    let at = pop_place(values);
    StmtNode {
        stmt: Stmt::Return(value),
        at,
    }
}

/// A `yield`.
pub(crate) fn yield_stmt(values: &mut Stack<SemanticValue>) -> StmtNode
    requires { fits (shapes.Expr ∷ shapes.Place ∷ []) values.old ≡ true }
    ensures { making does.YieldStmt values.old ≡ record { product = makes.Stmt result; vals = values.new } }
{
    let value = pop_expr(values);
    let at = pop_place(values);
    StmtNode {
        stmt: Stmt::Yield(value),
        at,
    }
}

/// An axiom with what is given to it.
pub(crate) fn some_via(values: &mut Stack<SemanticValue>) -> SemanticValue
    requires { fits (shapes.Givens ∷ shapes.Name ∷ []) values.old ≡ true }
    ensures { making does.SomeVia values.old ≡ record { product = makes.Value result; vals = values.new } }
{
    let given = pop_givens(values);
    let axiom = pop_name(values);
    SemanticValue::Via(Some(Via { axiom, given }))
}

/// An assertion.
pub(crate) fn assert_stmt(values: &mut Stack<SemanticValue>) -> StmtNode
    requires { fits (shapes.Via ∷ shapes.Expr ∷ shapes.Place ∷ []) values.old ≡ true }
    ensures { making does.AssertStmt values.old ≡ record { product = makes.Stmt result; vals = values.new } }
{
    let via = pop_via(values);
    let goal = pop_expr(values);
    let at = pop_place(values);
    StmtNode {
        stmt: Stmt::Assert { goal, via },
        at,
    }
}
