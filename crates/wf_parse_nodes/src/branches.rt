// Branches, loops, and jumps out of them.

ghost use Rattle.std.specs.Prelude.{◌≡◌, ◌<◌, [], ◌∷◌, true, IfOk};
ghost use Rattle.wf_parse_grammar.specs.declared.symbols.Action.TheVariants as does;
ghost use Rattle.wf_parse_nodes.specs.Making.{making};
ghost use Rattle.wf_parse_nodes.specs.Products as makes;
ghost use Rattle.wf_parse_nodes.specs.Shapes.{fits};
ghost use Rattle.wf_parse_nodes.specs.declared.shapes.Shape.TheVariants as shapes;

use crate::pops::{
    pop_arms, pop_block, pop_clauses, pop_expr, pop_label, pop_name, pop_otherwise, pop_place,
};
use crate::values::SemanticValue;
use stacks::Stack;
use wf_ast::parsed::{Arm, Clause, LoopClause, Stmt, StmtNode};
use wf_text::NoMemory;

/// One arm more of an `if`.
pub(crate) fn add_arm(values: &mut Stack<SemanticValue>) -> Result<SemanticValue, NoMemory>
    requires { fits (shapes.Block ∷ shapes.Expr ∷ shapes.Arms ∷ []) values.old ≡ true }
    ensures { IfOk result (λ value. making does.AddArm values.old ≡ record { product = makes.Value value; vals = values.new }) }
{
    let body = pop_block(values);
    let condition = pop_expr(values);
    let mut arms = pop_arms(values);
    arms.push(Arm { condition, body })?;
    Ok(SemanticValue::Arms(arms))
}

/// The block after a last `else`.
pub(crate) fn some_else(values: &mut Stack<SemanticValue>) -> SemanticValue
    requires { fits (shapes.Block ∷ []) values.old ≡ true }
    ensures { making does.SomeElse values.old ≡ record { product = makes.Value result; vals = values.new } }
{
    let body = pop_block(values);
    SemanticValue::Otherwise(Some(body))
}

/// A whole `if`.
pub(crate) fn if_stmt(values: &mut Stack<SemanticValue>) -> StmtNode
    requires { fits (shapes.Otherwise ∷ shapes.Arms ∷ shapes.Place ∷ []) values.old ≡ true }
    ensures { making does.IfStmt values.old ≡ record { product = makes.Stmt result; vals = values.new } }
{
    let otherwise = pop_otherwise(values);
    let arms = pop_arms(values);
    let at = pop_place(values);
    StmtNode {
        stmt: Stmt::If { arms, otherwise },
        at,
    }
}

/// One promise more of a loop.
pub(crate) fn add_clause(
    kind: Clause,
    values: &mut Stack<SemanticValue>,
) -> Result<SemanticValue, NoMemory>
    requires { fits (shapes.Expr ∷ shapes.Place ∷ shapes.Clauses ∷ []) values.old ≡ true }
    ensures { IfOk result (λ value. making (does.AddClause kind) values.old ≡ record { product = makes.Value value; vals = values.new }) }
{
    let condition = pop_expr(values);
    let at = pop_place(values);
    let mut clauses = pop_clauses(values);
    clauses.push(LoopClause {
        kind,
        condition,
        at,
    })?;
    Ok(SemanticValue::Clauses(clauses))
}

/// A loop without a label.
pub(crate) fn loop_stmt(values: &mut Stack<SemanticValue>) -> StmtNode
    requires { fits (shapes.Block ∷ shapes.Clauses ∷ shapes.Expr ∷ shapes.Place ∷ []) values.old ≡ true }
    ensures { making does.LoopStmt values.old ≡ record { product = makes.Stmt result; vals = values.new } }
{
    let body = pop_block(values);
    let clauses = pop_clauses(values);
    let condition = pop_expr(values);
    let at = pop_place(values);
    StmtNode {
        stmt: Stmt::While {
            label: None,
            condition,
            clauses,
            body,
        },
        at,
    }
}

/// A loop with a label.
pub(crate) fn labelled_stmt(values: &mut Stack<SemanticValue>) -> StmtNode
    requires { fits (shapes.Block ∷ shapes.Clauses ∷ shapes.Expr ∷ shapes.Name ∷ shapes.Place ∷ []) values.old ≡ true }
    ensures { making does.LabelledStmt values.old ≡ record { product = makes.Stmt result; vals = values.new } }
{
    let body = pop_block(values);
    let clauses = pop_clauses(values);
    let condition = pop_expr(values);
    let label = pop_name(values);
    let at = pop_place(values);
    StmtNode {
        stmt: Stmt::While {
            label: Some(label),
            condition,
            clauses,
            body,
        },
        at,
    }
}

/// The label of a jump.
pub(crate) fn some_label(values: &mut Stack<SemanticValue>) -> SemanticValue
    requires { fits (shapes.Name ∷ []) values.old ≡ true }
    ensures { making does.SomeLabel values.old ≡ record { product = makes.Value result; vals = values.new } }
{
    let name = pop_name(values);
    SemanticValue::Label(Some(name))
}

/// A `break`.
pub(crate) fn break_stmt(values: &mut Stack<SemanticValue>) -> StmtNode
    requires { fits (shapes.Label ∷ shapes.Place ∷ []) values.old ≡ true }
    ensures { making does.BreakStmt values.old ≡ record { product = makes.Stmt result; vals = values.new } }
{
    let label = pop_label(values);
    let at = pop_place(values);
    StmtNode {
        stmt: Stmt::Break(label),
        at,
    }
}

/// A `continue`.
pub(crate) fn continue_stmt(values: &mut Stack<SemanticValue>) -> StmtNode
    requires { fits (shapes.Label ∷ shapes.Place ∷ []) values.old ≡ true }
    ensures { making does.ContinueStmt values.old ≡ record { product = makes.Stmt result; vals = values.new } }
{
    let label = pop_label(values);
    let at = pop_place(values);
    StmtNode {
        stmt: Stmt::Continue(label),
        at,
    }
}
