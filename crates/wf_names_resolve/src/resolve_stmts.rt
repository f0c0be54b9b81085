// The walk over statements and their blocks: it makes the resolved nodes of each, parts before their whole.

ghost use Rattle.std.specs.Prelude.{◌≡◌, ◌<◌, ◌++◌, ◌∷◌, [], length, IfOk, OnOk};
ghost use Rattle.std.specs.List.{AllByRecursion};
ghost use Rattle.wf_ast.specs.ParsedTrees.{expr_trees, expr_at as parsed_expr_at, stmt_trees, stmt_at as parsed_stmt_at, block_at as parsed_block_at, else_at as parsed_else_at, arms_at as parsed_arms_at, clauses_at as parsed_clauses_at, stmt_made as parsed_stmt_made};
ghost use Rattle.wf_ast.specs.ParsedParts.{BlockBelow, ElseBelow, StmtParts};
ghost use Rattle.wf_named.specs.NamedParts.{exprs_of, stmts_of, NamedStmtParts};
ghost use Rattle.wf_named.specs.NamedTree as named_tree;
ghost use Rattle.wf_named.specs.NamedTrees.{expr_at, stmt_at, block_at, else_at, arms_at, stmt_made};
ghost use Rattle.wf_names_resolve.specs.Standing.{standing_here};
ghost use Rattle.wf_names_resolve.specs.Resolved.{resolved_expr, resolved_clauses, resolved_stmt, resolved_block, resolved_arms};
ghost use Rattle.wf_names_resolve.specs.Growth.{Grows};
ghost use Rattle.wf_names_resolve.specs.Statements.{listed, stmt_in, made_in, PartsBelow, IsStmtBelow, ArmsBelow};

use crate::resolve_exprs::resolve_expr;
use crate::simple_stmts::resolve_simple;
use crate::stmt_parts::resolve_head;
use std::alloc::Global;
use wf_ast::parsed::{Arm, Block, LoopClause, Name, Stmt};
use wf_ast::{ExprId, Sequence, StmtId};
use wf_named::{NamedNodes, NamedStmt, NamedStmtNode};
use wf_names_rules::here::Here;
use wf_text::Place;
use wf_text::faults::NoMemory;

// Adds a statement whose parts are there.
fn put(nodes: &mut NamedNodes, stmt: NamedStmt, at: Place) -> Result<StmtId, NoMemory>
    requires { NamedStmtParts (length nodes.old.texts) (length nodes.old.exprs) (length nodes.old.stmts) stmt }
    ensures grows { OnOk result (Grows nodes.old nodes.new) }
    ensures below { IfOk result (λ s. s.0 < length nodes.new.stmts) }
    ensures made { IfOk result (λ s. stmt_at (stmts_of nodes.new) s ≡ stmt_made nodes.old.texts (exprs_of nodes.old) (stmts_of nodes.old) stmt at) }
{
    let s = nodes.push_stmt(NamedStmtNode { stmt, at })?;
    Ok(s)
}

// Adds a statement, if there is one.
fn put_made(
    nodes: &mut NamedNodes,
    stmt: Option<NamedStmt>,
    at: Place,
) -> Result<Option<StmtId>, NoMemory>
    requires { PartsBelow (length nodes.old.texts) (length nodes.old.exprs) (length nodes.old.stmts) stmt }
    ensures grows { OnOk result (Grows nodes.old nodes.new) }
    ensures below { IfOk result (λ r. IsStmtBelow (length nodes.new.stmts) r) }
    ensures made { IfOk result (λ r. stmt_in (stmts_of nodes.new) r ≡ made_in nodes.old.texts (exprs_of nodes.old) (stmts_of nodes.old) stmt at) }
{
    match stmt {
        Some(stmt) => {
            let s = put(nodes, stmt, at)?;
            Ok(Some(s))
        }
        None => Ok(None),
    }
}

fn add_stmt(made: &mut Sequence<StmtId>, one: Option<StmtId>) -> Result<(), NoMemory>
    ensures { OnOk result (made.new ≡ made.old ++ listed one) }
{
    match one {
        Some(s) => {
            made.push(s)?;
            Ok(())
        }
        None => Ok(()),
    }
}

// Adds the nodes of a statement, none where it declares a local. `labels` are those of the loops round it, the
// outermost first; they are as they were after it.
#[cycle(resolve_stmts)]
fn resolve_stmt(
    alloc: Global,
    nodes: &mut NamedNodes,
    here: &Here<'_>,
    labels: &mut Vec<Option<Name>>,
    s: StmtId,
) -> Result<Option<StmtId>, NoMemory>
    requires { s.0 < length here.now.parsed.now.stmts }
    ensures grows { OnOk result (Grows nodes.old nodes.new) }
    ensures labels { OnOk result (labels.new.items ≡ labels.old.items) }
    ensures below { IfOk result (λ r. IsStmtBelow (length nodes.new.stmts) r) }
    ensures made { IfOk result (λ r. stmt_in (stmts_of nodes.new) r ≡ resolved_stmt (standing_here here.now) labels.old.items (parsed_stmt_at (stmt_trees here.now.parsed.now.exprs here.now.parsed.now.stmts) s)) }
{
    let node = here.parsed.stmt(s);
    let stmt = resolve_parts(alloc, nodes, here, labels, &node.stmt)?;
    put_made(nodes, stmt, node.at)
}

// Adds the nodes of a statement's parts, and answers what it makes.
#[cycle(resolve_stmts)]
fn resolve_parts(
    alloc: Global,
    nodes: &mut NamedNodes,
    here: &Here<'_>,
    labels: &mut Vec<Option<Name>>,
    stmt: &Stmt,
) -> Result<Option<NamedStmt>, NoMemory>
    requires { StmtParts (length here.now.parsed.now.exprs) (length here.now.parsed.now.stmts) stmt.now }
    ensures grows { OnOk result (Grows nodes.old nodes.new) }
    ensures labels { OnOk result (labels.new.items ≡ labels.old.items) }
    ensures below { IfOk result (λ r. PartsBelow (length nodes.new.texts) (length nodes.new.exprs) (length nodes.new.stmts) r) }
    ensures made { IfOk result (λ r. (at : _) → made_in nodes.new.texts (exprs_of nodes.new) (stmts_of nodes.new) r at ≡ resolved_stmt (standing_here here.now) labels.old.items (parsed_stmt_made (expr_trees here.now.parsed.now.exprs) (stmt_trees here.now.parsed.now.exprs here.now.parsed.now.stmts) stmt.now at)) }
{
    match stmt {
        Stmt::If { arms, otherwise } => {
            let stmt = resolve_if(alloc, nodes, here, labels, arms.as_slice(), otherwise)?;
            Ok(Some(stmt))
        }
        Stmt::While {
            label,
            condition,
            clauses,
            body,
        } => {
            let it = Loop {
                label: *label,
                condition: *condition,
                clauses: clauses.as_slice(),
                body,
            };
            let stmt = resolve_loop(alloc, nodes, here, labels, it)?;
            Ok(Some(stmt))
        }
        _ => resolve_simple(alloc, nodes, here, labels.as_slice(), stmt),
    }
}

#[cycle(resolve_stmts)]
fn resolve_block(
    alloc: Global,
    nodes: &mut NamedNodes,
    here: &Here<'_>,
    labels: &mut Vec<Option<Name>>,
    block: &Block,
) -> Result<Block, NoMemory>
    requires { BlockBelow (length here.now.parsed.now.stmts) block.now }
    ensures grows { OnOk result (Grows nodes.old nodes.new) }
    ensures labels { OnOk result (labels.new.items ≡ labels.old.items) }
    ensures below { IfOk result (λ r. BlockBelow (length nodes.new.stmts) r) }
    ensures made { IfOk result (λ r. block_at (stmts_of nodes.new) r ≡ resolved_block (standing_here here.now) labels.old.items (parsed_block_at (stmt_trees here.now.parsed.now.exprs here.now.parsed.now.stmts) block.now)) }
{
    let mut made = Sequence::new(alloc);
    for s in block.items.as_slice() {
        let one = resolve_stmt(alloc, nodes, here, labels, *s)?;
        add_stmt(&mut made, one)?;
    }
    Ok(Block {
        items: made,
        close: block.close,
    })
}

#[cycle(resolve_stmts)]
fn resolve_arm(
    alloc: Global,
    nodes: &mut NamedNodes,
    here: &Here<'_>,
    labels: &mut Vec<Option<Name>>,
    arm: &Arm,
) -> Result<Arm, NoMemory>
    requires condition { arm.now.condition.0 < length here.now.parsed.now.exprs }
    requires body { BlockBelow (length here.now.parsed.now.stmts) arm.now.body }
    ensures grows { OnOk result (Grows nodes.old nodes.new) }
    ensures labels { OnOk result (labels.new.items ≡ labels.old.items) }
    ensures below { IfOk result (λ r. (r.condition.0 < length nodes.new.exprs) × BlockBelow (length nodes.new.stmts) r.body) }
    ensures condition { IfOk result (λ r. expr_at (exprs_of nodes.new) r.condition ≡ resolved_expr (standing_here here.now) (parsed_expr_at (expr_trees here.now.parsed.now.exprs) arm.now.condition)) }
    ensures body { IfOk result (λ r. block_at (stmts_of nodes.new) r.body ≡ resolved_block (standing_here here.now) labels.old.items (parsed_block_at (stmt_trees here.now.parsed.now.exprs here.now.parsed.now.stmts) arm.now.body)) }
{
    let condition = resolve_expr(alloc, nodes, here, arm.condition)?;
    let body = resolve_block(alloc, nodes, here, labels, &arm.body)?;
    Ok(Arm { condition, body })
}

// The arms of an `if`, which make the same before whatever stands after them.
#[cycle(resolve_stmts)]
fn resolve_arms(
    alloc: Global,
    nodes: &mut NamedNodes,
    here: &Here<'_>,
    labels: &mut Vec<Option<Name>>,
    arms: &[Arm],
) -> Result<Sequence<Arm>, NoMemory>
    requires { ArmsBelow (length here.now.parsed.now.exprs) (length here.now.parsed.now.stmts) arms.now }
    ensures grows { OnOk result (Grows nodes.old nodes.new) }
    ensures labels { OnOk result (labels.new.items ≡ labels.old.items) }
    ensures below { IfOk result (λ r. ArmsBelow (length nodes.new.exprs) (length nodes.new.stmts) r) }
    ensures made { IfOk result (λ r. (last : _) → arms_at (exprs_of nodes.new) (stmts_of nodes.new) r (resolved_arms (standing_here here.now) labels.old.items last) ≡ resolved_arms (standing_here here.now) labels.old.items (parsed_arms_at (expr_trees here.now.parsed.now.exprs) (stmt_trees here.now.parsed.now.exprs here.now.parsed.now.stmts) arms.now last)) }
{
    let mut made = Sequence::new(alloc);
    for arm in arms {
        let one = resolve_arm(alloc, nodes, here, labels, arm)?;
        made.push(one)?;
    }
    Ok(made)
}

#[cycle(resolve_stmts)]
fn resolve_else(
    alloc: Global,
    nodes: &mut NamedNodes,
    here: &Here<'_>,
    labels: &mut Vec<Option<Name>>,
    otherwise: &Option<Block>,
) -> Result<Option<Block>, NoMemory>
    requires { ElseBelow (length here.now.parsed.now.stmts) otherwise.now }
    ensures grows { OnOk result (Grows nodes.old nodes.new) }
    ensures labels { OnOk result (labels.new.items ≡ labels.old.items) }
    ensures below { IfOk result (λ r. ElseBelow (length nodes.new.stmts) r) }
    ensures made { IfOk result (λ r. else_at (stmts_of nodes.new) r ≡ resolved_arms (standing_here here.now) labels.old.items (parsed_else_at (stmt_trees here.now.parsed.now.exprs here.now.parsed.now.stmts) otherwise.now)) }
{
    match otherwise {
        Some(block) => {
            let block = resolve_block(alloc, nodes, here, labels, block)?;
            Ok(Some(block))
        }
        None => Ok(None),
    }
}

// An `if`: its arms, then its last `else`.
#[cycle(resolve_stmts)]
fn resolve_if(
    alloc: Global,
    nodes: &mut NamedNodes,
    here: &Here<'_>,
    labels: &mut Vec<Option<Name>>,
    arms: &[Arm],
    otherwise: &Option<Block>,
) -> Result<NamedStmt, NoMemory>
    requires arms { ArmsBelow (length here.now.parsed.now.exprs) (length here.now.parsed.now.stmts) arms.now }
    requires otherwise { ElseBelow (length here.now.parsed.now.stmts) otherwise.now }
    ensures grows { OnOk result (Grows nodes.old nodes.new) }
    ensures labels { OnOk result (labels.new.items ≡ labels.old.items) }
    ensures below { IfOk result (λ r. NamedStmtParts (length nodes.new.texts) (length nodes.new.exprs) (length nodes.new.stmts) r) }
    ensures made { IfOk result (λ r. (at : _) → stmt_made nodes.new.texts (exprs_of nodes.new) (stmts_of nodes.new) r at ≡ named_tree.branch (resolved_arms (standing_here here.now) labels.old.items (parsed_arms_at (expr_trees here.now.parsed.now.exprs) (stmt_trees here.now.parsed.now.exprs here.now.parsed.now.stmts) arms.now (parsed_else_at (stmt_trees here.now.parsed.now.exprs here.now.parsed.now.stmts) otherwise.now))) at) }
{
    let arms = resolve_arms(alloc, nodes, here, labels, arms)?;
    let otherwise = resolve_else(alloc, nodes, here, labels, otherwise)?;
    Ok(NamedStmt::If { arms, otherwise })
}

// The body of a loop, whose label is among those round it.
#[cycle(resolve_stmts)]
fn resolve_inside(
    alloc: Global,
    nodes: &mut NamedNodes,
    here: &Here<'_>,
    labels: &mut Vec<Option<Name>>,
    label: Option<Name>,
    body: &Block,
) -> Result<Block, NoMemory>
    requires { BlockBelow (length here.now.parsed.now.stmts) body.now }
    ensures grows { OnOk result (Grows nodes.old nodes.new) }
    ensures labels { OnOk result (labels.new.items ≡ labels.old.items) }
    ensures below { IfOk result (λ r. BlockBelow (length nodes.new.stmts) r) }
    ensures made { IfOk result (λ r. block_at (stmts_of nodes.new) r ≡ resolved_block (standing_here here.now) (labels.old.items ++ label ∷ []) (parsed_block_at (stmt_trees here.now.parsed.now.exprs here.now.parsed.now.stmts) body.now)) }
{
    labels.push(label)?;
    let block = resolve_block(alloc, nodes, here, labels, body)?;
    labels.pop();
    Ok(block)
}

// A loop as it is written.
#[derive(Clone, Copy)]
struct Loop<'a> {
    label: Option<Name>,
    condition: ExprId,
    clauses: &'a [LoopClause],
    body: &'a Block,
}

// A loop: its condition and its promises, then its body.
#[cycle(resolve_stmts)]
fn resolve_loop(
    alloc: Global,
    nodes: &mut NamedNodes,
    here: &Here<'_>,
    labels: &mut Vec<Option<Name>>,
    it: Loop<'_>,
) -> Result<NamedStmt, NoMemory>
    requires condition { it.condition.0 < length here.now.parsed.now.exprs }
    requires clauses { AllByRecursion (λ c. c.condition.0 < length here.now.parsed.now.exprs) it.clauses.now }
    requires body { BlockBelow (length here.now.parsed.now.stmts) it.body.now }
    ensures grows { OnOk result (Grows nodes.old nodes.new) }
    ensures labels { OnOk result (labels.new.items ≡ labels.old.items) }
    ensures below { IfOk result (λ r. NamedStmtParts (length nodes.new.texts) (length nodes.new.exprs) (length nodes.new.stmts) r) }
    ensures made { IfOk result (λ r. (at : _) → stmt_made nodes.new.texts (exprs_of nodes.new) (stmts_of nodes.new) r at ≡ named_tree.loop (resolved_expr (standing_here here.now) (parsed_expr_at (expr_trees here.now.parsed.now.exprs) it.entry.condition)) (resolved_clauses (standing_here here.now) (parsed_clauses_at (expr_trees here.now.parsed.now.exprs) it.entry.clauses.now)) (resolved_block (standing_here here.now) (labels.old.items ++ it.entry.label ∷ []) (parsed_block_at (stmt_trees here.now.parsed.now.exprs here.now.parsed.now.stmts) it.entry.body.now)) at) }
{
    let (condition, clauses) = resolve_head(alloc, nodes, here, it.condition, it.clauses)?;
    let body = resolve_inside(alloc, nodes, here, labels, it.label, it.body)?;
    Ok(NamedStmt::While {
        condition,
        clauses,
        body,
    })
}

/// Adds the nodes of a method's body, and answers the block. `Err` also comes where no number is left.
pub fn resolve_body(
    alloc: Global,
    nodes: &mut NamedNodes,
    here: &Here<'_>,
    body: &Block,
) -> Result<Block, NoMemory>
    requires { BlockBelow (length here.now.parsed.now.stmts) body.now }
    ensures grows { OnOk result (Grows nodes.old nodes.new) }
    ensures below { IfOk result (λ r. BlockBelow (length nodes.new.stmts) r) }
    ensures made { IfOk result (λ r. block_at (stmts_of nodes.new) r ≡ resolved_block (standing_here here.now) [] (parsed_block_at (stmt_trees here.now.parsed.now.exprs here.now.parsed.now.stmts) body.now)) }
{
    resolve_block(alloc, nodes, here, &mut Vec::new(alloc), body)
}
