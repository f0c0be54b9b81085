// The walk over the statements of a body: it makes the nodes of each, parts before their whole.

ghost use Rattle.std.specs.Prelude.{◌≡◌, ◌<◌, ◌+◌, ◌^◌, suc, [], ◌∷◌, length, IfOk, OnOk, ◌++◌};
ghost use Rattle.std.specs.List.{AllByRecursion};
ghost use Rattle.wf_ast.specs.ParsedParts.{BlockBelow, ElseBelow};
ghost use Rattle.wf_named.specs.NamedParts.{exprs_of, stmts_of, named_package};
ghost use Rattle.wf_named.specs.NamedTree as tree;
ghost use Rattle.wf_named.specs.NamedTrees.{expr_at, stmt_at, clauses_at, block_at, else_at, arms_at};
ghost use Rattle.wf_typed_tree.specs.ElaboratedStmts.{count_block as stmts_in_block};
ghost use Rattle.wf_typed_tree.specs.Entries.{expr_entries, clause_entries, stmt_entries, block_entries, arms_entries};
ghost use Rattle.wf_typed_exprs.specs.Growth.{AddsEntries};
ghost use Rattle.wf_typed_stmts.specs.Blocks.{StandsForArm, StandForArms, StandsForElse};
ghost use Rattle.wf_typed_stmts.specs.Right.{known_in, IsRightStmt, IsRightBlock, AreRightArms};
ghost use Rattle.wf_typed_stmts.specs.StmtGrowth.{Adds, AddsParts, IsBegun, MakesStmt, StandsForStmt, StandsForBlock};
ghost use Rattle.wf_typed_exprs.specs.Right.{IsRight};

use crate::building::BodyBuilding;
use crate::counting::{count_block, sum};
use crate::heads::{add_head, add_tree};
use crate::lists::in_front;
use crate::simple::add_simple;
use wf_ast::parsed::LoopClause;
use wf_ast::{Arm, Block, ExprId, Sequence, Stmt, StmtId, StmtNode, parsed};
use wf_named::{NamedNodes, NamedStmt};
use wf_text::Place;
use wf_text::faults::NoMemory;
use wf_types_exprs::Here;

// The number of a loop that is still to come, after the statements of its body. `Err` comes where no number is left.
fn loop_to_come(
    nodes: &BodyBuilding,
    named: &NamedNodes,
    body: &parsed::Block,
) -> Result<u32, NoMemory>
    requires below { BlockBelow (length named.now.stmts) body.now }
    requires few { length nodes.now.stmts < 2 ^ 32 }
    ensures { IfOk result (λ n. n ≡ length nodes.now.stmts + stmts_in_block (block_at (stmts_of named.now) body.now)) }
{
    let inside = count_block(named, body)?;
    sum(nodes.stmts() as u32, inside)
}

// Adds the nodes of a statement.
#[cycle(elaborate_stmts)]
fn elaborate_stmt(
    here: &Here<'_>,
    nodes: &mut BodyBuilding,
    loops: &[u32],
    s: StmtId,
) -> Result<StmtId, NoMemory>
    requires there { s.0 < length here.now.nodes.now.stmts }
    requires begun { IsBegun here.now.nodes.now nodes.old }
    requires right { IsRightStmt here.now.around.now (known_in (named_package here.now.nodes.now)) (length loops.now) (stmt_at (stmts_of here.now.nodes.now) s) }
    ensures adds { OnOk result (Adds loops.now nodes.old nodes.new) }
    ensures entries { OnOk result (AddsEntries nodes.old nodes.new (stmt_entries here.now.around.now (stmt_at (stmts_of here.now.nodes.now) s))) }
    ensures begun { OnOk result (IsBegun here.now.nodes.now nodes.new) }
    ensures stands { IfOk result (λ r. StandsForStmt here.now.around.now loops.now (length nodes.old.stmts) (stmt_at (stmts_of here.now.nodes.now) s) nodes.new r) }
{
    let node = elaborate_node(here, nodes, loops, s)?;
    let id = nodes.push_stmt(node)?;
    Ok(id)
}

// Adds the nodes of a statement's parts, and answers the statement.
#[cycle(elaborate_stmts)]
fn elaborate_node(
    here: &Here<'_>,
    nodes: &mut BodyBuilding,
    loops: &[u32],
    s: StmtId,
) -> Result<StmtNode, NoMemory>
    requires there { s.0 < length here.now.nodes.now.stmts }
    requires begun { IsBegun here.now.nodes.now nodes.old }
    requires right { IsRightStmt here.now.around.now (known_in (named_package here.now.nodes.now)) (length loops.now) (stmt_at (stmts_of here.now.nodes.now) s) }
    ensures adds { OnOk result (AddsParts loops.now nodes.old nodes.new) }
    ensures entries { OnOk result (AddsEntries nodes.old nodes.new (stmt_entries here.now.around.now (stmt_at (stmts_of here.now.nodes.now) s))) }
    ensures begun { OnOk result (IsBegun here.now.nodes.now nodes.new) }
    ensures made { IfOk result (λ n. MakesStmt here.now.around.now loops.now (length nodes.old.stmts) (stmt_at (stmts_of here.now.nodes.now) s) nodes.new n) }
{
    let node = here.nodes.stmt(s);
    match &node.stmt {
        NamedStmt::If { arms, otherwise } => {
            elaborate_if(here, nodes, loops, arms.as_slice(), otherwise, node.at)
        }
        NamedStmt::While {
            condition,
            clauses,
            body,
        } => {
            let it = Loop {
                condition: *condition,
                clauses: clauses.as_slice(),
                body,
                at: node.at,
            };
            elaborate_loop(here, nodes, loops, it)
        }
        _ => add_simple(here, nodes, loops, &node.stmt, node.at),
    }
}

// Adds the nodes of the statements of a block, in order.
#[cycle(elaborate_stmts)]
fn elaborate_block(
    here: &Here<'_>,
    nodes: &mut BodyBuilding,
    loops: &[u32],
    block: &parsed::Block,
) -> Result<Block, NoMemory>
    requires below { BlockBelow (length here.now.nodes.now.stmts) block.now }
    requires begun { IsBegun here.now.nodes.now nodes.old }
    requires right { IsRightBlock here.now.around.now (known_in (named_package here.now.nodes.now)) (length loops.now) (block_at (stmts_of here.now.nodes.now) block.now) }
    ensures adds { OnOk result (Adds loops.now nodes.old nodes.new) }
    ensures entries { OnOk result (AddsEntries nodes.old nodes.new (block_entries here.now.around.now (block_at (stmts_of here.now.nodes.now) block.now))) }
    ensures begun { OnOk result (IsBegun here.now.nodes.now nodes.new) }
    ensures stands { IfOk result (λ b. StandsForBlock here.now.around.now loops.now (length nodes.old.stmts) (block_at (stmts_of here.now.nodes.now) block.now) nodes.new b) }
{
    let mut items = Sequence::new(here.alloc);
    for s in block.items.as_slice() {
        let id = elaborate_stmt(here, nodes, loops, *s)?;
        items.push(id)?;
    }
    Ok(Block { items })
}

// Adds the nodes of a condition with the block that it guards.
#[cycle(elaborate_stmts)]
fn elaborate_arm(
    here: &Here<'_>,
    nodes: &mut BodyBuilding,
    loops: &[u32],
    arm: &parsed::Arm,
) -> Result<Arm, NoMemory>
    requires condition { arm.now.condition.0 < length here.now.nodes.now.exprs }
    requires body { BlockBelow (length here.now.nodes.now.stmts) arm.now.body }
    requires begun { IsBegun here.now.nodes.now nodes.old }
    requires condition_right { IsRight here.now.around.now (known_in (named_package here.now.nodes.now)).statuses (expr_at (exprs_of here.now.nodes.now) arm.now.condition) }
    requires right { IsRightBlock here.now.around.now (known_in (named_package here.now.nodes.now)) (length loops.now) (block_at (stmts_of here.now.nodes.now) arm.now.body) }
    ensures adds { OnOk result (Adds loops.now nodes.old nodes.new) }
    ensures entries { OnOk result (AddsEntries nodes.old nodes.new (expr_entries here.now.around.now (expr_at (exprs_of here.now.nodes.now) arm.now.condition) ++ block_entries here.now.around.now (block_at (stmts_of here.now.nodes.now) arm.now.body))) }
    ensures begun { OnOk result (IsBegun here.now.nodes.now nodes.new) }
    ensures stands { IfOk result (λ a. StandsForArm here.now.around.now loops.now (length nodes.old.stmts) (expr_at (exprs_of here.now.nodes.now) arm.now.condition) (block_at (stmts_of here.now.nodes.now) arm.now.body) nodes.new a) }
{
    let cond = add_tree(here, nodes, arm.condition)?;
    let body = elaborate_block(here, nodes, loops, &arm.body)?;
    Ok(Arm { cond, body })
}

// Adds the nodes of the arms of an `if`, in order.
#[cycle(elaborate_stmts)]
fn elaborate_arms(
    here: &Here<'_>,
    nodes: &mut BodyBuilding,
    loops: &[u32],
    arms: &[parsed::Arm],
) -> Result<Sequence<Arm>, NoMemory>
    requires below { AllByRecursion (λ a. (a.condition.0 < length here.now.nodes.now.exprs) × BlockBelow (length here.now.nodes.now.stmts) a.body) arms.now }
    requires begun { IsBegun here.now.nodes.now nodes.old }
    requires right { AreRightArms here.now.around.now (known_in (named_package here.now.nodes.now)) (length loops.now) (arms_at (exprs_of here.now.nodes.now) (stmts_of here.now.nodes.now) arms.now tree.no_else) }
    ensures adds { OnOk result (Adds loops.now nodes.old nodes.new) }
    ensures entries { OnOk result (AddsEntries nodes.old nodes.new (arms_entries here.now.around.now (arms_at (exprs_of here.now.nodes.now) (stmts_of here.now.nodes.now) arms.now tree.no_else))) }
    ensures begun { OnOk result (IsBegun here.now.nodes.now nodes.new) }
    ensures stand { IfOk result (λ r. StandForArms here.now.around.now loops.now (length nodes.old.stmts) (exprs_of here.now.nodes.now) (stmts_of here.now.nodes.now) arms.now nodes.new r) }
{
    let mut made = Sequence::new(here.alloc);
    for arm in arms {
        let one = elaborate_arm(here, nodes, loops, arm)?;
        made.push(one)?;
    }
    Ok(made)
}

// Adds the nodes of what stands after the last `else`.
#[cycle(elaborate_stmts)]
fn elaborate_else(
    here: &Here<'_>,
    nodes: &mut BodyBuilding,
    loops: &[u32],
    otherwise: &Option<parsed::Block>,
) -> Result<Option<Block>, NoMemory>
    requires below { ElseBelow (length here.now.nodes.now.stmts) otherwise.now }
    requires begun { IsBegun here.now.nodes.now nodes.old }
    requires right { AreRightArms here.now.around.now (known_in (named_package here.now.nodes.now)) (length loops.now) (else_at (stmts_of here.now.nodes.now) otherwise.now) }
    ensures adds { OnOk result (Adds loops.now nodes.old nodes.new) }
    ensures entries { OnOk result (AddsEntries nodes.old nodes.new (arms_entries here.now.around.now (else_at (stmts_of here.now.nodes.now) otherwise.now))) }
    ensures begun { OnOk result (IsBegun here.now.nodes.now nodes.new) }
    ensures stands { IfOk result (λ r. StandsForElse here.now.around.now loops.now (length nodes.old.stmts) (else_at (stmts_of here.now.nodes.now) otherwise.now) nodes.new r) }
{
    match otherwise {
        Some(block) => {
            let block = elaborate_block(here, nodes, loops, block)?;
            Ok(Some(block))
        }
        None => Ok(None),
    }
}

// Adds the nodes of an `if`'s parts, and answers it. An `else if` is one arm more.
#[cycle(elaborate_stmts)]
fn elaborate_if(
    here: &Here<'_>,
    nodes: &mut BodyBuilding,
    loops: &[u32],
    arms: &[parsed::Arm],
    otherwise: &Option<parsed::Block>,
    at: Place,
) -> Result<StmtNode, NoMemory>
    requires arms { AllByRecursion (λ a. (a.condition.0 < length here.now.nodes.now.exprs) × BlockBelow (length here.now.nodes.now.stmts) a.body) arms.now }
    requires otherwise { ElseBelow (length here.now.nodes.now.stmts) otherwise.now }
    requires begun { IsBegun here.now.nodes.now nodes.old }
    requires right { IsRightStmt here.now.around.now (known_in (named_package here.now.nodes.now)) (length loops.now) (tree.branch (arms_at (exprs_of here.now.nodes.now) (stmts_of here.now.nodes.now) arms.now (else_at (stmts_of here.now.nodes.now) otherwise.now)) at) }
    ensures adds { OnOk result (AddsParts loops.now nodes.old nodes.new) }
    ensures entries { OnOk result (AddsEntries nodes.old nodes.new (arms_entries here.now.around.now (arms_at (exprs_of here.now.nodes.now) (stmts_of here.now.nodes.now) arms.now (else_at (stmts_of here.now.nodes.now) otherwise.now)))) }
    ensures begun { OnOk result (IsBegun here.now.nodes.now nodes.new) }
    ensures made { IfOk result (λ n. MakesStmt here.now.around.now loops.now (length nodes.old.stmts) (tree.branch (arms_at (exprs_of here.now.nodes.now) (stmts_of here.now.nodes.now) arms.now (else_at (stmts_of here.now.nodes.now) otherwise.now)) at) nodes.new n) }
{
    let arms = elaborate_arms(here, nodes, loops, arms)?;
    let otherwise = elaborate_else(here, nodes, loops, otherwise)?;
    Ok(StmtNode {
        stmt: Stmt::If { arms, otherwise },
        at,
        inner: at,
    })
}

// Adds the nodes of a loop's body, whose jumps tell the number that the loop will have.
#[cycle(elaborate_stmts)]
fn elaborate_inside(
    here: &Here<'_>,
    nodes: &mut BodyBuilding,
    loops: &[u32],
    body: &parsed::Block,
) -> Result<Block, NoMemory>
    requires below { BlockBelow (length here.now.nodes.now.stmts) body.now }
    requires begun { IsBegun here.now.nodes.now nodes.old }
    requires right { IsRightBlock here.now.around.now (known_in (named_package here.now.nodes.now)) (suc (length loops.now)) (block_at (stmts_of here.now.nodes.now) body.now) }
    ensures adds { OnOk result (Adds ((length nodes.old.stmts + stmts_in_block (block_at (stmts_of here.now.nodes.now) body.now)) ∷ loops.now) nodes.old nodes.new) }
    ensures entries { OnOk result (AddsEntries nodes.old nodes.new (block_entries here.now.around.now (block_at (stmts_of here.now.nodes.now) body.now))) }
    ensures begun { OnOk result (IsBegun here.now.nodes.now nodes.new) }
    ensures stands { IfOk result (λ b. StandsForBlock here.now.around.now ((length nodes.old.stmts + stmts_in_block (block_at (stmts_of here.now.nodes.now) body.now)) ∷ loops.now) (length nodes.old.stmts) (block_at (stmts_of here.now.nodes.now) body.now) nodes.new b) }
{
    let number = loop_to_come(nodes, here.nodes, body)?;
    let inner = in_front(here.alloc, number, loops)?;
    elaborate_block(here, nodes, inner.as_slice(), body)
}

// A loop as it is written.
#[derive(Clone, Copy)]
struct Loop<'a> {
    condition: ExprId,
    clauses: &'a [LoopClause],
    body: &'a parsed::Block,
    at: Place,
}

// Adds the nodes of a loop's parts, and answers it.
#[cycle(elaborate_stmts)]
fn elaborate_loop(
    here: &Here<'_>,
    nodes: &mut BodyBuilding,
    loops: &[u32],
    it: Loop<'_>,
) -> Result<StmtNode, NoMemory>
    requires there { it.condition.0 < length here.now.nodes.now.exprs }
    requires clauses { AllByRecursion (λ c. c.condition.0 < length here.now.nodes.now.exprs) it.clauses.now }
    requires body { BlockBelow (length here.now.nodes.now.stmts) it.body.now }
    requires begun { IsBegun here.now.nodes.now nodes.old }
    requires right { IsRightStmt here.now.around.now (known_in (named_package here.now.nodes.now)) (length loops.now) (tree.loop (expr_at (exprs_of here.now.nodes.now) it.condition) (clauses_at (exprs_of here.now.nodes.now) it.clauses.now) (block_at (stmts_of here.now.nodes.now) it.body.now) it.at) }
    ensures adds { OnOk result (AddsParts loops.now nodes.old nodes.new) }
    ensures entries { OnOk result (AddsEntries nodes.old nodes.new (block_entries here.now.around.now (block_at (stmts_of here.now.nodes.now) it.entry.body.now) ++ (expr_entries here.now.around.now (expr_at (exprs_of here.now.nodes.now) it.entry.condition) ++ clause_entries here.now.around.now (clauses_at (exprs_of here.now.nodes.now) it.entry.clauses.now)))) }
    ensures begun { OnOk result (IsBegun here.now.nodes.now nodes.new) }
    ensures made { IfOk result (λ n. MakesStmt here.now.around.now loops.now (length nodes.old.stmts) (tree.loop (expr_at (exprs_of here.now.nodes.now) it.entry.condition) (clauses_at (exprs_of here.now.nodes.now) it.entry.clauses.now) (block_at (stmts_of here.now.nodes.now) it.entry.body.now) it.entry.at) nodes.new n) }
{
    let inside = elaborate_inside(here, nodes, loops, it.body)?;
    let head = add_head(here, nodes, it.condition, it.clauses, it.body)?;
    Ok(StmtNode {
        stmt: Stmt::While { head, body: inside },
        at: it.at,
        inner: it.body.close,
    })
}

/// Adds the nodes of a body that breaks no rule, and answers its block; what was there keeps its numbers and what it makes.
/// `Err` also comes where no number is left.
pub fn elaborate_body(
    here: &Here<'_>,
    nodes: &mut BodyBuilding,
    body: &parsed::Block,
) -> Result<Block, NoMemory>
    requires below { BlockBelow (length here.now.nodes.now.stmts) body.now }
    requires begun { IsBegun here.now.nodes.now nodes.old }
    requires right { IsRightBlock here.now.around.now (known_in (named_package here.now.nodes.now)) 0 (block_at (stmts_of here.now.nodes.now) body.now) }
    ensures adds { OnOk result (Adds [] nodes.old nodes.new) }
    ensures entries { OnOk result (AddsEntries nodes.old nodes.new (block_entries here.now.around.now (block_at (stmts_of here.now.nodes.now) body.now))) }
    ensures begun { OnOk result (IsBegun here.now.nodes.now nodes.new) }
    ensures stands { IfOk result (λ b. StandsForBlock here.now.around.now [] (length nodes.old.stmts) (block_at (stmts_of here.now.nodes.now) body.now) nodes.new b) }
{
    elaborate_block(here, nodes, &[], body)
}
