// How many statements a block has, with those inside them: the number of a loop stands after those of its body, and a jump
// in the body tells it.

ghost use Rattle.std.specs.Prelude.{◌≡◌, ◌+◌, ◌<◌, length, IfOk};
ghost use Rattle.std.specs.List.{AllByRecursion};
ghost use Rattle.wf_ast.specs.ParsedParts.{BlockBelow, ElseBelow};
ghost use Rattle.wf_named.specs.NamedParts.{exprs_of, stmts_of};
ghost use Rattle.wf_named.specs.NamedTrees.{stmt_at, block_at, else_at, arms_at};
ghost use Rattle.wf_typed_tree.specs.ElaboratedStmts.{count_stmt as stmts_in_stmt, count_block as stmts_in_block, count_arms as stmts_in_arms};

use wf_ast::StmtId;
use wf_ast::parsed::{Arm, Block};
use wf_named::{NamedNodes, NamedStmt};
use wf_text::faults::NoMemory;

/// Two counts. `Err` comes where no number is left.
pub(crate) fn sum(a: u32, b: u32) -> Result<u32, NoMemory>
    ensures { IfOk result (λ n. n ≡ a + b) }
{
    let both = a as u64 + b as u64;
    if both < 4294967296 {
        Ok(both as u32)
    } else {
        Err(NoMemory)
    }
}

#[cycle(counting)]
fn count_stmt(named: &NamedNodes, s: StmtId) -> Result<u32, NoMemory>
    requires { s.0 < length named.now.stmts }
    ensures { IfOk result (λ n. n ≡ stmts_in_stmt (stmt_at (stmts_of named.now) s)) }
{
    let node = named.stmt(s);
    match &node.stmt {
        NamedStmt::If { arms, otherwise } => {
            let inside = count_arms(named, arms.as_slice(), otherwise)?;
            sum(1, inside)
        }
        NamedStmt::While { body, .. } => {
            let inside = count_block(named, body)?;
            sum(1, inside)
        }
        NamedStmt::Assign { .. } => Ok(1),
        NamedStmt::Keep { .. } => Ok(1),
        NamedStmt::Call(_) => Ok(1),
        NamedStmt::Break(_) => Ok(1),
        NamedStmt::Continue(_) => Ok(1),
        NamedStmt::Return(_) => Ok(1),
        NamedStmt::Yield(_) => Ok(1),
        NamedStmt::Assert { .. } => Ok(1),
    }
}

/// The number of statements in a block, with those inside them. `Err` comes where no number is left.
#[cycle(counting)]
pub(crate) fn count_block(named: &NamedNodes, block: &Block) -> Result<u32, NoMemory>
    requires { BlockBelow (length named.now.stmts) block.now }
    ensures { IfOk result (λ n. n ≡ stmts_in_block (block_at (stmts_of named.now) block.now)) }
{
    let mut count = 0;
    for s in block.items.as_slice() {
        let inside = count_stmt(named, *s)?;
        count = sum(count, inside)?;
    }
    Ok(count)
}

#[cycle(counting)]
fn count_else(named: &NamedNodes, otherwise: &Option<Block>) -> Result<u32, NoMemory>
    requires { ElseBelow (length named.now.stmts) otherwise.now }
    ensures { IfOk result (λ n. n ≡ stmts_in_arms (else_at (stmts_of named.now) otherwise.now)) }
{
    match otherwise {
        Some(block) => count_block(named, block),
        None => Ok(0),
    }
}

#[cycle(counting)]
fn count_arms(named: &NamedNodes, arms: &[Arm], otherwise: &Option<Block>) -> Result<u32, NoMemory>
    requires arms { AllByRecursion (λ a. (a.condition.0 < length named.now.exprs) × BlockBelow (length named.now.stmts) a.body) arms.now }
    requires otherwise { ElseBelow (length named.now.stmts) otherwise.now }
    ensures { IfOk result (λ n. n ≡ stmts_in_arms (arms_at (exprs_of named.now) (stmts_of named.now) arms.now (else_at (stmts_of named.now) otherwise.now))) }
{
    let last = count_else(named, otherwise)?;
    let mut count = last;
    for arm in arms {
        let inside = count_block(named, &arm.body)?;
        count = sum(count, inside)?;
    }
    Ok(count)
}
