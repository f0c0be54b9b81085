// The walk over statements: the first refusal of what was found before and of all that the rules say of their parts.

ghost use Rattle.std.specs.Prelude.{◌≡◌, ◌<◌, ◌++◌, length, OnOk};
ghost use Rattle.std.specs.List.{AllByRecursion};
ghost use Rattle.wf_ast.specs.ParsedParts.{BlockBelow, ElseBelow};
ghost use Rattle.wf_named.specs.NamedParts.{exprs_of, stmts_of, ArgsBelow};
ghost use Rattle.wf_named.specs.NamedTrees.{expr_at, clauses_at, call_at, stmt_at, block_at, else_at, arms_at};
ghost use Rattle.wf_types_rules.specs.Parts.{condition_parts, clauses_parts, whole_call_parts, stmt_parts, block_parts, arms_parts};
ghost use Rattle.wf_types_exprs.specs.Judged.{judged};

use crate::assignments::{judge_assign, judge_keep};
use crate::results::{judge_claim, judge_clauses, judge_condition, judge_return, judge_yield};
use wf_ast::parsed::{Arm, Block, LoopClause};
use wf_ast::{ExprId, StmtId};
use wf_named::{NamedCall, NamedStmt};
use wf_text::faults::NoMemory;
use wf_text::found::Found;
use wf_types_exprs::Here;
use wf_types_exprs::whole::judge_whole_call;

// A call that is a whole statement.
fn judge_do_call(here: &Here<'_>, found: &mut Found, call: &NamedCall) -> Result<(), NoMemory>
    requires { ArgsBelow (length here.now.nodes.now.exprs) call.now.args }
    ensures { OnOk result (found.new ≡ judged here.now.around.now found.old (whole_call_parts (call_at (exprs_of here.now.nodes.now) call.now))) }
{
    judge_whole_call(here, found, call)?;
    Ok(())
}

// A loop's condition and promises.
fn judge_head(
    here: &Here<'_>,
    found: &mut Found,
    condition: ExprId,
    clauses: &[LoopClause],
) -> Result<(), NoMemory>
    requires condition { condition.0 < length here.now.nodes.now.exprs }
    requires clauses { AllByRecursion (λ c. c.condition.0 < length here.now.nodes.now.exprs) clauses.now }
    ensures { OnOk result (found.new ≡ judged here.now.around.now found.old (condition_parts (expr_at (exprs_of here.now.nodes.now) condition) ++ clauses_parts (clauses_at (exprs_of here.now.nodes.now) clauses.now))) }
{
    judge_condition(here, found, condition)?;
    judge_clauses(here, found, clauses)
}

/// A statement with all that stands in it.
#[cycle(judge_stmts)]
pub(crate) fn judge_stmt(here: &Here<'_>, found: &mut Found, s: StmtId) -> Result<(), NoMemory>
    requires { s.0 < length here.now.nodes.now.stmts }
    ensures { OnOk result (found.new ≡ judged here.now.around.now found.old (stmt_parts (stmt_at (stmts_of here.now.nodes.now) s))) }
{
    let node = here.nodes.stmt(s);
    match &node.stmt {
        NamedStmt::Assign {
            target,
            op,
            value,
            ..
        } => judge_assign(here, found, *target, *op, *value),
        NamedStmt::Keep { target, call } => { judge_keep(here, found, *target, call) }
        NamedStmt::Call(call) => judge_do_call(here, found, call),
        NamedStmt::If { arms, otherwise } => { judge_arms(here, found, arms.as_slice(), otherwise) }
        NamedStmt::While {
            condition,
            clauses,
            body,
        } => {
            judge_head(here, found, *condition, clauses.as_slice())?;
            judge_block(here, found, body)
        }
        NamedStmt::Break(_) => Ok(()),
        NamedStmt::Continue(_) => Ok(()),
        NamedStmt::Return(value) => judge_return(here, found, *value, node.at),
        NamedStmt::Yield(value) => judge_yield(here, found, *value, node.at),
        NamedStmt::Assert { goal, via } => judge_claim(here, found, *goal, via),
    }
}

/// The statements of a block in order.
#[cycle(judge_stmts)]
pub fn judge_block(here: &Here<'_>, found: &mut Found, block: &Block) -> Result<(), NoMemory>
    requires { BlockBelow (length here.now.nodes.now.stmts) block.now }
    ensures { OnOk result (found.new ≡ judged here.now.around.now found.old (block_parts (block_at (stmts_of here.now.nodes.now) block.now))) }
{
    for s in block.items.as_slice() {
        judge_stmt(here, found, *s)?;
    }
    Ok(())
}

#[cycle(judge_stmts)]
fn judge_arm(here: &Here<'_>, found: &mut Found, arm: &Arm) -> Result<(), NoMemory>
    requires condition { arm.now.condition.0 < length here.now.nodes.now.exprs }
    requires body { BlockBelow (length here.now.nodes.now.stmts) arm.now.body }
    ensures { OnOk result (found.new ≡ judged here.now.around.now found.old (condition_parts (expr_at (exprs_of here.now.nodes.now) arm.now.condition) ++ block_parts (block_at (stmts_of here.now.nodes.now) arm.now.body))) }
{
    judge_condition(here, found, arm.condition)?;
    judge_block(here, found, &arm.body)
}

#[cycle(judge_stmts)]
fn judge_else(here: &Here<'_>, found: &mut Found, otherwise: &Option<Block>) -> Result<(), NoMemory>
    requires { ElseBelow (length here.now.nodes.now.stmts) otherwise.now }
    ensures { OnOk result (found.new ≡ judged here.now.around.now found.old (arms_parts (else_at (stmts_of here.now.nodes.now) otherwise.now))) }
{
    match otherwise {
        Some(block) => judge_block(here, found, block),
        None => Ok(()),
    }
}

// The arms of an `if` and its last `else`.
#[cycle(judge_stmts)]
fn judge_arms(
    here: &Here<'_>,
    found: &mut Found,
    arms: &[Arm],
    otherwise: &Option<Block>,
) -> Result<(), NoMemory>
    requires arms { AllByRecursion (λ a. (a.condition.0 < length here.now.nodes.now.exprs) × BlockBelow (length here.now.nodes.now.stmts) a.body) arms.now }
    requires otherwise { ElseBelow (length here.now.nodes.now.stmts) otherwise.now }
    ensures { OnOk result (found.new ≡ judged here.now.around.now found.old (arms_parts (arms_at (exprs_of here.now.nodes.now) (stmts_of here.now.nodes.now) arms.now (else_at (stmts_of here.now.nodes.now) otherwise.now)))) }
{
    for arm in arms {
        judge_arm(here, found, arm)?;
    }
    judge_else(here, found, otherwise)
}
