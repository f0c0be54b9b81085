// The walk over statements and their blocks: what their uses of names, their loops and their jumps break, and the row of
// the methods that they call.

ghost use Rattle.std.specs.Prelude.{◌≡◌, ◌<◌, ◌++◌, ◌∷◌, [], length, OnOk};
ghost use Rattle.std.specs.List.{AllByRecursion};
ghost use Rattle.wf_ast.specs.ParsedTrees.{expr_trees, expr_at, stmt_trees, stmt_at, block_at, else_at, arms_at, clauses_at, target_at, via_at};
ghost use Rattle.wf_ast.specs.ParsedParts.{BlockBelow, ElseBelow, TargetBelow, ViaBelow};
ghost use Rattle.wf_names_rules.specs.Uses.{uses_of, stmt_uses, block_uses, arm_uses, clause_uses, target_uses, via_uses};
ghost use Rattle.wf_names_rules.specs.Here.{known_here};
ghost use Rattle.wf_names_rules.specs.Jumps.{label_jumps, stmt_jumps, block_jumps, arm_jumps, jumped};
ghost use Rattle.wf_names_rules.specs.Judged.{walked};
ghost use Rattle.wf_names_rules.specs.Called.{with_calls};

use crate::here::Here;
use crate::labels::{enter_loop, pass_jump};
use crate::seen::{Gathered, Seen};
use crate::walk_exprs::{walk_call, walk_expr, walk_given, walk_part, walk_path, walk_type};
use graphs::rows::Row;
use std::alloc::Global;
use wf_ast::parsed::{Arm, Block, LoopClause, Name, Stmt, Target, Via};
use wf_ast::{ExprId, StmtId};
use wf_text::faults::NoMemory;

fn walk_target(
    alloc: Global,
    seen: &mut Seen,
    row: &mut Row,
    here: &Here<'_>,
    target: Target,
) -> Result<(), NoMemory>
    requires { TargetBelow (length here.now.parsed.now.exprs) target }
    ensures seen { OnOk result (seen.new ≡ walked (known_here here.now) seen.old (target_uses (target_at (expr_trees here.now.parsed.now.exprs) target))) }
    ensures row { OnOk result (row.new ≡ with_calls (known_here here.now) row.old (target_uses (target_at (expr_trees here.now.parsed.now.exprs) target))) }
{
    match target {
        Target::Path(path) => {
            walk_path(seen, here, path);
            Ok(())
        }
        Target::Element { base, index, .. } => {
            walk_path(seen, here, base);
            walk_expr(alloc, seen, row, here, index)
        }
    }
}

fn walk_clauses(
    alloc: Global,
    seen: &mut Seen,
    row: &mut Row,
    here: &Here<'_>,
    clauses: &[LoopClause],
) -> Result<(), NoMemory>
    requires { AllByRecursion (λ c. c.condition.0 < length here.now.parsed.now.exprs) clauses.now }
    ensures seen { OnOk result (seen.new ≡ walked (known_here here.now) seen.old (clause_uses (clauses_at (expr_trees here.now.parsed.now.exprs) clauses.now))) }
    ensures row { OnOk result (row.new ≡ with_calls (known_here here.now) row.old (clause_uses (clauses_at (expr_trees here.now.parsed.now.exprs) clauses.now))) }
{
    for clause in clauses {
        walk_expr(alloc, seen, row, here, clause.condition)?;
    }
    Ok(())
}

fn walk_via(
    alloc: Global,
    seen: &mut Seen,
    row: &mut Row,
    here: &Here<'_>,
    via: &Option<Via>,
) -> Result<(), NoMemory>
    requires { ViaBelow (length here.now.parsed.now.exprs) via.now }
    ensures seen { OnOk result (seen.new ≡ walked (known_here here.now) seen.old (via_uses (via_at (expr_trees here.now.parsed.now.exprs) via.now))) }
    ensures row { OnOk result (row.new ≡ with_calls (known_here here.now) row.old (via_uses (via_at (expr_trees here.now.parsed.now.exprs) via.now))) }
{
    match via {
        Some(via) => walk_given(alloc, seen, row, here, via.given.as_slice()),
        None => Ok(()),
    }
}

// The condition of a loop and its promises.
fn walk_head(
    alloc: Global,
    seen: &mut Seen,
    row: &mut Row,
    here: &Here<'_>,
    condition: ExprId,
    clauses: &[LoopClause],
) -> Result<(), NoMemory>
    requires condition { condition.0 < length here.now.parsed.now.exprs }
    requires clauses { AllByRecursion (λ c. c.condition.0 < length here.now.parsed.now.exprs) clauses.now }
    ensures seen { OnOk result (seen.new ≡ walked (known_here here.now) seen.old (uses_of (expr_at (expr_trees here.now.parsed.now.exprs) condition) ++ clause_uses (clauses_at (expr_trees here.now.parsed.now.exprs) clauses.now))) }
    ensures row { OnOk result (row.new ≡ with_calls (known_here here.now) row.old (uses_of (expr_at (expr_trees here.now.parsed.now.exprs) condition) ++ clause_uses (clauses_at (expr_trees here.now.parsed.now.exprs) clauses.now))) }
{
    walk_expr(alloc, seen, row, here, condition)?;
    walk_clauses(alloc, seen, row, here, clauses)
}

// A loop after its condition and its promises: its label among those of the loops round it, then its body with the label
// among them.
#[cycle(walk_stmts)]
fn walk_loop(
    alloc: Global,
    seen: &mut Seen,
    gathered: &mut Gathered,
    here: &Here<'_>,
    label: Option<Name>,
    body: &Block,
) -> Result<(), NoMemory>
    requires { BlockBelow (length here.now.parsed.now.stmts) body.now }
    ensures seen { OnOk result (seen.new ≡ walked (known_here here.now) seen.old (block_uses (block_at (stmt_trees here.now.parsed.now.exprs here.now.parsed.now.stmts) body.now))) }
    ensures row { OnOk result (gathered.new.row ≡ with_calls (known_here here.now) gathered.old.row (block_uses (block_at (stmt_trees here.now.parsed.now.exprs here.now.parsed.now.stmts) body.now))) }
    ensures labels { OnOk result (gathered.new.labels ≡ jumped here.now.parsed.now.texts gathered.old.labels (label_jumps gathered.old.loops.items label ++ block_jumps (gathered.old.loops.items ++ label ∷ []) (block_at (stmt_trees here.now.parsed.now.exprs here.now.parsed.now.stmts) body.now))) }
    ensures loops { OnOk result (gathered.new.loops.items ≡ gathered.old.loops.items) }
{
    enter_loop(gathered, here.parsed, label)?;
    walk_block(alloc, seen, gathered, here, body)?;
    gathered.loops.pop();
    Ok(())
}

#[cycle(walk_stmts)]
fn walk_stmt(
    alloc: Global,
    seen: &mut Seen,
    gathered: &mut Gathered,
    here: &Here<'_>,
    s: StmtId,
) -> Result<(), NoMemory>
    requires { s.0 < length here.now.parsed.now.stmts }
    ensures seen { OnOk result (seen.new ≡ walked (known_here here.now) seen.old (stmt_uses (stmt_at (stmt_trees here.now.parsed.now.exprs here.now.parsed.now.stmts) s))) }
    ensures row { OnOk result (gathered.new.row ≡ with_calls (known_here here.now) gathered.old.row (stmt_uses (stmt_at (stmt_trees here.now.parsed.now.exprs here.now.parsed.now.stmts) s))) }
    ensures labels { OnOk result (gathered.new.labels ≡ jumped here.now.parsed.now.texts gathered.old.labels (stmt_jumps gathered.old.loops.items (stmt_at (stmt_trees here.now.parsed.now.exprs here.now.parsed.now.stmts) s))) }
    ensures loops { OnOk result (gathered.new.loops.items ≡ gathered.old.loops.items) }
{
    let node = here.parsed.stmt(s);
    match &node.stmt {
        Stmt::Var { of, .. } => walk_type(alloc, seen, &mut gathered.row, here, of),
        Stmt::Assign { target, value, .. } => {
            walk_target(alloc, seen, &mut gathered.row, here, *target)?;
            walk_expr(alloc, seen, &mut gathered.row, here, *value)
        }
        Stmt::Keep { target, call } => {
            walk_target(alloc, seen, &mut gathered.row, here, *target)?;
            walk_call(alloc, seen, &mut gathered.row, here, call)
        }
        Stmt::Call(call) => walk_call(alloc, seen, &mut gathered.row, here, call),
        Stmt::If { arms, otherwise } => walk_arms(
            alloc,
            seen,
            gathered,
            here,
            arms.as_slice(),
            otherwise,
        ),
        Stmt::While {
            label,
            condition,
            clauses,
            body,
        } => {
            walk_head(
                alloc,
                seen,
                &mut gathered.row,
                here,
                *condition,
                clauses.as_slice(),
            )?;
            walk_loop(alloc, seen, gathered, here, *label, body)
        }
        Stmt::Break(label) => {
            pass_jump(gathered, here.parsed, *label, node.at);
            Ok(())
        }
        Stmt::Continue(label) => {
            pass_jump(gathered, here.parsed, *label, node.at);
            Ok(())
        }
        Stmt::Return(value) => walk_part(alloc, seen, &mut gathered.row, here, *value),
        Stmt::Yield(value) => walk_expr(alloc, seen, &mut gathered.row, here, *value),
        Stmt::Assert { goal, via } => {
            walk_expr(alloc, seen, &mut gathered.row, here, *goal)?;
            walk_via(alloc, seen, &mut gathered.row, here, via)
        }
    }
}

/// A walk past a block. The methods that it calls join the row at its end, and what its loops and jumps break joins that of
/// those before it.
#[cycle(walk_stmts)]
pub fn walk_block(
    alloc: Global,
    seen: &mut Seen,
    gathered: &mut Gathered,
    here: &Here<'_>,
    block: &Block,
) -> Result<(), NoMemory>
    requires { BlockBelow (length here.now.parsed.now.stmts) block.now }
    ensures seen { OnOk result (seen.new ≡ walked (known_here here.now) seen.old (block_uses (block_at (stmt_trees here.now.parsed.now.exprs here.now.parsed.now.stmts) block.now))) }
    ensures row { OnOk result (gathered.new.row ≡ with_calls (known_here here.now) gathered.old.row (block_uses (block_at (stmt_trees here.now.parsed.now.exprs here.now.parsed.now.stmts) block.now))) }
    ensures labels { OnOk result (gathered.new.labels ≡ jumped here.now.parsed.now.texts gathered.old.labels (block_jumps gathered.old.loops.items (block_at (stmt_trees here.now.parsed.now.exprs here.now.parsed.now.stmts) block.now))) }
    ensures loops { OnOk result (gathered.new.loops.items ≡ gathered.old.loops.items) }
{
    for s in block.items.as_slice() {
        walk_stmt(alloc, seen, gathered, here, *s)?;
    }
    Ok(())
}

#[cycle(walk_stmts)]
fn walk_arm(
    alloc: Global,
    seen: &mut Seen,
    gathered: &mut Gathered,
    here: &Here<'_>,
    arm: &Arm,
) -> Result<(), NoMemory>
    requires condition { arm.now.condition.0 < length here.now.parsed.now.exprs }
    requires body { BlockBelow (length here.now.parsed.now.stmts) arm.now.body }
    ensures seen { OnOk result (seen.new ≡ walked (known_here here.now) seen.old (uses_of (expr_at (expr_trees here.now.parsed.now.exprs) arm.now.condition) ++ block_uses (block_at (stmt_trees here.now.parsed.now.exprs here.now.parsed.now.stmts) arm.now.body))) }
    ensures row { OnOk result (gathered.new.row ≡ with_calls (known_here here.now) gathered.old.row (uses_of (expr_at (expr_trees here.now.parsed.now.exprs) arm.now.condition) ++ block_uses (block_at (stmt_trees here.now.parsed.now.exprs here.now.parsed.now.stmts) arm.now.body))) }
    ensures labels { OnOk result (gathered.new.labels ≡ jumped here.now.parsed.now.texts gathered.old.labels (block_jumps gathered.old.loops.items (block_at (stmt_trees here.now.parsed.now.exprs here.now.parsed.now.stmts) arm.now.body))) }
    ensures loops { OnOk result (gathered.new.loops.items ≡ gathered.old.loops.items) }
{
    walk_expr(alloc, seen, &mut gathered.row, here, arm.condition)?;
    walk_block(alloc, seen, gathered, here, &arm.body)
}

#[cycle(walk_stmts)]
fn walk_else(
    alloc: Global,
    seen: &mut Seen,
    gathered: &mut Gathered,
    here: &Here<'_>,
    otherwise: &Option<Block>,
) -> Result<(), NoMemory>
    requires { ElseBelow (length here.now.parsed.now.stmts) otherwise.now }
    ensures seen { OnOk result (seen.new ≡ walked (known_here here.now) seen.old (arm_uses (else_at (stmt_trees here.now.parsed.now.exprs here.now.parsed.now.stmts) otherwise.now))) }
    ensures row { OnOk result (gathered.new.row ≡ with_calls (known_here here.now) gathered.old.row (arm_uses (else_at (stmt_trees here.now.parsed.now.exprs here.now.parsed.now.stmts) otherwise.now))) }
    ensures labels { OnOk result (gathered.new.labels ≡ jumped here.now.parsed.now.texts gathered.old.labels (arm_jumps gathered.old.loops.items (else_at (stmt_trees here.now.parsed.now.exprs here.now.parsed.now.stmts) otherwise.now))) }
    ensures loops { OnOk result (gathered.new.loops.items ≡ gathered.old.loops.items) }
{
    match otherwise {
        Some(block) => walk_block(alloc, seen, gathered, here, block),
        None => Ok(()),
    }
}

#[cycle(walk_stmts)]
fn walk_arms(
    alloc: Global,
    seen: &mut Seen,
    gathered: &mut Gathered,
    here: &Here<'_>,
    arms: &[Arm],
    otherwise: &Option<Block>,
) -> Result<(), NoMemory>
    requires arms { AllByRecursion (λ a. (a.condition.0 < length here.now.parsed.now.exprs) × BlockBelow (length here.now.parsed.now.stmts) a.body) arms.now }
    requires otherwise { ElseBelow (length here.now.parsed.now.stmts) otherwise.now }
    ensures seen { OnOk result (seen.new ≡ walked (known_here here.now) seen.old (arm_uses (arms_at (expr_trees here.now.parsed.now.exprs) (stmt_trees here.now.parsed.now.exprs here.now.parsed.now.stmts) arms.now (else_at (stmt_trees here.now.parsed.now.exprs here.now.parsed.now.stmts) otherwise.now)))) }
    ensures row { OnOk result (gathered.new.row ≡ with_calls (known_here here.now) gathered.old.row (arm_uses (arms_at (expr_trees here.now.parsed.now.exprs) (stmt_trees here.now.parsed.now.exprs here.now.parsed.now.stmts) arms.now (else_at (stmt_trees here.now.parsed.now.exprs here.now.parsed.now.stmts) otherwise.now)))) }
    ensures labels { OnOk result (gathered.new.labels ≡ jumped here.now.parsed.now.texts gathered.old.labels (arm_jumps gathered.old.loops.items (arms_at (expr_trees here.now.parsed.now.exprs) (stmt_trees here.now.parsed.now.exprs here.now.parsed.now.stmts) arms.now (else_at (stmt_trees here.now.parsed.now.exprs here.now.parsed.now.stmts) otherwise.now)))) }
    ensures loops { OnOk result (gathered.new.loops.items ≡ gathered.old.loops.items) }
{
    for arm in arms {
        walk_arm(alloc, seen, gathered, here, arm)?;
    }
    walk_else(alloc, seen, gathered, here, otherwise)
}
