// Whether a body may reach its end.

ghost use Rattle.std.specs.Prelude.{◌≡◌, ◌<◌, ◌≤◌, ◌+◌, ◌∷◌, [], not, ◌&&◌, length};
ghost use Rattle.std.specs.List.{AllByRecursion};
ghost use Rattle.wf_ast.specs.ParsedParts.{BlockBelow, ElseBelow};
ghost use Rattle.wf_ast.specs.Above.{above_block, above_else, above_arms};
ghost use Rattle.wf_named.specs.NamedParts.{exprs_of, stmts_of};
ghost use Rattle.wf_named.specs.NamedTrees.{expr_at, stmt_at, block_at, else_at, arms_at};
ghost use Rattle.wf_types_rules.specs.Judgements.{at_if as at_place_if, is_word_true as word_true, ends_without_result, stmt_leaves as leaves_by_stmt, block_leaves as leaves_by_block, arms_leave as leaves_by_arms, stmt_stops as stops_at_stmt, block_stops as stops_in_block, arms_stop as stops_in_arms};
ghost use Rattle.wf_types_rules.specs.Parts.{whole_body};
ghost use Rattle.wf_types_exprs.specs.Judged.{judged};
ghost use Rattle.wf_types_stmts.specs.Statements.{end_found};

use wf_ast::parsed::{Arm, Block};
use wf_ast::{ExprId, StmtId};
use wf_named::{NamedExpr, NamedNodes, NamedStmt};
use wf_text::Place;
use wf_text::found::Found;
use wf_text::rules::Rule;
use wf_types_exprs::Here;
use wf_types_meanings::marks::is_coroutine;
use wf_types_meanings::places::at_if;
use wf_types_rules::Around;

/// Whether an expression is the word `true`.
pub(crate) fn is_word_true(nodes: &NamedNodes, e: ExprId) -> bool
    requires { e.0 < length nodes.now.exprs }
    ensures { result ≡ word_true (expr_at (exprs_of nodes.now) e) }
{
    let node = nodes.expr(e);
    match &node.expr {
        NamedExpr::Truth(value) => *value,
        NamedExpr::Status(_) => false,
        NamedExpr::Call(_) => false,
        NamedExpr::Path(_) => false,
        NamedExpr::Number(_) => false,
        NamedExpr::Index { .. } => false,
        NamedExpr::Slice { .. } => false,
        NamedExpr::Chain { .. } => false,
        NamedExpr::Convert { .. } => false,
        NamedExpr::Not(_) => false,
    }
}

// One loop further outwards. There are fewer loops than statements.
fn further(nodes: &NamedNodes, outwards: usize) -> usize
    requires { outwards < length nodes.now.stmts }
    ensures { result ≡ outwards + 1 }
{
    if outwards < nodes.stmts() {
        outwards + 1
    } else {
        outwards
    }
}

// Whether a statement leaves the loop that stands `outwards` loops outside of it.
#[cycle(leaving)]
fn stmt_leaves(nodes: &NamedNodes, outwards: usize, s: StmtId) -> bool
    requires s { s.0 < length nodes.now.stmts }
    requires few { outwards + s.0 < length nodes.now.stmts }
    ensures { result ≡ leaves_by_stmt outwards (stmt_at (stmts_of nodes.now) s) }
{
    let node = nodes.stmt(s);
    match &node.stmt {
        NamedStmt::Break(loops) => *loops as usize == outwards,
        NamedStmt::If { arms, otherwise } => {
            arms_leave(nodes, outwards, arms.as_slice(), otherwise)
        }
        NamedStmt::While { body, .. } => block_leaves(nodes, further(nodes, outwards), body),
        NamedStmt::Assign { .. } => false,
        NamedStmt::Keep { .. } => false,
        NamedStmt::Call(_) => false,
        NamedStmt::Continue(_) => false,
        NamedStmt::Return(_) => false,
        NamedStmt::Yield(_) => false,
        NamedStmt::Assert { .. } => false,
    }
}

/// Whether a statement in a block leaves the loop that stands `outwards` loops outside of the block.
#[cycle(leaving)]
pub fn block_leaves(nodes: &NamedNodes, outwards: usize, block: &Block) -> bool
    requires block { BlockBelow (length nodes.now.stmts) block.now }
    requires few { outwards + above_block block.now ≤ length nodes.now.stmts }
    ensures { result ≡ leaves_by_block outwards (block_at (stmts_of nodes.now) block.now) }
{
    for s in block.items.as_slice() {
        if stmt_leaves(nodes, outwards, *s) {
            return true;
        }
    }
    false
}

#[cycle(leaving)]
fn else_leaves(nodes: &NamedNodes, outwards: usize, otherwise: &Option<Block>) -> bool
    requires otherwise { ElseBelow (length nodes.now.stmts) otherwise.now }
    requires few { outwards + above_else otherwise.now ≤ length nodes.now.stmts }
    ensures { result ≡ leaves_by_arms outwards (else_at (stmts_of nodes.now) otherwise.now) }
{
    match otherwise {
        Some(block) => block_leaves(nodes, outwards, block),
        None => false,
    }
}

#[cycle(leaving)]
fn arms_leave(nodes: &NamedNodes, outwards: usize, arms: &[Arm], otherwise: &Option<Block>) -> bool
    requires arms { AllByRecursion (λ a. (a.condition.0 < length nodes.now.exprs) × BlockBelow (length nodes.now.stmts) a.body) arms.now }
    requires otherwise { ElseBelow (length nodes.now.stmts) otherwise.now }
    requires few_in_arms { outwards + above_arms arms.now ≤ length nodes.now.stmts }
    requires few_in_else { outwards + above_else otherwise.now ≤ length nodes.now.stmts }
    ensures { result ≡ leaves_by_arms outwards (arms_at (exprs_of nodes.now) (stmts_of nodes.now) arms.now (else_at (stmts_of nodes.now) otherwise.now)) }
{
    for arm in arms {
        if block_leaves(nodes, outwards, &arm.body) {
            return true;
        }
    }
    else_leaves(nodes, outwards, otherwise)
}

// Whether a loop on this condition with this body never goes on.
fn loop_stops(nodes: &NamedNodes, condition: ExprId, body: &Block) -> bool
    requires condition { condition.0 < length nodes.now.exprs }
    requires body { BlockBelow (length nodes.now.stmts) body.now }
    ensures { result ≡ (word_true (expr_at (exprs_of nodes.now) condition) && not (leaves_by_block 0 (block_at (stmts_of nodes.now) body.now))) }
{
    is_word_true(nodes, condition) && !block_leaves(nodes, 0, body)
}

/// Whether a statement never goes on.
#[cycle(stopping)]
pub(crate) fn stmt_stops(nodes: &NamedNodes, s: StmtId) -> bool
    requires { s.0 < length nodes.now.stmts }
    ensures { result ≡ stops_at_stmt (stmt_at (stmts_of nodes.now) s) }
{
    let node = nodes.stmt(s);
    match &node.stmt {
        NamedStmt::Break(_) => true,
        NamedStmt::Continue(_) => true,
        NamedStmt::Return(_) => true,
        NamedStmt::If { arms, otherwise } => arms_stop(nodes, arms.as_slice(), otherwise),
        NamedStmt::While {
            condition,
            body,
            ..
        } => loop_stops(nodes, *condition, body),
        NamedStmt::Assign { .. } => false,
        NamedStmt::Keep { .. } => false,
        NamedStmt::Call(_) => false,
        NamedStmt::Yield(_) => false,
        NamedStmt::Assert { .. } => false,
    }
}

/// Whether a block never goes on: a statement in it doesn't.
#[cycle(stopping)]
pub(crate) fn block_stops(nodes: &NamedNodes, block: &Block) -> bool
    requires { BlockBelow (length nodes.now.stmts) block.now }
    ensures { result ≡ stops_in_block (block_at (stmts_of nodes.now) block.now) }
{
    for s in block.items.as_slice() {
        if stmt_stops(nodes, *s) {
            return true;
        }
    }
    false
}

#[cycle(stopping)]
fn else_stops(nodes: &NamedNodes, otherwise: &Option<Block>) -> bool
    requires { ElseBelow (length nodes.now.stmts) otherwise.now }
    ensures { result ≡ stops_in_arms (else_at (stmts_of nodes.now) otherwise.now) }
{
    match otherwise {
        Some(block) => block_stops(nodes, block),
        None => false,
    }
}

#[cycle(stopping)]
fn arms_stop(nodes: &NamedNodes, arms: &[Arm], otherwise: &Option<Block>) -> bool
    requires arms { AllByRecursion (λ a. (a.condition.0 < length nodes.now.exprs) × BlockBelow (length nodes.now.stmts) a.body) arms.now }
    requires otherwise { ElseBelow (length nodes.now.stmts) otherwise.now }
    ensures { result ≡ stops_in_arms (arms_at (exprs_of nodes.now) (stmts_of nodes.now) arms.now (else_at (stmts_of nodes.now) otherwise.now)) }
{
    for arm in arms {
        if !block_stops(nodes, &arm.body) {
            return false;
        }
    }
    else_stops(nodes, otherwise)
}

fn reaches_end(around: &Around<'_>, stops: bool, at: Place) -> Option<Place>
    ensures { result ≡ at_place_if (ends_without_result around.now stops) at }
{
    at_if(
        !is_coroutine(around.mark()) && (around.gives().is_some() && !stops),
        at,
    )
}

/// Tells what the end of a body at this closing brace breaks, by whether the body never goes on.
pub(crate) fn tell_end(found: &mut Found, around: &Around<'_>, stops: bool, at: Place)
    ensures { found.new ≡ end_found around.now stops at found.old }
{
    found.tell(Rule::T4, reaches_end(around, stops, at));
}

/// The body of a method as a whole.
pub fn judge_whole_body(here: &Here<'_>, found: &mut Found, body: &Block)
    requires { BlockBelow (length here.now.nodes.now.stmts) body.now }
    ensures { found.new ≡ judged here.now.around.now found.old (whole_body (block_at (stmts_of here.now.nodes.now) body.now) ∷ []) }
{
    tell_end(
        found,
        here.around,
        block_stops(here.nodes, body),
        body.close,
    );
}
