// Blocks: `while` for `while` and `if` for `if`. A block is lowered from its last statement on, since each statement of C knows
// what follows it.

ghost use Rattle.std.specs.Prelude.{◌≡◌, ◌<◌, ◌&&◌, length, drop, IsTrue, IfOk};
ghost use Rattle.std.specs.List.{list_all};
ghost use Rattle.wf_ast.specs.TypedInvariant.{block_below, is_expr, optional_block_below};
ghost use Rattle.wf_ast.specs.TypedTree.{Block as BlockTree};
ghost use Rattle.wf_ast.specs.TypedTrees.{block_of as block_in, onto, stmt_makers};
ghost use Rattle.wf_ast.specs.NodeKinds.{node_cond};
ghost use Rattle.c_text.specs.CGrammar.{FitsElse};
ghost use Rattle.c_text.specs.CNodes.{code_of};
ghost use Rattle.c_text.specs.CTree.{Code, finish as finish_code, branch, repeat};
ghost use Rattle.wf_exprs.specs.Exprs.{lowered_cond};
ghost use Rattle.wf_exprs.specs.Grown.{Grows, HasCode};
ghost use Rattle.wf_lower_stmts.specs.BodyNodes.{form_in, points_by};
ghost use Rattle.wf_lower_stmts.specs.Lower.{again_here, behind_here, lower as lower_code, other_kind};
ghost use Rattle.wf_lower_blocks.specs.Blocks.{HasOther, else_in, if_in, others_in, site_at};

use crate::any::condition_on;
use crate::statements::lower_simple;
use c_text::{CStmt, CStmtId, Otherwise, Unit};
use wf_ast::{Arm, Block, LoopHead, Stmt, StmtId};
use wf_exprs_nodes::helpers::put_stmt;
use wf_lower_stmts::Body;
use wf_lower_stmts::code::{finish, labelled};
use wf_lower_stmts::spelling::{again_label, behind_label};
use wf_lower_stmts::walks::{breaks, continues};
use wf_text::NoMemory;

/// What stands after the block of an `if`.
#[derive(Clone, Copy)]
struct Other {
    kind: Otherwise,
    code: CStmtId,
}

/// The code at the end of a loop's body: its label, where a `continue` jumps to it.
fn end_of_body(b: &Body, u: &mut Unit, w: StmtId, body: &Block) -> Result<CStmtId, NoMemory>
    requires known { IsTrue (block_below (length b.now.nodes.stmts) body.now) }
    ensures grows { Grows u.old u.new }
    ensures made { IfOk result (λ code. HasCode u.new code.0 (again_here (site_at b.now.nodes w) (block_in b.now.nodes body.now))) }
{
    let end = finish(u)?;
    if !continues(b.typed(), w, body) {
        return Ok(end);
    }
    let label = again_label(u, w.0)?;
    labelled(u, label, end)
}

/// The code after a loop, with the label to which a `break` jumps.
fn behind_loop(
    b: &Body,
    u: &mut Unit,
    w: StmtId,
    body: &Block,
    rest: CStmtId,
) -> Result<CStmtId, NoMemory>
    requires known { IsTrue (block_below (length b.now.nodes.stmts) body.now) }
    requires rest { rest.0 < length u.old.stmts }
    ensures grows { Grows u.old u.new }
    ensures made { IfOk result (λ code. HasCode u.new code.0 (behind_here (site_at b.now.nodes w) (block_in b.now.nodes body.now) (code_of u.old rest.0))) }
{
    if !breaks(b.typed(), w, body) {
        return Ok(rest);
    }
    let label = behind_label(u, w.0)?;
    labelled(u, label, rest)
}

/// A statement, before the code `rest`.
#[cycle(lowering)]
fn lower_stmt(b: &Body, u: &mut Unit, s: StmtId, rest: CStmtId) -> Result<CStmtId, NoMemory>
    requires within { s.0 < length b.now.nodes.stmts }
    requires rest { rest.0 < length u.old.stmts }
    ensures grows { Grows u.old u.new }
    ensures made { IfOk result (λ code. (after : BlockTree) (tail : Code) → code_of u.old rest.0 ≡ lower_code (form_in b.now) (points_by b.now.numbers) after tail → HasCode u.new code.0 (lower_code (form_in b.now) (points_by b.now.numbers) (onto (stmt_makers b.now.nodes) s after) tail)) }
{
    match b.typed().stmt(s) {
        Stmt::If { arms, otherwise } => lower_if(b, u, s, arms.as_slice(), otherwise, rest),
        Stmt::While { head, body } => lower_while(b, u, s, head, body, rest),
        _ => lower_simple(b, u, s, rest),
    }
}

/// A block inside the statement `s`, before the code `tail`.
#[cycle(lowering)]
fn lower_within(
    b: &Body,
    u: &mut Unit,
    s: StmtId,
    block: &Block,
    tail: CStmtId,
) -> Result<CStmtId, NoMemory>
    requires within { s.0 < length b.now.nodes.stmts }
    requires below { IsTrue (block_below s.0 block.now) }
    requires tail { tail.0 < length u.old.stmts }
    ensures grows { Grows u.old u.new }
    ensures made { IfOk result (λ code. HasCode u.new code.0 (lower_code (form_in b.now) (points_by b.now.numbers) (block_in b.now.nodes block.now) (code_of u.old tail.0))) }
{
    let items = block.items.as_slice();
    let mut left = items.len();
    let mut code = tail;
    while left > 0 {
        left -= 1;
        code = lower_stmt(b, u, items[left], code)?;
    }
    Ok(code)
}

/// A block after which nothing stands.
#[cycle(lowering)]
fn lower_inner(b: &Body, u: &mut Unit, s: StmtId, block: &Block) -> Result<CStmtId, NoMemory>
    requires within { s.0 < length b.now.nodes.stmts }
    requires below { IsTrue (block_below s.0 block.now) }
    ensures grows { Grows u.old u.new }
    ensures made { IfOk result (λ code. HasCode u.new code.0 (lower_code (form_in b.now) (points_by b.now.numbers) (block_in b.now.nodes block.now) finish_code)) }
{
    let end = finish(u)?;
    lower_within(b, u, s, block, end)
}

/// `if (cond) { body }` with what stands after it.
#[cycle(lowering)]
fn lower_arm(
    b: &Body,
    u: &mut Unit,
    s: StmtId,
    arm: &Arm,
    other: Other,
    rest: CStmtId,
) -> Result<CStmtId, NoMemory>
    requires within { s.0 < length b.now.nodes.stmts }
    requires arm { IsTrue (is_expr b.now.nodes arm.now.cond && block_below s.0 arm.now.body) }
    requires other { (other.code.0 < length u.old.stmts) × FitsElse other.kind (code_of u.old other.code.0) }
    requires rest { rest.0 < length u.old.stmts }
    ensures grows { Grows u.old u.new }
    ensures made { IfOk result (λ code. HasCode u.new code.0 (branch (lowered_cond (form_in b.now).names (node_cond b.now.nodes arm.now.cond)) (lower_code (form_in b.now) (points_by b.now.numbers) (block_in b.now.nodes arm.now.body) finish_code) other.kind (code_of u.old other.code.0) (code_of u.old rest.0))) }
{
    let body = lower_inner(b, u, s, &arm.body)?;
    let test = condition_on(b, u, arm.cond)?;
    put_stmt(
        u,
        CStmt::If {
            test,
            body,
            otherwise: other.kind,
            other: other.code,
            rest,
        },
    )
}

/// What stands after an `if` before this block: nothing where it is empty.
fn else_kind(b: &Body, s: StmtId, block: &Block) -> Otherwise
    requires within { s.0 < length b.now.nodes.stmts }
    requires below { IsTrue (block_below s.0 block.now) }
    ensures is { result ≡ other_kind (block_in b.now.nodes block.now) }
    ensures fits { FitsElse result (lower_code (form_in b.now) (points_by b.now.numbers) (block_in b.now.nodes block.now) finish_code) }
{
    let _typed = b.typed();
    if block.items.as_slice().is_empty() {
        Otherwise::Nothing
    } else {
        Otherwise::Block
    }
}

/// The block of an `else`.
#[cycle(lowering)]
fn lower_else(
    b: &Body,
    u: &mut Unit,
    s: StmtId,
    otherwise: &Option<Block>,
) -> Result<Other, NoMemory>
    requires within { s.0 < length b.now.nodes.stmts }
    requires below { IsTrue (optional_block_below s.0 otherwise.now) }
    ensures grows { Grows u.old u.new }
    ensures made { IfOk result (λ other. HasOther u.new other.kind other.code.0 (else_in b.now.nodes otherwise.now) (lower_code (form_in b.now) (points_by b.now.numbers) (else_in b.now.nodes otherwise.now) finish_code)) }
{
    match otherwise {
        Some(block) => {
            let code = lower_inner(b, u, s, block)?;
            Ok(Other {
                kind: else_kind(b, s, block),
                code,
            })
        }
        None => Ok(Other {
            kind: Otherwise::Nothing,
            code: finish(u)?,
        }),
    }
}

/// What stands after the block of an `if`: an `else if` for each further arm.
#[cycle(lowering)]
fn lower_others(
    b: &Body,
    u: &mut Unit,
    s: StmtId,
    arms: &[Arm],
    otherwise: &Option<Block>,
) -> Result<Other, NoMemory>
    requires within { s.0 < length b.now.nodes.stmts }
    requires arms { IsTrue (list_all (λ a. is_expr b.now.nodes a.cond && block_below s.0 a.body) arms.now) }
    requires otherwise { IsTrue (optional_block_below s.0 otherwise.now) }
    ensures grows { Grows u.old u.new }
    ensures made { IfOk result (λ other. HasOther u.new other.kind other.code.0 (others_in b.now.nodes s (drop 1 arms.now) otherwise.now) (lower_code (form_in b.now) (points_by b.now.numbers) (others_in b.now.nodes s (drop 1 arms.now) otherwise.now) finish_code)) }
{
    let mut other = lower_else(b, u, s, otherwise)?;
    let mut left = arms.len();
    while left > 1 {
        left -= 1;
        let rest = finish(u)?;
        let code = lower_arm(b, u, s, &arms[left], other, rest)?;
        other = Other {
            kind: Otherwise::If,
            code,
        };
    }
    Ok(other)
}

#[cycle(lowering)]
fn lower_if(
    b: &Body,
    u: &mut Unit,
    s: StmtId,
    arms: &[Arm],
    otherwise: &Option<Block>,
    rest: CStmtId,
) -> Result<CStmtId, NoMemory>
    requires within { s.0 < length b.now.nodes.stmts }
    requires arms { IsTrue (list_all (λ a. is_expr b.now.nodes a.cond && block_below s.0 a.body) arms.now) }
    requires otherwise { IsTrue (optional_block_below s.0 otherwise.now) }
    requires rest { rest.0 < length u.old.stmts }
    ensures grows { Grows u.old u.new }
    ensures made { IfOk result (λ code. (after : BlockTree) (tail : Code) → code_of u.old rest.0 ≡ lower_code (form_in b.now) (points_by b.now.numbers) after tail → HasCode u.new code.0 (lower_code (form_in b.now) (points_by b.now.numbers) (if_in b.now.nodes s arms.now otherwise.now after) tail)) }
{
    if arms.is_empty() {
        return Ok(rest);
    }
    let other = lower_others(b, u, s, arms, otherwise)?;
    lower_arm(b, u, s, &arms[0], other, rest)
}

#[cycle(lowering)]
fn lower_while(
    b: &Body,
    u: &mut Unit,
    w: StmtId,
    head: &LoopHead,
    body: &Block,
    rest: CStmtId,
) -> Result<CStmtId, NoMemory>
    requires within { w.0 < length b.now.nodes.stmts }
    requires cond { IsTrue (is_expr b.now.nodes head.now.cond) }
    requires below { IsTrue (block_below w.0 body.now) }
    requires rest { rest.0 < length u.old.stmts }
    ensures grows { Grows u.old u.new }
    ensures made { IfOk result (λ code. HasCode u.new code.0 (repeat (lowered_cond (form_in b.now).names (node_cond b.now.nodes head.now.cond)) (lower_code (form_in b.now) (points_by b.now.numbers) (block_in b.now.nodes body.now) (again_here (site_at b.now.nodes w) (block_in b.now.nodes body.now))) (behind_here (site_at b.now.nodes w) (block_in b.now.nodes body.now) (code_of u.old rest.0)))) }
{
    let rest = behind_loop(b, u, w, body, rest)?;
    let tail = end_of_body(b, u, w, body)?;
    let code = lower_within(b, u, w, body, tail)?;
    let test = condition_on(b, u, head.cond)?;
    put_stmt(
        u,
        CStmt::While {
            test,
            body: code,
            rest,
        },
    )
}

/// A whole block of a package, before the code `tail`.
pub(crate) fn lower_block(
    b: &Body,
    u: &mut Unit,
    block: &Block,
    tail: CStmtId,
) -> Result<CStmtId, NoMemory>
    requires known { IsTrue (block_below (length b.now.nodes.stmts) block.now) }
    requires tail { tail.0 < length u.old.stmts }
    ensures grows { Grows u.old u.new }
    ensures made { IfOk result (λ code. HasCode u.new code.0 (lower_code (form_in b.now) (points_by b.now.numbers) (block_in b.now.nodes block.now) (code_of u.old tail.0))) }
{
    let items = block.items.as_slice();
    let mut left = items.len();
    let mut code = tail;
    while left > 0 {
        left -= 1;
        code = lower_stmt(b, u, items[left], code)?;
    }
    Ok(code)
}
