// Returns. A coroutine can't return a suspension: one that is known is the error at once, and a variable is asked.

ghost use Rattle.std.specs.Prelude.{◌≡◌, ◌<◌, ◌&&◌, false, if◌then◌else◌, length, Some, option_map, IsTrue, IfOk, IfSome, IfNone};
ghost use Rattle.wf_ast.specs.TypedInvariant.{is_expr, is_optional_expr};
ghost use Rattle.wf_ast.specs.TypedTree.{status};
ghost use Rattle.wf_ast.specs.TypedTrees.{place_of_node, tree_of, type_of_node};
ghost use Rattle.wf_ast.specs.WellTyped.{is_coroutine};
ghost use Rattle.wf_ast.specs.NodeKinds.{is_status_at, node_status};
ghost use Rattle.wf_meaning.specs.Entry.{cannot_suspend};
ghost use Rattle.c_text.specs.CNodes.{code_of, expr_of};
ghost use Rattle.c_text.specs.CTree.{finish as finish_code, assign as assign_code};
ghost use Rattle.wf_exprs.specs.Exprs.{begins_with as begins_with_code, is_constant, lowered_status, status_constant as constant_code};
ghost use Rattle.wf_exprs.specs.Grown.{Grows, HasCode};
ghost use Rattle.wf_exprs_nodes.specs.Trees.{is_single, lowered_value};
ghost use Rattle.wf_lower_stmts.specs.BodyNodes.{form_in};
ghost use Rattle.wf_lower_stmts.specs.Forms.{give as give_code, status_local, when as when_code};
ghost use Rattle.wf_lower_stmts.specs.Statements.{give_status as give_status_code, give_value as give_value_code, is_suspension as is_suspension_of};

use c_text::{CExprId, CStmtId, Unit};
use wf_ast::{Expr, ExprId, Ty, Typed};
use wf_exprs::nodes::variable;
use wf_exprs_nodes::statuses::{begins_with, status_constant};
use wf_exprs_nodes::{lower_expr, statuses};
use wf_lower_stmts::Body;
use wf_lower_stmts::code::{assign, finish, when};
use wf_lower_stmts::keeping::give;
use wf_text::status_text::category;
use wf_text::{Category, NoMemory, StatusId};

const CANNOT_SUSPEND: u32 = 9;

/// The status that is returned in place of this one.
fn returned(b: &Body, n: StatusId) -> u32
    requires known { n.0 < length b.now.nodes.statuses }
    ensures { result ≡ (if is_coroutine (form_in b.now).method.mark && is_suspension_of (form_in b.now) n.0 then cannot_suspend else n.0) }
{
    if b.is_coroutine() && is_suspension(b, n) {
        CANNOT_SUSPEND
    } else {
        n.0
    }
}

fn is_suspension(b: &Body, n: StatusId) -> bool
    requires known { n.0 < length b.now.nodes.statuses }
    ensures { result ≡ is_suspension_of (form_in b.now) n.0 }
{
    match category(b.typed().status_text(n)) {
        Category::Suspension => true,
        Category::Fine => false,
        Category::Note => false,
        Category::Fault => false,
    }
}

/// `status = cannot_suspend;` at the end of a block.
fn replaced(u: &mut Unit, status: CExprId) -> Result<CStmtId, NoMemory>
    requires status { expr_of u.old status.0 ≡ status_local }
    requires there { status.0 < length u.old.exprs }
    ensures grows { Grows u.old u.new }
    ensures made { IfOk result (λ code. HasCode u.new code.0 (assign_code status_local (constant_code cannot_suspend) finish_code)) }
{
    let end = finish(u)?;
    let other = status_constant(u, CANNOT_SUSPEND)?;
    assign(u, status, other, end)
}

/// `status = cannot_suspend;` where the status is a suspension.
fn replace_suspension(
    b: &Body,
    u: &mut Unit,
    status: CExprId,
    rest: CStmtId,
) -> Result<CStmtId, NoMemory>
    requires status { expr_of u.old status.0 ≡ status_local }
    requires there { status.0 < length u.old.exprs }
    requires rest { rest.0 < length u.old.stmts }
    ensures grows { Grows u.old u.new }
    ensures made { IfOk result (λ code. HasCode u.new code.0 (when_code (begins_with_code 36 status_local) (assign_code status_local (constant_code cannot_suspend) finish_code) (code_of u.old rest.0))) }
{
    let body = replaced(u, status)?;
    let test = begins_with(b.alloc(), u, b'$', status)?;
    when(u, test, body, rest)
}

/// A coroutine returns a status that stands in a variable.
#[tactic(auto, using(wf_exprs::proofs::Growing::grows_on), unfolding(c_text::specs::CSpelling::is_reserved))]
fn give_asked(b: &Body, u: &mut Unit, e: ExprId, rest: CStmtId) -> Result<CStmtId, NoMemory>
    requires node { IsTrue (is_status_at b.now.nodes e) }
    requires rest { rest.0 < length u.old.stmts }
    ensures grows { Grows u.old u.new }
    ensures made { IfOk result (λ code. HasCode u.new code.0 (assign_code status_local (lowered_status (form_in b.now).names (node_status b.now.nodes e)) (when_code (begins_with_code 36 status_local) (assign_code status_local (constant_code cannot_suspend) finish_code) (give_code (form_in b.now) (Some status_local) (code_of u.old rest.0))))) }
{
    let status = variable(u, b"status")?;
    let rest = give(b, u, Some(status), rest)?;
    let rest = replace_suspension(b, u, status, rest)?;
    let value = statuses::status(b.scope(), u, e)?;
    assign(u, status, value, rest)
}

/// A status that is known is returned.
fn give_constant(b: &Body, u: &mut Unit, n: StatusId, rest: CStmtId) -> Result<CStmtId, NoMemory>
    requires known { n.0 < length b.now.nodes.statuses }
    requires rest { rest.0 < length u.old.stmts }
    ensures grows { Grows u.old u.new }
    ensures made { IfOk result (λ code. HasCode u.new code.0 (give_code (form_in b.now) (Some (constant_code (if is_coroutine (form_in b.now).method.mark && is_suspension_of (form_in b.now) n.0 then cannot_suspend else n.0))) (code_of u.old rest.0))) }
{
    let value = status_constant(u, returned(b, n))?;
    give(b, u, Some(value), rest)
}

fn give_variable(b: &Body, u: &mut Unit, e: ExprId, rest: CStmtId) -> Result<CStmtId, NoMemory>
    requires node { IsTrue (is_status_at b.now.nodes e) }
    requires variable { is_constant (node_status b.now.nodes e) ≡ false }
    requires rest { rest.0 < length u.old.stmts }
    ensures grows { Grows u.old u.new }
    ensures made { IfOk result (λ code. HasCode u.new code.0 (give_status_code (form_in b.now) (node_status b.now.nodes e) (code_of u.old rest.0))) }
{
    if b.is_coroutine() {
        give_asked(b, u, e, rest)
    } else {
        give_held(b, u, e, rest)
    }
}

/// The status that an expression names, and None where it stands in a variable.
fn named_status(t: &Typed, e: ExprId) -> Option<StatusId>
    requires { IsTrue (is_status_at t.now e) }
    ensures some { IfSome result (λ n. (n.0 < length t.now.statuses) × (node_status t.now e ≡ status (place_of_node t.now e.0) n.0)) }
    ensures none { IfNone result (is_constant (node_status t.now e) ≡ false) }
{
    let expr = t.expr(e);
    match t.constant(e) {
        Some(_) => unreachable!(),
        None => match expr {
            Expr::Status(n) => Some(*n),
            Expr::Local(_) | Expr::Field(_) => None,
            Expr::Arg(_) => unreachable!(),
            Expr::Number(_) | Expr::Const(_) | Expr::Truth(_) => unreachable!(),
            Expr::Chain { .. } => unreachable!(),
            Expr::Index { .. } | Expr::Cut { .. } => unreachable!(),
            Expr::Convert { .. } | Expr::Not(_) | Expr::Base { .. } => unreachable!(),
        },
    }
}

/// A status is returned.
fn give_status(b: &Body, u: &mut Unit, e: ExprId, rest: CStmtId) -> Result<CStmtId, NoMemory>
    requires node { IsTrue (is_status_at b.now.nodes e) }
    requires rest { rest.0 < length u.old.stmts }
    ensures grows { Grows u.old u.new }
    ensures made { IfOk result (λ code. HasCode u.new code.0 (give_status_code (form_in b.now) (node_status b.now.nodes e) (code_of u.old rest.0))) }
{
    match named_status(b.typed(), e) {
        Some(n) => give_constant(b, u, n, rest),
        None => give_variable(b, u, e, rest),
    }
}

/// A number or a truth value is returned.
fn give_single(b: &Body, u: &mut Unit, e: ExprId, rest: CStmtId) -> Result<CStmtId, NoMemory>
    requires node { IsTrue (is_expr b.now.nodes e) }
    requires single { IsTrue (is_single (type_of_node b.now.nodes e.0)) }
    requires rest { rest.0 < length u.old.stmts }
    ensures grows { Grows u.old u.new }
    ensures made { IfOk result (λ code. HasCode u.new code.0 (give_code (form_in b.now) (Some (lowered_value (form_in b.now).names (tree_of b.now.nodes e))) (code_of u.old rest.0))) }
{
    let value = lower_expr(b.scope(), u, e)?;
    give(b, u, Some(value), rest)
}

/// A status that stands in a variable is returned as it is.
fn give_held(b: &Body, u: &mut Unit, e: ExprId, rest: CStmtId) -> Result<CStmtId, NoMemory>
    requires node { IsTrue (is_status_at b.now.nodes e) }
    requires rest { rest.0 < length u.old.stmts }
    ensures grows { Grows u.old u.new }
    ensures made { IfOk result (λ code. HasCode u.new code.0 (give_code (form_in b.now) (Some (lowered_status (form_in b.now).names (node_status b.now.nodes e))) (code_of u.old rest.0))) }
{
    let value = statuses::status(b.scope(), u, e)?;
    give(b, u, Some(value), rest)
}

/// A value of any kind is returned.
fn give_some(b: &Body, u: &mut Unit, e: ExprId, rest: CStmtId) -> Result<CStmtId, NoMemory>
    requires node { IsTrue (is_expr b.now.nodes e) }
    requires rest { rest.0 < length u.old.stmts }
    ensures grows { Grows u.old u.new }
    ensures made { IfOk result (λ code. HasCode u.new code.0 (give_value_code (form_in b.now) (Some (tree_of b.now.nodes e)) (code_of u.old rest.0))) }
{
    match b.typed().type_of(e) {
        Ty::Num { .. } => give_single(b, u, e, rest),
        Ty::Flag => give_single(b, u, e, rest),
        Ty::Status => give_status(b, u, e, rest),
        Ty::Slice(_) => Ok(rest),
        Ty::Array { .. } => Ok(rest),
        Ty::Reader => Ok(rest),
        Ty::Writer => Ok(rest),
        Ty::Part(_) => Ok(rest),
    }
}

/// The function returns what is given, or nothing.
pub(crate) fn give_value(
    b: &Body,
    u: &mut Unit,
    value: Option<ExprId>,
    rest: CStmtId,
) -> Result<CStmtId, NoMemory>
    requires value { IsTrue (is_optional_expr b.now.nodes value) }
    requires rest { rest.0 < length u.old.stmts }
    ensures grows { Grows u.old u.new }
    ensures made { IfOk result (λ code. HasCode u.new code.0 (give_value_code (form_in b.now) (option_map (tree_of b.now.nodes) value) (code_of u.old rest.0))) }
{
    match value {
        Some(e) => give_some(b, u, e, rest),
        None => give(b, u, None, rest),
    }
}
