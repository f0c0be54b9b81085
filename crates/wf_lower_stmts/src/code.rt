// Statements of C, each before the code that follows it.

ghost use Rattle.std.specs.Prelude.{◌<◌, ◌^◌, length, IfOk, IfSome};
ghost use Rattle.c_text.specs.CFits.{HasCall, HasTarget};
ghost use Rattle.c_text.specs.CNodes.{args_in, bytes_at, code_of, expr_of, value_in};
ghost use Rattle.c_text.specs.CTree.{finish as finish_code, empty, assign as assign_code, call as call_code, jump as jump_code, leave as leave_code, case_label, name_label};
ghost use Rattle.c_text.specs.declared.kinds.CNumber.TheVariants.{Int};
ghost use Rattle.wf_exprs.specs.Grown.{Grows, HasCode};
ghost use Rattle.wf_lower_stmts.specs.Forms.{resume_here as resumed_here, when as when_code};

use c_text::{CCall, CExprId, CNameId, CNumber, CStmt, CStmtId, Otherwise, Unit};
use wf_exprs::nodes::number;
use wf_exprs_nodes::helpers::{put_end, put_stmt};
use wf_text::NoMemory;

/// The end of a block.
pub fn finish(u: &mut Unit) -> Result<CStmtId, NoMemory>
    ensures grows { Grows u.old u.new }
    ensures made { IfOk result (λ it. HasCode u.new it.0 finish_code) }
{
    put_end(u)
}

/// `target = value;`
pub fn assign(
    u: &mut Unit,
    target: CExprId,
    value: CExprId,
    rest: CStmtId,
) -> Result<CStmtId, NoMemory>
    requires target { HasTarget u.old (length u.old.exprs) target }
    requires value { value.0 < length u.old.exprs }
    requires rest { rest.0 < length u.old.stmts }
    ensures grows { Grows u.old u.new }
    ensures made { IfOk result (λ it. HasCode u.new it.0 (assign_code (expr_of u.old target.0) (expr_of u.old value.0) (code_of u.old rest.0))) }
{
    put_stmt(
        u,
        CStmt::Assign {
            target,
            value,
            rest,
        },
    )
}

/// `call;` or `target = call;`
pub fn call(
    u: &mut Unit,
    target: Option<CExprId>,
    call: CCall,
    rest: CStmtId,
) -> Result<CStmtId, NoMemory>
    requires target { IfSome target (HasTarget u.old (length u.old.exprs)) }
    requires call { HasCall u.old (length u.old.exprs) call }
    requires rest { rest.0 < length u.old.stmts }
    ensures grows { Grows u.old u.new }
    ensures made { IfOk result (λ it. HasCode u.new it.0 (call_code (value_in (expr_of u.old) target) (bytes_at u.old.names call.function.0) (args_in u.old.names (expr_of u.old) call.args) (code_of u.old rest.0))) }
{
    put_stmt(u, CStmt::Call { target, call, rest })
}

/// `goto label;`
pub fn jump(u: &mut Unit, label: CNameId, rest: CStmtId) -> Result<CStmtId, NoMemory>
    requires label { label.0 < length u.old.names }
    requires rest { rest.0 < length u.old.stmts }
    ensures grows { Grows u.old u.new }
    ensures made { IfOk result (λ it. HasCode u.new it.0 (jump_code (bytes_at u.old.names label.0) (code_of u.old rest.0))) }
{
    put_stmt(u, CStmt::Goto { label, rest })
}

/// `return;` or `return value;`
pub fn leave(u: &mut Unit, value: Option<CExprId>, rest: CStmtId) -> Result<CStmtId, NoMemory>
    requires value { IfSome value (λ e. e.0 < length u.old.exprs) }
    requires rest { rest.0 < length u.old.stmts }
    ensures grows { Grows u.old u.new }
    ensures made { IfOk result (λ it. HasCode u.new it.0 (leave_code (value_in (expr_of u.old) value) (code_of u.old rest.0))) }
{
    put_stmt(u, CStmt::Return { value, rest })
}

/// `if (test) { body }`
pub fn when(u: &mut Unit, test: CExprId, body: CStmtId, rest: CStmtId) -> Result<CStmtId, NoMemory>
    requires test { test.0 < length u.old.exprs }
    requires body { body.0 < length u.old.stmts }
    requires rest { rest.0 < length u.old.stmts }
    ensures grows { Grows u.old u.new }
    ensures made { IfOk result (λ it. HasCode u.new it.0 (when_code (expr_of u.old test.0) (code_of u.old body.0) (code_of u.old rest.0))) }
{
    let other = finish(u)?;
    put_stmt(
        u,
        CStmt::If {
            test,
            body,
            otherwise: Otherwise::Nothing,
            other,
            rest,
        },
    )
}

/// `name: ;`
pub fn labelled(u: &mut Unit, name: CNameId, rest: CStmtId) -> Result<CStmtId, NoMemory>
    requires name { name.0 < length u.old.names }
    requires rest { rest.0 < length u.old.stmts }
    ensures grows { Grows u.old u.new }
    ensures made { IfOk result (λ it. HasCode u.new it.0 (name_label (bytes_at u.old.names name.0) (empty (code_of u.old rest.0)))) }
{
    let rest = put_stmt(u, CStmt::Empty { rest })?;
    put_stmt(u, CStmt::Label { name, rest })
}

/// `case k: ;`
pub fn case(u: &mut Unit, k: u32, rest: CStmtId) -> Result<CStmtId, NoMemory>
    requires number { k < 2 ^ 31 }
    requires rest { rest.0 < length u.old.stmts }
    ensures grows { Grows u.old u.new }
    ensures made { IfOk result (λ it. HasCode u.new it.0 (case_label (Int k) (empty (code_of u.old rest.0)))) }
{
    let rest = put_stmt(u, CStmt::Empty { rest })?;
    put_stmt(
        u,
        CStmt::Case {
            number: CNumber::Int(k),
            rest,
        },
    )
}

/// `if (0) { case k: ; }`: what comes before it goes on after it without falling into a `case`.
pub fn resume_here(u: &mut Unit, k: u32, rest: CStmtId) -> Result<CStmtId, NoMemory>
    requires number { k < 2 ^ 31 }
    requires rest { rest.0 < length u.old.stmts }
    ensures grows { Grows u.old u.new }
    ensures made { IfOk result (λ it. HasCode u.new it.0 (resumed_here k (code_of u.old rest.0))) }
{
    let end = finish(u)?;
    let body = case(u, k, end)?;
    let test = number(u, 0)?;
    when(u, test, body, rest)
}
