// The body of a method as a function. That of a coroutine takes the number of the point where it goes on out of its struct,
// and what it kept there.

ghost use Rattle.std.specs.Prelude.{◌≡◌, ◌<◌, ◌+◌, ◌++◌, ◌∷◌, [], length, map, slice_get, Some, IfOk};
ghost use Rattle.c_text.specs.CFits.{HasLocals, HasParams};
ghost use Rattle.c_text.specs.CGrammar.{is_finish};
ghost use Rattle.c_text.specs.CNodes.{Nodes, bytes_at, code_of, param_tree};
ghost use Rattle.c_text.specs.CTree.{Code, case_label, empty, select};
ghost use Rattle.c_text.specs.declared.kinds.CNumber.TheVariants.{Int};
ghost use Rattle.wf_exprs.specs.Grown.{Grows, HasCode, HasNamed};
ghost use Rattle.wf_exprs.specs.Names.{body_name as named_body};
ghost use Rattle.wf_lower_stmts.specs.BodyNodes.{form_in};
ghost use Rattle.wf_lower_stmts.specs.Forms.{resume_local, when_some};
ghost use Rattle.wf_lower_stmts.specs.Lower.{ending as ending_code};
ghost use Rattle.wf_lower.specs.Bodies.{body_code as code_of_body, body_function as body_item, coroutine_code as code_of_coroutine, fixed_locals as locals_of_all, params_of as params_for, result_of as result_for, resumed, statements_of, touched as touched_code};
ghost use Rattle.wf_lower.specs.Made.{CodeReads, HasItemTree, HasLocalTrees, HasParamTrees, IsResult};
ghost use Rattle.wf_lower.specs.Shared.{HasOwnNames};
ghost use Rattle.wf_lower.specs.Methods.{IsBodyOf, local_names, names_in, param_names, read_locals};

use crate::declaring::{params_of, result_of};
use crate::locals::{add_further, fixed_locals};
use crate::shared::OwnNames;
use c_text::{CExpr, CItem, CList, CLocal, CNameId, CParam, CStmt, CStmtId, CType, Linkage, Unit};
use wf_ast::Block;
use wf_exprs::nodes::{number, put, variable};
use wf_exprs_nodes::helpers::put_stmt;
use wf_exprs_nodes::marks::ReadNames;
use wf_lower_blocks::ending::{ending, lower_body};
use wf_lower_stmts::Body;
use wf_lower_stmts::code::{assign, case, finish, when};
use wf_lower_stmts::keeping::{point_there, restore};
use wf_lower_stmts::spelling::body_name;
use wf_text::NoMemory;

/// The statements of the method, and at their end what ends them.
fn statements(b: &Body, u: &mut Unit, body: &Block) -> Result<CStmtId, NoMemory>
    requires { IsBodyOf b.now body.now }
    ensures grows { Grows u.old u.new }
    ensures made { IfOk result (λ code. HasCode u.new code.0 (statements_of (form_in b.now))) }
{
    b.is_sound();
    lower_body(b, u, body)
}

/// The same after the label of a call that isn't resumed.
fn from_start(b: &Body, u: &mut Unit, body: &Block) -> Result<CStmtId, NoMemory>
    requires { IsBodyOf b.now body.now }
    ensures grows { Grows u.old u.new }
    ensures made { IfOk result (λ code. HasCode u.new code.0 (case_label (Int 0) (empty (statements_of (form_in b.now))))) }
{
    let code = statements(b, u, body)?;
    case(u, 0, code)
}

/// The `switch` over the points, with the statements in it.
#[tactic(auto, unfolding(c_text::specs::CSpelling::is_reserved))]
fn select_point(b: &Body, u: &mut Unit, body: &Block) -> Result<CStmtId, NoMemory>
    requires { IsBodyOf b.now body.now }
    ensures grows { Grows u.old u.new }
    ensures made { IfOk result (λ code. HasCode u.new code.0 (select resume_local (case_label (Int 0) (empty (statements_of (form_in b.now)))) (ending_code (form_in b.now)))) }
{
    let rest = ending(b, u)?;
    let code = from_start(b, u, body)?;
    let on = variable(u, b"resume")?;
    put_stmt(
        u,
        CStmt::Switch {
            on,
            body: code,
            rest,
        },
    )
}

/// Whether a block of a unit is empty.
fn is_empty(u: &Unit, s: CStmtId) -> bool
    requires { s.0 < length u.now.stmts }
    ensures { result ≡ is_finish (code_of u.now s.0) }
{
    matches!(u.stmt(s), CStmt::End)
}

/// `if (resume) { body }`, where the block isn't empty.
#[tactic(auto, unfolding(c_text::specs::CSpelling::is_reserved))]
fn when_resumed(u: &mut Unit, body: CStmtId, rest: CStmtId) -> Result<CStmtId, NoMemory>
    requires body { body.0 < length u.old.stmts }
    requires rest { rest.0 < length u.old.stmts }
    ensures grows { Grows u.old u.new }
    ensures made { IfOk result (λ code. HasCode u.new code.0 (when_some resume_local (code_of u.old body.0) (code_of u.old rest.0))) }
{
    if is_empty(u, body) {
        return Ok(rest);
    }
    let test = variable(u, b"resume")?;
    when(u, test, body, rest)
}

/// What a resumed call takes out of its struct.
fn kept(b: &Body, u: &mut Unit) -> Result<CStmtId, NoMemory>
    ensures grows { Grows u.old u.new }
    ensures made { IfOk result (λ code. HasCode u.new code.0 (resumed (form_in b.now))) }
{
    let end = finish(u)?;
    restore(b, u, end)
}

/// `if (resume) { .. }` with what was kept, where there is something.
fn restored(b: &Body, u: &mut Unit, rest: CStmtId) -> Result<CStmtId, NoMemory>
    requires { rest.0 < length u.old.stmts }
    ensures grows { Grows u.old u.new }
    ensures made { IfOk result (λ code. HasCode u.new code.0 (when_some resume_local (resumed (form_in b.now)) (code_of u.old rest.0))) }
{
    let body = kept(b, u)?;
    when_resumed(u, body, rest)
}

/// The code of a coroutine.
fn coroutine_code(b: &Body, u: &mut Unit, body: &Block) -> Result<CStmtId, NoMemory>
    requires { IsBodyOf b.now body.now }
    ensures grows { Grows u.old u.new }
    ensures made { IfOk result (λ code. HasCode u.new code.0 (code_of_coroutine (form_in b.now))) }
{
    let rest = select_point(b, u, body)?;
    let rest = restored(b, u, rest)?;
    let zero = number(u, 0)?;
    let there = point_there(b, u)?;
    assign(u, there, zero, rest)
}

/// The code of a body.
fn body_code(b: &Body, u: &mut Unit, body: &Block) -> Result<CStmtId, NoMemory>
    requires { IsBodyOf b.now body.now }
    ensures grows { Grows u.old u.new }
    ensures made { IfOk result (λ code. HasCode u.new code.0 (code_of_body (form_in b.now))) }
{
    if b.is_coroutine() {
        coroutine_code(b, u, body)
    } else {
        statements(b, u, body)
    }
}

/// `if (name) { }` where nothing reads the name.
fn touch(u: &mut Unit, read: &ReadNames, name: CNameId, rest: CStmtId) -> Result<CStmtId, NoMemory>
    requires name { name.0 < length u.old.names }
    requires rest { rest.0 < length u.old.stmts }
    ensures grows { Grows u.old u.new }
    ensures made { IfOk result (λ it. (code : Code) → CodeReads code u.old.names read.now → HasCode u.new it.0 (touched_code (bytes_at u.old.names name.0 ∷ []) code (code_of u.old rest.0))) }
{
    if read.has(u, name) {
        return Ok(rest);
    }
    let body = finish(u)?;
    let test = put(u, CExpr::Name(name))?;
    when(u, test, body, rest)
}

/// The name of the parameter with this number or, after all parameters, of a local.
fn name_at(params: &[CParam], locals: &[CLocal], i: usize) -> CNameId
    requires { i < length params.now + length locals.now }
    ensures there { (nodes : Nodes) → HasParams nodes params.now → HasLocals nodes locals.now → result.0 < length nodes.names }
    ensures is { (nodes : Nodes) → slice_get (names_in nodes params.now locals.now) i ≡ Some (bytes_at nodes.names result.0) }
{
    if i < params.len() {
        params[i].name
    } else {
        locals[i - params.len()].name
    }
}

/// The code after what touches the names of these parameters and locals that nothing in it reads.
fn touch_all(
    u: &mut Unit,
    read: &ReadNames,
    code: CStmtId,
    params: &[CParam],
    locals: &[CLocal],
) -> Result<CStmtId, NoMemory>
    requires read { CodeReads (code_of u.old code.0) u.old.names read.now }
    requires code { code.0 < length u.old.stmts }
    requires params { HasParams u.old params.now }
    requires locals { HasLocals u.old locals.now }
    ensures grows { Grows u.old u.new }
    ensures made { IfOk result (λ it. HasCode u.new it.0 (touched_code (names_in u.old params.now locals.now) (code_of u.old code.0) (code_of u.old code.0))) }
{
    let mut left = params.len() + locals.len();
    let mut front = code;
    while left > 0 {
        left -= 1;
        front = touch(u, read, name_at(params, locals, left), front)?;
    }
    Ok(front)
}

/// The locals of a body, and its code after what touches the names that nothing reads.
fn touched(
    b: &Body,
    u: &mut Unit,
    params: &[CParam],
    code: CStmtId,
    read: &mut ReadNames,
    names: &OwnNames,
) -> Result<(CList<CLocal>, CStmtId), NoMemory>
    requires names { HasOwnNames u.old names.now }
    requires params { HasParams u.old params.now }
    requires code { code.0 < length u.old.stmts }
    ensures grows { Grows u.old u.new }
    ensures locals { IfOk result (λ it. HasLocalTrees u.new it.0 (locals_of_all (form_in b.now) ++ read_locals (form_in b.now) (code_of u.old code.0))) }
    ensures code { IfOk result (λ it. HasCode u.new it.1.0 (touched_code (param_names (map (param_tree u.old.names) params.now) ++ local_names (locals_of_all (form_in b.now))) (code_of u.old code.0) (code_of u.old code.0))) }
{
    let mut locals = fixed_locals(b, u)?;
    read.read_code(u, code)?;
    let whole = touch_all(u, read, code, params, locals.as_slice())?;
    add_further(b, u, read, names, &mut locals)?;
    Ok((locals, whole))
}

/// The name of the function.
fn name_of_body(b: &Body, u: &mut Unit) -> Result<CNameId, NoMemory>
    ensures grows { Grows u.old u.new }
    ensures made { IfOk result (λ n. HasNamed u.new n.0 (named_body (form_in b.now).within (form_in b.now).method)) }
{
    b.is_sound();
    body_name(b.typed(), u, b.method())
}

/// Its parameters.
fn params_of_body(b: &Body, u: &mut Unit) -> Result<CList<CParam>, NoMemory>
    ensures grows { Grows u.old u.new }
    ensures made { IfOk result (λ list. HasParamTrees u.new list (params_for (form_in b.now).within (form_in b.now).method)) }
{
    b.is_sound();
    params_of(b.alloc(), b.typed(), u, b.method())
}

/// The type of what it answers.
fn result_of_body(b: &Body) -> Option<CType>
    ensures { IsResult result (result_for (form_in b.now).method) }
{
    result_of(b.method())
}

/// The function that is the body of a method. `Err` where memory was refused.
pub(crate) fn body_function(
    b: &Body,
    u: &mut Unit,
    body: &Block,
    read: &mut ReadNames,
    names: &OwnNames,
) -> Result<CItem, NoMemory>
    requires body { IsBodyOf b.now body.now }
    requires names { HasOwnNames u.old names.now }
    ensures grows { Grows u.old u.new }
    ensures made { IfOk result (λ item. HasItemTree u.new item (body_item (form_in b.now))) }
{
    let own = body_code(b, u, body)?;
    let params = params_of_body(b, u)?;
    let (locals, code) = touched(b, u, params.as_slice(), own, read, names)?;
    let name = name_of_body(b, u)?;
    Ok(CItem::Function {
        linkage: Linkage::Static,
        result: result_of_body(b),
        name,
        params,
        locals,
        body: code,
    })
}
