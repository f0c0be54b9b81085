// An init clears the struct with all that is in it, and makes it and the structs inside it ready.

ghost use Rattle.std.specs.Prelude.{◌≡◌, ◌<◌, ◌++◌, ◌∷◌, [], true, codes, length, map, None, Some, IfOk};
ghost use Rattle.std.specs.List.{list_all};
ghost use Rattle.wf_ast.specs.TypedInvariant.{IsTyped};
ghost use Rattle.wf_ast.specs.TypedPackage.{package_of, variable_of};
ghost use Rattle.wf_ast.specs.WellTyped.{may_be_field};
ghost use Rattle.wf_meaning.specs.Entry.{bad_receiver};
ghost use Rattle.c_text.specs.CNodes.{code_of};
ghost use Rattle.c_text.specs.CSpelling.{is_word_byte};
ghost use Rattle.c_text.specs.CTree.{unary, expr_arg, sizeof_arg, no_arg};
ghost use Rattle.c_text.specs.CTree as c;
ghost use Rattle.c_text.specs.declared.kinds.CUnary.TheVariants.{Address, Not};
ghost use Rattle.wf_exprs.specs.Exprs.{status_constant as constant_code};
ghost use Rattle.wf_exprs.specs.Grown.{Grows, HasCode, HasExpr};
ghost use Rattle.wf_exprs.specs.Names.{initialize_name as name_of_initialize};
ghost use Rattle.wf_exprs.specs.Scopes.{is_named};
ghost use Rattle.wf_exprs.specs.Words.{args as args_of, num, of_self as of_self_tree, self};
ghost use Rattle.wf_lower_stmts.specs.BodyNodes.{HasWords};
ghost use Rattle.wf_lower_stmts.specs.Forms.{when as when_code};
ghost use Rattle.wf_lower.specs.Made.{HasArgTrees, HasFunctionTree, HasParamTrees, ready_code, receiver_param};
ghost use Rattle.wf_lower.specs.Unit.{initialize_code as initialize_code_of, initialize_function as initialize_function_of, initialize_part as initialize_part_of, initialize_parts as initialize_parts_of};

use crate::declaring::self_param;
use crate::shared::BAD_RECEIVER;
use c_text::{CArg, CCall, CExprId, CItem, CList, CParam, CStmtId, CType, Linkage, Unit};
use std::alloc::Global;
use wf_ast::{StructId, Ty, Typed, Var};
use wf_exprs::names::{put_name, put_spelt};
use wf_exprs::nodes::{address, member_of_self, negated, number, of_self, variable};
use wf_exprs_nodes::statuses::status_constant;
use wf_lower_stmts::code::{assign, call, finish, leave, when};
use wf_lower_stmts::spelling::initialize_name;
use wf_text::NoMemory;

/// The address of a field of the receiver.
fn part_address(u: &mut Unit, field: &[u8]) -> Result<CExprId, NoMemory>
    requires { list_all is_word_byte field.now ≡ true }
    ensures grows { Grows u.old u.new }
    ensures made { IfOk result (λ it. HasExpr u.new it.0 (unary Address (of_self_tree (codes "f_" ++ field.now)))) }
{
    let field = put_spelt(u, b"f_", field)?;
    let part = member_of_self(u, field)?;
    address(u, part)
}

/// The struct in a field is made ready.
fn initialize_part(
    alloc: Global,
    t: &Typed,
    u: &mut Unit,
    field: &[u8],
    s: StructId,
    rest: CStmtId,
) -> Result<CStmtId, NoMemory>
    requires known { s.0 < length t.now.structs }
    requires words { HasWords t.now }
    requires word { list_all is_word_byte field.now ≡ true }
    requires rest { rest.0 < length u.old.stmts }
    ensures grows { Grows u.old u.new }
    ensures made { IfOk result (λ it. HasCode u.new it.0 (c.call None (name_of_initialize (package_of t.now) s.0) (args_of (unary Address (of_self_tree (codes "f_" ++ field.now)) ∷ [])) (code_of u.old rest.0))) }
{
    let part = part_address(u, field)?;
    let function = initialize_name(alloc, t, u, s)?;
    let args = CList::from_slice(alloc, &[CArg::Expr(part)])?;
    call(u, None, CCall { function, args }, rest)
}

/// The struct in a field is made ready, where the field holds one.
fn initialize_field(
    alloc: Global,
    t: &Typed,
    u: &mut Unit,
    x: Var,
    rest: CStmtId,
) -> Result<CStmtId, NoMemory>
    requires words { HasWords t.now }
    requires named { is_named t.now x ≡ true }
    requires held { may_be_field (package_of t.now) x.ty ≡ true }
    requires rest { rest.0 < length u.old.stmts }
    ensures grows { Grows u.old u.new }
    ensures made { IfOk result (λ it. HasCode u.new it.0 (initialize_part_of (package_of t.now) (variable_of t.now x) (code_of u.old rest.0))) }
{
    match x.ty {
        Ty::Part(s) => initialize_part(alloc, t, u, t.text(x.name), s, rest),
        Ty::Num { .. } | Ty::Flag | Ty::Status => Ok(rest),
        Ty::Reader | Ty::Writer | Ty::Slice(_) | Ty::Array { .. } => Ok(rest),
    }
}

/// The structs in all fields are made ready.
fn initialize_parts(
    alloc: Global,
    t: &Typed,
    u: &mut Unit,
    fields: &[Var],
    rest: CStmtId,
) -> Result<CStmtId, NoMemory>
    requires words { HasWords t.now }
    requires named { list_all (is_named t.now) fields.now ≡ true }
    requires held { list_all (λ x. may_be_field (package_of t.now) x.ty) fields.now ≡ true }
    requires rest { rest.0 < length u.old.stmts }
    ensures grows { Grows u.old u.new }
    ensures made { IfOk result (λ it. HasCode u.new it.0 (initialize_parts_of (package_of t.now) (map (variable_of t.now) fields.now) (code_of u.old rest.0))) }
{
    let mut left = fields.len();
    let mut code = rest;
    while left > 0 {
        left -= 1;
        code = initialize_field(alloc, t, u, fields[left], code)?;
    }
    Ok(code)
}

/// The arguments `self, 0, sizeof(*self)`.
#[tactic(auto, using(wf_exprs::proofs::Growing::grows_on), unfolding(c_text::specs::CSpelling::is_reserved))]
fn cleared(alloc: Global, u: &mut Unit) -> Result<CList<CArg>, NoMemory>
    ensures grows { Grows u.old u.new }
    ensures made { IfOk result (λ list. HasArgTrees u.new list (expr_arg self (expr_arg (num 0) (sizeof_arg (codes "self") no_arg)))) }
{
    let receiver = variable(u, b"self")?;
    let zero = number(u, 0)?;
    let name = put_name(u, b"self")?;
    CList::from_slice(
        alloc,
        &[CArg::Expr(receiver), CArg::Expr(zero), CArg::SizeOf(name)],
    )
}

/// `memset(self, 0, sizeof(*self));`
#[tactic(auto, using(wf_exprs::proofs::Growing::grows_on), unfolding(c_text::specs::CSpelling::is_reserved))]
fn clear(alloc: Global, u: &mut Unit, rest: CStmtId) -> Result<CStmtId, NoMemory>
    requires { rest.0 < length u.old.stmts }
    ensures grows { Grows u.old u.new }
    ensures made { IfOk result (λ it. HasCode u.new it.0 (c.call None (codes "memset") (expr_arg self (expr_arg (num 0) (sizeof_arg (codes "self") no_arg))) (code_of u.old rest.0))) }
{
    let args = cleared(alloc, u)?;
    let function = put_name(u, b"memset")?;
    call(u, None, CCall { function, args }, rest)
}

/// `self->life = 1;`
#[tactic(auto, using(wf_exprs::proofs::Growing::grows_on), unfolding(c_text::specs::CSpelling::is_reserved))]
fn make_ready(u: &mut Unit, rest: CStmtId) -> Result<CStmtId, NoMemory>
    requires { rest.0 < length u.old.stmts }
    ensures grows { Grows u.old u.new }
    ensures made { IfOk result (λ it. HasCode u.new it.0 (c.assign (of_self_tree (codes "life")) (num 1) (code_of u.old rest.0))) }
{
    let one = number(u, 1)?;
    let life = of_self(u, b"life")?;
    assign(u, life, one, rest)
}

/// `return 0;`
fn answer_ok(u: &mut Unit) -> Result<CStmtId, NoMemory>
    ensures grows { Grows u.old u.new }
    ensures made { IfOk result (λ it. HasCode u.new it.0 (c.leave (Some (num 0)) c.finish)) }
{
    let rest = finish(u)?;
    let zero = number(u, 0)?;
    leave(u, Some(zero), rest)
}

/// The answer to a null receiver.
fn answer_null(u: &mut Unit) -> Result<CStmtId, NoMemory>
    ensures grows { Grows u.old u.new }
    ensures made { IfOk result (λ it. HasCode u.new it.0 (c.leave (Some (constant_code bad_receiver)) c.finish)) }
{
    let end = finish(u)?;
    let status = status_constant(u, BAD_RECEIVER)?;
    leave(u, Some(status), end)
}

/// A null receiver is refused.
#[tactic(auto, using(wf_exprs::proofs::Growing::grows_on), unfolding(c_text::specs::CSpelling::is_reserved))]
fn when_null(u: &mut Unit, rest: CStmtId) -> Result<CStmtId, NoMemory>
    requires { rest.0 < length u.old.stmts }
    ensures grows { Grows u.old u.new }
    ensures made { IfOk result (λ it. HasCode u.new it.0 (when_code (unary Not self) (c.leave (Some (constant_code bad_receiver)) c.finish) (code_of u.old rest.0))) }
{
    let body = answer_null(u)?;
    let receiver = variable(u, b"self")?;
    let test = negated(u, receiver)?;
    when(u, test, body, rest)
}

/// The object is cleared and made ready.
fn ready(alloc: Global, u: &mut Unit, rest: CStmtId) -> Result<CStmtId, NoMemory>
    requires { rest.0 < length u.old.stmts }
    ensures grows { Grows u.old u.new }
    ensures made { IfOk result (λ it. HasCode u.new it.0 (ready_code (code_of u.old rest.0))) }
{
    let rest = make_ready(u, rest)?;
    let rest = clear(alloc, u, rest)?;
    when_null(u, rest)
}

fn initialize_code(alloc: Global, t: &Typed, u: &mut Unit, s: StructId) -> Result<CStmtId, NoMemory>
    requires typed { IsTyped t.now }
    requires words { HasWords t.now }
    requires known { s.0 < length t.now.structs }
    ensures grows { Grows u.old u.new }
    ensures made { IfOk result (λ it. HasCode u.new it.0 (initialize_code_of (package_of t.now) s.0)) }
{
    let rest = answer_ok(u)?;
    let rest = initialize_parts(alloc, t, u, t.structure(s).fields.as_slice(), rest)?;
    ready(alloc, u, rest)
}

/// The parameters of that function.
fn params(alloc: Global, t: &Typed, u: &mut Unit, s: StructId) -> Result<CList<CParam>, NoMemory>
    requires known { s.0 < length t.now.structs }
    requires words { HasWords t.now }
    ensures grows { Grows u.old u.new }
    ensures made { IfOk result (λ list. HasParamTrees u.new list (receiver_param (package_of t.now) s.0 ∷ [])) }
{
    let receiver = self_param(t, u, s)?;
    CList::from_slice(alloc, &[receiver])
}

/// The function that makes an object of a struct ready.
pub(crate) fn initialize_function(
    alloc: Global,
    t: &Typed,
    u: &mut Unit,
    s: StructId,
) -> Result<CItem, NoMemory>
    requires typed { IsTyped t.now }
    requires words { HasWords t.now }
    requires known { s.0 < length t.now.structs }
    ensures grows { Grows u.old u.new }
    ensures made { IfOk result (λ it. HasFunctionTree u.new it (initialize_function_of (package_of t.now) s.0)) }
{
    let body = initialize_code(alloc, t, u, s)?;
    let params = params(alloc, t, u, s)?;
    let name = initialize_name(alloc, t, u, s)?;
    Ok(CItem::Function {
        linkage: Linkage::External,
        result: Some(CType::Text),
        name,
        params,
        locals: CList::new(alloc),
        body,
    })
}
