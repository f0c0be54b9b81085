// Calls of methods. An own method's body is called as it is, one through a field by its entry.

ghost use Rattle.std.specs.Prelude.{◌≡◌, ◌<◌, ◌++◌, ◌∷◌, [], List, true, false, length, None, Some, if◌then◌else◌, IsTrue, IfOk, IfSome, OnOk};
ghost use Rattle.wf_ast.specs.declared.typed_nodes.TypedNodes.{TypedNodes};
ghost use Rattle.wf_ast.specs.TypedInvariant.{is_expr, is_io};
ghost use Rattle.wf_ast.specs.TypedTrees.{io_in, tree_of, type_of_node};
ghost use Rattle.wf_ast.specs.WellTyped.{number_of};
ghost use Rattle.wf_ast.specs.NodeKinds.{is_slice_at, node_slice};
ghost use Rattle.c_text.specs.CFits.{HasTarget};
ghost use Rattle.c_text.specs.CGrammar.{IsName, is_literal};
ghost use Rattle.c_text.specs.declared.kinds.COp.TheVariants.{Eq};
ghost use Rattle.c_text.specs.CNodes.{code_of, expr_of, value_in};
ghost use Rattle.c_text.specs.CTree.{ExprTree, finish as finish_code};
ghost use Rattle.c_text.specs.CTree as c;
ghost use Rattle.wf_exprs.specs.Exprs.{io_code, lowered_slice};
ghost use Rattle.wf_exprs.specs.Grown.{Grows, HasCode, HasExpr, HasNamed};
ghost use Rattle.wf_exprs.specs.Making.{HasPair};
ghost use Rattle.wf_exprs.specs.Words.{num, two as two_codes};
ghost use Rattle.wf_exprs_nodes.specs.Trees.{is_single, lowered_value};
ghost use Rattle.wf_lower_stmts.specs.BodyNodes.{form_in, is_target, target_in};
ghost use Rattle.wf_lower_stmts.specs.Forms.{give as give_code, status_local, suspend as suspend_code, when as when_code};
ghost use Rattle.wf_lower_stmts.specs.Statements.{answer_local, call_into as call_into_code, callee_name as callee_name_of, hand_on as hand_on_code, handed_call as handed_code, is_wanted as is_wanted_target, lower_call as lower_call_code, put_result as put_result_code, receiver_code, value_codes, values_codes};
ghost use Rattle.wf_lower_blocks.specs.Calls.{HasGiven, HasValue, are_given, call_with as call_with_code, called_in, callee_in, given_in, is_called, taken_by};

use c_text::{CArg, CCall, CExprId, CList, CNameId, COp, CStmtId, Unit};
use wf_ast::{ExprId, FieldId, Method, Ty, io_arg};
use wf_base::Mark;
use wf_exprs::Pair;
use wf_exprs::nodes::{address, element, number, two, variable};
use wf_exprs_nodes::{lower_expr, lower_slice};
use wf_lower_stmts::Body;
use wf_lower_stmts::code::{call, finish, when};
use wf_lower_stmts::keeping::{give_at_end, suspend};
use wf_lower_stmts::places::{Picked, get_places, put_places};
use wf_lower_stmts::spelling::{body_name, entry_name};
use wf_lower_stmts::targets::{Target, is_wanted, put_into};
use wf_text::{MethodId, NoMemory};

/// A method that is called: of the receiver itself, or of what stands in one of its fields.
#[derive(Clone, Copy)]
pub(crate) enum Called {
    Own(MethodId),
    Sub { field: FieldId, method: MethodId },
}

impl Called {
    /// The number of the method.
    pub(crate) fn method(self) -> MethodId
        ensures { result.0 ≡ number_of (called_in self) }
    {
        match self {
            Called::Own(method) => method,
            Called::Sub { field: _, method } => method,
        }
    }
}

/// What a call is of, with what it is passed.
#[derive(Clone, Copy)]
pub(crate) struct Invoked<'a> {
    pub called: Called,
    pub args: &'a [ExprId],
}

/// What takes the answer of a call at first.
#[derive(Clone, Copy)]
enum Taker {
    Status,
    Got,
    Nothing,
}

/// The local that takes what a call of a method gives.
fn taker_of(callee: &Method) -> Taker
    ensures { taken_by result ≡ answer_local callee.now.mark callee.now.gives }
{
    match callee.mark {
        Mark::Coroutine => Taker::Status,
        Mark::Pure | Mark::Impure => match callee.gives {
            None => Taker::Nothing,
            Some(Ty::Status) => Taker::Status,
            Some(Ty::Num { .. } | Ty::Flag | Ty::Slice(_) | Ty::Array { .. }) => Taker::Got,
            Some(Ty::Reader | Ty::Writer | Ty::Part(_)) => Taker::Got,
        },
    }
}

/// A variable that takes an answer.
fn some_variable(u: &mut Unit, name: &[u8]) -> Result<Option<CExprId>, NoMemory>
    requires { IsName name.now }
    ensures grows { Grows u.old u.new }
    ensures made { IfOk result (λ e. HasValue u.new e (Some (c.variable name.now))) }
{
    let local = variable(u, name)?;
    Ok(Some(local))
}

#[tactic(auto, using(wf_exprs::proofs::Growing::grows_on), unfolding(c_text::specs::CSpelling::is_reserved))]
fn local_of(u: &mut Unit, taker: Taker) -> Result<Option<CExprId>, NoMemory>
    ensures grows { Grows u.old u.new }
    ensures made { IfOk result (λ e. HasValue u.new e (taken_by taker)) }
{
    match taker {
        Taker::Status => some_variable(u, b"status"),
        Taker::Got => some_variable(u, b"got"),
        Taker::Nothing => Ok(None),
    }
}

/// The receiver of a call.
#[tactic(auto, using(wf_exprs::proofs::Growing::grows_on), unfolding(c_text::specs::CSpelling::is_reserved))]
fn receiver(b: &Body, u: &mut Unit, called: Called) -> Result<CExprId, NoMemory>
    ensures grows { Grows u.old u.new }
    ensures made { IfOk result (λ e. HasExpr u.new e.0 (receiver_code (form_in b.now).names (called_in called))) }
{
    match called {
        Called::Own(_) => variable(u, b"self"),
        Called::Sub { field, method: _ } => {
            let field = b.scope().field(u, field.0)?;
            address(u, field)
        }
    }
}

/// The name of the function that is called.
fn callee_name(b: &Body, u: &mut Unit, called: Called) -> Result<CNameId, NoMemory>
    requires called { IsTrue (is_called b.now.nodes called) }
    ensures grows { Grows u.old u.new }
    ensures made { IfOk result (λ n. HasNamed u.new n.0 (callee_name_of (form_in b.now).within (called_in called) (callee_in b.now.nodes called))) }
{
    let callee = b.typed().method(called.method());
    match called {
        Called::Own(_) => body_name(b.typed(), u, callee),
        Called::Sub { .. } => entry_name(b.alloc(), b.typed(), u, callee),
    }
}

/// A number, a truth value or a status as it is passed.
fn single_value(b: &Body, u: &mut Unit, e: ExprId) -> Result<CExprId, NoMemory>
    requires node { IsTrue (is_expr b.now.nodes e) }
    requires single { IsTrue (is_single (type_of_node b.now.nodes e.0)) }
    ensures grows { Grows u.old u.new }
    ensures made { IfOk result (λ it. HasExpr u.new it.0 (lowered_value (form_in b.now).names (tree_of b.now.nodes e))) }
{
    lower_expr(b.scope(), u, e)
}

/// A reader or a writer as it is passed.
fn buffer_value(b: &Body, u: &mut Unit, e: ExprId) -> Result<CExprId, NoMemory>
    requires node { IsTrue (is_expr b.now.nodes e) }
    requires kind { IsTrue (is_io (type_of_node b.now.nodes e.0)) }
    ensures grows { Grows u.old u.new }
    ensures made { IfOk result (λ it. HasExpr u.new it.0 (io_code (form_in b.now).names (io_in (tree_of b.now.nodes e)))) }
{
    b.scope().arg(u, io_arg(b.typed(), e).0)
}

/// A slice as its pointer and its length.
fn slice_value(b: &Body, u: &mut Unit, e: ExprId) -> Result<Pair, NoMemory>
    requires node { IsTrue (is_slice_at b.now.nodes e) }
    ensures grows { Grows u.old u.new }
    ensures made { IfOk result (λ it. HasPair u.new it (lowered_slice (form_in b.now).names (node_slice b.now.nodes e))) }
{
    lower_slice(b.scope(), u, e)
}

fn pass_single(b: &Body, u: &mut Unit, e: ExprId, args: &mut CList<CArg>) -> Result<(), NoMemory>
    requires node { IsTrue (is_expr b.now.nodes e) }
    requires single { IsTrue (is_single (type_of_node b.now.nodes e.0)) }
    ensures grows { Grows u.old u.new }
    ensures pushed { OnOk result ((trees : List ExprTree) → HasGiven u.old args.old trees → HasGiven u.new args.new (trees ++ (lowered_value (form_in b.now).names (tree_of b.now.nodes e) ∷ []))) }
{
    let value = single_value(b, u, e)?;
    args.push(CArg::Expr(value))
}

fn pass_buffer(b: &Body, u: &mut Unit, e: ExprId, args: &mut CList<CArg>) -> Result<(), NoMemory>
    requires node { IsTrue (is_expr b.now.nodes e) }
    requires kind { IsTrue (is_io (type_of_node b.now.nodes e.0)) }
    ensures grows { Grows u.old u.new }
    ensures pushed { OnOk result ((trees : List ExprTree) → HasGiven u.old args.old trees → HasGiven u.new args.new (trees ++ (io_code (form_in b.now).names (io_in (tree_of b.now.nodes e)) ∷ []))) }
{
    let value = buffer_value(b, u, e)?;
    args.push(CArg::Expr(value))
}

/// A slice is passed as its pointer and its length.
fn pass_slice(b: &Body, u: &mut Unit, e: ExprId, args: &mut CList<CArg>) -> Result<(), NoMemory>
    requires node { IsTrue (is_slice_at b.now.nodes e) }
    ensures grows { Grows u.old u.new }
    ensures pushed { OnOk result ((trees : List ExprTree) → HasGiven u.old args.old trees → HasGiven u.new args.new (trees ++ ((lowered_slice (form_in b.now).names (node_slice b.now.nodes e)).pointer ∷ (lowered_slice (form_in b.now).names (node_slice b.now.nodes e)).length.code ∷ []))) }
{
    let it = slice_value(b, u, e)?;
    args.push(CArg::Expr(it.pointer))?;
    args.push(CArg::Expr(it.length.code))
}

/// An argument of any kind is added to those of a call.
fn pass(b: &Body, u: &mut Unit, e: ExprId, args: &mut CList<CArg>) -> Result<(), NoMemory>
    requires node { IsTrue (is_expr b.now.nodes e) }
    ensures grows { Grows u.old u.new }
    ensures pushed { OnOk result ((trees : List ExprTree) → HasGiven u.old args.old trees → HasGiven u.new args.new (trees ++ value_codes (form_in b.now).names (tree_of b.now.nodes e))) }
{
    match b.typed().type_of(e) {
        Ty::Num { .. } => pass_single(b, u, e, args),
        Ty::Flag => pass_single(b, u, e, args),
        Ty::Status => pass_single(b, u, e, args),
        Ty::Slice(_) => pass_slice(b, u, e, args),
        Ty::Array { .. } => pass_slice(b, u, e, args),
        Ty::Reader => pass_buffer(b, u, e, args),
        Ty::Writer => pass_buffer(b, u, e, args),
        Ty::Part(_) => unreachable!(),
    }
}

/// The arguments of a call, after its receiver.
fn passed(b: &Body, u: &mut Unit, what: Invoked) -> Result<CList<CArg>, NoMemory>
    requires called { IsTrue (is_called b.now.nodes what.called) }
    requires args { IsTrue (are_given b.now.nodes what.args.now) }
    ensures grows { Grows u.old u.new }
    ensures made { IfOk result (λ list. HasGiven u.new list (receiver_code (form_in b.now).names (called_in what.entry.called) ∷ values_codes (form_in b.now).names (given_in b.now.nodes what.entry.args.now))) }
{
    let receiver = receiver(b, u, what.called)?;
    let mut args = CList::new(b.alloc());
    args.push(CArg::Expr(receiver))?;
    for e in what.args {
        pass(b, u, *e, &mut args)?;
    }
    Ok(args)
}

/// The call itself.
fn call_with(
    b: &Body,
    u: &mut Unit,
    into: Option<CExprId>,
    what: Invoked,
    rest: CStmtId,
) -> Result<CStmtId, NoMemory>
    requires into { IfSome into (HasTarget u.old (length u.old.exprs)) }
    requires called { IsTrue (is_called b.now.nodes what.called) }
    requires args { IsTrue (are_given b.now.nodes what.args.now) }
    requires rest { rest.0 < length u.old.stmts }
    ensures grows { Grows u.old u.new }
    ensures made { IfOk result (λ code. HasCode u.new code.0 (call_with_code (form_in b.now) (value_in (expr_of u.old) into) (called_in what.entry.called) (callee_in b.now.nodes what.entry.called) (given_in b.now.nodes what.entry.args.now) (code_of u.old rest.0))) }
{
    let args = passed(b, u, what)?;
    let function = callee_name(b, u, what.called)?;
    call(u, into, CCall { function, args }, rest)
}

/// A call, between which the places of the buffers that it is passed go back to them, and come from there again.
fn call_into(
    b: &Body,
    u: &mut Unit,
    into: Option<CExprId>,
    what: Invoked,
    rest: CStmtId,
) -> Result<CStmtId, NoMemory>
    requires into { IfSome into (HasTarget u.old (length u.old.exprs)) }
    requires called { IsTrue (is_called b.now.nodes what.called) }
    requires args { IsTrue (are_given b.now.nodes what.args.now) }
    requires rest { rest.0 < length u.old.stmts }
    ensures grows { Grows u.old u.new }
    ensures made { IfOk result (λ code. HasCode u.new code.0 (call_into_code (form_in b.now) (value_in (expr_of u.old) into) (called_in what.entry.called) (callee_in b.now.nodes what.entry.called) (given_in b.now.nodes what.entry.args.now) (code_of u.old rest.0))) }
{
    let rest = get_places(b, Picked::Passed(what.args), u, rest)?;
    let rest = call_with(b, u, into, what, rest)?;
    put_places(b, Picked::Passed(what.args), u, rest)
}

/// Whether the status is a suspension: it begins with `$`.
fn is_suspended(b: &Body, u: &mut Unit, status: CExprId) -> Result<CExprId, NoMemory>
    requires status { (status.0 < length u.old.exprs) × (is_literal (expr_of u.old status.0) ≡ false) }
    ensures grows { Grows u.old u.new }
    ensures made { IfOk result (λ e. HasExpr u.new e.0 (two_codes Eq (num 36) (c.element (expr_of u.old status.0) (num 0)))) }
{
    let dollar = number(u, 36)?;
    let zero = number(u, 0)?;
    let first = element(u, status, zero)?;
    two(b.alloc(), u, COp::Eq, dollar, first)
}

/// The caller suspends, and nothing follows.
fn suspend_at_end(b: &Body, u: &mut Unit, k: u32, status: CExprId) -> Result<CStmtId, NoMemory>
    requires status { status.0 < length u.old.exprs }
    ensures grows { Grows u.old u.new }
    ensures made { IfOk result (λ code. HasCode u.new code.0 (suspend_code (form_in b.now) k (expr_of u.old status.0) finish_code)) }
{
    let end = finish(u)?;
    suspend(b, u, k, status, end)
}

/// A suspension suspends the caller, and every other status but ok is returned.
fn end_with(b: &Body, u: &mut Unit, k: u32, status: CExprId) -> Result<CStmtId, NoMemory>
    requires status { expr_of u.old status.0 ≡ status_local }
    requires there { status.0 < length u.old.exprs }
    ensures grows { Grows u.old u.new }
    ensures made { IfOk result (λ code. HasCode u.new code.0 (when_code (two_codes Eq (num 36) (c.element status_local (num 0))) (suspend_code (form_in b.now) k status_local finish_code) (give_code (form_in b.now) (Some status_local) finish_code))) }
{
    let body = suspend_at_end(b, u, k, status)?;
    let rest = give_at_end(b, u, Some(status))?;
    let test = is_suspended(b, u, status)?;
    when(u, test, body, rest)
}

/// Any status but ok ends the caller's call too.
#[tactic(auto, using(wf_exprs::proofs::Growing::grows_on), unfolding(c_text::specs::CSpelling::is_reserved))]
fn hand_on(b: &Body, u: &mut Unit, k: u32, rest: CStmtId) -> Result<CStmtId, NoMemory>
    requires rest { rest.0 < length u.old.stmts }
    ensures grows { Grows u.old u.new }
    ensures made { IfOk result (λ code. HasCode u.new code.0 (hand_on_code (form_in b.now) k (code_of u.old rest.0))) }
{
    let status = variable(u, b"status")?;
    let body = end_with(b, u, k, status)?;
    when(u, status, body, rest)
}

/// A call that suspends its caller.
#[tactic(auto, using(wf_exprs::proofs::Growing::grows_on), unfolding(c_text::specs::CSpelling::is_reserved))]
pub(crate) fn handed_call(
    b: &Body,
    u: &mut Unit,
    k: u32,
    what: Invoked,
    rest: CStmtId,
) -> Result<CStmtId, NoMemory>
    requires called { IsTrue (is_called b.now.nodes what.called) }
    requires args { IsTrue (are_given b.now.nodes what.args.now) }
    requires rest { rest.0 < length u.old.stmts }
    ensures grows { Grows u.old u.new }
    ensures made { IfOk result (λ code. HasCode u.new code.0 (handed_code (form_in b.now) k (called_in what.entry.called) (Some (callee_in b.now.nodes what.entry.called)) (given_in b.now.nodes what.entry.args.now) (code_of u.old rest.0))) }
{
    let rest = hand_on(b, u, k, rest)?;
    let status = variable(u, b"status")?;
    call_into(b, u, Some(status), what, rest)
}

/// What a call gives goes to the target.
fn put_result(
    b: &Body,
    u: &mut Unit,
    target: Target,
    answer: Option<CExprId>,
    rest: CStmtId,
) -> Result<CStmtId, NoMemory>
    requires target { is_target b.now.nodes target ≡ true }
    requires answer { IfSome answer (λ e. e.0 < length u.old.exprs) }
    requires rest { rest.0 < length u.old.stmts }
    ensures grows { Grows u.old u.new }
    ensures made { IfOk result (λ code. HasCode u.new code.0 (put_result_code (form_in b.now).names (target_in b.now.nodes target) (value_in (expr_of u.old) answer) (code_of u.old rest.0))) }
{
    match answer {
        Some(answer) => put_into(b, u, target, answer, rest),
        None => Ok(rest),
    }
}

/// The answer, where it is wanted.
fn kept_answer(target: Target, answer: Option<CExprId>) -> Option<CExprId>
    ensures { (nodes : TypedNodes) → result ≡ (if is_wanted_target (target_in nodes target) then answer else None) }
{
    if is_wanted(target) { answer } else { None }
}

/// A call that doesn't suspend its caller.
pub(crate) fn plain_call(
    b: &Body,
    u: &mut Unit,
    target: Target,
    what: Invoked,
    rest: CStmtId,
) -> Result<CStmtId, NoMemory>
    requires target { is_target b.now.nodes target ≡ true }
    requires called { IsTrue (is_called b.now.nodes what.called) }
    requires args { IsTrue (are_given b.now.nodes what.args.now) }
    requires rest { rest.0 < length u.old.stmts }
    ensures grows { Grows u.old u.new }
    ensures made { IfOk result (λ code. HasCode u.new code.0 (lower_call_code (form_in b.now) (target_in b.now.nodes target) (called_in what.entry.called) (callee_in b.now.nodes what.entry.called) (given_in b.now.nodes what.entry.args.now) (code_of u.old rest.0))) }
{
    let taker = taker_of(b.typed().method(what.called.method()));
    let answer = local_of(u, taker)?;
    let rest = put_result(b, u, target, answer, rest)?;
    call_into(b, u, kept_answer(target, answer), what, rest)
}
