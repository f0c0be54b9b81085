// Statements without blocks of their own.

ghost use Rattle.std.specs.Prelude.{◌≡◌, ◌<◌, ◌^◌, true, length, Some, IsTrue, IfOk};
ghost use Rattle.wf_text.specs.declared.place.Place.{Place};
ghost use Rattle.wf_base.specs.BaseTable.{row_of};
ghost use Rattle.wf_ast.specs.TypedInvariant.{callee_exists, has_kind, is_expr};
ghost use Rattle.wf_ast.specs.TypedTree.{Simple, Target as TargetTree, await, invoke, yield};
ghost use Rattle.wf_ast.specs.TypedTrees.{base_call as base_call_tree, call_made as call_made_tree, mark_of, tree_of, type_of_node};
ghost use Rattle.wf_ast.specs.WellTyped.{number_of};
ghost use Rattle.wf_meaning.specs.Remaining.{hands_on as hands_on_tree};
ghost use Rattle.c_text.specs.CNodes.{code_of};
ghost use Rattle.c_text.specs.CTree as c;
ghost use Rattle.wf_exprs.specs.Grown.{Grows, HasCode};
ghost use Rattle.wf_exprs.specs.Names.{again_label as again_name, behind_label as behind_name};
ghost use Rattle.wf_lower_stmts.specs.BodyNodes.{AreAlike, form_in, is_target, point_at, target_in};
ghost use Rattle.wf_lower_stmts.specs.Forms.{resume_here as resumed_here};
ghost use Rattle.wf_lower_stmts.specs.Statements.{handed_call as handed_code, lower_point as lower_point_code, lower_simple as lower_simple_code};
ghost use Rattle.wf_lower_blocks.specs.Calls.{ComesTo, are_given, awaited_in, called_in, callee_in, comes_fits, given_in, is_awaited, is_called, simple_at};

use crate::awaiting::{Awaited, Awaiting, awoken_call, begun_call};
use crate::calling::{Called, Invoked, handed_call, plain_call};
use crate::performing::{Written, lower_written};
use crate::returning::give_value;
use c_text::{CStmtId, Unit};
use wf_ast::{Callee, ExprId, Stmt, StmtId, io_arg};
use wf_base::{BaseSig, Mark};
use wf_exprs_nodes::statuses::status_constant;
use wf_lower_stmts::Body;
use wf_lower_stmts::code::{jump, resume_here};
use wf_lower_stmts::keeping::suspend;
use wf_lower_stmts::spelling::{again_label, behind_label};
use wf_lower_stmts::targets::{Target, set_value, target_of};
use wf_text::{NoMemory, StatusId};

/// What a call comes to.
#[derive(Clone, Copy)]
enum Comes<'a> {
    /// A base call that may suspend.
    Await(Awaiting),
    /// A base call that writes.
    Perform { target: Target, call: Written },
    /// A call of a method that suspends its caller.
    HandOn(Invoked<'a>),
    /// A call of a method that doesn't.
    Invoke { target: Target, what: Invoked<'a> },
    /// Nothing: no typed package has such a call.
    Nothing,
}

/// A base call by its arguments.
fn base_call<'a>(
    b: &Body,
    target: Target,
    on: ExprId,
    sig: BaseSig,
    args: &'a [ExprId],
) -> Comes<'a>
    requires target { is_target b.now.nodes target ≡ true }
    requires on { IsTrue (is_expr b.now.nodes on) }
    requires kind { IsTrue (has_kind (row_of sig).on (type_of_node b.now.nodes on.0)) }
    requires args { IsTrue (are_given b.now.nodes args.now) }
    ensures comes { (at : Place) (t : TargetTree) → AreAlike t (target_in b.now.nodes target) → ComesTo b.now.nodes result (base_call_tree at t (tree_of b.now.nodes on) sig (given_in b.now.nodes args.now)) }
    ensures fits { comes_fits b.now.nodes result ≡ true }
{
    match args {
        [] => match sig {
            BaseSig::Read(form) => Comes::Await(Awaiting {
                target,
                a: io_arg(b.typed(), on).0,
                call: Awaited::Read(form),
            }),
            _ => Comes::Nothing,
        },
        [x] => match sig {
            BaseSig::Skip => Comes::Await(Awaiting {
                target,
                a: io_arg(b.typed(), on).0,
                call: Awaited::Skip(*x),
            }),
            BaseSig::Write => Comes::Await(Awaiting {
                target,
                a: io_arg(b.typed(), on).0,
                call: Awaited::Write(*x),
            }),
            BaseSig::WriteFast => Comes::Perform {
                target,
                call: Written::WriteFast {
                    a: io_arg(b.typed(), on).0,
                    byte: *x,
                },
            },
            BaseSig::WriterCopy => Comes::Perform {
                target,
                call: Written::CopyToWriter {
                    a: io_arg(b.typed(), on).0,
                    source: *x,
                },
            },
            BaseSig::SliceCopy(_) => Comes::Perform {
                target,
                call: Written::CopyToSlice { to: on, source: *x },
            },
            _ => Comes::Nothing,
        },
        [x, y] => match sig {
            BaseSig::SkipFast => Comes::Perform {
                target,
                call: Written::SkipFast {
                    a: io_arg(b.typed(), on).0,
                    actual: *x,
                    worst: *y,
                },
            },
            _ => Comes::Nothing,
        },
        _ => Comes::Nothing,
    }
}

/// Whether a call suspends its caller.
fn hands_on(b: &Body, keep: bool, called: Called) -> bool
    requires called { IsTrue (is_called b.now.nodes called) }
    ensures { result ≡ hands_on_tree keep (mark_of b.now.nodes (number_of (called_in called))) }
{
    !keep && matches!(b.typed().method(called.method()).mark, Mark::Coroutine)
}

/// A call of a method.
fn method_call<'a>(
    b: &Body,
    target: Target,
    keep: bool,
    called: Called,
    args: &'a [ExprId],
) -> Comes<'a>
    requires target { is_target b.now.nodes target ≡ true }
    requires called { IsTrue (is_called b.now.nodes called) }
    requires args { IsTrue (are_given b.now.nodes args.now) }
    ensures comes { (at : Place) (t : TargetTree) → AreAlike t (target_in b.now.nodes target) → ComesTo b.now.nodes result (invoke at t keep (mark_of b.now.nodes (number_of (called_in called))) (called_in called) (given_in b.now.nodes args.now)) }
    ensures fits { comes_fits b.now.nodes result ≡ true }
{
    let what = Invoked { called, args };
    if hands_on(b, keep, called) {
        Comes::HandOn(what)
    } else {
        Comes::Invoke { target, what }
    }
}

fn call_made<'a>(
    b: &Body,
    target: Target,
    keep: bool,
    callee: Callee,
    args: &'a [ExprId],
) -> Comes<'a>
    requires target { is_target b.now.nodes target ≡ true }
    requires callee { IsTrue (callee_exists b.now.nodes callee) }
    requires args { IsTrue (are_given b.now.nodes args.now) }
    ensures comes { (at : Place) (t : TargetTree) → AreAlike t (target_in b.now.nodes target) → ComesTo b.now.nodes result (call_made_tree b.now.nodes (tree_of b.now.nodes) at t keep callee (given_in b.now.nodes args.now)) }
    ensures fits { comes_fits b.now.nodes result ≡ true }
{
    match callee {
        Callee::Own(method) => method_call(b, target, keep, Called::Own(method), args),
        Callee::Sub { field, method } => {
            method_call(b, target, keep, Called::Sub { field, method }, args)
        }
        Callee::Base { on, sig } => base_call(b, target, on, sig, args),
    }
}

/// A base call that may suspend: what begins it, its label, and what goes on.
fn lower_awaited(
    b: &Body,
    u: &mut Unit,
    k: u32,
    it: Awaiting,
    rest: CStmtId,
) -> Result<CStmtId, NoMemory>
    requires number { k < 2 ^ 31 }
    requires target { is_target b.now.nodes it.target ≡ true }
    requires call { IsTrue (is_awaited b.now.nodes it.call) }
    requires rest { rest.0 < length u.old.stmts }
    ensures grows { Grows u.old u.new }
    ensures made { IfOk result (λ code. (at : Place) → HasCode u.new code.0 (lower_point_code (form_in b.now) k (await at (target_in b.now.nodes it.target) it.a (awaited_in b.now.nodes it.call)) (code_of u.old rest.0))) }
{
    let rest = awoken_call(b, u, k, it, rest)?;
    let rest = resume_here(u, k, rest)?;
    begun_call(b, u, it.a, it.call, rest)
}

/// A call that suspends its caller: its label, and the call.
fn lower_handed(
    b: &Body,
    u: &mut Unit,
    k: u32,
    what: Invoked,
    rest: CStmtId,
) -> Result<CStmtId, NoMemory>
    requires number { k < 2 ^ 31 }
    requires called { IsTrue (is_called b.now.nodes what.called) }
    requires args { IsTrue (are_given b.now.nodes what.args.now) }
    requires rest { rest.0 < length u.old.stmts }
    ensures grows { Grows u.old u.new }
    ensures made { IfOk result (λ code. HasCode u.new code.0 (resumed_here k (handed_code (form_in b.now) k (called_in what.entry.called) (Some (callee_in b.now.nodes what.entry.called)) (given_in b.now.nodes what.entry.args.now) (code_of u.old rest.0)))) }
{
    let rest = handed_call(b, u, k, what, rest)?;
    resume_here(u, k, rest)
}

/// A call of any kind.
fn lower_call(
    b: &Body,
    u: &mut Unit,
    s: StmtId,
    made: Comes,
    rest: CStmtId,
) -> Result<CStmtId, NoMemory>
    requires fits { comes_fits b.now.nodes made ≡ true }
    requires rest { rest.0 < length u.old.stmts }
    ensures grows { Grows u.old u.new }
    ensures made { IfOk result (λ code. (x : Simple) → ComesTo b.now.nodes made.entry x → HasCode u.new code.0 (lower_simple_code (form_in b.now) (point_at b.now.numbers s.0) x (code_of u.old rest.0))) }
{
    let _typed = b.typed();
    match made {
        Comes::Await(it) => lower_awaited(b, u, b.number(s), it, rest),
        Comes::Perform { target, call } => lower_written(b, u, target, call, rest),
        Comes::HandOn(what) => lower_handed(b, u, b.number(s), what, rest),
        Comes::Invoke { target, what } => plain_call(b, u, target, what, rest),
        Comes::Nothing => Ok(rest),
    }
}

/// The coroutine suspends with a status, and goes on after it.
fn lower_yield(
    b: &Body,
    u: &mut Unit,
    s: StmtId,
    status: StatusId,
    rest: CStmtId,
) -> Result<CStmtId, NoMemory>
    requires rest { rest.0 < length u.old.stmts }
    ensures grows { Grows u.old u.new }
    ensures made { IfOk result (λ code. HasCode u.new code.0 (lower_simple_code (form_in b.now) (point_at b.now.numbers s.0) (yield status.0) (code_of u.old rest.0))) }
{
    let k = b.number(s);
    let rest = resume_here(u, k, rest)?;
    let status = status_constant(u, status.0)?;
    suspend(b, u, k, status, rest)
}

/// `goto behind_N;`
fn lower_break(u: &mut Unit, w: StmtId, rest: CStmtId) -> Result<CStmtId, NoMemory>
    requires rest { rest.0 < length u.old.stmts }
    ensures grows { Grows u.old u.new }
    ensures made { IfOk result (λ code. HasCode u.new code.0 (c.jump (behind_name w.0) (code_of u.old rest.0))) }
{
    let label = behind_label(u, w.0)?;
    jump(u, label, rest)
}

/// `goto again_N;`
fn lower_continue(u: &mut Unit, w: StmtId, rest: CStmtId) -> Result<CStmtId, NoMemory>
    requires rest { rest.0 < length u.old.stmts }
    ensures grows { Grows u.old u.new }
    ensures made { IfOk result (λ code. HasCode u.new code.0 (c.jump (again_name w.0) (code_of u.old rest.0))) }
{
    let label = again_label(u, w.0)?;
    jump(u, label, rest)
}

/// A statement without blocks of its own. An assertion was checked, and leaves nothing.
pub(crate) fn lower_simple(
    b: &Body,
    u: &mut Unit,
    s: StmtId,
    rest: CStmtId,
) -> Result<CStmtId, NoMemory>
    requires known { s.0 < length b.now.nodes.stmts }
    requires rest { rest.0 < length u.old.stmts }
    ensures grows { Grows u.old u.new }
    ensures made { IfOk result (λ code. HasCode u.new code.0 (lower_simple_code (form_in b.now) (point_at b.now.numbers s.0) (simple_at b.now.nodes s.0) (code_of u.old rest.0))) }
{
    match b.typed().stmt(s) {
        Stmt::Assign {
            target,
            op: _,
            value,
        } => set_value(b, u, *target, *value, rest),
        Stmt::Call {
            target,
            keep,
            callee,
            args,
        } => {
            let made = call_made(b, target_of(b, *target), *keep, *callee, args.as_slice());
            lower_call(b, u, s, made, rest)
        }
        Stmt::Break(w) => lower_break(u, *w, rest),
        Stmt::Continue(w) => lower_continue(u, *w, rest),
        Stmt::Return(value) => give_value(b, u, *value, rest),
        Stmt::Yield(status) => lower_yield(b, u, s, *status, rest),
        Stmt::Assert { .. } | Stmt::If { .. } | Stmt::While { .. } => Ok(rest),
    }
}
