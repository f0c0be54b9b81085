// The entry of a public method: the rows of the entry table in order, and after them the body. `life` is 0 for raw, 1 for
// ready, 2 for disabled, and `active` is 0 where no coroutine is active, else one more than its method's number.

ghost use Rattle.std.specs.Prelude.{◌≡◌, ◌<◌, ◌^◌, ◌-◌, ◌+◌, ◌++◌, ◌∷◌, [], true, length, map, slice_get, Some, codes, OnOk, IfOk, IfSome, if◌then◌else◌, nat_lt};
ghost use Rattle.std.specs.List.{list_all};
ghost use Rattle.wf_base.specs.BaseTable.{bits_of};
ghost use Rattle.wf_ast.specs.TypedPackage.{package_of, variable_of};
ghost use Rattle.wf_ast.specs.TypedTrees.{text_of};
ghost use Rattle.wf_ast.specs.WellTyped.{is_coroutine as is_marked_coroutine, is_pure as is_marked_pure};
ghost use Rattle.wf_bufs.specs.SurfaceViews.{answer_kind_of};
ghost use Rattle.c_text.specs.CFits.{HasExprs, HasParams, HasType};
ghost use Rattle.c_text.specs.CGrammar.{IsName};
ghost use Rattle.c_text.specs.CNodes.{bytes_at, code_of, expr_of, param_tree, type_in, value_in};
ghost use Rattle.c_text.specs.CSpelling.{is_word_byte};
ghost use Rattle.c_text.specs.CTree as c;
ghost use Rattle.c_text.specs.CTree.{assign as assign_code, finish as finish_code, unary};
ghost use Rattle.c_text.specs.declared.kinds.COp.TheVariants.{Both, Eq, Gt, Lt, Ne};
ghost use Rattle.c_text.specs.declared.kinds.CUnary.TheVariants.{Not};
ghost use Rattle.wf_exprs.specs.Grown.{Grows, HasCode, HasExpr, HasNamed};
ghost use Rattle.wf_exprs.specs.Names.{body_name as named_body, entry_name as named_entry};
ghost use Rattle.wf_exprs.specs.Scopes.{are_named, is_named};
ghost use Rattle.wf_exprs.specs.Words.{num, self, two as two_codes};
ghost use Rattle.wf_lower_stmts.specs.BodyNodes.{HasWords, is_spelt_method};
ghost use Rattle.wf_lower_stmts.specs.Forms.{when as when_code};
ghost use Rattle.wf_lower_blocks.specs.Calls.{HasGiven, HasValue};
ghost use Rattle.wf_lower.specs.Bodies.{active as active_code, answer_in as answer_code, answer_locals as locals_for_answer, answered as answered_code, declared, disable as disable_code, disable_if_marked as disable_if_marked_code, entry_function as entry_item, first_is as first_is_code, handed as handed_codes, life as life_code, params_of as params_for, refuse as refuse_code, result_of as result_for, settle as settle_code, settle_if_coroutine as settle_if_coroutine_code, table as table_code, when_any as when_any_code, when_disabled as when_disabled_code, when_other as when_other_code, when_wrong as when_wrong_code, wrong_arg as wrong_arg_codes, wrong_args as wrong_args_codes};
ghost use Rattle.wf_lower.specs.Made.{HasItemTree, HasLocalTrees, HasParamTrees, IsResult};
ghost use Rattle.wf_lower.specs.Shared.{HasEntryExprs, HasEntryParts, HasShared, settle_error as settle_error_code};
ghost use Rattle.wf_lower.specs.Methods.{AddsGiven, AddsTests, HasTests, after_body as after_body_code, answers_in, any_of, begins_apart, body_call as body_call_code, method_in, test_trees};

use crate::declaring::{params_of, result_of, zero_local};
use crate::shared::{EntryParts, Shared};
use c_text::{
    CArg, CCall, CExpr, CExprId, CItem, CList, CLocal, CNameId, COp, CParam, CStmtId, CType,
    Linkage, Unit,
};
use std::alloc::Global;
use std::marker::Model;
use wf_ast::{Method, Ty, Typed, Var};
use wf_base::{Mark, Width};
use wf_bufs::AnswerKind;
use wf_exprs::nodes::{negated, number, put, spelt_variable, two, uint_of, variable};
use wf_lower_stmts::code::{assign, call, finish, leave, when};
use wf_lower_stmts::spelling::{body_name, entry_name};
use wf_surfaces::answer_kind;
use wf_text::{MethodId, NoMemory};

/// A method whose entry is made.
#[derive(Drop)]
struct Entry<'a> {
    alloc: Global,
    t: &'a Typed,
    method: &'a Method,
    number: MethodId,
}

impl<'a> Model for Entry<'a> {
    ghost use Rattle.wf_lower.specs.Methods.{EntryTree, IsEntry};

    ghost Value = { EntryTree };

    ghost view = { λ e. record { nodes = e.t.now; method = e.method.now; number = e.number.0 } };

    ghost invariant = { λ e. IsEntry e.t.now e.method.now };
}

impl<'a> Entry<'a> {
    /// The method with this number.
    fn new(alloc: Global, t: &'a Typed, m: MethodId) -> Entry<'a>
        requires known { m.0 < length t.now.methods }
        requires words { HasWords t.now }
        ensures nodes { result.nodes ≡ t.now }
        ensures method { slice_get t.now.methods m.0 ≡ Some result.method }
        ensures number { result.number ≡ m.0 }
    {
        Entry {
            alloc,
            t,
            method: t.method(m),
            number: m,
        }
    }

    /// Where memory comes from.
    fn alloc(&self) -> Global {
        self.alloc
    }

    /// The package.
    fn typed(&self) -> &Typed
        ensures same { result.now ≡ self.now.nodes }
        ensures words { HasWords self.now.nodes }
    {
        self.t
    }

    /// The method's declaration.
    fn method(&self) -> &Method
        ensures same { result.now ≡ self.now.method }
        ensures spelt { is_spelt_method self.now.nodes self.now.method ≡ true }
    {
        self.method
    }

    /// One more than the method's number, which `active` is while the method is.
    fn active_number(&self) -> u64
        ensures { result ≡ self.now.number + 1 }
    {
        self.number.0 as u64 + 1
    }

    /// The arguments of the method, in order.
    fn args(&self) -> &[Var]
        ensures is { result.now ≡ self.now.method.args }
        ensures named { are_named self.now.nodes self.now.method.args ≡ true }
    {
        self.method.args.as_slice()
    }

    /// The source's name of an argument.
    fn name(&self, x: Var) -> &[u8]
        requires { is_named self.now.nodes x ≡ true }
        ensures is { result.now ≡ text_of self.now.nodes x.name }
        ensures word { list_all is_word_byte result.now ≡ true }
    {
        self.t.text(x.name)
    }

    /// What a caller is answered.
    fn answers(&self) -> AnswerKind
        ensures { answer_kind_of result ≡ answers_in self.now }
    {
        answer_kind(self.method.mark, self.method.gives)
    }

    fn is_coroutine(&self) -> bool
        ensures { result ≡ is_marked_coroutine self.now.method.mark }
    {
        matches!(self.method.mark, Mark::Coroutine)
    }

    fn is_pure(&self) -> bool
        ensures { result ≡ is_marked_pure self.now.method.mark }
    {
        matches!(self.method.mark, Mark::Pure)
    }
}

/// The receiver is disabled.
fn disable(parts: &EntryParts, u: &mut Unit, rest: CStmtId) -> Result<CStmtId, NoMemory>
    requires exprs { HasEntryExprs u.old parts.now.exprs }
    requires rest { rest.0 < length u.old.stmts }
    ensures grows { Grows u.old u.new }
    ensures made { IfOk result (λ code. HasCode u.new code.0 (disable_code (code_of u.old rest.0))) }
{
    assign(u, parts.exprs.life, parts.exprs.two, rest)
}

fn disable_if_marked(
    e: &Entry,
    parts: &EntryParts,
    u: &mut Unit,
    rest: CStmtId,
) -> Result<CStmtId, NoMemory>
    requires exprs { HasEntryExprs u.old parts.now.exprs }
    requires rest { rest.0 < length u.old.stmts }
    ensures grows { Grows u.old u.new }
    ensures made { IfOk result (λ code. HasCode u.new code.0 (disable_if_marked_code e.now.method.mark (code_of u.old rest.0))) }
{
    if e.is_pure() {
        Ok(rest)
    } else {
        disable(parts, u, rest)
    }
}

/// The greatest number of a width.
fn greatest(width: Width) -> u64
    ensures { result ≡ 2 ^ bits_of width - 1 }
{
    match width {
        Width::W8 => 0xff,
        Width::W16 => 0xffff,
        Width::W32 => 0xffff_ffff,
        Width::W64 => 0xffff_ffff_ffff_ffff,
    }
}

/// `(a_n op N)`
fn bounded(alloc: Global, u: &mut Unit, name: &[u8], op: COp, n: u64) -> Result<CExprId, NoMemory>
    requires { list_all is_word_byte name.now ≡ true }
    ensures grows { Grows u.old u.new }
    ensures made { IfOk result (λ it. HasExpr u.new it.0 (two_codes op (c.variable (codes "a_" ++ name.now)) (num n))) }
{
    let value = spelt_variable(u, b"a_", name)?;
    let n = number(u, n)?;
    two(alloc, u, op, value, n)
}

/// `(!a_n)`
fn missing(u: &mut Unit, name: &[u8]) -> Result<CExprId, NoMemory>
    requires { list_all is_word_byte name.now ≡ true }
    ensures grows { Grows u.old u.new }
    ensures made { IfOk result (λ it. HasExpr u.new it.0 (unary Not (c.variable (codes "a_" ++ name.now)))) }
{
    let value = spelt_variable(u, b"a_", name)?;
    negated(u, value)
}

/// One more test: a null buffer.
fn add_missing(u: &mut Unit, name: &[u8], tests: &mut CList<CExprId>) -> Result<(), NoMemory>
    requires { list_all is_word_byte name.now ≡ true }
    ensures grows { Grows u.old u.new }
    ensures made { OnOk result (AddsTests u.old u.new tests.old tests.new (unary Not (c.variable (codes "a_" ++ name.now)) ∷ [])) }
{
    let test = missing(u, name)?;
    tests.push(test)
}

/// Whether a least number is more than the width asks anyway.
fn has_least(lo: u64) -> bool
    ensures { result ≡ nat_lt 0 lo }
{
    0 < lo
}

/// Whether a greatest number is less than the width's.
fn has_greatest(width: Width, hi: u64) -> bool
    ensures { result ≡ nat_lt hi (2 ^ bits_of width - 1) }
{
    hi < greatest(width)
}

/// One more test: a number below its least.
fn add_least(
    alloc: Global,
    u: &mut Unit,
    name: &[u8],
    lo: u64,
    tests: &mut CList<CExprId>,
) -> Result<(), NoMemory>
    requires { list_all is_word_byte name.now ≡ true }
    ensures grows { Grows u.old u.new }
    ensures made { OnOk result (AddsTests u.old u.new tests.old tests.new (if nat_lt 0 lo then two_codes Lt (c.variable (codes "a_" ++ name.now)) (num lo) ∷ [] else [])) }
{
    if has_least(lo) {
        let test = bounded(alloc, u, name, COp::Lt, lo)?;
        tests.push(test)
    } else {
        Ok(())
    }
}

/// One more test: a number above its greatest.
fn add_greatest(
    alloc: Global,
    u: &mut Unit,
    name: &[u8],
    width: Width,
    hi: u64,
    tests: &mut CList<CExprId>,
) -> Result<(), NoMemory>
    requires { list_all is_word_byte name.now ≡ true }
    ensures grows { Grows u.old u.new }
    ensures made { OnOk result (AddsTests u.old u.new tests.old tests.new (if nat_lt hi (2 ^ bits_of width - 1) then two_codes Gt (c.variable (codes "a_" ++ name.now)) (num hi) ∷ [] else [])) }
{
    if has_greatest(width, hi) {
        let test = bounded(alloc, u, name, COp::Gt, hi)?;
        tests.push(test)
    } else {
        Ok(())
    }
}

/// What is wrong with an argument: a null buffer, or a number outside its refinement.
fn add_wrong(
    alloc: Global,
    u: &mut Unit,
    name: &[u8],
    ty: Ty,
    tests: &mut CList<CExprId>,
) -> Result<(), NoMemory>
    requires { list_all is_word_byte name.now ≡ true }
    ensures grows { Grows u.old u.new }
    ensures made { OnOk result (AddsTests u.old u.new tests.old tests.new (wrong_arg_codes (codes "a_" ++ name.now) ty)) }
{
    match ty {
        Ty::Num { width, lo, hi } => {
            add_least(alloc, u, name, lo, tests)?;
            add_greatest(alloc, u, name, width, hi, tests)
        }
        Ty::Reader => add_missing(u, name, tests),
        Ty::Writer => add_missing(u, name, tests),
        Ty::Flag | Ty::Status | Ty::Slice(_) | Ty::Array { .. } | Ty::Part(_) => Ok(()),
    }
}

/// The same of all arguments.
fn wrong_args(e: &Entry, u: &mut Unit) -> Result<CList<CExprId>, NoMemory>
    ensures grows { Grows u.old u.new }
    ensures made { IfOk result (λ tests. HasTests u.new tests (wrong_args_codes (map (variable_of e.now.nodes) e.now.method.args))) }
{
    let mut tests = CList::new(e.alloc());
    for x in e.args() {
        add_wrong(e.alloc(), u, e.name(*x), x.ty, &mut tests)?;
    }
    Ok(tests)
}

/// Two or more tests in one chain of `||`.
fn chain_of(
    alloc: Global,
    u: &mut Unit,
    first: CExprId,
    second: CExprId,
    others: &[CExprId],
) -> Result<CExprId, NoMemory>
    requires first { first.0 < length u.old.exprs }
    requires second { second.0 < length u.old.exprs }
    requires others { HasExprs (length u.old.exprs) others.now }
    requires apart { begins_apart (expr_of u.old first.0 ∷ []) ≡ true }
    ensures grows { Grows u.old u.new }
    ensures made { IfOk result (λ it. HasExpr u.new it.0 (any_of (expr_of u.old first.0 ∷ expr_of u.old second.0 ∷ test_trees u.old others.now))) }
{
    let others = CList::from_slice(alloc, others)?;
    put(
        u,
        CExpr::Operation {
            op: COp::Either,
            first,
            second,
            others,
        },
    )
}

/// One of these tests is met.
fn either_of(alloc: Global, u: &mut Unit, tests: &[CExprId]) -> Result<CExprId, NoMemory>
    requires tests { HasExprs (length u.old.exprs) tests.now }
    requires apart { begins_apart (test_trees u.old tests.now) ≡ true }
    ensures grows { Grows u.old u.new }
    ensures made { IfOk result (λ it. HasExpr u.new it.0 (any_of (test_trees u.old tests.now))) }
{
    match tests {
        [] => number(u, 0),
        [test] => Ok(*test),
        [first, second, others @ ..] => chain_of(alloc, u, *first, *second, others),
    }
}

/// A call with a wrong argument is refused.
fn refuse_argument(e: &Entry, parts: &EntryParts, u: &mut Unit) -> Result<CStmtId, NoMemory>
    requires { HasEntryParts u.old parts.now (answers_in e.now) }
    ensures grows { Grows u.old u.new }
    ensures made { IfOk result (λ code. HasCode u.new code.0 (disable_if_marked_code e.now.method.mark (refuse_code (method_in e.now) 5))) }
{
    disable_if_marked(e, parts, u, parts.refusals.bad_argument)
}

/// The row of these tests.
fn when_any(
    e: &Entry,
    parts: &EntryParts,
    u: &mut Unit,
    tests: &[CExprId],
    rest: CStmtId,
) -> Result<CStmtId, NoMemory>
    requires parts { HasEntryParts u.old parts.now (answers_in e.now) }
    requires tests { HasExprs (length u.old.exprs) tests.now }
    requires apart { begins_apart (test_trees u.old tests.now) ≡ true }
    requires rest { rest.0 < length u.old.stmts }
    ensures grows { Grows u.old u.new }
    ensures made { IfOk result (λ code. HasCode u.new code.0 (when_any_code (test_trees u.old tests.now) (disable_if_marked_code e.now.method.mark (refuse_code (method_in e.now) 5)) (code_of u.old rest.0))) }
{
    if tests.is_empty() {
        return Ok(rest);
    }
    let test = either_of(e.alloc(), u, tests)?;
    let body = refuse_argument(e, parts, u)?;
    when(u, test, body, rest)
}

/// The row of wrong arguments.
fn when_wrong(
    e: &Entry,
    parts: &EntryParts,
    u: &mut Unit,
    rest: CStmtId,
) -> Result<CStmtId, NoMemory>
    requires parts { HasEntryParts u.old parts.now (answers_in e.now) }
    requires rest { rest.0 < length u.old.stmts }
    ensures grows { Grows u.old u.new }
    ensures made { IfOk result (λ code. HasCode u.new code.0 (when_wrong_code (method_in e.now) (code_of u.old rest.0))) }
{
    let tests = wrong_args(e, u)?;
    when_any(e, parts, u, tests.as_slice(), rest)
}

/// A call of a disabled receiver is refused.
fn refuse_disabled(
    e: &Entry,
    parts: &EntryParts,
    u: &mut Unit,
    rest: CStmtId,
) -> Result<CStmtId, NoMemory>
    requires parts { HasEntryParts u.old parts.now (answers_in e.now) }
    requires rest { rest.0 < length u.old.stmts }
    ensures grows { Grows u.old u.new }
    ensures made { IfOk result (λ code. HasCode u.new code.0 (when_code (two_codes Eq (num 2) life_code) (refuse_code (method_in e.now) 8) (code_of u.old rest.0))) }
{
    when(u, parts.exprs.disabled, parts.refusals.was_disabled, rest)
}

/// The row of a disabled receiver.
fn when_disabled(
    e: &Entry,
    parts: &EntryParts,
    u: &mut Unit,
    rest: CStmtId,
) -> Result<CStmtId, NoMemory>
    requires parts { HasEntryParts u.old parts.now (answers_in e.now) }
    requires rest { rest.0 < length u.old.stmts }
    ensures grows { Grows u.old u.new }
    ensures made { IfOk result (λ code. HasCode u.new code.0 (when_disabled_code (method_in e.now) (code_of u.old rest.0))) }
{
    if e.is_pure() {
        Ok(rest)
    } else {
        refuse_disabled(e, parts, u, rest)
    }
}

/// `(self->active && (self->active != N))`
fn is_other(alloc: Global, parts: &EntryParts, u: &mut Unit, own: u64) -> Result<CExprId, NoMemory>
    requires { HasEntryExprs u.old parts.now.exprs }
    ensures grows { Grows u.old u.new }
    ensures made { IfOk result (λ it. HasExpr u.new it.0 (two_codes Both active_code (two_codes Ne active_code (num own)))) }
{
    let active = parts.exprs.active;
    let own = number(u, own)?;
    let differs = two(alloc, u, COp::Ne, active, own)?;
    two(alloc, u, COp::Both, active, differs)
}

/// A call while another coroutine is active is refused.
fn refuse_other(e: &Entry, parts: &EntryParts, u: &mut Unit) -> Result<CStmtId, NoMemory>
    requires { HasEntryParts u.old parts.now (answers_in e.now) }
    ensures grows { Grows u.old u.new }
    ensures made { IfOk result (λ code. HasCode u.new code.0 (disable_code (refuse_code (method_in e.now) 7))) }
{
    disable(parts, u, parts.refusals.interleaved)
}

/// A call of a coroutine while another one is active is refused.
fn when_not_own(
    e: &Entry,
    parts: &EntryParts,
    u: &mut Unit,
    rest: CStmtId,
) -> Result<CStmtId, NoMemory>
    requires parts { HasEntryParts u.old parts.now (answers_in e.now) }
    requires rest { rest.0 < length u.old.stmts }
    ensures grows { Grows u.old u.new }
    ensures made { IfOk result (λ code. HasCode u.new code.0 (when_code (two_codes Both active_code (two_codes Ne active_code (num (e.now.number + 1)))) (disable_code (refuse_code (method_in e.now) 7)) (code_of u.old rest.0))) }
{
    let body = refuse_other(e, parts, u)?;
    let test = is_other(e.alloc(), parts, u, e.active_number())?;
    when(u, test, body, rest)
}

/// The row of another active coroutine.
fn when_other(
    e: &Entry,
    parts: &EntryParts,
    u: &mut Unit,
    rest: CStmtId,
) -> Result<CStmtId, NoMemory>
    requires parts { HasEntryParts u.old parts.now (answers_in e.now) }
    requires rest { rest.0 < length u.old.stmts }
    ensures grows { Grows u.old u.new }
    ensures made { IfOk result (λ code. HasCode u.new code.0 (when_other_code e.now.number (method_in e.now) (code_of u.old rest.0))) }
{
    if e.is_coroutine() {
        when_not_own(e, parts, u, rest)
    } else {
        Ok(rest)
    }
}

/// The rows of a receiver that isn't ready.
fn when_unready(
    e: &Entry,
    parts: &EntryParts,
    u: &mut Unit,
    rest: CStmtId,
) -> Result<CStmtId, NoMemory>
    requires parts { HasEntryParts u.old parts.now (answers_in e.now) }
    requires rest { rest.0 < length u.old.stmts }
    ensures grows { Grows u.old u.new }
    ensures made { IfOk result (λ code. HasCode u.new code.0 (when_code (unary Not self) (refuse_code (method_in e.now) 4) (when_code (two_codes Eq (num 0) life_code) (refuse_code (method_in e.now) 6) (code_of u.old rest.0)))) }
{
    let rest = when(u, parts.exprs.raw, parts.refusals.not_initialized, rest)?;
    when(u, parts.exprs.null, parts.refusals.bad_receiver, rest)
}

/// The entry table.
fn table(e: &Entry, parts: &EntryParts, u: &mut Unit, rest: CStmtId) -> Result<CStmtId, NoMemory>
    requires parts { HasEntryParts u.old parts.now (answers_in e.now) }
    requires rest { rest.0 < length u.old.stmts }
    ensures grows { Grows u.old u.new }
    ensures made { IfOk result (λ code. HasCode u.new code.0 (table_code e.now.number (method_in e.now) (code_of u.old rest.0))) }
{
    let rest = when_other(e, parts, u, rest)?;
    let rest = when_wrong(e, parts, u, rest)?;
    let rest = when_disabled(e, parts, u, rest)?;
    when_unready(e, parts, u, rest)
}

/// `self->active = N;`
fn set_active(parts: &EntryParts, u: &mut Unit, n: u64, rest: CStmtId) -> Result<CStmtId, NoMemory>
    requires exprs { HasEntryExprs u.old parts.now.exprs }
    requires rest { rest.0 < length u.old.stmts }
    ensures grows { Grows u.old u.new }
    ensures made { IfOk result (λ code. HasCode u.new code.0 (assign_code active_code (num n) (code_of u.old rest.0))) }
{
    let n = number(u, n)?;
    assign(u, parts.exprs.active, n, rest)
}

/// `active` is set, and nothing follows.
fn set_active_at_end(parts: &EntryParts, u: &mut Unit, n: u64) -> Result<CStmtId, NoMemory>
    requires { HasEntryExprs u.old parts.now.exprs }
    ensures grows { Grows u.old u.new }
    ensures made { IfOk result (λ code. HasCode u.new code.0 (assign_code active_code (num n) finish_code)) }
{
    let end = finish(u)?;
    set_active(parts, u, n, end)
}

/// A suspension makes active, and an error disables.
fn settle_status(e: &Entry, parts: &EntryParts, u: &mut Unit, own: u64) -> Result<CStmtId, NoMemory>
    requires { HasEntryParts u.old parts.now (answers_in e.now) }
    ensures grows { Grows u.old u.new }
    ensures made { IfOk result (λ code. HasCode u.new code.0 (when_code (first_is_code 36) (assign_code active_code (num own) finish_code) settle_error_code)) }
{
    let body = set_active_at_end(parts, u, own)?;
    when(u, parts.exprs.suspended, body, parts.failed)
}

/// After the body of a coroutine: a suspension makes it active, every other end leaves none active, and an error disables.
#[tactic(auto, unfolding(c_text::specs::CSpelling::is_reserved))]
fn settle(e: &Entry, parts: &EntryParts, u: &mut Unit, rest: CStmtId) -> Result<CStmtId, NoMemory>
    requires parts { HasEntryParts u.old parts.now (answers_in e.now) }
    requires rest { rest.0 < length u.old.stmts }
    ensures grows { Grows u.old u.new }
    ensures made { IfOk result (λ code. HasCode u.new code.0 (settle_code e.now.number (code_of u.old rest.0))) }
{
    let body = settle_status(e, parts, u, e.active_number())?;
    let status = variable(u, b"status")?;
    let rest = when(u, status, body, rest)?;
    set_active(parts, u, 0, rest)
}

fn settle_if_coroutine(
    e: &Entry,
    parts: &EntryParts,
    u: &mut Unit,
    rest: CStmtId,
) -> Result<CStmtId, NoMemory>
    requires parts { HasEntryParts u.old parts.now (answers_in e.now) }
    requires rest { rest.0 < length u.old.stmts }
    ensures grows { Grows u.old u.new }
    ensures made { IfOk result (λ code. HasCode u.new code.0 (settle_if_coroutine_code e.now.number (method_in e.now) (code_of u.old rest.0))) }
{
    if e.is_coroutine() {
        settle(e, parts, u, rest)
    } else {
        Ok(rest)
    }
}

/// The local that takes the body's answer.
#[tactic(auto, unfolding(c_text::specs::CSpelling::is_reserved))]
fn answer_in(u: &mut Unit, answers: AnswerKind) -> Result<Option<CExprId>, NoMemory>
    ensures grows { Grows u.old u.new }
    ensures made { IfOk result (λ value. HasValue u.new value (answer_code (answer_kind_of answers))) }
{
    match answers {
        AnswerKind::Status => {
            let local = variable(u, b"status")?;
            Ok(Some(local))
        }
        AnswerKind::Number(_) | AnswerKind::Flag => {
            let local = variable(u, b"got")?;
            Ok(Some(local))
        }
        AnswerKind::Nothing => Ok(None),
    }
}

/// A list of one local, which is 0 at first.
fn one_local(
    alloc: Global,
    u: &mut Unit,
    kind: CType,
    name: &[u8],
) -> Result<CList<CLocal>, NoMemory>
    requires kind { HasType u.old kind }
    requires name { IsName name.now }
    ensures grows { Grows u.old u.new }
    ensures made { IfOk result (λ list. HasLocalTrees u.new list (declared (type_in u.old.names kind) name.now (num 0) ∷ [])) }
{
    let local = zero_local(u, kind, name)?;
    CList::from_slice(alloc, &[local])
}

/// The locals of an entry.
#[tactic(auto, unfolding(c_text::specs::CSpelling::is_reserved))]
fn answer_locals(
    alloc: Global,
    u: &mut Unit,
    answers: AnswerKind,
) -> Result<CList<CLocal>, NoMemory>
    ensures grows { Grows u.old u.new }
    ensures made { IfOk result (λ list. HasLocalTrees u.new list (locals_for_answer (answer_kind_of answers))) }
{
    match answers {
        AnswerKind::Status => one_local(alloc, u, CType::Text, b"status"),
        AnswerKind::Number(width) => one_local(alloc, u, CType::Uint(uint_of(width)), b"got"),
        AnswerKind::Flag => one_local(alloc, u, CType::Bool, b"got"),
        AnswerKind::Nothing => Ok(CList::new(alloc)),
    }
}

/// The answer is returned.
fn answered(u: &mut Unit, answer: Option<CExprId>) -> Result<CStmtId, NoMemory>
    requires { IfSome answer (λ e. e.0 < length u.old.exprs) }
    ensures grows { Grows u.old u.new }
    ensures made { IfOk result (λ code. HasCode u.new code.0 (answered_code (value_in (expr_of u.old) answer))) }
{
    let rest = finish(u)?;
    match answer {
        Some(answer) => leave(u, Some(answer), rest),
        None => Ok(rest),
    }
}

/// A parameter is handed on as it is.
fn hand_on(u: &mut Unit, param: CParam, args: &mut CList<CArg>) -> Result<(), NoMemory>
    requires { param.name.0 < length u.old.names }
    ensures grows { Grows u.old u.new }
    ensures made { OnOk result (AddsGiven u.old u.new args.old args.new (c.variable (bytes_at u.old.names param.name.0) ∷ [])) }
{
    let value = put(u, CExpr::Name(param.name))?;
    args.push(CArg::Expr(value))
}

/// So are all of them.
fn handed(alloc: Global, u: &mut Unit, params: &[CParam]) -> Result<CList<CArg>, NoMemory>
    requires { HasParams u.old params.now }
    ensures grows { Grows u.old u.new }
    ensures made { IfOk result (λ list. HasGiven u.new list (handed_codes (map (param_tree u.old.names) params.now))) }
{
    let mut args = CList::new(alloc);
    for param in params {
        hand_on(u, *param, &mut args)?;
    }
    Ok(args)
}

/// What comes after the call of the body.
fn after_body(
    e: &Entry,
    parts: &EntryParts,
    u: &mut Unit,
    answer: Option<CExprId>,
) -> Result<CStmtId, NoMemory>
    requires parts { HasEntryParts u.old parts.now (answers_in e.now) }
    requires there { IfSome answer (λ e. e.0 < length u.old.exprs) }
    requires answer { value_in (expr_of u.old) answer ≡ answer_code (answers_in e.now) }
    ensures grows { Grows u.old u.new }
    ensures made { IfOk result (λ code. HasCode u.new code.0 (after_body_code e.now)) }
{
    let rest = answered(u, answer)?;
    settle_if_coroutine(e, parts, u, rest)
}

/// The name of the body.
fn name_of_body(e: &Entry, u: &mut Unit) -> Result<CNameId, NoMemory>
    ensures grows { Grows u.old u.new }
    ensures made { IfOk result (λ n. HasNamed u.new n.0 (named_body (package_of e.now.nodes) (method_in e.now))) }
{
    body_name(e.typed(), u, e.method())
}

/// The name of the entry.
fn name_of_entry(e: &Entry, u: &mut Unit) -> Result<CNameId, NoMemory>
    ensures grows { Grows u.old u.new }
    ensures made { IfOk result (λ n. HasNamed u.new n.0 (named_entry (package_of e.now.nodes) (method_in e.now))) }
{
    entry_name(e.alloc(), e.typed(), u, e.method())
}

/// The parameters of the entry.
fn params_of_entry(e: &Entry, u: &mut Unit) -> Result<CList<CParam>, NoMemory>
    ensures grows { Grows u.old u.new }
    ensures made { IfOk result (λ list. HasParamTrees u.new list (params_for (package_of e.now.nodes) (method_in e.now))) }
{
    params_of(e.alloc(), e.typed(), u, e.method())
}

/// The type of what the entry answers.
fn result_of_entry(e: &Entry) -> Option<CType>
    ensures { IsResult result (result_for (method_in e.now)) }
{
    result_of(e.method())
}

/// The call of the body, and what comes after it.
fn call_body(
    e: &Entry,
    parts: &EntryParts,
    u: &mut Unit,
    params: &[CParam],
) -> Result<CStmtId, NoMemory>
    requires parts { HasEntryParts u.old parts.now (answers_in e.now) }
    requires params { HasParams u.old params.now }
    ensures grows { Grows u.old u.new }
    ensures made { IfOk result (λ code. HasCode u.new code.0 (body_call_code e.now (map (param_tree u.old.names) params.now))) }
{
    let answer = answer_in(u, e.answers())?;
    let rest = after_body(e, parts, u, answer)?;
    let function = name_of_body(e, u)?;
    let args = handed(e.alloc(), u, params)?;
    call(u, answer, CCall { function, args }, rest)
}

/// The code of the entry.
fn entry_code(
    e: &Entry,
    parts: &EntryParts,
    u: &mut Unit,
    params: &[CParam],
) -> Result<CStmtId, NoMemory>
    requires parts { HasEntryParts u.old parts.now (answers_in e.now) }
    requires params { HasParams u.old params.now }
    ensures grows { Grows u.old u.new }
    ensures made { IfOk result (λ code. HasCode u.new code.0 (table_code e.now.number (method_in e.now) (body_call_code e.now (map (param_tree u.old.names) params.now)))) }
{
    let rest = call_body(e, parts, u, params)?;
    table(e, parts, u, rest)
}

/// The entry as a function.
fn entry_of(e: &Entry, parts: &EntryParts, u: &mut Unit) -> Result<CItem, NoMemory>
    requires { HasEntryParts u.old parts.now (answers_in e.now) }
    ensures grows { Grows u.old u.new }
    ensures made { IfOk result (λ item. HasItemTree u.new item (entry_item (package_of e.now.nodes) e.now.number (method_in e.now))) }
{
    let params = params_of_entry(e, u)?;
    let body = entry_code(e, parts, u, params.as_slice())?;
    let locals = answer_locals(e.alloc(), u, e.answers())?;
    let name = name_of_entry(e, u)?;
    Ok(CItem::Function {
        linkage: Linkage::External,
        result: result_of_entry(e),
        name,
        params,
        locals,
        body,
    })
}

/// The function that is the entry of a method. `Err` where memory was refused.
pub(crate) fn entry_function(
    alloc: Global,
    t: &Typed,
    u: &mut Unit,
    m: MethodId,
    shared: &Shared,
) -> Result<CItem, NoMemory>
    requires shared { HasShared u.old shared.now }
    requires known { m.0 < length t.now.methods }
    requires words { HasWords t.now }
    ensures grows { Grows u.old u.new }
    ensures made { IfSome (slice_get (package_of t.now).methods m.0) (λ it. IfOk result (λ item. HasItemTree u.new item (entry_item (package_of t.now) m.0 it))) }
{
    let e = Entry::new(alloc, t, m);
    entry_of(&e, &shared.parts(e.answers()), u)
}
