// All names that the expressions and statements of a unit read, found in one walk.

ghost use Rattle.std.specs.Prelude.{◌≡◌, ◌<◌, ◌+◌, ◌||◌, ℕ, List, Bool, false, if◌then◌else◌, length, bytes_eq, slice_get, replicate, unwrap_or, IfSome, IfNone, OnOk, []};
ghost use Rattle.c_text.specs.CFits.{HasArg, HasArgs, HasCall, HasExprs};
ghost use Rattle.c_text.specs.CGrammar.{is_finish};
ghost use Rattle.c_text.specs.CNodes.{args_in, bytes_at, code_of, expr_of, operands_in, value_in};
ghost use Rattle.c_text.specs.CTree.{finish};
ghost use Rattle.wf_exprs.specs.Reads.{args_read, code_reads, expr_reads, operands_read, result_reads, target_reads, value_reads};
ghost use Rattle.wf_exprs_nodes.specs.Marks.{AreThose, Marks};
ghost use Rattle.wf_exprs_nodes.specs.Readers.{arg_reads, next_of as next_of_code, other_reads, own_reads};

use c_text::{CArg, CCall, CExpr, CExprId, CNameId, CStmt, CStmtId, Unit};
use std::alloc::Global;
use std::marker::Model;
use wf_text::NoMemory;

/// Which names of a unit code reads: a flag for each name that the unit has when its walk begins, by its number. It serves for
/// one walk after the other. The flag of a name is set where the name was read in the last walk, so that none is cleared.
pub struct ReadNames {
    walks: Vec<u32>,
    walk: u32,
}

impl Drop for ReadNames {
    fn drop(self) {
        let ReadNames { walks: _, walk: _ } = self;
    }
}

impl Model for ReadNames {
    ghost use Rattle.std.specs.Prelude.{List, Bool};
    ghost use Rattle.wf_exprs_nodes.specs.Marks.{UpTo, flags_of};

    ghost Value = { List Bool };

    ghost view = { λ it. flags_of it.walk it.walks.items };

    ghost invariant = { λ it. UpTo it.walk it.walks.items };
}

impl ReadNames {
    /// No names; nothing is allocated.
    pub fn new(alloc: Global) -> ReadNames
        ensures { result ≡ [] }
    {
        ReadNames {
            walks: Vec::new(alloc),
            walk: 1,
        }
    }

    // Clears all flags, which are no more.
    fn reset(&mut self)
        ensures { self.new ≡ [] }
    {
        self.walks.clear();
        self.walk = 1;
    }

    // Clears all flags, if there is a next walk.
    fn clear(&mut self)
        ensures { self.new ≡ replicate (length self.new) false }
    {
        match self.walk.checked_add(1) {
            Some(walk) => self.walk = walk,
            None => self.reset(),
        }
    }

    // Has a flag for each name of the unit, none of which is set.
    fn fit(&mut self, u: &Unit) -> Result<(), NoMemory>
        requires { self.old ≡ replicate (length self.old) false }
        ensures { OnOk result (self.new ≡ replicate (length u.now.names) false) }
    {
        self.walks.resize(u.names(), 0)?;
        Ok(())
    }

    /// None of the unit's names.
    pub fn begin(&mut self, u: &Unit) -> Result<(), NoMemory>
        ensures { OnOk result (self.new ≡ replicate (length u.now.names) false) }
    {
        self.clear();
        self.fit(u)
    }

    /// The names that the statements from this one to the end of its block read.
    pub fn read_code(&mut self, u: &Unit, s: CStmtId) -> Result<(), NoMemory>
        requires { s.0 < length u.now.stmts }
        ensures { OnOk result (AreThose (λ name. code_reads name (code_of u.now s.0)) u.now.names self.new) }
    {
        self.begin(u)?;
        mark_code(u, self, s);
        Ok(())
    }

    /// Whether the name is one of them. The unit may have got further names by now.
    pub fn has(&self, u: &Unit, name: CNameId) -> bool
        requires { name.0 < length u.now.names }
        ensures { (reads : List ℕ → Bool) → AreThose reads u.now.names self.now → result ≡ reads (bytes_at u.now.names name.0) }
    {
        let _known = u.names();
        self.flag(name)
    }

    // The flag of a name; false for one that the unit got later.
    fn flag(&self, name: CNameId) -> bool
        ensures { result ≡ unwrap_or (slice_get self.now name.0) false }
    {
        match self.walks.get(name.0) {
            Some(walk) => *walk == self.walk,
            None => false,
        }
    }

    // Adds a name.
    fn add(&mut self, name: CNameId)
        requires { name.0 < length self.old }
        ensures marks { (names : List (List ℕ)) → Marks (λ other. bytes_eq other (bytes_at names name.0)) names self.old self.new }
        ensures sized { length self.new ≡ length self.old }
    {
        self.walks[name.0] = self.walk;
    }
}

// The names of an expression's variables and functions.
#[cycle(marking)]
fn mark_expr(u: &Unit, read: &mut ReadNames, e: CExprId)
    requires there { e.0 < length u.now.exprs }
    requires sized { length read.old ≡ length u.now.names }
    ensures marks { Marks (λ name. expr_reads name (expr_of u.now e.0)) u.now.names read.old read.new }
    ensures sized { length read.new ≡ length read.old }
{
    match u.expr(e) {
        CExpr::Number(_) => {}
        CExpr::Name(n) => read.add(*n),
        CExpr::Member { of, .. } => mark_expr(u, read, *of),
        CExpr::Index { of, at } => {
            mark_expr(u, read, *of);
            mark_expr(u, read, *at)
        }
        CExpr::Deref(of) => mark_expr(u, read, *of),
        CExpr::Operation {
            first,
            second,
            others,
            ..
        } => {
            mark_expr(u, read, *first);
            mark_expr(u, read, *second);
            mark_operands(u, read, e, others.as_slice())
        }
        CExpr::Unary { of, .. } => mark_expr(u, read, *of),
        CExpr::Cast { of, .. } => mark_expr(u, read, *of),
        CExpr::Choice { test, met, unmet } => {
            mark_expr(u, read, *test);
            mark_expr(u, read, *met);
            mark_expr(u, read, *unmet)
        }
        CExpr::Call(call) => mark_call(u, read, e, call),
    }
}

#[cycle(marking)]
fn mark_operands(u: &Unit, read: &mut ReadNames, e: CExprId, operands: &[CExprId])
    requires there { e.0 < length u.now.exprs }
    requires below { HasExprs e.0 operands.now }
    requires sized { length read.old ≡ length u.now.names }
    ensures marks { Marks (λ name. operands_read name (operands_in (expr_of u.now) operands.now)) u.now.names read.old read.new }
    ensures sized { length read.new ≡ length read.old }
{
    for operand in operands {
        mark_expr(u, read, *operand);
    }
}

#[cycle(marking)]
fn mark_call(u: &Unit, read: &mut ReadNames, e: CExprId, call: &CCall)
    requires there { e.0 < length u.now.exprs + 1 }
    requires below { HasCall u.now e.0 call.now }
    requires sized { length read.old ≡ length u.now.names }
    ensures marks { Marks (λ name. bytes_eq name (bytes_at u.now.names call.now.function.0) || args_read name (args_in u.now.names (expr_of u.now) call.now.args)) u.now.names read.old read.new }
    ensures sized { length read.new ≡ length read.old }
{
    read.add(call.function);
    mark_args(u, read, e, call.args.as_slice())
}

#[cycle(marking)]
fn mark_args(u: &Unit, read: &mut ReadNames, e: CExprId, args: &[CArg])
    requires there { e.0 < length u.now.exprs + 1 }
    requires below { HasArgs u.now e.0 args.now }
    requires sized { length read.old ≡ length u.now.names }
    ensures marks { Marks (λ name. args_read name (args_in u.now.names (expr_of u.now) args.now)) u.now.names read.old read.new }
    ensures sized { length read.new ≡ length read.old }
{
    for arg in args {
        mark_arg(u, read, e, *arg);
    }
}

#[cycle(marking)]
fn mark_arg(u: &Unit, read: &mut ReadNames, e: CExprId, arg: CArg)
    requires there { e.0 < length u.now.exprs + 1 }
    requires below { HasArg u.now e.0 arg }
    requires sized { length read.old ≡ length u.now.names }
    ensures marks { Marks (λ name. arg_reads u.now name arg) u.now.names read.old read.new }
    ensures sized { length read.new ≡ length read.old }
{
    match arg {
        CArg::Expr(part) => mark_expr(u, read, part),
        CArg::SizeOf(_) => {}
    }
}

// What is assigned to: a variable isn't read, a pointer or an index on the way is.
fn mark_target(u: &Unit, read: &mut ReadNames, target: CExprId)
    requires there { target.0 < length u.now.exprs }
    requires sized { length read.old ≡ length u.now.names }
    ensures marks { Marks (λ name. target_reads name (expr_of u.now target.0)) u.now.names read.old read.new }
    ensures sized { length read.new ≡ length read.old }
{
    match u.expr(target) {
        CExpr::Name(_) => {}
        _ => mark_expr(u, read, target),
    }
}

fn mark_result(u: &Unit, read: &mut ReadNames, target: Option<CExprId>)
    requires there { IfSome target (λ e. e.0 < length u.now.exprs) }
    requires sized { length read.old ≡ length u.now.names }
    ensures marks { Marks (λ name. result_reads name (value_in (expr_of u.now) target)) u.now.names read.old read.new }
    ensures sized { length read.new ≡ length read.old }
{
    match target {
        Some(target) => mark_target(u, read, target),
        None => {}
    }
}

fn mark_value(u: &Unit, read: &mut ReadNames, value: Option<CExprId>)
    requires there { IfSome value (λ e. e.0 < length u.now.exprs) }
    requires sized { length read.old ≡ length u.now.names }
    ensures marks { Marks (λ name. value_reads name (value_in (expr_of u.now) value)) u.now.names read.old read.new }
    ensures sized { length read.new ≡ length read.old }
{
    match value {
        Some(value) => mark_expr(u, read, value),
        None => {}
    }
}

/// Adds the names that the statements from this one to the end of its block read. A chain of `else if` is followed like the
/// statements of a block, so it may have any length.
#[cycle(marking_code)]
pub fn mark_code(u: &Unit, read: &mut ReadNames, s: CStmtId)
    requires there { s.0 < length u.now.stmts }
    requires sized { length read.old ≡ length u.now.names }
    ensures marks { Marks (λ name. code_reads name (code_of u.now s.0)) u.now.names read.old read.new }
    ensures sized { length read.new ≡ length read.old }
{
    let mut at = s;
    while let Some(next) = next_of(u, at) {
        mark_stmt(u, read, at);
        at = next;
    }
}

// The names that a statement reads, apart from those that are looked at after it.
#[cycle(marking_code)]
fn mark_stmt(u: &Unit, read: &mut ReadNames, s: CStmtId)
    requires there { s.0 < length u.now.stmts }
    requires sized { length read.old ≡ length u.now.names }
    ensures marks { Marks (λ name. own_reads name (code_of u.now s.0)) u.now.names read.old read.new }
    ensures sized { length read.new ≡ length read.old }
{
    match u.stmt(s) {
        CStmt::Block { inner, .. } => mark_code(u, read, *inner),
        CStmt::Assign { target, value, .. } => {
            mark_target(u, read, *target);
            mark_expr(u, read, *value)
        }
        CStmt::Call { target, call, .. } => {
            mark_result(u, read, *target);
            mark_given(u, read, call)
        }
        CStmt::If {
            test,
            body,
            other,
            rest,
            ..
        } => {
            mark_expr(u, read, *test);
            mark_code(u, read, *body);
            mark_other(u, read, *other, *rest)
        }
        CStmt::While { test, body, .. } => {
            mark_expr(u, read, *test);
            mark_code(u, read, *body)
        }
        CStmt::Switch { on, body, .. } => {
            mark_expr(u, read, *on);
            mark_code(u, read, *body)
        }
        CStmt::Return { value, .. } => mark_value(u, read, *value),
        CStmt::End | CStmt::Empty { .. } | CStmt::Goto { .. } => {}
        CStmt::Case { .. } | CStmt::Default { .. } | CStmt::Label { .. } => {}
    }
}

// What the `else` of an `if` holds, where this isn't looked at after it.
#[cycle(marking_code)]
fn mark_other(u: &Unit, read: &mut ReadNames, other: CStmtId, rest: CStmtId)
    requires other { other.0 < length u.now.stmts }
    requires rest { rest.0 < length u.now.stmts }
    requires sized { length read.old ≡ length u.now.names }
    ensures marks { Marks (λ name. other_reads name (code_of u.now other.0) (code_of u.now rest.0)) u.now.names read.old read.new }
    ensures sized { length read.new ≡ length read.old }
{
    if is_end(u, rest) {
        return;
    }
    mark_code(u, read, other)
}

// The arguments of a call that is a statement.
fn mark_given(u: &Unit, read: &mut ReadNames, call: &CCall)
    requires there { HasArgs u.now (length u.now.exprs) call.now.args }
    requires sized { length read.old ≡ length u.now.names }
    ensures marks { Marks (λ name. args_read name (args_in u.now.names (expr_of u.now) call.now.args)) u.now.names read.old read.new }
    ensures sized { length read.new ≡ length read.old }
{
    mark_args(u, read, CExprId(u.exprs()), call.args.as_slice())
}

// What is looked at after a statement: what follows it in its block or, after an `if` that is the last of its block, what
// its `else` holds. None at the block's end.
fn next_of(u: &Unit, s: CStmtId) -> Option<CStmtId>
    requires { s.0 < length u.now.stmts }
    ensures some { IfSome result (λ next. (next.0 < s.0) × (code_of u.now next.0 ≡ next_of_code (code_of u.now s.0))) }
    ensures none { IfNone result (code_of u.now s.0 ≡ finish) }
{
    match u.stmt(s) {
        CStmt::End => None,
        CStmt::Block { rest, .. } => Some(*rest),
        CStmt::Empty { rest } => Some(*rest),
        CStmt::Assign { rest, .. } => Some(*rest),
        CStmt::Call { rest, .. } => Some(*rest),
        CStmt::Goto { rest, .. } => Some(*rest),
        CStmt::If { other, rest, .. } => Some(later(u, *other, *rest)),
        CStmt::While { rest, .. } => Some(*rest),
        CStmt::Switch { rest, .. } => Some(*rest),
        CStmt::Return { rest, .. } => Some(*rest),
        CStmt::Case { rest, .. } => Some(*rest),
        CStmt::Default { rest } => Some(*rest),
        CStmt::Label { rest, .. } => Some(*rest),
    }
}

// What follows an `if`, or else what its `else` holds.
fn later(u: &Unit, other: CStmtId, rest: CStmtId) -> CStmtId
    requires other { other.0 < length u.now.stmts }
    requires rest { rest.0 < length u.now.stmts }
    ensures { result ≡ (if is_finish (code_of u.now rest.0) then other else rest) }
{
    if is_end(u, rest) { other } else { rest }
}

fn is_end(u: &Unit, s: CStmtId) -> bool
    requires { s.0 < length u.now.stmts }
    ensures { result ≡ is_finish (code_of u.now s.0) }
{
    match u.stmt(s) {
        CStmt::End => true,
        _ => false,
    }
}
