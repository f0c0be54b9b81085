// What the body of a function is put down by: the names of its expressions, the numbers of its labels and statements, and the
// type of its result.

ghost use Rattle.std.specs.Prelude.{◌≡◌, ◌<◌, length, OnOk, IfOk};
ghost use Rattle.c_text.specs.CNodes.{expr_of, code_of, args_in, made_code};
ghost use Rattle.c_text.specs.CFits.{HasArgs, FitsStmt};
ghost use Rattle.c_step_exprs.specs.Resolving.{value_code, place_code, args_code};
ghost use Rattle.c_step_text.specs.Emitted.{span_of};
ghost use Rattle.c_step_text.specs.Layout.{go, past, past_both, second};
ghost use Rattle.c_step_load_stmts.specs.Bodies.{nodes_of, scope_of, Fits, with_exprs};

use c_form_exprs::SpellingTable;
use c_step_load_exprs::Names;
use c_step_places::Weighed;
use c_step_text::{Span, Text};
use c_text::{CArg, CExprId, CStmt, CStmtId, CType};
use std::alloc::Global;
use wf_text::NoMemory;

/// What a body is put down by.
#[derive(Clone, Copy)]
pub struct Body<'r, 'k, 'u> {
    /// The names of its expressions.
    pub names: Names<'r, 'k, 'u>,
    /// The statements of the unit, with their weights.
    pub weighed: Weighed<'k>,
    /// The numbers of the labels.
    pub labels: &'r SpellingTable<'k, usize>,
    /// The type of the result; none for `void`.
    pub result: Option<CType>,
    /// How many functions are before this one.
    pub number: usize,
    /// Where lists come from.
    pub alloc: Global,
}

impl<'r, 'k, 'u> Body<'r, 'k, 'u> {
    /// A statement's node.
    pub(crate) fn stmt(&self, s: CStmtId) -> &'u CStmt
        requires { s.0 < length (nodes_of self.now).stmts }
        ensures tree { code_of (nodes_of self.now) s.0 ≡ made_code (nodes_of self.now).names (expr_of (nodes_of self.now)) (code_of (nodes_of self.now)) result.now }
        ensures fits { FitsStmt (nodes_of self.now) s.0 result.now }
    {
        self.names.scope.unit().stmt(s)
    }

    /// The number to go to for statements with a number, where `next` follows them.
    pub(crate) fn go(&self, i: usize, next: usize, stmt: CStmtId) -> usize
        requires { stmt.0 < length (nodes_of self.now).stmts }
        ensures { result ≡ go i next (code_of (nodes_of self.now) stmt.0) }
    {
        match self.stmt(stmt) {
            CStmt::End => next,
            _ => i,
        }
    }

    /// In a statement with a number, the number of what follows its block.
    pub(crate) fn past(&self, i: usize, body: CStmtId) -> Result<usize, NoMemory>
        requires fits { Fits self.now }
        requires body { body.0 < length (nodes_of self.now).stmts }
        ensures { IfOk result (λ n. n ≡ past i (code_of (nodes_of self.now) body.0)) }
    {
        self.weighed.past(i, body)
    }

    /// The same after two blocks.
    pub(crate) fn past_both(
        &self,
        i: usize,
        body: CStmtId,
        other: CStmtId,
    ) -> Result<usize, NoMemory>
        requires fits { Fits self.now }
        requires body { body.0 < length (nodes_of self.now).stmts }
        requires other { other.0 < length (nodes_of self.now).stmts }
        ensures { IfOk result (λ n. n ≡ past_both i (code_of (nodes_of self.now) body.0) (code_of (nodes_of self.now) other.0)) }
    {
        self.weighed.past_both(i, body, other)
    }

    /// In a statement with a number, the number after its first block.
    pub(crate) fn second(&self, i: usize, body: CStmtId) -> Result<usize, NoMemory>
        requires fits { Fits self.now }
        requires body { body.0 < length (nodes_of self.now).stmts }
        ensures { IfOk result (λ n. n ≡ second i (code_of (nodes_of self.now) body.0)) }
    {
        self.weighed.second(i, body)
    }

    /// Puts down the instructions of an expression; where they stand.
    pub fn put_value(&self, text: &mut Text, e: CExprId) -> Result<Span, NoMemory>
        requires fits { Fits self.now }
        requires e { e.0 < length (nodes_of self.now).exprs }
        ensures text { OnOk result (text.new ≡ with_exprs text.old (value_code (scope_of self.now) (expr_of (nodes_of self.now) e.0))) }
        ensures span { IfOk result (λ span. span ≡ span_of (length text.old.exprs) (value_code (scope_of self.now) (expr_of (nodes_of self.now) e.0))) }
    {
        let from = text.exprs.len();
        self.names.value(e, &mut text.exprs)?;
        Ok(Span {
            from,
            to: text.exprs.len(),
        })
    }

    /// The same of an lvalue's place.
    pub(crate) fn put_place(&self, text: &mut Text, e: CExprId) -> Result<Span, NoMemory>
        requires fits { Fits self.now }
        requires e { e.0 < length (nodes_of self.now).exprs }
        ensures text { OnOk result (text.new ≡ with_exprs text.old (place_code (scope_of self.now) (expr_of (nodes_of self.now) e.0))) }
        ensures span { IfOk result (λ span. span ≡ span_of (length text.old.exprs) (place_code (scope_of self.now) (expr_of (nodes_of self.now) e.0))) }
    {
        let from = text.exprs.len();
        self.names.place(e, &mut text.exprs)?;
        Ok(Span {
            from,
            to: text.exprs.len(),
        })
    }

    /// The same of the arguments of a call.
    pub(crate) fn put_args(&self, text: &mut Text, given: &[CArg]) -> Result<Span, NoMemory>
        requires fits { Fits self.now }
        requires given { HasArgs (nodes_of self.now) (length (nodes_of self.now).exprs) given.now }
        ensures text { OnOk result (text.new ≡ with_exprs text.old (args_code (scope_of self.now) (args_in (nodes_of self.now).names (expr_of (nodes_of self.now)) given.now))) }
        ensures span { IfOk result (λ span. span ≡ span_of (length text.old.exprs) (args_code (scope_of self.now) (args_in (nodes_of self.now).names (expr_of (nodes_of self.now)) given.now))) }
    {
        let from = text.exprs.len();
        let below = self.names.scope.unit().exprs();
        self.names.args(below, &[], given, &mut text.exprs)?;
        Ok(Span {
            from,
            to: text.exprs.len(),
        })
    }
}
