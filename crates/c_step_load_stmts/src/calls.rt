// Calls as statements (ISO/IEC 9899:1999, 6.5.2.2, 7.21.2.2, 7.21.6.1).

ghost use Rattle.std.specs.Prelude.{◌≡◌, ◌<◌, length, Some, OnOk, IfOk, IfSome};
ghost use Rattle.c_text.specs.CNodes.{bytes_at, expr_of, value_in, args_in};
ghost use Rattle.c_text.specs.CFits.{HasName, HasArgs, HasCall};
ghost use Rattle.c_meaning.specs.CStep.{callee_of};
ghost use Rattle.c_step_exprs.specs.Resolving.{function_number};
ghost use Rattle.c_step_text.specs.Layout.{Names as NamesOf};
ghost use Rattle.c_step_text.specs.Emitted.{target_exprs, target_span, zero_exprs, zero_instr, own_exprs, own_instr, call_exprs, call_instr};
ghost use Rattle.c_step_load_stmts.specs.Bodies.{nodes_of, scope_of, Fits, Tells, below, with_exprs};
ghost use Rattle.c_step_load_stmts.specs.Calls.{IsCallee};

use crate::bodies::Body;
use c_step_text::{Span, StmtInstr, Text};
use c_text::{CArg, CCall, CExprId, CNameId};
use wf_text::NoMemory;

/// What a call calls.
#[derive(Clone, Copy)]
enum Called {
    /// `memmove`
    Move,
    /// `memset`
    Set,
    /// A function of the text.
    Own,
}

/// What a call of this name calls.
fn called_by(name: &[u8]) -> Called
    ensures { IsCallee result (callee_of name.now) }
{
    if name == b"memmove".as_slice() {
        return Called::Move;
    }
    if name == b"memset".as_slice() {
        return Called::Set;
    }
    Called::Own
}

impl<'r, 'k, 'u> Body<'r, 'k, 'u> {
    /// The number of a function before this one.
    fn callable(&self, name: CNameId) -> Option<usize>
        requires fits { Fits self.now }
        requires name { HasName (nodes_of self.now) name }
        ensures { result ≡ below self.now.number (function_number (scope_of self.now).functions (bytes_at (nodes_of self.now).names name.0)) }
    {
        let k = self.names.function_number(name)?;
        if k < self.number { Some(k) } else { None }
    }

    /// Puts down the expressions of a call; its instruction, where `next` follows it.
    pub(crate) fn call_instr(
        &self,
        text: &mut Text,
        target: Option<CExprId>,
        call: &CCall,
        next: usize,
    ) -> Result<StmtInstr, NoMemory>
        requires fits { Fits self.now }
        requires target { IfSome target (λ e. e.0 < length (nodes_of self.now).exprs) }
        requires call { HasCall (nodes_of self.now) (length (nodes_of self.now).exprs) call.now }
        ensures text { (names : NamesOf) → Tells self.now names → OnOk result (text.new ≡ with_exprs text.old (call_exprs (callee_of (bytes_at (nodes_of self.now).names call.now.function.0)) names (value_in (expr_of (nodes_of self.now)) target) (bytes_at (nodes_of self.now).names call.now.function.0) (args_in (nodes_of self.now).names (expr_of (nodes_of self.now)) call.now.args))) }
        ensures instr { (names : NamesOf) → Tells self.now names → IfOk result (λ it. it ≡ call_instr (callee_of (bytes_at (nodes_of self.now).names call.now.function.0)) names (length text.old.exprs) next (value_in (expr_of (nodes_of self.now)) target) (bytes_at (nodes_of self.now).names call.now.function.0) (args_in (nodes_of self.now).names (expr_of (nodes_of self.now)) call.now.args)) }
    {
        match called_by(self.names.scope.spelt(call.function)) {
            Called::Move => {
                let given = self.put_args(text, call.args.as_slice())?;
                Ok(StmtInstr::Move { given, next })
            }
            Called::Set => self.zero_instr(text, call.args.as_slice(), next),
            Called::Own => match self.callable(call.function) {
                Some(function) => self.own_instr(
                    text,
                    target,
                    function,
                    call.args.as_slice(),
                    next,
                ),
                None => Ok(StmtInstr::Stuck),
            },
        }
    }

    /// The same of `memset`.
    fn zero_instr(
        &self,
        text: &mut Text,
        given: &[CArg],
        next: usize,
    ) -> Result<StmtInstr, NoMemory>
        requires fits { Fits self.now }
        requires given { HasArgs (nodes_of self.now) (length (nodes_of self.now).exprs) given.now }
        ensures text { (names : NamesOf) → Tells self.now names → OnOk result (text.new ≡ with_exprs text.old (zero_exprs names (args_in (nodes_of self.now).names (expr_of (nodes_of self.now)) given.now))) }
        ensures instr { (names : NamesOf) → Tells self.now names → IfOk result (λ it. it ≡ zero_instr names (length text.old.exprs) next (args_in (nodes_of self.now).names (expr_of (nodes_of self.now)) given.now)) }
    {
        match given.get(0) {
            Some(CArg::Expr(e)) => {
                let pointer = self.put_value(text, *e)?;
                Ok(StmtInstr::Zero { pointer, next })
            }
            Some(CArg::SizeOf(_)) => Ok(StmtInstr::Stuck),
            None => Ok(StmtInstr::Stuck),
        }
    }

    /// The same of a function of the text.
    fn own_instr(
        &self,
        text: &mut Text,
        target: Option<CExprId>,
        function: usize,
        given: &[CArg],
        next: usize,
    ) -> Result<StmtInstr, NoMemory>
        requires fits { Fits self.now }
        requires target { IfSome target (λ e. e.0 < length (nodes_of self.now).exprs) }
        requires given { HasArgs (nodes_of self.now) (length (nodes_of self.now).exprs) given.now }
        ensures text { (names : NamesOf) → Tells self.now names → OnOk result (text.new ≡ with_exprs text.old (own_exprs names (value_in (expr_of (nodes_of self.now)) target) (Some function) (args_in (nodes_of self.now).names (expr_of (nodes_of self.now)) given.now))) }
        ensures instr { (names : NamesOf) → Tells self.now names → IfOk result (λ it. it ≡ own_instr names (length text.old.exprs) next (value_in (expr_of (nodes_of self.now)) target) (Some function) (args_in (nodes_of self.now).names (expr_of (nodes_of self.now)) given.now)) }
    {
        let target = self.put_target(text, target)?;
        let given = self.put_args(text, given)?;
        Ok(StmtInstr::Call {
            target,
            function,
            given,
            next,
        })
    }

    /// Puts down the place that the value of a call goes to.
    fn put_target(&self, text: &mut Text, target: Option<CExprId>) -> Result<Option<Span>, NoMemory>
        requires fits { Fits self.now }
        requires target { IfSome target (λ e. e.0 < length (nodes_of self.now).exprs) }
        ensures text { (names : NamesOf) → Tells self.now names → OnOk result (text.new ≡ with_exprs text.old (target_exprs names (value_in (expr_of (nodes_of self.now)) target))) }
        ensures span { (names : NamesOf) → Tells self.now names → IfOk result (λ span. span ≡ target_span names (length text.old.exprs) (value_in (expr_of (nodes_of self.now)) target)) }
    {
        match target {
            Some(e) => {
                let span = self.put_place(text, e)?;
                Ok(Some(span))
            }
            None => Ok(None),
        }
    }
}
