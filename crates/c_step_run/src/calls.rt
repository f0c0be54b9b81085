// Calls, and the run of a function's text (ISO/IEC 9899:1999, 6.5.2.2, 6.8, 6.9.1).

ghost use Rattle.std.specs.Prelude.{◌≡◌, ◌<◌, ◌+◌, ℕ, [], ◌∷◌, List, Option, Some, reverse, length, slice_get, slice_range, option_map, IfSome};
ghost use Rattle.turns.specs.Run.{Outcome};
ghost use Rattle.c_text.specs.CTree.{ExprTree, LocalTree};
ghost use Rattle.c_meaning.specs.CMemory.{Memory};
ghost use Rattle.c_meaning.specs.CTypes.{Function};
ghost use Rattle.c_meaning.specs.CStep.{Returned, one_place};
ghost use Rattle.c_meaning.specs.CCall.{Program, function_meaning, expression_call, call_of, started, running, initialized, initial_stored, scope_in};
ghost use Rattle.c_mem.specs.MemoryViews.{memory};
ghost use Rattle.c_step_exprs.specs.Stacks.{on_stack};
ghost use Rattle.c_step_text.specs.Flat.{code_in};
ghost use Rattle.c_step_text.specs.Numbered.{activation_of, meaning_at};
ghost use Rattle.c_step_text.specs.Acting.{IsNumbered, located, given_by, defined, after_call, kept_by};
ghost use Rattle.c_step_run.specs.Coding.{AreCoded, InitialOf, InitialsOf};
ghost use Rattle.c_step_run.specs.Ready.{CanRun, CanEnter, KeepsMemory, KeepsShape};
ghost use Rattle.c_step_run.specs.Meaning.{seen_in, Comes, OnTrue, outcome_of, LeavesAtMost, OnGot, OnMoved, Advances, Standing, LeadsOn, after_kept};

use crate::code::{Code, Func, Initial};
use crate::leaps::{comes_back, entry, goes_back, leap, moves, returns, switches, tests};
use crate::moved::{Ended, Moved};
use crate::store::{Active, Store, enter_call, leave_call, param_count};
use crate::stores::assign_to;
use c_meaning::values::{CValue, Pointer};
use c_step_exprs::is_same_pointer;
use c_step_text::{Span, StmtInstr};

/// The place of a call's target, which is the same before the call and after it (6.5.16p4).
fn agreed(before: Option<Pointer>, after: Option<Pointer>) -> Option<Pointer>
    ensures { result ≡ one_place before after }
{
    match (before, after) {
        (Some(p), Some(q)) => { if is_same_pointer(p, q) { Some(q) } else { None } }
        (_, _) => None,
    }
}

/// A call as a statement.
#[derive(Clone, Copy)]
struct CallStmt {
    /// The target that its value is assigned to, where it has one.
    target: Option<Span>,
    /// The number of its function.
    function: usize,
    /// Its arguments.
    given: Span,
}

impl Code {
    /// Calls a function, within so many turns. Its arguments stand on the stack. The call's object is gone when it has
    /// returned.
    #[cycle(call)]
    pub fn call(&self, at: Active, left: u64, st: &mut Store) -> Ended
        requires ready { CanEnter self.now at st.old }
        ensures left { LeavesAtMost left result }
        ensures keeps { OnGot result (KeepsShape st.old st.new) }
        ensures means { (p : Program) (f : Function) (callable : List Function) → length callable ≡ at.own
            → AreCoded self.now st.old.frames.items st.old.args.items p (f ∷ callable)
            → function_meaning p f (expression_call p callable) (call_of p callable) left (reverse (on_stack st.old.stack)) (memory st.old.mem) ≡ outcome_of result (memory st.new.mem) }
    {
        let f = self.function(at.own);
        match entry(f.turn, left) {
            Some(now) => self.enter(f, at, now, st),
            None => Ended::More,
        }
    }

    /// The same after the turn of its entry.
    #[cycle(call)]
    fn enter(&self, f: Func, at: Active, left: u64, st: &mut Store) -> Ended
        requires ready { CanEnter self.now at st.old }
        ensures left { LeavesAtMost left result }
        ensures keeps { OnGot result (KeepsShape st.old st.new) }
        ensures means { (p : Program) (it : Function) (callable : List Function) → length callable ≡ at.own → slice_get self.now.functions at.own ≡ Some f
            → AreCoded self.now st.old.frames.items st.old.args.items p (it ∷ callable)
            → started (running p it (expression_call p callable) (call_of p callable) (length (memory st.old.mem))) it (reverse (on_stack st.old.stack)) (memory st.old.mem) left ≡ outcome_of result (memory st.new.mem) }
    {
        if st.stack.len() != param_count(&st.frames, at.own) {
            return Ended::Lost;
        }
        if !enter_call(&mut st.frames, at.own, &mut st.mem, &mut st.stack) {
            return Ended::Lost;
        }
        if !self.initialize(f.initials, at, st) {
            return Ended::Lost;
        }
        match self.body(f.entry, left, at, st) {
            Ended::Got { value, left: now } => {
                leave_call(&mut st.frames, at.own, &mut st.mem);
                Ended::Got { value, left: now }
            }
            Ended::More => Ended::More,
            Ended::Lost => Ended::Lost,
        }
    }

    /// The initial values of a function's locals (6.7.8p8).
    fn initialize(&self, initials: Span, at: Active, st: &mut Store) -> bool
        requires ready { CanRun self.now at st.old }
        ensures keeps { OnTrue result (KeepsShape st.old st.new) }
        ensures means { (p : Program) (f : Function) (callable : List Function) (start first : ℕ) (locals : List LocalTree) → length callable ≡ at.own
            → AreCoded self.now st.old.frames.items st.old.args.items p callable → IsNumbered (activation_of p f callable at.frame start)
            → InitialsOf self.now.text (scope_in p f) first locals (slice_range self.now.initials initials.from initials.to)
            → Comes (initialized (running p f (expression_call p callable) (call_of p callable) at.frame) first locals (memory st.old.mem)) result (memory st.new.mem) }
    {
        let locals = self.initials(initials);
        for local in locals {
            if !self.initial(*local, at, st) {
                return false;
            }
        }
        true
    }

    /// The initial value of a local, where it has one.
    fn initial(&self, local: Initial, at: Active, st: &mut Store) -> bool
        requires ready { CanRun self.now at st.old }
        ensures keeps { OnTrue result (KeepsShape st.old st.new) }
        ensures means { (p : Program) (f : Function) (callable : List Function) (start : ℕ) (e : Option ExprTree) → length callable ≡ at.own
            → AreCoded self.now st.old.frames.items st.old.args.items p callable → IsNumbered (activation_of p f callable at.frame start)
            → InitialOf self.now.text (scope_in p f) e local.value
            → Comes (initial_stored (running p f (expression_call p callable) (call_of p callable) at.frame) local.field e (memory st.old.mem)) result (memory st.new.mem) }
    {
        let Some(span) = local.value else {
            return true;
        };
        let Some(v) = self.value(span, at, st) else {
            return false;
        };
        let place = Pointer {
            object: at.frame,
            field: local.field,
            index: 0,
        };
        assign_to(&mut st.mem, place, v)
    }

    /// Runs the text of a function from an instruction on, up to where it returns.
    #[cycle(call)]
    fn body(&self, entry: usize, turns: u64, at: Active, st: &mut Store) -> Ended
        requires ready { CanRun self.now at st.old }
        ensures left { LeavesAtMost turns result }
        ensures keeps { OnGot result (KeepsShape st.old st.new) }
        ensures means { (p : Program) (f : Function) (callable : List Function) (start : ℕ) (total : Outcome Returned) → length callable ≡ at.own
            → AreCoded self.now st.old.frames.items st.old.args.items p callable
            → Standing self.now.text (activation_of p f callable at.frame start) entry turns (memory st.old.mem) total
            → total ≡ outcome_of result (memory st.new.mem) }
    {
        let mut pc = entry;
        let mut left = turns;
        loop {
            match self.act(pc, left, at, st) {
                Moved::Goes { to, left: now } => {
                    pc = to;
                    left = now;
                }
                Moved::Ends { value, left: now } => return Ended::Got { value, left: now },
                Moved::Turns => return Ended::More,
                Moved::Undefined => return Ended::Lost,
            }
        }
    }

    /// Does one instruction of a function.
    #[cycle(call)]
    fn act(&self, pc: usize, left: u64, at: Active, st: &mut Store) -> Moved
        requires ready { CanRun self.now at st.old }
        ensures falls { Advances (length self.now.text.statements) pc left result }
        ensures keeps { OnMoved result (KeepsShape st.old st.new) }
        ensures means { (p : Program) (f : Function) (callable : List Function) (start : ℕ) (total : Outcome Returned) → length callable ≡ at.own
            → AreCoded self.now st.old.frames.items st.old.args.items p callable
            → Standing self.now.text (activation_of p f callable at.frame start) pc left (memory st.old.mem) total
            → LeadsOn self.now.text (activation_of p f callable at.frame start) result (memory st.new.mem) total }
    {
        let Some(i) = self.statement(pc) else {
            return Moved::Undefined;
        };
        match i {
            StmtInstr::Assign {
                target,
                value,
                next,
            } => moves(self.assign(target, value, at, st), pc, next, left),
            StmtInstr::Call {
                target,
                function,
                given,
                next,
            } => {
                let stmt = CallStmt {
                    target,
                    function,
                    given,
                };
                goes_back(self.call_kept(stmt, left, at, st), pc, next)
            }
            StmtInstr::Move { given, next } => moves(
                self.move_given(given, at, st),
                pc,
                next,
                left,
            ),
            StmtInstr::Zero { pointer, next } => moves(self.zero(pointer, at, st), pc, next, left),
            StmtInstr::Goto(next) => leap(pc, next, left),
            StmtInstr::Test { test, met, unmet } => tests(
                self.value(test, at, st),
                pc,
                met,
                unmet,
                left,
            ),
            StmtInstr::Back { test, met, unmet } => {
                if left == 0 {
                    return Moved::Turns;
                }
                comes_back(self.value(test, at, st), met, unmet, left - 1)
            }
            StmtInstr::Switch { on, arms, other } => switches(
                self.value(on, at, st),
                self.arms(arms),
                pc,
                other,
                left,
            ),
            StmtInstr::Return { value, ty } => returns(self.value(value, at, st), ty, left),
            StmtInstr::Finish => Moved::Ends { value: None, left },
            StmtInstr::Stuck => Moved::Undefined,
        }
    }

    /// A call as a statement: its value is assigned to its target, which is found before the call and after it (6.5.2.2,
    /// 6.5.16).
    #[cycle(call)]
    fn call_kept(&self, stmt: CallStmt, left: u64, at: Active, st: &mut Store) -> Ended
        requires ready { CanRun self.now at st.old }
        ensures left { LeavesAtMost left result }
        ensures keeps { OnGot result (KeepsShape st.old st.new) }
        ensures means { (p : Program) (f : Function) (callable : List Function) (start : ℕ) (on : ℕ → Memory → Outcome Returned) → length callable ≡ at.own
            → AreCoded self.now st.old.frames.items st.old.args.items p callable
            → defined (given_by (seen_in p callable at.frame (memory st.old.mem)) (code_in self.now.text stmt.given))
            (λ values. after_call (meaning_at p callable stmt.function left values (memory st.old.mem)) (λ now done. defined (kept_by (activation_of p f callable at.frame start) (option_map (code_in self.now.text) stmt.target) (memory st.old.mem) done) (on now)))
            ≡ after_kept result (memory st.new.mem) on }
    {
        let before = self.target(stmt.target, at, st);
        if !self.given(stmt.given, at, st) {
            return Ended::Lost;
        }
        if stmt.function >= at.own {
            return Ended::Lost;
        }
        let callee = Active {
            own: stmt.function,
            frame: at.frame + 1,
        };
        match self.call(callee, left, st) {
            Ended::Got { value, left: now } => {
                if self.keep(stmt.target, before, value, at, st) {
                    Ended::Got {
                        value: None,
                        left: now,
                    }
                } else {
                    Ended::Lost
                }
            }
            Ended::More => Ended::More,
            Ended::Lost => Ended::Lost,
        }
    }

    /// The place of a call's target, where it has one.
    fn target(&self, target: Option<Span>, at: Active, st: &mut Store) -> Option<Pointer>
        requires ready { CanRun self.now at st.old }
        ensures keeps { KeepsMemory st.old st.new }
        ensures empty { on_stack st.new.stack ≡ [] }
        ensures means { (p : Program) (callable : List Function) → length callable ≡ at.own → AreCoded self.now st.old.frames.items st.old.args.items p callable
            → IfSome target (λ span. result ≡ located (seen_in p callable at.frame (memory st.old.mem)) (code_in self.now.text span)) }
    {
        self.place(target?, at, st)
    }

    /// The value of a call that has returned is assigned to its target, which is still the place that it was before.
    fn keep(
        &self,
        target: Option<Span>,
        before: Option<Pointer>,
        value: Option<CValue>,
        at: Active,
        st: &mut Store,
    ) -> bool
        requires ready { CanRun self.now at st.old }
        ensures keeps { OnTrue result (KeepsShape st.old st.new) }
        ensures means { (p : Program) (f : Function) (callable : List Function) (start : ℕ) (was : Memory) → length callable ≡ at.own
            → AreCoded self.now st.old.frames.items st.old.args.items p callable
            → IfSome target (λ span. before ≡ located (seen_in p callable at.frame was) (code_in self.now.text span))
            → Comes (kept_by (activation_of p f callable at.frame start) (option_map (code_in self.now.text) target) was (record { memory = memory st.old.mem; value = value })) result (memory st.new.mem) }
    {
        let Some(span) = target else {
            return true;
        };
        let after = self.place(span, at, st);
        let Some(v) = value else {
            return false;
        };
        let Some(p) = agreed(before, after) else {
            return false;
        };
        assign_to(&mut st.mem, p, v)
    }
}
