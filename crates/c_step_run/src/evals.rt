// The value of an expression with the calls in it (ISO/IEC 9899:1999, 6.5, 6.5.2.2).

ghost use Rattle.std.specs.Prelude.{◌≡◌, ◌<◌, ◌≤◌, ◌+◌, ◌∷◌, List, Option, length, slice_get, option_map, option_and_then, Some, IfSome};
ghost use Rattle.c_meaning.specs.declared.values.CValue.{CValue as AnyValue};
ghost use Rattle.c_meaning.specs.CTypes.{Function};
ghost use Rattle.c_meaning.specs.CCall.{Program};
ghost use Rattle.c_mem.specs.MemoryViews.{memory};
ghost use Rattle.c_step_exprs.specs.Instrs.{exec, calls, pushed, as_cell};
ghost use Rattle.c_step_exprs.specs.Running.{IsCallAt};
ghost use Rattle.c_step_exprs.specs.Stacks.{on_stack, most};
ghost use Rattle.c_step_text.specs.Flat.{code_in};
ghost use Rattle.c_step_run.specs.declared.code.Func.{Func as AnyFunc};
ghost use Rattle.c_step_run.specs.Coding.{AreCoded, IsInlineAt};
ghost use Rattle.c_step_run.specs.Ready.{CanEval, CanCall, KeepsMemory};
ghost use Rattle.c_step_run.specs.Meaning.{seen_in, Comes, OnTrue, called_by_instr};

use crate::code::{Code, Inline};
use crate::store::{Active, Store, enter_call, leave_call, param_count};
use c_meaning::values::CValue;
use c_step_exprs::{Instr, Stack, Stop, cast, run};
use c_step_text::Span;

/// The call with a number among instructions.
#[tactic(auto, using(crate::proofs::EvalSteps::call_within))]
fn call_at(code: &[Instr], call: usize) -> Instr
    requires { IsCallAt code.now call }
    ensures is { slice_get code.now call ≡ Some result }
    ensures within { call < length code.now }
{
    code[call]
}

/// Puts a value, where there is one.
fn put_given(given: Option<CValue>, stack: &mut Stack) -> bool
    requires { length (on_stack stack.old) < most stack.old }
    ensures means { Comes (pushed given (on_stack stack.old)) result (on_stack stack.new) }
    ensures puts { length (on_stack stack.new) ≤ length (on_stack stack.old) + 1 }
    ensures room { most stack.old ≤ most stack.new }
{
    match given {
        Some(v) => {
            stack.push(v);
            true
        }
        None => false,
    }
}

impl Code {
    /// The value of the function with a number in an expression.
    fn inline_of(&self, k: usize) -> Option<Inline>
        requires { k < length self.now.functions }
        ensures { (f : AnyFunc) → slice_get self.now.functions k ≡ Some f → result ≡ f.inline }
    {
        self.functions[k].inline
    }

    /// Runs the instructions of an expression of the function with a number, whose call's object is the last one. False
    /// where something isn't defined.
    #[cycle(eval)]
    pub(crate) fn eval(&self, span: Span, at: Active, st: &mut Store) -> bool
        requires ready { CanEval self.now at (length (code_in self.now.text span)) st.old }
        ensures keeps { KeepsMemory st.old st.new }
        ensures means { (p : Program) (callable : List Function) → length callable ≡ at.own → AreCoded self.now st.old.frames.items st.old.args.items p callable
            → Comes (exec (seen_in p callable at.frame (memory st.old.mem)) 0 (code_in self.now.text span) (on_stack st.old.stack)) result (on_stack st.new.stack) }
    {
        let code = self.exprs(span);
        let mut from = 0;
        loop {
            match run(code, from, &st.mem, at.frame, &mut st.stack) {
                Stop::End => return true,
                Stop::Undefined => return false,
                Stop::Call(call) => {
                    if !self.call_in(call_at(code, call), at, st) {
                        return false;
                    }
                    from = call + 1;
                }
            }
        }
    }

    /// Calls a function in an expression: its arguments are taken from the stack, and its value is put.
    #[cycle(eval)]
    fn call_in(&self, i: Instr, at: Active, st: &mut Store) -> bool
        requires ready { CanCall self.now at st.old }
        ensures keeps { KeepsMemory st.old st.new }
        ensures puts { OnTrue result (length (on_stack st.new.stack) ≤ length (on_stack st.old.stack) + 1) }
        ensures means { (p : Program) (callable : List Function) → length callable ≡ at.own → AreCoded self.now st.old.frames.items st.old.args.items p callable
            → Comes (called_by_instr (seen_in p callable at.frame (memory st.old.mem)) i (on_stack st.old.stack)) result (on_stack st.new.stack) }
    {
        let Instr::Call { function, count } = i else {
            return false;
        };
        if function >= at.own {
            return false;
        }
        let Some(inline) = self.inline_of(function) else {
            return false;
        };
        self.call_inline(inline, (function, count), at, st)
    }

    /// Calls a function that has a value in an expression, with so many arguments.
    #[cycle(eval)]
    fn call_inline(
        &self,
        inline: Inline,
        callee: (usize, usize),
        at: Active,
        st: &mut Store,
    ) -> bool
        requires ready { CanCall self.now at st.old }
        requires callee { callee.0 < at.own }
        requires inline { IsInlineAt self.now.functions callee.0 inline }
        ensures keeps { KeepsMemory st.old st.new }
        ensures puts { OnTrue result (length (on_stack st.new.stack) ≤ length (on_stack st.old.stack) + 1) }
        ensures means { (p : Program) (callable : List Function) → length callable ≡ at.own → AreCoded self.now st.old.frames.items st.old.args.items p callable
            → Comes (calls (seen_in p callable at.frame (memory st.old.mem)) callee.0 callee.1 (on_stack st.old.stack)) result (on_stack st.new.stack) }
    {
        let (function, count) = callee;
        if count != param_count(&st.args, function) {
            return false;
        }
        if !enter_call(&mut st.args, function, &mut st.mem, &mut st.stack) {
            return false;
        }
        let inner = Active {
            own: function,
            frame: at.frame + 1,
        };
        let given = self.returned(inline, inner, st);
        leave_call(&mut st.args, function, &mut st.mem);
        put_given(given, &mut st.stack)
    }

    /// What a function in an expression returns, whose call's object is the last one. The stack is as before.
    #[cycle(eval)]
    fn returned(&self, inline: Inline, at: Active, st: &mut Store) -> Option<CValue>
        requires ready { CanEval self.now at (length (code_in self.now.text inline.value)) st.old }
        ensures keeps { KeepsMemory st.old st.new }
        ensures stack { length (on_stack st.new.stack) ≤ length (on_stack st.old.stack) }
        ensures means { (p : Program) (callable : List Function) → length callable ≡ at.own → AreCoded self.now st.old.frames.items st.old.args.items p callable → (value : Option AnyValue)
            → exec (seen_in p callable at.frame (memory st.old.mem)) 0 (code_in self.now.text inline.value) (on_stack st.old.stack) ≡ option_map (λ v. v ∷ on_stack st.old.stack) value
            → (result ≡ option_and_then (as_cell inline.ty) value) × IfSome result (λ v. on_stack st.new.stack ≡ on_stack st.old.stack) }
    {
        let height = st.stack.len();
        if !self.eval(inline.value, at, st) {
            st.stack.cut(height);
            return None;
        }
        let v = st.stack.pop();
        st.stack.cut(height);
        cast(inline.ty, v?)
    }
}
