// The values of expressions in a statement (ISO/IEC 9899:1999, 6.5): the stack is empty before and after.

ghost use Rattle.std.specs.Prelude.{◌≡◌, [], List, length};
ghost use Rattle.c_meaning.specs.CTypes.{Function};
ghost use Rattle.c_meaning.specs.CExprs.{pointed_place};
ghost use Rattle.c_meaning.specs.CCall.{Program};
ghost use Rattle.c_mem.specs.MemoryViews.{memory};
ghost use Rattle.c_step_exprs.specs.Stacks.{on_stack};
ghost use Rattle.c_step_text.specs.Flat.{code_in};
ghost use Rattle.c_step_text.specs.Acting.{evaluated, located, given_by};
ghost use Rattle.c_step_run.specs.Coding.{AreCoded};
ghost use Rattle.c_step_run.specs.Ready.{CanRun, KeepsMemory};
ghost use Rattle.c_step_run.specs.Meaning.{seen_in, Gives};

use crate::code::Code;
use crate::store::{Active, Store};
use c_meaning::values::{CValue, Pointer};
use c_step_text::Span;

impl Code {
    /// The value of an expression of the function with a number.
    pub(crate) fn value(&self, span: Span, at: Active, st: &mut Store) -> Option<CValue>
        requires ready { CanRun self.now at st.old }
        ensures keeps { KeepsMemory st.old st.new }
        ensures empty { on_stack st.new.stack ≡ [] }
        ensures means { (p : Program) (callable : List Function) → length callable ≡ at.own → AreCoded self.now st.old.frames.items st.old.args.items p callable
            → result ≡ evaluated (seen_in p callable at.frame (memory st.old.mem)) (code_in self.now.text span) }
    {
        let defined = self.eval(span, at, st);
        let top = st.stack.pop();
        st.stack.clear();
        if defined { top } else { None }
    }

    /// The place that an expression points to; none for a null pointer.
    pub(crate) fn place(&self, span: Span, at: Active, st: &mut Store) -> Option<Pointer>
        requires ready { CanRun self.now at st.old }
        ensures keeps { KeepsMemory st.old st.new }
        ensures empty { on_stack st.new.stack ≡ [] }
        ensures means { (p : Program) (callable : List Function) → length callable ≡ at.own → AreCoded self.now st.old.frames.items st.old.args.items p callable
            → result ≡ located (seen_in p callable at.frame (memory st.old.mem)) (code_in self.now.text span) }
    {
        pointer_of(self.value(span, at, st))
    }

    /// Puts the arguments of a call on the stack. False where one isn't defined.
    pub(crate) fn given(&self, span: Span, at: Active, st: &mut Store) -> bool
        requires ready { CanRun self.now at st.old }
        ensures keeps { KeepsMemory st.old st.new }
        ensures means { (p : Program) (callable : List Function) → length callable ≡ at.own → AreCoded self.now st.old.frames.items st.old.args.items p callable
            → Gives (given_by (seen_in p callable at.frame (memory st.old.mem)) (code_in self.now.text span)) result (on_stack st.new.stack) }
    {
        self.eval(span, at, st)
    }
}

/// The place that a value points to.
pub(crate) fn pointer_of(v: Option<CValue>) -> Option<Pointer>
    ensures { result ≡ pointed_place v }
{
    match v {
        Some(CValue::Address(p)) => Some(p),
        Some(CValue::Numeric(_)) | Some(CValue::NullPointer) | None => None,
    }
}
