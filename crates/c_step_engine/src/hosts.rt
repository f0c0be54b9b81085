// Calls by a host: of a function of the text, by its number (ISO/IEC 9899:1999, 5.1.2).

ghost use Rattle.std.specs.Prelude.{◌≡◌, ℕ, ◌≤◌, [], List, Some, length, reverse};
ghost use Rattle.c_meaning.specs.CCall.{Program, host_call};
ghost use Rattle.c_mem.specs.MemoryViews.{memory};
ghost use Rattle.c_step_exprs.specs.Resolving.{function_number};
ghost use Rattle.c_step_exprs.specs.Stacks.{on_stack, most};
ghost use Rattle.c_step_run.specs.Coding.{AreCoded};
ghost use Rattle.c_step_run.specs.Meaning.{OnGot, outcome_of};
ghost use Rattle.c_step_run.specs.Ready.{CanEnter, KeepsShape};

use c_meaning::values::CValue;
use c_step_exprs::Stack;
use c_step_run::{Active, Code, Ended, Store};

/// Puts values on an empty stack, the last one on top.
fn put_all(given: &[CValue], stack: &mut Stack)
    requires empty { on_stack stack.old ≡ [] }
    requires room { length given.now ≤ most stack.old }
    ensures values { on_stack stack.new ≡ reverse given.now }
    ensures room { most stack.old ≤ most stack.new }
{
    for v in given {
        stack.push(*v);
    }
}

/// Calls the function with a number with these arguments, within so many turns. The call's object is gone when it has
/// returned.
pub fn call_by_host(code: &Code, at: Active, given: &[CValue], turns: u64, st: &mut Store) -> Ended
    requires ready { CanEnter code.now at st.old }
    requires empty { on_stack st.old.stack ≡ [] }
    requires room { length given.now ≤ most st.old.stack }
    ensures keeps { OnGot result (KeepsShape st.old st.new) }
    ensures means { (p : Program) (name : List ℕ) → function_number p.functions name ≡ Some at.own → AreCoded code.now st.old.frames.items st.old.args.items p p.functions
        → host_call p name turns given.now (memory st.old.mem) ≡ outcome_of result (memory st.new.mem) }
{
    put_all(given, &mut st.stack);
    code.call(at, turns, st)
}
