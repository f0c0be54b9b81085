// The run of an expression's instructions.

ghost use Rattle.std.specs.Prelude.{◌≡◌, ◌+◌, ◌≤◌, ℕ, List, Option, length};
ghost use Rattle.c_meaning.specs.declared.values.CValue.{CValue as AnyValue};
ghost use Rattle.c_mem.specs.MemoryViews.{memory};
ghost use Rattle.c_step_exprs.specs.Running.{run_from, StopsAt, PutsAtMost};
ghost use Rattle.c_step_exprs.specs.Stacks.{on_stack, most};
ghost use Rattle.c_step_exprs.specs.Values.{placed, is_call};

use crate::acting::act;
use crate::instrs::Instr;
use crate::stack::Stack;
use c_mem::Mem;

/// Where a run of instructions has come to.
#[derive(Clone, Copy)]
pub enum Stop {
    /// All instructions are run.
    End,
    /// The instruction with this number is a call, and its arguments are on the stack.
    Call(usize),
    /// Something isn't defined.
    Undefined,
}

/// Runs instructions from the one with a number on, up to their end or the next call, over memory and the object of a
/// function. The stack has room for one value more for each of them. No memory is taken, and nothing calls itself.
pub fn run(code: &[Instr], from: usize, mem: &Mem, frame: usize, stack: &mut Stack) -> Stop
    requires within { from ≤ length code.now }
    requires room { length (on_stack stack.old) + length code.now ≤ most stack.old + from }
    ensures stops { (called : ℕ → List AnyValue → Option AnyValue)
        → StopsAt (placed frame (memory mem.now) called) code.now (run_from (placed frame (memory mem.now) called) code.now from (on_stack stack.old)) result (on_stack stack.new) }
    ensures puts { PutsAtMost from (length (on_stack stack.old)) result (length (on_stack stack.new)) }
    ensures room { most stack.old ≤ most stack.new }
{
    let mut at = from;
    while at < code.len() {
        let i = code[at];
        if is_call(i) {
            return Stop::Call(at);
        }
        let Some(skip) = act(i, mem, frame, stack) else {
            return Stop::Undefined;
        };
        if skip >= code.len() - at - 1 {
            return Stop::End;
        }
        at += skip + 1;
    }
    Stop::End
}

/// Whether an instruction is a call.
fn is_call(i: Instr) -> bool
    ensures { result ≡ is_call i }
{
    match i {
        Instr::Call { .. } => true,
        Instr::Put(_)
        | Instr::Turn(_)
        | Instr::Join(_)
        | Instr::Test(_, _)
        | Instr::Skip(_)
        | Instr::Stuck => false,
    }
}
