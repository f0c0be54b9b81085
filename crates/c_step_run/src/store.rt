// What changes while a machine runs.

ghost use Rattle.std.specs.Prelude.{◌≡◌, ◌+◌, ◌++◌, ◌∷◌, [], ℕ, not, true, length, Some, slice_get, slice_set, MatchBool};
ghost use Rattle.c_meaning.specs.CMemory.{Memory, Object as ObjectOfMemory};
ghost use Rattle.c_mem.specs.MemoryViews.{memory, HasRoom};
ghost use Rattle.c_step_exprs.specs.Stacks.{on_stack, most};
ghost use Rattle.c_step_frames.specs.Frames.{FrameView, Enters};
ghost use Rattle.c_step_run.specs.Resting.{Rests, EndsInCall};

use c_mem::Mem;
use c_step_exprs::Stack;
use c_step_frames::Frame;

/// A call that is run.
#[derive(Clone, Copy)]
pub struct Active {
    /// The number of its function.
    pub own: usize,
    /// The object of its parameters and locals.
    pub frame: usize,
}

/// Memory, the stack, and what calls are made of.
pub struct Store {
    /// The objects.
    pub mem: Mem,
    /// The values of expressions.
    pub stack: Stack,
    /// What the calls of functions are made of, by the functions' numbers.
    pub frames: Vec<Frame>,
    /// The same of calls in expressions, which have no locals.
    pub args: Vec<Frame>,
}

impl Drop for Store {
    fn drop(self) {
        let Store {
            mem: _,
            stack: _,
            frames: _,
            args: _,
        } = self;
    }
}

/// How many parameters the function with a number has.
pub(crate) fn param_count(frames: &Vec<Frame>, k: usize) -> usize
    requires { Rests frames.now.items k }
    ensures { (f : FrameView) → slice_get frames.now.items k ≡ Some f → result ≡ length f.params }
{
    frames[k].params()
}

/// The object of a call of the function with a number comes to stand after the others.
pub(crate) fn enter_call(
    frames: &mut Vec<Frame>,
    k: usize,
    mem: &mut Mem,
    stack: &mut Stack,
) -> bool
    requires rests { Rests frames.old.items k }
    requires room { HasRoom mem.old 1 }
    ensures enters { (f : FrameView) → slice_get frames.old.items k ≡ Some f → Enters f (memory mem.old) (on_stack stack.old) result (memory mem.new) (on_stack stack.new) }
    ensures frames { (f : FrameView) → slice_get frames.old.items k ≡ Some f → frames.new.items ≡ slice_set frames.old.items k (record f { rests = not result }) }
    ensures stays { MatchBool result (Unit {0}) (mem.new ≡ mem.old) }
    ensures room { (more : ℕ) → HasRoom mem.old (more + 1) → HasRoom mem.new more }
    ensures stack { most stack.new ≡ most stack.old }
{
    frames[k].enter(mem, stack)
}

/// The object of a call of the function with a number is taken out of memory.
pub(crate) fn leave_call(frames: &mut Vec<Frame>, k: usize, mem: &mut Mem)
    requires { EndsInCall frames.old.items k (memory mem.old) }
    ensures memory { (front : Memory) (last : ObjectOfMemory) → memory mem.old ≡ front ++ last ∷ [] → memory mem.new ≡ front }
    ensures frames { (f : FrameView) → slice_get frames.old.items k ≡ Some f → frames.new.items ≡ slice_set frames.old.items k (record f { rests = true }) }
    ensures room { (more : ℕ) → HasRoom mem.old more → HasRoom mem.new (more + 1) }
{
    frames[k].leave(mem);
}
