// The stack of values.

ghost use Rattle.std.specs.Prelude.{◌≡◌, ◌<◌, ◌≤◌, ◌-◌, [], ◌∷◌, length, drop, slice_get, IfOk};
ghost use Rattle.c_step_exprs.specs.Stacks.{on_stack, most};

use c_meaning::values::CValue;
use std::alloc::Global;
use wf_text::NoMemory;

/// A stack of values with room for a number of them. Only `reserve` takes memory.
#[derive(Drop)]
pub struct Stack {
    values: Vec<CValue>,
}

impl Stack {
    /// An empty stack with room for at least so many values.
    pub fn reserve(alloc: Global, count: usize) -> Result<Stack, NoMemory>
        ensures empty { IfOk result (λ stack. on_stack stack ≡ []) }
        ensures room { IfOk result (λ stack. count ≤ most stack) }
    {
        let values = Vec::with_capacity(alloc, count)?;
        Ok(Stack { values })
    }

    /// Puts a value on top.
    #[tactic(auto, using(crate::proofs::Stacks::put_on_top, crate::proofs::Stacks::stack_length))]
    pub fn push(&mut self, v: CValue)
        requires { length (on_stack self.old) < most self.old }
        ensures values { on_stack self.new ≡ v ∷ on_stack self.old }
        ensures room { most self.old ≤ most self.new }
    {
        let _ = self.values.push(v);
    }

    /// Takes the value on top, where there is one.
    pub fn pop(&mut self) -> Option<CValue>
        ensures top { result ≡ slice_get (on_stack self.old) 0 }
        ensures rest { on_stack self.new ≡ drop 1 (on_stack self.old) }
        ensures room { most self.new ≡ most self.old }
    {
        self.values.pop()
    }

    /// How many values there are.
    #[tactic(auto, using(crate::proofs::Stacks::stack_length))]
    pub fn len(&self) -> usize
        ensures { result ≡ length (on_stack self.now) }
    {
        self.values.len()
    }

    /// Takes the values on top, up to where so many are left.
    #[tactic(auto, using(crate::proofs::Stacks::lowest, crate::proofs::Stacks::stack_length))]
    pub fn cut(&mut self, count: usize)
        ensures values { on_stack self.new ≡ drop (length (on_stack self.old) - count) (on_stack self.old) }
        ensures room { most self.new ≡ most self.old }
    {
        self.values.truncate(count);
    }

    /// Takes all values.
    pub fn clear(&mut self)
        ensures empty { on_stack self.new ≡ [] }
        ensures room { most self.new ≡ most self.old }
    {
        self.values.clear();
    }
}
