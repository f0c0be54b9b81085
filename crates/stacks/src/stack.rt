// A stack, which contracts see as the list of its items, the topmost first.

ghost use Rattle.std.specs.Prelude.{◌≡◌, ◌++◌, ◌<◌, ◌≤◌, List, [], ◌∷◌, Some, length, slice_get, reverse, vec_len, vec_capacity, ◌+◌, IfSome, IfNone, OnOk, OnErr};

use std::alloc::Global;
use std::marker::Model;
use wf_text::NoMemory;

/// A stack.
#[derive(Drop)]
pub struct Stack<T> {
    /// The items, the topmost at the end.
    items: Vec<T>,
}

impl<T> Model for Stack<T> {
    ghost use Rattle.std.specs.Prelude.{List, reverse};

    ghost Value = { List T };

    ghost view = { λ s. reverse s.items.items };
}

impl<T: Drop> Stack<T> {
    /// An empty stack.
    pub fn new(alloc: Global) -> Self
        ensures { result ≡ [] }
    {
        Stack {
            items: Vec::new(alloc),
        }
    }

    /// Puts `item` on the top. After `NoMemory` the stack is as before.
    #[inline]
    pub fn push(&mut self, item: T) -> Result<(), NoMemory>
        ensures ok { OnOk result (self.new ≡ item ∷ self.old) }
        ensures err { OnErr result (self.new ≡ self.old) }
    {
        self.items.push(item)?;
        Ok(())
    }

    /// Takes the topmost item. None where there is none.
    pub fn pop(&mut self) -> Option<T>
        ensures some { IfSome result (λ item. self.old ≡ item ∷ self.new) }
        ensures none { IfNone result (self.old ≡ [] × (self.new ≡ [])) }
    {
        self.items.pop()
    }

    /// The item so far below the top, 0 at the top. None where there are fewer items.
    pub fn get(&self, depth: usize) -> Option<&T>
        ensures some { IfSome result (λ item. slice_get self.now depth ≡ Some item.now) }
        ensures none { IfNone result (length self.now ≤ depth) }
    {
        if depth < self.items.len() {
            Some(self.at(depth))
        } else {
            None
        }
    }

    /// The item so far below the top, 0 at the top.
    pub fn at(&self, depth: usize) -> &T
        requires { depth < length self.now }
        ensures { slice_get self.now depth ≡ Some result.now }
    {
        &self.items[self.items.len() - 1 - depth]
    }

    /// How many items there are.
    pub fn len(&self) -> usize
        ensures { result ≡ length self.now }
    {
        self.items.len()
    }

    /// Takes all items off.
    pub fn clear(&mut self)
        ensures { self.new ≡ [] }
    {
        self.items.clear();
    }
}

impl<T: Copy + Drop> Stack<T> {
    /// Puts the items on the top, the first of them topmost. After `NoMemory` some of the last of them are on it.
    pub fn push_all(&mut self, items: &[T]) -> Result<(), NoMemory>
        ensures { OnOk result (self.new ≡ items.now ++ self.old) }
    {
        self.items.reserve(items.len())?;
        push_back(&mut self.items, items);
        Ok(())
    }
}

// Adds the items at the end, the last of them first.
fn push_back<T: Copy + Drop>(list: &mut Vec<T>, items: &[T])
    requires room { vec_len list.old + length items.now ≤ vec_capacity list.old }
    ensures { list.new.items ≡ list.old.items ++ reverse items.now }
{
    let mut left = items.len();
    while 0 < left {
        left -= 1;
        list.push_reserved(items[left]);
    }
}
