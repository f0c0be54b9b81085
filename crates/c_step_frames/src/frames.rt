// The object of a function's parameters and locals.

ghost use Rattle.std.specs.Prelude.{◌≡◌, ◌+◌, ◌++◌, ◌∷◌, [], ℕ, true, not, length, map, IfOk, OnOk, MatchBool};
ghost use Rattle.c_meaning.specs.CMemory.{Memory, Object as ObjectOfMemory};
ghost use Rattle.c_mem.specs.FieldParts.{declared_field, unset_field, AreSmall};
ghost use Rattle.c_mem.specs.MemoryViews.{memory, HasRoom};
ghost use Rattle.c_step_exprs.specs.Stacks.{on_stack, most};
ghost use Rattle.c_step_frames.specs.Frames.{Enters, EndsWith, types_of, unset_cells};

use crate::passing::pass;
use c_meaning::cells::CellType;
use c_mem::{FieldDecl, Mem, ObjDecl, Object};
use c_step_exprs::Stack;
use std::alloc::Global;
use std::marker::Model;
use wf_text::NoMemory;

/// What the calls of a function are made of. Its object is kept here while the function isn't called.
#[derive(Drop)]
pub struct Frame {
    params: Vec<CellType>,
    locals: Vec<CellType>,
    object: Option<Object>,
}

impl Model for Frame {
    ghost use Rattle.std.specs.Prelude.{◌≡◌, ◌++◌, is_some, IfSome};
    ghost use Rattle.c_step_frames.specs.Frames.{FrameView, unset_cells};

    ghost Value = { FrameView };

    ghost view = { λ f. record { params = f.params.items; locals = f.locals.items; rests = is_some f.object } };

    ghost invariant = { λ f. IfSome f.object (λ o. o ≡ unset_cells (f.params.items ++ f.locals.items)) };
}

/// Adds a field of one cell for each type.
fn declare(fields: &mut Vec<FieldDecl>, types: &[CellType]) -> Result<(), NoMemory>
    ensures { OnOk result (map declared_field fields.new.items ≡ map declared_field fields.old.items ++ unset_cells types.now) }
{
    for ty in types {
        fields.push(FieldDecl::Cells { ty: *ty, count: 1 })?;
    }
    Ok(())
}

/// An object once it is unset. No field has more than one byte.
fn rested(object: Object) -> Object
    requires { AreSmall object }
    ensures { result ≡ map unset_field object }
{
    let mut it = object;
    it.unset();
    it
}

impl Frame {
    /// The frame of a function that isn't called, by the types of the cells of its parameters and locals.
    pub fn new(
        alloc: Global,
        params: Vec<CellType>,
        locals: Vec<CellType>,
    ) -> Result<Frame, NoMemory>
        ensures { IfOk result (λ frame. frame ≡ record { params = params.items; locals = locals.items; rests = true }) }
    {
        let mut fields = Vec::new(alloc);
        declare(&mut fields, params.as_slice())?;
        declare(&mut fields, locals.as_slice())?;
        let object = Object::new(alloc, &ObjDecl { fields })?;
        Ok(Frame {
            params,
            locals,
            object: Some(object),
        })
    }

    /// How many parameters there are.
    pub fn params(&self) -> usize
        ensures { result ≡ length self.now.params }
    {
        self.params.len()
    }

    /// The object of a call comes to stand after the others, with the arguments that are on top of the stack. False, and
    /// memory is as before, where there are too few or one has no value of its parameter's type.
    pub fn enter(&mut self, mem: &mut Mem, stack: &mut Stack) -> bool
        requires rests { self.old.rests ≡ true }
        requires room { HasRoom mem.old 1 }
        ensures enters { Enters self.old (memory mem.old) (on_stack stack.old) result (memory mem.new) (on_stack stack.new) }
        ensures frame { self.new ≡ record self.old { rests = not result } }
        ensures stays { MatchBool result (Unit {0}) (mem.new ≡ mem.old) }
        ensures room { (more : ℕ) → HasRoom mem.old (more + 1) → HasRoom mem.new more }
        ensures stack { most stack.new ≡ most stack.old }
    {
        let Some(mut object) = self.object.take() else {
            return false;
        };
        if pass(self.params.as_slice(), &mut object, stack).is_none() {
            self.object = Some(rested(object));
            return false;
        }
        mem.enter(object);
        true
    }

    /// The object of a call, the last one of memory, is taken out of it and unset.
    pub fn leave(&mut self, mem: &mut Mem)
        requires { EndsWith (types_of self.old) (memory mem.old) }
        ensures memory { (front : Memory) (last : ObjectOfMemory) → memory mem.old ≡ front ++ last ∷ [] → memory mem.new ≡ front }
        ensures frame { self.new ≡ record self.old { rests = true } }
        ensures room { (more : ℕ) → HasRoom mem.old more → HasRoom mem.new (more + 1) }
    {
        let Some(last) = mem.leave() else {
            return;
        };
        self.object = Some(rested(last));
    }
}
