// What statements do to memory (ISO/IEC 9899:1999, 6.5.16, 7.21.2.2, 7.21.6.1).

ghost use Rattle.std.specs.Prelude.{◌≡◌, ℕ, List, Some, length};
ghost use Rattle.c_meaning.specs.CMemory.{stored};
ghost use Rattle.c_meaning.specs.CTypes.{Function};
ghost use Rattle.c_meaning.specs.CStep.{assigned, as_size, moves, zeroes};
ghost use Rattle.c_meaning.specs.CCall.{Program};
ghost use Rattle.c_meaning.specs.Typed.{shape_of};
ghost use Rattle.c_mem.specs.MemoryViews.{memory, HasRoom};
ghost use Rattle.c_step_text.specs.Flat.{code_in};
ghost use Rattle.c_step_text.specs.Acting.{evaluated, located, given_by, moved_by};
ghost use Rattle.c_step_run.specs.Coding.{AreCoded};
ghost use Rattle.c_step_run.specs.Ready.{CanRun, KeepsShape};
ghost use Rattle.c_step_run.specs.Meaning.{seen_in, Comes, OnTrue};

use crate::code::Code;
use crate::store::{Active, Store};
use crate::values::pointer_of;
use c_meaning::values::{CValue, Pointer};
use c_mem::Mem;
use c_step_exprs::{cell_for, convert};
use c_step_text::Span;
use wf_num::CTy;

/// Assigns a value to a place. False where that isn't defined.
#[tactic(auto, using(crate::proofs::Shapes::stores_shape))]
pub(crate) fn assign_to(mem: &mut Mem, p: Pointer, v: CValue) -> bool
    ensures means { Comes (stored (memory mem.old) p v) result (memory mem.new) }
    ensures shape { OnTrue result (shape_of (memory mem.new) ≡ shape_of (memory mem.old)) }
    ensures room { (more : ℕ) → HasRoom mem.old more → HasRoom mem.new more }
{
    let Some((ty, _)) = mem.cell(p) else {
        return false;
    };
    let Some(cell) = cell_for(ty, v) else {
        return false;
    };
    mem.store(p, cell).is_some()
}

/// A number of bytes.
fn size_of(v: Option<CValue>) -> Option<u64>
    ensures { result ≡ as_size v }
{
    match v {
        Some(CValue::Numeric(n)) => Some(convert(CTy::U64, n).bits),
        Some(CValue::Address(_)) | Some(CValue::NullPointer) | None => None,
    }
}

/// `memmove`. False where it isn't defined.
#[tactic(auto, using(crate::proofs::Shapes::moves_shape))]
fn move_cells(mem: &mut Mem, to: Option<Pointer>, from: Option<Pointer>, bytes: Option<u64>) -> bool
    ensures means { Comes (moves (memory mem.old) to from bytes) result (memory mem.new) }
    ensures shape { OnTrue result (shape_of (memory mem.new) ≡ shape_of (memory mem.old)) }
    ensures room { (more : ℕ) → HasRoom mem.old more → HasRoom mem.new more }
{
    match (to, from, bytes) {
        (Some(to), Some(from), Some(bytes)) => mem.move_bytes(to, from, bytes).is_some(),
        (_, _, _) => false,
    }
}

/// `memset` of an object with 0. False where it isn't defined.
#[tactic(auto, using(crate::proofs::Shapes::zeroes_shape))]
fn zero_at(mem: &mut Mem, p: Option<Pointer>) -> bool
    ensures means { Comes (zeroes (memory mem.old) p) result (memory mem.new) }
    ensures shape { OnTrue result (shape_of (memory mem.new) ≡ shape_of (memory mem.old)) }
    ensures room { (more : ℕ) → HasRoom mem.old more → HasRoom mem.new more }
{
    match p {
        Some(p) => p.index == 0 && mem.zero(p.object).is_some(),
        None => false,
    }
}

impl Code {
    /// An assignment (6.5.16).
    pub(crate) fn assign(&self, target: Span, value: Span, at: Active, st: &mut Store) -> bool
        requires ready { CanRun self.now at st.old }
        ensures keeps { OnTrue result (KeepsShape st.old st.new) }
        ensures means { (p : Program) (callable : List Function) → length callable ≡ at.own → AreCoded self.now st.old.frames.items st.old.args.items p callable
            → Comes (assigned (memory st.old.mem) (located (seen_in p callable at.frame (memory st.old.mem)) (code_in self.now.text target)) (evaluated (seen_in p callable at.frame (memory st.old.mem)) (code_in self.now.text value))) result (memory st.new.mem) }
    {
        let Some(p) = self.place(target, at, st) else {
            return false;
        };
        let Some(v) = self.value(value, at, st) else {
            return false;
        };
        assign_to(&mut st.mem, p, v)
    }

    /// `memmove(to, from, bytes)` (7.21.2.2).
    pub(crate) fn move_given(&self, given: Span, at: Active, st: &mut Store) -> bool
        requires ready { CanRun self.now at st.old }
        ensures keeps { OnTrue result (KeepsShape st.old st.new) }
        ensures means { (p : Program) (callable : List Function) → length callable ≡ at.own → AreCoded self.now st.old.frames.items st.old.args.items p callable
            → Comes (moved_by (memory st.old.mem) (given_by (seen_in p callable at.frame (memory st.old.mem)) (code_in self.now.text given))) result (memory st.new.mem) }
    {
        if !self.given(given, at, st) {
            return false;
        }
        let bytes = size_of(st.stack.pop());
        let from = pointer_of(st.stack.pop());
        let to = pointer_of(st.stack.pop());
        if st.stack.pop().is_some() {
            return false;
        }
        move_cells(&mut st.mem, to, from, bytes)
    }

    /// `memset(pointer, 0, sizeof(*pointer))` (7.21.6.1).
    pub(crate) fn zero(&self, pointer: Span, at: Active, st: &mut Store) -> bool
        requires ready { CanRun self.now at st.old }
        ensures keeps { OnTrue result (KeepsShape st.old st.new) }
        ensures means { (p : Program) (callable : List Function) → length callable ≡ at.own → AreCoded self.now st.old.frames.items st.old.args.items p callable
            → Comes (zeroes (memory st.old.mem) (located (seen_in p callable at.frame (memory st.old.mem)) (code_in self.now.text pointer))) result (memory st.new.mem) }
    {
        let p = self.place(pointer, at, st);
        zero_at(&mut st.mem, p)
    }
}
