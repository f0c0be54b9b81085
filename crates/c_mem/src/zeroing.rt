// `memset` of a whole object with 0 (ISO/IEC 9899:1999, 7.21.6.1).

ghost use Rattle.std.specs.Prelude.{◌≡◌, ◌+◌, ◌<◌, ◌≤◌, ◌++◌, ℕ, List, length, slice_get, Some, true, [], ◌∷◌};
ghost use Rattle.c_meaning.specs.CMemory.{zeroed, parts_of, zeroed_from, Field as FieldOfMemory};
ghost use Rattle.c_mem.specs.Leaving.{Leaves};
ghost use Rattle.c_mem.specs.Marking.{Marked, MarksOne};
ghost use Rattle.c_mem.specs.MemoryViews.{memory, HasRoom};

use crate::fields::Field;
use crate::mem::Mem;
use crate::objects::Object;

impl Mem {
    /// Makes an object, and every object inside it, all zero: numbers become 0, flags false and pointers null
    /// (7.21.6.1). None, and the memory is as before, where there is no such object.
    pub fn zero(&mut self, object: usize) -> Option<()>
        ensures objects { Leaves (zeroed (memory self.old) object) (memory self.old) result (memory self.new) }
        ensures room { (more : ℕ) → HasRoom self.old more → HasRoom self.new more }
    {
        if object >= self.objects.len() {
            return None;
        }
        self.marks[object] = true;
        zero_marked(
            self.objects.as_mut_slice(),
            self.marks.as_mut_slice(),
            object,
        );
        Some(())
    }
}

/// Makes the objects zero that are marked, in order, where one of them marks those inside it. `first` is marked, and so
/// is none after it.
#[tactic(auto, using(crate::proofs::Passing::starts, crate::proofs::Passing::ends, crate::proofs::Passing::passes, crate::proofs::Passing::zeroes_one))]
fn zero_marked(objects: &mut [Object], marks: &mut [bool], first: usize)
    requires sizes { length marks.old ≡ length objects.old }
    requires first { slice_get marks.old first ≡ Some true }
    ensures { objects.new ≡ zeroed_from 0 (first ∷ []) objects.old }
{
    let mut last = first;
    let mut at = first;
    while at <= last {
        if marks[at] {
            last = objects[at].mark_parts(marks, at, last);
            objects[at].zero();
        }
        at += 1;
    }
}

impl Object {
    /// Marks the objects inside that have greater numbers than this one. Marks count up to `last`; the answer is the new
    /// one.
    fn mark_parts(&self, marks: &mut [bool], own: usize, last: usize) -> usize
        requires own { own ≤ last }
        requires last { last < length marks.old }
        ensures below { result < length marks.new }
        ensures least { last ≤ result }
        ensures size { length marks.new ≡ length marks.old }
        ensures marked { (wanted : List ℕ) → Marked marks.old (own + 1) last wanted → Marked marks.new (own + 1) result (parts_of self.now ++ wanted) }
    {
        let mut most = last;
        for field in &self.fields {
            most = field.mark_part(marks, own, most);
        }
        most
    }
}

impl Field {
    /// Marks the object inside, where it has a greater number than the one that has the field.
    #[tactic(auto, using(crate::proofs::Passing::no_part, crate::proofs::Passing::part_beyond, crate::proofs::Passing::part_marked))]
    fn mark_part(&self, marks: &mut [bool], own: usize, last: usize) -> usize
        requires own { own ≤ last }
        requires last { last < length marks.old }
        ensures below { result < length marks.new }
        ensures least { last ≤ result }
        ensures size { length marks.new ≡ length marks.old }
        ensures marked { (fields : List FieldOfMemory) (wanted : List ℕ) → Marked marks.old (own + 1) last (parts_of fields ++ wanted) → Marked marks.new (own + 1) result (parts_of (fields ++ self.now ∷ []) ++ wanted) }
    {
        let Some(part) = self.object() else {
            return last;
        };
        if part <= own {
            return last;
        }
        if part >= marks.len() {
            return last;
        }
        mark(marks, part, last)
    }
}

/// Marks a number. Marks count up to `last`; the answer is the new one.
fn mark(marks: &mut [bool], number: usize, last: usize) -> usize
    requires number { number < length marks.old }
    requires last { last < length marks.old }
    ensures { MarksOne marks.old number last marks.new result }
{
    let mut at = last + 1;
    while at <= number {
        marks[at] = false;
        at += 1;
    }
    marks[number] = true;
    if last < number { number } else { last }
}
