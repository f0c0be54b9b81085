// The slots of a list of facts with their sets.

ghost use Rattle.std.specs.Prelude.{◌≡◌, ◌≤◌, ◌<◌, length, slice_get, true, [], IfOk, Some};
ghost use Rattle.wf_ast.specs.declared.typed_nodes.TypedNodes.{TypedNodes};
ghost use Rattle.wf_facts.specs.IndexedFacts.{AreOver, IsNamedInSets, field_set as set_of_field, has_set as thing_has_set, set_number as number_of_set, set_of};

use std::alloc::Global;
use std::marker::Model;
use wf_ast::{FieldId, Thing};
use wf_facts_exprs::{Fact, FactSet, Sets};
use wf_text::NoMemory;

/// At most 512 facts in order, and beside them sets: one for each local, and one each for `This`, `Args`, `Element` and
/// `SliceLocals`, with the facts that mention it; 128 that fields share, with those that mention one of them; and one for
/// each head, with the facts that have it.
#[derive(Drop)]
pub(crate) struct Indexed {
    pub list: Vec<Fact>,
    pub sets: Sets,
    pub fields: Sets,
    pub heads: Sets,
}

impl Model for Indexed {
    ghost use Rattle.std.specs.Prelude.{vec_capacity, length};
    ghost use Rattle.wf_facts.specs.IndexedFacts.{Slots, HasRoom};

    ghost Value = { Slots };

    ghost view = { λ f. record { list = f.list.items; sets = f.sets; fields = f.fields; heads = f.heads } };

    ghost invariant = { λ f. HasRoom (length f.list.items) (vec_capacity f.list) };
}

impl Indexed {
    /// The empty list, with room for 512 facts.
    pub(crate) fn new(alloc: Global) -> Result<Indexed, NoMemory>
        ensures empty { IfOk result (λ slots. slots.list ≡ []) }
        ensures over { IfOk result (λ slots. (nodes : TypedNodes) → AreOver nodes slots) }
    {
        let list = Vec::with_capacity(alloc, 512)?;
        let sets = Sets::new(alloc)?;
        let fields = Sets::new(alloc)?;
        let heads = Sets::new(alloc)?;
        Ok(Indexed {
            list,
            sets,
            fields,
            heads,
        })
    }

    /// Lets go of all facts, and keeps their room.
    pub(crate) fn clear(&mut self)
        ensures empty { self.new.list ≡ [] }
        ensures over { (nodes : TypedNodes) → AreOver nodes self.new }
    {
        self.list.clear();
        self.sets.clear();
        self.fields.clear();
        self.heads.clear();
    }

    /// How many slots there are.
    pub(crate) fn len(&self) -> usize
        ensures value { result ≡ length self.now.list }
        ensures few { result ≤ 512 }
    {
        self.list.len()
    }

    /// The fact in a slot.
    pub(crate) fn at(&self, slot: usize) -> Fact
        requires { slot < length self.now.list }
        ensures { slice_get self.now.list slot ≡ Some result }
    {
        self.list[slot]
    }

    /// The set of a thing.
    pub(crate) fn set(&self, x: Thing) -> &FactSet
        requires { thing_has_set x ≡ true }
        ensures { result.now.words ≡ set_of self.now x }
    {
        self.sets.at(set_number(x))
    }
}

// The number of the set that a field shares.
pub(crate) fn field_set(x: FieldId) -> usize
    ensures number { result ≡ set_of_field x }
    ensures few { result < 128 }
{
    x.0 as usize % 128
}

// Whether a thing has a set.
pub(crate) fn has_set(x: Thing) -> bool
    requires { IsNamedInSets x }
    ensures { result ≡ thing_has_set x }
{
    !matches!(x, Thing::Field(_) | Thing::Arg(_))
}

// The number of a thing's set.
pub(crate) fn set_number(x: Thing) -> usize
    requires { thing_has_set x ≡ true }
    ensures { result ≡ number_of_set x }
{
    match x {
        Thing::This => 0,
        Thing::Args => 1,
        Thing::Element => 2,
        Thing::SliceLocals => 3,
        Thing::Local(n) => 4 + n.0 as usize,
        _ => unreachable!(),
    }
}
