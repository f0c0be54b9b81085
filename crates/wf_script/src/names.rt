// The names of a script, and what each stands for.

ghost use Rattle.std.specs.Prelude.{◌≡◌, []};
ghost use Rattle.wf_script_rules.specs.Names.{same_thing};
ghost use Rattle.wf_script_rules.specs.Values.{receiver_in, buffer_in, array_in};

use std::alloc::Global;
use std::marker::Model;
use wf_script_rules::words::{demand, is_name};
use wf_script_rules::{Thing, XRule};
use wf_text::NoMemory;

/// A name with what it stands for.
#[derive(Drop)]
pub(crate) struct NameDecl {
    name: Vec<u8>,
    thing: Thing,
}

impl Model for NameDecl {
    ghost use Rattle.wf_script_rules.specs.Names.{Named};

    ghost Value = { Named };

    ghost view = { λ it. record { name = it.name.items; thing = it.thing } };
}

/// Names in the order of declaration: at most 64 receivers, and 64 buffers and byte arrays.
#[derive(Drop)]
pub struct Names {
    items: Vec<NameDecl>,
}

impl Model for Names {
    ghost use Rattle.std.specs.Prelude.{List};
    ghost use Rattle.wf_script_rules.specs.Names.{Named};

    ghost Value = { List Named };

    ghost view = { λ it. it.items.items };
}

fn same_thing(a: Thing, b: Thing) -> bool
    ensures { result ≡ same_thing a b }
{
    match (a, b) {
        (Thing::Receiver(j), Thing::Receiver(k)) => j == k,
        (Thing::Buffer(j), Thing::Buffer(k)) => j == k,
        (Thing::Array(j), Thing::Array(k)) => j == k,
        _ => false,
    }
}

fn receiver_in(thing: Thing) -> Result<u16, XRule>
    ensures { result ≡ receiver_in thing }
{
    match thing {
        Thing::Receiver(k) => Ok(k),
        _ => Err(XRule::X3),
    }
}

fn buffer_in(thing: Thing) -> Result<u16, XRule>
    ensures { result ≡ buffer_in thing }
{
    match thing {
        Thing::Buffer(k) => Ok(k),
        _ => Err(XRule::X3),
    }
}

fn array_in(thing: Thing) -> Result<u16, XRule>
    ensures { result ≡ array_in thing }
{
    match thing {
        Thing::Array(k) => Ok(k),
        _ => Err(XRule::X3),
    }
}

impl Names {
    ghost use Rattle.std.specs.Prelude.{◌≡◌, ◌++◌, ◌∷◌, [], OnOk, bytes_eq, find};
    ghost use Rattle.std.specs.Option.{option_copied};
    ghost use Rattle.wf_script_rules.specs.Names.{thing_named, name_of, same_thing};
    ghost use Rattle.wf_script_rules.specs.Values.{new_name, known, known_receiver, known_buffer, known_array};

    /// No names.
    pub(crate) fn new(alloc: Global) -> Names
        ensures { result ≡ [] }
    {
        Names {
            items: Vec::new(alloc),
        }
    }

    fn find(&self, word: &[u8]) -> Option<&NameDecl>
        ensures { option_copied result ≡ find (λ it. bytes_eq it.name word.now) self.now }
    {
        self.items.iter().find(|it| it.name.as_slice() == word)
    }

    /// What a name stands for.
    pub(crate) fn thing(&self, word: &[u8]) -> Option<Thing>
        ensures { result ≡ thing_named word.now self.now }
    {
        Some(self.find(word)?.thing)
    }

    fn find_thing(&self, thing: Thing) -> Option<&NameDecl>
        ensures { option_copied result ≡ find (λ it. same_thing it.thing thing) self.now }
    {
        self.items.iter().find(|it| same_thing(it.thing, thing))
    }

    /// The name of a thing; no bytes where it has none.
    pub fn name_of(&self, thing: Thing) -> &[u8]
        ensures { result.now ≡ name_of thing self.now }
    {
        match self.find_thing(thing) {
            Some(it) => it.name.as_slice(),
            None => &[],
        }
    }

    /// Whether a line may declare this name: X3 where it is misspelt, or was declared before.
    #[tactic(auto, unfolding(wf_script_rules::specs::Values::new_name))]
    pub(crate) fn new_name(&self, word: &[u8]) -> Result<(), XRule>
        ensures { result ≡ new_name self.now word.now }
    {
        demand(is_name(word) && self.thing(word).is_none(), XRule::X3)
    }

    /// What a known name stands for; X2 where it isn't known.
    #[tactic(auto, unfolding(wf_script_rules::specs::Values::known))]
    pub(crate) fn known(&self, word: &[u8]) -> Result<Thing, XRule>
        ensures { result ≡ known self.now word.now }
    {
        self.thing(word).ok_or(XRule::X2)
    }

    /// The number of a known receiver; X3 where the name is of another kind.
    pub(crate) fn known_receiver(&self, word: &[u8]) -> Result<u16, XRule>
        ensures { result ≡ known_receiver self.now word.now }
    {
        receiver_in(self.known(word)?)
    }

    /// The number of a known buffer.
    pub(crate) fn known_buffer(&self, word: &[u8]) -> Result<u16, XRule>
        ensures { result ≡ known_buffer self.now word.now }
    {
        buffer_in(self.known(word)?)
    }

    /// The number of a known byte array.
    pub(crate) fn known_array(&self, word: &[u8]) -> Result<u16, XRule>
        ensures { result ≡ known_array self.now word.now }
    {
        array_in(self.known(word)?)
    }

    /// Adds a name after the others.
    pub(crate) fn push(&mut self, alloc: Global, word: &[u8], thing: Thing) -> Result<(), NoMemory>
        ensures { OnOk result (self.new ≡ self.old ++ (record { name = word.now; thing = thing }) ∷ []) }
    {
        let name = Vec::from_slice(alloc, word)?;
        self.items.push(NameDecl { name, thing })?;
        Ok(())
    }
}
