// What the lines of a script have declared, and the next line judged by it.

ghost use Rattle.std.specs.Prelude.{◌≡◌};
ghost use Rattle.wf_script_rules.specs.Lines.{shown};

use crate::commands::Command;
use crate::names::Names;
use crate::values::{args_of, known_method, known_struct, parts_at};
use std::alloc::Global;
use std::marker::Model;
use wf_bufs::{BoundedCall, ByteArray, ByteArrays, MethodDecl, PublicSurface, ReceiverDecl};
use wf_script_rules::words::{bytes_spelt, demand, number_up_to, verb_of};
use wf_script_rules::{LineFault, Thing, Verb, Words, XRule};
use wf_text::NoMemory;

/// What was declared, and the turns that later calls and inits get. `stored` tells how many bytes all buffers and
/// byte arrays have together.
pub struct Declared {
    names: Names,
    pub(crate) receivers: Vec<ReceiverDecl>,
    pub(crate) sizes: Vec<u32>,
    pub(crate) arrays: ByteArrays,
    stored: u64,
    turns: u64,
}

impl Drop for Declared {
    fn drop(self) {
        let Declared {
            names: _,
            receivers: _,
            sizes: _,
            arrays: _,
            stored: _,
            turns: _,
        } = self;
    }
}

impl Model for Declared {
    ghost use Rattle.std.specs.Prelude.{map};
    ghost use Rattle.wf_bufs.specs.SurfaceViews.{receiver_of};
    ghost use Rattle.wf_script_rules.specs.Names.{Declared as Known};

    ghost Value = { Known };

    ghost view = { λ it. record { names = it.names; receivers = map receiver_of it.receivers.items; sizes = it.sizes.items; arrays = it.arrays; stored = it.stored; turns = it.turns } };
}

/// What a call is of: a receiver, and a public method of its struct.
#[derive(Clone, Copy)]
struct Target<'s> {
    receiver: u16,
    method: &'s MethodDecl,
}

fn shown(thing: Thing) -> Result<Thing, XRule>
    ensures { result ≡ shown thing }
{
    match thing {
        Thing::Receiver(_) => Err(XRule::X3),
        Thing::Buffer(k) => Ok(Thing::Buffer(k)),
        Thing::Array(k) => Ok(Thing::Array(k)),
    }
}

impl Declared {
    ghost use Rattle.std.specs.Prelude.{◌≡◌, ◌+◌, ◌<◌, ◌≤◌, length, nat_lt, slice_get, IfOk, OnOk};
    ghost use Rattle.std.specs.Option.{option_map};
    ghost use Rattle.wf_bufs.specs.SurfaceViews.{receiver_of};
    ghost use Rattle.wf_script_rules.specs.declared.rules.XRule.TheVariants.{X2, X4};
    ghost use Rattle.wf_script_rules.specs.Words.{demand};
    ghost use Rattle.wf_script_rules.specs.declared.rules.Thing.TheVariants as thing;
    ghost use Rattle.wf_script_rules.specs.Names.{nothing_declared, stores};
    ghost use Rattle.wf_script_rules.specs.Values.{target_of};
    ghost use Rattle.wf_script_rules.specs.Lines.{with_receiver, with_buffer, with_array, new_receiver, receiver_words, receiver_line, new_store, fits_store, buffer_size, buffer_words, buffer_line, array_bytes, array_words, array_line, init_line, named_buffer, put_line, only_buffer, show_line, turns_line, call_line, line_by, line_of};
    ghost use Rattle.wf_script_rules.specs.Answers.{Answers, Gives, GivesBefore};
    ghost use Rattle.wf_script.specs.Views.{Reads, Judges, Acts};
    ghost use Rattle.wf_script.specs.Targets.{target_in};

    /// What is declared before the first line.
    pub(crate) fn new(alloc: Global) -> Declared
        ensures { result ≡ nothing_declared }
    {
        Declared {
            names: Names::new(alloc),
            receivers: Vec::new(alloc),
            sizes: Vec::new(alloc),
            arrays: ByteArrays::new(alloc),
            stored: 0,
            turns: 1_000_000,
        }
    }

    fn receiver_count(&self) -> usize
        ensures { result ≡ length self.now.receivers }
    {
        self.receivers.len()
    }

    fn store_room(&self) -> Result<(), XRule>
        ensures read { result ≡ demand (nat_lt (stores self.now) 64) X4 }
        ensures room { OnOk result (stores self.now < 64) }
    {
        demand(
            self.sizes.len().saturating_add(self.arrays.len()) < 64,
            XRule::X4,
        )
    }

    fn fits_store(&self, count: u64) -> Result<(), XRule>
        ensures read { result ≡ fits_store self.now count }
        ensures fits { OnOk result (self.now.stored + count ≤ 67108864) }
    {
        demand(self.stored.saturating_add(count) <= 67_108_864, XRule::X4)
    }

    /// The size of buffer `k`.
    pub fn size(&self, k: u16) -> Option<u32>
        ensures { result ≡ slice_get self.now.sizes k }
    {
        self.sizes.get(k as usize).copied()
    }

    /// The length of byte array `k`.
    pub fn array_len(&self, k: u16) -> Option<usize>
        ensures { result ≡ option_map (λ array. length array) (slice_get self.now.arrays k) }
    {
        if (k as usize) < self.arrays.len() {
            Some(self.arrays.at(k as usize).bytes().len())
        } else {
            None
        }
    }

    /// Every name that was declared.
    pub fn names(&self) -> &Names
        ensures { result.now ≡ self.now.names }
    {
        &self.names
    }

    /// Receiver `k`.
    pub fn receiver(&self, k: u16) -> Option<ReceiverDecl>
        ensures { option_map receiver_of result ≡ slice_get self.now.receivers k }
    {
        self.receivers.get(k as usize).copied()
    }

    #[tactic(auto, unfolding(wf_script_rules::specs::Values::target_of))]
    fn target_of<'s>(&self, surface: &'s PublicSurface, word: &[u8]) -> Result<Target<'s>, XRule>
        ensures { Answers target_in result (target_of surface.now self.now word.now) }
    {
        let (name, method) = parts_at(b'.', word)?;
        let receiver = self.names.known_receiver(name)?;
        let Some(decl) = self.receiver(receiver) else {
            return Err(XRule::X2);
        };
        let method = known_method(surface, decl, method)?;
        Ok(Target { receiver, method })
    }

    #[tactic(auto, unfolding(wf_script_rules::specs::Lines::new_receiver))]
    fn new_receiver<'w>(&self, words: &mut Words<'w>) -> Result<&'w [u8], XRule>
        ensures read { GivesBefore (λ word. word.now) result words.new (new_receiver self.now words.old) }
        ensures room { OnOk result (length self.now.receivers < 64) }
    {
        let name = words.next()?;
        self.names.new_name(name)?;
        demand(self.receiver_count() < 64, XRule::X4)?;
        Ok(name)
    }

    #[tactic(auto, unfolding(wf_script_rules::specs::Lines::receiver_words))]
    fn receiver_words<'w>(
        &self,
        null: bool,
        surface: &PublicSurface,
        words: &mut Words<'w>,
    ) -> Result<(&'w [u8], ReceiverDecl), XRule>
        ensures read { Answers (λ one. (one.0.now, receiver_of one.1)) result (receiver_words null surface.now self.now words.old) }
        ensures room { OnOk result (length self.now.receivers < 64) }
    {
        let name = self.new_receiver(words)?;
        let word = words.next()?;
        let it = known_struct(surface, word)?;
        words.at_end()?;
        Ok((
            name,
            ReceiverDecl {
                of: it.number,
                null,
            },
        ))
    }

    fn add_receiver(
        &mut self,
        alloc: Global,
        name: &[u8],
        decl: ReceiverDecl,
    ) -> Result<Thing, NoMemory>
        requires { length self.old.receivers < 64 }
        ensures after { OnOk result (self.new ≡ with_receiver name.now (receiver_of decl) self.old) }
        ensures thing { IfOk result (λ it. it ≡ thing.Receiver (length self.old.receivers)) }
    {
        let it = Thing::Receiver(self.receivers.len() as u16);
        self.names.push(alloc, name, it)?;
        self.receivers.push(decl)?;
        Ok(it)
    }

    #[tactic(auto, unfolding(wf_script_rules::specs::Lines::receiver_line))]
    fn receiver_line(
        &mut self,
        alloc: Global,
        null: bool,
        surface: &PublicSurface,
        words: &mut Words<'_>,
    ) -> Result<Command, LineFault>
        ensures { Reads result self.new (receiver_line null surface.now self.old words.old) }
    {
        let (name, decl) = self.receiver_words(null, surface, words)?;
        let it = self.add_receiver(alloc, name, decl)?;
        Ok(Command::Declares(it))
    }

    #[tactic(auto, unfolding(wf_script_rules::specs::Lines::new_store))]
    fn new_store<'w>(&self, words: &mut Words<'w>) -> Result<&'w [u8], XRule>
        ensures read { GivesBefore (λ word. word.now) result words.new (new_store self.now words.old) }
        ensures room { OnOk result (stores self.now < 64) }
    {
        let name = words.next()?;
        self.names.new_name(name)?;
        self.store_room()?;
        Ok(name)
    }

    #[tactic(auto, unfolding(wf_script_rules::specs::Lines::buffer_size))]
    fn buffer_size(&self, word: &[u8]) -> Result<u32, XRule>
        ensures read { Answers (λ size. size) result (buffer_size self.now word.now) }
        ensures fits { IfOk result (λ size. self.now.stored + size ≤ 67108864) }
    {
        let size = number_up_to(16_777_216, word)?;
        self.fits_store(size)?;
        Ok(size as u32)
    }

    #[tactic(auto, unfolding(wf_script_rules::specs::Lines::buffer_words))]
    fn buffer_words<'w>(&self, words: &mut Words<'w>) -> Result<(&'w [u8], u32), XRule>
        ensures read { Answers (λ one. (one.0.now, one.1)) result (buffer_words self.now words.old) }
        ensures room { OnOk result (stores self.now < 64) }
        ensures fits { IfOk result (λ one. self.now.stored + one.1 ≤ 67108864) }
    {
        let name = self.new_store(words)?;
        let word = words.next()?;
        let size = self.buffer_size(word)?;
        words.at_end()?;
        Ok((name, size))
    }

    fn add_buffer(&mut self, alloc: Global, name: &[u8], size: u32) -> Result<Thing, NoMemory>
        requires room { length self.old.sizes < 64 }
        requires fits { self.old.stored + size ≤ 67108864 }
        ensures after { OnOk result (self.new ≡ with_buffer name.now size self.old) }
        ensures thing { IfOk result (λ it. it ≡ thing.Buffer (length self.old.sizes)) }
    {
        let it = Thing::Buffer(self.sizes.len() as u16);
        self.names.push(alloc, name, it)?;
        self.sizes.push(size)?;
        self.stored += size as u64;
        Ok(it)
    }

    #[tactic(auto, unfolding(wf_script_rules::specs::Lines::buffer_line))]
    fn buffer_line(&mut self, alloc: Global, words: &mut Words<'_>) -> Result<Command, LineFault>
        ensures { Reads result self.new (buffer_line self.old words.old) }
    {
        let (name, size) = self.buffer_words(words)?;
        let it = self.add_buffer(alloc, name, size)?;
        Ok(Command::Declares(it))
    }

    #[tactic(auto, unfolding(wf_script_rules::specs::Lines::array_bytes))]
    fn array_bytes(&self, alloc: Global, word: &[u8]) -> Result<Vec<u8>, LineFault>
        ensures read { Gives (λ bytes. bytes.items) result (array_bytes self.now word.now) }
        ensures fits { IfOk result (λ bytes. self.now.stored + length bytes.items ≤ 67108864) }
    {
        let bytes = bytes_spelt(alloc, word)?;
        self.fits_store(bytes.len() as u64)?;
        Ok(bytes)
    }

    #[tactic(auto, unfolding(wf_script_rules::specs::Lines::array_words))]
    fn array_words<'w>(
        &self,
        alloc: Global,
        words: &mut Words<'w>,
    ) -> Result<(&'w [u8], Vec<u8>), LineFault>
        ensures read { Gives (λ one. (one.0.now, one.1.items)) result (array_words self.now words.old) }
        ensures room { OnOk result (stores self.now < 64) }
        ensures fits { IfOk result (λ one. self.now.stored + length one.1.items ≤ 67108864) }
    {
        let name = self.new_store(words)?;
        let word = words.next()?;
        let bytes = self.array_bytes(alloc, word)?;
        words.at_end()?;
        Ok((name, bytes))
    }

    fn add_array(&mut self, alloc: Global, name: &[u8], bytes: &[u8]) -> Result<Thing, NoMemory>
        requires room { length self.old.arrays < 64 }
        requires fits { self.old.stored + length bytes.now ≤ 67108864 }
        ensures after { OnOk result (self.new ≡ with_array name.now bytes.now self.old) }
        ensures thing { IfOk result (λ it. it ≡ thing.Array (length self.old.arrays)) }
    {
        let it = Thing::Array(self.arrays.len() as u16);
        self.names.push(alloc, name, it)?;
        self.arrays.push(ByteArray::new(alloc, bytes)?)?;
        self.stored += bytes.len() as u64;
        Ok(it)
    }

    #[tactic(auto, unfolding(wf_script_rules::specs::Lines::array_line))]
    fn array_line(&mut self, alloc: Global, words: &mut Words<'_>) -> Result<Command, LineFault>
        ensures { Reads result self.new (array_line self.old words.old) }
    {
        let (name, bytes) = self.array_words(alloc, words)?;
        let it = self.add_array(alloc, name, bytes.as_slice())?;
        Ok(Command::Declares(it))
    }

    #[tactic(auto, unfolding(wf_script_rules::specs::Lines::init_line))]
    fn init_line(&self, words: &mut Words<'_>) -> Result<Command, XRule>
        ensures { Judges result self.now (init_line self.now words.old) }
    {
        let name = words.next()?;
        let receiver = self.names.known_receiver(name)?;
        words.at_end()?;
        Ok(Command::Init {
            receiver,
            turns: self.turns,
        })
    }

    #[tactic(auto, unfolding(wf_script_rules::specs::Lines::named_buffer))]
    fn named_buffer(&self, words: &mut Words<'_>) -> Result<u16, XRule>
        ensures { GivesBefore (λ k. k) result words.new (named_buffer self.now words.old) }
    {
        let name = words.next()?;
        let k = self.names.known_buffer(name)?;
        Ok(k)
    }

    #[tactic(auto, unfolding(wf_script_rules::specs::Lines::put_line))]
    fn put_line(&self, alloc: Global, words: &mut Words<'_>) -> Result<Command, LineFault>
        ensures { Reads result self.now (put_line self.now words.old) }
    {
        let buffer = self.named_buffer(words)?;
        let word = words.next()?;
        let bytes = bytes_spelt(alloc, word)?;
        words.at_end()?;
        Ok(Command::Put { buffer, bytes })
    }

    #[tactic(auto, unfolding(wf_script_rules::specs::Lines::only_buffer))]
    fn only_buffer(&self, words: &mut Words<'_>) -> Result<u16, XRule>
        ensures { result ≡ only_buffer self.now words.old }
    {
        let buffer = self.named_buffer(words)?;
        words.at_end()?;
        Ok(buffer)
    }

    #[tactic(auto, unfolding(wf_script_rules::specs::Lines::show_line))]
    fn show_line(&self, words: &mut Words<'_>) -> Result<Command, XRule>
        ensures { Judges result self.now (show_line self.now words.old) }
    {
        let name = words.next()?;
        let it = shown(self.names.known(name)?)?;
        words.at_end()?;
        Ok(Command::Shows(it))
    }

    #[tactic(auto, unfolding(wf_script_rules::specs::Lines::turns_line))]
    fn turns_line(&mut self, words: &mut Words<'_>) -> Result<Command, XRule>
        ensures { Judges result self.new (turns_line self.old words.old) }
    {
        let word = words.next()?;
        let turns = number_up_to(10_000_000, word)?;
        words.at_end()?;
        self.turns = turns;
        Ok(Command::Turns(turns))
    }

    #[tactic(auto, unfolding(wf_script_rules::specs::Lines::call_line))]
    fn call_line(
        &self,
        alloc: Global,
        surface: &PublicSurface,
        words: &mut Words<'_>,
    ) -> Result<Command, LineFault>
        ensures { Reads result self.now (call_line surface.now self.now words.old) }
    {
        let name = words.next()?;
        let target = self.target_of(surface, name)?;
        let method = target.method;
        let args = args_of(alloc, &self.names, method.args.as_slice(), words)?;
        Ok(Command::Call(BoundedCall {
            receiver: target.receiver,
            method: method.number,
            args,
            turns: self.turns,
        }))
    }

    // Lines that declare or set something.
    fn changing_line(
        &mut self,
        alloc: Global,
        verb: Verb,
        surface: &PublicSurface,
        words: &mut Words<'_>,
    ) -> Result<Command, LineFault>
        ensures { Reads result self.new (line_by verb surface.now self.old words.old) }
    {
        match verb {
            Verb::New => self.receiver_line(alloc, false, surface, words),
            Verb::Null => self.receiver_line(alloc, true, surface, words),
            Verb::Buf => self.buffer_line(alloc, words),
            Verb::Bytes => self.array_line(alloc, words),
            Verb::Turns => Ok(self.turns_line(words)?),
            _ => self.acting_line(alloc, verb, surface, words),
        }
    }

    // The other lines.
    fn acting_line(
        &self,
        alloc: Global,
        verb: Verb,
        surface: &PublicSurface,
        words: &mut Words<'_>,
    ) -> Result<Command, LineFault>
        requires { Acts verb }
        ensures { Reads result self.now (line_by verb surface.now self.now words.old) }
    {
        match verb {
            Verb::Init => Ok(self.init_line(words)?),
            Verb::Put => self.put_line(alloc, words),
            Verb::Close => Ok(Command::Close {
                buffer: self.only_buffer(words)?,
            }),
            Verb::Compact => Ok(Command::Compact {
                buffer: self.only_buffer(words)?,
            }),
            Verb::Show => Ok(self.show_line(words)?),
            Verb::Call => self.call_line(alloc, surface, words),
            _ => unreachable!(),
        }
    }

    /// A line that isn't skipped, by its words.
    #[tactic(auto, unfolding(wf_script_rules::specs::Lines::line_of))]
    pub(crate) fn line(
        &mut self,
        alloc: Global,
        surface: &PublicSurface,
        words: &mut Words<'_>,
    ) -> Result<Command, LineFault>
        ensures { Reads result self.new (line_of surface.now self.old words.old) }
    {
        let first = words.next()?;
        let Some(verb) = verb_of(first) else {
            return Err(LineFault::Refused(XRule::X1));
        };
        self.changing_line(alloc, verb, surface, words)
    }
}
