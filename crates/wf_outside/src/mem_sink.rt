// A sink in memory that fails where it is told to.

ghost use Rattle.std.specs.Prelude.{◌≡◌, ◌+◌, ◌-◌, ◌^◌, ◌<◌, ◌≤◌, None, Some, IfOk, [], ◌++◌, length, vec_len, vec_capacity};
ghost use Rattle.wf_outside.specs.Sinks.{CountsPut, FitsRoom, Puts, longest_with};
ghost use Rattle.wf_outside.specs.InMemory.{MemSinkState, after_put, put_answer};

use crate::entries::find_gone;
use crate::sinks::{Sink, SinkFault};
use std::alloc::Global;
use std::marker::Model;
use wf_text::NoMemory;

/// A sink with a room of so many bytes, and the calls that fail, each by its number from 0 and with the bytes
/// that are then gone. A piece that the room doesn't hold fails too, with nothing gone. Nothing else does.
#[derive(Drop)]
pub struct MemSink {
    bytes: Vec<u8>,
    left: usize,
    longest: usize,
    failing: Vec<(u64, usize)>,
    calls: u64,
    faults: u64,
}

impl Model for MemSink {
    ghost Value = { MemSinkState };

    ghost view = { λ s. record {
      written = s.bytes.items;
      room = s.left;
      longest = s.longest;
      failing = s.failing.items;
      calls = s.calls;
      faults = s.faults;
    } };

    ghost invariant = { λ s. vec_len s.bytes + s.left ≤ vec_capacity s.bytes };
}

impl MemSink {
    /// An empty sink, which takes all its memory now. Of two entries for one call the first counts.
    pub fn new(alloc: Global, failing: Vec<(u64, usize)>, room: usize) -> Result<MemSink, NoMemory>
        ensures { IfOk result (λ sink. sink ≡ record {
          written = [];
          room = room;
          longest = 0;
          failing = failing.items;
          calls = 0;
          faults = 0;
        }) }
    {
        let bytes = Vec::with_capacity(alloc, room)?;
        Ok(MemSink {
            bytes,
            left: room,
            longest: 0,
            failing,
            calls: 0,
            faults: 0,
        })
    }

    /// All that was written.
    pub fn written(&self) -> &[u8]
        ensures { result.now ≡ self.now.written }
    {
        self.bytes.as_slice()
    }

    /// The length of the longest piece that was put, 0 where none was.
    pub fn longest(&self) -> usize
        ensures { result ≡ self.now.longest }
    {
        self.longest
    }

    // How many bytes of a piece are gone at this call, and whether the call fails.
    fn answer(&self, count: usize) -> Result<(), SinkFault>
        ensures { result ≡ put_answer self.now count }
    {
        match find_gone(self.failing.as_slice(), self.calls) {
            Some(gone) => Err(SinkFault {
                gone: gone.min(count.min(self.left)),
            }),
            None if count <= self.left => Ok(()),
            None => Err(SinkFault { gone: 0 }),
        }
    }

    // Appends bytes that the room holds.
    fn append(&mut self, bytes: &[u8])
        requires { length bytes.now ≤ self.old.room }
        ensures { self.new ≡ record self.old {
          written = self.old.written ++ bytes.now;
          room = self.old.room - length bytes.now;
        } }
    {
        self.bytes.extend_from_slice(bytes).unwrap();
        self.left -= bytes.len();
    }
}

impl Sink for MemSink {
    ghost written = { λ sink. Some sink.written };

    ghost room = { λ _. None };

    ghost longest = { λ sink. Some sink.longest };

    ghost faults = { λ sink. sink.faults };

    fn put(&mut self, piece: &[u8]) -> Result<(), SinkFault>
        requires countable { self.old.faults < 2 ^ 64 - 1 }
        ensures answer { result ≡ put_answer self.old (length piece.now) }
        ensures after { self.new ≡ after_put self.old piece.now result }
        ensures bytes { Puts (Some self.old.written) (Some self.new.written) result piece.now }
        ensures count { CountsPut self.old.faults self.new.faults result }
        ensures room { FitsRoom None None result (length piece.now) }
        ensures longest { Some self.new.longest ≡ longest_with (Some self.old.longest) (length piece.now) }
    {
        let answer = self.answer(piece.len());
        self.calls = self.calls.saturating_add(1);
        self.longest = self.longest.max(piece.len());
        match answer {
            Ok(()) => {
                self.append(piece);
                Ok(())
            }
            Err(fault) => {
                let (front, _) = piece.split_at(fault.gone);
                self.append(front);
                self.faults += 1;
                Err(fault)
            }
        }
    }
}
