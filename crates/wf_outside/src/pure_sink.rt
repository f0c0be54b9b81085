// A sink in memory that fails only for want of room.

ghost use Rattle.std.specs.Prelude.{◌≡◌, ◌+◌, ◌-◌, ◌^◌, ◌<◌, ◌≤◌, None, Some, IfOk, [], length, vec_len, vec_capacity};
ghost use Rattle.wf_outside.specs.Sinks.{CountsPut, FitsRoom, Puts, longest_with};
ghost use Rattle.wf_outside.specs.InMemory.{PureSinkState, after_pure_put, answer_by_room};

use crate::sinks::{Sink, SinkFault};
use std::alloc::Global;
use std::marker::Model;
use wf_text::NoMemory;

/// A sink that takes each piece that its room holds.
#[derive(Drop)]
pub struct PureSink {
    bytes: Vec<u8>,
    left: usize,
    faults: u64,
}

impl Model for PureSink {
    ghost Value = { PureSinkState };

    ghost view = { λ s. record { written = s.bytes.items; room = s.left; faults = s.faults } };

    ghost invariant = { λ s. vec_len s.bytes + s.left ≤ vec_capacity s.bytes };
}

impl PureSink {
    /// An empty sink without room.
    pub fn new(alloc: Global) -> PureSink
        ensures { result ≡ record { written = []; room = 0; faults = 0 } }
    {
        PureSink {
            bytes: Vec::new(alloc),
            left: 0,
            faults: 0,
        }
    }

    /// An empty sink with room for so many bytes, whose memory it takes now.
    pub fn with_room(alloc: Global, room: usize) -> Result<PureSink, NoMemory>
        ensures { IfOk result (λ sink. sink ≡ record { written = []; room = room; faults = 0 }) }
    {
        let bytes = Vec::with_capacity(alloc, room)?;
        Ok(PureSink {
            bytes,
            left: room,
            faults: 0,
        })
    }

    /// All that was written.
    pub fn written(&self) -> &[u8]
        ensures { result.now ≡ self.now.written }
    {
        self.bytes.as_slice()
    }
}

impl Sink for PureSink {
    ghost written = { λ sink. Some sink.written };

    ghost room = { λ sink. Some sink.room };

    ghost longest = { λ _. None };

    ghost faults = { λ sink. sink.faults };

    fn put(&mut self, piece: &[u8]) -> Result<(), SinkFault>
        requires countable { self.old.faults < 2 ^ 64 - 1 }
        ensures answer { result ≡ answer_by_room self.old.room (length piece.now) }
        ensures after { self.new ≡ after_pure_put self.old piece.now result }
        ensures bytes { Puts (Some self.old.written) (Some self.new.written) result piece.now }
        ensures count { CountsPut self.old.faults self.new.faults result }
        ensures room { FitsRoom (Some self.old.room) (Some self.new.room) result (length piece.now) }
        ensures longest { None ≡ longest_with None (length piece.now) }
    {
        if piece.len() > self.left {
            self.faults += 1;
            return Err(SinkFault { gone: 0 });
        }
        self.bytes.extend_from_slice(piece).unwrap();
        self.left -= piece.len();
        Ok(())
    }
}
