// Sinks: where written bytes go.

ghost use Rattle.std.specs.Prelude.{◌≡◌, ℕ, ◌-◌, ◌^◌, ◌<◌, List, length, Option};
ghost use Rattle.wf_outside.specs.Sinks.{CountsPut, FitsRoom, longest_with, Puts};

/// A piece wasn't written whole: its first `gone` bytes were, and the fault was counted.
#[derive(Clone, Copy, PartialEq, Eq)]
pub struct SinkFault {
    pub gone: usize,
}

/// Where the bytes of an answer go.
///
/// `written` is all that was written, `room` how many more bytes the sink is sure to take, and `longest` how
/// many bytes the longest piece had so far; an object may leave each of them untold. `faults` counts the puts that
/// failed.
pub trait Sink {
    ghost written: { Self → Option (List ℕ) };

    ghost room: { Self → Option ℕ };

    ghost longest: { Self → Option ℕ };

    ghost faults: { Self → ℕ };

    /// Appends `piece`. A fault is counted, and tells how many of the piece's bytes were appended. Where the
    /// sink tells a room that holds the piece, the answer is Ok.
    fn put(&mut self, piece: &[u8]) -> Result<(), SinkFault>
        requires countable { faults self.old < 2 ^ 64 - 1 }
        ensures bytes { Puts (written self.old) (written self.new) result piece.now }
        ensures count { CountsPut (faults self.old) (faults self.new) result }
        ensures room { FitsRoom (room self.old) (room self.new) result (length piece.now) }
        ensures longest { longest self.new ≡ longest_with (longest self.old) (length piece.now) };
}
