// Where a written text goes. It is written over any pen, in pieces of any length; the pen over a sink hands them on
// in pieces of at most 4,096 bytes.

ghost use Rattle.std.specs.Prelude.{◌≡◌, ℕ, ◌+◌, ◌-◌, ◌^◌, ◌<◌, ◌≤◌, ◌++◌, ◌∷◌, [], Bool, true, false, List, length};
ghost use Rattle.pens.specs.Pens.{Wrote, pen_state, failed_at};

use wf_outside::{Sink, SinkFault};

/// What a text is written with. `ready` is what a write asks of the pen, and `writes` tells of two states of it
/// that these bytes were written from the one to the other. A pen that is `lost` drops what is written.
pub trait Pen {
    ghost ready: { Self → Type 0 };

    ghost writes: { Self → Self → List ℕ → Type 0 };

    ghost lost: { Self → Bool };

    /// Writes a piece of the text. A pen that can't write drops it, and keeps in mind why.
    fn write(&mut self, piece: &[u8])
        requires { ready self.old }
        ensures ready { ready self.new }
        ensures writes { writes self.old self.new piece.now };

    /// Whether the pen drops all that is still written.
    fn is_lost(&self) -> bool
        ensures { result ≡ lost self.now };

    ghost nothing: { (a : Self) → ready a → writes a a [] };

    ghost dropped: { (a : Self) (x : List ℕ) → lost a ≡ true → writes a a x };

    ghost joined: { (a b c : Self) (x y : List ℕ) → writes a b x → writes b c y → writes a c (x ++ y) };
}

/// Hands a text to a sink in pieces of at most 4,096 bytes. After the first fault nothing more is put.
#[derive(Drop)]
pub struct SinkPen<'a, O: Sink> {
    out: &'a mut O,
    buffer: [u8; 4096],
    filled: usize,
    /// How many bytes the sink has taken, up to 2^64 - 1.
    sent: usize,
    /// Whether a put has failed.
    failed: bool,
}

impl<'a, O: Sink> SinkPen<'a, O> {
    /// A pen that has written nothing.
    pub fn new(out: &'a mut O) -> SinkPen<'a, O>
        requires { O.faults out.old < 2 ^ 64 - 1 }
        ensures same { result.out.ghost_name ≡ out.entry.ghost_name }
        ensures out { result.out.now ≡ out.old }
        ensures empty { result.filled ≡ 0 }
        ensures none_sent { result.sent ≡ 0 }
        ensures fine { result.failed ≡ false }
    {
        SinkPen {
            out,
            buffer: [0; 4096],
            filled: 0,
            sent: 0,
            failed: false,
        }
    }

    /// Puts the waiting bytes, where no put has failed.
    fn flush(&mut self)
        requires filled { self.old.filled ≤ 4096 }
        requires sent { self.old.sent < 2 ^ 64 }
        requires countable { self.old.failed ≡ false → O.faults self.old.out.now < 2 ^ 64 - 1 }
        ensures same { self.new.out.ghost_name ≡ self.old.out.ghost_name }
        ensures filled { self.new.filled ≤ 4096 }
        ensures sent { self.new.sent < 2 ^ 64 }
        ensures countable { self.new.failed ≡ false → O.faults self.new.out.now < 2 ^ 64 - 1 }
        ensures empty { self.new.failed ≡ false → self.new.filled ≡ 0 }
        ensures writes { Wrote (pen_state (O.written self.old.out.now) (O.room self.old.out.now) (O.longest self.old.out.now) (O.faults self.old.out.now) self.old.buffer self.old.filled self.old.sent self.old.failed) (pen_state (O.written self.new.out.now) (O.room self.new.out.now) (O.longest self.new.out.now) (O.faults self.new.out.now) self.new.buffer self.new.filled self.new.sent self.new.failed) [] }
    {
        if !self.failed {
            match self.out.put(&self.buffer[..self.filled]) {
                Ok(()) => {
                    self.sent = self.sent.saturating_add(self.filled);
                    self.filled = 0;
                }
                Err(fault) => {
                    self.sent = self.sent.saturating_add(fault.gone);
                    self.failed = true;
                }
            }
        }
    }

    /// Puts the waiting bytes where no further one fits after them.
    fn make_room(&mut self)
        requires filled { self.old.filled ≤ 4096 }
        requires sent { self.old.sent < 2 ^ 64 }
        requires countable { self.old.failed ≡ false → O.faults self.old.out.now < 2 ^ 64 - 1 }
        ensures same { self.new.out.ghost_name ≡ self.old.out.ghost_name }
        ensures filled { self.new.filled ≤ 4096 }
        ensures sent { self.new.sent < 2 ^ 64 }
        ensures countable { self.new.failed ≡ false → O.faults self.new.out.now < 2 ^ 64 - 1 }
        ensures room { self.new.failed ≡ false → self.new.filled < 4096 }
        ensures writes { Wrote (pen_state (O.written self.old.out.now) (O.room self.old.out.now) (O.longest self.old.out.now) (O.faults self.old.out.now) self.old.buffer self.old.filled self.old.sent self.old.failed) (pen_state (O.written self.new.out.now) (O.room self.new.out.now) (O.longest self.new.out.now) (O.faults self.new.out.now) self.new.buffer self.new.filled self.new.sent self.new.failed) [] }
    {
        if self.filled == 4096 {
            self.flush();
        }
    }

    /// Writes one byte.
    fn write_byte(&mut self, byte: u8)
        requires filled { self.old.filled ≤ 4096 }
        requires sent { self.old.sent < 2 ^ 64 }
        requires countable { self.old.failed ≡ false → O.faults self.old.out.now < 2 ^ 64 - 1 }
        ensures same { self.new.out.ghost_name ≡ self.old.out.ghost_name }
        ensures filled { self.new.filled ≤ 4096 }
        ensures sent { self.new.sent < 2 ^ 64 }
        ensures countable { self.new.failed ≡ false → O.faults self.new.out.now < 2 ^ 64 - 1 }
        ensures writes { Wrote (pen_state (O.written self.old.out.now) (O.room self.old.out.now) (O.longest self.old.out.now) (O.faults self.old.out.now) self.old.buffer self.old.filled self.old.sent self.old.failed) (pen_state (O.written self.new.out.now) (O.room self.new.out.now) (O.longest self.new.out.now) (O.faults self.new.out.now) self.new.buffer self.new.filled self.new.sent self.new.failed) (byte ∷ []) }
    {
        self.make_room();
        if !self.failed {
            self.buffer[self.filled] = byte;
            self.filled += 1;
        }
    }

    /// Writes a piece byte by byte.
    #[inline(never)]
    fn write_bytes(&mut self, piece: &[u8])
        requires filled { self.old.filled ≤ 4096 }
        requires sent { self.old.sent < 2 ^ 64 }
        requires countable { self.old.failed ≡ false → O.faults self.old.out.now < 2 ^ 64 - 1 }
        ensures same { self.new.out.ghost_name ≡ self.old.out.ghost_name }
        ensures filled { self.new.filled ≤ 4096 }
        ensures sent { self.new.sent < 2 ^ 64 }
        ensures countable { self.new.failed ≡ false → O.faults self.new.out.now < 2 ^ 64 - 1 }
        ensures writes { Wrote (pen_state (O.written self.old.out.now) (O.room self.old.out.now) (O.longest self.old.out.now) (O.faults self.old.out.now) self.old.buffer self.old.filled self.old.sent self.old.failed) (pen_state (O.written self.new.out.now) (O.room self.new.out.now) (O.longest self.new.out.now) (O.faults self.new.out.now) self.new.buffer self.new.filled self.new.sent self.new.failed) piece.now }
    {
        for byte in piece {
            self.write_byte(*byte);
        }
    }

    /// Writes a piece for which there is room after the waiting bytes.
    #[inline]
    fn append(&mut self, piece: &[u8])
        requires room { self.old.filled + length piece.now ≤ 4096 }
        requires sent { self.old.sent < 2 ^ 64 }
        requires countable { self.old.failed ≡ false → O.faults self.old.out.now < 2 ^ 64 - 1 }
        requires fine { self.old.failed ≡ false }
        ensures same { self.new.out.ghost_name ≡ self.old.out.ghost_name }
        ensures filled { self.new.filled ≤ 4096 }
        ensures sent { self.new.sent < 2 ^ 64 }
        ensures countable { self.new.failed ≡ false → O.faults self.new.out.now < 2 ^ 64 - 1 }
        ensures writes { Wrote (pen_state (O.written self.old.out.now) (O.room self.old.out.now) (O.longest self.old.out.now) (O.faults self.old.out.now) self.old.buffer self.old.filled self.old.sent self.old.failed) (pen_state (O.written self.new.out.now) (O.room self.new.out.now) (O.longest self.new.out.now) (O.faults self.new.out.now) self.new.buffer self.new.filled self.new.sent self.new.failed) piece.now }
    {
        let end = self.filled + piece.len();
        self.buffer[self.filled..end].copy_from_slice(piece);
        self.filled = end;
    }

    /// Puts the waiting bytes, and answers whether a put has failed, with the number of bytes that the sink has taken.
    pub fn finish(&mut self) -> Result<(), SinkFault>
        requires filled { self.old.filled ≤ 4096 }
        requires sent { self.old.sent < 2 ^ 64 }
        requires countable { self.old.failed ≡ false → O.faults self.old.out.now < 2 ^ 64 - 1 }
        ensures same { self.new.out.ghost_name ≡ self.old.out.ghost_name }
        ensures answer { result ≡ failed_at self.new.failed self.new.sent }
        ensures empty { self.new.failed ≡ false → self.new.filled ≡ 0 }
        ensures writes { Wrote (pen_state (O.written self.old.out.now) (O.room self.old.out.now) (O.longest self.old.out.now) (O.faults self.old.out.now) self.old.buffer self.old.filled self.old.sent self.old.failed) (pen_state (O.written self.new.out.now) (O.room self.new.out.now) (O.longest self.new.out.now) (O.faults self.new.out.now) self.new.buffer self.new.filled self.new.sent self.new.failed) [] }
    {
        self.flush();
        if self.failed {
            return Err(SinkFault { gone: self.sent });
        }
        Ok(())
    }
}

impl<'a, O: Sink> Pen for SinkPen<'a, O> {
    ghost use Rattle.std.specs.Prelude.{◌≡◌, ◌≤◌, ◌<◌, ◌-◌, ◌^◌, false, refl};
    ghost use Rattle.std.proofs.Common.{◌∙◌};
    ghost use Rattle.pens.specs.Pens.{Wrote, pen_state};
    ghost use Rattle.pens.specs.PenLaws.{writes_nothing, writes_joined, writes_dropped};

    ghost ready = { λ pen. (pen.filled ≤ 4096) × (pen.sent < 2 ^ 64) × (pen.failed ≡ false → O.faults pen.out.now < 2 ^ 64 - 1) };

    ghost writes = { λ old new bytes. (new.out.ghost_name ≡ old.out.ghost_name) × Wrote (pen_state (O.written old.out.now) (O.room old.out.now) (O.longest old.out.now) (O.faults old.out.now) old.buffer old.filled old.sent old.failed) (pen_state (O.written new.out.now) (O.room new.out.now) (O.longest new.out.now) (O.faults new.out.now) new.buffer new.filled new.sent new.failed) bytes };

    ghost lost = { λ pen. pen.failed };

    ghost nothing = { λ a ready. (refl, writes_nothing (pen_state (O.written a.out.now) (O.room a.out.now) (O.longest a.out.now) (O.faults a.out.now) a.buffer a.filled a.sent a.failed) ready.1) };

    ghost joined = { λ a b c x y first second. (second.0 ∙ first.0, writes_joined _ _ _ x y first.1 second.1) };

    ghost dropped = { λ a x lost. (refl, writes_dropped _ x lost) };

    fn is_lost(&self) -> bool {
        self.failed
    }

    #[inline]
    fn write(&mut self, piece: &[u8]) {
        if piece.len() <= 4096 - self.filled && !self.failed {
            self.append(piece);
        } else {
            self.write_bytes(piece);
        }
    }
}
