// The length of a text: a pen that writes nothing and counts.

ghost use Rattle.std.specs.Prelude.{◌≡◌, ◌^◌, ◌<◌, false};

use pens::Pen;

/// Counts the bytes of a text, up to 2^64 - 1.
pub(crate) struct LengthPen {
    pub count: u64,
}

impl Pen for LengthPen {
    ghost ready = { λ pen. pen.count < 2 ^ 64 };

    ghost lost = { λ pen. false };

    ghost writes = { λ old new bytes. new.count ≡ min (old.count + length bytes) (2 ^ 64 - 1) };

    ghost use Rattle.std.specs.Prelude.{min, ◌-◌, ◌+◌, ◌^◌, ◌<◌, length, ◌≡◌, false};
    ghost use Rattle.std.proofs.Common.{arith, length-append};

    ghost nothing = { λ a ready. Prim.omega (arith, ready) };

    ghost dropped = { λ a x lost. Prim.absurd (Prim.cc lost) };

    ghost joined = { λ a b c x y first second. Prim.omega (arith, first, second, length-append x y) };

    fn write(&mut self, piece: &[u8]) {
        self.count = self.count.saturating_add(piece.len() as u64);
    }

    fn is_lost(&self) -> bool {
        false
    }
}
