// The table of a package's suspension points.

ghost use Rattle.std.specs.Prelude.{◌≡◌, ◌<◌, length, slice_get, Some};
ghost use Rattle.wf_points.specs.PointNumbers.{number_at};

use std::marker::Model;
use wf_ast::{LocalId, Sequence, StmtId};
use wf_text::MethodId;

/// The suspension points of a package, by the numbers of their statements, and the locals that each method keeps at one.
#[derive(Drop)]
pub struct Points {
    pub(crate) numbers: Vec<Option<u32>>,
    pub(crate) saved: Sequence<Sequence<LocalId>>,
}

impl Model for Points {
    ghost use Rattle.wf_points.specs.PointNumbers.{PointTable};

    ghost Value = { PointTable };

    ghost view = { λ points. record { numbers = points.numbers.items; saved = points.saved } };
}

impl Points {
    /// The number of a suspension point among those of its method, which are counted from 1 on as their places come;
    /// None for every other statement. It takes constant time.
    pub fn number_of(&self, s: StmtId) -> Option<u32>
        ensures { result ≡ number_at self.now.numbers s.0 }
    {
        *self.numbers.get(s.0 as usize)?
    }

    /// The locals of a method that aren't slices, in order: those that it keeps at a suspension. It takes constant time.
    pub fn saved(&self, m: MethodId) -> &[LocalId]
        requires { m.0 < length self.now.saved }
        ensures { slice_get self.now.saved m.0 ≡ Some result.now }
    {
        self.saved.as_slice()[m.0 as usize].as_slice()
    }
}
