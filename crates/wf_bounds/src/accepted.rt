// A package that is accepted.

ghost use Rattle.std.specs.Prelude.{◌≡◌};
ghost use Rattle.wf_bounds.specs.Acceptance.{AcceptedPackage, IsAccepted};

use std::marker::Model;
use wf_ast::Typed;
use wf_points::table::Points;

/// A typed package that breaks no rule, with its points. It is seen as its nodes and the table of its points, and keeps what is
/// known of both.
pub struct Accepted {
    typed: Typed,
    points: Points,
}

impl Drop for Accepted {
    fn drop(self) {
        let Accepted {
            typed: _,
            points: _,
        } = self;
    }
}

impl Model for Accepted {
    ghost use Rattle.wf_bounds.specs.Acceptance.{AcceptedPackage, IsAccepted};

    ghost Value = { AcceptedPackage };

    ghost view = { λ a. record { nodes = a.typed; points = a.points } };

    ghost invariant = { λ a. IsAccepted (record { nodes = a.typed; points = a.points }) };
}

impl Accepted {
    // The package that is accepted with these points.
    pub(crate) fn new(typed: Typed, points: Points) -> Accepted
        requires { IsAccepted (record { nodes = typed; points = points }) }
        ensures { result ≡ record { nodes = typed; points = points } }
    {
        Accepted { typed, points }
    }

    /// The typed package.
    pub fn typed(&self) -> &Typed
        ensures same { result.now ≡ self.now.nodes }
        ensures kept { IsAccepted self.now }
    {
        &self.typed
    }

    /// Its points.
    pub fn points(&self) -> &Points
        ensures same { result.now ≡ self.now.points }
        ensures kept { IsAccepted self.now }
    {
        &self.points
    }
}
