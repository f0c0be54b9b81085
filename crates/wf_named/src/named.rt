// A package whose names are resolved: it keeps the rules of names.

ghost use Rattle.std.specs.Prelude.{◌≡◌};
ghost use Rattle.wf_named.specs.NamedInvariant.{IsNamed};

use crate::building::NamedNodes;
use std::marker::Model;

/// A resolved package.
#[derive(Drop)]
pub struct Named {
    nodes: NamedNodes,
}

impl Model for Named {
    ghost use Rattle.wf_named.specs.NamedInvariant.{IsNamed};
    ghost use Rattle.wf_named.specs.NamedParts.{NamedParts};

    ghost Value = { NamedParts };

    ghost view = { λ n. n.nodes };

    ghost invariant = { λ n. IsNamed n.nodes };
}

impl Named {
    /// The package that these nodes make.
    pub fn new(nodes: NamedNodes) -> Named
        requires { IsNamed nodes }
        ensures { result ≡ nodes }
    {
        Named { nodes }
    }

    /// What the package is made of. The rules of names hold of it, it is as the grammar gives, and its statements stand in
    /// order.
    pub fn into_nodes(self) -> NamedNodes
        ensures same { result ≡ self }
        ensures rules { IsNamed self }
    {
        self.nodes
    }
}
