// A package whose files are read: its parsed tree is as the grammar gives.

ghost use Rattle.std.specs.Prelude.{◌≡◌};
ghost use Rattle.wf_ast.specs.ReadPackage.{IsRead};

use crate::package_nodes::PackageNodes;
use std::marker::Model;

/// A package as its files spell it.
#[derive(Drop)]
pub struct Package {
    nodes: PackageNodes,
}

impl Model for Package {
    ghost use Rattle.wf_ast.specs.ParsedParts.{Parsed};
    ghost use Rattle.wf_ast.specs.ReadPackage.{IsRead};

    ghost Value = { Parsed };

    ghost view = { λ p. p.nodes };

    ghost invariant = { λ p. IsRead p.nodes };
}

impl Package {
    /// The package that these nodes make.
    pub fn new(nodes: PackageNodes) -> Package
        requires { IsRead nodes }
        ensures { result ≡ nodes }
    {
        Package { nodes }
    }

    /// What the package is made of. Its declarations are as the grammar gives, their statements stand in order, and they
    /// are few.
    pub fn nodes(&self) -> &PackageNodes
        ensures same { result.now ≡ self.now }
        ensures read { IsRead self.now }
    {
        &self.nodes
    }
}
