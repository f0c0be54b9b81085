// The laws of the numbers of points. Each is the contract of a function that does nothing.

ghost use Rattle.std.specs.Prelude.{◌≡◌, ℕ, ◌+◌, ◌<◌, List, length, Some, slice_get};
ghost use Rattle.wf_ast.specs.TypedTree.{Site};
ghost use Rattle.wf_ast.specs.declared.typed_nodes.TypedNodes.{TypedNodes};
ghost use Rattle.wf_ast.specs.TypedPackage.{MethodTree, package_of};
ghost use Rattle.wf_ast.specs.TypedInvariant.{IsTyped};
ghost use Rattle.wf_meaning.specs.Remaining.{points_in};
ghost use Rattle.wf_points.specs.PointNumbers.{point_number, StandOnce, StandsIn, IsPoint};

/// No statement of a typed package is a point twice, in one method or in two (clause `points`); and each statement stands in
/// one method, and once (clause `methods`).
pub fn each_statement_stands_once()
    ensures points { (nodes : TypedNodes) → IsTyped nodes → StandOnce (package_of nodes).methods }
    ensures methods { (nodes : TypedNodes) (s : ℕ) → IsTyped nodes → s < length nodes.stmts → StandsIn (package_of nodes).methods s }
{}

/// The points of each method of a typed package are numbered from 1 on, as their places come.
pub fn each_point_has_its_number()
    ensures { (nodes : TypedNodes) (m i : ℕ) (method : MethodTree) (point : Site)
        → IsTyped nodes
        → slice_get (package_of nodes).methods m ≡ Some method → slice_get (points_in method.body) i ≡ Some point
        → point_number (package_of nodes).methods point.number ≡ Some (1 + i) }
{}

/// A statement with a number is a point of a method, and that is its number there.
pub fn only_points_have_numbers()
    ensures { (methods : List MethodTree) (s n : ℕ) → point_number methods s ≡ Some n → IsPoint methods s n }
{}
