// What stands round an expression is right in each package that breaks no rule. It is the contract of a function that does
// nothing.

ghost use Rattle.std.specs.Prelude.{◌≡◌, ◌+◌, ℕ, true, Some, None, length, slice_get};
ghost use Rattle.wf_named.specs.NamedTree.{NamedMethodTree, NamedPackageTree};
ghost use Rattle.wf_named.specs.WellNamed.{well_named};
ghost use Rattle.wf_types_rules.specs.DeclaredTypes.{in_method};
ghost use Rattle.wf_types_rules.specs.FirstBreak.{deciding};
ghost use Rattle.wf_typed_exprs.specs.Right.{Around};

/// In a package that breaks no rule of names and types, the types of what stands round the body of a method may stand
/// where they do, and agree with what its names are declared as.
pub fn what_stands_round_a_body_is_right()
    ensures { (p : NamedPackageTree) → deciding p ≡ None → well_named p ≡ true → (i : ℕ) (m : NamedMethodTree) → slice_get p.methods i ≡ Some m → Around (in_method p m) (10 + length p.statuses) }
{}
