// The bodies of a package that breaks no rule are right. It is the contract of a function that does nothing.

ghost use Rattle.std.specs.Prelude.{◌≡◌, ℕ, true, Some, None, slice_get};
ghost use Rattle.wf_named.specs.NamedTree.{NamedMethodTree, NamedPackageTree};
ghost use Rattle.wf_named.specs.WellNamed.{well_named};
ghost use Rattle.wf_named.specs.Grammar.{package_by_grammar};
ghost use Rattle.wf_types_rules.specs.DeclaredTypes.{in_method};
ghost use Rattle.wf_types_rules.specs.FirstBreak.{deciding};
ghost use Rattle.wf_typed_stmts.specs.Right.{known_in, IsRightBlock};

/// In a package by the grammar that breaks no rule of names and types, the body of each method is right: every part of a
/// statement is what the statement asks for. So `elaborate_body` may be called with it.
pub fn bodies_that_break_no_rule_are_right()
    ensures { (p : NamedPackageTree) → deciding p ≡ None → well_named p ≡ true → package_by_grammar p ≡ true → (i : ℕ) (m : NamedMethodTree) → slice_get p.methods i ≡ Some m → IsRightBlock (in_method p m) (known_in p) 0 m.body }
{}
