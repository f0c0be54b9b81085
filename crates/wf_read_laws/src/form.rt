// The laws of form. Each is the contract of a function that does nothing.

ghost use Rattle.wf_read_laws.specs.ReadPackages.{PackagesResolveByGrammar};

/// A package that is read and resolved is as the grammar gives, in whatever order its methods stand.
pub fn packages_resolve_as_the_grammar_gives()
    ensures { PackagesResolveByGrammar }
{}
