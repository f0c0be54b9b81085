// What the engine of an accepted package answers. Each law is the contract of a function that does nothing.

ghost use Rattle.wf_mean_laws.specs.Kinds.{AnswersHaveKinds, RefusalsHaveKinds};
ghost use Rattle.wf_mean_laws.specs.SourceSeen.{AcceptedPackagesAreSeen, KeptPackagesAreSeen, ReadPackagesAreSeen, TypedNodesAreSeen};

/// In an accepted package an answer is of the kind that its method declares: a status of the package, a number of the declared
/// width, a truth value, or nothing. So it is of each call that a host may make after whatever it may have done, and of calls
/// that are refused.
pub fn answers_have_their_kinds()
    ensures answers { AnswersHaveKinds }
    ensures refusals { RefusalsHaveKinds }
{}

/// What is seen of the engine of an accepted package is what is seen of its source, and no reply is undefined, for all that a
/// host may do with receivers of its public structs. The first status is ok, whose text is empty.
pub fn an_accepted_package_shows_its_source()
    ensures { AcceptedPackagesAreSeen }
{}

/// So it is of the typed nodes that the phase of types gives of a package that breaks no rule of names and types, where the rules
/// of facts refuse nothing of them.
pub fn typed_nodes_show_their_source()
    ensures { TypedNodesAreSeen }
{}

/// So it is of a resolved package of the grammar that breaks no rule of names, of types and of bounds.
pub fn a_package_that_keeps_the_rules_shows_its_source()
    ensures { KeptPackagesAreSeen }
{}

/// And of a package that is read from files and keeps those rules, in each order in which every method stands after those that
/// it calls.
pub fn a_read_package_that_keeps_the_rules_shows_its_source()
    ensures { ReadPackagesAreSeen }
{}
