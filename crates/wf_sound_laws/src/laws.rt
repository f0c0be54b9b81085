// From the rules that a package keeps to the runs of its meaning. Each law is the contract of a function that does nothing.

ghost use Rattle.wf_sound_laws.specs.SoundLaws.{TypedPackagesAreWellMade, TypedArraysAreShort, KeptPackagesAreNeverStuck, TypedNodesAreAccepted, ReadPackagesAreNeverStuck};

/// The typed tree of a package that breaks no rule of names and types keeps what soundness asks of a tree besides the rules
/// of typed packages: a slice that is handed on, assigned or copied to has elements of all numbers of their width, nothing
/// follows an `else if` in its block, and arrays have fewer than 2^64 elements.
pub fn typed_packages_are_well_made()
    ensures made { TypedPackagesAreWellMade }
    ensures short { TypedArraysAreShort }
{}

/// A resolved package of the grammar that breaks no rule of names, of types and of facts is never stuck, whatever a host does
/// with it.
pub fn a_package_that_keeps_the_rules_is_never_stuck()
    ensures { KeptPackagesAreNeverStuck }
{}

/// The typed nodes that the phase of types gives of such a package are accepted where the rules of facts refuse nothing of them.
pub fn typed_nodes_without_a_refusal_are_accepted()
    ensures { TypedNodesAreAccepted }
{}

/// A package that is read from files and keeps those rules is never stuck, with its methods in any order in which each
/// stands after those that it calls.
pub fn a_read_package_that_keeps_the_rules_is_never_stuck()
    ensures { ReadPackagesAreNeverStuck }
{}
