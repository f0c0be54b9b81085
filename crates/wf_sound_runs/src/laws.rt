// That an accepted package is never stuck: whatever a host may do, each of its actions answers, or needs more turns than it
// was given.

ghost use Rattle.std.specs.Prelude.{◌≡◌, ℕ, true, List, None};
ghost use Rattle.std.specs.List.{list_all};
ghost use Rattle.wf_text.specs.declared.place.Place.{Place};
ghost use Rattle.wf_text.specs.HostActions.{Receiver, HostAction};
ghost use Rattle.wf_base.specs.BaseOps.{Buffer};
ghost use Rattle.wf_base.specs.LawfulActions.{AreDeclared, AreLawful};
ghost use Rattle.wf_ast.specs.TypedPackage.{PackageTree, package_of, surface_of};
ghost use Rattle.wf_ast.specs.declared.typed_nodes.TypedNodes.{TypedNodes};
ghost use Rattle.wf_ast.specs.TypedInvariant.{IsTyped};
ghost use Rattle.wf_bounds_stmts.specs.MethodRules.{local_at, facts_refusal};
ghost use Rattle.wf_meaning.specs.SourceCall.{source_run};
ghost use Rattle.wf_sound_runs.specs.Chains.{well_made};
ghost use Rattle.wf_sound_runs.specs.Accepted.{HasShortArrays, IsAccepted, IsDefined};

/// An accepted package, with receivers of its public structs and actions that a host may perform, is never stuck.
pub fn an_accepted_package_is_never_stuck()
    ensures { (places : ℕ → ℕ → Place) (p : PackageTree) (receivers : List Receiver) (actions : List (HostAction Buffer))
        → IsAccepted places p → AreDeclared (surface_of p) receivers → AreLawful (surface_of p) receivers 0 0 actions → IsDefined (source_run p receivers actions) }
{}

/// The package of typed nodes at which the rules of facts refuse nothing is accepted, where its statements hand on what they
/// may and its arrays are short.
pub fn a_typed_package_without_a_refusal_is_accepted()
    ensures { (nodes : TypedNodes) → IsTyped nodes → facts_refusal nodes ≡ None → list_all (λ m. well_made m.body) (package_of nodes).methods ≡ true → HasShortArrays (package_of nodes)
        → IsAccepted (local_at nodes) (package_of nodes) }
{}
