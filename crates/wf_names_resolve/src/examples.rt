// Worked examples: resolved trees, computed. Each is the contract of a function that does nothing.

ghost use Rattle.std.specs.Prelude.{◌≡◌, [], ◌∷◌, codes, map};
ghost use Rattle.wf_ast.specs.BaseStatuses.{base_statuses};
ghost use Rattle.wf_named.specs.Examples.{counting};
ghost use Rattle.wf_names_rules.specs.Meanings.{base_status_texts};
ghost use Rattle.wf_names_resolve.specs.Resolved.{base_status_number};
ghost use Rattle.wf_names_resolve.specs.Package.{resolved_package};
ghost use Rattle.wf_names_resolve.specs.Examples.{counting_texts, counting_decls, given_in_order, given_the_other_way, one_and_two, jumps_resolved, jumps_by_number, jump_to_the_nearer, leaves_one, as_seen};

/// The parsed tree of a package and its resolved tree, which is that of the resolved trees' examples.
pub fn a_package_resolved()
    ensures { resolved_package (codes "demo") counting_texts counting_decls (1 ∷ 0 ∷ []) (0 ∷ []) ≡ counting }
{}

/// Arguments stand in the order of their declaration, however they are given.
pub fn arguments_in_order()
    ensures same { given_in_order ≡ one_and_two }
    ensures other { given_the_other_way ≡ one_and_two }
{}

/// A jump counts the loops between it and the one that it means.
pub fn jumps_outwards()
    ensures all { jumps_resolved ≡ jumps_by_number }
    ensures nearer { jump_to_the_nearer ≡ leaves_one }
{}

/// The statuses of the language have the numbers 1 to 9, in the order in which callers see them.
pub fn base_statuses_by_number()
    ensures numbers { map base_status_number base_status_texts ≡ 1 ∷ 2 ∷ 3 ∷ 4 ∷ 5 ∷ 6 ∷ 7 ∷ 8 ∷ 9 ∷ [] }
    ensures other { base_status_number (codes "#not a digit") ≡ 0 }
    ensures seen { [] ∷ map as_seen base_status_texts ≡ base_statuses }
{}
