// Worked examples: which resolved packages the rules of names leave, computed. Each is the contract of a function that
// does nothing.

ghost use Rattle.std.specs.Prelude.{◌≡◌, true, false, length};
ghost use Rattle.wf_named.specs.NamedParts.{named_package, NamedExprsOrdered, NamedStmtsOrdered};
ghost use Rattle.wf_named.specs.WellNamed.{well_named};
ghost use Rattle.wf_named.specs.ExampleNodes.{counting_nodes};
ghost use Rattle.wf_named.specs.Examples.{counting, leaving_two, wrong_kind, no_argument, no_struct, no_local, caller_first, cycle, holding_itself, struct_left_out};

/// A package whose numbers all name something, and packages that differ from it in one place.
pub fn packages_by_the_rules_of_names()
    ensures counting { well_named counting ≡ true }
    ensures leaving_two { well_named leaving_two ≡ false }
    ensures wrong_kind { well_named wrong_kind ≡ false }
    ensures no_argument { well_named no_argument ≡ false }
    ensures no_struct { well_named no_struct ≡ false }
    ensures no_local { well_named no_local ≡ false }
    ensures caller_first { well_named caller_first ≡ false }
    ensures cycle { well_named cycle ≡ false }
    ensures holding_itself { well_named holding_itself ≡ false }
    ensures struct_left_out { well_named struct_left_out ≡ false }
{}

/// The nodes of that package make its tree, and stand in the order that every package keeps.
pub fn the_nodes_of_a_package()
    ensures tree { named_package counting_nodes ≡ counting }
    ensures exprs { NamedExprsOrdered 0 counting_nodes.exprs }
    ensures stmts { NamedStmtsOrdered (length counting_nodes.texts) (length counting_nodes.exprs) 0 counting_nodes.stmts }
{}
