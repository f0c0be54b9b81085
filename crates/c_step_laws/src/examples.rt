// The cells of small texts, computed from the definitions. Each example is the contract of a function that does nothing.

ghost use Rattle.std.specs.Prelude.{◌≡◌, [], ◌∷◌, map, codes};
ghost use Rattle.c_meaning.specs.CTypes.{functions_of};
ghost use Rattle.c_meaning.specs.CCall.{program_of};
ghost use Rattle.c_meaning.specs.declared.values.CValue.TheVariants.{NullPointer as null_pointer};
ghost use Rattle.c_meaning.specs.PartsText.{parts_text};
ghost use Rattle.c_meaning.specs.UnitForm.{HasUnitForm};
ghost use Rattle.c_step_laws.specs.CallChains.{program_cells, own_cells};
ghost use Rattle.c_step_laws.specs.Callees.{callees};
ghost use Rattle.c_step_laws.specs.Passing.{HostPasses, memory_cells};
ghost use Rattle.c_step_laws.specs.ChainText.{chain_text, chain_surface, uncalled_text, three_objects};

/// Three functions, one calling the other: they have one, three and two parameters and locals, and six stand at once. Without
/// the external one no chain begins.
#[tactic(auto)]
pub fn three_functions_stand_at_once()
    ensures form { HasUnitForm chain_surface chain_text }
    ensures callees { map callees (functions_of chain_text) ≡ [] ∷ (codes "twice" ∷ codes "twice" ∷ []) ∷ (codes "quadruple" ∷ []) ∷ [] }
    ensures own { map own_cells (functions_of chain_text) ≡ 1 ∷ 3 ∷ 2 ∷ [] }
    ensures cells { program_cells (program_of chain_text) ≡ 6 }
    ensures none { program_cells (program_of uncalled_text) ≡ 0 }
{}

/// Of several external functions the one with the greatest chain counts: a method that calls a function with an inline one in
/// an expression, two parameters each.
#[tactic(auto)]
pub fn the_greatest_chain_counts()
    ensures own { map own_cells (functions_of parts_text) ≡ 2 ∷ 2 ∷ 1 ∷ 2 ∷ 1 ∷ [] }
    ensures cells { program_cells (program_of parts_text) ≡ 6 }
{}

/// The text of three functions: a host's call of the external one, in a memory of no objects, passes through one with an object of
/// each function, which have all six cells.
pub fn a_run_comes_to_six_cells()
    ensures passes { HostPasses (program_of chain_text) (codes "wuffs_e__e__initialize") 1 (null_pointer ∷ []) [] three_objects }
    ensures cells { memory_cells three_objects ≡ 6 }
{}
