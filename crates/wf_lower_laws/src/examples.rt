// Worked examples of the laws of expressions: what they suppose can be met in a body that reads none of a reader's bytes, and in one
// that has variables of each other kind.

ghost use Rattle.std.specs.Prelude.{◌≡◌, ◌++◌, [], ◌∷◌, map, Some, option_and_then, length, true, false, codes};
ghost use Rattle.wf_num.specs.declared.c_arithmetic.CTy.TheVariants.{Int, U32, U64};
ghost use Rattle.wf_ast.specs.TypedTree.{local};
ghost use Rattle.wf_ast.specs.Value.{num};
ghost use Rattle.wf_ast.specs.WellTyped.{well_method};
ghost use Rattle.wf_meaning.specs.SourceCall.{host_values, fresh_local};
ghost use Rattle.wf_meaning.specs.World.{set_path};
ghost use Rattle.c_meaning.specs.declared.cells.Cell.TheVariants.{Num as cell};
ghost use Rattle.c_meaning.specs.declared.cells.CellType.TheVariants.{Flag as flag};
ghost use Rattle.c_meaning.specs.declared.values.CValue.TheVariants.{Address as address};
ghost use Rattle.c_meaning.specs.CMemory.{cell_of};
ghost use Rattle.c_meaning.specs.CExprs.{place, value};
ghost use Rattle.c_meaning.specs.CStep.{assigned};
ghost use Rattle.c_meaning.specs.CTypes.{functions_of, function_named, names_of};
ghost use Rattle.c_meaning.specs.CCall.{frame_object, initialized};
ghost use Rattle.wf_exprs.specs.Exprs.{lowered, lowered_slice, lowered_cond, path_code};
ghost use Rattle.wf_exprs.specs.Words as words;
ghost use Rattle.wf_exprs_laws.specs.ExprLaw as values;
ghost use Rattle.wf_lower.specs.Unit.{lowered_unit};
ghost use Rattle.wf_lower_laws.specs.KindLaw as kinds;
ghost use Rattle.wf_lower_laws.specs.Examples.{length_asked, left, gauge, in_left, names, seen, left_body, before_call, handed, in_body, running_left, inside, no_helpers, bad_receiver_alone, no_bytes};
ghost use Rattle.wf_lower_laws.specs.MixerExample as mixer;

/// A method has a reader and asks only how many bytes are there. Its body in C has no pointer to them; where the body begins, all
/// that the laws of expressions suppose is so, and the question has the source's value.
pub fn what_the_laws_suppose_is_met()
    ensures typed { well_method gauge left ≡ true }
    ensures body { function_named (functions_of (lowered_unit gauge)) left_body.name ≡ Some left_body }
    ensures no_pointer { map (λ it. it.name) (names_of left_body) ≡ codes "self" ∷ codes "a_src" ∷ codes "p_src" ∷ codes "e_src" ∷ [] }
    ensures begins { option_and_then (λ fields. initialized running_left (length left_body.params) left_body.locals (before_call ++ fields ∷ [])) (frame_object left_body handed) ≡ Some in_body }
    ensures stands { values.Stands gauge left seen inside }
    ensures declares { values.Declares names seen inside length_asked }
    ensures gives { values.IsTheNumber inside (lowered names length_asked).code U64 2 }
    ensures kinds { kinds.Declares inside.scope in_left names no_helpers bad_receiver_alone no_bytes }
{}

/// A method has a local, an argument, a field, a slice, an array, a flag and a status. A call by a host begins its body in C, and the
/// first statement sets the local, as in the source; there all that the law of expressions supposes of variables is so.
pub fn variables_of_each_kind_stand()
    ensures typed { well_method mixer.mixer mixer.mix ≡ true }
    ensures text { lowered_unit mixer.mixer ≡ mixer.items }
    ensures body { function_named mixer.program.functions mixer.mix_body.name ≡ Some mixer.mix_body }
    ensures arguments { host_values mixer.of_host.arrays mixer.mix.args mixer.passed ≡ Some mixer.mixing.args }
    ensures fresh { map (λ x. fresh_local x.ty) mixer.mix.locals ≡ (mixer.with_c 0).locals }
    ensures begins { option_and_then (λ fields. initialized mixer.running_mix (length mixer.mix_body.params) mixer.mix_body.locals (mixer.before_call ++ fields ∷ [])) (frame_object mixer.mix_body mixer.handed) ≡ Some (mixer.in_body 0) }
    ensures sets { set_path mixer.mixing (local 0) (num 200) (mixer.with_c 0) ≡ mixer.with_c 200 }
    ensures sets_in_c { assigned (mixer.in_body 0) (place (mixer.inside_with 0) (path_code mixer.names (local 0))) (value (mixer.inside_with 0) (words.num 200)) ≡ Some (mixer.in_body 200) }
    ensures stands { values.Stands mixer.mixer mixer.mix mixer.seen mixer.inside }
{}

/// There the law gives C's values of a sum that stops at 255, which has an element of the array, of an element of the slice, a shift
/// of a converted number, a product of two numbers of 16 bits, and a part of the slice; and it tells that a condition of a flag, a
/// comparison and a status holds, and that its negation doesn't. The flag's cell has 1 and 0 once these are assigned to it.
pub fn expressions_of_each_kind_have_their_values()
    ensures declares { values.Declares mixer.names mixer.seen mixer.inside mixer.mixed }
    ensures constant { values.HasConstant mixer.inside 5 }
    ensures sum { values.IsTheNumber mixer.inside (lowered mixer.names mixer.mixed).code Int 255 }
    ensures element { values.IsTheNumber mixer.inside (lowered mixer.names mixer.third).code Int 7 }
    ensures shift { values.IsTheNumber mixer.inside (lowered mixer.names mixer.raised).code U32 1048560 }
    ensures product { values.IsTheNumber mixer.inside (lowered mixer.names mixer.squared).code Int 1 }
    ensures part { values.PairStands mixer.seen mixer.inside 8 mixer.middle_bytes (lowered_slice mixer.names mixer.middle).pointer (lowered_slice mixer.names mixer.middle).length.code Int }
    ensures pointer { value mixer.inside (lowered_slice mixer.names mixer.middle).pointer ≡ Some (address mixer.second_byte) }
    ensures condition { mixer.Holds mixer.stays_loud true }
    ensures negation { mixer.Holds mixer.goes_silent false }
    ensures kept { option_and_then (cell_of flag) (value mixer.inside (lowered_cond mixer.names mixer.stays_loud)) ≡ Some (cell 1) }
    ensures kept_negation { option_and_then (cell_of flag) (value mixer.inside (lowered_cond mixer.names mixer.goes_silent)) ≡ Some (cell 0) }
{}
