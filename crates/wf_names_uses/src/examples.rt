// Worked examples: small packages with what is found of their uses of names, computed. Each is the contract of a
// function that does nothing.

ghost use Rattle.std.specs.Prelude.{◌≡◌, None, ◌∷◌, [], map};
ghost use Rattle.wf_text.specs.declared.rules.Rule.TheVariants.{N1, N2, N6, N7, N8};
ghost use Rattle.wf_ast.specs.ParsedTree as tree;
ghost use Rattle.wf_names_scopes.specs.UsesFound.{uses_found};
ghost use Rattle.wf_names_uses.specs.Examples.{at, here, refused, name, bare, field, arg, one, sum, up_to, struct, variable, constant, constant_k, constant_l, package_with, fields_of_s, owner_s, body_of, doing, with_constants, with_field, owned_by, give, set, set_v, given, calls_this, calls_on, statements_with, packages_with};

/// Statuses: one that the package declares and one that it doesn't; one of the language, one that isn't, and one of the
/// package where one of the language should stand.
pub fn statuses_by_the_rules_of_names()
    ensures declared { uses_found (doing (give (tree.own_status (name "#bad" (here 12))))) None ≡ None }
    ensures not_declared { uses_found (doing (give (tree.own_status (name "#gone" (here 12))))) None ≡ refused N1 (here 12) }
    ensures of_the_language { uses_found (doing (give (tree.base_status (name "$short read" (here 17)) (here 12)))) None ≡ None }
    ensures not_of_the_language { uses_found (doing (give (tree.base_status (name "#gone" (here 17)) (here 12)))) None ≡ refused N1 (here 17) }
    ensures of_the_package { uses_found (doing (give (tree.base_status (name "#bad" (here 17)) (here 12)))) None ≡ refused N1 (here 17) }
{}

/// Variables in a method: a local, a constant, a field and an argument, and next to each one that isn't there or is written as
/// another kind.
pub fn variables_by_the_rules_of_names()
    ensures a_local { uses_found (doing (set_v (tree.path (bare "v" 9)))) None ≡ None }
    ensures a_constant { uses_found (doing (set_v (tree.path (bare "K" 9)))) None ≡ None }
    ensures neither { uses_found (doing (set_v (tree.path (bare "gone" 9)))) None ≡ refused N1 (here 9) }
    ensures a_field_as_a_local { uses_found (doing (set_v (tree.path (bare "n" 9)))) None ≡ refused N1 (here 9) }
    ensures an_argument_as_a_local { uses_found (doing (set_v (tree.path (bare "k" 9)))) None ≡ refused N1 (here 9) }
    ensures a_field { uses_found (doing (set_v (tree.path (field "n" 9)))) None ≡ None }
    ensures no_field { uses_found (doing (set_v (tree.path (field "gone" 9)))) None ≡ refused N1 (here 14) }
    ensures a_local_as_a_field { uses_found (doing (set_v (tree.path (field "v" 9)))) None ≡ refused N1 (here 14) }
    ensures an_argument { uses_found (doing (set_v (tree.path (arg "k" 9)))) None ≡ None }
    ensures no_argument { uses_found (doing (set_v (tree.path (arg "gone" 9)))) None ≡ refused N1 (here 14) }
    ensures an_argument_of_another_method { uses_found (doing (set_v (tree.path (arg "a" 9)))) None ≡ refused N1 (here 14) }
    ensures a_target { uses_found (doing (set (field "n" 5) (one 14))) None ≡ None }
    ensures no_target { uses_found (doing (set (field "gone" 5) (one 17))) None ≡ refused N1 (here 10) }
{}

/// Constants, which know those before them: one before, one after, itself, in a value and in a bound, and a field.
pub fn constants_by_the_rules_of_names()
    ensures in_front { uses_found (with_constants (constant_k 9 ∷ constant_l 10 (tree.path (bare "K" 26)) ∷ [])) None ≡ None }
    ensures behind { uses_found (with_constants (constant_l 9 (tree.path (bare "K" 26)) ∷ constant_k 10 ∷ [])) None ≡ refused N1 (here 26) }
    ensures itself { uses_found (with_constants (constant_l 9 (tree.path (bare "L" 26)) ∷ [])) None ≡ refused N1 (here 26) }
    ensures a_bound_in_front { uses_found (with_constants (constant_k 2 ∷ constant "L" (at 9 11) (up_to (tree.path (bare "K" 28)) (at 9 15)) (one 33) ∷ [])) None ≡ None }
    ensures a_bound_behind { uses_found (with_constants (constant "L" (at 9 11) (up_to (tree.path (bare "K" 28)) (at 9 15)) (one 33) ∷ constant_k 10 ∷ [])) None ≡ refused N1 (here 28) }
    ensures a_field { uses_found (with_constants (constant_l 9 (tree.path (field "n" 26)) ∷ [])) None ≡ refused N1 (here 31) }
{}

/// Structs: as the type of a field, before its declaration and where there is none; in an array, whose length is a
/// constant; and as the owner of a method.
pub fn structs_by_the_rules_of_names()
    ensures in_front_of_it { uses_found (with_field (struct "p" (here 9))) None ≡ None }
    ensures none { uses_found (with_field (struct "gone" (here 9))) None ≡ refused N1 (here 9) }
    ensures in_an_array { uses_found (with_field (tree.array_of (tree.path (bare "K" 15)) (here 9) (struct "p" (here 18)))) None ≡ None }
    ensures none_in_an_array { uses_found (with_field (tree.array_of (tree.path (bare "K" 15)) (here 9) (struct "gone" (here 18)))) None ≡ refused N1 (here 18) }
    ensures no_length { uses_found (with_field (tree.array_of (tree.path (bare "gone" 15)) (here 9) (struct "p" (here 21)))) None ≡ refused N1 (here 15) }
    ensures an_owner { uses_found (owned_by (name "p" (here 10))) None ≡ None }
    ensures no_owner { uses_found (owned_by (name "gone" (here 10))) None ≡ refused N1 (here 10) }
{}

/// Methods: on `this`, one that another struct alone has, and one that none has; through a field, and a private one; on a
/// reader, on a writer, on a number, on an argument whose type is a struct, and on a name that isn't there.
pub fn methods_by_the_rules_of_names()
    ensures on_this { uses_found (doing (calls_this "g" (given "a" 12 (one 15) (given "b" 18 (one 21) tree.no_given)))) None ≡ None }
    ensures of_another_struct { uses_found (doing (calls_this "open" (given "k" 15 (one 18) tree.no_given))) None ≡ refused N8 (here 10) }
    ensures of_none { uses_found (doing (calls_this "gone" tree.no_given)) None ≡ refused N1 (here 10) }
    ensures through_a_field { uses_found (doing (calls_on (field "x" 5) "open" 12 (given "k" 17 (one 20) tree.no_given))) None ≡ None }
    ensures private_through_a_field { uses_found (doing (calls_on (field "x" 5) "shut" 12 (given "k" 17 (one 20) tree.no_given))) None ≡ refused N8 (here 12) }
    ensures of_this_through_a_field { uses_found (doing (calls_on (field "x" 5) "g" 12 tree.no_given)) None ≡ refused N1 (here 12) }
    ensures on_a_reader { uses_found (doing (calls_on (arg "src" 5) "skip_u32" 14 (given "n" 23 (one 26) tree.no_given))) None ≡ None }
    ensures on_a_writer { uses_found (doing (calls_on (arg "dst" 5) "skip_u32" 14 (given "n" 23 (one 26) tree.no_given))) None ≡ refused N1 (here 14) }
    ensures on_a_number { uses_found (doing (calls_on (bare "v" 5) "length" 7 tree.no_given)) None ≡ refused N1 (here 7) }
    ensures on_a_struct_that_is_no_field { uses_found (doing (calls_on (arg "part" 5) "open" 15 (given "k" 20 (one 23) tree.no_given))) None ≡ refused N1 (here 15) }
    ensures on_nothing { uses_found (doing (calls_on (bare "gone" 5) "length" 10 tree.no_given)) None ≡ refused N1 (here 5) }
{}

/// Arguments given: each once, in any order; one twice; a reader, a writer and a number passed twice, and two readers; one
/// that the method doesn't have; and one that is missing, of a method and of a base method.
pub fn arguments_by_the_rules_of_names()
    ensures in_another_order { uses_found (doing (calls_this "g" (given "b" 12 (one 15) (given "a" 18 (one 21) tree.no_given)))) None ≡ None }
    ensures given_twice { uses_found (doing (calls_this "g" (given "a" 12 (one 15) (given "b" 18 (one 21) (given "a" 24 (one 27) tree.no_given))))) None ≡ refused N2 (here 24) }
    ensures a_number_passed_twice { uses_found (doing (calls_this "g" (given "a" 12 (tree.path (arg "k" 15)) (given "b" 23 (tree.path (arg "k" 26)) tree.no_given)))) None ≡ None }
    ensures a_reader_passed_twice { uses_found (doing (calls_this "g" (given "a" 12 (tree.path (arg "src" 15)) (given "b" 25 (tree.path (arg "src" 28)) tree.no_given)))) None ≡ refused N2 (here 28) }
    ensures a_writer_passed_twice { uses_found (doing (calls_this "g" (given "a" 12 (tree.path (arg "dst" 15)) (given "b" 25 (tree.path (arg "dst" 28)) tree.no_given)))) None ≡ refused N2 (here 28) }
    ensures two_readers { uses_found (doing (calls_this "g" (given "a" 12 (tree.path (arg "src" 15)) (given "b" 25 (tree.path (arg "in" 28)) tree.no_given)))) None ≡ None }
    ensures unknown { uses_found (doing (calls_this "g" (given "a" 12 (one 15) (given "b" 18 (one 21) (given "k" 24 (one 27) tree.no_given))))) None ≡ refused N6 (here 24) }
    ensures missing { uses_found (doing (calls_this "g" (given "a" 12 (one 15) tree.no_given))) None ≡ refused N7 (here 10) }
    ensures unknown_of_the_language { uses_found (doing (calls_on (arg "src" 5) "skip_u32" 14 (given "n" 23 (one 26) (given "k" 29 (one 32) tree.no_given)))) None ≡ refused N6 (here 29) }
    ensures missing_of_the_language { uses_found (doing (calls_on (arg "src" 5) "skip_u32" 14 tree.no_given)) None ≡ refused N7 (here 14) }
    ensures none_wanted { uses_found (doing (calls_on (arg "src" 5) "length" 14 tree.no_given)) None ≡ None }
{}

/// Where more than one rule is broken the first refusal is found, in whatever order the uses are looked through.
/// A call whose method or an argument of which has no meaning breaks no rule of arguments.
pub fn the_least_place_decides_among_uses()
    ensures two_names { uses_found (doing (set_v (sum (tree.path (bare "gone" 9)) (tree.path (bare "n" 16))))) None ≡ refused N1 (here 9) }
    ensures the_first_is_there { uses_found (doing (set_v (sum (tree.path (bare "v" 9)) (tree.path (bare "n" 16))))) None ≡ refused N1 (here 16) }
    ensures method_and_value { uses_found (doing (calls_this "gone" (given "a" 15 (tree.path (bare "n" 18)) tree.no_given))) None ≡ refused N1 (here 10) }
    ensures value_alone { uses_found (doing (calls_this "g" (given "a" 12 (tree.path (bare "n" 15)) tree.no_given))) None ≡ refused N1 (here 15) }
    ensures no_method_no_arguments { uses_found (doing (calls_this "gone" (given "a" 15 (one 18) (given "a" 21 (one 24) tree.no_given)))) None ≡ refused N1 (here 10) }
    ensures missing_and_unknown { uses_found (doing (calls_this "g" (given "a" 12 (one 15) (given "k" 18 (one 21) tree.no_given)))) None ≡ refused N7 (here 10) }
    ensures twice_and_unknown { uses_found (doing (calls_this "g" (given "a" 12 (one 15) (given "a" 18 (one 21) (given "k" 24 (one 27) (given "b" 30 (one 33) tree.no_given)))))) None ≡ refused N2 (here 18) }
    ensures unknown_and_twice { uses_found (doing (calls_this "g" (given "k" 12 (one 15) (given "a" 18 (one 21) (given "a" 24 (one 27) (given "b" 30 (one 33) tree.no_given)))))) None ≡ refused N6 (here 12) }
    ensures missing_and_private { uses_found (doing (calls_on (field "x" 5) "shut" 12 tree.no_given)) None ≡ refused N7 (here 12) }
    ensures twice_and_unknown_at_one_place { uses_found (doing (calls_this "g" (given "a" 12 (one 15) (given "b" 18 (one 21) (given "k" 24 (one 27) (given "k" 30 (one 33) tree.no_given)))))) None ≡ refused N6 (here 24) }
    ensures owner_in_front_of_a_constant { uses_found (package_with (constant_l 9 (tree.path (bare "gone" 26)) ∷ []) fields_of_s (name "gone" (at 8 10)) (body_of (give (one 12)))) None ≡ refused N1 (at 8 10) }
    ensures the_struct_of_a_field { uses_found (package_with [] (variable "x" (at 3 15) (struct "gone" (at 3 19)) ∷ []) owner_s (body_of (calls_on (field "x" 5) "open" 12 tree.no_given))) None ≡ refused N1 (at 3 19) }
    ensures found_in_front { uses_found (doing (set_v (tree.path (bare "gone" 9)))) (refused N2 (at 8 12)) ≡ refused N2 (at 8 12) }
    ensures found_behind { uses_found (doing (set_v (tree.path (bare "gone" 9)))) (refused N2 (at 9 12)) ≡ refused N1 (here 9) }
    ensures found_before_alone { uses_found (doing (set_v (tree.path (bare "v" 9)))) (refused N2 (at 9 12)) ≡ refused N2 (at 9 12) }
{}

/// No place where a name may stand is left out: of each kind of statement, expression, type and declaration, with a name that
/// is there and one that isn't.
pub fn names_are_looked_for_everywhere()
    ensures there { map (λ st. uses_found (doing st) None) (statements_with (bare "v" 9)) ≡ map (λ st. None) (statements_with (bare "v" 9)) }
    ensures nowhere { map (λ st. uses_found (doing st) None) (statements_with (bare "gone" 9)) ≡ map (λ st. refused N1 (here 9)) (statements_with (bare "gone" 9)) }
    ensures structs { map (λ d. uses_found d None) (packages_with (struct "p" (here 9))) ≡ map (λ d. None) (packages_with (struct "p" (here 9))) }
    ensures no_structs { map (λ d. uses_found d None) (packages_with (struct "gone" (here 9))) ≡ map (λ d. refused N1 (here 9)) (packages_with (struct "gone" (here 9))) }
{}
