// Worked examples: resolved packages with their typed trees, computed. Each is the contract of a function that does
// nothing.

ghost use Rattle.std.specs.Prelude.{◌≡◌, true, false, not, is_some, None, Some, [], ◌∷◌, codes};
ghost use Rattle.std.specs.List.{list_all};
ghost use Rattle.wf_base.specs.declared.base_methods.ReadForm.TheVariants.{ReadU8, ReadU16Be};
ghost use Rattle.wf_base.specs.declared.base_methods.PeekForm.TheVariants.{PeekU8};
ghost use Rattle.wf_base.specs.declared.marks.Mark.TheVariants.{Pure, Impure, Coroutine};
ghost use Rattle.wf_ast.specs.declared.parsed.Clause.TheVariants.{Inv};
ghost use Rattle.wf_text.specs.declared.categories.Category.TheVariants.{Fault};
ghost use Rattle.wf_ast.specs.TypedTree.{plus, minus, shift_left, sat_plus, bits_or, less, at_least, greater, read, element, link, convert, length_of, asked, peek, slice, array, cut, absent, present, status, held, truth, flag, compare, same_status, junction, negation, closed, has_category, numeric, logical, state, elements, to_number, to_element, to_flag, to_status, to_slice, to_nothing, take_number, skip, write, skip_fast, write_fast, copy_to_writer, copy_to_slice, own, sub, assign, await, perform, invoke, break_from, continue_in, give_back, yield, claim, end, plain, choose, loop, local, field, arg};
ghost use Rattle.wf_ast.specs.StatementOrder.{stand_in_order};
ghost use Rattle.wf_ast.specs.WellTyped.{well_typed};
ghost use Rattle.wf_named.specs.Examples.{at, counting};
ghost use Rattle.wf_named.specs.WellNamed.{well_named};
ghost use Rattle.wf_named.specs.Grammar.{package_by_grammar};
ghost use Rattle.wf_types_rules.specs.FirstBreak.{deciding};
ghost use Rattle.wf_types_rules.specs.Examples.{here};
ghost use Rattle.wf_typed_tree.specs.ElaboratedStmts.{site};
ghost use Rattle.wf_typed_tree.specs.ElaboratedPackage.{typed_package};
ghost use Rattle.wf_typed_tree.specs.Examples.{byte, half, word32, typed_counting, body_typed, typed_x, typed_a, typed_number, alone, to_x};
ghost use Rattle.wf_typed_tree.specs.ExampleStmts as samples;

/// A package with a struct, a constant, a status and two methods has this typed tree, which keeps the rules.
pub fn the_typed_tree_of_a_package()
    ensures tree { typed_package counting ≡ typed_counting }
    ensures kept { well_typed (typed_package counting) ≡ true }
    ensures placed { stand_in_order (typed_package counting) ≡ true }
{}

/// The packages of the other examples are as the grammar gives them and keep the rules of names and of types, and their
/// typed trees keep the rules of typed packages.
pub fn the_examples_keep_the_rules()
    ensures names { list_all well_named samples.samples ≡ true }
    ensures base_names { list_all well_named samples.base_samples ≡ true }
    ensures other_names { list_all well_named samples.other_samples ≡ true }
    ensures grammar { list_all package_by_grammar samples.samples ≡ true }
    ensures base_grammar { list_all package_by_grammar samples.base_samples ≡ true }
    ensures other_grammar { list_all package_by_grammar samples.other_samples ≡ true }
    ensures types { list_all (λ p. not (is_some (deciding p))) samples.samples ≡ true }
    ensures base_types { list_all (λ p. not (is_some (deciding p))) samples.base_samples ≡ true }
    ensures other_types { list_all (λ p. not (is_some (deciding p))) samples.other_samples ≡ true }
    ensures trees { list_all (λ p. well_typed (typed_package p)) samples.samples ≡ true }
    ensures base_trees { list_all (λ p. well_typed (typed_package p)) samples.base_samples ≡ true }
    ensures other_trees { list_all (λ p. well_typed (typed_package p)) samples.other_samples ≡ true }
{}

/// A constant beside a number takes its width and stands as its value; a chain is one operator before the other.
pub fn typed_trees_of_operators()
    ensures constant_beside { body_typed samples.constant_beside ≡ alone (assign to_x None (numeric (link (here 30) (here 30) plus 8 false (typed_number 48 28) (typed_a 32)))) }
    ensures product_beside { body_typed samples.product_beside ≡ alone (assign to_x None (numeric (link (here 30) (here 30) minus 8 false (typed_number 24 12) (typed_a 32)))) }
    ensures converted_constant { body_typed samples.converted_constant ≡ alone (assign (to_number (here 5) half (local 1)) None (numeric (typed_number 255 14))) }
    ensures converted { body_typed samples.converted ≡ alone (assign (to_number (here 5) half (local 1)) None (numeric (convert (here 12) (here 12) 16 (typed_x 10)))) }
    ensures wide_shift { body_typed samples.wide_shift ≡ alone (assign to_x None (numeric (link (here 30) (here 30) shift_left 8 false (typed_x 28) (typed_number 300 33)))) }
    ensures chain_of_three { body_typed samples.chain_of_three ≡ alone (assign to_x None (numeric (link (here 12) (here 16) plus 8 true (link (here 12) (here 12) plus 8 false (typed_x 10) (typed_a 14)) (typed_number 1 18)))) }
    ensures constants_in_front { body_typed samples.constants_in_front ≡ alone (assign to_x None (numeric (link (here 12) (here 16) plus 8 true (link (here 12) (here 12) plus 8 false (typed_number 1 10) (typed_number 2 14)) (typed_x 18)))) }
    ensures conditions_joined { body_typed samples.conditions_joined ≡ alone (assign (to_flag (here 5) (local 3)) None (logical (junction (here 12) true true (junction (here 12) true false (flag (here 10) (local 3)) (negation (here 14) (flag (here 15) (local 3)))) (truth (here 18) true)))) }
    ensures update { body_typed samples.update ≡ alone (assign to_x (Some sat_plus) (numeric (link (here 8) (here 8) sat_plus 8 false (typed_x 5) (typed_number 1 14)))) }
    ensures element_update { body_typed samples.element_update ≡ alone (assign (to_element (here 11) byte (array (here 5) byte 4 (field 2)) (typed_number 1 12)) (Some bits_or) (numeric (link (here 15) (here 15) bits_or 8 false (element (here 11) byte (array (here 5) byte 4 (field 2)) (typed_number 1 12)) (typed_x 18)))) }
{}

/// An `else if` is chained to the `if` before it, and has its number. A loop has the number after those of its body.
pub fn typed_trees_of_blocks()
    ensures else_if { body_typed samples.else_if ≡ choose (site 3 (here 5)) false (flag (here 8) (local 3)) (plain (site 0 (here 5)) (assign to_x None (numeric (typed_number 1 11))) end) (choose (site 3 (here 5)) true (compare (here 30) (here 30) (typed_x 28) less (typed_a 32)) (plain (site 1 (here 5)) (assign to_x None (numeric (typed_number 2 41))) end) (plain (site 2 (here 5)) (assign to_x None (numeric (typed_number 3 51))) end) end) end }
    ensures loops { body_typed samples.loops ≡ loop (site 3 (here 5)) (record { cond = compare (here 30) (here 30) (typed_x 28) less (typed_number 10 32); clauses = (Inv, compare (here 30) (here 30) (typed_a 28) at_least (typed_x 33)) ∷ []; is_left = true; close = here 60 }) (loop (site 1 (here 40)) (record { cond = truth (here 41) true; clauses = []; is_left = false; close = here 47 }) (plain (site 0 (here 44)) (break_from 3) end) (plain (site 2 (here 50)) (continue_in 3) end)) end }
{}

/// Base methods that suspend, that write, and that are asked for a value; elements and slices.
pub fn typed_trees_of_base_methods()
    ensures reading { body_typed samples.reading ≡ alone (await (here 22) to_x 1 (take_number ReadU8)) }
    ensures reading_more { body_typed samples.reading_more ≡ alone (await (here 22) (to_number (here 5) half (local 1)) 1 (take_number ReadU16Be)) }
    ensures skipping { body_typed samples.skipping ≡ alone (await (here 22) to_nothing 1 (skip (typed_number 7 30))) }
    ensures writing { body_typed samples.writing ≡ alone (await (here 22) to_nothing 2 (write (typed_number 48 30))) }
    ensures skipping_fast { body_typed samples.skipping_fast ≡ alone (perform (here 22) to_nothing (skip_fast 1 (typed_number 1 30) (typed_number 2 40))) }
    ensures writing_fast { body_typed samples.writing_fast ≡ alone (perform (here 22) to_nothing (write_fast 2 (typed_x 30))) }
    ensures copying { body_typed samples.copying ≡ alone (perform (here 22) to_nothing (copy_to_writer 2 (slice (here 30) 8 (arg 3)))) }
    ensures copying_a_part { body_typed samples.copying_a_part ≡ alone (perform (here 22) to_nothing (copy_to_slice (slice (here 20) 8 (local 4)) (cut (here 31) (slice (here 30) 8 (arg 3)) (present (typed_x 32)) absent))) }
    ensures lengths { body_typed samples.lengths ≡ alone (assign (to_flag (here 5) (local 3)) None (logical (compare (here 30) (here 30) (length_of (here 22) (slice (here 20) 8 (arg 3))) greater (length_of (here 22) (array (here 40) byte 4 (field 2)))))) }
    ensures closing { body_typed samples.closing ≡ alone (assign (to_flag (here 5) (local 3)) None (logical (closed (here 22) 1))) }
    ensures peeking { body_typed samples.peeking ≡ alone (assign to_x None (numeric (asked (here 22) (peek PeekU8) 1))) }
    ensures slicing { body_typed samples.slicing ≡ alone (assign (to_slice (here 5) 8 (local 4)) None (elements (cut (here 11) (array (here 10) byte 4 (field 2)) (present (typed_number 1 12)) (present (typed_a 15))))) }
    ensures indexing { body_typed samples.indexing ≡ alone (assign to_x None (numeric (element (here 11) byte (slice (here 10) 8 (arg 3)) (read (here 12) half (local 1))))) }
{}

/// Statuses, calls of the package's own methods, results, yields and assertions.
pub fn typed_trees_of_calls_and_statuses()
    ensures status_assigned { body_typed samples.status_assigned ≡ alone (assign (to_status (here 5) (local 2)) None (state (status (here 10) 10))) }
    ensures status_compared { body_typed samples.status_compared ≡ alone (assign (to_flag (here 5) (local 3)) None (logical (same_status (here 30) (here 30) (held (here 28) (local 2)) false (status (here 33) 0)))) }
    ensures status_asked { body_typed samples.status_asked ≡ alone (assign (to_flag (here 5) (local 3)) None (logical (has_category (here 22) (held (here 20) (local 2)) Fault))) }
    ensures status_kept { body_typed samples.status_kept ≡ alone (invoke (here 22) (to_status (here 5) (local 2)) true Coroutine (own 2) []) }
    ensures coroutine_called { body_typed samples.coroutine_called ≡ alone (invoke (here 22) to_nothing false Coroutine (own 2) []) }
    ensures answer_assigned { body_typed samples.answer_assigned ≡ alone (invoke (here 22) (to_number (here 5) word32 (field 0)) false Pure (own 1) (numeric (typed_number 9 30) ∷ [])) }
    ensures field_called { body_typed samples.field_called ≡ alone (invoke (here 22) to_nothing false Impure (sub 3 3) (numeric (typed_x 30) ∷ [])) }
    ensures status_returned { body_typed samples.status_returned ≡ alone (give_back (Some (state (status (here 12) 10)))) }
    ensures number_returned { body_typed samples.number_returned ≡ alone (give_back (Some (numeric (typed_number 7 12)))) }
    ensures yielding { body_typed samples.yielding ≡ alone (yield 11) }
    ensures claiming { body_typed samples.claiming ≡ alone (claim (compare (here 30) (here 30) (typed_x 28) less (typed_a 32)) (Some (record { at = here 40; text = codes "a < b: a < c; c < b"; given = (codes "c", typed_number 48 65) ∷ [] }))) }
    ensures claiming_alone { body_typed samples.claiming_alone ≡ alone (claim (flag (here 12) (local 3)) None) }
{}
