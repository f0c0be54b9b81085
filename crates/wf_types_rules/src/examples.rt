// Worked examples: small resolved packages with the first refusal, computed. Each is the contract of a function that
// does nothing.

ghost use Rattle.std.specs.Prelude.{◌≡◌, Some, None, true};
ghost use Rattle.wf_text.specs.declared.rules.Rule.TheVariants.{T1, T2, T3, T4, T5, E1, E2, E3, E4, E5};
ghost use Rattle.wf_base.specs.declared.marks.Mark.TheVariants.{Pure, Impure, Coroutine};
ghost use Rattle.wf_base.specs.declared.widths.Width.TheVariants.{W8};
ghost use Rattle.wf_ast.specs.declared.operators.Op.TheVariants as ops;
ghost use Rattle.wf_named.specs.declared.nodes.BaseType.TheVariants as bases;
ghost use Rattle.wf_named.specs.NamedTree.{number, status, truth, path, index, answer, chain, convert, absent, present, no_link, link, no_arg, more_args, slice_of, array_of, base_type, unrefined, to_path, to_element, assign, keep, do_call, branch, leave, back, suspend, close, more_stmts, no_else, otherwise, arm};
ghost use Rattle.wf_named.specs.Examples.{at, local, field, arg};
ghost use Rattle.wf_text.specs.Precedence.{refused};
ghost use Rattle.wf_types_rules.specs.FirstBreak.{deciding};
ghost use Rattle.wf_types_rules.specs.Examples.{here, constant_package, byte_type, refined_byte, doing, giving, x_path, assigning, pair, x_at, calls_own, reads, looping};

/// Constants, each alone in its package: 255 and 256 in a byte, a difference below 0, a divisor 0, a shift by the
/// width, a whole product of 0, a sum that leaves the width of its `as`, a bool; bounds that cross, are too high,
/// and hold the value.
pub fn constants_by_the_rules_of_types()
    ensures byte_255 { deciding (constant_package byte_type (number 255 (at 1 25))) ≡ None }
    ensures byte_256 { deciding (constant_package byte_type (number 256 (at 1 25))) ≡ Some (refused T5 (at 1 25)) }
    ensures below_zero { deciding (constant_package byte_type (pair ops.Sub (number 1 (at 1 25)) (number 2 (at 1 29)))) ≡ Some (refused T5 (at 9 30)) }
    ensures divided_by_zero { deciding (constant_package byte_type (pair ops.Div (number 1 (at 1 25)) (number 0 (at 1 29)))) ≡ Some (refused T5 (at 9 30)) }
    ensures shift_by_64 { deciding (constant_package byte_type (pair ops.Shl (number 1 (at 1 25)) (number 64 (at 1 30)))) ≡ Some (refused T5 (at 9 30)) }
    ensures shift_by_63_back { deciding (constant_package byte_type (pair ops.Shr (pair ops.Shl (number 1 (at 1 25)) (number 63 (at 1 30))) (number 63 (at 1 30)))) ≡ None }
    ensures whole_product { deciding (constant_package byte_type (chain ops.Mul (number 9223372036854775808 (at 1 25)) (link (at 1 26) (number 2 (at 1 27)) (link (at 1 28) (number 0 (at 1 29)) no_link)) (at 1 26))) ≡ None }
    ensures narrowed { deciding (constant_package byte_type (convert (number 256 (at 1 25)) byte_type (at 1 29))) ≡ Some (refused T5 (at 1 29)) }
    ensures beside_a_byte { deciding (constant_package byte_type (pair ops.Sub (number 300 (at 1 25)) (convert (number 200 (at 1 31)) byte_type (at 1 35)))) ≡ Some (refused T5 (at 1 25)) }
    ensures no_number { deciding (constant_package byte_type (truth true (at 1 25))) ≡ Some (refused T1 (at 1 25)) }
    ensures no_numeric_type { deciding (constant_package (base_type (Some bases.Flag) (at 1 15) unrefined) (number 1 (at 1 25))) ≡ Some (refused T1 (at 1 15)) }
    ensures no_type { deciding (constant_package (base_type None (at 1 15) unrefined) (number 1 (at 1 25))) ≡ Some (refused T1 (at 1 15)) }
    ensures crossed { deciding (constant_package (refined_byte (present (number 9 (at 1 24))) 5) (number 5 (at 1 40))) ≡ Some (refused T5 (at 1 24)) }
    ensures too_high { deciding (constant_package (refined_byte absent 256) (number 5 (at 1 40))) ≡ Some (refused T5 (at 1 28)) }
    ensures outside_its_bounds { deciding (constant_package (refined_byte (present (number 2 (at 1 24))) 5) (number 1 (at 1 40))) ≡ Some (refused T5 (at 1 40)) }
    ensures an_empty_array { deciding (constant_package (array_of (number 0 (at 1 21)) (at 1 15) (base_type (Some (bases.Number W8)) (at 1 24) unrefined)) (number 1 (at 1 40))) ≡ Some (refused T1 (at 1 15)) }
    ensures a_slice_out_of_bounds { deciding (constant_package (slice_of (at 1 9) (refined_byte absent 256)) (number 1 (at 1 40))) ≡ Some (refused T1 (at 1 9)) }
    ensures a_slice_of_no_type { deciding (constant_package (slice_of (at 1 9) (base_type None (at 1 15) unrefined)) (number 1 (at 1 40))) ≡ Some (refused T1 (at 1 15)) }
    ensures within_its_bounds { deciding (constant_package (refined_byte (present (number 2 (at 1 24))) 5) (number 5 (at 1 40))) ≡ None }
{}

/// Assignments of operators: of one width, of two, of a bool, of a constant that doesn't fit, of a whole array,
/// and with the operator before the `=`.
pub fn operands_by_the_rules_of_types()
    ensures one_width { deciding (doing Impure (assigning x_path (pair ops.Add (x_at 10) (path (arg 0 (here 14)))))) ≡ None }
    ensures two_widths { deciding (doing Impure (assigning x_path (pair ops.Add (x_at 10) (path (local 1 (here 14)))))) ≡ Some (refused T1 (at 9 14)) }
    ensures a_bool { deciding (doing Impure (assigning x_path (pair ops.Add (truth true (here 10)) (x_at 14)))) ≡ Some (refused T1 (at 9 10)) }
    ensures unfit_constant { deciding (doing Impure (assigning x_path (pair ops.Add (number 256 (here 10)) (x_at 14)))) ≡ Some (refused T5 (at 9 10)) }
    ensures fit_constant { deciding (doing Impure (assigning x_path (pair ops.Add (number 255 (here 10)) (x_at 14)))) ≡ None }
    ensures wide_shift { deciding (doing Impure (assigning x_path (pair ops.Shl (x_at 10) (number 300 (here 14))))) ≡ None }
    ensures shift_without_width { deciding (doing Impure (assigning x_path (pair ops.Shl (number 1 (here 10)) (x_at 14)))) ≡ Some (refused T1 (at 9 14)) }
    ensures whole_array { deciding (doing Impure (assigning x_path (path (field 2 (here 10))))) ≡ Some (refused T1 (at 9 10)) }
    ensures an_element { deciding (doing Impure (assigning x_path (index (field 2 (here 10)) (path (local 1 (here 20))) (here 19)))) ≡ None }
    ensures element_of_a_number { deciding (doing Impure (assigning x_path (index (field 0 (here 10)) (x_at 20) (here 19)))) ≡ Some (refused T1 (at 9 10)) }
    ensures index_by_a_bool { deciding (doing Impure (assigning x_path (index (field 2 (here 10)) (path (local 3 (here 20))) (here 19)))) ≡ Some (refused T1 (at 9 20)) }
    ensures added_to_a_bool { deciding (doing Impure (assign (to_path (local 3 (here 5))) (Some ops.Add) (here 8) (number 1 (here 12)) (here 5))) ≡ Some (refused T1 (at 9 5)) }
    ensures added_to_a_byte { deciding (doing Impure (assign x_path (Some ops.Add) (here 8) (number 256 (here 12)) (here 5))) ≡ Some (refused T5 (at 9 12)) }
{}

/// Targets: a local, an argument, a whole array, an element; a bool, a constant that bounds will refuse, and calls with
/// and without a value for a byte.
pub fn targets_by_the_rules_of_types()
    ensures an_argument { deciding (doing Impure (assigning (to_path (arg 0 (here 5))) (number 1 (here 10)))) ≡ Some (refused T2 (at 9 5)) }
    ensures an_array { deciding (doing Impure (assigning (to_path (field 2 (here 5))) (number 1 (here 10)))) ≡ Some (refused T2 (at 9 5)) }
    ensures an_element { deciding (doing Impure (assigning (to_element (field 2 (here 5)) (number 1 (here 12)) (here 11)) (number 1 (here 15)))) ≡ None }
    ensures of_another_type { deciding (doing Impure (assigning x_path (truth true (here 10)))) ≡ Some (refused T2 (at 9 5)) }
    ensures of_another_width { deciding (doing Impure (assigning x_path (path (local 1 (here 10))))) ≡ Some (refused T2 (at 9 5)) }
    ensures a_number_of_any_size { deciding (doing Impure (assigning x_path (number 256 (here 10)))) ≡ None }
    ensures no_value { deciding (doing Coroutine (assigning x_path (answer (calls_own 2 Coroutine no_arg)))) ≡ Some (refused T2 (at 9 5)) }
    ensures a_byte_that_is_read { deciding (doing Coroutine (assigning x_path (answer (reads Coroutine)))) ≡ None }
    ensures an_answer_of_another_width { deciding (doing Impure (assigning x_path (answer (calls_own 1 Pure (more_args (number 1 (here 30)) no_arg))))) ≡ Some (refused T2 (at 9 5)) }
    ensures an_answer { deciding (doing Impure (assigning (to_path (field 0 (here 5))) (answer (calls_own 1 Pure (more_args (number 1 (here 30)) no_arg))))) ≡ None }
    ensures a_wrong_argument { deciding (doing Impure (assigning (to_path (field 0 (here 5))) (answer (calls_own 1 Pure (more_args (x_at 30) no_arg))))) ≡ Some (refused T1 (at 9 30)) }
    ensures an_argument_of_any_size { deciding (doing Impure (assigning (to_path (field 0 (here 5))) (answer (calls_own 1 Pure (more_args (number 4294967296 (here 30)) no_arg))))) ≡ None }
    ensures both_wrong { deciding (doing Impure (assigning x_path (answer (calls_own 1 Pure (more_args (x_at 30) no_arg))))) ≡ Some (refused T1 (at 9 30)) }
{}

/// Conditions and results: a loop on a number and on a bool; a method with a result that returns it, returns
/// nothing, or may reach its end, also by a `break`; a coroutine that returns without a status.
pub fn conditions_and_results_by_the_rules_of_types()
    ensures a_number { deciding (doing Impure (looping (x_at 11) (close (at 9 40)))) ≡ Some (refused T3 (at 9 11)) }
    ensures a_flag { deciding (doing Impure (looping (path (local 3 (here 11))) (close (at 9 40)))) ≡ None }
    ensures a_result { deciding (giving (more_stmts (back (present (x_at 12)) (here 5)) (close (at 10 1)))) ≡ None }
    ensures nothing { deciding (giving (more_stmts (back absent (here 5)) (close (at 10 1)))) ≡ Some (refused T4 (at 9 5)) }
    ensures another_type { deciding (giving (more_stmts (back (present (truth true (here 12))) (here 5)) (close (at 10 1)))) ≡ Some (refused T4 (at 9 5)) }
    ensures a_result_of_any_size { deciding (giving (more_stmts (back (present (number 256 (here 12))) (here 5)) (close (at 10 1)))) ≡ None }
    ensures the_end { deciding (giving (close (at 10 1))) ≡ Some (refused T4 (at 10 1)) }
    ensures a_loop_without_end { deciding (giving (more_stmts (looping (truth true (here 11)) (close (at 9 40))) (close (at 10 1)))) ≡ None }
    ensures a_loop_that_is_left { deciding (giving (more_stmts (looping (truth true (here 11)) (more_stmts (leave 0 (here 20)) (close (at 9 40)))) (close (at 10 1)))) ≡ Some (refused T4 (at 10 1)) }
    ensures half_an_if { deciding (giving (more_stmts (branch (arm (path (local 3 (here 8))) (more_stmts (back (present (x_at 20)) (here 13)) (close (here 25))) no_else) (here 5)) (close (at 10 1)))) ≡ Some (refused T4 (at 10 1)) }
    ensures a_whole_if { deciding (giving (more_stmts (branch (arm (path (local 3 (here 8))) (more_stmts (back (present (x_at 20)) (here 13)) (close (here 25))) (otherwise (more_stmts (back (present (x_at 40)) (here 33)) (close (here 45))))) (here 5)) (close (at 10 1)))) ≡ None }
    ensures a_value_of_no_result { deciding (doing Impure (back (present (x_at 12)) (here 5))) ≡ Some (refused T4 (at 9 5)) }
    ensures no_status { deciding (doing Coroutine (back absent (here 5))) ≡ Some (refused T4 (at 9 5)) }
    ensures a_status { deciding (doing Coroutine (back (present (status 10 (here 12))) (here 5))) ≡ None }
{}

/// Writes, calls, `=?` and `yield?` in methods of each mark.
pub fn effects_by_the_rules_of_effects()
    ensures a_pure_write { deciding (doing Pure (assigning (to_path (field 0 (here 5))) (number 1 (here 10)))) ≡ Some (refused E1 (at 9 5)) }
    ensures an_impure_write { deciding (doing Impure (assigning (to_path (field 0 (here 5))) (number 1 (here 10)))) ≡ None }
    ensures a_pure_write_of_a_local { deciding (doing Pure (assigning x_path (number 1 (here 10)))) ≡ None }
    ensures a_pure_write_of_an_element { deciding (doing Pure (assigning (to_element (field 2 (here 5)) (number 1 (here 12)) (here 11)) (number 1 (here 15)))) ≡ Some (refused E1 (at 9 11)) }
    ensures an_impure_read { deciding (doing Impure (assigning x_path (answer (reads Coroutine)))) ≡ Some (refused E2 (at 9 22)) }
    ensures a_read_inside { deciding (doing Coroutine (assigning x_path (pair ops.Add (answer (reads Coroutine)) (x_at 40)))) ≡ Some (refused E3 (at 9 22)) }
    ensures an_own_call_inside { deciding (doing Impure (assigning (to_path (field 0 (here 5))) (pair ops.Add (answer (calls_own 1 Pure (more_args (number 1 (here 25)) no_arg))) (number 1 (here 40))))) ≡ Some (refused E3 (at 9 22)) }
    ensures another_mark { deciding (doing Impure (do_call (calls_own 1 Impure (more_args (number 1 (here 25)) no_arg)) (here 5))) ≡ Some (refused E3 (at 9 22)) }
    ensures kept { deciding (doing Coroutine (keep (to_path (local 2 (here 5))) (calls_own 2 Coroutine no_arg) (here 5))) ≡ None }
    ensures kept_in_a_byte { deciding (doing Coroutine (keep x_path (calls_own 2 Coroutine no_arg) (here 5))) ≡ Some (refused E4 (at 9 22)) }
    ensures kept_of_a_read { deciding (doing Coroutine (keep (to_path (local 2 (here 5))) (reads Coroutine) (here 5))) ≡ Some (refused E4 (at 9 22)) }
    ensures kept_outside { deciding (doing Impure (keep (to_path (local 2 (here 5))) (calls_own 2 Coroutine no_arg) (here 5))) ≡ Some (refused E2 (at 9 22)) }
    ensures a_yield { deciding (doing Coroutine (suspend (status 11 (here 12)) (here 5))) ≡ None }
    ensures a_yield_of_an_error { deciding (doing Coroutine (suspend (status 10 (here 12)) (here 5))) ≡ Some (refused E5 (at 9 12)) }
    ensures a_yield_outside { deciding (doing Impure (suspend (status 11 (here 12)) (here 5))) ≡ Some (refused E2 (at 9 5)) }
{}
