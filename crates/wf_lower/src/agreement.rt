// Worked examples: what a package is lowered to answers as the package does. Each is the contract of a function that does
// nothing.

ghost use Rattle.wf_ast.specs.TypedPackage.{surface_of};
ghost use Rattle.wf_meaning.specs.Demo.{demo};
ghost use Rattle.wf_meaning.specs.Packages.{two, keep, word, resuming, nested, copies, labels, giving_up, spin};
ghost use Rattle.wf_meaning.specs.Rows.{one_piece_receivers, one_piece_actions, byte_by_byte_receivers, byte_by_byte_actions, too_large_receivers, too_large_actions, not_ready_receivers, not_ready_actions, null_buffer_receivers, null_buffer_actions, interleaved_calls_receivers, interleaved_calls_actions, outliving_receivers, outliving_actions, word_in_pieces_receivers, word_in_pieces_actions, anew_receivers, anew_actions, inside_receivers, inside_actions, copying_receivers, copying_actions, leaving_two_receivers, leaving_two_actions, no_suspension_receivers, no_suspension_actions, counting_receivers, counting_actions};
ghost use Rattle.c_meaning.specs.UnitForm.{HasUnitForm};
ghost use Rattle.wf_lower.specs.Unit.{lowered_unit};
ghost use Rattle.wf_lower.specs.DemoText.{demo_text};
ghost use Rattle.wf_lower.specs.Agreement.{RunsAlike};

/// A number in two pieces, the same byte by byte, the largest number and one more, receivers that aren't ready, and a null
/// buffer.
pub fn a_parsers_text_answers_as_its_package()
    ensures one_piece { RunsAlike demo demo_text one_piece_receivers one_piece_actions }
    ensures byte_by_byte { RunsAlike demo demo_text byte_by_byte_receivers byte_by_byte_actions }
    ensures too_large { RunsAlike demo demo_text too_large_receivers too_large_actions }
    ensures not_ready { RunsAlike demo demo_text not_ready_receivers not_ready_actions }
    ensures null_buffer { RunsAlike demo demo_text null_buffer_receivers null_buffer_actions }
{}

/// Two coroutines of one receiver, of which one is called while the other is suspended in a skip.
pub fn interleaved_calls_agree()
    ensures form { HasUnitForm (surface_of two) (lowered_unit two) }
    ensures alike { RunsAlike two (lowered_unit two) interleaved_calls_receivers interleaved_calls_actions }
{}

/// A private coroutine that outlives its caller.
pub fn a_coroutine_that_outlives_its_caller_agrees()
    ensures form { HasUnitForm (surface_of keep) (lowered_unit keep) }
    ensures alike { RunsAlike keep (lowered_unit keep) outliving_receivers outliving_actions }
{}

/// A number of four bytes that comes in pieces.
pub fn a_word_in_pieces_agrees()
    ensures form { HasUnitForm (surface_of word) (lowered_unit word) }
    ensures alike { RunsAlike word (lowered_unit word) word_in_pieces_receivers word_in_pieces_actions }
{}

/// What an argument is at a resumption.
pub fn arguments_anew_agree()
    ensures form { HasUnitForm (surface_of resuming) (lowered_unit resuming) }
    ensures alike { RunsAlike resuming (lowered_unit resuming) anew_receivers anew_actions }
{}

/// A coroutine of a struct that stands in a field.
pub fn a_struct_inside_agrees()
    ensures form { HasUnitForm (surface_of nested) (lowered_unit nested) }
    ensures alike { RunsAlike nested (lowered_unit nested) inside_receivers inside_actions }
{}

/// Copies, of nothing too.
pub fn copies_agree()
    ensures form { HasUnitForm (surface_of copies) (lowered_unit copies) }
    ensures alike { RunsAlike copies (lowered_unit copies) copying_receivers copying_actions }
{}

/// A `break` that leaves two loops.
pub fn leaving_two_loops_agrees()
    ensures form { HasUnitForm (surface_of labels) (lowered_unit labels) }
    ensures alike { RunsAlike labels (lowered_unit labels) leaving_two_receivers leaving_two_actions }
{}

/// A suspension that is returned.
pub fn a_returned_suspension_agrees()
    ensures form { HasUnitForm (surface_of giving_up) (lowered_unit giving_up) }
    ensures alike { RunsAlike giving_up (lowered_unit giving_up) no_suspension_receivers no_suspension_actions }
{}

/// Turns, up to the last one.
pub fn turns_agree()
    ensures form { HasUnitForm (surface_of spin) (lowered_unit spin) }
    ensures alike { RunsAlike spin (lowered_unit spin) counting_receivers counting_actions }
{}
