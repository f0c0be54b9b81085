// Worked examples of agreement, computed from the two meanings. Each is the contract of a function that does nothing.

ghost use Rattle.std.specs.Prelude.{◌≡◌};
ghost use Rattle.wf_ast.specs.TypedPackage.{surface_of};
ghost use Rattle.wf_meaning.specs.Demo.{demo};
ghost use Rattle.wf_meaning.specs.Rows.{one_piece_receivers, one_piece_actions, byte_by_byte_receivers, byte_by_byte_actions, too_large_receivers, too_large_actions, not_ready_receivers, not_ready_actions, null_buffer_receivers, null_buffer_actions};
ghost use Rattle.c_meaning.specs.ParserText.{parser_text, parser_surface};
ghost use Rattle.c_meaning.specs.UnitForm.{HasUnitForm};
ghost use Rattle.wf_carries.specs.Carries.{AnswersAlike};

/// The structured text that a person would write for the parser of decimal numbers has the unit form for its package.
pub fn a_parsers_text_has_its_unit_form()
    ensures surface { surface_of demo ≡ parser_surface }
    ensures form { HasUnitForm (surface_of demo) parser_text }
{}

/// That text and the package answer alike: a number in two pieces, the same byte by byte, the largest number and one
/// more, receivers that aren't ready, and a null buffer.
#[tactic(auto, unfolding(turns::specs::Run::run, turns::specs::Run::runs, turns::specs::Run::holding))]
pub fn a_parsers_text_answers_as_its_package()
    ensures one_piece { AnswersAlike demo parser_text one_piece_receivers one_piece_actions }
    ensures byte_by_byte { AnswersAlike demo parser_text byte_by_byte_receivers byte_by_byte_actions }
    ensures too_large { AnswersAlike demo parser_text too_large_receivers too_large_actions }
    ensures not_ready { AnswersAlike demo parser_text not_ready_receivers not_ready_actions }
    ensures null_buffer { AnswersAlike demo parser_text null_buffer_receivers null_buffer_actions }
{}
