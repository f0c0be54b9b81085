// Texts and what is seen of them, computed from the definitions. Each example is the contract of a function that does
// nothing.

ghost use Rattle.std.specs.Prelude.{◌≡◌, [], ◌∷◌, ◌++◌, take, drop, codes, Some, None, option_and_then, pos, negsuc};
ghost use Rattle.wf_text.specs.Seen.{answered, turns, undefined, status, num, nothing};
ghost use Rattle.c_text.specs.declared.kinds.COp.TheVariants.{Add, Div};
ghost use Rattle.c_meaning.specs.CRun.{c_run};
ghost use Rattle.wf_text.specs.HostActions.{num as number, io};
ghost use Rattle.c_meaning.specs.CValues.{to_object};
ghost use Rattle.c_meaning.specs.CMemory.{u32, num as holds, cells, part, load, store, offset, move_bytes, zeroed, part_at};
ghost use Rattle.c_meaning.specs.UnitForm.{HasUnitForm, first_break};
ghost use Rattle.c_meaning.specs.PartsText.{parts_text, parts_surface, parts_receivers, parts_actions};
ghost use Rattle.c_meaning.specs.CopyText.{copy_text, copy_surface, copy_receivers, copy_actions, seen_copies};
ghost use Rattle.c_meaning.specs.UndefinedText.{undefined_text, undefined_surface, undefined_receivers, one_call, one_open, nothing_then, two_objects, three_objects, cell_of_object};
ghost use Rattle.c_meaning.specs.TextWords.{io_buffer_item};
ghost use Rattle.c_meaning.specs.FormBreaks.{spin_item, lose_bytes_item, again_item, early_item, late_item, half_item, write_text_item, f_item};
ghost use Rattle.c_meaning.specs.SmallText.{small_text, small_surface, small_receivers, small_actions};
ghost use Rattle.c_meaning.specs.ParserText.{parser_text, parser_surface, parser_receivers, two_pieces, byte_by_byte, null_buffer, raw_and_null, too_large, few_turns, seen_with, ok, short_read};

/// A text that adds 7 to a byte that is zero: it has the unit form, and the call answers 7.
#[tactic(auto, unfolding(turns::specs::Run::run, turns::specs::Run::runs, turns::specs::Run::holding, turns::specs::Run::onward))]
pub fn a_sum_answers_seven()
    ensures form { HasUnitForm small_surface (small_text Add) }
    ensures seen { c_run (small_text Add) small_surface small_receivers small_actions ≡ answered (status []) [] [] ∷ answered (num 7) [] [] ∷ [] }
{}

/// With `/` in place of `+` the text still has the unit form, and the call is undefined: it divides by zero.
#[tactic(auto, unfolding(turns::specs::Run::run, turns::specs::Run::runs, turns::specs::Run::holding, turns::specs::Run::onward))]
pub fn a_quotient_by_zero_is_undefined()
    ensures form { HasUnitForm small_surface (small_text Div) }
    ensures seen { c_run (small_text Div) small_surface small_receivers small_actions ≡ answered (status []) [] [] ∷ undefined ∷ [] }
{}

/// The structured text for a parser, whose `case` label stands inside its `while`, has the unit form.
#[tactic(auto)]
pub fn a_structured_text_has_the_unit_form()
    ensures { HasUnitForm parser_surface parser_text }
{}

/// `12`, and then `3` with the zero byte that ends a number: the second call goes on inside the loop.
#[tactic(auto, unfolding(turns::specs::Run::run, turns::specs::Run::runs, turns::specs::Run::holding, turns::specs::Run::onward))]
pub fn a_call_goes_on_inside_its_loop()
    ensures { c_run parser_text parser_surface parser_receivers two_pieces ≡
        seen_with nothing [] 0 0 0 ∷ seen_with ok [] 0 0 0
        ∷ seen_with nothing (49 ∷ 50 ∷ []) 0 2 0 ∷ seen_with short_read (49 ∷ 50 ∷ []) 2 2 0
        ∷ seen_with nothing (49 ∷ 50 ∷ 51 ∷ 0 ∷ []) 2 4 0 ∷ seen_with ok (49 ∷ 50 ∷ 51 ∷ 0 ∷ []) 4 4 0
        ∷ seen_with (num 123) (49 ∷ 50 ∷ 51 ∷ 0 ∷ []) 4 4 0 ∷ [] }
{}

/// The same bytes one at a time, in a buffer of one byte that is compacted after each call.
#[tactic(auto, unfolding(turns::specs::Run::run, turns::specs::Run::runs, turns::specs::Run::holding, turns::specs::Run::onward))]
pub fn bytes_come_one_at_a_time()
    ensures { c_run parser_text parser_surface parser_receivers byte_by_byte ≡
        seen_with nothing [] 0 0 0 ∷ seen_with ok [] 0 0 0
        ∷ seen_with nothing (49 ∷ []) 0 1 0 ∷ seen_with short_read (49 ∷ []) 1 1 0 ∷ seen_with nothing [] 0 0 1
        ∷ seen_with nothing (50 ∷ []) 0 1 1 ∷ seen_with short_read (50 ∷ []) 1 1 1 ∷ seen_with nothing [] 0 0 2
        ∷ seen_with nothing (51 ∷ []) 0 1 2 ∷ seen_with short_read (51 ∷ []) 1 1 2 ∷ seen_with nothing [] 0 0 3
        ∷ seen_with nothing (0 ∷ []) 0 1 3 ∷ seen_with ok (0 ∷ []) 1 1 3 ∷ seen_with nothing [] 0 0 4
        ∷ seen_with (num 123) [] 0 0 4 ∷ [] }
{}

/// A null buffer disables the receiver, as a later call with a buffer shows.
#[tactic(auto, unfolding(turns::specs::Run::run, turns::specs::Run::runs, turns::specs::Run::holding, turns::specs::Run::onward))]
pub fn a_null_buffer_disables()
    ensures { c_run parser_text parser_surface parser_receivers null_buffer ≡
        seen_with nothing [] 0 0 0 ∷ seen_with ok [] 0 0 0
        ∷ seen_with (status (codes "#base: bad argument")) [] 0 0 0
        ∷ seen_with (status (codes "#base: disabled by previous error")) [] 0 0 0 ∷ [] }
{}

/// A receiver that was never initialized, and a null one.
#[tactic(auto, unfolding(turns::specs::Run::run, turns::specs::Run::runs, turns::specs::Run::holding, turns::specs::Run::onward))]
pub fn raw_and_null_receivers_answer()
    ensures { c_run parser_text parser_surface parser_receivers raw_and_null ≡
        seen_with nothing [] 0 0 0 ∷ seen_with (status (codes "#base: initialize not called")) [] 0 0 0
        ∷ seen_with (num 0) [] 0 0 0 ∷ seen_with (status (codes "#base: bad receiver")) [] 0 0 0
        ∷ seen_with (num 0) [] 0 0 0 ∷ seen_with (status (codes "#base: bad receiver")) [] 0 0 0 ∷ [] }
{}

/// A number that is too large by one: an error, which disables the receiver; an init begins anew.
#[tactic(auto, unfolding(turns::specs::Run::run, turns::specs::Run::runs, turns::specs::Run::holding, turns::specs::Run::onward))]
pub fn an_error_disables_until_an_init()
    ensures { let digits = 52 ∷ 50 ∷ 57 ∷ 52 ∷ 57 ∷ 54 ∷ 55 ∷ 50 ∷ 57 ∷ 54 ∷ 0 ∷ [] in
        c_run parser_text parser_surface parser_receivers too_large ≡
        seen_with nothing [] 0 0 0 ∷ seen_with ok [] 0 0 0 ∷ seen_with nothing digits 0 11 0
        ∷ seen_with (status (codes "#demo: too large")) digits 10 11 0
        ∷ seen_with (status (codes "#base: disabled by previous error")) digits 10 11 0
        ∷ seen_with (num 429496729) digits 10 11 0 ∷ seen_with ok digits 10 11 0 ∷ seen_with (num 0) digits 10 11 0 ∷ [] }
{}

/// Two digits take three turns: the entry of the body, and the test of the loop after each digit. Two turns don't do.
#[tactic(auto, unfolding(turns::specs::Run::run, turns::specs::Run::runs, turns::specs::Run::holding, turns::specs::Run::onward))]
pub fn turns_are_entries_and_ways_back()
    ensures three { c_run parser_text parser_surface parser_receivers (few_turns 3) ≡
        seen_with nothing [] 0 0 0 ∷ seen_with ok [] 0 0 0 ∷ seen_with nothing (49 ∷ 50 ∷ []) 0 2 0
        ∷ seen_with short_read (49 ∷ 50 ∷ []) 2 2 0 ∷ [] }
    ensures two { c_run parser_text parser_surface parser_receivers (few_turns 2) ≡
        seen_with nothing [] 0 0 0 ∷ seen_with ok [] 0 0 0 ∷ seen_with nothing (49 ∷ 50 ∷ []) 0 2 0 ∷ turns ∷ [] }
{}

/// A struct inside a struct, an inline function in an expression, and an init that zeroes both: the form, and what is
/// seen.
#[tactic(auto, unfolding(turns::specs::Run::run, turns::specs::Run::runs, turns::specs::Run::holding, turns::specs::Run::onward))]
pub fn objects_stand_inside_objects()
    ensures form { HasUnitForm parts_surface parts_text }
    ensures seen { c_run parts_text parts_surface parts_receivers parts_actions ≡
        answered (status []) [] [] ∷ answered (num 5) [] [] ∷ answered (num 4294967295) [] [] ∷ answered (num 2) [] []
        ∷ answered (status []) [] [] ∷ answered (num 1) [] [] ∷ answered (num 1) [] [] ∷ [] }
{}

/// Bytes go from a slice to a writer by `memmove`, as many as fit; an empty slice is a null pointer that isn't touched.
#[tactic(auto, unfolding(turns::specs::Run::run, turns::specs::Run::runs, turns::specs::Run::holding, turns::specs::Run::onward))]
pub fn a_slice_is_copied_to_a_writer()
    ensures form { HasUnitForm copy_surface copy_text }
    ensures seen { c_run copy_text copy_surface copy_receivers copy_actions ≡ seen_copies }
{}

/// Each of these calls is undefined, and only these: a product of two `uint16_t` beyond `int`, a status that points into
/// a string, a buffer left with `wi` beyond `len`, an unset local, a null pointer, a function that ends without the
/// value that it owes, and a call whose target isn't the same place before the call and after it.
#[tactic(auto, unfolding(turns::specs::Run::run, turns::specs::Run::runs, turns::specs::Run::holding, turns::specs::Run::onward))]
pub fn undefined_calls_are_seen_as_such()
    ensures form { HasUnitForm undefined_surface undefined_text }
    ensures square { c_run undefined_text undefined_surface undefined_receivers (one_call 0 (number 65535 ∷ [])) ≡ nothing_then undefined }
    ensures small_square { c_run undefined_text undefined_surface undefined_receivers (one_call 0 (number 46340 ∷ [])) ≡ nothing_then (one_open (num 2147395600)) }
    ensures cast_square { c_run undefined_text undefined_surface undefined_receivers (one_call 1 (number 65535 ∷ [])) ≡ nothing_then (one_open (num 4294836225)) }
    ensures inside { c_run undefined_text undefined_surface undefined_receivers (one_call 2 []) ≡ nothing_then undefined }
    ensures beyond { c_run undefined_text undefined_surface undefined_receivers (one_call 3 (io (Some 0) ∷ [])) ≡ nothing_then undefined }
    ensures unset { c_run undefined_text undefined_surface undefined_receivers (one_call 4 []) ≡ nothing_then undefined }
    ensures null { c_run undefined_text undefined_surface undefined_receivers (one_call 5 []) ≡ nothing_then undefined }
    ensures end { c_run undefined_text undefined_surface undefined_receivers (one_call 6 []) ≡ nothing_then undefined }
    ensures same_target { c_run undefined_text undefined_surface undefined_receivers (one_call 7 (number 0 ∷ number 0 ∷ [])) ≡ nothing_then (one_open (num 7)) }
    ensures moving_target { c_run undefined_text undefined_surface undefined_receivers (one_call 7 (number 0 ∷ number 1 ∷ [])) ≡ nothing_then undefined }
    ensures no_target_before { c_run undefined_text undefined_surface undefined_receivers (one_call 7 (number 3 ∷ number 0 ∷ [])) ≡ nothing_then undefined }
    ensures no_target_after { c_run undefined_text undefined_surface undefined_receivers (one_call 7 (number 0 ∷ number 3 ∷ [])) ≡ nothing_then undefined }
{}

/// The first item that breaks the unit form: a public function that is missing, no item at all, a loop in a function that
/// takes no turn, the pointer of a buffer assigned, a function that calls itself, a local with a later item's name, a
/// case twice in a `switch`, a write through a string's pointer, and a public function with another result.
#[tactic(auto)]
pub fn the_first_item_that_breaks_the_form_is_told()
    ensures missing { first_break small_surface (take 3 (small_text Add)) ≡ Some 3 }
    ensures no_item { first_break small_surface [] ≡ Some 0 }
    ensures no_buffer { first_break small_surface (drop 1 (small_text Add)) ≡ Some 0 }
    ensures looping { first_break small_surface (small_text Add ++ spin_item ∷ []) ≡ Some 4 }
    ensures pointer { first_break small_surface (io_buffer_item ∷ lose_bytes_item ∷ drop 1 (small_text Add)) ≡ Some 1 }
    ensures itself { first_break small_surface (io_buffer_item ∷ again_item ∷ drop 1 (small_text Add)) ≡ Some 1 }
    ensures later_name { first_break small_surface (small_text Add ++ early_item ∷ late_item ∷ []) ≡ Some 4 }
    ensures cases { first_break small_surface (small_text Add ++ half_item ∷ []) ≡ Some 4 }
    ensures string { first_break small_surface (small_text Add ++ write_text_item ∷ []) ≡ Some 4 }
    ensures result { first_break small_surface (take 3 (small_text Add) ++ f_item ∷ []) ≡ Some 3 }
{}

/// Objects 0 and 1, the second inside the first: zeroing the first one zeroes the 7 that was stored in the second, and
/// only a field that holds an object has one.
#[tactic(auto)]
pub fn zeroing_an_object_zeroes_what_is_inside()
    ensures zeroed { option_and_then (λ memory. zeroed memory 0) (store two_objects (to_object 1) (holds 7)) ≡ Some ((part 1 ∷ cells u32 (holds 0 ∷ []) ∷ []) ∷ (cells u32 (holds 0 ∷ []) ∷ []) ∷ []) }
    ensures inside { part_at two_objects 0 0 ≡ Some 1 }
    ensures no_part { part_at two_objects 0 1 ≡ None }
    ensures unset { load two_objects (to_object 1) ≡ None }
{}

/// Pointers move within a field and one cell past it; `memmove` moves whole set cells within fields of one type, as they
/// were before; everything else is undefined.
#[tactic(auto)]
pub fn memory_refuses_what_is_undefined()
    ensures one_past { offset three_objects (to_object 0) (pos 3) ≡ Some (cell_of_object 0 3) }
    ensures two_past { offset three_objects (to_object 0) (pos 4) ≡ None }
    ensures back { offset three_objects (cell_of_object 0 3) (negsuc 2) ≡ Some (to_object 0) }
    ensures before { offset three_objects (to_object 0) (negsuc 0) ≡ None }
    ensures read_past { load three_objects (cell_of_object 0 3) ≡ None }
    ensures write_past { store three_objects (cell_of_object 0 3) (holds 9) ≡ None }
    ensures overlap { option_and_then (λ memory. load memory (cell_of_object 0 2)) (move_bytes three_objects (cell_of_object 0 1) (to_object 0) 2) ≡ Some (holds 2) }
    ensures beyond { move_bytes three_objects (cell_of_object 0 2) (to_object 0) 2 ≡ None }
    ensures whole_cell { option_and_then (λ memory. load memory (to_object 1)) (move_bytes three_objects (to_object 1) (cell_of_object 1 1) 2) ≡ Some (holds 2) }
    ensures part_of_a_cell { move_bytes three_objects (to_object 1) (cell_of_object 1 1) 1 ≡ None }
    ensures two_types { move_bytes three_objects (to_object 0) (to_object 1) 2 ≡ None }
    ensures two_types_of_nothing { move_bytes three_objects (to_object 0) (to_object 1) 0 ≡ Some three_objects }
    ensures unset { move_bytes three_objects (to_object 0) (to_object 2) 1 ≡ None }
{}
