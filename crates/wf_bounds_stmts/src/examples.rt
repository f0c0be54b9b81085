//! Worked examples: what the rules of facts give for small packages, computed. Each is the contract of a function that does
//! nothing.

ghost use Rattle.std.specs.Prelude.{◌≡◌, None, Some};
ghost use Rattle.wf_text.specs.declared.rules.Rule.TheVariants.{B1, B5, B6, B7, B8, B9, B10, B11, B12};
ghost use Rattle.wf_bounds_stmts.specs.Examples.{on, refused, refusal, refusal_of, returning, difference, again_the_difference, nothing_left, filling, at_most_4, below_4, counting, breaking, peeking, asserting, unfounded, founded, parsing, about_the_digit, known_at, summing, in_bounds, any_word, clearing, keeping, asserting_at_most, entering, merging};

/// The parser of decimal numbers is accepted. Before `c -= 0x30` its list is `c <> 0`, `c >= 48` and `c <= 57`. Where
/// the last digit may be 6, the sum that it goes into may be too large for its type.
#[tactic(auto, unfolding(wf_facts_exprs::specs::RangeOf::met))]
pub fn a_parser()
    ensures accepted { refused (parsing 5) ≡ None }
    ensures known { known_at 5 (parsing 5) ≡ Some about_the_digit }
    ensures too_large { refused (parsing 6) ≡ refusal B1 26 36 }
{}

/// A result lies in its type.
#[tactic(auto, unfolding(wf_facts_exprs::specs::RangeOf::met))]
pub fn a_result()
    ensures fits { refused (returning 255) ≡ None }
    ensures too_large { refused (returning 300) ≡ refusal B1 3 12 }
{}

/// A difference is allowed where the order of its operands is known.
#[tactic(auto, unfolding(wf_facts_exprs::specs::RangeOf::met))]
pub fn a_difference()
    ensures known { refused (difference nothing_left) ≡ None }
    ensures unknown { refused (difference again_the_difference) ≡ refusal B1 6 19 }
{}

/// A loop's promise holds where it is entered and on each way back.
#[tactic(auto, unfolding(wf_facts_exprs::specs::RangeOf::met))]
pub fn a_promise()
    ensures kept { refused (filling at_most_4) ≡ None }
    ensures broken { refused (filling below_4) ≡ refusal B11 11 5 }
{}

/// What a loop promises of its end holds where its condition fails, and at each `break`.
#[tactic(auto, unfolding(wf_facts_exprs::specs::RangeOf::met))]
pub fn a_promise_of_the_end()
    ensures kept { refused counting ≡ None }
    ensures broken { refused breaking ≡ refusal B12 8 9 }
{}

/// A byte is looked at where one is known to be there.
#[tactic(auto, unfolding(wf_facts_exprs::specs::RangeOf::met))]
pub fn a_byte_ahead()
    ensures there { refused (peeking 2) ≡ None }
    ensures perhaps { refused (peeking 1) ≡ refusal B9 6 22 }
{}

/// An axiom's premises are given; one that isn't is refused inside the axiom's text.
#[tactic(auto, unfolding(wf_facts_exprs::specs::RangeOf::met))]
pub fn an_axiom()
    ensures founded { refusal_of (on 1 1) (asserting founded) ≡ None }
    ensures unfounded { refusal_of (on 1 1) (asserting unfounded) ≡ refusal B7 4 51 }
{}

/// Arguments lie in their types. Of two that don't, the one that is written first is refused, whichever is declared first.
/// What is answered lies in the target's type.
#[tactic(auto, unfolding(wf_facts_exprs::specs::RangeOf::met))]
pub fn a_call()
    ensures fits { refused (summing 18 (in_bounds 38) (in_bounds 26)) ≡ None }
    ensures outside { refused (summing 18 (any_word 38) (in_bounds 26)) ≡ refusal B8 12 38 }
    ensures both_outside { refused (summing 18 (any_word 38) (any_word 26)) ≡ refusal B8 12 26 }
    ensures too_large { refused (summing 17 (in_bounds 38) (in_bounds 26)) ≡ refusal B1 12 14 }
{}

/// What a marked method may write isn't known after its call.
#[tactic(auto, unfolding(wf_facts_exprs::specs::RangeOf::met))]
pub fn a_marked_call()
    ensures kept { refused keeping ≡ None }
    ensures lost { refused clearing ≡ refusal B1 13 23 }
{}

/// An assertion is given.
#[tactic(auto, unfolding(wf_facts_exprs::specs::RangeOf::met))]
pub fn an_assertion()
    ensures given { refused (asserting_at_most 9) ≡ None }
    ensures open { refused (asserting_at_most 8) ≡ refusal B6 11 5 }
{}

/// What a loop needs is given where it is entered.
#[tactic(auto, unfolding(wf_facts_exprs::specs::RangeOf::met))]
pub fn an_entry()
    ensures given { refused (entering 0) ≡ None }
    ensures open { refused (entering 1) ≡ refusal B10 11 5 }
{}

/// After an `if` stands what stands at the end of each of its blocks.
#[tactic(auto, unfolding(wf_facts_exprs::specs::RangeOf::met))]
pub fn an_end_of_branches()
    ensures same { refused (merging 2) ≡ None }
    ensures other { refused (merging 3) ≡ refusal B5 17 14 }
{}
