// Worked examples: what loops ask and what they tell, computed. Each is the contract of a function that does nothing.

ghost use Rattle.std.specs.Prelude.{◌≡◌, ◌∷◌, [], true, false, None, Some};
ghost use Rattle.wf_text.specs.declared.place.Place.{Place};
ghost use Rattle.wf_text.specs.declared.rules.Rule.TheVariants.{B1, B10, B11, B12};
ghost use Rattle.wf_ast.specs.TypedTree.{less, at_most, equal, at_least};
ghost use Rattle.wf_loops.specs.LoopRules.{entry_refusal, way_back_refusal, break_refusal, exit_refusal, test_refusal, head_list, body_list, after_list};
ghost use Rattle.wf_loops.specs.Examples.{known, counting, counting_below, broken_off, promising_a_sum};

/// A loop counts to 10, with `inv i <= 10` and `post i >= 5`. It is entered with `i == 0`, and each way back, where `i` is
/// at most 10 and below 11, is fine. Its head knows the `inv`, its body besides that `i < 10`, and after it stands what
/// both promise, and that `i >= 10`: by this the `post` is given at the exit.
#[tactic(auto, unfolding(wf_facts_exprs::specs::RangeOf::met))]
pub fn a_loop_that_counts()
    ensures entry { (at : Place) → entry_refusal (known equal 0 ∷ []) at (counting false) ≡ None }
    ensures way_back { (at : Place) → way_back_refusal (known at_most 11 ∷ known less 11 ∷ []) at (counting false) ≡ None }
    ensures test { (at : Place) → test_refusal at (counting false) ≡ None }
    ensures head { head_list (counting false) ≡ known at_most 10 ∷ [] }
    ensures body { body_list (head_list (counting false)) (counting false) ≡ known at_most 10 ∷ known less 10 ∷ [] }
    ensures after { after_list (counting false) ≡ known at_most 10 ∷ known at_least 5 ∷ known at_least 10 ∷ [] }
{}

/// A `break` at the head of its body would break the `post`, and after the loop nothing would be known of its condition.
#[tactic(auto, unfolding(wf_facts_exprs::specs::RangeOf::met))]
pub fn a_loop_that_a_break_leaves()
    ensures refused { (at : Place) → break_refusal (known at_most 10 ∷ known less 10 ∷ []) at (counting true) ≡ Some (record { rule = B12; at = at }) }
    ensures after { after_list (counting true) ≡ known at_most 10 ∷ known at_least 5 ∷ [] }
{}

/// With `inv i < 10` the exit is fine, where no number is left for `i`, but the way back is refused.
#[tactic(auto, unfolding(wf_facts_exprs::specs::RangeOf::met))]
pub fn a_loop_whose_last_way_back_breaks_its_inv()
    ensures exit { (at : Place) → exit_refusal (head_list counting_below) at counting_below ≡ None }
    ensures refused { (at : Place) → way_back_refusal (known less 11 ∷ []) at counting_below ≡ Some (record { rule = B11; at = at }) }
{}

/// A loop whose condition is the word `true` has no exit but its `break`. A `pre` is asked on each way back too.
#[tactic(auto, unfolding(wf_facts_exprs::specs::RangeOf::met))]
pub fn a_loop_of_the_word_true()
    ensures exit { (at : Place) → exit_refusal (head_list broken_off) at broken_off ≡ None }
    ensures way_back { (at : Place) → way_back_refusal (known equal 1 ∷ []) at broken_off ≡ Some (record { rule = B10; at = at }) }
    ensures broken { (at : Place) → break_refusal (known equal 0 ∷ []) at broken_off ≡ Some (record { rule = B12; at = at }) }
    ensures after { after_list broken_off ≡ known at_least 5 ∷ [] }
{}

/// A promise has to have a value before it is asked: a sum that may leave its width is refused by its own rule, at its sign.
#[tactic(auto, unfolding(wf_facts_exprs::specs::RangeOf::met))]
pub fn a_promise_without_a_value()
    ensures { (at sign : Place) → entry_refusal [] at (promising_a_sum sign) ≡ Some (record { rule = B1; at = sign }) }
{}
