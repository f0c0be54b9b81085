// The laws of what statements do to a list of facts, over every state of whole numbers. Each is the contract of a function
// that does nothing.

ghost use Rattle.std.specs.Prelude.{◌≡◌, ℕ, ◌<◌, ◌^◌, true, List, length, All, Some, Bool};
ghost use Rattle.std.specs.List.{list_all};
ghost use Rattle.wf_ast.specs.declared.things.Thing.{Thing};
ghost use Rattle.wf_ast.specs.TypedTree.{CondTree};
ghost use Rattle.wf_ast.specs.Value.{State, truth_of};
ghost use Rattle.wf_ast.specs.Mentions.{AgreeBut};
ghost use Rattle.wf_ast.specs.WellTyped.{Context};
ghost use Rattle.wf_facts_exprs.specs.LawfulState.{well_claims};
ghost use Rattle.wf_facts_exprs.specs.Claims.{Claim, AllTrue, claim_truth};
ghost use Rattle.wf_facts.specs.declared.changes.Change.{Change};
ghost use Rattle.wf_facts.specs.FactLists.{added, with_condition, without, common, changed};
ghost use Rattle.wf_facts.specs.Changes.{TakesPlace, has_no_sum};
ghost use Rattle.wf_facts_exprs.specs.Sets.{IsSetOf};

/// A true fact joins true facts, and so do those of a condition that has the answer.
pub fn what_is_added_is_true()
    ensures fact { (s : State) (fs : List Claim) (f : Claim) → AllTrue s fs → claim_truth s f ≡ Some true → AllTrue s (added fs f) }
    ensures condition { (s : State) (fs : List Claim) (c : CondTree) (answer : Bool) → AllTrue s fs → truth_of s c ≡ Some answer → AllTrue s (with_condition fs c answer) }
{}

/// The facts that don't mention a thing stay true whatever becomes of it.
pub fn what_is_left_of_a_drop_is_true()
    ensures { (x : Thing) (s s' : State) (fs : List Claim) → AgreeBut x s s' → AllTrue s fs → AllTrue s' (without x fs) }
{}

/// What is still known of a thing that has changed is true.
pub fn what_is_still_known_is_true()
    ensures { (x : Thing) (change : Change) (s s' : State) (fs : List Claim) → TakesPlace x change s s' → AllTrue s fs → AllTrue s' (changed x change fs) }
{}

/// The facts that two lists have in common are true where all of either list are. Of the second list it says so for well
/// typed facts that a method's conditions make.
pub fn what_lists_have_in_common_is_true()
    ensures first { (s : State) (fs others : List Claim) → AllTrue s fs → AllTrue s (common fs others) }
    ensures second { (c : Context) (s : State) (fs others : List Claim) → well_claims c fs ≡ true → well_claims c others ≡ true → list_all has_no_sum fs ≡ true → list_all has_no_sum others ≡ true → AllTrue s others → AllTrue s (common fs others) }
{}

/// Eight words of 64 bits with the same places are the same words.
pub fn sets_of_the_same_places_are_one()
    ensures { (words others : List ℕ) (marks : List Bool) → length words ≡ 8 → length others ≡ 8 → All (λ n. n < 2 ^ 64) words → All (λ n. n < 2 ^ 64) others → IsSetOf words marks → IsSetOf others marks → words ≡ others }
{}
