// The laws of facts, over every state of whole numbers. Each is the contract of a function that does nothing. A state is
// lawful where every variable of the method has a value of its type.

ghost use Rattle.std.specs.Prelude.{◌≡◌, ℕ, Bool, List, None, Some, true, false, IsSome};
ghost use Rattle.wf_num.specs.Ranges.{Holds};
ghost use Rattle.wf_ast.specs.TypedTree.{NumTree, CondTree, ValueTree, Order};
ghost use Rattle.wf_ast.specs.Value.{State, value, truth_of, value_of};
ghost use Rattle.wf_ast.specs.WellTyped.{Context, well_num, well_cond};
ghost use Rattle.wf_facts_exprs.specs.Claims.{SideTree, Claim, compared, claim_truth, AllTrue};
ghost use Rattle.wf_facts_exprs.specs.RangeOf.{range_of};
ghost use Rattle.wf_facts_exprs.specs.Given.{gives, gives_sides};
ghost use Rattle.wf_facts_exprs.specs.Demands.{num_refusal, cond_refusal, side_refusal, value_refusal};
ghost use Rattle.wf_facts_exprs.specs.LawfulState.{IsLawful, well_claims, well_side, well_value};

/// Where all facts of a list are true, a well typed value whose demands are met under the list isn't stuck.
pub fn a_value_whose_demands_are_met_is_not_stuck()
    ensures { (c : Context) (s : State) (fs : List Claim) (t : ValueTree) → IsLawful c s → well_claims c fs ≡ true → AllTrue s fs → well_value c t ≡ true → value_refusal fs t ≡ None → IsSome (value_of s t) }
{}

/// Where all facts of a list are true, the range of a number under the list holds its value.
pub fn a_range_holds_the_value()
    ensures { (c : Context) (s : State) (fs : List Claim) (t : NumTree) (n : ℕ) → IsLawful c s → well_claims c fs ≡ true → AllTrue s fs → well_num c t ≡ true → num_refusal fs false t ≡ None → value s t ≡ Some n → Holds (range_of fs t) n }
{}

/// A list whose facts are all true gives nothing false: of conditions and of comparisons whose demands are met.
pub fn what_is_given_is_true()
    ensures conditions { (c : Context) (s : State) (fs : List Claim) (t : CondTree) (answer : Bool) → IsLawful c s → well_claims c fs ≡ true → AllTrue s fs → well_cond c t ≡ true → cond_refusal fs t ≡ None → gives fs t answer ≡ true → truth_of s t ≡ Some answer }
    ensures sides { (c : Context) (s : State) (fs : List Claim) (a b : SideTree) (op : Order) → IsLawful c s → well_claims c fs ≡ true → AllTrue s fs → well_side c a ≡ true → well_side c b ≡ true → side_refusal fs a ≡ None → side_refusal fs b ≡ None → gives_sides fs a op b ≡ true → claim_truth s (compared a op b) ≡ Some true }
{}
