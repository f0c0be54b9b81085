// The laws of the axioms. Each is the contract of a function that does nothing.

ghost use Rattle.std.specs.Prelude.{◌≡◌, ℕ, false, true, List, None, Ok, Some, All, IsSome};
ghost use Rattle.std.specs.List.{list_all};
ghost use Rattle.wf_ast.specs.TypedTree.{CondTree, NumTree};
ghost use Rattle.wf_ast.specs.Value.{State, truth_of};
ghost use Rattle.wf_ast.specs.WellTyped.{Context, well_cond, well_num};
ghost use Rattle.wf_facts_exprs.specs.Claims.{AllTrue, Claim};
ghost use Rattle.wf_facts_exprs.specs.Demands.{cond_refusal, num_refusal};
ghost use Rattle.wf_facts_exprs.specs.LawfulState.{well_claims};
ghost use Rattle.wf_axioms.specs.declared.axioms.Letter.{Letter};
ghost use Rattle.wf_axioms.specs.declared.axioms.Axiom.{Axiom};
ghost use Rattle.wf_axioms.specs.Axioms.{row_of, holds};
ghost use Rattle.wf_axioms.specs.Items.{IsFine};
ghost use Rattle.wf_axioms.specs.Matching.{premises_for};

/// Whatever whole numbers its letters stand for, what an axiom says follows holds where its premises hold.
pub fn each_axiom_is_true()
    ensures { (a : Axiom) (n : Letter → ℕ) → list_all (λ c. holds n c) (row_of a).premises ≡ true → holds n (row_of a).goal ≡ true }
{}

/// Where all premises of an axiom that is used for a goal are true, and the goal's operands have values, the goal is true.
pub fn what_follows_is_true()
    ensures { (a : Axiom) (c : Context) (s : State) (goal : CondTree) (given : List (List ℕ × NumTree)) (claims : List Claim) → well_cond c goal ≡ true → premises_for a goal given ≡ Ok claims → AllTrue s claims → IsSome (truth_of s goal) → truth_of s goal ≡ Some true }
{}

/// The premises are well typed where the goal and what is given are.
pub fn premises_keep_the_rules_of_types()
    ensures { (a : Axiom) (c : Context) (goal : CondTree) (given : List (List ℕ × NumTree)) (claims : List Claim) → well_cond c goal ≡ true → list_all (λ g. well_num c g.1) given ≡ true → premises_for a goal given ≡ Ok claims → well_claims c claims ≡ true }
{}

/// The premises make no demand that neither the goal nor what is given makes.
pub fn premises_make_no_new_demand()
    ensures { (a : Axiom) (known : List Claim) (goal : CondTree) (given : List (List ℕ × NumTree)) (claims : List Claim) → cond_refusal known goal ≡ None → All (λ g. num_refusal known false g.1 ≡ None) given → premises_for a goal given ≡ Ok claims → All (λ f. IsFine known f) claims }
{}
