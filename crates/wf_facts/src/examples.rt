// A worked example: what a decimal parser knows of the byte `c` where it takes a digit's value. Each part of it is the
// contract of a function that does nothing.

ghost use Rattle.std.specs.Prelude.{◌≡◌, ◌∷◌, [], false, replicate};
ghost use Rattle.wf_ast.specs.declared.things.Thing.TheVariants.{Local, This};
ghost use Rattle.wf_ast.specs.declared.typed_nodes.TypedNodes.{TypedNodes};
ghost use Rattle.wf_facts_exprs.specs.Claims.{claims_in};
ghost use Rattle.wf_facts.specs.Examples.{digit_facts, is_no_digit, is_zero};
ghost use Rattle.wf_facts.specs.FactLists.{with_condition, without};
ghost use Rattle.wf_facts.specs.IndexedFacts.{FactList, mentioning};
ghost use Rattle.wf_facts_exprs.specs.Sets.{IsSetOf};

/// After `if c == 0` and `if (c < 48) or (57 < c)`, which both leave, three facts stand: `c <> 0`, `c >= 48`, `c <= 57`.
pub fn facts_of_a_digit()
    ensures { with_condition (with_condition [] is_zero false) is_no_digit false ≡ digit_facts }
{}

/// All three mention `c`, so of the eight words of its set the first is 7 and the others are 0. None of them mentions `this`.
pub fn sets_of_a_digit()
    ensures byte { (nodes : TypedNodes) (known : FactList) → claims_in nodes known.list ≡ digit_facts → IsSetOf (7 ∷ replicate 7 0) (mentioning nodes (Local (record { 0 = 0 })) known.list) }
    ensures this { (nodes : TypedNodes) (known : FactList) → claims_in nodes known.list ≡ digit_facts → IsSetOf (replicate 8 0) (mentioning nodes This known.list) }
{}

/// A change of `this` leaves all three, and once `c` changes none is left.
pub fn what_is_left_of_a_digit()
    ensures this { without This digit_facts ≡ digit_facts }
    ensures byte { without (Local (record { 0 = 0 })) digit_facts ≡ [] }
{}
