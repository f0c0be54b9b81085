// A worked example. It is the contract of a function that does nothing.

ghost use Rattle.std.specs.Prelude.{◌≡◌, true, false};
ghost use Rattle.wf_lower_laws.specs.BracketLaw.{cond_within};
ghost use Rattle.wf_lower_depth_laws.specs.WrittenDepth.{alone, expr_opens};
ghost use Rattle.wf_lower_depth_laws.specs.Examples.{written_deep, typed_deep};

/// `not (.. not true and true ..) and true` with 47 brackets, which with that of a body are as many as may be open, has 96 parts
/// inside one another: a `not` and an `and` for each bracket, and two in the innermost.
pub fn a_condition_may_have_96_parts()
    ensures brackets { expr_opens alone 47 (written_deep 47) ≡ true }
    ensures no_fewer_brackets { expr_opens alone 46 (written_deep 47) ≡ false }
    ensures parts { cond_within 96 (typed_deep 47) ≡ true }
    ensures no_fewer_parts { cond_within 95 (typed_deep 47) ≡ false }
{}
