// Copies of elements.

ghost use Rattle.std.specs.Prelude.{◌≡◌, [], ◌∷◌, None, IsTrue};
ghost use Rattle.wf_text.specs.declared.rules.Rule.TheVariants.{B8};
ghost use Rattle.wf_ast.specs.TypedTree.{copy_to_writer, copy_to_slice, elements};
ghost use Rattle.wf_ast.specs.TypedTrees.{optional_target, tree_of};
ghost use Rattle.wf_ast.specs.TypedInvariant.{is_expr, is_optional_expr};
ghost use Rattle.wf_ast.specs.NodeKinds.{node_slice};
ghost use Rattle.wf_facts_exprs.specs.Knowledge.{IsKnown, told};
ghost use Rattle.wf_facts_exprs.specs.Claims.{claims_in};
ghost use Rattle.wf_facts_exprs.specs.Demands.{or_else, unless_refused, value_refusal};
ghost use Rattle.wf_facts.specs.IndexedFacts.{IsOver};
ghost use Rattle.wf_bounds_stmts.specs.Requirements.{all_handed};
ghost use Rattle.wf_bounds_stmts.specs.Targets.{written_by};
ghost use Rattle.wf_bounds_stmts.specs.Calls.{perform_refusal, performed};
ghost use Rattle.wf_bounds_stmts.specs.Outcomes.{MayBeDropped, Settles};

use crate::answers::{check_answer, drop_target};
use crate::handed::check_one;
use wf_ast::{ArgId, ExprId, Thing, Ty, Typed};
use wf_base::Width;
use wf_facts::Facts;
use wf_facts_exprs::{Known, check_value};
use wf_text::{Place, Refusal, Rule};

// What a copy answers: how many elements it has copied.
const COUNT: Ty = Ty::Num {
    width: Width::W64,
    lo: 0,
    hi: 18446744073709551615,
};

/// The rule of a copy to a writer. `at` is the place of the method's name.
pub(crate) fn copy_out(
    t: &Typed,
    facts: &mut Facts,
    at: Place,
    target: Option<ExprId>,
    io: ArgId,
    source: ExprId,
) -> Result<(), Refusal>
    requires target { IsTrue (is_optional_expr t.now target) }
    requires there { IsTrue (is_expr t.now source) }
    requires source { tree_of t.now source ≡ elements (node_slice t.now source) }
    requires few { MayBeDropped (written_by (optional_target (tree_of t.now) target)) }
    requires over { IsOver t.now facts.old }
    ensures over { IsOver t.now facts.new }
    ensures settles { Settles t.now (perform_refusal (claims_in t.now facts.old.list) at (optional_target (tree_of t.now) target) (copy_to_writer io.0 (node_slice t.now source))) (performed (claims_in t.now facts.old.list) (optional_target (tree_of t.now) target) (copy_to_writer io.0 (node_slice t.now source))) result facts.new }
{
    check_one(t, &facts.as_known(t), Rule::B8, Ty::Flag, source)?;
    facts.drop_mentions(t, Thing::Arg(io));
    check_answer(t, &facts.as_known(t), at, target, COUNT)?;
    drop_target(t, facts, target);
    Ok(())
}

/// The rule of a copy to a slice, which is checked first. `at` is the place of the method's name.
pub(crate) fn copy_in(
    t: &Typed,
    facts: &mut Facts,
    at: Place,
    target: Option<ExprId>,
    on: ExprId,
    source: ExprId,
) -> Result<(), Refusal>
    requires target { IsTrue (is_optional_expr t.now target) }
    requires on_there { IsTrue (is_expr t.now on) }
    requires on { tree_of t.now on ≡ elements (node_slice t.now on) }
    requires there { IsTrue (is_expr t.now source) }
    requires source { tree_of t.now source ≡ elements (node_slice t.now source) }
    requires few { MayBeDropped (written_by (optional_target (tree_of t.now) target)) }
    requires over { IsOver t.now facts.old }
    ensures over { IsOver t.now facts.new }
    ensures settles { Settles t.now (perform_refusal (claims_in t.now facts.old.list) at (optional_target (tree_of t.now) target) (copy_to_slice (node_slice t.now on) (node_slice t.now source))) (performed (claims_in t.now facts.old.list) (optional_target (tree_of t.now) target) (copy_to_slice (node_slice t.now on) (node_slice t.now source))) result facts.new }
{
    check_copied(t, &facts.as_known(t), on, source)?;
    facts.drop_mentions(t, Thing::Element);
    check_answer(t, &facts.as_known(t), at, target, COUNT)?;
    drop_target(t, facts, target);
    Ok(())
}

// The two slices of a copy.
fn check_copied(t: &Typed, facts: &Known, on: ExprId, source: ExprId) -> Result<(), Refusal>
    requires known { IsKnown t.now facts.now }
    requires on { IsTrue (is_expr t.now on) }
    requires source { IsTrue (is_expr t.now source) }
    ensures { result ≡ unless_refused (or_else (value_refusal (claims_in t.now (told facts.now)) (tree_of t.now on)) (all_handed B8 (claims_in t.now (told facts.now)) ((None, tree_of t.now source) ∷ []))) tt }
{
    check_value(t, facts, on)?;
    check_one(t, facts, Rule::B8, Ty::Flag, source)
}
