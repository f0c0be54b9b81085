// Base methods that may suspend.

ghost use Rattle.std.specs.Prelude.{◌≡◌, [], ◌∷◌, None, IsTrue};
ghost use Rattle.wf_text.specs.declared.rules.Rule.TheVariants.{B8};
ghost use Rattle.wf_ast.specs.TypedTrees.{optional_target, tree_of};
ghost use Rattle.wf_ast.specs.TypedInvariant.{is_expr, is_optional_expr};
ghost use Rattle.wf_facts_exprs.specs.Claims.{claims_in};
ghost use Rattle.wf_facts_exprs.specs.Demands.{or_else};
ghost use Rattle.wf_facts.specs.IndexedFacts.{IsOver};
ghost use Rattle.wf_bounds_stmts.specs.Requirements.{all_handed, number_type};
ghost use Rattle.wf_bounds_stmts.specs.Targets.{answer_refusal, written_by};
ghost use Rattle.wf_bounds_stmts.specs.Calls.{all_of as numbers_of, awaited, interrupted};
ghost use Rattle.wf_bounds_stmts.specs.Outcomes.{MayBeDropped, Settles};

use crate::answers::await_answer;
use crate::handed::check_one;
use wf_ast::{ExprId, Ty, Typed};
use wf_base::Width;
use wf_facts::Facts;
use wf_text::{Place, Refusal, Rule};

/// The type of all numbers of a width.
pub(crate) fn all_of(width: Width) -> Ty
    ensures { number_type result ≡ numbers_of width }
{
    match width {
        Width::W8 => Ty::Num {
            width: Width::W8,
            lo: 0,
            hi: 255,
        },
        Width::W16 => Ty::Num {
            width: Width::W16,
            lo: 0,
            hi: 65535,
        },
        Width::W32 => Ty::Num {
            width: Width::W32,
            lo: 0,
            hi: 4294967295,
        },
        Width::W64 => Ty::Num {
            width: Width::W64,
            lo: 0,
            hi: 18446744073709551615,
        },
    }
}

/// The rule of a base method that may suspend, takes a number of a width and answers none. `at` is the place of its name.
pub(crate) fn await_handed(
    t: &Typed,
    facts: &mut Facts,
    at: Place,
    target: Option<ExprId>,
    width: Width,
    e: ExprId,
) -> Result<(), Refusal>
    requires target { IsTrue (is_optional_expr t.now target) }
    requires there { IsTrue (is_expr t.now e) }
    requires few { MayBeDropped (written_by (optional_target (tree_of t.now) target)) }
    requires over { IsOver t.now facts.old }
    ensures over { IsOver t.now facts.new }
    ensures settles { Settles t.now (or_else (all_handed B8 (claims_in t.now facts.old.list) ((numbers_of width, tree_of t.now e) ∷ [])) (answer_refusal (interrupted (claims_in t.now facts.old.list)) at (optional_target (tree_of t.now) target) None)) (awaited (claims_in t.now facts.old.list) (optional_target (tree_of t.now) target)) result facts.new }
{
    check_one(t, &facts.as_known(t), Rule::B8, all_of(width), e)?;
    await_answer(t, facts, at, target, Ty::Flag)
}
