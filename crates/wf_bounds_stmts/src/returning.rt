// What a method gives back.

ghost use Rattle.std.specs.Prelude.{◌≡◌, IsTrue, option_map};
ghost use Rattle.wf_ast.specs.TypedTrees.{tree_of};
ghost use Rattle.wf_ast.specs.TypedInvariant.{is_optional_expr};
ghost use Rattle.wf_facts_exprs.specs.Knowledge.{IsKnown, told};
ghost use Rattle.wf_facts_exprs.specs.Claims.{claims_in};
ghost use Rattle.wf_facts_exprs.specs.Demands.{unless_refused};
ghost use Rattle.wf_bounds_stmts.specs.FactRules.{return_refusal};

use crate::limits::check_lies;
use wf_ast::{ExprId, Ty, Typed};
use wf_facts_exprs::{Known, check_value};
use wf_text::{Refusal, Rule};

/// Checks what a `return` requires: its value, where it has one, in the method's result. Nothing is known after it.
pub(crate) fn check_returned(
    t: &Typed,
    facts: &Known,
    gives: Option<Ty>,
    value: Option<ExprId>,
) -> Result<(), Refusal>
    requires known { IsKnown t.now facts.now }
    requires value { IsTrue (is_optional_expr t.now value) }
    ensures { result ≡ unless_refused (return_refusal (claims_in t.now (told facts.now)) gives (option_map (tree_of t.now) value)) tt }
{
    match value {
        None => Ok(()),
        Some(e) => {
            check_value(t, facts, e)?;
            match gives {
                None => Ok(()),
                Some(ty) => check_lies(t, facts, Rule::B1, ty, e),
            }
        }
    }
}
