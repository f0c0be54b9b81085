// Calls of methods.

ghost use Rattle.std.specs.Prelude.{◌≡◌, ◌<◌, length, map, IsTrue, None};
ghost use Rattle.std.specs.List.{list_all};
ghost use Rattle.wf_text.specs.declared.rules.Rule.TheVariants.{B8};
ghost use Rattle.wf_ast.specs.TypedTrees.{optional_target, tree_of};
ghost use Rattle.wf_ast.specs.TypedInvariant.{is_expr, is_optional_expr};
ghost use Rattle.wf_ast.specs.WellTyped.{is_pure as pure_mark, is_coroutine as coroutine_mark};
ghost use Rattle.wf_facts_exprs.specs.Claims.{claims_in};
ghost use Rattle.wf_facts_exprs.specs.Demands.{or_else};
ghost use Rattle.wf_facts.specs.IndexedFacts.{IsOver};
ghost use Rattle.wf_bounds_stmts.specs.Requirements.{all_handed, number_type};
ghost use Rattle.wf_bounds_stmts.specs.Targets.{answer_refusal, written_by};
ghost use Rattle.wf_bounds_stmts.specs.Calls.{changed_by_call, handed_thing, handed_to, hands_on as call_hands_on, invoked, known_to_call, left_by_call, without_handed};
ghost use Rattle.wf_bounds_stmts.specs.Nodes.{buffer_named};
ghost use Rattle.wf_bounds_stmts.specs.Outcomes.{MayBeDropped, Settles};

use crate::answers::{check_answer, drop_target};
use crate::handed::check_arguments;
use crate::interrupting::interrupt;
use crate::targets::drop_written;
use wf_ast::{Callee, Expr, ExprId, Thing, Ty, Typed, Var};
use wf_base::Mark;
use wf_facts::Facts;
use wf_text::{Place, Refusal};

/// A call as its statement has it: the place of the method's name, where its answer goes, whether it is `=?`, what it calls,
/// and what it hands over, in declared order.
#[derive(Clone, Copy)]
pub(crate) struct Call<'a> {
    pub at: Place,
    pub target: Option<ExprId>,
    pub keep: bool,
    pub callee: Callee,
    pub args: &'a [ExprId],
}

/// The rule of a call of a method with this mark: its arguments in the types that the method takes, what it may change, and
/// its answer.
pub(crate) fn invoke(
    t: &Typed,
    facts: &mut Facts,
    call: Call<'_>,
    mark: Mark,
    taken: &[Var],
    answers: Ty,
) -> Result<(), Refusal>
    requires target { IsTrue (is_optional_expr t.now call.target) }
    requires there { IsTrue (list_all (is_expr t.now) call.args.now) }
    requires all { length call.args.now ≡ length taken.now }
    requires few { MayBeDropped (written_by (optional_target (tree_of t.now) call.target)) }
    requires over { IsOver t.now facts.old }
    ensures over { IsOver t.now facts.new }
    ensures settles { Settles t.now (or_else (all_handed B8 (known_to_call call.entry.keep mark (claims_in t.now facts.old.list)) (handed_to (map (λ x. x.ty) taken.now) (map (tree_of t.now) call.entry.args.now))) (answer_refusal (left_by_call call.entry.keep mark (map (tree_of t.now) call.entry.args.now) (claims_in t.now facts.old.list)) call.entry.at (optional_target (tree_of t.now) call.entry.target) (number_type answers))) (invoked (claims_in t.now facts.old.list) (optional_target (tree_of t.now) call.entry.target) call.entry.keep mark (map (tree_of t.now) call.entry.args.now)) result facts.new }
{
    enter_call(t, facts, call.keep, mark);
    check_arguments(t, &facts.as_known(t), taken, call.args)?;
    leave_call(t, facts, call.keep, mark, call.args);
    check_answer(t, &facts.as_known(t), call.at, call.target, answers)?;
    drop_target(t, facts, call.target);
    Ok(())
}

// Drops what isn't known where the arguments are looked at.
fn enter_call(t: &Typed, facts: &mut Facts, keep: bool, mark: Mark)
    requires over { IsOver t.now facts.old }
    ensures over { IsOver t.now facts.new }
    ensures claims { claims_in t.now facts.new.list ≡ known_to_call keep mark (claims_in t.now facts.old.list) }
{
    if hands_on(keep, mark) {
        interrupt(t, facts);
    }
}

// Drops what the method may change.
fn leave_call(t: &Typed, facts: &mut Facts, keep: bool, mark: Mark, args: &[ExprId])
    requires there { IsTrue (list_all (is_expr t.now) args.now) }
    requires over { IsOver t.now facts.old }
    ensures over { IsOver t.now facts.new }
    ensures claims { claims_in t.now facts.new.list ≡ changed_by_call keep mark (map (tree_of t.now) args.now) (claims_in t.now facts.old.list) }
{
    if hands_on(keep, mark) || is_pure(mark) {
        return;
    }
    facts.drop_mentions(t, Thing::This);
    facts.drop_mentions(t, Thing::Element);
    drop_handed(t, facts, args);
}

// Drops what mentions a reader or a writer that is handed over.
fn drop_handed(t: &Typed, facts: &mut Facts, args: &[ExprId])
    requires there { IsTrue (list_all (is_expr t.now) args.now) }
    requires over { IsOver t.now facts.old }
    ensures over { IsOver t.now facts.new }
    ensures claims { claims_in t.now facts.new.list ≡ without_handed (map (tree_of t.now) args.now) (claims_in t.now facts.old.list) }
{
    for i in 0..args.len() {
        drop_written(t, facts, handed(t, args[i]));
    }
}

/// The reader or writer that a value is.
pub(crate) fn handed(t: &Typed, e: ExprId) -> Option<Thing>
    requires there { IsTrue (is_expr t.now e) }
    ensures thing { result ≡ handed_thing (tree_of t.now e) }
    ensures few { MayBeDropped result }
{
    let expr = t.expr(e);
    match t.constant(e) {
        Some(_) => None,
        None => buffer(t.type_of(e), expr),
    }
}

fn buffer(ty: Ty, expr: &Expr) -> Option<Thing>
    ensures thing { result ≡ buffer_named ty expr.now }
    ensures few { MayBeDropped result }
{
    match ty {
        Ty::Reader | Ty::Writer => match expr {
            Expr::Arg(x) => Some(Thing::Arg(*x)),
            _ => None,
        },
        _ => None,
    }
}

fn hands_on(keep: bool, mark: Mark) -> bool
    ensures { result ≡ call_hands_on keep mark }
{
    !keep && is_coroutine(mark)
}

fn is_coroutine(mark: Mark) -> bool
    ensures { result ≡ coroutine_mark mark }
{
    matches!(mark, Mark::Coroutine)
}

fn is_pure(mark: Mark) -> bool
    ensures { result ≡ pure_mark mark }
{
    matches!(mark, Mark::Pure)
}
