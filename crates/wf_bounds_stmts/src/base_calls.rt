// Base methods that are called as statements.

ghost use Rattle.std.specs.Prelude.{◌≡◌, [], ◌∷◌, length, map, true, IsTrue};
ghost use Rattle.std.specs.List.{list_all};
ghost use Rattle.wf_base.specs.BaseTable.{row_of};
ghost use Rattle.wf_ast.specs.TypedTrees.{base_call, optional_target, tree_of, type_of_node};
ghost use Rattle.wf_ast.specs.TypedInvariant.{has_kind, is_expr, is_optional_expr, IsTyped};
ghost use Rattle.wf_facts_exprs.specs.Claims.{claims_in};
ghost use Rattle.wf_facts.specs.IndexedFacts.{IsOver};
ghost use Rattle.wf_bounds_stmts.specs.Targets.{written_by};
ghost use Rattle.wf_bounds_stmts.specs.Outcomes.{Leaves, MayBeDropped};
ghost use Rattle.wf_bounds_stmts.specs.Passing.{KeepsTypes};

use crate::answers::await_answer;
use crate::awaiting::{all_of, await_handed};
use crate::calling::Call;
use crate::copying::{copy_in, copy_out};
use crate::fast_calls::{FastSkip, io_of, skip_fast, write_fast};
use wf_ast::{ExprId, Typed};
use wf_base::{BaseSig, Width};
use wf_facts::Facts;
use wf_text::Refusal;

/// The rule of a call of this base method as a statement.
pub(crate) fn call_base(
    t: &Typed,
    facts: &mut Facts,
    call: Call<'_>,
    on: ExprId,
    sig: BaseSig,
) -> Result<(), Refusal>
    requires typed { IsTyped t.now }
    requires target { IsTrue (is_optional_expr t.now call.target) }
    requires on_there { IsTrue (is_expr t.now on) }
    requires there { IsTrue (list_all (is_expr t.now) call.args.now) }
    requires receiver { has_kind (row_of sig).on (type_of_node t.now on.0) ≡ true }
    requires well { KeepsTypes t.now (base_call call.at (optional_target (tree_of t.now) call.target) (tree_of t.now on) sig (map (tree_of t.now) call.args.now)) }
    requires few { MayBeDropped (written_by (optional_target (tree_of t.now) call.target)) }
    requires over { IsOver t.now facts.old }
    ensures over { IsOver t.now facts.new }
    ensures leaves { Leaves t.now (claims_in t.now facts.old.list) (base_call call.entry.at (optional_target (tree_of t.now) call.entry.target) (tree_of t.now on) sig (map (tree_of t.now) call.entry.args.now)) result facts.new }
{
    let Call {
        at,
        target,
        args,
        ..
    } = call;
    match sig {
        BaseSig::Read(form) => await_answer(t, facts, at, target, all_of(form.width())),
        BaseSig::Skip => await_handed(t, facts, at, target, Width::W32, only(args)),
        BaseSig::Write => await_handed(t, facts, at, target, Width::W8, only(args)),
        BaseSig::SkipFast => {
            let (actual, worst_case) = both(args);
            let skip = FastSkip {
                on,
                actual,
                worst_case,
            };
            skip_fast(t, facts, at, target, skip)
        }
        BaseSig::WriteFast => write_fast(t, facts, at, target, on, only(args)),
        BaseSig::WriterCopy => copy_out(t, facts, at, target, io_of(t, on), only(args)),
        BaseSig::SliceCopy(_) => copy_in(t, facts, at, target, on, only(args)),
        _ => unreachable!(),
    }
}

// The only argument, and the only two.
fn only(args: &[ExprId]) -> ExprId
    requires { length args.now ≡ 1 }
    ensures { args.now ≡ result ∷ [] }
{
    args[0]
}

fn both(args: &[ExprId]) -> (ExprId, ExprId)
    requires { length args.now ≡ 2 }
    ensures { args.now ≡ result.0 ∷ result.1 ∷ [] }
{
    (args[0], args[1])
}
