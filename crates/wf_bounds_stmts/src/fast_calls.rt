// Base methods that take or append bytes without suspending, which need these bytes or their room.

ghost use Rattle.std.specs.Prelude.{◌≡◌, None, true, IsTrue};
ghost use Rattle.wf_text.specs.declared.rules.Rule.TheVariants.{B8, B9};
ghost use Rattle.wf_base.specs.declared.widths.Width.TheVariants.{W8, W32};
ghost use Rattle.wf_ast.specs.declared.types.Ty.TheVariants as types;
ghost use Rattle.wf_ast.specs.TypedTree.{skip_fast as skip_tree, write_fast as write_tree};
ghost use Rattle.wf_ast.specs.TypedTrees.{io_in, optional_target, tree_of, type_of_node};
ghost use Rattle.wf_ast.specs.TypedInvariant.{is_expr, is_io, is_optional_expr};
ghost use Rattle.wf_ast.specs.NodeKinds.{is_number_at, node_number};
ghost use Rattle.wf_facts_exprs.specs.Knowledge.{IsKnown, told};
ghost use Rattle.wf_facts_exprs.specs.Claims.{claims_in, is_side, order_of, side_in};
ghost use Rattle.wf_facts_exprs.specs.Given.{gives_sides as sides_given};
ghost use Rattle.wf_facts_exprs.specs.Demands.{demand, or_else, side_refusal, unless_refused};
ghost use Rattle.wf_facts.specs.IndexedFacts.{IsOver};
ghost use Rattle.wf_bounds_stmts.specs.Requirements.{all_handed};
ghost use Rattle.wf_bounds_stmts.specs.Targets.{answer_refusal, unwritten, written_by};
ghost use Rattle.wf_bounds_stmts.specs.Calls.{handed_to_written, perform_refusal, performed, premise_refusal};
ghost use Rattle.wf_bounds_stmts.specs.Outcomes.{MayBeDropped, Settles};

use crate::answers::{check_answer, drop_target};
use crate::awaiting::all_of;
use crate::calling::handed;
use crate::handed::{check_one, check_two};
use crate::limits::look_at;
use crate::stepping::number;
use wf_ast::{ArgId, ExprId, Thing, Ty, Typed};
use wf_base::Width;
use wf_facts::Facts;
use wf_facts_exprs::{Cmp, Known, Side, gives_sides};
use wf_text::{Place, Refusal, Rule};

/// A skip that doesn't suspend: the reader, how many bytes it takes, and how many it needs.
#[derive(Clone, Copy)]
pub(crate) struct FastSkip {
    pub on: ExprId,
    pub actual: ExprId,
    pub worst_case: ExprId,
}

/// The rule of a skip that doesn't suspend. `at` is the place of its name.
pub(crate) fn skip_fast(
    t: &Typed,
    facts: &mut Facts,
    at: Place,
    target: Option<ExprId>,
    skip: FastSkip,
) -> Result<(), Refusal>
    requires target { IsTrue (is_optional_expr t.now target) }
    requires on_there { IsTrue (is_expr t.now skip.on) }
    requires on { type_of_node t.now skip.on.0 ≡ types.Reader }
    requires actual { is_number_at t.now skip.actual ≡ true }
    requires worst_case { is_number_at t.now skip.worst_case ≡ true }
    requires few { MayBeDropped (written_by (optional_target (tree_of t.now) target)) }
    requires over { IsOver t.now facts.old }
    ensures over { IsOver t.now facts.new }
    ensures settles { Settles t.now (perform_refusal (claims_in t.now facts.old.list) at (optional_target (tree_of t.now) target) (skip_tree (io_in (tree_of t.now skip.on)) (node_number t.now skip.actual) (node_number t.now skip.worst_case))) (performed (claims_in t.now facts.old.list) (optional_target (tree_of t.now) target) (skip_tree (io_in (tree_of t.now skip.on)) (node_number t.now skip.actual) (node_number t.now skip.worst_case))) result facts.new }
{
    check_skip(t, &facts.as_known(t), at, skip)?;
    facts.lower_length(t, io_of(t, skip.on), number(t, skip.worst_case));
    take_answer(t, facts, at, target)
}

/// The rule of a write that doesn't suspend: it needs room for its byte. `at` is the place of its name.
pub(crate) fn write_fast(
    t: &Typed,
    facts: &mut Facts,
    at: Place,
    target: Option<ExprId>,
    on: ExprId,
    byte: ExprId,
) -> Result<(), Refusal>
    requires target { IsTrue (is_optional_expr t.now target) }
    requires on_there { IsTrue (is_expr t.now on) }
    requires on { type_of_node t.now on.0 ≡ types.Writer }
    requires byte { is_number_at t.now byte ≡ true }
    requires few { MayBeDropped (written_by (optional_target (tree_of t.now) target)) }
    requires over { IsOver t.now facts.old }
    ensures over { IsOver t.now facts.new }
    ensures settles { Settles t.now (perform_refusal (claims_in t.now facts.old.list) at (optional_target (tree_of t.now) target) (write_tree (io_in (tree_of t.now on)) (node_number t.now byte))) (performed (claims_in t.now facts.old.list) (optional_target (tree_of t.now) target) (write_tree (io_in (tree_of t.now on)) (node_number t.now byte))) result facts.new }
{
    check_write(t, &facts.as_known(t), at, on, byte)?;
    facts.lower_length(t, io_of(t, on), Some(1));
    take_answer(t, facts, at, target)
}

// What a skip is handed, and then its two premises.
fn check_skip(t: &Typed, facts: &Known, at: Place, skip: FastSkip) -> Result<(), Refusal>
    requires known { IsKnown t.now facts.now }
    requires on_there { IsTrue (is_expr t.now skip.on) }
    requires on { type_of_node t.now skip.on.0 ≡ types.Reader }
    requires actual { is_number_at t.now skip.actual ≡ true }
    requires worst_case { is_number_at t.now skip.worst_case ≡ true }
    ensures { result ≡ unless_refused (or_else (all_handed B8 (claims_in t.now (told facts.now)) (handed_to_written (skip_tree (io_in (tree_of t.now skip.on)) (node_number t.now skip.actual) (node_number t.now skip.worst_case)))) (premise_refusal (claims_in t.now (told facts.now)) at (skip_tree (io_in (tree_of t.now skip.on)) (node_number t.now skip.actual) (node_number t.now skip.worst_case)))) tt }
{
    let FastSkip {
        on,
        actual,
        worst_case,
    } = skip;
    look_at(t, on);
    look_at(t, actual);
    look_at(t, worst_case);
    check_two(t, facts, Rule::B8, all_of(Width::W32), actual, worst_case)?;
    let most = Side::Expr(worst_case);
    check_given(t, facts, at, Side::Expr(actual), Cmp::Le, most)?;
    check_given(t, facts, at, Side::Length(on), Cmp::Ge, most)
}

// What a write is handed, and then its premise.
fn check_write(t: &Typed, facts: &Known, at: Place, on: ExprId, byte: ExprId) -> Result<(), Refusal>
    requires known { IsKnown t.now facts.now }
    requires on_there { IsTrue (is_expr t.now on) }
    requires on { type_of_node t.now on.0 ≡ types.Writer }
    requires byte { is_number_at t.now byte ≡ true }
    ensures { result ≡ unless_refused (or_else (all_handed B8 (claims_in t.now (told facts.now)) (handed_to_written (write_tree (io_in (tree_of t.now on)) (node_number t.now byte)))) (premise_refusal (claims_in t.now (told facts.now)) at (write_tree (io_in (tree_of t.now on)) (node_number t.now byte)))) tt }
{
    look_at(t, on);
    look_at(t, byte);
    check_one(t, facts, Rule::B8, all_of(Width::W8), byte)?;
    check_given(t, facts, at, Side::Length(on), Cmp::Ge, Side::Num(1))
}

// A premise has to be given.
fn check_given(
    t: &Typed,
    facts: &Known,
    at: Place,
    left: Side,
    op: Cmp,
    right: Side,
) -> Result<(), Refusal>
    requires known { IsKnown t.now facts.now }
    requires left { IsTrue (is_side t.now left) }
    requires right { IsTrue (is_side t.now right) }
    requires left_fine { side_refusal (claims_in t.now (told facts.now)) (side_in t.now left) ≡ None }
    requires right_fine { side_refusal (claims_in t.now (told facts.now)) (side_in t.now right) ≡ None }
    ensures { result ≡ unless_refused (demand (sides_given (claims_in t.now (told facts.now)) (side_in t.now left) (order_of op) (side_in t.now right)) B9 at) tt }
{
    if gives_sides(t, facts, left, op, right) {
        Ok(())
    } else {
        Err(Refusal { rule: Rule::B9, at })
    }
}

// A call that answers no number.
fn take_answer(
    t: &Typed,
    facts: &mut Facts,
    at: Place,
    target: Option<ExprId>,
) -> Result<(), Refusal>
    requires target { IsTrue (is_optional_expr t.now target) }
    requires few { MayBeDropped (written_by (optional_target (tree_of t.now) target)) }
    requires over { IsOver t.now facts.old }
    ensures over { IsOver t.now facts.new }
    ensures settles { Settles t.now (answer_refusal (claims_in t.now facts.old.list) at (optional_target (tree_of t.now) target) None) (unwritten (optional_target (tree_of t.now) target) (claims_in t.now facts.old.list)) result facts.new }
{
    check_answer(t, &facts.as_known(t), at, target, Ty::Flag)?;
    drop_target(t, facts, target);
    Ok(())
}

/// The argument that a reader or a writer is.
pub(crate) fn io_of(t: &Typed, on: ExprId) -> ArgId
    requires there { IsTrue (is_expr t.now on) }
    requires io { is_io (type_of_node t.now on.0) ≡ true }
    ensures { result.0 ≡ io_in (tree_of t.now on) }
{
    look_at(t, on);
    match handed(t, on) {
        Some(Thing::Arg(x)) => x,
        _ => unreachable!(),
    }
}
