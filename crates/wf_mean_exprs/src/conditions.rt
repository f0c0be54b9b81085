// The values of conditions and of statuses in the source's machine. The recursion goes as deep as conditions stand inside one
// another; the operands of a chain stand side by side.

ghost use Rattle.std.specs.Prelude.{◌≡◌, ◌<◌, ◌∷◌, [], nat_lt, length, map, not, IsTrue, option_map};
ghost use Rattle.std.specs.List.{list_all};
ghost use Rattle.wf_base.specs.BaseTable.{row_of};
ghost use Rattle.wf_ast.specs.TypedTree.{logical, closed, has_category, negation, local, field, arg};
ghost use Rattle.wf_ast.specs.TypedTrees.{named, answer_of, chain_of, io_in, place_of_node, signs_of_node, operator_kind, tree_of, type_of_node};
ghost use Rattle.wf_ast.specs.TypedInvariant.{chain_fits, compares_kinds, has_kind, is_expr, is_io, is_state, is_tree_of};
ghost use Rattle.wf_ast.specs.Value.{truth_of, status_value, same_category, same_truth};
ghost use Rattle.wf_ast.specs.OperatorForms.{order_in, is_ordering, is_joining, is_equal};
ghost use Rattle.wf_ast.specs.NodeKinds.{node_cond, node_status, is_condition_at, is_status_at};
ghost use Rattle.wf_mean_exprs.specs.MachineState.{seen_from};
ghost use Rattle.wf_mean_exprs.specs.Conditions.{joins_both, junction_of, numbers_compare, statuses_same, gives_truth};

use crate::arithmetic::compare;
use crate::numbers::number;
use crate::reading::Scene;
use wf_ast::{ArgId, Expr, ExprId, FieldId, LocalId, Op, Ty, io_arg};
use wf_base::BaseSig;
use wf_bufs::Buf;
use wf_text::Category;

/// The value of a condition; None where it is stuck.
#[cycle(deciding)]
pub fn truth(scene: &Scene, e: ExprId) -> Option<bool>
    requires { IsTrue (is_condition_at scene.now.package.now e) }
    ensures { result ≡ truth_of (seen_from scene.now) (node_cond scene.now.package.now e) }
{
    let expr = scene.package.expr(e);
    match scene.package.constant(e) {
        Some(_) => unreachable!(),
        None => match expr {
            Expr::Truth(b) => Some(*b),
            Expr::Local(x) => local_truth(scene, e, *x),
            Expr::Field(x) => field_truth(scene, e, *x),
            Expr::Arg(x) => arg_truth(scene, e, *x),
            Expr::Chain { op, parts } => truth_of_chain(scene, e, *op, parts.as_slice()),
            Expr::Not(of) => negated(scene, e, *of),
            Expr::Base { on, sig } => truth_of_answer(scene, e, *on, *sig),
            Expr::Number(_) | Expr::Const(_) | Expr::Status(_) => unreachable!(),
            Expr::Index { .. } | Expr::Cut { .. } | Expr::Convert { .. } => unreachable!(),
        },
    }
}

// The truth value in a variable.

fn local_truth(scene: &Scene, e: ExprId, x: LocalId) -> Option<bool>
    requires node { IsTrue (is_condition_at scene.now.package.now e) }
    requires tree { tree_of scene.now.package.now e ≡ named (place_of_node scene.now.package.now e.0) (type_of_node scene.now.package.now e.0) (local x.0) }
    ensures { result ≡ truth_of (seen_from scene.now) (node_cond scene.now.package.now e) }
{
    scene.local_truth(x)
}

fn field_truth(scene: &Scene, e: ExprId, x: FieldId) -> Option<bool>
    requires node { IsTrue (is_condition_at scene.now.package.now e) }
    requires tree { tree_of scene.now.package.now e ≡ named (place_of_node scene.now.package.now e.0) (type_of_node scene.now.package.now e.0) (field x.0) }
    ensures { result ≡ truth_of (seen_from scene.now) (node_cond scene.now.package.now e) }
{
    scene.field_truth(x)
}

fn arg_truth(scene: &Scene, e: ExprId, x: ArgId) -> Option<bool>
    requires node { IsTrue (is_condition_at scene.now.package.now e) }
    requires tree { tree_of scene.now.package.now e ≡ named (place_of_node scene.now.package.now e.0) (type_of_node scene.now.package.now e.0) (arg x.0) }
    ensures { result ≡ truth_of (seen_from scene.now) (node_cond scene.now.package.now e) }
{
    scene.arg_truth(x)
}

#[cycle(deciding)]
fn negated(scene: &Scene, e: ExprId, of: ExprId) -> Option<bool>
    requires tree { tree_of scene.now.package.now e ≡ logical (negation (place_of_node scene.now.package.now e.0) (node_cond scene.now.package.now of)) }
    requires of { IsTrue (is_condition_at scene.now.package.now of) }
    requires below { of.0 < e.0 }
    ensures { result ≡ truth_of (seen_from scene.now) (node_cond scene.now.package.now e) }
{
    opposite(truth(scene, of))
}

fn opposite(b: Option<bool>) -> Option<bool>
    ensures { result ≡ option_map not b }
{
    Some(!b?)
}

// A chain of conditions, or a comparison.
#[cycle(deciding)]
fn truth_of_chain(scene: &Scene, e: ExprId, op: Op, parts: &[ExprId]) -> Option<bool>
    requires node { IsTrue (is_condition_at scene.now.package.now e) }
    requires tree { tree_of scene.now.package.now e ≡ chain_of (place_of_node scene.now.package.now e.0) (signs_of_node scene.now.package.now e.0) (type_of_node scene.now.package.now e.0) (operator_kind op) (map (tree_of scene.now.package.now) parts.now) }
    requires fits { IsTrue (chain_fits scene.now.package.now (operator_kind op) parts.now (type_of_node scene.now.package.now e.0)) }
    requires below { IsTrue (list_all (λ p. nat_lt p.0 e.0) parts.now) }
    requires trees { IsTrue (list_all (λ p. is_tree_of (type_of_node scene.now.package.now p.0) (tree_of scene.now.package.now p)) parts.now) }
    ensures { result ≡ truth_of (seen_from scene.now) (node_cond scene.now.package.now e) }
{
    if joins(op) {
        truth_of_junction(scene, e, op, parts)
    } else {
        truth_of_comparison(scene, e, op, parts)
    }
}

fn joins(op: Op) -> bool
    ensures { result ≡ is_joining (operator_kind op) }
{
    match op {
        Op::And | Op::Or => true,
        Op::Add | Op::Sub | Op::Mul | Op::Div | Op::Rem => false,
        Op::BitAnd | Op::BitOr | Op::BitXor | Op::Shl | Op::Shr => false,
        Op::ModAdd | Op::ModSub | Op::ModMul | Op::ModShl => false,
        Op::SatAdd | Op::SatSub => false,
        Op::Same | Op::Differs | Op::Less | Op::LessOrSame => false,
        Op::Greater | Op::GreaterOrSame => false,
    }
}

// `and` and `or`, from the left.
#[cycle(deciding)]
fn truth_of_junction(scene: &Scene, e: ExprId, op: Op, parts: &[ExprId]) -> Option<bool>
    requires tree { tree_of scene.now.package.now e ≡ chain_of (place_of_node scene.now.package.now e.0) (signs_of_node scene.now.package.now e.0) (type_of_node scene.now.package.now e.0) (operator_kind op) (map (tree_of scene.now.package.now) parts.now) }
    requires joining { IsTrue (is_joining (operator_kind op)) }
    requires below { IsTrue (list_all (λ p. nat_lt p.0 e.0) parts.now) }
    requires conditions { IsTrue (list_all (is_condition_at scene.now.package.now) parts.now) }
    requires some { 0 < length parts.now }
    ensures { result ≡ truth_of (seen_from scene.now) (node_cond scene.now.package.now e) }
{
    let mut so_far = truth(scene, parts[0]);
    for i in 1..parts.len() {
        so_far = joined(op, so_far, truth(scene, parts[i]));
    }
    so_far
}

fn joined(op: Op, so_far: Option<bool>, next: Option<bool>) -> Option<bool>
    requires { IsTrue (is_joining (operator_kind op)) }
    ensures { result ≡ junction_of (joins_both (operator_kind op)) so_far next }
{
    match (so_far, next) {
        (Some(p), Some(q)) => Some(if matches!(op, Op::And) {
            p && q
        } else {
            p || q
        }),
        (Some(_), None) => None,
        (None, Some(_)) => None,
        (None, None) => None,
    }
}

// A comparison of two numbers, or of two statuses.
fn truth_of_comparison(scene: &Scene, e: ExprId, op: Op, parts: &[ExprId]) -> Option<bool>
    requires tree { tree_of scene.now.package.now e ≡ chain_of (place_of_node scene.now.package.now e.0) (signs_of_node scene.now.package.now e.0) (type_of_node scene.now.package.now e.0) (operator_kind op) (map (tree_of scene.now.package.now) parts.now) }
    requires ordering { IsTrue (is_ordering (operator_kind op)) }
    requires fits { IsTrue (chain_fits scene.now.package.now (operator_kind op) parts.now (type_of_node scene.now.package.now e.0)) }
    requires there { IsTrue (list_all (is_expr scene.now.package.now) parts.now) }
    requires trees { IsTrue (list_all (λ p. is_tree_of (type_of_node scene.now.package.now p.0) (tree_of scene.now.package.now p)) parts.now) }
    ensures { result ≡ truth_of (seen_from scene.now) (node_cond scene.now.package.now e) }
{
    match parts {
        [a, b] => truth_of_two(scene, e, op, *a, *b),
        _ => unreachable!(),
    }
}

fn truth_of_two(scene: &Scene, e: ExprId, op: Op, a: ExprId, b: ExprId) -> Option<bool>
    requires tree { tree_of scene.now.package.now e ≡ chain_of (place_of_node scene.now.package.now e.0) (signs_of_node scene.now.package.now e.0) (type_of_node scene.now.package.now e.0) (operator_kind op) (tree_of scene.now.package.now a ∷ tree_of scene.now.package.now b ∷ []) }
    requires ordering { IsTrue (is_ordering (operator_kind op)) }
    requires kinds { IsTrue (compares_kinds (operator_kind op) (type_of_node scene.now.package.now a.0) (type_of_node scene.now.package.now b.0)) }
    requires left { IsTrue (is_expr scene.now.package.now a) }
    requires right { IsTrue (is_expr scene.now.package.now b) }
    requires left_tree { IsTrue (is_tree_of (type_of_node scene.now.package.now a.0) (tree_of scene.now.package.now a)) }
    ensures { result ≡ truth_of (seen_from scene.now) (node_cond scene.now.package.now e) }
{
    if has_status(scene, a) {
        same_statuses(op, status(scene, a), status(scene, b))
    } else {
        compared(op, number(scene, a), number(scene, b))
    }
}

fn has_status(scene: &Scene, a: ExprId) -> bool
    requires { IsTrue (is_expr scene.now.package.now a) }
    ensures { result ≡ is_state (type_of_node scene.now.package.now a.0) }
{
    match scene.package.type_of(a) {
        Ty::Status => true,
        Ty::Num { .. } | Ty::Flag | Ty::Reader | Ty::Writer => false,
        Ty::Slice(_) | Ty::Array { .. } | Ty::Part(_) => false,
    }
}

fn compared(op: Op, m: Option<u64>, n: Option<u64>) -> Option<bool>
    requires { IsTrue (is_ordering (operator_kind op)) }
    ensures { result ≡ numbers_compare (order_in (operator_kind op)) m n }
{
    match (m, n) {
        (Some(m), Some(n)) => Some(compare(op, m, n)),
        (Some(_), None) => None,
        (None, Some(_)) => None,
        (None, None) => None,
    }
}

fn same_statuses(op: Op, m: Option<u32>, n: Option<u32>) -> Option<bool>
    requires { IsTrue (is_ordering (operator_kind op)) }
    ensures { result ≡ statuses_same (is_equal (order_in (operator_kind op))) m n }
{
    match (m, n) {
        (Some(m), Some(n)) => Some(agree(asks_same(op), m == n)),
        (Some(_), None) => None,
        (None, Some(_)) => None,
        (None, None) => None,
    }
}

fn agree(a: bool, b: bool) -> bool
    ensures { result ≡ same_truth a b }
{
    if a { b } else { !b }
}

fn asks_same(op: Op) -> bool
    requires { IsTrue (is_ordering (operator_kind op)) }
    ensures { result ≡ is_equal (order_in (operator_kind op)) }
{
    match op {
        Op::Same => true,
        Op::Differs => false,
        Op::Less => false,
        Op::LessOrSame => false,
        Op::Greater => false,
        Op::GreaterOrSame => false,
        _ => unreachable!(),
    }
}

// What a base method answers.
fn truth_of_answer(scene: &Scene, e: ExprId, on: ExprId, sig: BaseSig) -> Option<bool>
    requires tree { tree_of scene.now.package.now e ≡ answer_of (place_of_node scene.now.package.now e.0) sig (tree_of scene.now.package.now on) }
    requires kind { IsTrue (has_kind (row_of sig).on (type_of_node scene.now.package.now on.0)) }
    requires truth { IsTrue (gives_truth sig) }
    requires on { IsTrue (is_expr scene.now.package.now on) }
    ensures { result ≡ truth_of (seen_from scene.now) (node_cond scene.now.package.now e) }
{
    match sig {
        BaseSig::ReaderIsClosed => is_closed(scene, e, on),
        BaseSig::IsOk => is_of(scene, e, on, Category::Fine),
        BaseSig::IsNote => is_of(scene, e, on, Category::Note),
        BaseSig::IsSuspension => is_of(scene, e, on, Category::Suspension),
        BaseSig::IsError => is_of(scene, e, on, Category::Fault),
        BaseSig::SliceLength(_) | BaseSig::ArrayLength(_) | BaseSig::Peek(_) => unreachable!(),
        BaseSig::ReaderLength | BaseSig::ReaderPosition | BaseSig::Read(_) => unreachable!(),
        BaseSig::WriterLength | BaseSig::WriterPosition | BaseSig::Skip => unreachable!(),
        BaseSig::SkipFast | BaseSig::Write | BaseSig::WriteFast => unreachable!(),
        BaseSig::WriterCopy | BaseSig::SliceCopy(_) => unreachable!(),
    }
}

fn is_closed(scene: &Scene, e: ExprId, on: ExprId) -> Option<bool>
    requires tree { tree_of scene.now.package.now e ≡ logical (closed (place_of_node scene.now.package.now e.0) (io_in (tree_of scene.now.package.now on))) }
    requires on { IsTrue (is_expr scene.now.package.now on) }
    requires kind { IsTrue (is_io (type_of_node scene.now.package.now on.0)) }
    ensures { result ≡ truth_of (seen_from scene.now) (node_cond scene.now.package.now e) }
{
    closed_of(scene.buffer(io_arg(scene.package, on)))
}

fn closed_of(buf: Option<&Buf>) -> Option<bool>
    ensures { result ≡ option_map (λ b. b.closed) (option_map (λ b. b.now) buf.entry) }
{
    Some(buf?.is_closed())
}

fn is_of(scene: &Scene, e: ExprId, on: ExprId, category: Category) -> Option<bool>
    requires tree { tree_of scene.now.package.now e ≡ logical (has_category (place_of_node scene.now.package.now e.0) (node_status scene.now.package.now on) category) }
    requires on { IsTrue (is_status_at scene.now.package.now on) }
    ensures { result ≡ truth_of (seen_from scene.now) (node_cond scene.now.package.now e) }
{
    let s = status(scene, on)?;
    Some(same_kind(category, scene.category(s)))
}

fn same_kind(a: Category, b: Category) -> bool
    ensures { result ≡ same_category a b }
{
    a as u8 == b as u8
}

/// A status, by its number in the package; None where it is stuck.
pub(crate) fn status(scene: &Scene, e: ExprId) -> Option<u32>
    requires { IsTrue (is_status_at scene.now.package.now e) }
    ensures { result ≡ status_value (seen_from scene.now) (node_status scene.now.package.now e) }
{
    let expr = scene.package.expr(e);
    match scene.package.constant(e) {
        Some(_) => unreachable!(),
        None => match expr {
            Expr::Status(s) => Some(s.0),
            Expr::Local(x) => local_status(scene, e, *x),
            Expr::Field(x) => field_status(scene, e, *x),
            Expr::Arg(_) => unreachable!(),
            Expr::Number(_) | Expr::Const(_) | Expr::Truth(_) => unreachable!(),
            Expr::Chain { .. } => unreachable!(),
            Expr::Index { .. } | Expr::Cut { .. } => unreachable!(),
            Expr::Convert { .. } | Expr::Not(_) | Expr::Base { .. } => unreachable!(),
        },
    }
}

fn local_status(scene: &Scene, e: ExprId, x: LocalId) -> Option<u32>
    requires node { IsTrue (is_status_at scene.now.package.now e) }
    requires tree { tree_of scene.now.package.now e ≡ named (place_of_node scene.now.package.now e.0) (type_of_node scene.now.package.now e.0) (local x.0) }
    ensures { result ≡ status_value (seen_from scene.now) (node_status scene.now.package.now e) }
{
    scene.local_status(x)
}

fn field_status(scene: &Scene, e: ExprId, x: FieldId) -> Option<u32>
    requires node { IsTrue (is_status_at scene.now.package.now e) }
    requires tree { tree_of scene.now.package.now e ≡ named (place_of_node scene.now.package.now e.0) (type_of_node scene.now.package.now e.0) (field x.0) }
    ensures { result ≡ status_value (seen_from scene.now) (node_status scene.now.package.now e) }
{
    scene.field_status(x)
}
