// Conditions. The recursion goes as deep as conditions stand inside one another; the operands of a chain stand side by side.

ghost use Rattle.std.specs.Prelude.{◌≡◌, ◌<◌, ◌∷◌, [], true, false, nat_lt, length, map, IsTrue, IfOk, if◌then◌else◌};
ghost use Rattle.std.specs.List.{list_all};
ghost use Rattle.wf_base.specs.BaseTable.{row_of};
ghost use Rattle.wf_ast.specs.TypedTree.{closed, negation};
ghost use Rattle.wf_ast.specs.TypedTrees.{answer_of, chain_of, named, place_of_node, signs_of_node, operator_kind, tree_of, type_of_node};
ghost use Rattle.wf_ast.specs.TypedInvariant.{chain_fits, compares_kinds, has_kind, is_expr, is_state, is_tree_of};
ghost use Rattle.wf_ast.specs.NodeKinds.{is_condition_at, is_number_at, is_status_at, node_cond, node_number, node_status};
ghost use Rattle.wf_ast.specs.Same.{same_state};
ghost use Rattle.wf_ast.specs.OperatorForms.{is_equal, is_joining, is_ordering, order_in};
ghost use Rattle.c_text.specs.CNodes.{expr_of};
ghost use Rattle.c_text.specs.CTree as c;
ghost use Rattle.c_text.specs.declared.kinds.COp.TheVariants.{Ne};
ghost use Rattle.c_text.specs.declared.kinds.CUnary.TheVariants.{Not};
ghost use Rattle.wf_exprs.specs.Exprs.{category_code, comparand as comparand_of, compared as compared_code, constants_compared as constants_compared_code, held_compared as held_compared_code, is_literal_zero as is_literal_zero_tree, known_if as known_if_code, left_compared as left_compared_code, lowered_cond, lowered_status, numbers_compared as numbers_compared_code, right_compared as right_compared_code, same_code, settled as settled_code, statuses_compared as statuses_compared_code, variables_compared as variables_compared_code};
ghost use Rattle.wf_exprs.specs.Grown.{Grows, HasExpr};
ghost use Rattle.wf_exprs.specs.Making.{rated_in};
ghost use Rattle.wf_exprs.specs.Scopes.{path_of};
ghost use Rattle.wf_exprs.specs.Words.{num, two as two_trees};
ghost use Rattle.wf_exprs_nodes.specs.Trees.{answers_truth};

use crate::chains::{joins, operation};
use crate::comparands::comparand;
use crate::statuses::{constant_number, is_constant, is_of_category, status};
use c_text::{CExpr, CExprId, CList, CNumber, COp, Unit};
use std::alloc::Global;
use wf_ast::{Expr, ExprId, Op, Ty, Typed, io_arg, same as are_same};
use wf_base::BaseSig;
use wf_exprs::nodes::{is_held, is_literal, negated, two};
use wf_exprs::overlaps::begun;
use wf_exprs::rated::{left_compared, op_of, right_compared};
use wf_exprs::{BodyNames, Path, Rated};
use wf_text::{Category, NoMemory};

/// A condition.
#[cycle(conditions)]
pub fn condition(scope: &BodyNames, u: &mut Unit, e: ExprId) -> Result<CExprId, NoMemory>
    requires { IsTrue (is_condition_at scope.now.nodes e) }
    ensures grows { Grows u.old u.new }
    ensures made { IfOk result (λ it. HasExpr u.new it.0 (lowered_cond scope.now.names (node_cond scope.now.nodes e))) }
{
    let t = scope.typed();
    let expr = t.expr(e);
    match t.constant(e) {
        Some(_) => unreachable!(),
        None => match expr {
            Expr::Truth(b) => truth(u, *b),
            Expr::Local(x) => held_flag(scope, u, e, Path::Local(x.0)),
            Expr::Field(x) => held_flag(scope, u, e, Path::Field(x.0)),
            Expr::Arg(x) => held_flag(scope, u, e, Path::Arg(x.0)),
            Expr::Chain { op, parts } => chain(scope, u, e, *op, parts.as_slice()),
            Expr::Not(of) => opposite(scope, u, e, *of),
            Expr::Base { on, sig } => answer(scope, u, e, *on, *sig),
            Expr::Number(_) | Expr::Const(_) | Expr::Status(_) => unreachable!(),
            Expr::Index { .. } | Expr::Cut { .. } | Expr::Convert { .. } => unreachable!(),
        },
    }
}

fn truth(u: &mut Unit, b: bool) -> Result<CExprId, NoMemory>
    ensures grows { Grows u.old u.new }
    ensures made { IfOk result (λ it. HasExpr u.new it.0 (num (if b then 1 else 0))) }
{
    wf_exprs::nodes::number(u, if b { 1 } else { 0 })
}

// The truth value in a variable.
fn held_flag(scope: &BodyNames, u: &mut Unit, e: ExprId, path: Path) -> Result<CExprId, NoMemory>
    requires node { IsTrue (is_condition_at scope.now.nodes e) }
    requires tree { tree_of scope.now.nodes e ≡ named (place_of_node scope.now.nodes e.0) (type_of_node scope.now.nodes e.0) (path_of path) }
    ensures grows { Grows u.old u.new }
    ensures made { IfOk result (λ it. HasExpr u.new it.0 (lowered_cond scope.now.names (node_cond scope.now.nodes e))) }
{
    scope.path(u, path)
}

#[cycle(conditions)]
fn opposite(scope: &BodyNames, u: &mut Unit, e: ExprId, of: ExprId) -> Result<CExprId, NoMemory>
    requires tree { node_cond scope.now.nodes e ≡ negation (place_of_node scope.now.nodes e.0) (node_cond scope.now.nodes of) }
    requires of { IsTrue (is_condition_at scope.now.nodes of) }
    requires below { of.0 < e.0 }
    ensures grows { Grows u.old u.new }
    ensures made { IfOk result (λ it. HasExpr u.new it.0 (lowered_cond scope.now.names (node_cond scope.now.nodes e))) }
{
    let of = condition(scope, u, of)?;
    negated(u, of)
}

// A chain of conditions, or a comparison.
#[cycle(conditions)]
fn chain(
    scope: &BodyNames,
    u: &mut Unit,
    e: ExprId,
    op: Op,
    parts: &[ExprId],
) -> Result<CExprId, NoMemory>
    requires node { IsTrue (is_condition_at scope.now.nodes e) }
    requires tree { tree_of scope.now.nodes e ≡ chain_of (place_of_node scope.now.nodes e.0) (signs_of_node scope.now.nodes e.0) (type_of_node scope.now.nodes e.0) (operator_kind op) (map (tree_of scope.now.nodes) parts.now) }
    requires fits { IsTrue (chain_fits scope.now.nodes (operator_kind op) parts.now (type_of_node scope.now.nodes e.0)) }
    requires below { IsTrue (list_all (λ p. nat_lt p.0 e.0) parts.now) }
    requires trees { IsTrue (list_all (λ p. is_tree_of (type_of_node scope.now.nodes p.0) (tree_of scope.now.nodes p)) parts.now) }
    ensures grows { Grows u.old u.new }
    ensures made { IfOk result (λ it. HasExpr u.new it.0 (lowered_cond scope.now.names (node_cond scope.now.nodes e))) }
{
    if joins(op) {
        junction(scope, u, e, op, parts)
    } else {
        comparison(scope, u, e, op, parts)
    }
}

// `and` and `or`: one operation of C.
#[cycle(conditions)]
fn junction(
    scope: &BodyNames,
    u: &mut Unit,
    e: ExprId,
    op: Op,
    parts: &[ExprId],
) -> Result<CExprId, NoMemory>
    requires tree { tree_of scope.now.nodes e ≡ chain_of (place_of_node scope.now.nodes e.0) (signs_of_node scope.now.nodes e.0) (type_of_node scope.now.nodes e.0) (operator_kind op) (map (tree_of scope.now.nodes) parts.now) }
    requires joining { IsTrue (is_joining (operator_kind op)) }
    requires below { IsTrue (list_all (λ p. nat_lt p.0 e.0) parts.now) }
    requires conditions { IsTrue (list_all (is_condition_at scope.now.nodes) parts.now) }
    requires some { 1 < length parts.now }
    ensures grows { Grows u.old u.new }
    ensures made { IfOk result (λ it. HasExpr u.new it.0 (lowered_cond scope.now.names (node_cond scope.now.nodes e))) }
{
    let first = condition(scope, u, parts[0])?;
    let second = condition(scope, u, parts[1])?;
    let first = begun(u, op_of(op), first, second)?;
    let mut others = CList::new(scope.alloc());
    for i in 2..parts.len() {
        let operand = condition(scope, u, parts[i])?;
        others.push(operand)?;
    }
    operation(u, op, first, second, others)
}

// A comparison of two numbers, or of two statuses.
fn comparison(
    scope: &BodyNames,
    u: &mut Unit,
    e: ExprId,
    op: Op,
    parts: &[ExprId],
) -> Result<CExprId, NoMemory>
    requires tree { tree_of scope.now.nodes e ≡ chain_of (place_of_node scope.now.nodes e.0) (signs_of_node scope.now.nodes e.0) (type_of_node scope.now.nodes e.0) (operator_kind op) (map (tree_of scope.now.nodes) parts.now) }
    requires ordering { IsTrue (is_ordering (operator_kind op)) }
    requires fits { IsTrue (chain_fits scope.now.nodes (operator_kind op) parts.now (type_of_node scope.now.nodes e.0)) }
    requires there { IsTrue (list_all (is_expr scope.now.nodes) parts.now) }
    requires trees { IsTrue (list_all (λ p. is_tree_of (type_of_node scope.now.nodes p.0) (tree_of scope.now.nodes p)) parts.now) }
    ensures grows { Grows u.old u.new }
    ensures made { IfOk result (λ it. HasExpr u.new it.0 (lowered_cond scope.now.names (node_cond scope.now.nodes e))) }
{
    match parts {
        [a, b] => comparison_of(scope, u, e, op, *a, *b),
        _ => unreachable!(),
    }
}

fn comparison_of(
    scope: &BodyNames,
    u: &mut Unit,
    e: ExprId,
    op: Op,
    a: ExprId,
    b: ExprId,
) -> Result<CExprId, NoMemory>
    requires tree { tree_of scope.now.nodes e ≡ chain_of (place_of_node scope.now.nodes e.0) (signs_of_node scope.now.nodes e.0) (type_of_node scope.now.nodes e.0) (operator_kind op) (tree_of scope.now.nodes a ∷ tree_of scope.now.nodes b ∷ []) }
    requires ordering { IsTrue (is_ordering (operator_kind op)) }
    requires kinds { IsTrue (compares_kinds (operator_kind op) (type_of_node scope.now.nodes a.0) (type_of_node scope.now.nodes b.0)) }
    requires left { IsTrue (is_expr scope.now.nodes a) }
    requires right { IsTrue (is_expr scope.now.nodes b) }
    requires left_tree { IsTrue (is_tree_of (type_of_node scope.now.nodes a.0) (tree_of scope.now.nodes a)) }
    ensures grows { Grows u.old u.new }
    ensures made { IfOk result (λ it. HasExpr u.new it.0 (lowered_cond scope.now.names (node_cond scope.now.nodes e))) }
{
    if has_status(scope.typed(), a) {
        statuses_compared(scope, u, op, a, b)
    } else {
        numbers_compared(scope, u, op, a, b)
    }
}

fn has_status(t: &Typed, a: ExprId) -> bool
    requires { IsTrue (is_expr t.now a) }
    ensures { result ≡ is_state (type_of_node t.now a.0) }
{
    match t.type_of(a) {
        Ty::Status => true,
        Ty::Num { .. } | Ty::Flag | Ty::Reader | Ty::Writer => false,
        Ty::Slice(_) | Ty::Array { .. } | Ty::Part(_) => false,
    }
}

fn numbers_compared(
    scope: &BodyNames,
    u: &mut Unit,
    op: Op,
    a: ExprId,
    b: ExprId,
) -> Result<CExprId, NoMemory>
    requires ordering { IsTrue (is_ordering (operator_kind op)) }
    requires left { IsTrue (is_number_at scope.now.nodes a) }
    requires right { IsTrue (is_number_at scope.now.nodes b) }
    ensures grows { Grows u.old u.new }
    ensures made { IfOk result (λ it. HasExpr u.new it.0 (numbers_compared_code (order_in (operator_kind op)) (comparand_of scope.now.names (node_number scope.now.nodes a)) (comparand_of scope.now.names (node_number scope.now.nodes b)))) }
{
    let left = comparand(scope, u, a)?;
    let right = comparand(scope, u, b)?;
    side_by_side(scope.alloc(), u, op, left, right)
}

// Two numbers. Where one is 0, what is compared may be known.
fn side_by_side(
    alloc: Global,
    u: &mut Unit,
    op: Op,
    a: Rated,
    b: Rated,
) -> Result<CExprId, NoMemory>
    requires ordering { IsTrue (is_ordering (operator_kind op)) }
    requires left { a.code.0 < length u.old.exprs }
    requires right { b.code.0 < length u.old.exprs }
    ensures grows { Grows u.old u.new }
    ensures made { IfOk result (λ it. HasExpr u.new it.0 (numbers_compared_code (order_in (operator_kind op)) (rated_in u.old a) (rated_in u.old b))) }
{
    match settled(u, op, a.code, b.code) {
        Some(met) => truth(u, met),
        None => operands_compared(alloc, u, op, a, b),
    }
}

// Two numbers, of which C converts the one of the narrower type.
fn operands_compared(
    alloc: Global,
    u: &mut Unit,
    op: Op,
    a: Rated,
    b: Rated,
) -> Result<CExprId, NoMemory>
    requires ordering { IsTrue (is_ordering (operator_kind op)) }
    requires left { a.code.0 < length u.old.exprs }
    requires right { b.code.0 < length u.old.exprs }
    ensures grows { Grows u.old u.new }
    ensures made { IfOk result (λ it. HasExpr u.new it.0 (compared_code (order_in (operator_kind op)) (left_compared_code (rated_in u.old a) (rated_in u.old b)).code (right_compared_code (rated_in u.old b) (rated_in u.old a)).code)) }
{
    let left = left_compared(alloc, u, a, b)?;
    let right = right_compared(alloc, u, b, a)?;
    compared(alloc, u, op, left.code, right.code)
}

// What a comparison with 0 comes to: no number is below 0.
fn settled(u: &Unit, op: Op, a: CExprId, b: CExprId) -> Option<bool>
    requires ordering { IsTrue (is_ordering (operator_kind op)) }
    requires left { a.0 < length u.now.exprs }
    requires right { b.0 < length u.now.exprs }
    ensures { result ≡ settled_code (order_in (operator_kind op)) (expr_of u.now a.0) (expr_of u.now b.0) }
{
    match op {
        Op::Less => known_if(is_literal_zero(u, b), false),
        Op::LessOrSame => known_if(is_literal_zero(u, a), true),
        Op::GreaterOrSame => known_if(is_literal_zero(u, b), true),
        Op::Greater => known_if(is_literal_zero(u, a), false),
        Op::Same => None,
        Op::Differs => None,
        _ => unreachable!(),
    }
}

fn known_if(is: bool, met: bool) -> Option<bool>
    ensures { result ≡ known_if_code is met }
{
    if is { Some(met) } else { None }
}

// Whether an expression is the literal 0.
fn is_literal_zero(u: &Unit, e: CExprId) -> bool
    requires { e.0 < length u.now.exprs }
    ensures { result ≡ is_literal_zero_tree (expr_of u.now e.0) }
{
    match u.expr(e) {
        CExpr::Number(CNumber::Int(n)) => *n == 0,
        _ => false,
    }
}

fn compared(
    alloc: Global,
    u: &mut Unit,
    op: Op,
    a: CExprId,
    b: CExprId,
) -> Result<CExprId, NoMemory>
    requires ordering { IsTrue (is_ordering (operator_kind op)) }
    requires left { a.0 < length u.old.exprs }
    requires right { b.0 < length u.old.exprs }
    ensures grows { Grows u.old u.new }
    ensures made { IfOk result (λ it. HasExpr u.new it.0 (compared_code (order_in (operator_kind op)) (expr_of u.old a.0) (expr_of u.old b.0))) }
{
    if asks_same(op) && !is_literal(u, a) {
        let fixed = is_literal(u, b);
        same(alloc, u, a, b, fixed)
    } else {
        two(alloc, u, op_of(op), a, b)
    }
}

fn asks_same(op: Op) -> bool
    requires { IsTrue (is_ordering (operator_kind op)) }
    ensures { result ≡ is_equal (order_in (operator_kind op)) }
{
    match op {
        Op::Same => true,
        Op::Differs => false,
        Op::Less => false,
        Op::LessOrSame => false,
        Op::Greater => false,
        Op::GreaterOrSame => false,
        _ => unreachable!(),
    }
}

// `==` of what is no constant with what is one, where that is `fixed`.
fn same(
    alloc: Global,
    u: &mut Unit,
    a: CExprId,
    b: CExprId,
    fixed: bool,
) -> Result<CExprId, NoMemory>
    requires left { a.0 < length u.old.exprs }
    requires right { b.0 < length u.old.exprs }
    ensures grows { Grows u.old u.new }
    ensures made { IfOk result (λ it. HasExpr u.new it.0 (same_code (expr_of u.old a.0) (expr_of u.old b.0) fixed)) }
{
    if fixed {
        two(alloc, u, COp::Eq, b, a)
    } else if is_held(u, a) {
        not_different(alloc, u, a, b)
    } else {
        two(alloc, u, COp::Eq, a, b)
    }
}

fn not_different(alloc: Global, u: &mut Unit, a: CExprId, b: CExprId) -> Result<CExprId, NoMemory>
    requires left { a.0 < length u.old.exprs }
    requires right { b.0 < length u.old.exprs }
    ensures grows { Grows u.old u.new }
    ensures made { IfOk result (λ it. HasExpr u.new it.0 (c.unary Not (two_trees Ne (expr_of u.old a.0) (expr_of u.old b.0)))) }
{
    let differs = two(alloc, u, COp::Ne, a, b)?;
    negated(u, differs)
}

fn statuses_compared(
    scope: &BodyNames,
    u: &mut Unit,
    op: Op,
    a: ExprId,
    b: ExprId,
) -> Result<CExprId, NoMemory>
    requires ordering { IsTrue (is_ordering (operator_kind op)) }
    requires left { IsTrue (is_status_at scope.now.nodes a) }
    requires right { IsTrue (is_status_at scope.now.nodes b) }
    ensures grows { Grows u.old u.new }
    ensures made { IfOk result (λ it. HasExpr u.new it.0 (statuses_compared_code (is_equal (order_in (operator_kind op))) scope.now.names (node_status scope.now.nodes a) (node_status scope.now.nodes b))) }
{
    let t = scope.typed();
    if is_constant(t, a) && is_constant(t, b) {
        constants_compared(u, op, constant_number(t, a), constant_number(t, b))
    } else {
        variables_compared(scope, u, op, a, b)
    }
}

// Two statuses of which one at least is no constant. A variable is one with itself.
fn variables_compared(
    scope: &BodyNames,
    u: &mut Unit,
    op: Op,
    a: ExprId,
    b: ExprId,
) -> Result<CExprId, NoMemory>
    requires ordering { IsTrue (is_ordering (operator_kind op)) }
    requires left { IsTrue (is_status_at scope.now.nodes a) }
    requires right { IsTrue (is_status_at scope.now.nodes b) }
    ensures grows { Grows u.old u.new }
    ensures made { IfOk result (λ it. HasExpr u.new it.0 (variables_compared_code (is_equal (order_in (operator_kind op))) scope.now.names (node_status scope.now.nodes a) (node_status scope.now.nodes b))) }
{
    if same_status(scope.typed(), a, b) {
        truth(u, asks_same(op))
    } else {
        held_compared(scope, u, op, a, b)
    }
}

fn same_status(t: &Typed, a: ExprId, b: ExprId) -> bool
    requires left { IsTrue (is_status_at t.now a) }
    requires right { IsTrue (is_status_at t.now b) }
    ensures { result ≡ same_state (node_status t.now a) (node_status t.now b) }
{
    look_at(t, a);
    look_at(t, b);
    are_same(t, a, b)
}

// The tree of an expression is of the kind of its type.
fn look_at(t: &Typed, e: ExprId)
    requires { IsTrue (is_expr t.now e) }
    ensures { IsTrue (is_tree_of (type_of_node t.now e.0) (tree_of t.now e)) }
{
    let _expr = t.expr(e);
}

// Of two constants it is known whether they are one.
fn constants_compared(u: &mut Unit, op: Op, n: u32, k: u32) -> Result<CExprId, NoMemory>
    requires { IsTrue (is_ordering (operator_kind op)) }
    ensures grows { Grows u.old u.new }
    ensures made { IfOk result (λ it. HasExpr u.new it.0 (constants_compared_code (is_equal (order_in (operator_kind op))) n k)) }
{
    if asks_same(op) {
        truth(u, n == k)
    } else {
        truth(u, n != k)
    }
}

// Two statuses of which one at least is no constant, and that aren't one variable.
fn held_compared(
    scope: &BodyNames,
    u: &mut Unit,
    op: Op,
    a: ExprId,
    b: ExprId,
) -> Result<CExprId, NoMemory>
    requires ordering { IsTrue (is_ordering (operator_kind op)) }
    requires left { IsTrue (is_status_at scope.now.nodes a) }
    requires right { IsTrue (is_status_at scope.now.nodes b) }
    ensures grows { Grows u.old u.new }
    ensures made { IfOk result (λ it. HasExpr u.new it.0 (held_compared_code (is_equal (order_in (operator_kind op))) scope.now.names (node_status scope.now.nodes a) (node_status scope.now.nodes b))) }
{
    let left = status(scope, u, a)?;
    let right = status(scope, u, b)?;
    if !asks_same(op) {
        two(scope.alloc(), u, COp::Ne, left, right)
    } else if is_constant(scope.typed(), a) {
        two(scope.alloc(), u, COp::Eq, left, right)
    } else {
        let fixed = is_constant(scope.typed(), b);
        same(scope.alloc(), u, left, right, fixed)
    }
}

// What a base method answers.
#[tactic(auto, unfolding(c_text::specs::CSpelling::is_reserved))]
fn answer(
    scope: &BodyNames,
    u: &mut Unit,
    e: ExprId,
    on: ExprId,
    sig: BaseSig,
) -> Result<CExprId, NoMemory>
    requires tree { tree_of scope.now.nodes e ≡ answer_of (place_of_node scope.now.nodes e.0) sig (tree_of scope.now.nodes on) }
    requires kind { IsTrue (has_kind (row_of sig).on (type_of_node scope.now.nodes on.0)) }
    requires truth { IsTrue (answers_truth sig) }
    requires on { IsTrue (is_expr scope.now.nodes on) }
    ensures grows { Grows u.old u.new }
    ensures made { IfOk result (λ it. HasExpr u.new it.0 (lowered_cond scope.now.names (node_cond scope.now.nodes e))) }
{
    match sig {
        BaseSig::ReaderIsClosed => {
            scope.buffer_member(u, io_arg(scope.typed(), on).0, b"closed")
        }
        BaseSig::IsOk => is_of(scope, u, on, Category::Fine),
        BaseSig::IsNote => is_of(scope, u, on, Category::Note),
        BaseSig::IsSuspension => is_of(scope, u, on, Category::Suspension),
        BaseSig::IsError => is_of(scope, u, on, Category::Fault),
        BaseSig::SliceLength(_) | BaseSig::ArrayLength(_) | BaseSig::Peek(_) => unreachable!(),
        BaseSig::ReaderLength | BaseSig::ReaderPosition | BaseSig::Read(_) => unreachable!(),
        BaseSig::WriterLength | BaseSig::WriterPosition | BaseSig::Skip => unreachable!(),
        BaseSig::SkipFast | BaseSig::Write | BaseSig::WriteFast => unreachable!(),
        BaseSig::WriterCopy | BaseSig::SliceCopy(_) => unreachable!(),
    }
}

fn is_of(
    scope: &BodyNames,
    u: &mut Unit,
    on: ExprId,
    category: Category,
) -> Result<CExprId, NoMemory>
    requires { IsTrue (is_status_at scope.now.nodes on) }
    ensures grows { Grows u.old u.new }
    ensures made { IfOk result (λ it. HasExpr u.new it.0 (category_code category (lowered_status scope.now.names (node_status scope.now.nodes on)))) }
{
    let it = status(scope, u, on)?;
    is_of_category(scope.alloc(), u, category, it)
}
