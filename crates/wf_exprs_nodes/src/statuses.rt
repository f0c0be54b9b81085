// Statuses: a constant's text, or what stands in a variable.

ghost use Rattle.std.specs.Prelude.{◌≡◌, ◌<◌, true, false, length, IsTrue, IfOk};
ghost use Rattle.wf_ast.specs.TypedTrees.{place_of_node, type_of_node, tree_of, named};
ghost use Rattle.wf_ast.specs.NodeKinds.{is_status_at, node_status};
ghost use Rattle.c_text.specs.CGrammar.{is_literal as is_literal_tree};
ghost use Rattle.c_text.specs.CNodes.{expr_of};
ghost use Rattle.c_text.specs.CTree as c;
ghost use Rattle.c_text.specs.declared.kinds.COp.TheVariants.{Eq};
ghost use Rattle.wf_exprs.specs.Exprs.{begins_with as begins_with_code, category_code, constant_number as number_of_constant, is_constant as is_constant_tree, lowered_status, status_constant as constant_code};
ghost use Rattle.wf_exprs.specs.Grown.{Grows, HasExpr};
ghost use Rattle.wf_exprs.specs.Scopes.{path_of};
ghost use Rattle.wf_exprs.specs.Words.{num, two as two_trees};

use c_text::{CExpr, CExprId, COp, Unit};
use std::alloc::Global;
use wf_ast::{Expr, ExprId, Typed};
use wf_exprs::names::put_numbered;
use wf_exprs::nodes::{element, is_literal, number, put, two};
use wf_exprs::{BodyNames, Path};
use wf_text::{Category, NoMemory};

/// The status with this number: ok is null, every other one its text.
pub fn status_constant(u: &mut Unit, n: u32) -> Result<CExprId, NoMemory>
    ensures grows { Grows u.old u.new }
    ensures made { IfOk result (λ it. HasExpr u.new it.0 (constant_code n)) }
{
    if n == 0 {
        return number(u, 0);
    }
    let name = put_numbered(u, b"status_", n as u64)?;
    put(u, CExpr::Name(name))
}

/// A status.
pub fn status(scope: &BodyNames, u: &mut Unit, e: ExprId) -> Result<CExprId, NoMemory>
    requires { IsTrue (is_status_at scope.now.nodes e) }
    ensures grows { Grows u.old u.new }
    ensures made { IfOk result (λ it. HasExpr u.new it.0 (lowered_status scope.now.names (node_status scope.now.nodes e))) }
{
    let t = scope.typed();
    let expr = t.expr(e);
    match t.constant(e) {
        Some(_) => unreachable!(),
        None => match expr {
            Expr::Status(s) => status_constant(u, s.0),
            Expr::Local(x) => held_status(scope, u, e, Path::Local(x.0)),
            Expr::Field(x) => held_status(scope, u, e, Path::Field(x.0)),
            Expr::Arg(_) => unreachable!(),
            Expr::Number(_) | Expr::Const(_) | Expr::Truth(_) => unreachable!(),
            Expr::Chain { .. } => unreachable!(),
            Expr::Index { .. } | Expr::Cut { .. } => unreachable!(),
            Expr::Convert { .. } | Expr::Not(_) => unreachable!(),
            Expr::Base { .. } => unreachable!(),
        },
    }
}

// The status in a variable.
fn held_status(scope: &BodyNames, u: &mut Unit, e: ExprId, path: Path) -> Result<CExprId, NoMemory>
    requires node { IsTrue (is_status_at scope.now.nodes e) }
    requires tree { tree_of scope.now.nodes e ≡ named (place_of_node scope.now.nodes e.0) (type_of_node scope.now.nodes e.0) (path_of path) }
    ensures grows { Grows u.old u.new }
    ensures made { IfOk result (λ it. HasExpr u.new it.0 (lowered_status scope.now.names (node_status scope.now.nodes e))) }
{
    scope.path(u, path)
}

/// Whether a status is a constant.
pub(crate) fn is_constant(t: &Typed, e: ExprId) -> bool
    requires { IsTrue (is_status_at t.now e) }
    ensures { result ≡ is_constant_tree (node_status t.now e) }
{
    let expr = t.expr(e);
    match t.constant(e) {
        Some(_) => unreachable!(),
        None => match expr {
            Expr::Status(_) => true,
            Expr::Local(_) | Expr::Field(_) => false,
            Expr::Arg(_) => unreachable!(),
            Expr::Number(_) | Expr::Const(_) | Expr::Truth(_) => unreachable!(),
            Expr::Chain { .. } => unreachable!(),
            Expr::Index { .. } | Expr::Cut { .. } => unreachable!(),
            Expr::Convert { .. } | Expr::Not(_) | Expr::Base { .. } => unreachable!(),
        },
    }
}

/// The number of a status that is a constant. Zero for a variable.
pub(crate) fn constant_number(t: &Typed, e: ExprId) -> u32
    requires { IsTrue (is_status_at t.now e) }
    ensures { result ≡ number_of_constant (node_status t.now e) }
{
    let expr = t.expr(e);
    match t.constant(e) {
        Some(_) => unreachable!(),
        None => match expr {
            Expr::Status(s) => s.0,
            Expr::Local(_) | Expr::Field(_) => 0,
            Expr::Arg(_) => unreachable!(),
            Expr::Number(_) | Expr::Const(_) | Expr::Truth(_) => unreachable!(),
            Expr::Chain { .. } => unreachable!(),
            Expr::Index { .. } | Expr::Cut { .. } => unreachable!(),
            Expr::Convert { .. } | Expr::Not(_) | Expr::Base { .. } => unreachable!(),
        },
    }
}

/// A status isn't ok, and its text begins with a byte. The constant ok has no text.
pub fn begins_with(alloc: Global, u: &mut Unit, byte: u8, e: CExprId) -> Result<CExprId, NoMemory>
    requires { e.0 < length u.old.exprs }
    ensures grows { Grows u.old u.new }
    ensures made { IfOk result (λ it. HasExpr u.new it.0 (begins_with_code byte (expr_of u.old e.0))) }
{
    if is_literal(u, e) {
        number(u, 0)
    } else {
        text_begins_with(alloc, u, byte, e)
    }
}

fn text_begins_with(alloc: Global, u: &mut Unit, byte: u8, e: CExprId) -> Result<CExprId, NoMemory>
    requires there { e.0 < length u.old.exprs }
    requires text { is_literal_tree (expr_of u.old e.0) ≡ false }
    ensures grows { Grows u.old u.new }
    ensures made { IfOk result (λ it. HasExpr u.new it.0 (begins_with_code byte (expr_of u.old e.0))) }
{
    let first = first_byte(u, e)?;
    let byte = number(u, byte as u64)?;
    let same = two(alloc, u, COp::Eq, byte, first)?;
    two(alloc, u, COp::Both, e, same)
}

// The first byte of a text.
fn first_byte(u: &mut Unit, e: CExprId) -> Result<CExprId, NoMemory>
    requires there { e.0 < length u.old.exprs }
    requires text { is_literal_tree (expr_of u.old e.0) ≡ false }
    ensures grows { Grows u.old u.new }
    ensures made { IfOk result (λ it. HasExpr u.new it.0 (c.element (expr_of u.old e.0) (num 0))) }
{
    let at = number(u, 0)?;
    element(u, e, at)
}

/// Whether a status is of a kind, by the first byte of its text.
pub(crate) fn is_of_category(
    alloc: Global,
    u: &mut Unit,
    category: Category,
    e: CExprId,
) -> Result<CExprId, NoMemory>
    requires { e.0 < length u.old.exprs }
    ensures grows { Grows u.old u.new }
    ensures made { IfOk result (λ it. HasExpr u.new it.0 (category_code category (expr_of u.old e.0))) }
{
    match category {
        Category::Fine => is_ok(alloc, u, e),
        Category::Note => begins_with(alloc, u, b'@', e),
        Category::Suspension => begins_with(alloc, u, b'$', e),
        Category::Fault => begins_with(alloc, u, b'#', e),
    }
}

fn is_ok(alloc: Global, u: &mut Unit, e: CExprId) -> Result<CExprId, NoMemory>
    requires { e.0 < length u.old.exprs }
    ensures grows { Grows u.old u.new }
    ensures made { IfOk result (λ it. HasExpr u.new it.0 (two_trees Eq (num 0) (expr_of u.old e.0))) }
{
    let null = number(u, 0)?;
    two(alloc, u, COp::Eq, null, e)
}
