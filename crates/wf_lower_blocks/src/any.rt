// What expressions of any kind are in C, where a number, a condition or a slice is wanted. What has another kind, which no typed
// package has there, stands as the tree that the definition has for it.

ghost use Rattle.std.specs.Prelude.{◌≡◌, IsTrue, IfOk};
ghost use Rattle.wf_ast.specs.TypedInvariant.{is_expr};
ghost use Rattle.wf_exprs.specs.Exprs.{given as given_code, lowered_cond, lowered_expr, lowered_slice, path_code};
ghost use Rattle.wf_ast.specs.TypedTree.{local};
ghost use Rattle.wf_ast.specs.NodeKinds.{is_condition_at, is_number_at, is_slice_at, node_cond, node_number, node_slice};
ghost use Rattle.wf_exprs.specs.Grown.{Grows, HasExpr};
ghost use Rattle.wf_exprs.specs.Making.{HasPair};
ghost use Rattle.wf_exprs.specs.Words.{num, two as two_codes};
ghost use Rattle.c_text.specs.declared.kinds.COp.TheVariants.{Add, Eq};
ghost use Rattle.wf_lower_stmts.specs.BodyNodes.{form_in};

use c_text::{CExprId, COp, Unit};
use wf_ast::{ExprId, Ty, Typed};
use wf_exprs::nodes::{number, two};
use wf_exprs::{Pair, Path};
use wf_exprs_nodes::numbers::path_pair;
use wf_exprs_nodes::{condition, given, lower_slice};
use wf_lower_stmts::Body;
use wf_lower_stmts::targets::lower_number;
use wf_text::NoMemory;

fn is_number(t: &Typed, e: ExprId) -> bool
    requires { IsTrue (is_expr t.now e) }
    ensures { result ≡ is_number_at t.now e }
{
    match t.type_of(e) {
        Ty::Num { .. } => true,
        Ty::Flag | Ty::Status | Ty::Reader | Ty::Writer => false,
        Ty::Slice(_) | Ty::Array { .. } | Ty::Part(_) => false,
    }
}

fn is_condition(t: &Typed, e: ExprId) -> bool
    requires { IsTrue (is_expr t.now e) }
    ensures { result ≡ is_condition_at t.now e }
{
    match t.type_of(e) {
        Ty::Flag => true,
        Ty::Num { .. } | Ty::Status | Ty::Reader | Ty::Writer => false,
        Ty::Slice(_) | Ty::Array { .. } | Ty::Part(_) => false,
    }
}

fn is_slice(t: &Typed, e: ExprId) -> bool
    requires { IsTrue (is_expr t.now e) }
    ensures { result ≡ is_slice_at t.now e }
{
    match t.type_of(e) {
        Ty::Slice(_) => true,
        Ty::Array { .. } => true,
        Ty::Num { .. } | Ty::Flag | Ty::Status => false,
        Ty::Reader | Ty::Writer | Ty::Part(_) => false,
    }
}

/// A number.
pub(crate) fn number_on(b: &Body, u: &mut Unit, e: ExprId) -> Result<CExprId, NoMemory>
    requires { IsTrue (is_expr b.now.nodes e) }
    ensures grows { Grows u.old u.new }
    ensures made { IfOk result (λ it. HasExpr u.new it.0 (lowered_expr (form_in b.now).names (node_number b.now.nodes e))) }
{
    if is_number(b.typed(), e) {
        lower_number(b, u, e)
    } else {
        b.scope().local(u, 0)
    }
}

/// A number that is assigned, passed or returned.
pub(crate) fn given_on(b: &Body, u: &mut Unit, e: ExprId) -> Result<CExprId, NoMemory>
    requires { IsTrue (is_expr b.now.nodes e) }
    ensures grows { Grows u.old u.new }
    ensures made { IfOk result (λ it. HasExpr u.new it.0 (given_code (form_in b.now).names (node_number b.now.nodes e))) }
{
    if is_number(b.typed(), e) {
        given(b.scope(), u, e)
    } else {
        b.scope().local(u, 0)
    }
}

/// A condition.
pub(crate) fn condition_on(b: &Body, u: &mut Unit, e: ExprId) -> Result<CExprId, NoMemory>
    requires { IsTrue (is_expr b.now.nodes e) }
    ensures grows { Grows u.old u.new }
    ensures made { IfOk result (λ it. HasExpr u.new it.0 (lowered_cond (form_in b.now).names (node_cond b.now.nodes e))) }
{
    if is_condition(b.typed(), e) {
        condition(b.scope(), u, e)
    } else {
        no_condition(b, u)
    }
}

// What stands for no condition: a variable compared with itself.
fn no_condition(b: &Body, u: &mut Unit) -> Result<CExprId, NoMemory>
    ensures grows { Grows u.old u.new }
    ensures made { IfOk result (λ it. HasExpr u.new it.0 (two_codes Eq (two_codes Add (path_code (form_in b.now).names (local 0)) (num 0)) (path_code (form_in b.now).names (local 0)))) }
{
    let variable = b.scope().local(u, 0)?;
    let none = number(u, 0)?;
    let left = two(b.alloc(), u, COp::Add, variable, none)?;
    two(b.alloc(), u, COp::Eq, left, variable)
}

/// A slice or a whole array.
pub(crate) fn slice_on(b: &Body, u: &mut Unit, e: ExprId) -> Result<Pair, NoMemory>
    requires { IsTrue (is_expr b.now.nodes e) }
    ensures grows { Grows u.old u.new }
    ensures made { IfOk result (λ it. HasPair u.new it (lowered_slice (form_in b.now).names (node_slice b.now.nodes e))) }
{
    if is_slice(b.typed(), e) {
        lower_slice(b.scope(), u, e)
    } else {
        path_pair(b.scope(), u, Path::Local(0))
    }
}
