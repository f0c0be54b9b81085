// What goes to a target.

ghost use Rattle.std.specs.Prelude.{◌≡◌, ◌<◌, true, length, IsTrue, IfOk};
ghost use Rattle.wf_ast.specs.TypedInvariant.{is_expr, is_optional_expr};
ghost use Rattle.wf_text.specs.declared.place.Place.{Place};
ghost use Rattle.wf_ast.specs.declared.typed_nodes.TypedNodes.{TypedNodes};
ghost use Rattle.wf_ast.specs.TypedTrees.{named, optional_target, target_of as target_tree, tree_of, type_of_node};
ghost use Rattle.wf_ast.specs.NodeKinds.{is_number_at, is_slice_at, node_number, node_slice};
ghost use Rattle.c_text.specs.CFits.{HasTarget};
ghost use Rattle.c_text.specs.CNodes.{code_of, expr_of};
ghost use Rattle.c_text.specs.CTree as c;
ghost use Rattle.wf_exprs.specs.Exprs.{lowered_expr, lowered_slice};
ghost use Rattle.wf_exprs.specs.Grown.{Grows, HasCode, HasExpr};
ghost use Rattle.wf_exprs.specs.Making.{HasPairAt, pair_in};
ghost use Rattle.wf_exprs.specs.Names.{local_length, local_pointer};
ghost use Rattle.wf_exprs.specs.Scopes.{path_of};
ghost use Rattle.wf_exprs_nodes.specs.Trees.{is_single, lowered_value};
ghost use Rattle.wf_lower_stmts.specs.declared.targets.Target.TheVariants as targets;
ghost use Rattle.wf_lower_stmts.specs.BodyNodes.{AreAlike, form_in, is_target, set_local, target_in};
ghost use Rattle.wf_lower_stmts.specs.Forms.{size_local};
ghost use Rattle.wf_lower_stmts.specs.Statements.{is_same_variable as is_same_variable_tree, is_wanted as is_wanted_target, put_into as put_into_code, set_place as set_place_code, set_slice as set_slice_code, set_value as set_value_code};

use crate::body::Body;
use crate::code::assign;
use crate::walks::type_at;
use c_text::{CExpr, CExprId, CStmtId, Unit};
use wf_ast::{Expr, ExprId, Ty};
use wf_exprs::nodes::{element, variable};
use wf_exprs::{Pair, Path};
use wf_exprs_nodes::{lower_expr, lower_slice, number};
use wf_text::NoMemory;

/// What is written to.
#[derive(Clone, Copy)]
pub enum Target {
    /// A variable that takes a single value.
    Variable(Path),
    /// An element of an array or a slice.
    Element { base: ExprId, at: ExprId },
    /// A variable that takes a slice.
    Slice(Path),
    /// Nothing.
    Nothing,
}

/// The target that a variable of this type is.
fn variable_target(ty: Ty, path: Path) -> Target
    ensures is { (nodes : TypedNodes) (at : Place) → AreAlike (target_tree (named at ty (path_of path))) (target_in nodes result) }
    ensures there { (nodes : TypedNodes) → is_target nodes result ≡ true }
{
    match ty {
        Ty::Num { .. } | Ty::Flag | Ty::Status => Target::Variable(path),
        Ty::Slice(_) => Target::Slice(path),
        Ty::Reader | Ty::Writer | Ty::Array { .. } | Ty::Part(_) => Target::Nothing,
    }
}

/// The target that an expression is.
pub(crate) fn target_at(b: &Body, e: ExprId) -> Target
    requires node { IsTrue (is_expr b.now.nodes e) }
    ensures is { AreAlike (target_tree (tree_of b.now.nodes e)) (target_in b.now.nodes result) }
    ensures there { is_target b.now.nodes result ≡ true }
{
    let t = b.typed();
    let expr = t.expr(e);
    match t.constant(e) {
        Some(_) => Target::Nothing,
        None => match expr {
            Expr::Local(x) => variable_target(t.type_of(e), Path::Local(x.0)),
            Expr::Field(x) => variable_target(t.type_of(e), Path::Field(x.0)),
            Expr::Arg(x) => variable_target(t.type_of(e), Path::Arg(x.0)),
            Expr::Index { base, at } => Target::Element {
                base: *base,
                at: *at,
            },
            Expr::Number(_) | Expr::Const(_) | Expr::Status(_) | Expr::Truth(_) => Target::Nothing,
            Expr::Cut { .. } | Expr::Convert { .. } | Expr::Not(_) => Target::Nothing,
            Expr::Chain { .. } => Target::Nothing,
            Expr::Base { .. } => Target::Nothing,
        },
    }
}

/// The target that may be given.
pub fn target_of(b: &Body, target: Option<ExprId>) -> Target
    requires { IsTrue (is_optional_expr b.now.nodes target) }
    ensures is { AreAlike (optional_target (tree_of b.now.nodes) target) (target_in b.now.nodes result) }
    ensures there { is_target b.now.nodes result ≡ true }
{
    match target {
        Some(e) => target_at(b, e),
        None => Target::Nothing,
    }
}

/// Whether there is a target.
pub fn is_wanted(target: Target) -> bool
    ensures { (nodes : TypedNodes) → result ≡ is_wanted_target (target_in nodes target) }
{
    match target {
        Target::Nothing => false,
        Target::Variable(_) => true,
        Target::Element { .. } => true,
        Target::Slice(_) => true,
    }
}

/// A number.
pub fn lower_number(b: &Body, u: &mut Unit, e: ExprId) -> Result<CExprId, NoMemory>
    requires { IsTrue (is_number_at b.now.nodes e) }
    ensures grows { Grows u.old u.new }
    ensures made { IfOk result (λ it. HasExpr u.new it.0 (lowered_expr (form_in b.now).names (node_number b.now.nodes e))) }
{
    let a = number(b.scope(), u, e)?;
    Ok(a.code)
}

/// An element as what is assigned to.
fn element_of(b: &Body, u: &mut Unit, base: ExprId, at: ExprId) -> Result<CExprId, NoMemory>
    requires base { IsTrue (is_slice_at b.now.nodes base) }
    requires at { IsTrue (is_number_at b.now.nodes at) }
    ensures grows { Grows u.old u.new }
    ensures made { IfOk result (λ it. HasExpr u.new it.0 (c.element (lowered_slice (form_in b.now).names (node_slice b.now.nodes base)).pointer (lowered_expr (form_in b.now).names (node_number b.now.nodes at)))) }
{
    let cells = lower_slice(b.scope(), u, base)?;
    let at = lower_number(b, u, at)?;
    element(u, cells.pointer, at)
}

// Whether both are one variable of C.
fn is_same_variable(u: &Unit, e: CExprId, other: CExprId) -> bool
    requires one { e.0 < length u.now.exprs }
    requires other { other.0 < length u.now.exprs }
    ensures { result ≡ is_same_variable_tree (expr_of u.now e.0) (expr_of u.now other.0) }
{
    match (u.expr(e), u.expr(other)) {
        (CExpr::Name(n), CExpr::Name(k)) => u.same_name(*n, *k),
        _ => false,
    }
}

/// `place = value;`, or nothing where both are one variable: compilers remark on it.
fn set_place(
    u: &mut Unit,
    place: CExprId,
    value: CExprId,
    rest: CStmtId,
) -> Result<CStmtId, NoMemory>
    requires place { HasTarget u.old (length u.old.exprs) place }
    requires value { value.0 < length u.old.exprs }
    requires rest { rest.0 < length u.old.stmts }
    ensures grows { Grows u.old u.new }
    ensures made { IfOk result (λ it. HasCode u.new it.0 (set_place_code (expr_of u.old place.0) (expr_of u.old value.0) (code_of u.old rest.0))) }
{
    if is_same_variable(u, place, value) {
        Ok(rest)
    } else {
        assign(u, place, value, rest)
    }
}

/// `target = value;`, where the target takes a single value. Nothing stands for a variable that is set to itself.
pub fn put_into(
    b: &Body,
    u: &mut Unit,
    target: Target,
    value: CExprId,
    rest: CStmtId,
) -> Result<CStmtId, NoMemory>
    requires target { is_target b.now.nodes target ≡ true }
    requires value { value.0 < length u.old.exprs }
    requires rest { rest.0 < length u.old.stmts }
    ensures grows { Grows u.old u.new }
    ensures made { IfOk result (λ it. HasCode u.new it.0 (put_into_code (form_in b.now).names (target_in b.now.nodes target) (expr_of u.old value.0) (code_of u.old rest.0))) }
{
    match target {
        Target::Variable(path) => {
            let there = b.scope().path(u, path)?;
            set_place(u, there, value, rest)
        }
        Target::Element { base, at } => {
            let there = element_of(b, u, base, at)?;
            set_place(u, there, value, rest)
        }
        Target::Slice(_) => Ok(rest),
        Target::Nothing => Ok(rest),
    }
}

/// `size = count;`
#[tactic(auto, unfolding(c_text::specs::CSpelling::is_reserved))]
pub fn set_size(u: &mut Unit, count: CExprId, rest: CStmtId) -> Result<CStmtId, NoMemory>
    requires count { count.0 < length u.old.exprs }
    requires rest { rest.0 < length u.old.stmts }
    ensures grows { Grows u.old u.new }
    ensures made { IfOk result (λ it. HasCode u.new it.0 (c.assign size_local (expr_of u.old count.0) (code_of u.old rest.0))) }
{
    let size = variable(u, b"size")?;
    assign(u, size, count, rest)
}

/// `vl_t = size;`
#[tactic(auto, unfolding(c_text::specs::CSpelling::is_reserved))]
fn set_length(b: &Body, u: &mut Unit, n: u32, rest: CStmtId) -> Result<CStmtId, NoMemory>
    requires rest { rest.0 < length u.old.stmts }
    ensures grows { Grows u.old u.new }
    ensures made { IfOk result (λ it. HasCode u.new it.0 (c.assign (c.variable (local_length (form_in b.now).names n)) size_local (code_of u.old rest.0))) }
{
    let size = variable(u, b"size")?;
    let there = b.scope().local_length(u, n)?;
    assign(u, there, size, rest)
}

/// `vp_t = pointer;`, where that is another pointer.
fn set_pointer(
    b: &Body,
    u: &mut Unit,
    n: u32,
    pointer: CExprId,
    rest: CStmtId,
) -> Result<CStmtId, NoMemory>
    requires pointer { pointer.0 < length u.old.exprs }
    requires rest { rest.0 < length u.old.stmts }
    ensures grows { Grows u.old u.new }
    ensures made { IfOk result (λ it. HasCode u.new it.0 (set_place_code (c.variable (local_pointer (form_in b.now).names n)) (expr_of u.old pointer.0) (code_of u.old rest.0))) }
{
    let there = b.scope().local_pointer(u, n)?;
    set_place(u, there, pointer, rest)
}

/// A slice goes to a local. Its length is put aside first, since the new pointer may ask for the old length.
fn set_local_slice(
    b: &Body,
    u: &mut Unit,
    n: u32,
    it: Pair,
    rest: CStmtId,
) -> Result<CStmtId, NoMemory>
    requires pair { HasPairAt u.old it }
    requires rest { rest.0 < length u.old.stmts }
    ensures grows { Grows u.old u.new }
    ensures made { IfOk result (λ code. HasCode u.new code.0 (set_local (form_in b.now).names n (pair_in u.old it) (code_of u.old rest.0))) }
{
    let rest = set_length(b, u, n, rest)?;
    let rest = set_pointer(b, u, n, it.pointer, rest)?;
    set_size(u, it.length.code, rest)
}

fn set_slice_at(
    b: &Body,
    u: &mut Unit,
    path: Path,
    value: ExprId,
    rest: CStmtId,
) -> Result<CStmtId, NoMemory>
    requires value { IsTrue (is_slice_at b.now.nodes value) }
    requires rest { rest.0 < length u.old.stmts }
    ensures grows { Grows u.old u.new }
    ensures made { IfOk result (λ it. HasCode u.new it.0 (set_slice_code (form_in b.now).names (target_in b.now.nodes (targets.Slice path)) (lowered_slice (form_in b.now).names (node_slice b.now.nodes value)) (code_of u.old rest.0))) }
{
    match path {
        Path::Local(n) => {
            let it = lower_slice(b.scope(), u, value)?;
            set_local_slice(b, u, n, it, rest)
        }
        Path::Field(_) => Ok(rest),
        Path::Arg(_) => Ok(rest),
    }
}

fn set_slice(
    b: &Body,
    u: &mut Unit,
    target: Target,
    value: ExprId,
    rest: CStmtId,
) -> Result<CStmtId, NoMemory>
    requires value { IsTrue (is_slice_at b.now.nodes value) }
    requires rest { rest.0 < length u.old.stmts }
    ensures grows { Grows u.old u.new }
    ensures made { IfOk result (λ it. HasCode u.new it.0 (set_slice_code (form_in b.now).names (target_in b.now.nodes target) (lowered_slice (form_in b.now).names (node_slice b.now.nodes value)) (code_of u.old rest.0))) }
{
    match target {
        Target::Slice(path) => set_slice_at(b, u, path, value, rest),
        Target::Variable(_) => Ok(rest),
        Target::Element { .. } => Ok(rest),
        Target::Nothing => Ok(rest),
    }
}

// A number, a truth value or a status goes to a target.
fn put_lowered(
    b: &Body,
    u: &mut Unit,
    target: Target,
    value: ExprId,
    rest: CStmtId,
) -> Result<CStmtId, NoMemory>
    requires target { is_target b.now.nodes target ≡ true }
    requires value { IsTrue (is_expr b.now.nodes value) }
    requires single { IsTrue (is_single (type_of_node b.now.nodes value.0)) }
    requires rest { rest.0 < length u.old.stmts }
    ensures grows { Grows u.old u.new }
    ensures made { IfOk result (λ it. HasCode u.new it.0 (put_into_code (form_in b.now).names (target_in b.now.nodes target) (lowered_value (form_in b.now).names (tree_of b.now.nodes value)) (code_of u.old rest.0))) }
{
    let single = lower_expr(b.scope(), u, value)?;
    put_into(b, u, target, single, rest)
}

/// A value of any kind goes to a target.
fn set_any(
    b: &Body,
    u: &mut Unit,
    target: Target,
    value: ExprId,
    rest: CStmtId,
) -> Result<CStmtId, NoMemory>
    requires target { is_target b.now.nodes target ≡ true }
    requires value { IsTrue (is_expr b.now.nodes value) }
    requires rest { rest.0 < length u.old.stmts }
    ensures grows { Grows u.old u.new }
    ensures made { IfOk result (λ it. HasCode u.new it.0 (set_value_code (form_in b.now).names (target_in b.now.nodes target) (tree_of b.now.nodes value) (code_of u.old rest.0))) }
{
    match type_at(b.typed(), value) {
        Ty::Num { .. } => put_lowered(b, u, target, value, rest),
        Ty::Flag => put_lowered(b, u, target, value, rest),
        Ty::Status => put_lowered(b, u, target, value, rest),
        Ty::Slice(_) => set_slice(b, u, target, value, rest),
        Ty::Array { .. } => set_slice(b, u, target, value, rest),
        Ty::Reader => Ok(rest),
        Ty::Writer => Ok(rest),
        Ty::Part(_) => Ok(rest),
    }
}

/// `target = value;` for a value of any kind.
pub fn set_value(
    b: &Body,
    u: &mut Unit,
    target: ExprId,
    value: ExprId,
    rest: CStmtId,
) -> Result<CStmtId, NoMemory>
    requires target { IsTrue (is_expr b.now.nodes target) }
    requires value { IsTrue (is_expr b.now.nodes value) }
    requires rest { rest.0 < length u.old.stmts }
    ensures grows { Grows u.old u.new }
    ensures made { IfOk result (λ it. HasCode u.new it.0 (set_value_code (form_in b.now).names (target_tree (tree_of b.now.nodes target)) (tree_of b.now.nodes value) (code_of u.old rest.0))) }
{
    set_any(b, u, target_at(b, target), value, rest)
}
