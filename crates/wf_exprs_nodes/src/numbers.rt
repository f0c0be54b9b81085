// Numbers and slices. The recursion goes as deep as nodes stand inside one another; the operands of a chain stand side by side.

ghost use Rattle.std.specs.Prelude.{◌≡◌, ◌<◌, true, false, nat_lt, length, map, IsTrue, IfOk};
ghost use Rattle.std.specs.List.{list_all};
ghost use Rattle.wf_base.specs.BaseTable.{bits_of, row_of};
ghost use Rattle.wf_ast.specs.TypedTree.{field, cut as cut_tree, element as element_tree, convert};
ghost use Rattle.wf_ast.specs.TypedTrees.{answer_of, chain_of, end_in, first_sign, named, num_type, place_of_node, signs_of_node, operator_kind, tree_of, type_of_node};
ghost use Rattle.wf_ast.specs.TypedInvariant.{has_kind, is_expr};
ghost use Rattle.wf_ast.specs.NodeKinds.{is_number_at, is_slice_at, end_fits, node_number, node_slice};
ghost use Rattle.wf_ast.specs.OperatorForms.{is_arithmetic};
ghost use Rattle.wf_exprs.specs.Exprs.{bare, given as given_code, is_array, literal_type as type_of_literal, lowered, lowered_end, lowered_expr, lowered_slice, path_code, path_pair as pair_of_path, rated, taken as taken_code};
ghost use Rattle.wf_exprs.specs.Grown.{Grows, HasExpr};
ghost use Rattle.wf_exprs.specs.Making.{HasEnd, HasPair, HasRated};
ghost use Rattle.wf_exprs.specs.Scopes.{path_of};
ghost use Rattle.wf_exprs.specs.Words.{literal as literal_of, num};
ghost use Rattle.wf_num.specs.declared.c_arithmetic.CTy.TheVariants.{Int};
ghost use Rattle.wf_exprs_nodes.specs.Trees.{answers_number, repeats as repeats_sort};

use crate::asking::{bytes_left, peek, position};
use crate::chains::{link, number_operation, repeats};
use crate::parts::{Cells, part};
use c_text::{CExpr, CExprId, CList, Unit};
use wf_ast::{Expr, ExprId, Op, Ty, Typed, io_arg};
use wf_base::{BaseSig, Width};
use wf_exprs::nodes::{element, literal, put};
use wf_exprs::rated::{calculated, converted, literal_type, taken};
use wf_exprs::{BodyNames, Pair, Path, Rated};
use wf_num::CTy;
use wf_text::NoMemory;

/// A number, with the type that it has in C.
#[cycle(lowering)]
pub fn number(scope: &BodyNames, u: &mut Unit, e: ExprId) -> Result<Rated, NoMemory>
    requires { IsTrue (is_number_at scope.now.nodes e) }
    ensures grows { Grows u.old u.new }
    ensures made { IfOk result (λ a. HasRated u.new a (lowered scope.now.names (node_number scope.now.nodes e))) }
{
    let t = scope.typed();
    let expr = t.expr(e);
    match t.constant(e) {
        Some(n) => constant(u, n),
        None => match expr {
            Expr::Local(x) => held_number(scope, u, e, Path::Local(x.0)),
            Expr::Field(x) => held_number(scope, u, e, Path::Field(x.0)),
            Expr::Arg(x) => held_number(scope, u, e, Path::Arg(x.0)),
            Expr::Index { base, at } => element_of(scope, u, e, *base, *at),
            Expr::Chain { op, parts } => chain(scope, u, e, *op, parts.as_slice()),
            Expr::Convert { of, to } => conversion(scope, u, e, *of, *to),
            Expr::Base { on, sig } => answer(scope, u, e, *on, *sig),
            Expr::Number(_) | Expr::Const(_) | Expr::Status(_) => unreachable!(),
            Expr::Truth(_) | Expr::Cut { .. } | Expr::Not(_) => unreachable!(),
        },
    }
}

/// A number that is known.
pub(crate) fn constant(u: &mut Unit, n: u64) -> Result<Rated, NoMemory>
    ensures grows { Grows u.old u.new }
    ensures made { IfOk result (λ a. HasRated u.new a (rated (num n) (type_of_literal (literal_of n)))) }
{
    let spelt = literal(n);
    let code = put(u, CExpr::Number(spelt))?;
    Ok(Rated {
        code,
        ty: literal_type(spelt),
    })
}

// The width of a number's type.
pub(crate) fn width_of(t: &Typed, e: ExprId) -> Width
    requires { IsTrue (is_number_at t.now e) }
    ensures { bits_of result ≡ (num_type (type_of_node t.now e.0)).bits }
{
    match t.type_of(e) {
        Ty::Num { width, .. } => width,
        Ty::Flag | Ty::Status | Ty::Reader | Ty::Writer => unreachable!(),
        Ty::Slice(_) | Ty::Array { .. } | Ty::Part(_) => unreachable!(),
    }
}

// The number in a variable.
fn held_number(scope: &BodyNames, u: &mut Unit, e: ExprId, path: Path) -> Result<Rated, NoMemory>
    requires node { IsTrue (is_number_at scope.now.nodes e) }
    requires tree { tree_of scope.now.nodes e ≡ named (place_of_node scope.now.nodes e.0) (type_of_node scope.now.nodes e.0) (path_of path) }
    ensures grows { Grows u.old u.new }
    ensures made { IfOk result (λ a. HasRated u.new a (lowered scope.now.names (node_number scope.now.nodes e))) }
{
    let width = width_of(scope.typed(), e);
    let code = scope.path(u, path)?;
    Ok(Rated {
        code,
        ty: calculated(width),
    })
}

#[cycle(lowering)]
fn element_of(
    scope: &BodyNames,
    u: &mut Unit,
    e: ExprId,
    base: ExprId,
    at: ExprId,
) -> Result<Rated, NoMemory>
    requires node { IsTrue (is_number_at scope.now.nodes e) }
    requires tree { node_number scope.now.nodes e ≡ element_tree (place_of_node scope.now.nodes e.0) (num_type (type_of_node scope.now.nodes e.0)) (node_slice scope.now.nodes base) (node_number scope.now.nodes at) }
    requires base { IsTrue (is_slice_at scope.now.nodes base) }
    requires at { IsTrue (is_number_at scope.now.nodes at) }
    requires base_below { base.0 < e.0 }
    requires at_below { at.0 < e.0 }
    ensures grows { Grows u.old u.new }
    ensures made { IfOk result (λ a. HasRated u.new a (lowered scope.now.names (node_number scope.now.nodes e))) }
{
    let width = width_of(scope.typed(), e);
    let cells = cells(scope, u, base)?;
    let index = number(scope, u, at)?;
    let code = element(u, cells.pair.pointer, index.code)?;
    Ok(Rated {
        code,
        ty: calculated(width),
    })
}

// A chain: one operation of C where its operator repeats there, else one after the other.
#[cycle(lowering)]
fn chain(
    scope: &BodyNames,
    u: &mut Unit,
    e: ExprId,
    op: Op,
    parts: &[ExprId],
) -> Result<Rated, NoMemory>
    requires node { IsTrue (is_number_at scope.now.nodes e) }
    requires tree { tree_of scope.now.nodes e ≡ chain_of (place_of_node scope.now.nodes e.0) (signs_of_node scope.now.nodes e.0) (type_of_node scope.now.nodes e.0) (operator_kind op) (map (tree_of scope.now.nodes) parts.now) }
    requires below { IsTrue (list_all (λ p. nat_lt p.0 e.0) parts.now) }
    requires arithmetic { IsTrue (is_arithmetic (operator_kind op)) }
    requires numbers { IsTrue (list_all (is_number_at scope.now.nodes) parts.now) }
    requires some { 1 < length parts.now }
    ensures grows { Grows u.old u.new }
    ensures made { IfOk result (λ a. HasRated u.new a (lowered scope.now.names (node_number scope.now.nodes e))) }
{
    let width = width_of(scope.typed(), e);
    if repeats(op) {
        operation_chain(scope, u, e, op, width, parts)
    } else {
        linked_chain(scope, u, e, op, width, parts)
    }
}

#[cycle(lowering)]
fn operation_chain(
    scope: &BodyNames,
    u: &mut Unit,
    e: ExprId,
    op: Op,
    width: Width,
    parts: &[ExprId],
) -> Result<Rated, NoMemory>
    requires tree { tree_of scope.now.nodes e ≡ chain_of (place_of_node scope.now.nodes e.0) (signs_of_node scope.now.nodes e.0) (type_of_node scope.now.nodes e.0) (operator_kind op) (map (tree_of scope.now.nodes) parts.now) }
    requires width { bits_of width ≡ (num_type (type_of_node scope.now.nodes e.0)).bits }
    requires below { IsTrue (list_all (λ p. nat_lt p.0 e.0) parts.now) }
    requires arithmetic { IsTrue (is_arithmetic (operator_kind op)) }
    requires repeats { IsTrue (repeats_sort (operator_kind op)) }
    requires numbers { IsTrue (list_all (is_number_at scope.now.nodes) parts.now) }
    requires some { 1 < length parts.now }
    ensures grows { Grows u.old u.new }
    ensures made { IfOk result (λ a. HasRated u.new a (lowered scope.now.names (node_number scope.now.nodes e))) }
{
    let first = number(scope, u, parts[0])?;
    let second = number(scope, u, parts[1])?;
    let mut others = CList::new(scope.alloc());
    for i in 2..parts.len() {
        let operand = number(scope, u, parts[i])?;
        others.push(operand.code)?;
    }
    number_operation(u, op, width, first, second, others)
}

#[cycle(lowering)]
fn linked_chain(
    scope: &BodyNames,
    u: &mut Unit,
    e: ExprId,
    op: Op,
    width: Width,
    parts: &[ExprId],
) -> Result<Rated, NoMemory>
    requires tree { tree_of scope.now.nodes e ≡ chain_of (place_of_node scope.now.nodes e.0) (signs_of_node scope.now.nodes e.0) (type_of_node scope.now.nodes e.0) (operator_kind op) (map (tree_of scope.now.nodes) parts.now) }
    requires width { bits_of width ≡ (num_type (type_of_node scope.now.nodes e.0)).bits }
    requires below { IsTrue (list_all (λ p. nat_lt p.0 e.0) parts.now) }
    requires arithmetic { IsTrue (is_arithmetic (operator_kind op)) }
    requires apart { repeats_sort (operator_kind op) ≡ false }
    requires numbers { IsTrue (list_all (is_number_at scope.now.nodes) parts.now) }
    requires some { 1 < length parts.now }
    ensures grows { Grows u.old u.new }
    ensures made { IfOk result (λ a. HasRated u.new a (lowered scope.now.names (node_number scope.now.nodes e))) }
{
    let mut left = number(scope, u, parts[0])?;
    for i in 1..parts.len() {
        let right = number(scope, u, parts[i])?;
        left = link(scope.alloc(), u, op, width, left, right)?;
    }
    Ok(left)
}

#[cycle(lowering)]
fn conversion(
    scope: &BodyNames,
    u: &mut Unit,
    e: ExprId,
    of: ExprId,
    to: Width,
) -> Result<Rated, NoMemory>
    requires tree { node_number scope.now.nodes e ≡ convert (place_of_node scope.now.nodes e.0) (first_sign (place_of_node scope.now.nodes e.0) (signs_of_node scope.now.nodes e.0)) (bits_of to) (node_number scope.now.nodes of) }
    requires of { IsTrue (is_number_at scope.now.nodes of) }
    requires below { of.0 < e.0 }
    ensures grows { Grows u.old u.new }
    ensures made { IfOk result (λ a. HasRated u.new a (lowered scope.now.names (node_number scope.now.nodes e))) }
{
    let a = number(scope, u, of)?;
    converted(u, to, a)
}

// What a base method answers.
#[cycle(lowering)]
fn answer(
    scope: &BodyNames,
    u: &mut Unit,
    e: ExprId,
    on: ExprId,
    sig: BaseSig,
) -> Result<Rated, NoMemory>
    requires tree { tree_of scope.now.nodes e ≡ answer_of (place_of_node scope.now.nodes e.0) sig (tree_of scope.now.nodes on) }
    requires kind { IsTrue (has_kind (row_of sig).on (type_of_node scope.now.nodes on.0)) }
    requires number { IsTrue (answers_number sig) }
    requires on { IsTrue (is_expr scope.now.nodes on) }
    requires below { on.0 < e.0 }
    ensures grows { Grows u.old u.new }
    ensures made { IfOk result (λ a. HasRated u.new a (lowered scope.now.names (node_number scope.now.nodes e))) }
{
    match sig {
        BaseSig::SliceLength(_) => length_of(scope, u, e, on),
        BaseSig::ArrayLength(_) => length_of(scope, u, e, on),
        BaseSig::ReaderLength => bytes_left(scope, u, io_arg(scope.typed(), on).0),
        BaseSig::WriterLength => bytes_left(scope, u, io_arg(scope.typed(), on).0),
        BaseSig::ReaderPosition => position(scope, u, io_arg(scope.typed(), on).0),
        BaseSig::WriterPosition => position(scope, u, io_arg(scope.typed(), on).0),
        BaseSig::Peek(form) => peek(scope, u, io_arg(scope.typed(), on).0, form),
        BaseSig::ReaderIsClosed | BaseSig::Read(_) | BaseSig::Skip => unreachable!(),
        BaseSig::SkipFast | BaseSig::Write | BaseSig::WriteFast => unreachable!(),
        BaseSig::WriterCopy | BaseSig::SliceCopy(_) | BaseSig::IsOk => unreachable!(),
        BaseSig::IsNote | BaseSig::IsSuspension | BaseSig::IsError => unreachable!(),
    }
}

#[cycle(lowering)]
fn length_of(scope: &BodyNames, u: &mut Unit, e: ExprId, on: ExprId) -> Result<Rated, NoMemory>
    requires on { IsTrue (is_slice_at scope.now.nodes on) }
    requires below { on.0 < e.0 }
    ensures grows { Grows u.old u.new }
    ensures made { IfOk result (λ a. HasRated u.new a (lowered_slice scope.now.names (node_slice scope.now.nodes on)).length) }
{
    let cells = cells(scope, u, on)?;
    Ok(cells.pair.length)
}

/// A slice or a whole array, with whether its pointer is never null.
#[cycle(lowering)]
fn cells(scope: &BodyNames, u: &mut Unit, e: ExprId) -> Result<Cells, NoMemory>
    requires { IsTrue (is_slice_at scope.now.nodes e) }
    ensures grows { Grows u.old u.new }
    ensures made { IfOk result (λ it. HasPair u.new it.pair (lowered_slice scope.now.names (node_slice scope.now.nodes e))) }
    ensures array { IfOk result (λ it. it.never_null ≡ is_array (node_slice scope.now.nodes e)) }
{
    let t = scope.typed();
    let expr = t.expr(e);
    match t.constant(e) {
        Some(_) => unreachable!(),
        None => match expr {
            Expr::Local(x) => held_cells(scope, u, e, Path::Local(x.0)),
            Expr::Field(x) => held_cells(scope, u, e, Path::Field(x.0)),
            Expr::Arg(x) => held_cells(scope, u, e, Path::Arg(x.0)),
            Expr::Cut { base, from, to } => cut(scope, u, e, *base, *from, *to),
            Expr::Number(_) | Expr::Const(_) | Expr::Status(_) => unreachable!(),
            Expr::Truth(_) | Expr::Index { .. } => unreachable!(),
            Expr::Chain { .. } => unreachable!(),
            Expr::Convert { .. } | Expr::Not(_) => unreachable!(),
            Expr::Base { .. } => unreachable!(),
        },
    }
}

// The slice or the array in a variable.
fn held_cells(scope: &BodyNames, u: &mut Unit, e: ExprId, path: Path) -> Result<Cells, NoMemory>
    requires node { IsTrue (is_slice_at scope.now.nodes e) }
    requires tree { tree_of scope.now.nodes e ≡ named (place_of_node scope.now.nodes e.0) (type_of_node scope.now.nodes e.0) (path_of path) }
    ensures grows { Grows u.old u.new }
    ensures made { IfOk result (λ it. HasPair u.new it.pair (lowered_slice scope.now.names (node_slice scope.now.nodes e))) }
    ensures array { IfOk result (λ it. it.never_null ≡ is_array (node_slice scope.now.nodes e)) }
{
    match scope.typed().type_of(e) {
        Ty::Slice(_) => held_slice(scope, u, path),
        Ty::Array { len, .. } => held_array(scope, u, path, len),
        Ty::Num { .. } | Ty::Flag | Ty::Status => unreachable!(),
        Ty::Reader | Ty::Writer | Ty::Part(_) => unreachable!(),
    }
}

fn held_slice(scope: &BodyNames, u: &mut Unit, path: Path) -> Result<Cells, NoMemory>
    ensures grows { Grows u.old u.new }
    ensures made { IfOk result (λ it. HasPair u.new it.pair (pair_of_path scope.now.names (path_of path))) }
    ensures slice { IfOk result (λ it. it.never_null ≡ false) }
{
    let pair = path_pair(scope, u, path)?;
    Ok(Cells {
        pair,
        never_null: false,
    })
}

/// The slice in a variable.
pub fn path_pair(scope: &BodyNames, u: &mut Unit, path: Path) -> Result<Pair, NoMemory>
    ensures grows { Grows u.old u.new }
    ensures made { IfOk result (λ it. HasPair u.new it (pair_of_path scope.now.names (path_of path))) }
{
    let (pointer, code) = match path {
        Path::Local(n) => (scope.local_pointer(u, n)?, scope.local_length(u, n)?),
        Path::Arg(n) => (scope.arg_pointer(u, n)?, scope.arg_length(u, n)?),
        Path::Field(n) => return field_pair(scope, u, n),
    };
    Ok(Pair {
        pointer,
        length: Rated { code, ty: CTy::U64 },
    })
}

// No field is a slice: this is what the definition has for one.
fn field_pair(scope: &BodyNames, u: &mut Unit, n: u32) -> Result<Pair, NoMemory>
    ensures grows { Grows u.old u.new }
    ensures made { IfOk result (λ it. HasPair u.new it (pair_of_path scope.now.names (field n))) }
{
    let pointer = scope.field(u, n)?;
    let code = wf_exprs::nodes::number(u, 0)?;
    Ok(Pair {
        pointer,
        length: Rated { code, ty: CTy::Int },
    })
}

fn held_array(scope: &BodyNames, u: &mut Unit, path: Path, count: u32) -> Result<Cells, NoMemory>
    ensures grows { Grows u.old u.new }
    ensures made { IfOk result (λ it. HasPair u.new it.pair (record { pointer = path_code scope.now.names (path_of path); length = rated (num count) Int })) }
    ensures array { IfOk result (λ it. it.never_null ≡ true) }
{
    let pointer = scope.path(u, path)?;
    let code = wf_exprs::nodes::number(u, count as u64)?;
    let length = Rated { code, ty: CTy::Int };
    Ok(Cells {
        pair: Pair { pointer, length },
        never_null: true,
    })
}

#[cycle(lowering)]
fn cut(
    scope: &BodyNames,
    u: &mut Unit,
    e: ExprId,
    base: ExprId,
    from: Option<ExprId>,
    to: Option<ExprId>,
) -> Result<Cells, NoMemory>
    requires tree { node_slice scope.now.nodes e ≡ cut_tree (place_of_node scope.now.nodes e.0) (node_slice scope.now.nodes base) (end_in (tree_of scope.now.nodes) from) (end_in (tree_of scope.now.nodes) to) }
    requires base { IsTrue (is_slice_at scope.now.nodes base) }
    requires from { IsTrue (end_fits scope.now.nodes e from) }
    requires to { IsTrue (end_fits scope.now.nodes e to) }
    requires below { base.0 < e.0 }
    ensures grows { Grows u.old u.new }
    ensures made { IfOk result (λ it. HasPair u.new it.pair (lowered_slice scope.now.names (node_slice scope.now.nodes e))) }
    ensures array { IfOk result (λ it. it.never_null ≡ is_array (node_slice scope.now.nodes e)) }
{
    let whole = cells(scope, u, base)?;
    let first = end(scope, u, e, from)?;
    let last = end(scope, u, e, to)?;
    let pair = part(scope.alloc(), u, whole, first, last)?;
    Ok(Cells {
        pair,
        never_null: whole.never_null,
    })
}

// The end of a part, where it has one.
#[cycle(lowering)]
fn end(
    scope: &BodyNames,
    u: &mut Unit,
    e: ExprId,
    end: Option<ExprId>,
) -> Result<Option<Rated>, NoMemory>
    requires { IsTrue (end_fits scope.now.nodes e end) }
    ensures grows { Grows u.old u.new }
    ensures made { IfOk result (λ it. HasEnd u.new it (lowered_end scope.now.names (end_in (tree_of scope.now.nodes) end))) }
{
    match end {
        Some(i) => Ok(Some(number(scope, u, i)?)),
        None => Ok(None),
    }
}

/// A slice or a whole array, as its pointer and its length.
pub fn lower_slice(scope: &BodyNames, u: &mut Unit, e: ExprId) -> Result<Pair, NoMemory>
    requires { IsTrue (is_slice_at scope.now.nodes e) }
    ensures grows { Grows u.old u.new }
    ensures made { IfOk result (λ it. HasPair u.new it (lowered_slice scope.now.names (node_slice scope.now.nodes e))) }
{
    let cells = cells(scope, u, e)?;
    Ok(cells.pair)
}

/// What is converted, however often.
pub(crate) fn unconverted(t: &Typed, e: ExprId) -> ExprId
    requires { IsTrue (is_number_at t.now e) }
    ensures node { IsTrue (is_number_at t.now result) }
    ensures bare { node_number t.now result ≡ bare (node_number t.now e) }
{
    let expr = t.expr(e);
    match t.constant(e) {
        Some(_) => e,
        None => match expr {
            Expr::Convert { of, .. } => unconverted(t, *of),
            Expr::Number(_) | Expr::Const(_) | Expr::Status(_) => e,
            Expr::Truth(_) | Expr::Local(_) | Expr::Field(_) => e,
            Expr::Arg(_) | Expr::Index { .. } | Expr::Cut { .. } => e,
            Expr::Chain { .. } => e,
            Expr::Not(_) | Expr::Base { .. } => e,
        },
    }
}

// A number without its type.
fn code(scope: &BodyNames, u: &mut Unit, e: ExprId) -> Result<CExprId, NoMemory>
    requires { IsTrue (is_number_at scope.now.nodes e) }
    ensures grows { Grows u.old u.new }
    ensures made { IfOk result (λ it. HasExpr u.new it.0 (lowered_expr scope.now.names (node_number scope.now.nodes e))) }
{
    let a = number(scope, u, e)?;
    Ok(a.code)
}

// A number that C converts to this width.
fn code_taken(scope: &BodyNames, u: &mut Unit, width: Width, e: ExprId) -> Result<CExprId, NoMemory>
    requires { IsTrue (is_number_at scope.now.nodes e) }
    ensures grows { Grows u.old u.new }
    ensures made { IfOk result (λ it. HasExpr u.new it.0 (taken_code (bits_of width) (lowered_expr scope.now.names (node_number scope.now.nodes e)))) }
{
    let a = number(scope, u, e)?;
    taken(u, width, a.code)
}

/// A number that is assigned, passed or returned: what takes it converts it to its type.
pub fn given(scope: &BodyNames, u: &mut Unit, e: ExprId) -> Result<CExprId, NoMemory>
    requires { IsTrue (is_number_at scope.now.nodes e) }
    ensures grows { Grows u.old u.new }
    ensures made { IfOk result (λ it. HasExpr u.new it.0 (given_code scope.now.names (node_number scope.now.nodes e))) }
{
    let t = scope.typed();
    let expr = t.expr(e);
    match t.constant(e) {
        Some(_) => code(scope, u, e),
        None => match expr {
            Expr::Convert { of, to } => code_taken(scope, u, *to, unconverted(t, *of)),
            Expr::Chain { .. } => code_taken(scope, u, width_of(t, e), e),
            Expr::Number(_) | Expr::Const(_) | Expr::Status(_) => code(scope, u, e),
            Expr::Truth(_) | Expr::Local(_) | Expr::Field(_) => code(scope, u, e),
            Expr::Arg(_) | Expr::Index { .. } | Expr::Cut { .. } => code(scope, u, e),
            Expr::Not(_) | Expr::Base { .. } => code(scope, u, e),
        },
    }
}
