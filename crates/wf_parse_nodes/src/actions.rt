// What an action makes of the values on top of the stack. The actions are parted by what they make, so that no function
// has room for what all of them make: it would have to clear that room whenever it begins, and copy it to hand it on.

ghost use Rattle.std.specs.Prelude.{◌≡◌, List, true, false, IfOk};
ghost use Rattle.wf_parse_nodes.specs.Making.{making};
ghost use Rattle.wf_parse_nodes.specs.Shapes.{fits, takes, pushes, kind_of};
ghost use Rattle.wf_parse_nodes.specs.declared.actions.ActionKind.TheVariants as kinds;
ghost use Rattle.wf_parse_nodes.specs.Products as makes;
ghost use Rattle.wf_parse_nodes.specs.declared.values.SemanticValue.{SemanticValue};

use crate::values::{SemanticValue, Sign};
use crate::{branches, calls, declarations, expressions, paths, statements, types};
use stacks::Stack;
use std::alloc::Global;
use wf_ast::Sequence;
use wf_ast::parsed::{DeclNode, ExprNode, Path, Root, StmtNode};
use wf_parse_grammar::Action;
use wf_text::NoMemory;

/// What an action makes.
#[derive(Clone, Copy)]
pub(crate) enum ActionKind {
    /// A value.
    Value,
    /// A value that has grown by one part, or is one of two, for which memory may be wanted.
    Grown,
    /// An expression.
    Expr,
    /// A statement.
    Stmt,
    /// A declaration.
    Decl,
}

/// What kind of thing an action makes.
#[inline(always)]
pub(crate) fn kind_of(action: Action) -> ActionKind
    ensures { result ≡ kind_of action }
{
    match action {
        Action::ThisMethod
        | Action::AddLink
        | Action::AddGiven
        | Action::AddSlice(_)
        | Action::AddArray
        | Action::AddStmt
        | Action::AddArm
        | Action::AddClause(_)
        | Action::AddField => ActionKind::Grown,
        Action::NumberExpr { .. }
        | Action::OwnStatusExpr(_)
        | Action::BaseStatusExpr
        | Action::FineExpr(_)
        | Action::TruthExpr { .. }
        | Action::PathExpr
        | Action::IndexExpr
        | Action::SliceExpr
        | Action::CallExpr
        | Action::NotExpr
        | Action::ConvertExpr
        | Action::FinishChain => ActionKind::Expr,
        Action::VarStmt
        | Action::AssignStmt
        | Action::KeepStmt
        | Action::CallStmt
        | Action::IfStmt
        | Action::LoopStmt
        | Action::LabelledStmt
        | Action::BreakStmt
        | Action::ContinueStmt
        | Action::ReturnStmt
        | Action::YieldStmt
        | Action::AssertStmt => ActionKind::Stmt,
        Action::StatusDecl | Action::ConstDecl | Action::StructDecl | Action::MethodDecl =>
            ActionKind::Decl,
        _ => ActionKind::Value,
    }
}

/// The value that an action makes for which memory may be wanted.
#[inline(always)]
pub(crate) fn grown(
    action: Action,
    values: &mut Stack<SemanticValue>,
) -> Result<SemanticValue, NoMemory>
    requires fit { fits (takes action) values.old ≡ true }
    requires kind { kind_of action ≡ kinds.Grown }
    ensures { IfOk result (λ value. making action values.old ≡ record { product = makes.Value value; vals = values.new }) }
{
    match action {
        Action::ThisMethod => paths::this_method(values),
        Action::AddLink => expressions::add_link(values),
        Action::AddGiven => calls::add_given(values),
        Action::AddSlice(at) => types::add_slice(at, values),
        Action::AddArray => types::add_array(values),
        Action::AddStmt => statements::add_stmt(values),
        Action::AddArm => branches::add_arm(values),
        Action::AddClause(kind) => branches::add_clause(kind, values),
        Action::AddField => declarations::add_field(values),
        _ => unreachable!(),
    }
}

/// The value that an action makes of those that it takes, where nothing grows.
#[inline(always)]
pub(crate) fn made_value(
    alloc: Global,
    action: Action,
    values: &mut Stack<SemanticValue>,
) -> SemanticValue
    requires fit { fits (takes action) values.old ≡ true }
    requires takes { pushes action ≡ false }
    requires kind { kind_of action ≡ kinds.Value }
    ensures { making action values.old ≡ record { product = makes.Value result; vals = values.new } }
{
    match action {
        Action::ThisPath => paths::this_path(values),
        Action::ArgsPath => paths::args_path(values),
        Action::PathReceiver => paths::path_receiver(values),
        Action::StartChain { op, at } => expressions::start_chain(alloc, op, at, values),
        Action::SomePart => expressions::some_part(values),
        Action::FinishCall => calls::finish_call(values),
        Action::StructType(name) => types::struct_type(name, values),
        Action::BaseCore(name) => types::base_core(name, values),
        Action::StatusCore => types::status_core(values),
        Action::SomeBounds => types::some_bounds(values),
        Action::FinishType => types::finish_type(values),
        Action::CloseBlock(close) => statements::close_block(close, values),
        Action::PathTarget => statements::path_target(values),
        Action::ElementTarget => statements::element_target(values),
        Action::SomeElse => branches::some_else(values),
        Action::SomeLabel => branches::some_label(values),
        Action::SomeVia => statements::some_via(values),
        Action::NoResult => declarations::no_result(values),
        Action::SomeResult => declarations::some_result(values),
        _ => unreachable!(),
    }
}

/// The expression that an action makes.
#[inline(always)]
pub(crate) fn made_expr(action: Action, values: &mut Stack<SemanticValue>) -> ExprNode
    requires fit { fits (takes action) values.old ≡ true }
    requires kind { kind_of action ≡ kinds.Expr }
    ensures { making action values.old ≡ record { product = makes.Expr result; vals = values.new } }
{
    match action {
        Action::NumberExpr { value, at } => expressions::number_expr(value, at),
        Action::OwnStatusExpr(name) => expressions::own_status_expr(name),
        Action::BaseStatusExpr => expressions::base_status_expr(values),
        Action::FineExpr(at) => expressions::fine_expr(at),
        Action::TruthExpr { value, at } => expressions::truth_expr(value, at),
        Action::PathExpr => expressions::path_expr(values),
        Action::IndexExpr => expressions::index_expr(values),
        Action::SliceExpr => expressions::slice_expr(values),
        Action::CallExpr => expressions::call_expr(values),
        Action::NotExpr => expressions::not_expr(values),
        Action::ConvertExpr => expressions::convert_expr(values),
        Action::FinishChain => expressions::finish_chain(values),
        _ => unreachable!(),
    }
}

/// The statement that an action makes.
#[inline(always)]
pub(crate) fn made_stmt(action: Action, values: &mut Stack<SemanticValue>) -> StmtNode
    requires fit { fits (takes action) values.old ≡ true }
    requires kind { kind_of action ≡ kinds.Stmt }
    ensures { making action values.old ≡ record { product = makes.Stmt result; vals = values.new } }
{
    match action {
        Action::VarStmt => statements::var_stmt(values),
        Action::AssignStmt => statements::assign_stmt(values),
        Action::KeepStmt => statements::keep_stmt(values),
        Action::CallStmt => statements::call_stmt(values),
        Action::IfStmt => branches::if_stmt(values),
        Action::LoopStmt => branches::loop_stmt(values),
        Action::LabelledStmt => branches::labelled_stmt(values),
        Action::BreakStmt => branches::break_stmt(values),
        Action::ContinueStmt => branches::continue_stmt(values),
        Action::ReturnStmt => statements::return_stmt(values),
        Action::YieldStmt => statements::yield_stmt(values),
        Action::AssertStmt => statements::assert_stmt(values),
        _ => unreachable!(),
    }
}

/// The declaration that an action makes.
#[inline(always)]
pub(crate) fn made_decl(action: Action, values: &mut Stack<SemanticValue>) -> DeclNode
    requires fit { fits (takes action) values.old ≡ true }
    requires kind { kind_of action ≡ kinds.Decl }
    ensures { making action values.old ≡ record { product = makes.Decl result; vals = values.new } }
{
    match action {
        Action::StatusDecl => declarations::status_decl(values),
        Action::ConstDecl => declarations::const_decl(values),
        Action::StructDecl => declarations::struct_decl(values),
        Action::MethodDecl => declarations::method_decl(values),
        _ => unreachable!(),
    }
}

/// Whether an action takes nothing from the stack and pushes one value.
pub(crate) fn pushes(action: Action) -> bool
    ensures { result ≡ pushes action }
{
    match action {
        Action::PushName(_)
        | Action::PushPlace(_)
        | Action::PushMark(_)
        | Action::PushPublic(_)
        | Action::PushSign { .. }
        | Action::BarePath(_)
        | Action::NoPart
        | Action::StartGivens
        | Action::StartType
        | Action::NoBounds
        | Action::StartItems
        | Action::StartArms
        | Action::NoElse
        | Action::StartClauses
        | Action::NoLabel
        | Action::NoVia
        | Action::StartFields => true,
        _ => false,
    }
}

/// What an action pushes that takes nothing from the stack.
#[inline(always)]
pub(crate) fn pushed(alloc: Global, action: Action) -> SemanticValue
    requires { pushes action ≡ true }
    ensures { (vs : List SemanticValue) → making action vs ≡ record { product = makes.Value result; vals = vs } }
{
    match action {
        Action::PushName(name) => SemanticValue::Name(name),
        Action::PushPlace(at) => SemanticValue::Place(at),
        Action::PushMark(mark) => SemanticValue::Mark(mark),
        Action::PushPublic(public) => SemanticValue::Public(public),
        Action::PushSign { op, at } => SemanticValue::Sign(Sign { op, at }),
        Action::BarePath(name) => SemanticValue::Path(Path {
            root: Root::Bare,
            name,
            at: name.at,
        }),
        Action::NoPart => SemanticValue::Part(None),
        Action::StartGivens => SemanticValue::Givens(Sequence::new(alloc)),
        Action::StartType => SemanticValue::Prefixes(Sequence::new(alloc)),
        Action::NoBounds => SemanticValue::Bounds(None),
        Action::StartItems => SemanticValue::Items(Sequence::new(alloc)),
        Action::StartArms => SemanticValue::Arms(Sequence::new(alloc)),
        Action::NoElse => SemanticValue::Otherwise(None),
        Action::StartClauses => SemanticValue::Clauses(Sequence::new(alloc)),
        Action::NoLabel => SemanticValue::Label(None),
        Action::NoVia => SemanticValue::Via(None),
        Action::StartFields => SemanticValue::Fields(Sequence::new(alloc)),
        _ => unreachable!(),
    }
}
