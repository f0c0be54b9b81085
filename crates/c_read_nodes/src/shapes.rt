// The shapes of values, and which values the actions take from the top of the stack.

ghost use Rattle.std.specs.Prelude.{◌≡◌};
ghost use Rattle.c_read_nodes.specs.Shapes.{is_shape, takes_expr, takes_type, takes_stmt, takes_item, takes, is_plain};

use crate::values::SemanticValue;
use c_read_grammar::{Action, ExprAction, ItemAction, StmtAction, TypeAction};
use c_text::CType;
use stacks::ShapeOf;

/// The shape of a value: its variant, with what an action asks of it.
#[derive(Clone, Copy, PartialEq, Eq)]
pub(crate) enum Shape {
    Name,
    Number,
    Text,
    Expr,
    Operation,
    Args,
    Type,
    UintType,
    Block,
    Code,
    Statement,
    Arm,
    Field,
    Fields,
    SomeFields,
    Outcome,
    Params,
    Locals,
    Unit,
}

impl ShapeOf<SemanticValue> for Shape {
    ghost is_shape = { is_shape };

    fn is_of(self, value: &SemanticValue) -> bool {
        match (self, value) {
            (Shape::Name, SemanticValue::Name(_)) => true,
            (Shape::Number, SemanticValue::Number(_)) => true,
            (Shape::Text, SemanticValue::Text(_)) => true,
            (Shape::Expr, SemanticValue::Expr(_)) => true,
            (Shape::Operation, SemanticValue::Operation(_)) => true,
            (Shape::Args, SemanticValue::Args(_)) => true,
            (Shape::Type, SemanticValue::Type(_)) => true,
            (Shape::UintType, SemanticValue::Type(CType::Uint(_))) => true,
            (Shape::Block, SemanticValue::Block) => true,
            (Shape::Code, SemanticValue::Code(_)) => true,
            (Shape::Statement, SemanticValue::Statement(_)) => true,
            (Shape::Arm, SemanticValue::Arm(_)) => true,
            (Shape::Field, SemanticValue::Field(_)) => true,
            (Shape::Fields, SemanticValue::Fields(_)) => true,
            (Shape::SomeFields, SemanticValue::Fields(fields)) => !fields.as_slice().is_empty(),
            (Shape::Outcome, SemanticValue::Outcome(_)) => true,
            (Shape::Params, SemanticValue::Params(_)) => true,
            (Shape::Locals, SemanticValue::Locals(_)) => true,
            (Shape::Unit, SemanticValue::Unit) => true,
            _ => false,
        }
    }
}

/// The shapes of the values that an action takes, the topmost first.
fn takes_expr(action: ExprAction) -> &'static [Shape]
    ensures { result.now ≡ takes_expr action }
{
    match action {
        ExprAction::MakeVariable => &[Shape::Name],
        ExprAction::MakeNumber => &[Shape::Number],
        ExprAction::MakeMember => &[Shape::Name, Shape::Expr],
        ExprAction::MakeElement => &[Shape::Expr, Shape::Expr],
        ExprAction::MakePointed => &[Shape::Expr],
        ExprAction::StartOperation => &[Shape::Expr, Shape::Expr],
        ExprAction::AddOperand => &[Shape::Expr, Shape::Operation],
        ExprAction::MakeOperation(_) => &[Shape::Operation],
        ExprAction::MakeUnary(_) => &[Shape::Expr],
        ExprAction::MakeCast => &[Shape::Expr, Shape::Type],
        ExprAction::MakeChoice => &[Shape::Expr, Shape::Expr, Shape::Expr],
        ExprAction::MakeCalled => &[Shape::Args, Shape::Name],
        ExprAction::StartArgs => &[],
        ExprAction::AddArg => &[Shape::Expr, Shape::Args],
        ExprAction::AddSizeof => &[Shape::Name, Shape::Args],
        ExprAction::MakeVariableBelow => &[],
    }
}

/// The shapes of the values that an action takes, the topmost first.
fn takes_type(action: TypeAction) -> &'static [Shape]
    ensures { result.now ≡ takes_type action }
{
    match action {
        TypeAction::MakeUint(_) => &[],
        TypeAction::MakeUintPointer => &[Shape::UintType],
        TypeAction::MakeSize => &[],
        TypeAction::MakeBool => &[],
        TypeAction::MakeStructPointer => &[Shape::Name],
        TypeAction::MakeText => &[],
    }
}

/// The shapes of the values that an action takes, the topmost first.
fn takes_stmt(action: StmtAction) -> &'static [Shape]
    ensures { result.now ≡ takes_stmt action }
{
    match action {
        StmtAction::StartBlock => &[],
        StmtAction::MakeNested => &[Shape::Code],
        StmtAction::MakeEmpty => &[],
        StmtAction::MakeAssign => &[Shape::Expr, Shape::Expr],
        StmtAction::MakeCall => &[Shape::Args, Shape::Name],
        StmtAction::MakeCallInto => &[Shape::Args, Shape::Name, Shape::Expr],
        StmtAction::MakeGoto => &[Shape::Name],
        StmtAction::AddArm => &[Shape::Code, Shape::Expr],
        StmtAction::MakeWhile => &[Shape::Code, Shape::Expr],
        StmtAction::MakeSwitch => &[Shape::Code, Shape::Expr],
        StmtAction::MakeReturn => &[],
        StmtAction::MakeReturnValue => &[Shape::Expr],
        StmtAction::MakeCase => &[Shape::Number],
        StmtAction::MakeDefault => &[],
        StmtAction::MakeLabel => &[Shape::Name],
        StmtAction::EndBlock => &[],
        StmtAction::MakeIf => &[],
    }
}

/// The shapes of the values that an action takes, the topmost first.
fn takes_item(action: ItemAction) -> &'static [Shape]
    ensures { result.now ≡ takes_item action }
{
    match action {
        ItemAction::StartFields => &[],
        ItemAction::MakeField => &[Shape::Name, Shape::Type],
        ItemAction::MakeStructField => &[Shape::Name, Shape::Name],
        ItemAction::SetCount => &[Shape::Number, Shape::Field],
        ItemAction::AddField => &[Shape::Field, Shape::Fields],
        ItemAction::MakeStruct => &[Shape::Name, Shape::SomeFields, Shape::Unit],
        ItemAction::MakeTextItem => &[Shape::Text, Shape::Name, Shape::Unit],
        ItemAction::MakeResult(_) => &[Shape::Type],
        ItemAction::MakeVoid(_) => &[],
        ItemAction::StartParams => &[],
        ItemAction::AddParam => &[Shape::Name, Shape::Type, Shape::Params],
        ItemAction::StartLocals => &[],
        ItemAction::AddLocal => &[Shape::Name, Shape::Type, Shape::Locals],
        ItemAction::AddInitialLocal => &[Shape::Expr, Shape::Name, Shape::Type, Shape::Locals],
        ItemAction::MakeFunction => &[
            Shape::Code,
            Shape::Locals,
            Shape::Params,
            Shape::Name,
            Shape::Outcome,
            Shape::Unit,
        ],
    }
}

/// The shapes of the values that an action takes, the topmost first.
pub(crate) fn takes(action: Action) -> &'static [Shape]
    ensures { result.now ≡ takes action }
{
    match action {
        Action::Expr(action) => takes_expr(action),
        Action::Type(action) => takes_type(action),
        Action::Stmt(action) => takes_stmt(action),
        Action::Item(action) => takes_item(action),
    }
}

/// Whether an action takes a fixed number of values from the top.
pub(crate) fn is_plain(action: Action) -> bool
    ensures { result ≡ is_plain action }
{
    !matches!(
        action,
        Action::Expr(ExprAction::MakeVariableBelow)
            | Action::Stmt(StmtAction::EndBlock)
            | Action::Stmt(StmtAction::MakeIf)
    )
}
