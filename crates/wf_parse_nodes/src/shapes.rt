// The shapes of values, and which values the actions take from the top of the stack.

ghost use Rattle.std.specs.Prelude.{◌≡◌};
ghost use Rattle.wf_parse_nodes.specs.Shapes.{is_shape, takes};

use crate::values::SemanticValue;
use stacks::ShapeOf;
use wf_parse_grammar::Action;

/// The shape of a value, which is its variant.
#[derive(Clone, Copy)]
pub(crate) enum Shape {
    Name,
    Place,
    Mark,
    Public,
    Sign,
    Path,
    Receiver,
    Expr,
    Part,
    Chain,
    Givens,
    Call,
    Prefixes,
    Core,
    Bounds,
    Type,
    Items,
    Block,
    Stmt,
    Target,
    Arms,
    Otherwise,
    Clauses,
    Label,
    Via,
    Fields,
    Result,
}

impl ShapeOf<SemanticValue> for Shape {
    ghost is_shape = { is_shape };

    fn is_of(self, value: &SemanticValue) -> bool {
        match (self, value) {
            (Shape::Name, SemanticValue::Name(_)) => true,
            (Shape::Place, SemanticValue::Place(_)) => true,
            (Shape::Mark, SemanticValue::Mark(_)) => true,
            (Shape::Public, SemanticValue::Public(_)) => true,
            (Shape::Sign, SemanticValue::Sign(_)) => true,
            (Shape::Path, SemanticValue::Path(_)) => true,
            (Shape::Receiver, SemanticValue::Receiver(_)) => true,
            (Shape::Expr, SemanticValue::Expr(_)) => true,
            (Shape::Part, SemanticValue::Part(_)) => true,
            (Shape::Chain, SemanticValue::Chain(_)) => true,
            (Shape::Givens, SemanticValue::Givens(_)) => true,
            (Shape::Call, SemanticValue::Call(_)) => true,
            (Shape::Prefixes, SemanticValue::Prefixes(_)) => true,
            (Shape::Core, SemanticValue::Core(_)) => true,
            (Shape::Bounds, SemanticValue::Bounds(_)) => true,
            (Shape::Type, SemanticValue::Type(_)) => true,
            (Shape::Items, SemanticValue::Items(_)) => true,
            (Shape::Block, SemanticValue::Block(_)) => true,
            (Shape::Stmt, SemanticValue::Stmt(_)) => true,
            (Shape::Target, SemanticValue::Target(_)) => true,
            (Shape::Arms, SemanticValue::Arms(_)) => true,
            (Shape::Otherwise, SemanticValue::Otherwise(_)) => true,
            (Shape::Clauses, SemanticValue::Clauses(_)) => true,
            (Shape::Label, SemanticValue::Label(_)) => true,
            (Shape::Via, SemanticValue::Via(_)) => true,
            (Shape::Fields, SemanticValue::Fields(_)) => true,
            (Shape::Result, SemanticValue::Result(_)) => true,
            _ => false,
        }
    }
}

/// The shapes of the values that an action takes, the topmost first.
#[inline(always)]
pub(crate) fn takes(action: Action) -> &'static [Shape]
    ensures { result.now ≡ takes action }
{
    match action {
        Action::PushName(_)
        | Action::PushPlace(_)
        | Action::PushMark(_)
        | Action::PushPublic(_)
        | Action::PushSign { .. }
        | Action::BarePath(_)
        | Action::NumberExpr { .. }
        | Action::OwnStatusExpr(_)
        | Action::FineExpr(_)
        | Action::TruthExpr { .. }
        | Action::NoPart
        | Action::StartGivens
        | Action::StartType
        | Action::NoBounds
        | Action::StartItems
        | Action::StartArms
        | Action::NoElse
        | Action::StartClauses
        | Action::NoLabel
        | Action::NoVia
        | Action::StartFields => &[],
        Action::ThisPath | Action::ArgsPath | Action::ThisMethod | Action::BaseStatusExpr => &[
            Shape::Name,
            Shape::Place,
        ],
        Action::PathReceiver | Action::PathExpr | Action::PathTarget => &[Shape::Path],
        Action::IndexExpr | Action::ElementTarget => &[Shape::Expr, Shape::Place, Shape::Path],
        Action::SliceExpr => &[Shape::Part, Shape::Part, Shape::Place, Shape::Path],
        Action::CallExpr => &[Shape::Call],
        Action::NotExpr | Action::YieldStmt => &[Shape::Expr, Shape::Place],
        Action::ConvertExpr => &[Shape::Type, Shape::Place, Shape::Expr],
        Action::StartChain { .. } | Action::SomePart => &[Shape::Expr],
        Action::AddLink => &[Shape::Expr, Shape::Place, Shape::Chain],
        Action::FinishChain => &[Shape::Chain],
        Action::AddGiven => &[Shape::Expr, Shape::Name, Shape::Givens],
        Action::FinishCall => &[Shape::Givens, Shape::Mark, Shape::Name, Shape::Receiver],
        Action::AddSlice(_) | Action::StructType(_) | Action::NoResult => &[Shape::Prefixes],
        Action::AddArray => &[Shape::Expr, Shape::Place, Shape::Prefixes],
        Action::BaseCore(_) | Action::StatusCore => &[Shape::Place],
        Action::SomeBounds => &[Shape::Expr, Shape::Part],
        Action::FinishType => &[Shape::Bounds, Shape::Core, Shape::Prefixes],
        Action::AddStmt => &[Shape::Stmt, Shape::Items],
        Action::CloseBlock(_) => &[Shape::Items],
        Action::VarStmt => &[Shape::Type, Shape::Name, Shape::Place],
        Action::AssignStmt => &[Shape::Expr, Shape::Sign, Shape::Target, Shape::Place],
        Action::KeepStmt => &[Shape::Call, Shape::Target, Shape::Place],
        Action::CallStmt => &[Shape::Call, Shape::Place],
        Action::AddArm => &[Shape::Block, Shape::Expr, Shape::Arms],
        Action::SomeElse => &[Shape::Block],
        Action::IfStmt => &[Shape::Otherwise, Shape::Arms, Shape::Place],
        Action::AddClause(_) => &[Shape::Expr, Shape::Place, Shape::Clauses],
        Action::LoopStmt => &[Shape::Block, Shape::Clauses, Shape::Expr, Shape::Place],
        Action::LabelledStmt => &[
            Shape::Block,
            Shape::Clauses,
            Shape::Expr,
            Shape::Name,
            Shape::Place,
        ],
        Action::SomeLabel => &[Shape::Name],
        Action::BreakStmt | Action::ContinueStmt => &[Shape::Label, Shape::Place],
        Action::ReturnStmt => &[Shape::Part, Shape::Place],
        Action::SomeVia => &[Shape::Givens, Shape::Name],
        Action::AssertStmt => &[Shape::Via, Shape::Expr, Shape::Place],
        Action::AddField => &[Shape::Type, Shape::Name, Shape::Fields],
        Action::SomeResult => &[Shape::Type],
        Action::StatusDecl => &[Shape::Name, Shape::Place, Shape::Public],
        Action::ConstDecl => &[
            Shape::Expr,
            Shape::Type,
            Shape::Name,
            Shape::Place,
            Shape::Public,
        ],
        Action::StructDecl => &[
            Shape::Fields,
            Shape::Mark,
            Shape::Name,
            Shape::Place,
            Shape::Public,
        ],
        Action::MethodDecl => &[
            Shape::Block,
            Shape::Result,
            Shape::Fields,
            Shape::Mark,
            Shape::Name,
            Shape::Name,
            Shape::Place,
            Shape::Public,
        ],
    }
}
