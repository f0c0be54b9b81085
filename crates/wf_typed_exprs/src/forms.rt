// The node of each form of expression, by the nodes of its parts and what these mean.

ghost use Rattle.std.specs.Prelude.{◌≡◌, [], None};
ghost use Rattle.wf_named.specs.NamedTrees.{core_at, type_at};
ghost use Rattle.wf_types_rules.specs.Meanings.{variable as variable_in};
ghost use Rattle.wf_types_rules.specs.ExprTypes.{plain_width as width_written};
ghost use Rattle.wf_typed_tree.specs.ElaboratedExprs.{type_meant as type_of_meaning};
ghost use Rattle.wf_typed_tree.specs.ElaboratedStmts.{unrefined as without_bounds};
ghost use Rattle.wf_typed_exprs.specs.Forms.{naming, node_of as node_in, value_of as value_in};

use crate::elaborated::{Elaborated, MadeNode};
use std::alloc::Global;
use wf_ast::{Expr, ExprId, ExprNode, Sequence, Ty};
use wf_base::Width;
use wf_named::{BaseType, NamedCore, NamedPath, NamedType, Variable};
use wf_text::Place;
use wf_types_meanings::variables::variable;
use wf_types_operators::meanings::all_of;
use wf_types_rules::{Around, Meaning, PlacedMeaning};

/// The type of what means this. A constant has all numbers of its width, and 64 bits where it has none.
pub fn type_meant(of: Option<Meaning>) -> Ty
    ensures { result ≡ type_of_meaning of }
{
    match of {
        Some(Meaning::Typed(ty)) => ty,
        Some(
            Meaning::Constant {
                width: Some(width),
                ..
            },
        ) => all_of(width),
        Some(Meaning::Constant { width: None, .. }) => all_of(Width::W64),
        None => Ty::Flag,
    }
}

/// All numbers of a type's width; a type of no numbers stays.
pub fn unrefined(ty: Ty) -> Ty
    ensures { result ≡ without_bounds ty }
{
    match ty {
        Ty::Num { width, .. } => all_of(width),
        _ => ty,
    }
}

/// The node of an expression without signs.
pub(crate) fn unsigned(alloc: Global, expr: Expr, at: Place) -> ExprNode
    ensures { result ≡ record { expr = expr; at = at; signs = [] } }
{
    ExprNode {
        expr,
        at,
        signs: Sequence::new(alloc),
    }
}

fn expr_naming(of: Variable) -> Expr
    ensures { result ≡ naming of }
{
    match of {
        Variable::Const(c) => Expr::Const(c),
        Variable::Local(x) => Expr::Local(x),
        Variable::Field(x) => Expr::Field(x),
        Variable::Arg(x) => Expr::Arg(x),
    }
}

/// The node of a path.
pub(crate) fn path_node(alloc: Global, around: &Around<'_>, path: NamedPath) -> MadeNode
    ensures { result ≡ record { node = record { expr = naming path.of; at = path.at; signs = [] }; of = variable_in around.now path.of } }
{
    MadeNode {
        node: unsigned(alloc, expr_naming(path.of), path.at),
        of: variable(around, path.of),
    }
}

/// What an end of a slice means, where it is there.
pub(crate) fn value_of(end: Option<Elaborated>) -> Option<PlacedMeaning>
    ensures { result ≡ value_in end }
{
    Some(end?.value)
}

/// The number of the node of an end that may be absent.
pub(crate) fn node_of(end: Option<Elaborated>) -> Option<ExprId>
    ensures { result ≡ node_in end }
{
    Some(end?.node)
}

fn core_width(core: NamedCore) -> Option<Width>
    ensures { (ts : _) → result ≡ width_written (core_at ts core None) }
{
    match core {
        NamedCore::Base {
            of: Some(BaseType::Number(width)),
            ..
        } => Some(width),
        _ => None,
    }
}

/// The width of a numeric type without bounds.
pub(crate) fn plain_width(of: &NamedType) -> Option<Width>
    ensures { (ts : _) → result ≡ width_written (type_at ts of.now) }
{
    match of.bounds {
        Some(_) => None,
        None => {
            if of.prefixes.as_slice().is_empty() {
                core_width(of.core)
            } else {
                None
            }
        }
    }
}
