// What is read of the nodes of expressions: their places, paths, and names that are no constants.

ghost use Rattle.std.specs.Prelude.{◌≡◌, ◌<◌, length};
ghost use Rattle.wf_ast.specs.ParsedParts.{LinksBelow};
ghost use Rattle.wf_named.specs.NamedParts.{exprs_of};
ghost use Rattle.wf_named.specs.NamedTrees.{expr_at, links_at};
ghost use Rattle.wf_types_rules.specs.Meanings.{place_of as place};
ghost use Rattle.wf_types_rules.specs.Judgements.{is_constant_name as constant_name, names_others as other_names, links_name_others};
ghost use Rattle.wf_types_exprs.specs.Paths.{path_in};

use wf_ast::ExprId;
use wf_ast::parsed::Link;
use wf_named::{NamedExpr, NamedNodes, NamedPath, Variable};
use wf_text::Place;

/// The place of an expression.
pub fn place_of(nodes: &NamedNodes, e: ExprId) -> Place
    requires { e.0 < length nodes.now.exprs }
    ensures { result ≡ place (expr_at (exprs_of nodes.now) e) }
{
    let node = nodes.expr(e);
    match &node.expr {
        NamedExpr::Path(path) => path.at,
        NamedExpr::Call(call) => call.at,
        NamedExpr::Number(_) => node.at,
        NamedExpr::Status(_) => node.at,
        NamedExpr::Truth(_) => node.at,
        NamedExpr::Index { .. } => node.at,
        NamedExpr::Slice { .. } => node.at,
        NamedExpr::Chain { .. } => node.at,
        NamedExpr::Convert { .. } => node.at,
        NamedExpr::Not(_) => node.at,
    }
}

/// The path that an expression is, if it is one.
pub fn as_path(nodes: &NamedNodes, e: ExprId) -> Option<NamedPath>
    requires { e.0 < length nodes.now.exprs }
    ensures { result ≡ path_in (expr_at (exprs_of nodes.now) e) }
{
    let node = nodes.expr(e);
    match &node.expr {
        NamedExpr::Path(path) => Some(*path),
        NamedExpr::Call(_) => None,
        NamedExpr::Number(_) => None,
        NamedExpr::Status(_) => None,
        NamedExpr::Truth(_) => None,
        NamedExpr::Index { .. } => None,
        NamedExpr::Slice { .. } => None,
        NamedExpr::Chain { .. } => None,
        NamedExpr::Convert { .. } => None,
        NamedExpr::Not(_) => None,
    }
}

fn is_constant_name(of: Variable) -> bool
    ensures { result ≡ constant_name of }
{
    match of {
        Variable::Const(_) => true,
        Variable::Local(_) => false,
        Variable::Field(_) => false,
        Variable::Arg(_) => false,
    }
}

/// Whether an expression names anything but constants, or isn't made of operators, literals and names alone.
#[cycle(names_others)]
pub(crate) fn names_others(nodes: &NamedNodes, e: ExprId) -> bool
    requires { e.0 < length nodes.now.exprs }
    ensures { result ≡ other_names (expr_at (exprs_of nodes.now) e) }
{
    let node = nodes.expr(e);
    match &node.expr {
        NamedExpr::Path(path) => !is_constant_name(path.of),
        NamedExpr::Index { .. } => true,
        NamedExpr::Slice { .. } => true,
        NamedExpr::Call(_) => true,
        NamedExpr::Chain { first, links, .. } => {
            names_others(nodes, *first) || links_others(nodes, links.as_slice())
        }
        NamedExpr::Convert { of, .. } => names_others(nodes, *of),
        NamedExpr::Not(of) => names_others(nodes, *of),
        NamedExpr::Number(_) => false,
        NamedExpr::Status(_) => false,
        NamedExpr::Truth(_) => false,
    }
}

#[cycle(names_others)]
fn links_others(nodes: &NamedNodes, links: &[Link]) -> bool
    requires { LinksBelow (length nodes.now.exprs) links.now }
    ensures { result ≡ links_name_others (links_at (exprs_of nodes.now) links.now) }
{
    for link in links {
        if names_others(nodes, link.operand) {
            return true;
        }
    }
    false
}
