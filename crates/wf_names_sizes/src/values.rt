// The values of constant expressions.

ghost use Rattle.std.specs.Prelude.{◌≡◌, ◌<◌, length};
ghost use Rattle.wf_ast.specs.declared.parsed.Root.TheVariants.{Bare};
ghost use Rattle.wf_ast.specs.ParsedTrees.{expr_trees, expr_at, links_at, type_at};
ghost use Rattle.wf_ast.specs.ParsedParts.{LinksBelow};
ghost use Rattle.wf_names_rules.specs.Declarations.{bytes_of};
ghost use Rattle.wf_names_rules.specs.Meanings.{width_of};
ghost use Rattle.wf_names_rules.specs.ConstantValues.{started as start_of, converted as converts, ended as end_of};
ghost use Rattle.wf_names_sizes.specs.Capped.{sized};
ghost use Rattle.wf_names_sizes.specs.ValuesBy.{hides, constant_by, plain_by, value_in, links_by};

use crate::chains::{ended, run, started};
use crate::environment::Environment;
use crate::numbers::{ConstantValue, fitted};
use wf_ast::operators::Op;
use wf_ast::parsed::{Expr, Link, Path, Root, TypeExpr};
use wf_ast::{ExprId, PackageNodes, TextId};
use wf_base::widths::Width;
use wf_names_rules::tables::Variables;
use wf_names_rules::types::width;

/// The width of a type that is numeric, refined or not.
pub(crate) fn numeric_width(parsed: &PackageNodes, of: &TypeExpr) -> Option<Width>
    ensures { (es : _) → result ≡ width_of (bytes_of parsed.now.texts) (type_at es of.now) }
{
    match of.prefixes.as_slice() {
        [] => width(parsed, of.core),
        _ => None,
    }
}

// The width of a numeric type without bounds.
fn plain_width(parsed: &PackageNodes, of: &TypeExpr) -> Option<Width>
    ensures { (es : _) → result ≡ plain_by (bytes_of parsed.now.texts) (type_at es of.now) }
{
    match of.bounds {
        Some(_) => None,
        None => numeric_width(parsed, of),
    }
}

// Whether a local hides a name.
fn is_hidden(locals: Option<&Variables>, name: TextId) -> bool
    ensures { result ≡ hides locals.entry name.0 }
{
    match locals {
        Some(locals) => locals.entries.contains_key(&name.0),
        None => false,
    }
}

// The value of a constant, where no local hides it.
fn constant(env: &Environment<'_>, name: TextId) -> Option<ConstantValue>
    ensures { sized result ≡ constant_by env.now Bare name.0 }
{
    if is_hidden(env.locals, name) {
        return None;
    }
    let value = env.constants.get(&name.0)?;
    *value
}

// The value of a path.
fn path_value(env: &Environment<'_>, path: Path) -> Option<ConstantValue>
    ensures { sized result ≡ constant_by env.now path.root path.name.text.0 }
{
    match path.root {
        Root::Bare => constant(env, path.name.text),
        Root::This => None,
        Root::Args => None,
    }
}

fn converted(width: Option<Width>, of: Option<ConstantValue>) -> Option<ConstantValue>
    ensures { sized result ≡ converts width (sized of) }
{
    match (width, of) {
        (Some(width), Some(of)) => fitted(Some(width), of.number),
        (Some(_), None) => None,
        (None, _) => None,
    }
}

/// The value of an expression in an environment. None where it isn't constant, or breaks a rule of values.
#[cycle(values)]
pub(crate) fn value(env: &Environment<'_>, e: ExprId) -> Option<ConstantValue>
    requires { e.0 < length env.now.parsed.now.exprs }
    ensures { sized result ≡ value_in env.now (expr_at (expr_trees env.now.parsed.now.exprs) e) }
{
    let node = env.parsed.expr(e);
    match &node.expr {
        Expr::Number(number) => fitted(None, *number),
        Expr::Path(path) => path_value(env, *path),
        Expr::Chain { op, first, links } => {
            let first = value(env, *first);
            chain_value(env, *op, first, links.as_slice())
        }
        Expr::Convert { of, to } => converted(plain_width(env.parsed, to), value(env, *of)),
        Expr::OwnStatus(_) => None,
        Expr::BaseStatus(_) => None,
        Expr::Fine => None,
        Expr::Truth(_) => None,
        Expr::Index { .. } => None,
        Expr::Slice { .. } => None,
        Expr::Call(_) => None,
        Expr::Not(_) => None,
    }
}

// The value of a chain whose first operand has this one.
#[cycle(values)]
fn chain_value(
    env: &Environment<'_>,
    op: Op,
    first: Option<ConstantValue>,
    links: &[Link],
) -> Option<ConstantValue>
    requires { LinksBelow (length env.now.parsed.now.exprs) links.now }
    ensures { sized result ≡ end_of (links_by (bytes_of env.now.parsed.now.texts) (constant_by env.now) op (start_of (sized first)) (links_at (expr_trees env.now.parsed.now.exprs) links.now)) }
{
    let mut chain = started(first);
    for link in links {
        chain = run(op, chain, value(env, link.operand));
    }
    ended(chain)
}
