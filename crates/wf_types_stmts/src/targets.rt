// What is written to.

ghost use Rattle.std.specs.Prelude.{◌≡◌, ◌<◌, length, IfOk, OnOk};
ghost use Rattle.wf_named.specs.NamedParts.{exprs_of, NamedTargetBelow};
ghost use Rattle.wf_named.specs.NamedTree as tree;
ghost use Rattle.wf_named.specs.NamedTrees.{expr_at, target_at};
ghost use Rattle.wf_types_rules.specs.ExprTypes.{meaning};
ghost use Rattle.wf_types_rules.specs.Judgements as judgements;
ghost use Rattle.wf_types_rules.specs.Judgements.{is_no_target_of as no_target_of, is_field as field_named, target_meaning, target_value, fails};
ghost use Rattle.wf_types_rules.specs.Meanings.{is_value as means_value};
ghost use Rattle.wf_types_rules.specs.Parts as parts;
ghost use Rattle.wf_types_rules.specs.Parts.{target_parts, expr_parts};
ghost use Rattle.wf_types_exprs.specs.Judged.{judged};
ghost use Rattle.wf_types_stmts.specs.Statements.{target_found as found_at_target};

use wf_ast::ExprId;
use wf_named::{NamedPath, NamedTarget, Variable};
use wf_text::Place;
use wf_text::faults::NoMemory;
use wf_text::found::Found;
use wf_text::rules::Rule;
use wf_types_exprs::Here;
use wf_types_exprs::parts::{base_value, judged_index};
use wf_types_exprs::walk::judge_value;
use wf_types_meanings::marks::is_pure;
use wf_types_meanings::places::at_if;
use wf_types_meanings::variables::variable;
use wf_types_operators::meanings::is_value;
use wf_types_rules::{Around, Meaning, PlacedMeaning};

fn is_no_value(of: Option<Meaning>) -> bool
    ensures { result ≡ fails means_value of }
{
    match of {
        Some(m) => !is_value(m),
        None => false,
    }
}

/// Whether nothing may be written to a variable: a constant, an argument, a whole array or a struct.
pub(crate) fn is_no_target_of(around: &Around<'_>, of: Variable) -> bool
    ensures { result ≡ no_target_of around.now of }
{
    match of {
        Variable::Const(_) => true,
        Variable::Arg(_) => true,
        Variable::Local(_) => is_no_value(variable(around, of)),
        Variable::Field(_) => is_no_value(variable(around, of)),
    }
}

fn is_field(of: Variable) -> bool
    ensures { result ≡ field_named of }
{
    match of {
        Variable::Field(_) => true,
        Variable::Const(_) => false,
        Variable::Arg(_) => false,
        Variable::Local(_) => false,
    }
}

fn wrong_target(around: &Around<'_>, target: NamedTarget) -> Option<Place>
    ensures { (es : _) → result ≡ judgements.wrong_target around.now (parts.target (target_at es target)) }
{
    match target {
        NamedTarget::Path(path) => at_if(is_no_target_of(around, path.of), path.at),
        NamedTarget::Element { .. } => None,
    }
}

fn impure_write(around: &Around<'_>, target: NamedTarget) -> Option<Place>
    ensures { (es : _) → result ≡ judgements.impure_write around.now (parts.target (target_at es target)) }
{
    match target {
        NamedTarget::Path(path) => at_if(is_field(path.of) && is_pure(around.mark()), path.at),
        NamedTarget::Element { at, .. } => at_if(is_pure(around.mark()), at),
    }
}

// Tells what a target breaks, whatever the index of an element breaks.
fn tell_target(found: &mut Found, around: &Around<'_>, target: NamedTarget)
    ensures { (es : _) → found.new ≡ found_at_target around.now (target_at es target) found.old }
{
    found.tell(Rule::T2, wrong_target(around, target));
    found.tell(Rule::E1, impure_write(around, target));
}

// What a path means as a target.
fn path_written(around: &Around<'_>, path: NamedPath) -> Option<Meaning>
    ensures { result ≡ target_meaning around.now (tree.to_path path) }
{
    if is_no_target_of(around, path.of) {
        None
    } else {
        variable(around, path.of)
    }
}

/// A path as a target.
pub(crate) fn judged_path(found: &mut Found, around: &Around<'_>, path: NamedPath) -> PlacedMeaning
    ensures found { found.new ≡ judged around.now found.old (target_parts (tree.to_path path)) }
    ensures value { result ≡ target_value around.now (tree.to_path path) }
{
    tell_target(found, around, NamedTarget::Path(path));
    PlacedMeaning {
        of: path_written(around, path),
        at: path.at,
    }
}

// An element, as an expression.
fn judge_element(
    here: &Here<'_>,
    found: &mut Found,
    base: NamedPath,
    index: ExprId,
) -> Result<Option<Meaning>, NoMemory>
    requires { index.0 < length here.now.nodes.now.exprs }
    ensures found { (at : _) → OnOk result (found.new ≡ judged here.now.around.now found.old (expr_parts (tree.index base (expr_at (exprs_of here.now.nodes.now) index) at))) }
    ensures of { (at : _) → IfOk result (λ m. m ≡ meaning here.now.around.now (tree.index base (expr_at (exprs_of here.now.nodes.now) index) at)) }
{
    let array = base_value(here.around, base);
    let v = judge_value(here, found, index)?;
    Ok(judged_index(found, array, v))
}

/// A target.
pub(crate) fn judge_target(
    here: &Here<'_>,
    found: &mut Found,
    target: NamedTarget,
) -> Result<PlacedMeaning, NoMemory>
    requires { NamedTargetBelow (length here.now.nodes.now.exprs) target }
    ensures found { OnOk result (found.new ≡ judged here.now.around.now found.old (target_parts (target_at (exprs_of here.now.nodes.now) target))) }
    ensures value { IfOk result (λ v. v ≡ target_value here.now.around.now (target_at (exprs_of here.now.nodes.now) target)) }
{
    match target {
        NamedTarget::Path(path) => Ok(judged_path(found, here.around, path)),
        NamedTarget::Element { base, index, at } => {
            tell_target(found, here.around, NamedTarget::Element { base, index, at });
            let of = judge_element(here, found, base, index)?;
            Ok(PlacedMeaning { of, at })
        }
    }
}
