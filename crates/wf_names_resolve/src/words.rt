// Names that keep their texts: the axiom of an assertion and its letters, with what is given for these.

ghost use Rattle.std.specs.Prelude.{◌≡◌, ◌<◌, Some, length, IfOk, OnOk};
ghost use Rattle.wf_ast.specs.ParsedTrees.{expr_trees, expr_at as parsed_expr_at, via_at as parsed_via_at};
ghost use Rattle.wf_ast.specs.ParsedParts.{GivenBelow, ViaBelow};
ghost use Rattle.wf_named.specs.NamedParts.{exprs_of, LettersBelow, AxiomBelow};
ghost use Rattle.wf_named.specs.NamedTrees.{expr_at, letters_at, via_at, word_at};
ghost use Rattle.wf_names_rules.specs.Declarations.{bytes_of};
ghost use Rattle.wf_names_resolve.specs.Standing.{standing_here};
ghost use Rattle.wf_names_resolve.specs.Resolved.{resolved_expr, resolved_via, word_of};
ghost use Rattle.wf_names_resolve.specs.Ordered.{given_trees};
ghost use Rattle.wf_names_resolve.specs.Growth.{Grows};
ghost use Rattle.wf_names_resolve.specs.Letters.{letters_by};

use crate::resolve_exprs::{resolve_expr, resolve_given};
use std::alloc::Global;
use wf_ast::parsed::{Given, Name, Via};
use wf_ast::{ExprId, PackageNodes, Sequence};
use wf_named::NamedNodes;
use wf_names_rules::here::Here;
use wf_names_rules::tables::text_bytes;
use wf_text::faults::NoMemory;

/// A name whose text is one of the resolved package, which it joins where it isn't.
pub fn named_word(
    nodes: &mut NamedNodes,
    parsed: &PackageNodes,
    name: Name,
) -> Result<Name, NoMemory>
    ensures grows { OnOk result (Grows nodes.old nodes.new) }
    ensures below { IfOk result (λ r. r.text.0 < length nodes.new.texts) }
    ensures made { IfOk result (λ r. word_at nodes.new.texts r ≡ word_of (bytes_of parsed.now.texts) name) }
{
    let text = nodes.intern(text_bytes(parsed, name.text))?;
    Ok(Name { text, at: name.at })
}

fn named_letters(
    alloc: Global,
    nodes: &mut NamedNodes,
    parsed: &PackageNodes,
    given: &[Given],
) -> Result<Sequence<Given>, NoMemory>
    requires { GivenBelow (length nodes.old.exprs) given.now }
    ensures grows { OnOk result (Grows nodes.old nodes.new) }
    ensures below { IfOk result (λ r. LettersBelow (length nodes.new.texts) (length nodes.new.exprs) r) }
    ensures made { IfOk result (λ r. letters_at nodes.new.texts (exprs_of nodes.new) r ≡ letters_by (bytes_of parsed.now.texts) (given_trees (exprs_of nodes.old) given.now)) }
{
    let mut made = Sequence::new(alloc);
    for one in given {
        let name = named_word(nodes, parsed, one.name)?;
        made.push(Given {
            name,
            value: one.value,
        })?;
    }
    Ok(made)
}

// An axiom with what is given, whose values are added.
fn finish_via(
    alloc: Global,
    nodes: &mut NamedNodes,
    parsed: &PackageNodes,
    name: Name,
    given: &Sequence<Given>,
) -> Result<Via, NoMemory>
    requires { GivenBelow (length nodes.old.exprs) given.now }
    ensures grows { OnOk result (Grows nodes.old nodes.new) }
    ensures below { IfOk result (λ r. (r.axiom.text.0 < length nodes.new.texts) × LettersBelow (length nodes.new.texts) (length nodes.new.exprs) r.given) }
    ensures word { IfOk result (λ r. word_at nodes.new.texts r.axiom ≡ word_of (bytes_of parsed.now.texts) name) }
    ensures given { IfOk result (λ r. letters_at nodes.new.texts (exprs_of nodes.new) r.given ≡ letters_by (bytes_of parsed.now.texts) (given_trees (exprs_of nodes.old) given.now)) }
{
    let given = named_letters(alloc, nodes, parsed, given.as_slice())?;
    let name = named_word(nodes, parsed, name)?;
    Ok(Via { axiom: name, given })
}

// Adds the nodes of what is given to an axiom, and answers it.
fn resolve_named(
    alloc: Global,
    nodes: &mut NamedNodes,
    here: &Here<'_>,
    via: &Via,
) -> Result<Option<Via>, NoMemory>
    requires { GivenBelow (length here.now.parsed.now.exprs) via.now.given }
    ensures grows { OnOk result (Grows nodes.old nodes.new) }
    ensures below { IfOk result (λ r. AxiomBelow (length nodes.new.texts) (length nodes.new.exprs) r) }
    ensures made { IfOk result (λ r. via_at nodes.new.texts (exprs_of nodes.new) r ≡ resolved_via (standing_here here.now) (parsed_via_at (expr_trees here.now.parsed.now.exprs) (Some via.now))) }
{
    let given = resolve_given(alloc, nodes, here, via.given.as_slice())?;
    let via = finish_via(alloc, nodes, here.parsed, via.axiom, &given)?;
    Ok(Some(via))
}

/// Adds the nodes of what is given to an axiom, if an assertion names one, and answers it.
pub(crate) fn resolve_via(
    alloc: Global,
    nodes: &mut NamedNodes,
    here: &Here<'_>,
    via: &Option<Via>,
) -> Result<Option<Via>, NoMemory>
    requires { ViaBelow (length here.now.parsed.now.exprs) via.now }
    ensures grows { OnOk result (Grows nodes.old nodes.new) }
    ensures below { IfOk result (λ r. AxiomBelow (length nodes.new.texts) (length nodes.new.exprs) r) }
    ensures made { IfOk result (λ r. via_at nodes.new.texts (exprs_of nodes.new) r ≡ resolved_via (standing_here here.now) (parsed_via_at (expr_trees here.now.parsed.now.exprs) via.now)) }
{
    match via {
        Some(via) => resolve_named(alloc, nodes, here, via),
        None => Ok(None),
    }
}

/// Adds the nodes of an assertion's goal and of what is given to its axiom, and answers both.
pub(crate) fn resolve_assert(
    alloc: Global,
    nodes: &mut NamedNodes,
    here: &Here<'_>,
    goal: ExprId,
    via: &Option<Via>,
) -> Result<(ExprId, Option<Via>), NoMemory>
    requires goal { goal.0 < length here.now.parsed.now.exprs }
    requires via { ViaBelow (length here.now.parsed.now.exprs) via.now }
    ensures grows { OnOk result (Grows nodes.old nodes.new) }
    ensures below { IfOk result (λ r. (r.0.0 < length nodes.new.exprs) × AxiomBelow (length nodes.new.texts) (length nodes.new.exprs) r.1) }
    ensures goal { IfOk result (λ r. expr_at (exprs_of nodes.new) r.0 ≡ resolved_expr (standing_here here.now) (parsed_expr_at (expr_trees here.now.parsed.now.exprs) goal)) }
    ensures via { IfOk result (λ r. via_at nodes.new.texts (exprs_of nodes.new) r.1 ≡ resolved_via (standing_here here.now) (parsed_via_at (expr_trees here.now.parsed.now.exprs) via.now)) }
{
    let goal = resolve_expr(alloc, nodes, here, goal)?;
    let via = resolve_via(alloc, nodes, here, via)?;
    Ok((goal, via))
}
