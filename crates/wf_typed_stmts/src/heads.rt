// Conditions: the promises of a loop, and what is given for the letters of an axiom.

ghost use Rattle.std.specs.Prelude.{◌<◌, length, IfOk, OnOk, ◌++◌};
ghost use Rattle.std.specs.List.{AllByRecursion};
ghost use Rattle.wf_ast.specs.ParsedParts.{BlockBelow};
ghost use Rattle.wf_named.specs.NamedParts.{exprs_of, stmts_of, named_package, LettersBelow, AxiomBelow};
ghost use Rattle.wf_named.specs.NamedTrees.{expr_at, clauses_at, letters_at, via_at, block_at};
ghost use Rattle.wf_typed_tree.specs.ElaboratedExprs.{expr_tree};
ghost use Rattle.wf_typed_exprs.specs.Right.{IsRight};
ghost use Rattle.wf_typed_tree.specs.Entries.{expr_entries, clause_entries, letter_entries, via_entries};
ghost use Rattle.wf_typed_exprs.specs.Growth.{AddsEntries};
ghost use Rattle.wf_typed_stmts.specs.Parts.{HasTree, StandForClauses, StandForLetters, StandsForVia, StandsForHead};
ghost use Rattle.wf_typed_stmts.specs.Right.{known_in, AreRightClauses, AreRightLetters, IsRightVia};
ghost use Rattle.wf_typed_stmts.specs.StmtGrowth.{IsBegun, GrowsExprs};

use crate::building::BodyBuilding;
use wf_ast::parsed::{Block, Given, LoopClause, Via};
use wf_ast::{AxiomRef, Clause, ExprId, LoopHead, Sequence, TextId};
use wf_text::faults::NoMemory;
use wf_types_exprs::Here;
use wf_types_stmts::ends::block_leaves;

/// Adds the nodes of a condition, or of another expression of which the tree alone is wanted.
pub(crate) fn add_tree(
    here: &Here<'_>,
    nodes: &mut BodyBuilding,
    e: ExprId,
) -> Result<ExprId, NoMemory>
    requires there { e.0 < length here.now.nodes.now.exprs }
    requires begun { IsBegun here.now.nodes.now nodes.old }
    requires right { IsRight here.now.around.now (known_in (named_package here.now.nodes.now)).statuses (expr_at (exprs_of here.now.nodes.now) e) }
    ensures grows { OnOk result (GrowsExprs nodes.old nodes.new) }
    ensures entries { OnOk result (AddsEntries nodes.old nodes.new (expr_entries here.now.around.now (expr_at (exprs_of here.now.nodes.now) e))) }
    ensures begun { OnOk result (IsBegun here.now.nodes.now nodes.new) }
    ensures made { IfOk result (λ r. HasTree (expr_tree here.now.around.now (expr_at (exprs_of here.now.nodes.now) e)) nodes.new r) }
{
    let made = nodes.push_value(here, e)?;
    Ok(made.node)
}

// Adds the nodes of a loop's promises, in order.
fn add_clauses(
    here: &Here<'_>,
    nodes: &mut BodyBuilding,
    clauses: &[LoopClause],
) -> Result<Sequence<(Clause, ExprId)>, NoMemory>
    requires below { AllByRecursion (λ c. c.condition.0 < length here.now.nodes.now.exprs) clauses.now }
    requires begun { IsBegun here.now.nodes.now nodes.old }
    requires right { AreRightClauses here.now.around.now (known_in (named_package here.now.nodes.now)) (clauses_at (exprs_of here.now.nodes.now) clauses.now) }
    ensures grows { OnOk result (GrowsExprs nodes.old nodes.new) }
    ensures entries { OnOk result (AddsEntries nodes.old nodes.new (clause_entries here.now.around.now (clauses_at (exprs_of here.now.nodes.now) clauses.now))) }
    ensures begun { OnOk result (IsBegun here.now.nodes.now nodes.new) }
    ensures made { IfOk result (λ r. StandForClauses here.now.around.now (clauses_at (exprs_of here.now.nodes.now) clauses.now) nodes.new r) }
{
    let mut made = Sequence::new(here.alloc);
    for clause in clauses {
        let e = add_tree(here, nodes, clause.condition)?;
        made.push((clause.kind, e))?;
    }
    Ok(made)
}

/// Adds the nodes of what stands before a loop's body.
pub(crate) fn add_head(
    here: &Here<'_>,
    nodes: &mut BodyBuilding,
    condition: ExprId,
    clauses: &[LoopClause],
    body: &Block,
) -> Result<LoopHead, NoMemory>
    requires there { condition.0 < length here.now.nodes.now.exprs }
    requires below { AllByRecursion (λ c. c.condition.0 < length here.now.nodes.now.exprs) clauses.now }
    requires body { BlockBelow (length here.now.nodes.now.stmts) body.now }
    requires begun { IsBegun here.now.nodes.now nodes.old }
    requires right { IsRight here.now.around.now (known_in (named_package here.now.nodes.now)).statuses (expr_at (exprs_of here.now.nodes.now) condition) }
    requires clauses_right { AreRightClauses here.now.around.now (known_in (named_package here.now.nodes.now)) (clauses_at (exprs_of here.now.nodes.now) clauses.now) }
    ensures grows { OnOk result (GrowsExprs nodes.old nodes.new) }
    ensures entries { OnOk result (AddsEntries nodes.old nodes.new (expr_entries here.now.around.now (expr_at (exprs_of here.now.nodes.now) condition) ++ clause_entries here.now.around.now (clauses_at (exprs_of here.now.nodes.now) clauses.now))) }
    ensures begun { OnOk result (IsBegun here.now.nodes.now nodes.new) }
    ensures made { IfOk result (λ r. StandsForHead here.now.around.now (expr_at (exprs_of here.now.nodes.now) condition) (clauses_at (exprs_of here.now.nodes.now) clauses.now) (block_at (stmts_of here.now.nodes.now) body.now) body.now.close nodes.new r) }
{
    let cond = add_tree(here, nodes, condition)?;
    let clauses = add_clauses(here, nodes, clauses)?;
    Ok(LoopHead {
        cond,
        clauses,
        has_break: block_leaves(here.nodes, 0, body),
    })
}

// Adds the nodes of what is given for the letters of an axiom, in order.
fn add_letters(
    here: &Here<'_>,
    nodes: &mut BodyBuilding,
    given: &[Given],
) -> Result<Sequence<(TextId, ExprId)>, NoMemory>
    requires below { LettersBelow (length here.now.nodes.now.texts) (length here.now.nodes.now.exprs) given.now }
    requires begun { IsBegun here.now.nodes.now nodes.old }
    requires right { AreRightLetters here.now.around.now (known_in (named_package here.now.nodes.now)) (letters_at here.now.nodes.now.texts (exprs_of here.now.nodes.now) given.now) }
    ensures grows { OnOk result (GrowsExprs nodes.old nodes.new) }
    ensures entries { OnOk result (AddsEntries nodes.old nodes.new (letter_entries here.now.around.now (letters_at here.now.nodes.now.texts (exprs_of here.now.nodes.now) given.now))) }
    ensures begun { OnOk result (IsBegun here.now.nodes.now nodes.new) }
    ensures made { IfOk result (λ r. StandForLetters here.now.around.now (letters_at here.now.nodes.now.texts (exprs_of here.now.nodes.now) given.now) nodes.new r) }
{
    let mut made = Sequence::new(here.alloc);
    for one in given {
        let e = add_tree(here, nodes, one.value)?;
        made.push((one.name.text, e))?;
    }
    Ok(made)
}

/// Adds the nodes of an axiom, if one is named.
pub(crate) fn add_via(
    here: &Here<'_>,
    nodes: &mut BodyBuilding,
    via: &Option<Via>,
) -> Result<Option<AxiomRef>, NoMemory>
    requires below { AxiomBelow (length here.now.nodes.now.texts) (length here.now.nodes.now.exprs) via.now }
    requires begun { IsBegun here.now.nodes.now nodes.old }
    requires right { IsRightVia here.now.around.now (known_in (named_package here.now.nodes.now)) (via_at here.now.nodes.now.texts (exprs_of here.now.nodes.now) via.now) }
    ensures grows { OnOk result (GrowsExprs nodes.old nodes.new) }
    ensures entries { OnOk result (AddsEntries nodes.old nodes.new (via_entries here.now.around.now (via_at here.now.nodes.now.texts (exprs_of here.now.nodes.now) via.now))) }
    ensures begun { OnOk result (IsBegun here.now.nodes.now nodes.new) }
    ensures made { IfOk result (λ r. StandsForVia here.now.around.now (via_at here.now.nodes.now.texts (exprs_of here.now.nodes.now) via.now) nodes.new r) }
{
    match via {
        Some(via) => {
            let given = add_letters(here, nodes, via.given.as_slice())?;
            Ok(Some(AxiomRef {
                name: via.axiom.text,
                at: via.axiom.at,
                given,
            }))
        }
        None => Ok(None),
    }
}
