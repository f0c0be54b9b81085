// Statements with no block in them: what each makes.

ghost use Rattle.std.specs.Prelude.{◌≡◌, true, length, IfOk, OnOk};
ghost use Rattle.wf_ast.specs.ParsedTrees.{expr_trees, stmt_made as parsed_stmt_made};
ghost use Rattle.wf_ast.specs.ParsedParts.{StmtParts};
ghost use Rattle.wf_named.specs.NamedParts.{exprs_of, stmts_of};
ghost use Rattle.wf_names_resolve.specs.Standing.{standing_here};
ghost use Rattle.wf_names_resolve.specs.Resolved.{resolved_stmt};
ghost use Rattle.wf_names_resolve.specs.Growth.{Grows};
ghost use Rattle.wf_names_resolve.specs.Statements.{is_simple, made_in, PartsBelow};

use crate::resolve_exprs::{resolve_call, resolve_expr, resolve_part};
use crate::stmt_parts::{outwards, resolve_assign, resolve_keep};
use crate::words::resolve_assert;
use std::alloc::Global;
use wf_ast::parsed::{Name, Stmt};
use wf_named::{NamedNodes, NamedStmt};
use wf_names_rules::here::Here;
use wf_text::faults::NoMemory;

/// Adds the nodes of a statement's parts and answers what it makes, None where it declares a local. `labels` are those
/// of the loops round it, the outermost first.
pub(crate) fn resolve_simple(
    alloc: Global,
    nodes: &mut NamedNodes,
    here: &Here<'_>,
    labels: &[Option<Name>],
    stmt: &Stmt,
) -> Result<Option<NamedStmt>, NoMemory>
    requires simple { is_simple stmt.now ≡ true }
    requires parts { StmtParts (length here.now.parsed.now.exprs) (length here.now.parsed.now.stmts) stmt.now }
    ensures grows { OnOk result (Grows nodes.old nodes.new) }
    ensures below { IfOk result (λ r. PartsBelow (length nodes.new.texts) (length nodes.new.exprs) (length nodes.new.stmts) r) }
    ensures made { IfOk result (λ r. (ts : _) (at : _) → made_in nodes.new.texts (exprs_of nodes.new) (stmts_of nodes.new) r at ≡ resolved_stmt (standing_here here.now) labels.now (parsed_stmt_made (expr_trees here.now.parsed.now.exprs) ts stmt.now at)) }
{
    match stmt {
        Stmt::Var { .. } => Ok(None),
        Stmt::Assign {
            target,
            op,
            sign,
            value,
        } => {
            let (target, value) = resolve_assign(alloc, nodes, here, *target, *value)?;
            Ok(Some(NamedStmt::Assign {
                target,
                op: *op,
                sign: *sign,
                value,
            }))
        }
        Stmt::Keep { target, call } => {
            let (target, call) = resolve_keep(alloc, nodes, here, *target, call)?;
            Ok(Some(NamedStmt::Keep { target, call }))
        }
        Stmt::Call(call) => {
            let call = resolve_call(alloc, nodes, here, call)?;
            Ok(Some(NamedStmt::Call(call)))
        }
        Stmt::Break(label) => {
            let count = outwards(labels, *label)?;
            Ok(Some(NamedStmt::Break(count)))
        }
        Stmt::Continue(label) => {
            let count = outwards(labels, *label)?;
            Ok(Some(NamedStmt::Continue(count)))
        }
        Stmt::Return(value) => {
            let value = resolve_part(alloc, nodes, here, *value)?;
            Ok(Some(NamedStmt::Return(value)))
        }
        Stmt::Yield(value) => {
            let value = resolve_expr(alloc, nodes, here, *value)?;
            Ok(Some(NamedStmt::Yield(value)))
        }
        Stmt::Assert { goal, via } => {
            let (goal, via) = resolve_assert(alloc, nodes, here, *goal, via)?;
            Ok(Some(NamedStmt::Assert { goal, via }))
        }
        _ => unreachable!(),
    }
}
