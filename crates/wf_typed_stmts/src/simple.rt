// A statement without a block, whichever it is: assignments and the others.

ghost use Rattle.std.specs.Prelude.{◌≡◌, true, length, IfOk, OnOk};
ghost use Rattle.wf_named.specs.NamedParts.{exprs_of, stmts_of, named_package, NamedStmtParts};
ghost use Rattle.wf_named.specs.NamedTrees.{stmt_made};
ghost use Rattle.wf_typed_tree.specs.Entries.{stmt_entries};
ghost use Rattle.wf_typed_exprs.specs.Growth.{AddsEntries};
ghost use Rattle.wf_typed_stmts.specs.Blocks.{is_simple};
ghost use Rattle.wf_typed_stmts.specs.Right.{known_in, IsRightStmt};
ghost use Rattle.wf_typed_stmts.specs.StmtGrowth.{IsBegun, GrowsExprs, MakesStmt};

use crate::assignments::{Assignment, add_assign, add_keep};
use crate::building::BodyBuilding;
use crate::simple_stmts::{add_claim, add_do_call, add_return, loop_number, yield_node};
use wf_ast::{Stmt, StmtNode};
use wf_named::NamedStmt;
use wf_text::Place;
use wf_text::faults::NoMemory;
use wf_types_exprs::Here;

/// Adds the nodes of a statement's parts, and answers the statement. `loops` are the numbers of the loops round it, the
/// innermost first, and `at` is its place.
pub(crate) fn add_simple(
    here: &Here<'_>,
    nodes: &mut BodyBuilding,
    loops: &[u32],
    stmt: &NamedStmt,
    at: Place,
) -> Result<StmtNode, NoMemory>
    requires simple { is_simple stmt.now ≡ true }
    requires below { NamedStmtParts (length here.now.nodes.now.texts) (length here.now.nodes.now.exprs) (length here.now.nodes.now.stmts) stmt.now }
    requires begun { IsBegun here.now.nodes.now nodes.old }
    requires right { IsRightStmt here.now.around.now (known_in (named_package here.now.nodes.now)) (length loops.now) (stmt_made here.now.nodes.now.texts (exprs_of here.now.nodes.now) (stmts_of here.now.nodes.now) stmt.now at) }
    ensures grows { OnOk result (GrowsExprs nodes.old nodes.new) }
    ensures entries { OnOk result (AddsEntries nodes.old nodes.new (stmt_entries here.now.around.now (stmt_made here.now.nodes.now.texts (exprs_of here.now.nodes.now) (stmts_of here.now.nodes.now) stmt.now at))) }
    ensures begun { OnOk result (IsBegun here.now.nodes.now nodes.new) }
    ensures made { IfOk result (λ n. MakesStmt here.now.around.now loops.now (length nodes.old.stmts) (stmt_made here.now.nodes.now.texts (exprs_of here.now.nodes.now) (stmts_of here.now.nodes.now) stmt.now at) nodes.new n) }
{
    match stmt {
        NamedStmt::Assign {
            target,
            op,
            sign,
            value,
        } => {
            let it = Assignment {
                target: *target,
                op: *op,
                sign: *sign,
                value: *value,
                at,
            };
            add_assign(here, nodes, it)
        }
        NamedStmt::Keep { target, call } => { add_keep(here, nodes, *target, call, at) }
        NamedStmt::Call(call) => add_do_call(here, nodes, call, at),
        NamedStmt::Break(outwards) => Ok(StmtNode {
            stmt: Stmt::Break(loop_number(loops, *outwards)),
            at,
            inner: at,
        }),
        NamedStmt::Continue(outwards) => Ok(StmtNode {
            stmt: Stmt::Continue(loop_number(loops, *outwards)),
            at,
            inner: at,
        }),
        NamedStmt::Return(value) => add_return(here, nodes, *value, at),
        NamedStmt::Yield(value) => Ok(yield_node(nodes, here.nodes, *value, at)),
        NamedStmt::Assert { goal, via } => { add_claim(here, nodes, *goal, via, at) }
        NamedStmt::If { .. } | NamedStmt::While { .. } => unreachable!(),
    }
}
