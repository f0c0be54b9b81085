// The nodes of a typed package with its statements, as they are built. A statement's parts stand before it, but for the
// loop that a jump tells.

ghost use Rattle.std.specs.Prelude.{◌≡◌, ◌<◌, ◌+◌, ◌++◌, [], ◌∷◌, true, length, IfOk, OnOk, None};
ghost use Rattle.wf_ast.specs.declared.typed_code.Expr.TheVariants as exprs;
ghost use Rattle.wf_ast.specs.TypedTrees.{operator_kind, chain_of, tree_of, stmt_made, stmt_makers, onto};
ghost use Rattle.wf_ast.specs.TypedInvariant.{chain_fits};
ghost use Rattle.wf_named.specs.NamedParts.{exprs_of, named_package};
ghost use Rattle.wf_named.specs.NamedTrees.{expr_at};
ghost use Rattle.wf_named.specs.NamedTree as tree;
ghost use Rattle.wf_types_rules.specs.Meanings.{variable as variable_in};
ghost use Rattle.wf_types_rules.specs.Judgements.{value_of};
ghost use Rattle.wf_typed_exprs.specs.Growth.{IsBuilt, AddsEntries};
ghost use Rattle.wf_typed_exprs.specs.Nodes.{StandsForExpr, StandsForPath};
ghost use Rattle.wf_typed_exprs.specs.Right.{IsRight, IsRightPath};
ghost use Rattle.wf_typed_tree.specs.Entries.{path_entry, expr_entries};
ghost use Rattle.wf_typed_stmts.specs.Right.{known_in};
ghost use Rattle.wf_typed_stmts.specs.StmtGrowth.{AreStmtsBuilt, IsBegun, GrowsExprs, GrowsStmts, stmt_there};

use crate::lists::{one, two};
use std::alloc::Global;
use std::marker::Model;
use wf_ast::{Expr, ExprId, ExprNode, Op, Sequence, StmtId, StmtNode, Ty, TypedNodes};
use wf_named::NamedPath;
use wf_text::faults::NoMemory;
use wf_text::{Place, add_last};
use wf_typed_exprs::typed_exprs::TypedExpr;
use wf_typed_exprs::walk::{elaborate_element, elaborate_expr, elaborate_path};
use wf_typed_exprs::{Building, Elaborated};
use wf_types_exprs::Here;

// How many statements a typed package may have.
const NUMBERS: usize = 4294967295;

/// An operator between two expressions: the place of its sign, and the type of the numbers that it gives.
#[derive(Clone, Copy)]
pub(crate) struct Operator {
    pub op: Op,
    pub sign: Place,
    pub ty: Ty,
}

/// A typed package, as far as it is built.
#[derive(Drop)]
pub struct BodyBuilding {
    building: Building,
    stmts: Vec<StmtNode>,
}

impl Model for BodyBuilding {
    ghost use Rattle.wf_ast.specs.declared.typed_nodes.TypedNodes.{TypedNodes};
    ghost use Rattle.wf_typed_stmts.specs.StmtGrowth.{with_stmts};

    ghost Value = { TypedNodes };

    ghost view = { λ b. with_stmts b.building b.stmts.items };
}

impl BodyBuilding {
    /// The package with what is declared there, and no expression or statement yet. The bodies of `declared` stay.
    pub fn new(alloc: Global, declared: TypedNodes) -> Self
        ensures { result ≡ record declared { exprs = []; types = []; constants = []; stmts = [] } }
    {
        BodyBuilding {
            building: Building::new(alloc, declared),
            stmts: Vec::new(alloc),
        }
    }

    /// Makes room for so many expressions and statements more. On `Err`, too, the package is as it was.
    pub fn reserve(&mut self, exprs: usize, stmts: usize) -> Result<(), NoMemory>
        ensures { self.new ≡ self.old }
    {
        self.building.reserve(exprs)?;
        self.stmts.reserve(stmts)?;
        Ok(())
    }

    /// The package that is built.
    pub fn finish(self) -> TypedNodes
        ensures nodes { result ≡ self }
        ensures exprs { IsBuilt result }
    {
        let mut whole = self.building.finish();
        whole.stmts = Sequence::from_vec(self.stmts);
        whole
    }

    /// How many statements there are.
    pub(crate) fn stmts(&self) -> usize
        ensures { result ≡ length self.now.stmts }
    {
        self.stmts.len()
    }

    /// The number of the expression that is added next.
    pub fn next_expr(&self) -> ExprId
        ensures { result.0 ≡ length self.now.exprs }
    {
        self.building.next_expr()
    }

    /// Adds the node of a path.
    pub fn push_path(&mut self, here: &Here<'_>, path: NamedPath) -> Result<Elaborated, NoMemory>
        requires begun { IsBegun here.now.nodes.now self.old }
        requires right { IsRightPath here.now.around.now (known_in (named_package here.now.nodes.now)).statuses path }
        ensures grows { OnOk result (GrowsExprs self.old self.new) }
        ensures entries { OnOk result (AddsEntries self.old self.new (path_entry here.now.around.now path ∷ [])) }
        ensures begun { OnOk result (IsBegun here.now.nodes.now self.new) }
        ensures stands { IfOk result (λ r. StandsForPath here.now.around.now path self.new r.node) }
        ensures value { IfOk result (λ r. r.value ≡ record { of = variable_in here.now.around.now path.of; at = path.at }) }
        ensures number { IfOk result (λ r. r.node.0 ≡ length self.old.exprs) }
        ensures count { OnOk result (length self.new.exprs ≡ length self.old.exprs + 1) }
    {
        elaborate_path(here, &mut self.building, path)
    }

    /// Adds the nodes of an expression.
    pub(crate) fn push_value(&mut self, here: &Here<'_>, e: ExprId) -> Result<Elaborated, NoMemory>
        requires there { e.0 < length here.now.nodes.now.exprs }
        requires begun { IsBegun here.now.nodes.now self.old }
        requires right { IsRight here.now.around.now (known_in (named_package here.now.nodes.now)).statuses (expr_at (exprs_of here.now.nodes.now) e) }
        ensures grows { OnOk result (GrowsExprs self.old self.new) }
        ensures entries { OnOk result (AddsEntries self.old self.new (expr_entries here.now.around.now (expr_at (exprs_of here.now.nodes.now) e))) }
        ensures begun { OnOk result (IsBegun here.now.nodes.now self.new) }
        ensures stands { IfOk result (λ r. StandsForExpr here.now.around.now (expr_at (exprs_of here.now.nodes.now) e) self.new r.node) }
        ensures value { IfOk result (λ r. r.value ≡ value_of here.now.around.now (expr_at (exprs_of here.now.nodes.now) e)) }
    {
        elaborate_expr(here, &mut self.building, e)
    }

    /// Adds the nodes of an element that is written to.
    pub(crate) fn push_element(
        &mut self,
        here: &Here<'_>,
        base: NamedPath,
        index: ExprId,
        at: Place,
    ) -> Result<Elaborated, NoMemory>
        requires there { index.0 < length here.now.nodes.now.exprs }
        requires begun { IsBegun here.now.nodes.now self.old }
        requires right { IsRight here.now.around.now (known_in (named_package here.now.nodes.now)).statuses (tree.index base (expr_at (exprs_of here.now.nodes.now) index) at) }
        ensures grows { OnOk result (GrowsExprs self.old self.new) }
        ensures entries { OnOk result (AddsEntries self.old self.new (expr_entries here.now.around.now (tree.index base (expr_at (exprs_of here.now.nodes.now) index) at))) }
        ensures begun { OnOk result (IsBegun here.now.nodes.now self.new) }
        ensures stands { IfOk result (λ r. StandsForExpr here.now.around.now (tree.index base (expr_at (exprs_of here.now.nodes.now) index) at) self.new r.node) }
        ensures value { IfOk result (λ r. r.value ≡ value_of here.now.around.now (tree.index base (expr_at (exprs_of here.now.nodes.now) index) at)) }
    {
        elaborate_element(here, &mut self.building, base, index, at)
    }

    /// Adds the node of an operator between two expressions that are there.
    pub(crate) fn push_operator(
        &mut self,
        here: &Here<'_>,
        by: Operator,
        left: ExprId,
        right: ExprId,
    ) -> Result<ExprId, NoMemory>
        requires begun { IsBegun here.now.nodes.now self.old }
        requires left { left.0 < length self.old.exprs }
        requires right { right.0 < length self.old.exprs }
        requires fits { chain_fits self.old (operator_kind by.op) (left ∷ right ∷ []) by.ty ≡ true }
        ensures grows { OnOk result (GrowsExprs self.old self.new) }
        ensures entries { OnOk result (AddsEntries self.old self.new (record { at = by.sign; ty = by.ty; constant = None } ∷ [])) }
        ensures begun { OnOk result (IsBegun here.now.nodes.now self.new) }
        ensures there { IfOk result (λ e. e.0 < length self.new.exprs) }
        ensures made { IfOk result (λ e. tree_of self.new e ≡ chain_of by.sign (by.sign ∷ []) by.ty (operator_kind by.op) (tree_of self.old left ∷ tree_of self.old right ∷ [])) }
    {
        let node = operator_node(here.alloc, by, left, right)?;
        let chain = TypedExpr {
            node,
            ty: by.ty,
            constant: None,
        };
        let e = self.building.push_expr(chain)?;
        Ok(e)
    }

    /// Adds a statement, whose parts are there. What it makes joins the others, which make what they made. `Err` also comes
    /// where no number is left.
    pub(crate) fn push_stmt(&mut self, node: StmtNode) -> Result<StmtId, NoMemory>
        requires there { stmt_there self.old (length self.old.stmts) node.stmt ≡ true }
        requires built { AreStmtsBuilt self.old }
        ensures ok { OnOk result (self.new ≡ record self.old { stmts = self.old.stmts ++ node ∷ [] }) }
        ensures number { IfOk result (λ s. s.0 ≡ length self.old.stmts) }
        ensures grows { OnOk result (GrowsStmts self.old self.new) }
        ensures entries { OnOk result (AddsEntries self.old self.new ([])) }
        ensures built { OnOk result (AreStmtsBuilt self.new) }
        ensures made { IfOk result (λ s. (rest : _) → onto (stmt_makers self.new) s rest ≡ stmt_made self.old (tree_of self.old) (onto (stmt_makers self.old)) (length self.old.stmts) node rest) }
    {
        let number = self.stmts.len();
        if number >= NUMBERS {
            return Err(NoMemory);
        }
        add_last(&mut self.stmts, node)?;
        Ok(StmtId(number as u32))
    }
}

// The node of an operator between two expressions.
fn operator_node(
    alloc: Global,
    by: Operator,
    left: ExprId,
    right: ExprId,
) -> Result<ExprNode, NoMemory>
    ensures { IfOk result (λ n. n ≡ record { expr = exprs.Chain by.op (left ∷ right ∷ []); at = by.sign; signs = by.sign ∷ [] }) }
{
    let parts = two(alloc, left, right)?;
    let signs = one(alloc, by.sign)?;
    Ok(ExprNode {
        expr: Expr::Chain { op: by.op, parts },
        at: by.sign,
        signs,
    })
}
