// A typed package, as other crates read it: every name is resolved and every expression has a type.

ghost use Rattle.std.specs.Prelude.{◌≡◌, ℕ, ◌<◌, ◌↔◌, length, slice_get, Some, None, Option, IsTrue, IfSome, IfNone, option_map};
ghost use Rattle.wf_ast.specs.Places.{expr_places, stmt_places, IsFirstAt};
ghost use Rattle.wf_ast.specs.TypedInvariant.{IsTyped, IsLocal, parts_below, node_fits, stmt_below, parts_fit};
ghost use Rattle.wf_ast.specs.TypedTrees.{tree_of, made_or_number, type_of_node, constant_of_node, place_of_node, signs_of_node};

use crate::declarations::{Method, Struct};
use crate::numbers::{ExprId, StmtId, TextId};
use crate::typed_code::{Block, Expr, Stmt};
use crate::typed_nodes::TypedNodes;
use crate::types::Ty;
use crate::variables::LocalId;
use std::marker::Model;
use wf_text::{MethodId, Place, StatusId, StructId};

/// A package that keeps the rules of names, types and effects.
#[derive(Drop)]
pub struct Typed {
    nodes: TypedNodes,
}

impl Model for Typed {
    ghost use Rattle.wf_ast.specs.declared.typed_nodes.TypedNodes.{TypedNodes};
    ghost use Rattle.wf_ast.specs.TypedInvariant.{IsTyped};

    ghost Value = { TypedNodes };

    ghost view = { λ t. t.nodes };

    ghost invariant = { λ t. IsTyped t.nodes };
}

impl Typed {
    /// The package that these nodes make.
    pub fn new(nodes: TypedNodes) -> Typed
        requires { IsTyped nodes }
        ensures { result ≡ nodes }
    {
        Typed { nodes }
    }

    /// The package's name.
    pub fn package(&self) -> &[u8]
        ensures { result.now ≡ self.now.package }
    {
        self.nodes.package.as_slice()
    }

    /// How many statuses there are: ok, the base statuses and the package's own.
    pub fn statuses(&self) -> u32
        ensures { result ≡ length self.now.statuses }
    {
        self.nodes.statuses.as_slice().len() as u32
    }

    /// How many structs the package has.
    pub fn structs(&self) -> u32
        ensures { result ≡ length self.now.structs }
    {
        self.nodes.structs.as_slice().len() as u32
    }

    /// How many methods the package has.
    pub fn methods(&self) -> u32
        ensures { result ≡ length self.now.methods }
    {
        self.nodes.methods.as_slice().len() as u32
    }

    /// The struct with this number.
    pub fn structure(&self, s: StructId) -> &Struct
        requires { s.0 < length self.now.structs }
        ensures { slice_get self.now.structs s.0 ≡ Some result.now }
    {
        &self.nodes.structs.as_slice()[s.0 as usize]
    }

    /// The declaration of the method with this number.
    pub fn method(&self, m: MethodId) -> &Method
        requires { m.0 < length self.now.methods }
        ensures { slice_get self.now.methods m.0 ≡ Some result.now }
    {
        &self.nodes.methods.as_slice()[m.0 as usize]
    }

    /// The body of the method with this number.
    pub fn body(&self, m: MethodId) -> &Block
        requires { m.0 < length self.now.methods }
        ensures { slice_get self.now.bodies m.0 ≡ Some result.now }
    {
        &self.nodes.bodies.as_slice()[m.0 as usize]
    }

    /// The text that a caller sees of the status with this number.
    pub fn status_text(&self, s: StatusId) -> &[u8]
        requires { s.0 < length self.now.statuses }
        ensures { slice_get self.now.statuses s.0 ≡ Some result.now }
    {
        self.nodes.statuses.as_slice()[s.0 as usize].as_slice()
    }

    /// A name, or the text of an axiom.
    pub fn text(&self, t: TextId) -> &[u8]
        requires { t.0 < length self.now.texts }
        ensures { slice_get self.now.texts t.0 ≡ Some result.now }
    {
        self.nodes.texts.as_slice()[t.0 as usize].as_slice()
    }

    /// The type of an expression; a constant without a width has 64 bits.
    pub fn type_of(&self, e: ExprId) -> Ty
        requires { e.0 < length self.now.exprs }
        ensures { result ≡ type_of_node self.now e.0 }
    {
        self.nodes.types.as_slice()[e.0 as usize]
    }

    /// The number of an expression where it is numeric and constant, and None exactly where it isn't.
    pub fn constant(&self, e: ExprId) -> Option<u64>
        requires { e.0 < length self.now.exprs }
        ensures { result ≡ constant_of_node self.now e.0 }
    {
        self.nodes.constants.as_slice()[e.0 as usize]
    }

    /// The node of an expression. Its tree is made of the trees of its parts, which have smaller numbers and are
    /// of the kinds that it wants and that their types have.
    pub fn expr(&self, e: ExprId) -> &Expr
        requires { e.0 < length self.now.exprs }
        ensures node { option_map (λ node. node.expr) (slice_get self.now.exprs e.0) ≡ Some result.now }
        ensures made { tree_of self.now e ≡ made_or_number (tree_of self.now) (place_of_node self.now e.0) (signs_of_node self.now e.0) (type_of_node self.now e.0) (constant_of_node self.now e.0) result.now }
        ensures below { IsTrue (parts_below e.0 result.now) }
        ensures kinds { IsTrue (node_fits self.now (type_of_node self.now e.0) (constant_of_node self.now e.0) result.now) }
        ensures parts { IsTrue (parts_fit self.now (tree_of self.now) result.now) }
    {
        &self.nodes.exprs.as_slice()[e.0 as usize].expr
    }

    /// The place of an expression.
    pub fn expr_place(&self, e: ExprId) -> Place
        requires { e.0 < length self.now.exprs }
        ensures { result ≡ place_of_node self.now e.0 }
    {
        self.nodes.exprs.as_slice()[e.0 as usize].at
    }

    /// The places of an expression's operator signs, in order.
    pub fn signs(&self, e: ExprId) -> &[Place]
        requires { e.0 < length self.now.exprs }
        ensures { result.now ≡ signs_of_node self.now e.0 }
    {
        self.nodes.exprs.as_slice()[e.0 as usize].signs.as_slice()
    }

    /// The expression that is this local of a method, at the place of the name in its declaration. Beside those in its body,
    /// a method has one for each of its locals.
    pub fn local_expr(&self, m: MethodId, x: LocalId) -> ExprId
        requires method { m.0 < length self.now.methods }
        requires local { IfSome (slice_get self.now.methods m.0) (λ method. x.0 < length method.locals) }
        ensures there { result.0 < length self.now.exprs }
        ensures is { IfSome (slice_get self.now.methods m.0) (λ method. IfSome (slice_get method.locals x.0) (λ v. IsLocal self.now result.0 x.0 v)) }
    {
        let first = self.nodes.first_locals.as_slice()[m.0 as usize];
        ExprId(first.0 + x.0)
    }

    /// The node of a statement. Its parts are there, and those that are statements have smaller numbers.
    pub fn stmt(&self, s: StmtId) -> &Stmt
        requires { s.0 < length self.now.stmts }
        ensures node { option_map (λ node. node.stmt) (slice_get self.now.stmts s.0) ≡ Some result.now }
        ensures below { IsTrue (stmt_below self.now s.0 result.now) }
    {
        &self.nodes.stmts.as_slice()[s.0 as usize].stmt
    }

    /// The place of a statement's first token.
    pub fn stmt_place(&self, s: StmtId) -> Place
        requires { s.0 < length self.now.stmts }
        ensures { option_map (λ node. node.at) (slice_get self.now.stmts s.0) ≡ Some result }
    {
        self.nodes.stmts.as_slice()[s.0 as usize].at
    }

    /// The second place that rules name in a statement: of a call that of its method's name, of a loop that of its
    /// body's closing brace, and of every other statement its first token's again.
    pub fn inner_place(&self, s: StmtId) -> Place
        requires { s.0 < length self.now.stmts }
        ensures { option_map (λ node. node.inner) (slice_get self.now.stmts s.0) ≡ Some result }
    {
        self.nodes.stmts.as_slice()[s.0 as usize].inner
    }

    /// The expression with this place, and None exactly where none has it. Where several have it, as the two nodes of
    /// `x` in `x += 1`, the target and an operand, it is the one with the least number.
    pub fn expr_at(&self, at: Place) -> Option<ExprId>
        ensures some { IfSome result (λ e. IsFirstAt (expr_places self.now) at e.0) }
        ensures none { IfNone result ((e : ℕ) → slice_get (expr_places self.now) e ≡ Some at → ⊥) }
    {
        let nodes = self.nodes.exprs.as_slice();
        for e in 0..nodes.len() {
            if same_place(nodes[e].at, at) {
                return Some(ExprId(e as u32));
            }
        }
        None
    }

    /// The statement whose first token has this place, and None exactly where there is none. Where several have it, it
    /// is the one with the least number.
    pub fn stmt_at(&self, at: Place) -> Option<StmtId>
        ensures some { IfSome result (λ s. IsFirstAt (stmt_places self.now) at s.0) }
        ensures none { IfNone result ((s : ℕ) → slice_get (stmt_places self.now) s ≡ Some at → ⊥) }
    {
        let nodes = self.nodes.stmts.as_slice();
        for s in 0..nodes.len() {
            if same_place(nodes[s].at, at) {
                return Some(StmtId(s as u32));
            }
        }
        None
    }

    /// The methods in an order in which each stands after those that it calls.
    pub fn order(&self) -> &[u32]
        ensures { result.now ≡ self.now.order }
    {
        self.nodes.order.as_slice()
    }

    /// The structs in an order in which each stands after those that its fields hold.
    pub fn struct_order(&self) -> &[u32]
        ensures { result.now ≡ self.now.struct_order }
    {
        self.nodes.struct_order.as_slice()
    }
}

fn same_place(a: Place, b: Place) -> bool
    ensures { IsTrue result ↔ a ≡ b }
{
    a == b
}
