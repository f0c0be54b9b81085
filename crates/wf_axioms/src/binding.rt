// Which expression each letter of an axiom stands for.

ghost use Rattle.std.specs.Prelude.{◌≡◌, true, option_map, IsTrue, IfSome};
ghost use Rattle.wf_ast.specs.declared.typed_nodes.TypedNodes.{TypedNodes};
ghost use Rattle.wf_ast.specs.TypedTrees.{num_in, tree_of};
ghost use Rattle.wf_ast.specs.Same.{same_num};
ghost use Rattle.wf_ast.specs.NodeKinds.{is_number_at};
ghost use Rattle.wf_axioms.specs.Matching.{no_trees, stands_for, with_tree, bind as bind_tree};
ghost use Rattle.wf_axioms.specs.Bindings.{trees_in, AreNumbers};

use crate::axioms::Letter;
use wf_ast::{ExprId, Typed};
use wf_facts_exprs::{Side, same_side};

/// The expression that each letter stands for.
#[derive(Clone, Copy)]
pub(crate) struct Binding {
    pub a: Option<ExprId>,
    pub b: Option<ExprId>,
    pub c: Option<ExprId>,
    pub d: Option<ExprId>,
    pub b0: Option<ExprId>,
    pub c0: Option<ExprId>,
}

impl Binding {
    /// The binding where no letter stands for anything.
    pub(crate) fn empty() -> Binding
        ensures trees { (nodes : TypedNodes) → trees_in nodes result ≡ no_trees }
        ensures numbers { (nodes : TypedNodes) → AreNumbers nodes result }
    {
        Binding {
            a: None,
            b: None,
            c: None,
            d: None,
            b0: None,
            c0: None,
        }
    }

    /// What the letter stands for.
    pub(crate) fn get(&self, l: Letter) -> Option<ExprId>
        ensures tree { (nodes : TypedNodes) → option_map (λ e. num_in (tree_of nodes e)) result ≡ stands_for (trees_in nodes self.now) l }
        ensures number { (nodes : TypedNodes) → AreNumbers nodes self.now → IfSome result (λ e. is_number_at nodes e ≡ true) }
    {
        match l {
            Letter::A => self.a,
            Letter::B => self.b,
            Letter::C => self.c,
            Letter::D => self.d,
            Letter::B0 => self.b0,
            Letter::C0 => self.c0,
        }
    }

    /// The binding where the letter stands for this expression.
    pub(crate) fn with(self, l: Letter, e: ExprId) -> Binding
        ensures trees { (nodes : TypedNodes) → trees_in nodes result ≡ with_tree l (num_in (tree_of nodes e)) (trees_in nodes self) }
        ensures numbers { (nodes : TypedNodes) → AreNumbers nodes self → is_number_at nodes e ≡ true → AreNumbers nodes result }
    {
        match l {
            Letter::A => Binding { a: Some(e), ..self },
            Letter::B => Binding { b: Some(e), ..self },
            Letter::C => Binding { c: Some(e), ..self },
            Letter::D => Binding { d: Some(e), ..self },
            Letter::B0 => Binding {
                b0: Some(e),
                ..self
            },
            Letter::C0 => Binding {
                c0: Some(e),
                ..self
            },
        }
    }
}

/// Binds a letter; None where it stands for another tree.
pub(crate) fn bind(t: &Typed, l: Letter, e: ExprId, b: Binding) -> Option<Binding>
    requires node { IsTrue (is_number_at t.now e) }
    requires bound { AreNumbers t.now b }
    ensures trees { option_map (trees_in t.now) result ≡ bind_tree l (num_in (tree_of t.now e)) (trees_in t.now b) }
    ensures numbers { IfSome result (λ r. AreNumbers t.now r) }
{
    match b.get(l) {
        None => Some(b.with(l, e)),
        Some(x) => if same_numbers(t, x, e) { Some(b) } else { None },
    }
}

// Whether two numeric expressions are the same.
fn same_numbers(t: &Typed, x: ExprId, e: ExprId) -> bool
    requires left { IsTrue (is_number_at t.now x) }
    requires right { IsTrue (is_number_at t.now e) }
    ensures { result ≡ same_num (num_in (tree_of t.now x)) (num_in (tree_of t.now e)) }
{
    same_side(t, Side::Expr(x), Side::Expr(e))
}
