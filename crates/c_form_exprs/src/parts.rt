// The types of forms by the types of their parts, and the links of `a->b[i]->c` (ISO/IEC 9899:1999, 6.5).

ghost use Rattle.std.specs.Prelude.{◌≡◌, ◌≤◌, ◌<◌, length, None, option_map, option_and_then, IfOk, IfSome, IfNone};
ghost use Rattle.c_text.specs.declared.kinds.CUnary.TheVariants.{Complement};
ghost use Rattle.c_text.specs.CNodes.{type_in, expr_of};
ghost use Rattle.c_text.specs.CFits.{HasType};
ghost use Rattle.c_meaning.specs.CTypes.{choice_type, unary_type, held_type, pointed_held, element_held, value_type as type_of_value};
ghost use Rattle.c_form_exprs.specs.Spines.{Spine, link_of, IsLink, joined};
ghost use Rattle.c_form_exprs.specs.TypeViews.{TellsType, TellsHeld, value_in, held_in, HasValue, HasHeld};

use crate::scope::CScope;
use crate::types::{ExprType, Held};
use c_text::{CExpr, CExprId, COp, CType};
use wf_text::NoMemory;

impl<'k, 'u> CScope<'k, 'u> {
    /// The part that stands at the front, of `of->field` and of `of[at]`.
    pub(crate) fn link(&self, e: CExprId) -> Option<CExprId>
        requires { e.0 < length self.now.front.nodes.exprs }
        ensures some { IfSome result (λ of. IsLink self.now.front.nodes e of) }
        ensures none { IfNone result (link_of (expr_of self.now.front.nodes e.0) ≡ None) }
    {
        match self.expr(e) {
            CExpr::Member { of, .. } => Some(*of),
            CExpr::Index { of, .. } => Some(*of),
            _ => None,
        }
    }

    /// The expressions from this one down to the one before which no other stands, that one apart.
    #[tactic(auto, using(crate::proofs::SpineLemmas::spine_push))]
    pub fn spine(&self, e: CExprId) -> Result<(Vec<CExprId>, CExprId), NoMemory>
        requires { e.0 < length self.now.front.nodes.exprs }
        ensures spine { IfOk result (λ it. Spine self.now.front.nodes e it.0.items it.1) }
        ensures base { IfOk result (λ it. link_of (expr_of self.now.front.nodes it.1.0) ≡ None) }
        ensures below { IfOk result (λ it. it.1.0 ≤ e.0) }
    {
        let mut links = Vec::new(self.alloc());
        let mut at = e;
        while let Some(of) = self.link(at) {
            links.push(at)?;
            at = of;
        }
        Ok((links, at))
    }

    /// The type of the value that is held; None where there is none.
    pub fn held_value(&self, held: Option<Held>) -> Option<ExprType>
        requires { IfSome held (HasHeld self.now.front.nodes) }
        ensures { TellsType self.now.front.nodes result (option_and_then held_type (option_map (held_in self.now.front.nodes.names) held)) }
    {
        self.held_type(held?)
    }

    /// What `*of` stands for, by the type of `of` (6.5.3.2p4).
    pub fn pointed(&self, of: Option<ExprType>) -> Option<Held>
        requires { IfSome of (HasValue self.now.front.nodes) }
        ensures { TellsHeld self.now.front.nodes result (pointed_held (option_map (value_in self.now.front.nodes.names) of)) }
    {
        self.pointed_to(of?)
    }

    /// What `of[at]` stands for, by the types of both (6.5.2.1).
    pub fn element(&self, of: Option<ExprType>, at: Option<ExprType>) -> Option<Held>
        requires { IfSome of (HasValue self.now.front.nodes) }
        ensures { TellsHeld self.now.front.nodes result (element_held (option_map (value_in self.now.front.nodes.names) of) (option_map (value_in self.now.front.nodes.names) at)) }
    {
        self.as_number(at?)?;
        self.pointed(of)
    }

    /// The type of `a op b`, by the types of both.
    pub fn join(&self, op: COp, a: Option<ExprType>, b: Option<ExprType>) -> Option<ExprType>
        requires first { IfSome a (HasValue self.now.front.nodes) }
        requires second { IfSome b (HasValue self.now.front.nodes) }
        ensures { TellsType self.now.front.nodes result (joined op (option_map (value_in self.now.front.nodes.names) a) (option_map (value_in self.now.front.nodes.names) b)) }
    {
        self.operated(op, a?, b?)
    }

    /// The type of `test ? met : unmet`, by the types of all three (6.5.15).
    pub(crate) fn chosen(
        &self,
        test: Option<ExprType>,
        met: Option<ExprType>,
        unmet: Option<ExprType>,
    ) -> Option<ExprType>
        requires met { IfSome met (HasValue self.now.front.nodes) }
        requires unmet { IfSome unmet (HasValue self.now.front.nodes) }
        ensures { TellsType self.now.front.nodes result (option_and_then (λ _. choice_type (option_map (value_in self.now.front.nodes.names) met) (option_map (value_in self.now.front.nodes.names) unmet)) (option_map (value_in self.now.front.nodes.names) test)) }
    {
        test?;
        self.one_type(true, met?, unmet?)
    }

    /// The type of `~` of a value.
    pub fn complement(&self, of: Option<ExprType>) -> Option<ExprType>
        ensures { TellsType self.now.front.nodes result (unary_type Complement (option_map (value_in self.now.front.nodes.names) of) None) }
    {
        Some(ExprType::Numbers(self.as_number(of?)?))
    }

    /// The type of the value that a function returns.
    pub fn result_type(&self, of: Option<CType>) -> Option<ExprType>
        requires { IfSome of (HasType self.now.front.nodes) }
        ensures { TellsType self.now.front.nodes result (option_map type_of_value (option_map (type_in self.now.front.nodes.names) of)) }
    {
        Some(self.value_type(of?))
    }
}
