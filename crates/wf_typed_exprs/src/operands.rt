// The operands of a chain as they grow.

ghost use Rattle.std.specs.Prelude.{◌≡◌, ◌++◌, ◌∷◌, [], Some, IfOk, option_and_then};
ghost use Rattle.wf_ast.specs.TypedTrees.{operator_kind};
ghost use Rattle.wf_ast.specs.declared.typed_code.Expr.TheVariants as exprs;
ghost use Rattle.wf_types_rules.specs.Judgements.{two_operands};
ghost use Rattle.wf_types_rules.specs.Operands.{given as gives, meaning_of_operator};
ghost use Rattle.wf_types_exprs.specs.Judged.{operand_behind as behind};

use crate::elaborated::{Elaborated, MadeNode};
use std::alloc::Global;
use wf_ast::{Expr, ExprId, ExprNode, Op, Sequence};
use wf_text::Place;
use wf_text::faults::NoMemory;
use wf_types_exprs::operands::operand_behind;
use wf_types_exprs::parts::chain_meaning;
use wf_types_operators::given::given;
use wf_types_rules::{Meaning, Operand, PlacedMeaning};

/// The operands of a chain so far: the numbers of their nodes, the signs between them, and what they mean.
pub(crate) struct MadeOperands {
    pub parts: Sequence<ExprId>,
    pub signs: Sequence<Place>,
    pub of: Option<Sequence<Operand>>,
}

impl Drop for MadeOperands {
    fn drop(self) {
        let MadeOperands {
            parts: _,
            signs: _,
            of: _,
        } = self;
    }
}

impl MadeOperands {
    /// No operand yet.
    pub(crate) fn new(alloc: Global) -> Self
        ensures { result ≡ record { parts = []; signs = []; of = Some [] } }
    {
        MadeOperands {
            parts: Sequence::new(alloc),
            signs: Sequence::new(alloc),
            of: Some(Sequence::new(alloc)),
        }
    }

    /// One sign more.
    pub(crate) fn with_sign(self, sign: Place) -> Result<Self, NoMemory>
        ensures { IfOk result (λ all. all ≡ record self { signs = self.signs ++ sign ∷ [] }) }
    {
        let mut all = self;
        all.signs.push(sign)?;
        Ok(all)
    }

    /// One operand more.
    pub(crate) fn with_operand(self, next: Elaborated) -> Result<Self, NoMemory>
        ensures { IfOk result (λ all. all ≡ record { parts = self.parts ++ next.node ∷ []; signs = self.signs; of = behind self.of next.value }) }
    {
        let MadeOperands {
            mut parts,
            signs,
            of,
        } = self;
        parts.push(next.node)?;
        let of = operand_behind(of, next.value)?;
        Ok(MadeOperands { parts, signs, of })
    }

    /// The node of the chain of these operands, whose first token is at this place.
    pub(crate) fn chain(self, op: Op, at: Place) -> MadeNode
        ensures { result ≡ record { node = record { expr = exprs.Chain op self.parts; at = at; signs = self.signs }; of = option_and_then (meaning_of_operator (operator_kind op)) self.of } }
    {
        let MadeOperands { parts, signs, of } = self;
        let meaning = chain_meaning(op, &of);
        MadeNode {
            node: ExprNode {
                expr: Expr::Chain { op, parts },
                at,
                signs,
            },
            of: meaning,
        }
    }
}

// What a chain of two operands means, which its operator takes.
fn pair_meaning(op: Op, a: PlacedMeaning, b: PlacedMeaning) -> Option<Meaning>
    ensures { result ≡ option_and_then (gives (operator_kind op)) (two_operands a b) }
{
    match (a.of, b.of) {
        (Some(first), Some(second)) => {
            let os = [
                Operand {
                    at: a.at,
                    of: first,
                },
                Operand {
                    at: b.at,
                    of: second,
                },
            ];
            given(op, os.as_slice())
        }
        (None, Some(_)) => None,
        (Some(_), None) => None,
        (None, None) => None,
    }
}

/// The node of a chain of two operands, which its operator takes, by the sign between them and the place of its first token.
pub(crate) fn pair_node(
    alloc: Global,
    op: Op,
    a: Elaborated,
    b: Elaborated,
    sign: Place,
    at: Place,
) -> Result<MadeNode, NoMemory>
    ensures { IfOk result (λ n. n ≡ record { node = record { expr = exprs.Chain op (a.node ∷ b.node ∷ []); at = at; signs = sign ∷ [] }; of = option_and_then (gives (operator_kind op)) (two_operands a.value b.value) }) }
{
    let both = [a.node, b.node];
    let between = [sign];
    let parts = Sequence::from_slice(alloc, both.as_slice())?;
    let signs = Sequence::from_slice(alloc, between.as_slice())?;
    Ok(MadeNode {
        node: ExprNode {
            expr: Expr::Chain { op, parts },
            at,
            signs,
        },
        of: pair_meaning(op, a.value, b.value),
    })
}
