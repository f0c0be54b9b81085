// How many numbers the code from each statement of a unit on takes. A part has a smaller number in its unit than its whole,
// so one pass over the unit's statements tells all.

ghost use Rattle.std.specs.Prelude.{◌≡◌, ◌+◌, ◌<◌, length, IfOk, IfSome};
ghost use Rattle.c_meaning.specs.CStep.{code_weight};
ghost use Rattle.c_text.specs.CNodes.{code_of};
ghost use Rattle.c_step_places.specs.Places.{past, past_both, second};
ghost use Rattle.c_step_places.specs.Weights.{Weighs, WeighsAll};

use c_text::{CStmt, CStmtId, Unit};
use std::alloc::Global;
use wf_text::NoMemory;

/// The statements of a unit, with the weights of the code from the first ones on.
#[derive(Clone, Copy)]
pub struct Weighed<'u> {
    /// The unit.
    pub unit: &'u Unit,
    /// The weights.
    pub weights: &'u [usize],
}

/// The sum of three numbers; None where it is too large.
fn sum(a: usize, b: usize, c: usize) -> Option<usize>
    ensures { IfSome result (λ it. it ≡ a + b + c) }
{
    a.checked_add(b)?.checked_add(c)
}

/// A number with others added; `NoMemory` where no list can be so long.
pub fn number(a: usize, b: usize, c: usize) -> Result<usize, NoMemory>
    ensures { IfOk result (λ it. it ≡ a + b + c) }
{
    match sum(a, b, c) {
        Some(it) => Ok(it),
        None => Err(NoMemory),
    }
}

/// The next number; `NoMemory` where no list can be so long.
pub fn next_number(i: usize) -> Result<usize, NoMemory>
    ensures { IfOk result (λ it. it ≡ i + 1) }
{
    match i.checked_add(1) {
        Some(it) => Ok(it),
        None => Err(NoMemory),
    }
}

impl<'u> Weighed<'u> {
    /// The weight of the code from a statement on.
    #[tactic(auto, using(crate::proofs::WeightLemmas::weight_is))]
    pub fn weight(&self, s: CStmtId) -> usize
        requires weights { Weighs self.now.unit.now self.now.weights.now }
        requires s { s.0 < length self.now.weights.now }
        ensures { result ≡ code_weight (code_of self.now.unit.now s.0) }
    {
        self.weights[s.0]
    }

    /// In a statement with a number, the number of what follows its block.
    pub fn past(&self, i: usize, body: CStmtId) -> Result<usize, NoMemory>
        requires weights { Weighs self.now.unit.now self.now.weights.now }
        requires body { body.0 < length self.now.weights.now }
        ensures { IfOk result (λ n. n ≡ past i (code_of self.now.unit.now body.0)) }
    {
        number(i, self.weight(body), 2)
    }

    /// The same after two blocks.
    pub fn past_both(&self, i: usize, body: CStmtId, other: CStmtId) -> Result<usize, NoMemory>
        requires weights { Weighs self.now.unit.now self.now.weights.now }
        requires body { body.0 < length self.now.weights.now }
        requires other { other.0 < length self.now.weights.now }
        ensures { IfOk result (λ n. n ≡ past_both i (code_of self.now.unit.now body.0) (code_of self.now.unit.now other.0)) }
    {
        let end = number(i, self.weight(body), self.weight(other))?;
        number(end, 2, 0)
    }

    /// In a statement with a number, the number after its first block.
    pub fn second(&self, i: usize, body: CStmtId) -> Result<usize, NoMemory>
        requires weights { Weighs self.now.unit.now self.now.weights.now }
        requires body { body.0 < length self.now.weights.now }
        ensures { IfOk result (λ n. n ≡ second i (code_of self.now.unit.now body.0)) }
    {
        number(i, self.weight(body), 1)
    }

    /// The weight of the code from the next statement on, by those of the statements before it; None where it is too large.
    fn next_weight(&self) -> Option<usize>
        requires weights { Weighs self.now.unit.now self.now.weights.now }
        requires more { length self.now.weights.now < length self.now.unit.now.stmts }
        ensures { IfSome result (λ it. it ≡ code_weight (code_of self.now.unit.now (length self.now.weights.now))) }
    {
        match self.unit.stmt(CStmtId(self.weights.len())) {
            CStmt::End => Some(0),
            CStmt::Block { inner, rest } => sum(self.weight(*inner), self.weight(*rest), 2),
            CStmt::If {
                body,
                other,
                rest,
                ..
            } => sum(self.weight(*body), self.weight(*other), self.weight(*rest))?.checked_add(2),
            CStmt::While { body, rest, .. } => sum(self.weight(*body), self.weight(*rest), 2),
            CStmt::Switch { body, rest, .. } => sum(self.weight(*body), self.weight(*rest), 2),
            CStmt::Empty { rest } => self.weight(*rest).checked_add(1),
            CStmt::Assign { rest, .. } => self.weight(*rest).checked_add(1),
            CStmt::Call { rest, .. } => self.weight(*rest).checked_add(1),
            CStmt::Goto { rest, .. } => self.weight(*rest).checked_add(1),
            CStmt::Return { rest, .. } => self.weight(*rest).checked_add(1),
            CStmt::Case { rest, .. } => self.weight(*rest).checked_add(1),
            CStmt::Default { rest } => self.weight(*rest).checked_add(1),
            CStmt::Label { rest, .. } => self.weight(*rest).checked_add(1),
        }
    }
}

/// The weights of the code from each statement of a unit on.
pub fn weigh_all(alloc: Global, unit: &Unit) -> Result<Vec<usize>, NoMemory>
    ensures { IfOk result (λ it. WeighsAll unit.now it.items) }
{
    let mut weights = Vec::new(alloc);
    while weights.len() < unit.stmts() {
        let weighed = Weighed {
            unit,
            weights: weights.as_slice(),
        };
        let Some(it) = weighed.next_weight() else {
            return Err(NoMemory);
        };
        weights.push(it)?;
    }
    Ok(weights)
}
