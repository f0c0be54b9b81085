// The code of a machine: what doesn't change while it runs.

ghost use Rattle.std.specs.Prelude.{◌≡◌, ◌<◌, Some, length, slice_get, slice_range};
ghost use Rattle.c_step_text.specs.Flat.{code_in, arms_in};
ghost use Rattle.c_step_run.specs.Cuts.{cut_span};

use c_meaning::cells::CellType;
use c_step_exprs::Instr;
use c_step_text::{Arm, Span, StmtInstr, Text};
use std::marker::Model;

/// The value of a function in an expression.
#[derive(Clone, Copy)]
pub struct Inline {
    /// What it returns.
    pub value: Span,
    /// What that is converted to.
    pub ty: CellType,
}

/// A local as its function begins.
#[derive(Clone, Copy)]
pub struct Initial {
    /// The field of the call's object.
    pub field: usize,
    /// The initial value.
    pub value: Option<Span>,
}

/// A function.
#[derive(Clone, Copy)]
pub struct Func {
    /// The number that its text begins at.
    pub start: usize,
    /// The number of its first instruction.
    pub entry: usize,
    /// Whether its entry is a turn.
    pub turn: bool,
    /// Its locals, a part of the code's list of these.
    pub initials: Span,
    /// Its value in an expression, where it may stand in one.
    pub inline: Option<Inline>,
    /// How many instructions the values of the functions before it have together, in expressions.
    pub rank: usize,
}

/// The functions of a text, by number, with their instructions.
#[derive(Drop)]
pub struct Code {
    /// The instructions.
    pub text: Text,
    /// The locals of all functions.
    pub initials: Vec<Initial>,
    /// The functions.
    pub functions: Vec<Func>,
}

impl Model for Code {
    ghost use Rattle.c_step_run.specs.Coding.{CodeView};

    ghost Value = { CodeView };

    ghost view = { λ c. record { text = c.text; initials = c.initials.items; functions = c.functions.items } };
}

/// A part of a list of a size, as far as the list has it.
fn within(span: Span, size: usize) -> Span
    ensures { result ≡ cut_span span size }
{
    let to = span.to.min(size);
    let from = span.from.min(to);
    Span { from, to }
}

impl Code {
    /// The function with a number.
    pub(crate) fn function(&self, k: usize) -> Func
        requires { k < length self.now.functions }
        ensures { slice_get self.now.functions k ≡ Some result }
    {
        self.functions[k]
    }

    /// The instruction with a number.
    pub(crate) fn statement(&self, pc: usize) -> Option<StmtInstr>
        ensures { result ≡ slice_get self.now.text.statements pc }
    {
        self.text.statements.get(pc).copied()
    }

    /// The instructions of an expression.
    #[tactic(auto, using(crate::proofs::Ranges::cut_range))]
    pub(crate) fn exprs(&self, span: Span) -> &[Instr]
        ensures { result.now ≡ code_in self.now.text span }
    {
        let here = within(span, self.text.exprs.len());
        &self.text.exprs[here.from..here.to]
    }

    /// The cases of a `switch`.
    #[tactic(auto, using(crate::proofs::Ranges::cut_range))]
    pub(crate) fn arms(&self, span: Span) -> &[Arm]
        ensures { result.now ≡ arms_in self.now.text span }
    {
        let here = within(span, self.text.arms.len());
        &self.text.arms[here.from..here.to]
    }

    /// A function's locals.
    #[tactic(auto, using(crate::proofs::Ranges::cut_range))]
    pub(crate) fn initials(&self, span: Span) -> &[Initial]
        ensures { result.now ≡ slice_range self.now.initials span.from span.to }
    {
        let here = within(span, self.initials.len());
        &self.initials[here.from..here.to]
    }
}
