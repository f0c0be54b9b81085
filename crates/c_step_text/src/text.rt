// The instructions of statements.

use c_meaning::cells::CellType;
use c_meaning::values::Number;
use c_step_exprs::Instr;
use std::marker::Model;

/// A part of a list: from one number up to, and without, another.
#[derive(Clone, Copy)]
pub struct Span {
    /// The first number.
    pub from: usize,
    /// The number after the last one.
    pub to: usize,
}

/// A `case` of a `switch`.
#[derive(Clone, Copy)]
pub struct Arm {
    /// The number of the `case`.
    pub number: Number,
    /// The number of the statement that it labels.
    pub target: usize,
}

/// An instruction of a statement. `next`, `met`, `unmet` and `other` are numbers of instructions; a span of expressions
/// is a part of the text's list of these.
#[derive(Clone, Copy)]
pub enum StmtInstr {
    /// Assigns a value to a place.
    Assign {
        /// The place.
        target: Span,
        /// The value.
        value: Span,
        /// What follows.
        next: usize,
    },
    /// Calls a function of the text.
    Call {
        /// The place that its value is assigned to.
        target: Option<Span>,
        /// The function, by its number in the text.
        function: usize,
        /// The arguments.
        given: Span,
        /// What follows.
        next: usize,
    },
    /// `memmove` of three arguments.
    Move {
        /// The arguments.
        given: Span,
        /// What follows.
        next: usize,
    },
    /// `memset` of an object with 0.
    Zero {
        /// The pointer to the object.
        pointer: Span,
        /// What follows.
        next: usize,
    },
    /// Goes to an instruction: a turn, where that doesn't stand after this one.
    Goto(usize),
    /// Goes on by a condition.
    Test {
        /// The condition.
        test: Span,
        /// Where it holds.
        met: usize,
        /// Where it doesn't.
        unmet: usize,
    },
    /// Takes a turn, and goes on by a condition.
    Back {
        /// The condition.
        test: Span,
        /// Where it holds.
        met: usize,
        /// Where it doesn't.
        unmet: usize,
    },
    /// Goes on by a number.
    Switch {
        /// The number.
        on: Span,
        /// The cases, a part of the text's list of these.
        arms: Span,
        /// Where it is none of them.
        other: usize,
    },
    /// Returns a value.
    Return {
        /// The value.
        value: Span,
        /// What it is converted to.
        ty: CellType,
    },
    /// Returns without a value.
    Finish,
    /// What isn't defined.
    Stuck,
}

/// The text of all functions.
pub struct Text {
    /// The instructions of the statements.
    pub statements: Vec<StmtInstr>,
    /// The instructions of the expressions.
    pub exprs: Vec<Instr>,
    /// The cases.
    pub arms: Vec<Arm>,
}

impl Drop for Text {
    fn drop(self) {
        let Text {
            statements: _,
            exprs: _,
            arms: _,
        } = self;
    }
}

impl Model for Text {
    ghost use Rattle.c_step_text.specs.Flat.{FlatText, flat_text};

    ghost Value = { FlatText };

    ghost view = { λ t. flat_text t.statements.items t.exprs.items t.arms.items };
}
