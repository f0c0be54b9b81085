// What is left to be put down of a function's body. What comes first stands at the list's end.

ghost use Rattle.std.specs.Prelude.{◌≡◌, ◌++◌, ◌∷◌, [], OnOk};
ghost use Rattle.c_step_text.specs.Flat.{flat_text};
ghost use Rattle.c_step_load_stmts.specs.declared.tasks.Task.TheVariants as task;
ghost use Rattle.c_step_load_stmts.specs.Bodies.{with_statement};

use c_step_text::{StmtInstr, Text};
use c_text::CStmtId;
use std::alloc::Global;
use wf_text::NoMemory;

/// The statements from one on, or an instruction that stands after a block.
#[derive(Clone, Copy)]
pub(crate) enum Task {
    /// Statements.
    Code {
        /// The first one.
        stmt: CStmtId,
        /// Its number.
        number: usize,
        /// The number of what follows them.
        next: usize,
    },
    /// An instruction.
    Instr(StmtInstr),
}

/// The text that is put down, and what is left of the body of a function.
pub struct Work {
    /// The text.
    pub text: Text,
    /// What is left.
    pub(crate) left: Vec<Task>,
}

impl Drop for Work {
    fn drop(self) {
        let Work { text: _, left: _ } = self;
    }
}

impl Work {
    /// Nothing is put down yet; nothing is allocated.
    pub fn new(alloc: Global) -> Work
        ensures text { result.text ≡ flat_text [] [] [] }
        ensures left { result.left.items ≡ [] }
    {
        Work {
            text: Text {
                statements: Vec::new(alloc),
                exprs: Vec::new(alloc),
                arms: Vec::new(alloc),
            },
            left: Vec::new(alloc),
        }
    }

    /// The text.
    pub fn text(self) -> Text
        ensures { result ≡ self.text }
    {
        let Work { text, left: _ } = self;
        text
    }
}

/// Puts down an instruction.
pub fn put(text: &mut Text, it: StmtInstr) -> Result<(), NoMemory>
    ensures { OnOk result (text.new ≡ with_statement text.old it) }
{
    text.statements.push(it)?;
    Ok(())
}

/// Leaves something to be put down next.
pub(crate) fn leave(left: &mut Vec<Task>, it: Task) -> Result<(), NoMemory>
    ensures { OnOk result (left.new.items ≡ left.old.items ++ it ∷ []) }
{
    left.push(it)?;
    Ok(())
}

/// Leaves a block, an instruction after it, and what follows.
pub(crate) fn leave_block(
    left: &mut Vec<Task>,
    block: Task,
    end: StmtInstr,
    rest: Task,
) -> Result<(), NoMemory>
    ensures { OnOk result (left.new.items ≡ left.old.items ++ rest ∷ task.Instr end ∷ block ∷ []) }
{
    leave(left, rest)?;
    leave(left, Task::Instr(end))?;
    leave(left, block)
}
