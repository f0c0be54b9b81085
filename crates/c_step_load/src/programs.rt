// A whole program: its code, and what a run of it takes.

ghost use Rattle.std.specs.Prelude.{◌≡◌, ◌+◌, length, IfOk};
ghost use Rattle.c_text.specs.CNodes.{unit_tree};
ghost use Rattle.c_meaning.specs.CCall.{program_of};
ghost use Rattle.c_step_run.specs.Coding.{AreCoded};
ghost use Rattle.c_step_program.specs.Programs.{code_of, frames_of, all_args, inline_lengths};
ghost use Rattle.c_step_load.specs.Programs.{IsAtRest};

use crate::frames::load_frames;
use crate::functions::inline_length;
use crate::loading::load_code;
use crate::numbered::Numbered;
use c_step_frames::Frame;
use c_step_places::number;
use c_step_run::Code;
use std::alloc::Global;
use wf_text::NoMemory;

/// A program that a machine can run.
#[derive(Drop)]
pub struct Program {
    /// The code of its functions.
    pub code: Code,
    /// What the calls of its functions are made of, by the functions' numbers.
    pub frames: Vec<Frame>,
    /// The same of calls in expressions, which have no locals.
    pub args: Vec<Frame>,
    /// How many values expressions can need at once.
    pub values: usize,
}

/// How many values an expression of code can need at once, those of the functions that it calls among them: one for each of
/// its instructions, and one for each instruction of the functions' values. `NoMemory` where no list can be so long.
fn values(code: &Code) -> Result<usize, NoMemory>
    ensures { IfOk result (λ n. n ≡ inline_lengths code.now.functions + length code.now.text.exprs) }
{
    let mut sum = code.text.exprs.len();
    for func in &code.functions {
        sum = number(sum, inline_length(func.inline), 0)?;
    }
    Ok(sum)
}

/// The program that a unit of the unit form is. `NoMemory` where memory was refused.
pub fn load(alloc: Global, numbered: &Numbered<'_>) -> Result<Program, NoMemory>
    ensures code { IfOk result (λ it. it.code ≡ code_of (program_of (unit_tree numbered.now)) (program_of (unit_tree numbered.now)).functions) }
    ensures frames { IfOk result (λ it. it.frames.items ≡ frames_of (program_of (unit_tree numbered.now)).functions) }
    ensures args { IfOk result (λ it. it.args.items ≡ all_args (program_of (unit_tree numbered.now)).functions) }
    ensures coded { IfOk result (λ it. AreCoded it.code it.frames.items it.args.items (program_of (unit_tree numbered.now)) (program_of (unit_tree numbered.now)).functions) }
    ensures rests { IfOk result (λ it. IsAtRest it.code it.frames.items it.args.items it.values) }
    ensures size { IfOk result (λ it. length it.code.functions ≡ length (program_of (unit_tree numbered.now)).functions) }
{
    numbered.formed().is_formed();
    let unit = numbered.unit();
    let frames = load_frames(alloc, unit, true)?;
    let args = load_frames(alloc, unit, false)?;
    let code = load_code(alloc, numbered)?;
    let values = values(&code)?;
    Ok(Program {
        code,
        frames,
        args,
        values,
    })
}
