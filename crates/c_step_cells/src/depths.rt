// How many functions stand in a chain of calls.

ghost use Rattle.std.specs.Prelude.{◌≡◌, ◌≤◌, suc, IfOk, OnOk};
ghost use Rattle.c_step_cells.specs.Chains.{called_cells as called_depth_of};
ghost use Rattle.c_step_cells.specs.Depths.{AreShallow, most_calls};

use crate::called::called_cells;
use c_step_run::Code;
use std::alloc::Global;
use wf_text::NoMemory;

/// The most functions that a chain of calls may have.
const MOST_CALLS: u64 = 4096;

/// The depth of the function with this number, by those of the functions before it; `NoMemory` where it is too great.
fn depth_at(code: &Code, depths: &[u64], k: usize) -> Result<u64, NoMemory>
    ensures depth { IfOk result (λ depth. depth ≡ suc (called_depth_of code.now depths.now k)) }
    ensures shallow { IfOk result (λ depth. depth ≤ most_calls) }
{
    let below = called_cells(code, depths, k);
    if below < MOST_CALLS {
        Ok(below + 1)
    } else {
        Err(NoMemory)
    }
}

/// That no chain of calls has more than 4,096 functions: a call of the text is one of the machine too, whose stack has its
/// bounds. `NoMemory` where one has, as the inits of 4,097 structs that hold one another, or where memory was refused.
pub(crate) fn check_depths(alloc: Global, code: &Code) -> Result<(), NoMemory>
    ensures { OnOk result (AreShallow code.now) }
{
    let mut depths = Vec::new(alloc);
    for k in 0..code.functions.len() {
        let depth = depth_at(code, depths.as_slice(), k)?;
        depths.push(depth)?;
    }
    Ok(())
}
