// Arguments are taken from the stack into a call's object (ISO/IEC 9899:1999, 6.5.2.2p4).

ghost use Rattle.std.specs.Prelude.{◌≡◌, ◌<◌, length};
ghost use Rattle.c_meaning.specs.Typed.{object_shape};
ghost use Rattle.c_step_exprs.specs.Stacks.{on_stack, most};
ghost use Rattle.c_step_frames.specs.Frames.{StartsWith, PassesOne, Passes};

use c_meaning::cells::CellType;
use c_mem::Object;
use c_step_exprs::{Stack, cell_for};

/// Takes one argument from the stack, converts it to the type of a parameter's cell, and stores it in the object.
#[tactic(auto, using(crate::proofs::Arguments::stored_shaped))]
fn pass_one(types: &[CellType], field: usize, object: &mut Object, stack: &mut Stack) -> Option<()>
    requires field { field < length types.now }
    requires shaped { StartsWith types.now object.old }
    ensures passes { PassesOne types.now field object.old (on_stack stack.old) result object.new (on_stack stack.new) }
    ensures room { most stack.new ≡ most stack.old }
{
    let v = stack.pop()?;
    let cell = cell_for(types[field], v)?;
    let _ = object.store(field, 0, cell);
    Some(())
}

/// Takes the arguments of a call from the stack, the last one first, converts each to its parameter's type, and stores
/// it in the object, whose first fields are those of the parameters. None where there are too few, or one has no value of
/// that type.
pub(crate) fn pass(types: &[CellType], object: &mut Object, stack: &mut Stack) -> Option<()>
    requires shaped { StartsWith types.now object.old }
    ensures passes { Passes types.now object.old (on_stack stack.old) result object.new (on_stack stack.new) }
    ensures shape { object_shape object.new ≡ object_shape object.old }
    ensures room { most stack.new ≡ most stack.old }
{
    let mut left = types.len();
    while left > 0 {
        pass_one(types, left - 1, object, stack)?;
        left -= 1;
    }
    Some(())
}
