// The laws of the cells that stand at once. Each is the contract of a function that does nothing.

ghost use Rattle.c_step_laws.specs.CallChains.{CellsAreOfChains, PublicAreExternal};
ghost use Rattle.c_step_laws.specs.Passing.{CellsAreEnough, CallsPassToTheirEnds};

/// In a text of the unit form a machine tells as many cells as the functions of one chain of calls have parameters and locals,
/// at most, where the chain begins at an external function and goes by what the text's tree calls.
pub fn cells_are_those_of_the_greatest_chain()
    ensures { CellsAreOfChains }
{}

/// While a host's call of an external function runs, the objects of the calls that stand at once, that of the host's call, that of
/// the function that it calls, and so on, those of functions in expressions among them, have never more cells together.
pub fn a_run_has_no_more_cells()
    ensures { CellsAreEnough }
{}

/// A host calls the public functions of a package: in a text of the unit form each of them is an external function.
pub fn public_functions_are_external()
    ensures { PublicAreExternal }
{}

/// A host's call that returns passes, step by step, through the memory that it leaves with its own object. This holds of every
/// text.
pub fn calls_pass_to_their_ends()
    ensures { CallsPassToTheirEnds }
{}
