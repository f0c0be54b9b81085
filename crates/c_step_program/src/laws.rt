// The laws of a program's code. Each is the contract of a function that does nothing.

ghost use Rattle.std.specs.Prelude.{◌≡◌, ◌≤◌, List, length};
ghost use Rattle.wf_text.specs.Surface.{Surface};
ghost use Rattle.c_text.specs.CTree.{ItemTree, ExprTree};
ghost use Rattle.c_meaning.specs.CTypes.{Function, scope_of, names_of, type_of, held_of};
ghost use Rattle.c_meaning.specs.CCall.{Program, program_of, scope_in};
ghost use Rattle.c_meaning.specs.UnitForm.{HasUnitForm};
ghost use Rattle.c_step_run.specs.Coding.{AreCoded, IsRanked};
ghost use Rattle.c_step_program.specs.Programs.{AreApart, inline_lengths, code_of, frames_of, all_args};

/// Where no function has another one's name, the code of a program has each function under its number, with its text, its
/// locals and its value in an expression; and the frames are those of its functions. A function's rank is above that of
/// each one before it by the instructions of that one's value in an expression; and all of these values together have at
/// most the instructions of the text.
pub fn a_program_stands_in_its_code()
    ensures coded { (p : Program) → AreApart p.functions → AreCoded (code_of p p.functions) (frames_of p.functions) (all_args p.functions) p p.functions }
    ensures ranked { (p : Program) → IsRanked (code_of p p.functions).functions }
    ensures values { (p : Program) → inline_lengths (code_of p p.functions).functions ≤ length (code_of p p.functions).text.exprs }
{}

/// In a text of the unit form no function has another one's name.
pub fn functions_have_names_of_their_own()
    ensures { (surface : Surface) (items : List ItemTree) → HasUnitForm surface items → AreApart (program_of items).functions }
{}

/// In a text of the unit form an expression of a function has the same type among the names of the program, the last
/// ones first, as among those of all items in their order; and so does what an lvalue stands for.
pub fn names_are_the_same_from_either_end()
    ensures types { (surface : Surface) (items : List ItemTree) (f : Function) → HasUnitForm surface items → (e : ExprTree)
        → type_of (scope_in (program_of items) f) e ≡ type_of (scope_of items (names_of f)) e }
    ensures lvalues { (surface : Surface) (items : List ItemTree) (f : Function) → HasUnitForm surface items → (e : ExprTree)
        → held_of (scope_in (program_of items) f) e ≡ held_of (scope_of items (names_of f)) e }
{}
