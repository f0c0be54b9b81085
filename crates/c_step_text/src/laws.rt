// The laws of the flat text. Each is the contract of a function that does nothing.

ghost use Rattle.std.specs.Prelude.{◌≡◌, ℕ, ◌+◌, nat_lt, List, ◌++◌, length, Option};
ghost use Rattle.c_text.specs.declared.kinds.Otherwise.{Otherwise};
ghost use Rattle.c_text.specs.CTree.{TypeTree, Code};
ghost use Rattle.c_meaning.specs.CTypes.{Function, CScope};
ghost use Rattle.c_meaning.specs.CStep.{Continuation, stop, Place, code_weight, continuation_weight, place_weight, Label, find};
ghost use Rattle.c_step_text.specs.ByHand.{body_by_hand, text_by_hand, names_by_hand};
ghost use Rattle.c_step_text.specs.Emitted.{StandAt, statements_of, exprs_of, arms_of, function_statements};
ghost use Rattle.c_step_text.specs.Flat.{FlatText, Has, Finish};
ghost use Rattle.c_meaning.specs.CCall.{Program};
ghost use Rattle.c_step_text.specs.Layout.{Names, go, seek, Laid, Follows};
ghost use Rattle.c_step_text.specs.Numbered.{activation_of, AreOthers};
ghost use Rattle.c_step_text.specs.Labels.{Landing, Lands};
ghost use Rattle.c_step_text.specs.Acting.{Activation, names_of, end_of, IsNumbered, IsLaid, Inside, Doing};

/// A label has a number in code that is laid out exactly where the meaning finds it there, and this number stands for the
/// place that the meaning finds. Of two places the one with more text left has the smaller number, so that a jump takes a
/// turn exactly where the number that it goes to isn't greater than its own.
pub fn a_label_lands_on_its_number()
    ensures found { (t : FlatText) (names : Names) (end i next : ℕ) (label : Label) (code : Code) (k : Continuation)
        → i + code_weight code + continuation_weight k ≡ end → Laid t names i next code → Follows t names end next k
        → Landing t names end (seek label i code) (find label code k) }
    ensures order { (t : FlatText) (names : Names) (end m n : ℕ) (p q : Place)
        → Lands t names end m p → Lands t names end n q → nat_lt (place_weight p) (place_weight q) ≡ nat_lt n m }
{}

/// Where a number stands for code and what follows it, it has an instruction, and doing this is what the meaning does from
/// there: with the turns that are left and the memory, the meaning's run is what the instruction gives, and where that goes
/// on it is the run from the place that the next number stands for.
pub fn an_instruction_does_what_its_statement_does()
    ensures { (t : FlatText) (a : Activation) (number : ℕ) (code : Code) (k : Continuation) → Inside t a number code k → Doing t a number code k }
{}

/// A text that was written down by hand is laid out as the body of a function asks: with a `switch`, a `while`, an `if` and a
/// `goto` that goes back.
pub fn a_text_by_hand_is_laid_out()
    ensures { (scope : CScope) (callable : List Function) (result_type : Option TypeTree) (otherwise : Otherwise)
        → Laid text_by_hand (names_by_hand scope callable result_type otherwise) 0 14 (body_by_hand otherwise) × Has text_by_hand 14 Finish }
{}

/// A call of a function of a program is an activation whose numbers name what its names do, where no other function has the
/// name of one that it can call; no call leaves more turns than it was given. Its body begins at its number.
pub fn a_call_is_an_activation()
    ensures numbered { (p : Program) (f : Function) (front callable : List Function) (frame start : ℕ)
        → p.functions ≡ front ++ callable → AreOthers front callable → IsNumbered (activation_of p f callable frame start) }
    ensures begins { (t : FlatText) (a : Activation) → IsLaid t a → IsNumbered a
        → Inside t a (go a.start (end_of a) a.running.body) a.running.body stop }
{}

/// Where the instructions of code stand in a text in the order of their numbers, with its expressions and cases from two
/// places on, the code is laid out there; and so is a whole function. There is one instruction for each number.
pub fn an_emitted_text_is_laid_out()
    ensures laid { (t : FlatText) (names : Names) (i next e m : ℕ) (code : Code)
        → StandAt t.statements i (statements_of names i next e m code) → StandAt t.exprs e (exprs_of names code) → StandAt t.arms m (arms_of i code)
        → Laid t names i next code }
    ensures length { (names : Names) (i next e m : ℕ) (code : Code) → length (statements_of names i next e m code) ≡ code_weight code }
    ensures function { (t : FlatText) (a : Activation) (e m : ℕ)
        → StandAt t.statements a.start (function_statements a e m) → StandAt t.exprs e (exprs_of (names_of a) a.running.body) → StandAt t.arms m (arms_of a.start a.running.body)
        → IsLaid t a }
{}
