// The laws of the meaning of C. Each is the contract of a function that does nothing.

ghost use Rattle.std.specs.Prelude.{◌≡◌, All, ℕ, ◌+◌, ◌^◌, ◌<◌, Bool, List, map, length, slice_get, Option, Some, None, true, false, is_some, IsNone, ◌↔◌, ◌⊎◌, pos, ◌+ℤ◌, ◌-ℤ◌, ◌*ℤ◌, int_div, int_rem, int_lt, int_le};
ghost use Rattle.std.specs.Int.{int_div_euclid};
ghost use Rattle.wf_num.specs.declared.c_arithmetic.CTy.{CTy};
ghost use Rattle.wf_num.specs.CArithmetic.{IsIn, Overflows};
ghost use Rattle.c_text.specs.declared.kinds.COp.TheVariants.{Add, Sub, Mul, Div, Rem, Shl, Shr, Lt, Le};
ghost use Rattle.c_meaning.specs.COperators.{Gives, both, left, right};
ghost use Rattle.turns.specs.Run.{Turn, Fail, Got, Lost, on_next, run};
ghost use Rattle.c_text.specs.CTree.{ExprTree, Args, Code, call, jump};
ghost use Rattle.wf_text.specs.Surface.{Surface};
ghost use Rattle.wf_text.specs.HostActions.{Receiver};
ghost use Rattle.wf_text.specs.Seen.{Answer};
ghost use Rattle.wf_base.specs.BaseOps.{IsLawful};
ghost use Rattle.wf_base.specs.LawfulActions.{IsByteArray};
ghost use Rattle.wf_base.specs.HostRun.{Host, HostCall, answers, not_defined};
ghost use Rattle.c_meaning.specs.CValues.{Number, whole, converted, truth, operated, Pointer, CValue, same_pointer};
ghost use Rattle.c_meaning.specs.CMemory.{CellType, Cell, Memory, cell_at, part_at, store};
ghost use Rattle.c_meaning.specs.CStep.{Continuation, stop, Place, at, Label, by_name, find, Returned, Running, State, state, weight, surroundings, takes_turn, one_place, own, callee_of, step};
ghost use Rattle.c_meaning.specs.CExprs.{place, arg_values, all_some};
ghost use Rattle.c_meaning.specs.CCall.{Program, host_call};
ghost use Rattle.c_meaning.specs.CRun.{Loaded, loaded, made, text_object, c_init, c_call};
ghost use Rattle.c_meaning.specs.TextOrder.{StandsAt};
ghost use Rattle.c_meaning.specs.Reach.{ValuesIn, OptionIn, IsReady, Keeps};
ghost use Rattle.c_meaning.specs.Typed.{IsTyped, StaysTyped};
ghost use Rattle.c_meaning.specs.Apart.{extents_of, StandApart, OthersStay};
ghost use Rattle.c_meaning.specs.Untouched.{HostKeeps};

/// Wherever an operator is defined, its value is that of whole numbers: it is exact where the type can represent it, and
/// what is left of it modulo 2^N where an unsigned type can't. It is undefined where `int` can't hold the result or a
/// divisor is 0. A comparison compares whole numbers.
pub fn operators_are_those_of_whole_numbers()
    ensures sum { (a b r : Number) → operated Add a b ≡ Some r → Gives (both a b) (left a b +ℤ right a b) r }
    ensures difference { (a b r : Number) → operated Sub a b ≡ Some r → Gives (both a b) (left a b -ℤ right a b) r }
    ensures product { (a b r : Number) → operated Mul a b ≡ Some r → Gives (both a b) (left a b *ℤ right a b) r }
    ensures quotient { (a b r : Number) → operated Div a b ≡ Some r → Gives (both a b) (int_div (left a b) (right a b)) r }
    ensures remainder { (a b r : Number) → operated Rem a b ≡ Some r → Gives (both a b) (int_rem (left a b) (right a b)) r }
    ensures shifted_left { (a b r : Number) → operated Shl a b ≡ Some r → Gives a.ty (whole a *ℤ pos (2 ^ b.bits)) r }
    ensures shifted_right { (a b r : Number) → operated Shr a b ≡ Some r → Gives a.ty (int_div_euclid (whole a) (pos (2 ^ b.bits))) r }
    ensures undefined_sum { (a b : Number) → IsNone (operated Add a b) ↔ Overflows (both a b) (left a b +ℤ right a b) }
    ensures undefined_difference { (a b : Number) → IsNone (operated Sub a b) ↔ Overflows (both a b) (left a b -ℤ right a b) }
    ensures undefined_product { (a b : Number) → IsNone (operated Mul a b) ↔ Overflows (both a b) (left a b *ℤ right a b) }
    ensures undefined_quotient { (a b : Number) → IsNone (operated Div a b) → (right a b ≡ pos 0) ⊎ Overflows (both a b) (int_div (left a b) (right a b)) }
    ensures undefined_remainder { (a b : Number) → IsNone (operated Rem a b) → (right a b ≡ pos 0) ⊎ Overflows (both a b) (int_div (left a b) (right a b)) }
    ensures less { (a b : Number) → operated Lt a b ≡ Some (truth (int_lt (left a b) (right a b))) }
    ensures at_most { (a b : Number) → operated Le a b ≡ Some (truth (int_le (left a b) (right a b))) }
    ensures conversion { (type : CTy) (a : Number) → IsIn type (whole a) → whole (converted type a) ≡ whole a }
{}

/// The run of a function's body is its first step, followed by the run from where that leads. So the run is well
/// defined on every tree: what it gives doesn't depend on the weight that bounds it.
pub fn a_body_runs_step_by_step()
    ensures { (r : Running) (n : ℕ) (s : State) → run (step r) weight n s ≡ on_next (step r n s) (run (step r) weight n) (run (step r) weight) }
{}

/// A function that returns within a number of turns returns the same within any greater number, and takes as many
/// turns; one that is undefined within a number of turns is so within any greater number.
pub fn more_turns_change_no_return()
    ensures returned { (p : Program) (name : List ℕ) (n more left : ℕ) (given : List CValue) (memory : Memory) (done : Returned)
        → host_call p name n given memory ≡ Got left done → host_call p name (n + more) given memory ≡ Got (left + more) done }
    ensures undefined { (p : Program) (name : List ℕ) (n more : ℕ) (given : List CValue) (memory : Memory)
        → host_call p name n given memory ≡ Lost → host_call p name (n + more) given memory ≡ Lost }
{}

/// An init or a call by the host that answers, or is undefined, within a number of turns does so within any greater
/// number, and leaves the same.
pub fn more_turns_change_no_action()
    ensures init { (it : Loaded) (memory after : Memory) (receiver n more : ℕ) (answer : Answer)
        → c_init it memory receiver n ≡ answers answer after → c_init it memory receiver (n + more) ≡ answers answer after }
    ensures undefined_init { (it : Loaded) (memory : Memory) (receiver n more : ℕ)
        → c_init it memory receiver n ≡ not_defined → c_init it memory receiver (n + more) ≡ not_defined }
    ensures call { (it : Loaded) (memory : Memory) (called : HostCall) (host : Host) (n more : ℕ) (answer : Answer) (after : Memory × Host)
        → c_call it memory called host n ≡ answers answer after → c_call it memory called host (n + more) ≡ answers answer after }
    ensures undefined_call { (it : Loaded) (memory : Memory) (called : HostCall) (host : Host) (n more : ℕ)
        → c_call it memory called host n ≡ not_defined → c_call it memory called host (n + more) ≡ not_defined }
{}

/// A `goto` to a label that stands after it in the text takes no turn: the run goes on from the label with the same
/// turns. A `goto` to a label before it takes one. A label that is found stands in the body.
pub fn a_goto_forward_takes_no_turn()
    ensures behind { (r : Running) (n i j : ℕ) (label : List ℕ) (rest : Code) (k : Continuation) (target : Place) (memory : Memory)
        → StandsAt r.body i (at (jump label rest) k) → find (by_name label) r.body stop ≡ Some target → StandsAt r.body j target → i < j
        → run (step r) weight n (state (jump label rest) k memory) ≡ run (step r) weight n (record { place = target; memory = memory }) }
    ensures in_front { (r : Running) (n i j : ℕ) (label : List ℕ) (rest : Code) (k : Continuation) (target : Place) (memory : Memory)
        → StandsAt r.body i (at (jump label rest) k) → find (by_name label) r.body stop ≡ Some target → StandsAt r.body j target → j < i
        → step r n (state (jump label rest) k memory) ≡ takes_turn n (λ left. Turn left (record { place = target; memory = memory })) }
    ensures stands { (body : Code) (label : Label) (target : Place) → find label body stop ≡ Some target → (j : ℕ) × StandsAt body j target }
{}

/// A call's target is one place: where it is another one after the call than before it, or isn't defined then or there, the
/// statement is undefined, whatever the call returned.
pub fn a_target_is_one_place()
    ensures moved { (r : Running) (n left : ℕ) (target : ExprTree) (function : List ℕ) (given : Args) (values : List CValue) (rest : Code) (k : Continuation) (memory : Memory) (done : Returned)
        → callee_of function ≡ own → all_some (arg_values (surroundings r memory) given) ≡ Some values → r.callee function n values memory ≡ Got left done
        → one_place (place (surroundings r memory) target) (place (surroundings r done.memory) target) ≡ None
        → step r n (state (call (Some target) function given rest) k memory) ≡ Fail }
    ensures one { (before after : Option Pointer) (p : Pointer) → one_place before after ≡ Some p → (before ≡ Some p) × (after ≡ Some p) }
{}

/// A store changes the one cell that the pointer names, and is defined exactly where that cell is there.
pub fn a_store_changes_the_one_cell()
    ensures defined { (memory : Memory) (p : Pointer) (cell : Cell) → is_some (store memory p cell) ≡ is_some (cell_at memory p) }
    ensures cell { (memory now : Memory) (p : Pointer) (cell : Cell) → store memory p cell ≡ Some now → (type : CellType) × (cell_at now p ≡ Some (type, cell)) }
    ensures others { (memory now : Memory) (p q : Pointer) (cell : Cell) → store memory p cell ≡ Some now → same_pointer p q ≡ false → cell_at now q ≡ cell_at memory q }
    ensures parts { (memory now : Memory) (p : Pointer) (cell : Cell) (object field : ℕ) → store memory p cell ≡ Some now → part_at now object field ≡ part_at memory object field }
{}

/// Where every cell holds a value of its field's type, or nothing, it does so after every call; and no object changes the
/// types and numbers of its cells, or which objects are inside it.
pub fn memory_keeps_types_and_shapes()
    ensures { (p : Program) (name : List ℕ) (n left : ℕ) (given : List CValue) (memory : Memory) (done : Returned)
        → IsTyped memory → host_call p name n given memory ≡ Got left done → StaysTyped memory done.memory }
{}

/// A function changes only objects that its arguments lead to. Take any set of objects that has the strings and the
/// objects that a call makes, and that pointers and objects inside don't lead out of: where the arguments lead into it,
/// every object outside it is as before, and the set is still closed.
pub fn what_a_function_cannot_reach_stays()
    ensures { (inside : ℕ → Bool) (p : Program) (name : List ℕ) (n left : ℕ) (given : List CValue) (memory : Memory) (done : Returned)
        → ((k : ℕ) → k < length p.texts → inside k ≡ true) → IsReady inside memory → ValuesIn inside given
        → host_call p name n given memory ≡ Got left done → Keeps inside memory done.memory }
{}

/// A call by the host leaves every buffer and byte array as it was that isn't among its arguments. It and an init leave
/// every object as it was that the receiver doesn't lead to.
pub fn what_a_call_does_not_name_stays()
    ensures host { (it : Loaded) (memory : Memory) (called : HostCall) (host : Host) (n : ℕ) (answer : Answer) (after : Memory × Host)
        → c_call it memory called host n ≡ answers answer after → HostKeeps called.args host after.1 }
    ensures call { (inside : ℕ → Bool) (it : Loaded) (memory : Memory) (called : HostCall) (host : Host) (n : ℕ) (answer : Answer) (after : Memory × Host)
        → ((k : ℕ) → k < length it.program.texts → inside k ≡ true) → IsReady inside memory → OptionIn inside (slice_get it.pointers called.receiver)
        → c_call it memory called host n ≡ answers answer after → Keeps inside memory after.0 }
    ensures init { (inside : ℕ → Bool) (it : Loaded) (memory after : Memory) (receiver n : ℕ) (answer : Answer)
        → ((k : ℕ) → k < length it.program.texts → inside k ≡ true) → IsReady inside memory → OptionIn inside (slice_get it.pointers receiver)
        → c_init it memory receiver n ≡ answers answer after → Keeps inside memory after }
{}

/// Receivers stand apart as they are made, and after every init and call. So an init or a call leaves every object of
/// every other receiver as it was. The strings of the text hold bytes, and the host's buffers and arrays are lawful.
pub fn receivers_stand_apart()
    ensures first { (p : Program) (surface : Surface) (receivers : List Receiver)
        → IsTyped (map text_object p.texts) → StandApart (length p.texts) (extents_of p surface receivers) (made p surface receivers).memory }
    ensures init { (p : Program) (surface : Surface) (receivers : List Receiver) (memory after : Memory) (receiver n : ℕ) (answer : Answer)
        → StandApart (length p.texts) (extents_of p surface receivers) memory
        → c_init (loaded p surface receivers) memory receiver n ≡ answers answer after
        → StandApart (length p.texts) (extents_of p surface receivers) after × OthersStay (extents_of p surface receivers) receiver memory after }
    ensures call { (p : Program) (surface : Surface) (receivers : List Receiver) (memory : Memory) (called : HostCall) (host : Host) (n : ℕ) (answer : Answer) (after : Memory × Host)
        → StandApart (length p.texts) (extents_of p surface receivers) memory → All IsLawful host.buffers → All IsByteArray host.arrays
        → c_call (loaded p surface receivers) memory called host n ≡ answers answer after
        → StandApart (length p.texts) (extents_of p surface receivers) after.0 × OthersStay (extents_of p surface receivers) called.receiver memory after.0 }
{}
