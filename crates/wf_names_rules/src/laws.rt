// What the passes find is what the rules say. Each law is the contract of a function that does nothing.

ghost use Rattle.std.specs.Prelude.{ℕ, Bool, List, [], length};
ghost use Rattle.wf_text.specs.declared.rules.Rule.{Rule};
ghost use Rattle.wf_text.specs.declared.rules.Refusal.{Refusal};
ghost use Rattle.wf_ast.specs.declared.parsed.Name.{Name};
ghost use Rattle.graphs.specs.Graphs.{AreCycles};
ghost use Rattle.wf_names_rules.specs.Passes.{doubles_of, reserved_of, initializes_of, flagged_from};
ghost use Rattle.wf_names_rules.specs.Found.{Finds, RepeatsName, ReservesName, InitializesName, IsOnCycle};

/// Declared twice: what the pass finds are the names that an earlier one of the list has too, and all of these.
pub fn doubles_are_the_repeated_names()
    ensures sound { (names : List Name) (s : Refusal) → Finds (doubles_of [] names) s → RepeatsName names s }
    ensures complete { (names : List Name) (s : Refusal) → RepeatsName names s → Finds (doubles_of [] names) s }
{}

/// Reserved names: the same.
pub fn finds_are_the_reserved_names()
    ensures sound { (texts : List (List ℕ)) (names : List Name) (s : Refusal) → Finds (reserved_of texts names) s → ReservesName texts names s }
    ensures complete { (texts : List (List ℕ)) (names : List Name) (s : Refusal) → ReservesName texts names s → Finds (reserved_of texts names) s }
{}

/// Methods of the name `initialize`: the same.
pub fn finds_are_the_initializing_names()
    ensures sound { (texts : List (List ℕ)) (names : List Name) (s : Refusal) → Finds (initializes_of texts names) s → InitializesName texts names s }
    ensures complete { (texts : List (List ℕ)) (names : List Name) (s : Refusal) → InitializesName texts names s → Finds (initializes_of texts names) s }
{}

/// Cycles: with the flags that the search gives, what the pass finds are the names of the numbers that have a way
/// back to themselves, and all of these.
pub fn finds_are_the_names_on_cycles()
    ensures sound { (rule : Rule) (rows : List (List ℕ)) (flags : List Bool) (names : List Name) (s : Refusal) → AreCycles rows flags (length names)
        → Finds (flagged_from rule 0 flags names) s → IsOnCycle rule rows names s }
    ensures complete { (rule : Rule) (rows : List (List ℕ)) (flags : List Bool) (names : List Name) (s : Refusal) → AreCycles rows flags (length names)
        → IsOnCycle rule rows names s → Finds (flagged_from rule 0 flags names) s }
{}
