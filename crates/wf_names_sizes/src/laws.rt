// What the passes find is what the rules say. Each law is the contract of a function that does nothing.

ghost use Rattle.std.specs.Prelude.{◌≡◌, ◌⊎◌, ◌<◌, ℕ, Bool, true, List, Option, None, Some, length, take, slice_get};
ghost use Rattle.wf_text.specs.declared.rules.Refusal.{Refusal};
ghost use Rattle.wf_text.specs.Precedence.{Decides};
ghost use Rattle.wf_names_rules.specs.Declarations.{Declared, Variable};
ghost use Rattle.graphs.specs.Graphs.{Path, holds, goes, AreCycles};
ghost use Rattle.wf_names_rules.specs.NameRules.{SizeBreaks};
ghost use Rattle.wf_names_rules.specs.Sizes.{Take, holds_struct};
ghost use Rattle.wf_names_sizes.specs.Deciding.{DecidesBehind};
ghost use Rattle.wf_names_sizes.specs.LongArrays.{HasLongArray, arrays_found};
ghost use Rattle.wf_names_sizes.specs.Orders.{IsHoldingOrder};
ghost use Rattle.wf_names_sizes.specs.StructSizes.{AreHolding};

/// Arrays that are too long: each breaks a rule of the table, and what the pass finds is the first refusal.
pub fn first_long_array_decides()
    ensures breaks { (d : Declared) (s : Refusal) → HasLongArray d s → SizeBreaks d s }
    ensures decides { (d : Declared) → Decides (HasLongArray d) (arrays_found d None) }
{}

/// Fields take one number of bytes at most.
pub fn fields_take_one_number()
    ensures { (d : Declared) (fields : List Variable) (n m : ℕ) → Take d fields n → Take d fields m → n ≡ m }
{}

/// What is found where nothing was found before is the first refusal.
pub fn first_size_decides()
    ensures { (d : Declared) (all : Option Refusal) → DecidesBehind (SizeBreaks d) None all → Decides (SizeBreaks d) all }
{}

/// The flags of the graph whose numbers go where structs hold structs tell which structs hold themselves.
pub fn cycles_are_the_structs_that_hold_themselves()
    ensures { (d : Declared) (rows : List (List ℕ)) (flags : List Bool) → ((a b : ℕ) → goes rows a b ≡ holds_struct d a b)
        → AreCycles rows flags (length d.structs) → AreHolding d flags }
{}

/// An order of all numbers of that graph, in which what a number goes to stands before it or has a way to it, has
/// each struct after those that it holds, but for those that hold themselves.
pub fn numbers_left_by_a_walk_are_an_order_of_structs()
    ensures { (d : Declared) (rows : List (List ℕ)) (order : List ℕ) → ((a b : ℕ) → goes rows a b ≡ holds_struct d a b)
        → ((s : ℕ) → s < length d.structs → holds order s ≡ true) → ((s : ℕ) → holds order s ≡ true → s < length d.structs)
        → ((i a b : ℕ) → slice_get order i ≡ Some a → goes rows a b ≡ true → (holds (take i order) b ≡ true) ⊎ Path (goes rows) b a)
        → IsHoldingOrder d order }
{}
