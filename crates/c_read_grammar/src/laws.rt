// The laws of the C grammar and its machine. Each is the contract of a function that does nothing.

ghost use Rattle.std.specs.Prelude.{◌≡◌, ℕ, List, [], ◌∷◌, ◌++◌, None, Some};
ghost use Rattle.c_text.specs.CSpelling.{CToken, Spells};
ghost use Rattle.c_text.specs.CTree.{ItemTree};
ghost use Rattle.c_text.specs.CGrammar.{IsUnit, IsTextOf, unit_tokens};
ghost use Rattle.c_read_grammar.specs.Feeding.{State, feed, feeds, ends, reads, start};
ghost use Rattle.c_read_grammar.specs.Outcomes.{Outcome, HasOutcome};
ghost use Rattle.c_read_grammar.specs.Texts.{AreTokens, IsText, IsLive};
ghost use Rattle.c_read_grammar.specs.Values.{Val, a_unit};

/// Every text of the grammar is read, and to its tree.
pub fn every_text_is_read()
    ensures { (unit : List ItemTree) → IsUnit unit → reads (unit_tokens unit) start ≡ Some (a_unit unit ∷ []) }
{}

/// What is read to its end is a text of the grammar, and its tree is what was made.
pub fn what_is_read_is_a_text()
    ensures { (tokens : List CToken) (made : List Val) → AreTokens tokens → reads tokens start ≡ Some made
        → (unit : List ItemTree) × IsUnit unit × (tokens ≡ unit_tokens unit) × (made ≡ a_unit unit ∷ []) }
{}

/// What is read begins a text of the grammar.
pub fn what_is_read_begins_a_text()
    ensures { (front : List CToken) (last : State) → AreTokens front → feeds front start ≡ Some last → IsLive front }
{}

/// A token that isn't read is the first that no text has there.
pub fn what_is_refused_goes_on_in_no_text()
    ensures { (front : List CToken) (token : CToken) (last : State) → feeds front start ≡ Some last
        → feed last.wanted last.vals token ≡ None → IsLive (front ++ token ∷ []) → ⊥ }
{}

/// Where more is wanted at the end, the tokens are no text.
pub fn what_ends_too_early_is_no_text()
    ensures { (tokens : List CToken) (last : State) → feeds tokens start ≡ Some last
        → ends last.wanted last.vals ≡ None → IsText tokens → ⊥ }
{}

/// A list of tokens has one tree at most.
pub fn tokens_have_one_tree()
    ensures { (a b : List ItemTree) → IsUnit a → IsUnit b → unit_tokens a ≡ unit_tokens b → a ≡ b }
{}

/// Bytes spell one list of tokens at most.
pub fn bytes_have_one_spelling()
    ensures { (bytes : List ℕ) (tokens others : List CToken) → AreTokens tokens → AreTokens others → Spells tokens bytes → Spells others bytes → tokens ≡ others }
{}

/// Bytes have one tree at most.
pub fn bytes_have_one_tree()
    ensures { (bytes : List ℕ) (a b : List ItemTree) → IsTextOf bytes a → IsTextOf bytes b → a ≡ b }
{}

/// Bytes have one outcome at most: they are a text of one tree, or a bracket is one too many at one place, or they
/// can't go on at one place.
pub fn bytes_have_one_outcome()
    ensures { (bytes : List ℕ) (a b : Outcome) → HasOutcome bytes a → HasOutcome bytes b → a ≡ b }
{}
