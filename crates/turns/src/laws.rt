// The laws of runs. Each is the contract of a function that does nothing.

ghost use Rattle.std.specs.Prelude.{◌≡◌, ℕ, ◌+◌, ◌≤◌, Bool, true};
ghost use Rattle.turns.specs.Run.{Next, Got, More, Lost, on_next, run};
ghost use Rattle.turns.specs.Steps.{Falls, Counts, NextKeeps, AnswersWith};

/// A run is its first step, followed by the run from the state that the step leads to, with the turns that it
/// leaves. So a run is well defined: what it gives doesn't depend on the weight that bounds it.
pub fn a_run_goes_step_by_step<S, A>()
    ensures { (step : ℕ → S → Next S A) (weight : S → ℕ) → Falls step weight → (n : ℕ) (s : S)
        → run step weight n s ≡ on_next (step n s) (run step weight n) (run step weight) }
{}

/// A run that answers within `n` turns gives the same answer within any greater number, and takes the same
/// number of turns; one that comes to no stated step within `n` turns does so within any greater number; and
/// one that needs more than a number of turns needs more than any smaller number.
pub fn more_turns_change_no_answer<S, A>()
    ensures answer { (step : ℕ → S → Next S A) (weight : S → ℕ) → Falls step weight → Counts step
        → (n more left : ℕ) (s : S) (a : A)
        → run step weight n s ≡ Got left a → run step weight (n + more) s ≡ Got (left + more) a }
    ensures fault { (step : ℕ → S → Next S A) (weight : S → ℕ) → Falls step weight → Counts step
        → (n more : ℕ) (s : S)
        → run step weight n s ≡ Lost → run step weight (n + more) s ≡ Lost }
    ensures want { (step : ℕ → S → Next S A) (weight : S → ℕ) → Falls step weight → Counts step
        → (n more : ℕ) (s : S)
        → run step weight (n + more) s ≡ More → run step weight n s ≡ More }
{}

/// A run never answers with more turns left than it was given.
pub fn turns_never_grow<S, A>()
    ensures { (step : ℕ → S → Next S A) (weight : S → ℕ) → Falls step weight
        → (n left : ℕ) (s : S) (a : A)
        → run step weight n s ≡ Got left a → left ≤ n }
{}

/// A property of states that each step keeps, and with which an answer has another property, gives each answer of
/// a run that property.
pub fn an_invariant_lasts<S, A>()
    ensures { (step : ℕ → S → Next S A) (weight : S → ℕ) (kept : S → Bool) (answered : A → Bool)
        → ((n : ℕ) (s : S) → kept s ≡ true → NextKeeps (λ t. kept t ≡ true) (λ a. answered a ≡ true) (step n s))
        → (n : ℕ) (s : S) → kept s ≡ true → AnswersWith (λ a. answered a ≡ true) (run step weight n s) }
{}
