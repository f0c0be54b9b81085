// The law of one step. Each function speaks of one statement's rule, whatever lists are known where the statement's blocks
// end, and of one step of a body that stands at it. It supposes that the rule refuses nothing at the statement, that all
// values lie in their types, that the facts before the statement are true (at a resumption those that are known after its
// drops), and that the method that the statement calls runs well from where the body stands. Then the step isn't stuck, values
// lie in their types again, and what the rule gives for the place that the step comes to is true.

ghost use Rattle.std.specs.Prelude.{◌≡◌, ◌∷◌, ℕ, Bool, true, List, [], Some, None, slice_get};
ghost use Rattle.wf_text.specs.declared.place.Place.{Place};
ghost use Rattle.wf_ast.specs.TypedTree.{CondTree, Simple, Site, Head, Block, end, plain, choose, loop as repeating};
ghost use Rattle.wf_facts_exprs.specs.Claims.{Claim, AllTrue};
ghost use Rattle.wf_loops.specs.LoopRules.{way_back_refusal};
ghost use Rattle.wf_bounds_stmts.specs.Statements.{single, branches, repeated};
ghost use Rattle.wf_bounds_stmts.specs.FactRules.{Known, statement_refusal, ends_refusal, behind as known_after};
ghost use Rattle.wf_meaning.specs.SourceState.{Behind, stop, behind_if, again, untouched, Done};
ghost use Rattle.wf_meaning.specs.World.{Body, Vars};
ghost use Rattle.wf_meaning.specs.SourceStep.{Callees, state_of, step};
ghost use Rattle.wf_sound.specs.Worlds.{Shape, context_of};
ghost use Rattle.wf_sound.specs.Positions.{around, hands_on_well};
ghost use Rattle.wf_sound.specs.Callees.{CalleesRun};
ghost use Rattle.wf_sound.specs.OneStep.{IsReached, ComesTo, StandsKnowing, IsLeftAt, IsLeftBy, Ends, NeverLeft, LeadsTo, Chooses, Tests, IsRunning, AreFactsOf, AreKnown};

/// A statement without blocks: its step goes on where the rule gives what is known, leaves its method with an answer, or
/// leaves it to be resumed at the statement.
pub fn a_statement_is_not_stuck()
    ensures { (lists : ℕ → ℕ → Known) (shape : Shape) (b : Body) (calls : Callees) (turns : ℕ) (done : Done) (site : Site) (s : Simple) (rest : Block) (behind : Behind) (vars : Vars) (fs : List Claim)
        → IsRunning (IsLeftBy b.within lists) shape b (plain site s rest) behind vars → hands_on_well s ≡ true → AreFactsOf (context_of b) fs
        → statement_refusal (around b behind) fs site (single s) ≡ None → IsReached b vars fs s done
        → CalleesRun calls b.within (IsLeftBy b.within lists) shape s turns vars.world
        → ComesTo (LeadsTo (IsLeftBy b.within lists) shape b s site rest behind fs) (Ends (IsLeftBy b.within lists) shape b (IsLeftAt (IsLeftBy b.within lists) shape b site s rest behind fs))
        (step b calls turns (record { done = done; block = plain site s rest; behind = behind; vars = vars })) }
{}

/// An `if`, or what is left of one where conditions have failed: its step goes into the first block, or on to what follows
/// `else`.
pub fn an_if_is_not_stuck()
    ensures { (lists : ℕ → ℕ → Known) (shape : Shape) (b : Body) (calls : Callees) (turns : ℕ) (at site : Site) (chained : Bool) (c : CondTree) (cs : List CondTree) (a d rest : Block) (behind : Behind) (vars : Vars) (fs : List Claim)
        → IsRunning (IsLeftBy b.within lists) shape b (choose site chained c a d rest) behind vars → AreFactsOf (context_of b) fs → AllTrue (state_of b vars) fs
        → statement_refusal (around b behind) fs at (branches (c ∷ cs)) ≡ None
        → ComesTo (Chooses (IsLeftBy b.within lists) shape b at c cs a d rest behind fs) (Ends (IsLeftBy b.within lists) shape b (NeverLeft (IsLeftBy b.within lists) shape b))
        (step b calls turns (record { done = untouched; block = choose site chained c a d rest; behind = behind; vars = vars })) }
{}

/// A loop is entered: its step tests the condition, and goes into the body or past the loop.
pub fn a_loop_is_not_stuck()
    ensures { (lists : ℕ → ℕ → Known) (shape : Shape) (b : Body) (calls : Callees) (turns : ℕ) (site : Site) (head : Head) (body rest : Block) (behind : Behind) (vars : Vars) (fs : List Claim)
        → IsRunning (IsLeftBy b.within lists) shape b (repeating site head body rest) behind vars → AreFactsOf (context_of b) fs → AllTrue (state_of b vars) fs
        → statement_refusal (around b behind) fs site (repeated head) ≡ None
        → ComesTo (Tests (IsLeftBy b.within lists) shape b site head body rest behind) (Ends (IsLeftBy b.within lists) shape b (NeverLeft (IsLeftBy b.within lists) shape b))
        (step b calls turns (record { done = untouched; block = repeating site head body rest; behind = behind; vars = vars })) }
{}

/// A way back to a loop's head, from a `continue` or from the end of the loop's body: its step tests the condition again.
/// `before` is any list under which the rule refuses nothing at the loop. What the rule asks at the ends of its block is what
/// the way back asks there.
pub fn a_way_back_is_not_stuck()
    ensures step { (lists : ℕ → ℕ → Known) (shape : Shape) (b : Body) (calls : Callees) (turns : ℕ) (site : Site) (head : Head) (body rest : Block) (behind : Behind) (vars : Vars) (before fs : List Claim) (at : Place)
        → IsRunning (IsLeftBy b.within lists) shape b end (again site head body rest behind) vars → AreFactsOf (context_of b) fs → AllTrue (state_of b vars) fs
        → statement_refusal (around b behind) before site (repeated head) ≡ None → way_back_refusal fs at head ≡ None
        → ComesTo (Tests (IsLeftBy b.within lists) shape b site head body rest behind) (Ends (IsLeftBy b.within lists) shape b (NeverLeft (IsLeftBy b.within lists) shape b))
        (step b calls turns (record { done = untouched; block = end; behind = again site head body rest behind; vars = vars })) }
    ensures at_end { (before fs : List Claim) (site : Site) (head : Head) → ends_refusal before site (repeated head) (Some fs ∷ []) ≡ None → way_back_refusal fs head.close head ≡ None }
{}

/// At the end of a block of an `if`, where the list at that end is true, its step goes on after the `if`, where what all
/// blocks that go on have in common is true.
pub fn the_end_of_a_branch_is_not_stuck()
    ensures { (lists : ℕ → ℕ → Known) (shape : Shape) (b : Body) (calls : Callees) (turns : ℕ) (cs : List CondTree) (ends : List Known) (i : ℕ) (rest : Block) (behind : Behind) (vars : Vars) (before fs : List Claim)
        → IsRunning (IsLeftBy b.within lists) shape b end (behind_if rest behind) vars → AreKnown (context_of b) ends → slice_get ends i ≡ Some (Some fs) → AllTrue (state_of b vars) fs
        → ComesTo (StandsKnowing (IsLeftBy b.within lists) shape b rest behind (known_after before (branches cs) ends)) (Ends (IsLeftBy b.within lists) shape b (NeverLeft (IsLeftBy b.within lists) shape b))
        (step b calls turns (record { done = untouched; block = end; behind = behind_if rest behind; vars = vars })) }
{}

/// At the end of a body, which a method with a result never reaches, its step ends with the method's answer.
pub fn the_end_of_a_body_is_not_stuck()
    ensures { (lists : ℕ → ℕ → Known) (shape : Shape) (b : Body) (calls : Callees) (turns : ℕ) (vars : Vars)
        → IsRunning (IsLeftBy b.within lists) shape b end stop vars → b.method.gives ≡ None
        → ComesTo (λ x. ⊥) (Ends (IsLeftBy b.within lists) shape b (NeverLeft (IsLeftBy b.within lists) shape b)) (step b calls turns (record { done = untouched; block = end; behind = stop; vars = vars })) }
{}
