// A worked example of the law of one step: what it supposes can be met.

ghost use Rattle.std.specs.Prelude.{◌≡◌, true, None};
ghost use Rattle.turns.specs.Run.{Go};
ghost use Rattle.wf_ast.specs.TypedTree.{plain};
ghost use Rattle.wf_bounds_stmts.specs.Statements.{single};
ghost use Rattle.wf_bounds_stmts.specs.FactRules.{statement_refusal};
ghost use Rattle.wf_meaning.specs.Examples.{site};
ghost use Rattle.wf_meaning.specs.SourceState.{untouched};
ghost use Rattle.wf_meaning.specs.SourceStep.{Callees, step, at_block};
ghost use Rattle.wf_sound.specs.Worlds.{context_of};
ghost use Rattle.wf_sound.specs.Positions.{around, hands_on_well};
ghost use Rattle.wf_sound.specs.Callees.{CalleesRun};
ghost use Rattle.wf_sound.specs.OneStep.{IsReached, IsLeftBy, IsRunning, AreFactsOf};
ghost use Rattle.wf_sound.specs.Examples.{next_val, after_it, round_it, known_there, parsing, one_parser, vars_with, no_lists};

/// All that the law of one step supposes is so at an assignment of the package `demo`, and its step goes on.
pub fn what_the_law_supposes_is_met()
    ensures running { IsRunning (IsLeftBy parsing.within no_lists) one_parser parsing (plain (site 7 21 13) next_val after_it) round_it (vars_with 7) }
    ensures hands_on { hands_on_well next_val ≡ true }
    ensures facts { AreFactsOf (context_of parsing) known_there }
    ensures refused { statement_refusal (around parsing round_it) known_there (site 7 21 13) (single next_val) ≡ None }
    ensures reached { IsReached parsing (vars_with 7) known_there next_val untouched }
    ensures calls { (calls : Callees) → CalleesRun calls parsing.within (IsLeftBy parsing.within no_lists) one_parser next_val 3 (vars_with 7).world }
    ensures goes_on { (calls : Callees) → step parsing calls 3 (at_block (plain (site 7 21 13) next_val after_it) round_it (vars_with 7)) ≡ Go (at_block after_it round_it (vars_with 75)) }
{}
