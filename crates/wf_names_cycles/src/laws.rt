// The first refusal with cycles is that of the whole section of the table. The law is the contract of a function that does
// nothing.

ghost use Rattle.std.specs.Prelude.{Option, None};
ghost use Rattle.wf_text.specs.declared.rules.Refusal.{Refusal};
ghost use Rattle.wf_text.specs.Precedence.{Decides};
ghost use Rattle.wf_names_rules.specs.Declarations.{Declared};
ghost use Rattle.wf_names_rules.specs.NameRules.{CycleBreaks};
ghost use Rattle.wf_names_cycles.specs.CyclesFound.{DecidesWith};

/// Where nothing was found before, the first refusal with the cycles is that of the section of the table.
pub fn cycles_decide_the_section()
    ensures { (d : Declared) (all : Option Refusal) → DecidesWith (CycleBreaks d) None all → Decides (CycleBreaks d) all }
{}
