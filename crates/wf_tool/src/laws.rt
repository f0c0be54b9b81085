// The laws of the verdict. Each is the contract of a function that does nothing.

ghost use Rattle.wf_tool.specs.Answer.{AnswersAreVerdicts, AnswersExist};
ghost use Rattle.wf_tool.specs.OwnTexts.{OwnTextsRunAsPackages, UnitTextsRunAlike};
ghost use Rattle.wf_tool.specs.Plain.{PlainLoadersRunByC};
ghost use Rattle.wf_tool.specs.Soundness.{AcceptedAreNeverStuck};
ghost use Rattle.wf_tool.specs.Verdict.{RefusalsHaveFiles, VerdictsExclude, VerdictsExist};

/// A package isn't both accepted and refused, and is refused by one rule at one place.
pub fn one_verdict()
    ensures { VerdictsExclude }
{}

/// Every package is accepted or refused: for each name and each list of files there is a verdict.
pub fn a_verdict_exists()
    ensures { VerdictsExist }
{}

/// An accepted package is never stuck: with receivers of its public structs, no action of a host leads to a step that leaves
/// its type or its bounds, within whatever number of turns, however often a call suspends and goes on, and though calls
/// interleave, come before an init or meet a disabled receiver. Its methods have an order in which each stands
/// after those that it calls, and so it is in each such order.
pub fn an_accepted_package_is_never_stuck()
    ensures { AcceptedAreNeverStuck }
{}

/// A refusal stands in one of the package's files.
pub fn a_refusal_has_its_file()
    ensures { RefusalsHaveFiles }
{}

/// What the clause `answered` of `wuffs_tool` says is by the package's verdict, where the words are a command form, the inputs tell
/// what the package's files hold, no fault is counted and memory isn't refused. A package that is refused ends so, and the line of its
/// refusal is written. Over one that is accepted `check` writes its line and `gen` its C text. `run` and `mean`, where the inputs tell
/// the script, and `exec`, where they tell the text too, end as the script does and write its report, or the line of the script's or
/// the text's own refusal: `run` and `exec` by what is seen of the text's engine, `mean` by the package's source.
pub fn an_answer_is_the_verdict()
    ensures { AnswersAreVerdicts }
{}

/// Words call for an ending and a text with no fault counted, where the inputs tell what the files, the script and the text hold that
/// they name. By the source of an accepted package a script never comes to a reply that isn't defined.
pub fn an_answer_exists()
    ensures { AnswersExist }
{}

/// A C text that `gen` writes to its end (clause `lawful` of `wuffs_tool`), of at most 1,048,576 bytes, is read back to the very tree of
/// which it is the text. So `exec` over it never refuses it, and a script calls for the same ending and the same report over it as `run`
/// over the package, with its methods and structs in the order of that text: whatever `exec` calls for, `run` does.
pub fn a_text_runs_as_its_package()
    ensures texts { UnitTextsRunAlike }
    ensures packages { OwnTextsRunAsPackages }
{}

/// Over a plain loader `run` writes the report of a script by `c_run` of the package's C text, and `exec` that by `c_run` of the text
/// that is handed in: whatever words call for by what the loader tells (clauses `written` and `answered` of `wuffs_tool`), they call for
/// by `c_run`, and for nothing else.
pub fn plain_loaders_run_by_c()
    ensures { PlainLoadersRunByC }
{}
