// The top call: from the words of a command to what is written and how the program ends.

ghost use Rattle.std.specs.Prelude.{◌≡◌, ℕ, true, ◌-◌, ◌^◌, ◌<◌, ◌≤◌, Option, IfOk, IsErr, MatchResult, map, string_bytes};
ghost use Rattle.pens.specs.Pens.{KeepsLongest};
ghost use Rattle.wf_ast.specs.TypedPackage.{package_of, surface_of};
ghost use Rattle.wf_surfaces.specs.Names.{HasNames};
ghost use Rattle.wf_lower.specs.Made.{IsSpelt};
ghost use Rattle.wf_tool_runs.specs.Lowered.{IsLowered, lowered_report};
ghost use Rattle.wf_tool_runs.specs.Runs.{CountsRun};
ghost use Rattle.wf_tool_runs.specs.Sources.{engine_report};
ghost use Rattle.wf_tool.specs.Answer.{Called, CountsInputs, CountsSink, GenWrites, IsAnswered, KeepsPieces, KeepsWholePieces, Writes, WritesLawfully};
ghost use Rattle.wf_tool.specs.Runs.{ScriptCallsFor, TextCallsFor};
ghost use Rattle.wf_tool.specs.Told.{CheckTold, EndsRun, ExecTold, GenTold, IsFaultTold, IsTold, MeanTold, RunTold, TellsText};
ghost use Rattle.wf_tool.specs.Views.{words_seen};
ghost use Rattle.wf_tool.specs.Words.{command_of, is_package_name};

use crate::ending::Ending;
use crate::generating::{lower_package, write_unit};
use crate::judging::{Ready, ReadyText, judge_package, ready_package, ready_text};
use crate::lines::{accepted_line, fault_line, refused_line, script_line, text_line, usage_line};
use crate::taking::TakingFault;
use crate::words::{Command, PackageWords, TextWords, command_of, file_name, input_name};
use c_step::Loader;
use std::alloc::{AllocError, Global};
use std::mem::ManuallyDrop;
use wf_outside::{Inputs, Sink};
use wf_script::ScriptFault;
use wf_script_drive::DriveEnd;
use wf_text::NoMemory;
use wf_tool_runs::{RunFault, run_lowered, run_source, run_text};

/// Runs the command that `words` name, which come after the program's name, over `inputs`, and writes its answer to `out`; `loader`
/// makes the engines of C texts.
///
/// `check PACKAGE FILE...`: `ok N methods` and Done for a package that keeps every rule and so is never stuck.
/// `gen PACKAGE FILE...`: the C text of such a package, in pieces of at most 4,096 bytes, and Done. It takes all memory before the
/// first byte.
/// `run PACKAGE SCRIPT FILE...`: the report of the script by the engine of the package's C text, printed and read back, in pieces of at
/// most 4,096 bytes, and Done, Turns where a call needs more turns, or Undefined where one isn't defined; `script RULE line N` and
/// ScriptRefused where the script breaks a rule. It takes all memory before the first byte.
/// `mean PACKAGE SCRIPT FILE...`: the same by the package's source, where no call is undefined.
/// `exec PACKAGE SCRIPT TEXT FILE...`: the same by the engine of another text, in place of the package's own; `text long`,
/// `text deep AT`, `text notc AT` or `text form ITEM` and TextRefused where that is none for the package.
/// A package that breaks a rule: `refused RULE FILE:LINE:COL` and Refused. Other words: a line on usage, and Usage. An input that
/// fails: `input fault FILE`, and InputFault. A sink that fails: OutputFault, with the first bytes of what was called for written.
/// NoMemory with nothing written.
pub fn wuffs_tool<I: Inputs, O: Sink, L: Loader>(
    alloc: Global,
    words: &[String],
    inputs: &mut I,
    out: &mut O,
    loader: &mut L,
) -> Ending
    requires inputs { I.faults inputs.old < 2 ^ 64 - 1 }
    requires sink { O.faults out.old < 2 ^ 64 - 1 }
    ensures written { Writes
        (Called (record {
          seen = L.seen loader.old;
          held = I.held inputs.old;
          failed = I.last_failed inputs.new;
          words = map (λ word. string_bytes word) words.now;
        }) (I.faults inputs.old) (I.faults inputs.new))
        (O.written out.old) (O.written out.new) (O.room out.old) result }
    ensures answered { I.faults inputs.new ≡ I.faults inputs.old → O.faults out.new ≡ O.faults out.old
        → IsAnswered
        (Called (record {
          seen = L.seen loader.old;
          held = I.held inputs.old;
          failed = I.last_failed inputs.new;
          words = map (λ word. string_bytes word) words.now;
        }) (I.faults inputs.old) (I.faults inputs.new))
        (O.written out.old) (O.written out.new) result }
    ensures lawful { WritesLawfully (I.held inputs.old) (command_of (map (λ word. string_bytes word) words.now)) result (O.written out.old) (O.written out.new) }
    ensures pieces { KeepsPieces (command_of (map (λ word. string_bytes word) words.now)) result (O.longest out.old) (O.longest out.new) }
    ensures inputs { CountsInputs (I.faults inputs.old) (I.faults inputs.new) result }
    ensures sink { CountsSink (O.faults out.old) (O.faults out.new) result }
    ensures same { I.held inputs.new ≡ I.held inputs.old }
    ensures loader { (L.seen loader.new ≡ L.seen loader.old) × (L.plain loader.new ≡ L.plain loader.old) }
{
    match command_of(words) {
        Some(Command::Check(asked)) => tell(check(alloc, asked, inputs), out),
        Some(Command::Gen(asked)) => generate(alloc, asked, inputs, out),
        Some(Command::Run(asked, script)) => run(alloc, asked, script, inputs, out, loader),
        Some(Command::Mean(asked, script)) => mean(alloc, asked, script, inputs, out),
        Some(Command::Exec(asked)) => exec(alloc, asked, inputs, out, loader),
        None => tell(Answer::of(Ending::Usage, usage_line(alloc)), out),
    }
}

/// An ending with the line that is written for it.
#[derive(Drop)]
struct Answer {
    ending: Ending,
    line: String,
}

impl Answer {
    // An ending with its line, unless the line's memory was refused.
    fn of(ending: Ending, line: Result<String, AllocError>) -> Result<Answer, NoMemory>
        ensures { MatchResult result (λ answer. (answer.ending ≡ ending) × (line ≡ Ok answer.line)) (λ _. IsErr line) }
    {
        let line = line?;
        Ok(Answer { ending, line })
    }
}

// Writes an answer's line, where there is one.
fn tell<O: Sink>(answer: Result<Answer, NoMemory>, out: &mut O) -> Ending
    requires countable { O.faults out.old < 2 ^ 64 - 1 }
    requires text { IfOk answer (λ it. TellsText it.ending) }
    ensures written { Writes (IsTold answer) (O.written out.old) (O.written out.new) (O.room out.old) result }
    ensures sink { CountsSink (O.faults out.old) (O.faults out.new) result }
{
    match answer {
        Ok(answer) => match out.put(answer.line.as_bytes()) {
            Ok(()) => answer.ending,
            Err(_) => Ending::OutputFault,
        },
        Err(NoMemory) => Ending::NoMemory,
    }
}

// Why a package isn't accepted, or one of its files, or what is taken after them, isn't taken.
fn fault_answer(
    alloc: Global,
    files: &[String],
    script: &str,
    text: &str,
    fault: TakingFault,
) -> Result<Answer, NoMemory>
    ensures { IfOk result (λ answer. IsFaultTold (map (λ name. string_bytes name) files.now) script.now text.now fault answer.ending (string_bytes answer.line)) }
{
    match fault {
        TakingFault::Refused(refusal) => {
            let file = file_name(files, refusal.at.file as usize);
            Answer::of(Ending::Refused, refused_line(alloc, file, refusal))
        }
        TakingFault::Failed(number) => {
            let file = input_name(files, script, text, number);
            Answer::of(Ending::InputFault, fault_line(alloc, file))
        }
        TakingFault::Memory => Err(NoMemory),
    }
}

// The answer to `check`.
fn check<I: Inputs>(
    alloc: Global,
    asked: PackageWords<'_>,
    inputs: &mut I,
) -> Result<Answer, NoMemory>
    requires named { is_package_name (words_seen asked).package_name ≡ true }
    requires faults { I.faults inputs.old < 2 ^ 64 - 1 }
    ensures told { IfOk result (λ answer. CheckTold (I.held inputs.old) (I.last_failed inputs.new) (words_seen asked.entry) (I.faults inputs.old) (I.faults inputs.new) answer.ending (string_bytes answer.line)) }
    ensures counts { I.faults inputs.old ≤ I.faults inputs.new }
    ensures same { I.held inputs.new ≡ I.held inputs.old }
{
    match judge_package(alloc, asked, inputs) {
        Ok(methods) => Answer::of(Ending::Done, accepted_line(alloc, methods)),
        Err(fault) => fault_answer(alloc, asked.files, "", "", fault),
    }
}

// Answers `gen`.
fn generate<I: Inputs, O: Sink>(
    alloc: Global,
    asked: PackageWords<'_>,
    inputs: &mut I,
    out: &mut O,
) -> Ending
    requires named { is_package_name (words_seen asked).package_name ≡ true }
    requires inputs { I.faults inputs.old < 2 ^ 64 - 1 }
    requires sink { O.faults out.old < 2 ^ 64 - 1 }
    ensures written { Writes (GenTold (I.held inputs.old) (I.last_failed inputs.new) (words_seen asked.entry) (I.faults inputs.old) (I.faults inputs.new))
        (O.written out.old) (O.written out.new) (O.room out.old) result }
    ensures lawful { GenWrites (I.held inputs.old) (words_seen asked.entry) result (O.written out.old) (O.written out.new) }
    ensures pieces { KeepsWholePieces result (O.longest out.old) (O.longest out.new) }
    ensures counts { I.faults inputs.old ≤ I.faults inputs.new }
    ensures sink { CountsSink (O.faults out.old) (O.faults out.new) result }
    ensures same { I.held inputs.new ≡ I.held inputs.old }
{
    match lower_package(alloc, asked, inputs) {
        Ok(unit) => {
            let kept = ManuallyDrop::new(unit);
            write_unit(&*kept, out)
        }
        Err(fault) => tell(fault_answer(alloc, asked.files, "", "", fault), out),
    }
}

// Answers `mean`.
fn mean<I: Inputs, O: Sink>(
    alloc: Global,
    asked: PackageWords<'_>,
    script: &str,
    inputs: &mut I,
    out: &mut O,
) -> Ending
    requires named { is_package_name (words_seen asked).package_name ≡ true }
    requires inputs { I.faults inputs.old < 2 ^ 64 - 1 }
    requires sink { O.faults out.old < 2 ^ 64 - 1 }
    ensures written { Writes (MeanTold (I.held inputs.old) (I.last_failed inputs.new) (words_seen asked.entry) script.now (I.faults inputs.old) (I.faults inputs.new))
        (O.written out.old) (O.written out.new) (O.room out.old) result }
    ensures pieces { KeepsWholePieces result (O.longest out.old) (O.longest out.new) }
    ensures counts { I.faults inputs.old ≤ I.faults inputs.new }
    ensures sink { CountsSink (O.faults out.old) (O.faults out.new) result }
    ensures same { I.held inputs.new ≡ I.held inputs.old }
{
    match ready_package(alloc, asked, script, inputs) {
        Ok(ready) => run_ready(alloc, &ready, out),
        Err(fault) => tell(fault_answer(alloc, asked.files, script, "", fault), out),
    }
}

// Runs a script over the source of a package that is accepted.
fn run_ready<O: Sink>(alloc: Global, ready: &Ready, out: &mut O) -> Ending
    requires names { HasNames ready.now.accepted.nodes }
    requires sink { O.faults out.old < 2 ^ 64 - 1 }
    ensures written { Writes (ScriptCallsFor (surface_of (package_of ready.now.accepted.nodes)) (engine_report (package_of ready.now.accepted.nodes)) ready.now.script.items)
        (O.written out.old) (O.written out.new) (O.room out.old) result }
    ensures pieces { KeepsWholePieces result (O.longest out.old) (O.longest out.new) }
    ensures sink { CountsSink (O.faults out.old) (O.faults out.new) result }
{
    let ended = run_source(alloc, &ready.accepted, ready.script.as_slice(), out);
    end_run(alloc, ended, out)
}

// How the program ends where a script was run. Where the script breaks a rule, its line is written.
fn end_run<O: Sink>(alloc: Global, ended: Result<DriveEnd, ScriptFault>, out: &mut O) -> Ending
    requires sink { IsErr ended → O.faults out.old < 2 ^ 64 - 1 }
    ensures written { EndsRun ended (O.written out.old) (O.written out.new) (O.room out.old) result }
    ensures pieces { (longest : Option ℕ) → KeepsLongest longest (O.longest out.old) → KeepsWholePieces result longest (O.longest out.new) }
    ensures sink { (before : ℕ) → CountsRun before (O.faults out.old) ended → CountsSink before (O.faults out.new) result }
{
    match ended {
        Ok(DriveEnd::Done) => Ending::Done,
        Ok(DriveEnd::Turns { line: _ }) => Ending::Turns,
        Ok(DriveEnd::Undefined { line: _ }) => Ending::Undefined,
        Ok(DriveEnd::OutFailed) => Ending::OutputFault,
        Err(ScriptFault::Refused { line, rule }) => {
            let answer = Answer::of(Ending::ScriptRefused, script_line(alloc, rule, line));
            tell(answer, out)
        }
        Err(ScriptFault::Memory) => Ending::NoMemory,
    }
}

// Answers `run`.
fn run<I: Inputs, O: Sink, L: Loader>(
    alloc: Global,
    asked: PackageWords<'_>,
    script: &str,
    inputs: &mut I,
    out: &mut O,
    loader: &mut L,
) -> Ending
    requires named { is_package_name (words_seen asked).package_name ≡ true }
    requires inputs { I.faults inputs.old < 2 ^ 64 - 1 }
    requires sink { O.faults out.old < 2 ^ 64 - 1 }
    ensures written { Writes (RunTold (L.seen loader.old) (I.held inputs.old) (I.last_failed inputs.new) (words_seen asked.entry) script.now (I.faults inputs.old) (I.faults inputs.new))
        (O.written out.old) (O.written out.new) (O.room out.old) result }
    ensures pieces { KeepsWholePieces result (O.longest out.old) (O.longest out.new) }
    ensures counts { I.faults inputs.old ≤ I.faults inputs.new }
    ensures sink { CountsSink (O.faults out.old) (O.faults out.new) result }
    ensures same { I.held inputs.new ≡ I.held inputs.old }
    ensures loader { (L.seen loader.new ≡ L.seen loader.old) × (L.plain loader.new ≡ L.plain loader.old) }
{
    match ready_package(alloc, asked, script, inputs) {
        Ok(ready) => run_package(alloc, &ready, out, loader),
        Err(fault) => tell(fault_answer(alloc, asked.files, script, "", fault), out),
    }
}

// Runs a script over the C text of a package that is accepted.
fn run_package<O: Sink, L: Loader>(
    alloc: Global,
    ready: &Ready,
    out: &mut O,
    loader: &mut L,
) -> Ending
    requires names { HasNames ready.now.accepted.nodes }
    requires spelt { IsSpelt ready.now.accepted.nodes }
    requires lowered { IsLowered (package_of ready.now.accepted.nodes) }
    requires sink { O.faults out.old < 2 ^ 64 - 1 }
    ensures written { Writes (ScriptCallsFor (surface_of (package_of ready.now.accepted.nodes)) (lowered_report (L.seen loader.old) (package_of ready.now.accepted.nodes)) ready.now.script.items)
        (O.written out.old) (O.written out.new) (O.room out.old) result }
    ensures pieces { KeepsWholePieces result (O.longest out.old) (O.longest out.new) }
    ensures sink { CountsSink (O.faults out.old) (O.faults out.new) result }
    ensures loader { (L.seen loader.new ≡ L.seen loader.old) × (L.plain loader.new ≡ L.plain loader.old) }
{
    let ended = run_lowered(alloc, loader, &ready.accepted, ready.script.as_slice(), out);
    end_run(alloc, ended, out)
}

// Answers `exec`.
fn exec<I: Inputs, O: Sink, L: Loader>(
    alloc: Global,
    asked: TextWords<'_>,
    inputs: &mut I,
    out: &mut O,
    loader: &mut L,
) -> Ending
    requires named { is_package_name (words_seen asked.package_words).package_name ≡ true }
    requires inputs { I.faults inputs.old < 2 ^ 64 - 1 }
    requires sink { O.faults out.old < 2 ^ 64 - 1 }
    ensures written { Writes (ExecTold (L.seen loader.old) (I.held inputs.old) (I.last_failed inputs.new) (words_seen asked.entry.package_words) asked.entry.script.now asked.entry.text.now (I.faults inputs.old) (I.faults inputs.new))
        (O.written out.old) (O.written out.new) (O.room out.old) result }
    ensures pieces { KeepsWholePieces result (O.longest out.old) (O.longest out.new) }
    ensures counts { I.faults inputs.old ≤ I.faults inputs.new }
    ensures sink { CountsSink (O.faults out.old) (O.faults out.new) result }
    ensures same { I.held inputs.new ≡ I.held inputs.old }
    ensures loader { (L.seen loader.new ≡ L.seen loader.old) × (L.plain loader.new ≡ L.plain loader.old) }
{
    match ready_text(alloc, asked, inputs) {
        Ok(ready) => exec_text(alloc, &ready, out, loader),
        Err(fault) => tell(
            fault_answer(
                alloc,
                asked.package_words.files,
                asked.script,
                asked.text,
                fault,
            ),
            out,
        ),
    }
}

// Runs a script over a text that is handed in, as that of a package that is accepted.
fn exec_text<O: Sink, L: Loader>(
    alloc: Global,
    it: &ReadyText,
    out: &mut O,
    loader: &mut L,
) -> Ending
    requires names { HasNames it.now.ready.accepted.nodes }
    requires sink { O.faults out.old < 2 ^ 64 - 1 }
    ensures written { Writes (TextCallsFor (L.seen loader.old) (surface_of (package_of it.now.ready.accepted.nodes)) it.now.ready.script.items it.now.text.items)
        (O.written out.old) (O.written out.new) (O.room out.old) result }
    ensures pieces { KeepsWholePieces result (O.longest out.old) (O.longest out.new) }
    ensures sink { CountsSink (O.faults out.old) (O.faults out.new) result }
    ensures loader { (L.seen loader.new ≡ L.seen loader.old) × (L.plain loader.new ≡ L.plain loader.old) }
{
    let script = it.ready.script.as_slice();
    match run_text(
        alloc,
        loader,
        &it.ready.accepted,
        script,
        it.text.as_slice(),
        out,
    ) {
        Ok(end) => end_run(alloc, Ok(end), out),
        Err(RunFault::Script { line, rule }) => {
            end_run(alloc, Err(ScriptFault::Refused { line, rule }), out)
        }
        Err(RunFault::Text(fault)) => {
            let answer = Answer::of(Ending::TextRefused, text_line(alloc, fault));
            tell(answer, out)
        }
        Err(RunFault::Memory) => Ending::NoMemory,
    }
}
