// The files of a package are taken, and their bytes are judged; a script may be taken after them.

ghost use Rattle.std.specs.Prelude.{◌≡◌, ◌-◌, ◌^◌, ◌<◌, ◌≤◌, ◌++◌, ◌∷◌, [], true, None, length, map, string_bytes, IfErr, IfNone, IfOk};
ghost use Rattle.wf_ast.specs.TypedPackage.{package_of};
ghost use Rattle.wf_named.specs.NamedParts.{named_package};
ghost use Rattle.wf_tool.specs.Sizes.{too_large, too_many};
ghost use Rattle.wf_tool.specs.Taken.{AcceptsPackage, CountsTaking, Judges, JudgesNamed, JudgesPackage, JudgesRead, JudgesReady, JudgesReadyText, JudgesTaken, NamesFailed, ReadiesPackage, ReadiesText, StopsPackage, TakesPackage, TakesScript};
ghost use Rattle.wf_tool.specs.Views.{words_seen};
ghost use Rattle.wf_tool.specs.Words.{is_package_name};

use crate::taking::{TakingFault, first_place, take_files, take_other};
use crate::words::{PackageWords, TextWords};
use std::alloc::Global;
use wf_ast::Package;
use wf_bounds::{Accepted, check};
use wf_named::Named;
use wf_names::resolving::resolve;
use wf_outside::Inputs;
use wf_parse::parse;
use wf_text::{PhaseFault, Refusal, Rule};
use wf_types::typing::type_check;

/// How many files a package may have.
const MOST_FILES: usize = 16;

/// L2 at the first file beyond the number of files.
fn too_many(count: usize) -> Option<Refusal>
    ensures refused { result ≡ too_many count }
    ensures few { IfNone result (count ≤ 16) }
{
    if count <= MOST_FILES {
        None
    } else {
        Some(Refusal {
            rule: Rule::L2,
            at: first_place(MOST_FILES),
        })
    }
}

/// Accepts a package whose names are resolved, or refuses it: by its types and effects, then by its bounds and its points.
fn judge_named(alloc: Global, named: Named) -> Result<Accepted, PhaseFault>
    ensures { JudgesNamed (named_package named) result }
{
    let typed = type_check(alloc, named)?;
    check(alloc, typed)
}

/// Accepts a package that is read, or refuses it: by its names, and then by all that comes after them.
fn judge_read(alloc: Global, parsed: Package) -> Result<Accepted, PhaseFault>
    ensures { JudgesRead parsed result }
{
    let named = resolve(alloc, parsed)?;
    judge_named(alloc, named)
}

/// Accepts a package whose files are within the limits, or answers the first refusal.
pub(crate) fn judge_files(
    alloc: Global,
    name: &str,
    files: &[Vec<u8>],
) -> Result<Accepted, PhaseFault>
    requires named { is_package_name name.now ≡ true }
    requires sized { too_large (map (λ bytes. bytes.items) files.now) ≡ None }
    ensures { Judges name.now (map (λ bytes. bytes.items) files.now) result }
{
    let parsed = parse(alloc, name, files)?;
    judge_read(alloc, parsed)
}

/// The same of files that have been taken.
fn judge_taken(alloc: Global, name: &str, files: &[Vec<u8>]) -> Result<Accepted, TakingFault>
    requires named { is_package_name name.now ≡ true }
    requires sized { too_large (map (λ bytes. bytes.items) files.now) ≡ None }
    ensures { JudgesTaken name.now (map (λ bytes. bytes.items) files.now) result }
{
    Ok(judge_files(alloc, name, files)?)
}

/// Takes the files of a package, where they aren't too many.
fn take_package<I: Inputs>(
    alloc: Global,
    names: &[String],
    inputs: &mut I,
) -> Result<Vec<Vec<u8>>, TakingFault>
    requires { I.faults inputs.old < 2 ^ 64 - 1 }
    ensures takes { IfOk result (λ files. TakesPackage (I.held inputs.old) (map (λ name. string_bytes name) names.now) (map (λ bytes. bytes.items) files.items)) }
    ensures stops { IfErr result (StopsPackage (I.held inputs.old) (map (λ name. string_bytes name) names.now)) }
    ensures count { CountsTaking (I.faults inputs.old) (I.faults inputs.new) result }
    ensures name { IfErr result (NamesFailed (I.last_failed inputs.new) (map (λ name. string_bytes name) names.now)) }
    ensures same { I.held inputs.new ≡ I.held inputs.old }
{
    match too_many(names.len()) {
        Some(refusal) => Err(TakingFault::Refused(refusal)),
        None => take_files(alloc, names, inputs),
    }
}

/// How many methods an accepted package has.
fn number_of_methods(accepted: &Accepted) -> usize
    ensures { result ≡ length (package_of accepted.now.nodes).methods }
{
    accepted.typed().methods() as usize
}

/// Accepts the package with these words, whose files are taken one after the other; or tells why it isn't accepted, or a file not
/// taken.
pub(crate) fn accept_package<I: Inputs>(
    alloc: Global,
    asked: PackageWords<'_>,
    inputs: &mut I,
) -> Result<Accepted, TakingFault>
    requires named { is_package_name (words_seen asked).package_name ≡ true }
    requires faults { I.faults inputs.old < 2 ^ 64 - 1 }
    ensures verdict { AcceptsPackage (I.held inputs.old) (words_seen asked.entry) result }
    ensures count { CountsTaking (I.faults inputs.old) (I.faults inputs.new) result }
    ensures name { IfErr result (NamesFailed (I.last_failed inputs.new) (words_seen asked.entry).files) }
    ensures same { I.held inputs.new ≡ I.held inputs.old }
{
    let files = take_package(alloc, asked.files, inputs)?;
    judge_taken(alloc, asked.name, files.as_slice())
}

/// Judges the package with these words. Ok is the number of its methods.
pub(crate) fn judge_package<I: Inputs>(
    alloc: Global,
    asked: PackageWords<'_>,
    inputs: &mut I,
) -> Result<usize, TakingFault>
    requires named { is_package_name (words_seen asked).package_name ≡ true }
    requires faults { I.faults inputs.old < 2 ^ 64 - 1 }
    ensures verdict { JudgesPackage (I.held inputs.old) (words_seen asked.entry) result }
    ensures count { CountsTaking (I.faults inputs.old) (I.faults inputs.new) result }
    ensures name { IfErr result (NamesFailed (I.last_failed inputs.new) (words_seen asked.entry).files) }
    ensures same { I.held inputs.new ≡ I.held inputs.old }
{
    let accepted = accept_package(alloc, asked, inputs)?;
    Ok(number_of_methods(&accepted))
}

/// A package that is accepted, with the bytes of a script that is to run over it.
#[derive(Drop)]
pub(crate) struct Ready {
    pub accepted: Accepted,
    pub script: Vec<u8>,
}

// Judges a package whose files have been taken, and a script after them.
fn readied(
    alloc: Global,
    name: &str,
    files: &[Vec<u8>],
    script: Vec<u8>,
) -> Result<Ready, TakingFault>
    requires named { is_package_name name.now ≡ true }
    requires sized { too_large (map (λ bytes. bytes.items) files.now) ≡ None }
    ensures verdict { JudgesReady name.now (map (λ bytes. bytes.items) files.now) script.items result }
{
    let accepted = judge_taken(alloc, name, files)?;
    Ok(Ready { accepted, script })
}

// Takes a script after the files of a package, and judges the package.
fn ready_taken<I: Inputs>(
    alloc: Global,
    asked: PackageWords<'_>,
    files: &[Vec<u8>],
    script: &str,
    inputs: &mut I,
) -> Result<Ready, TakingFault>
    requires named { is_package_name (words_seen asked).package_name ≡ true }
    requires taken { TakesPackage (I.held inputs.old) (words_seen asked).files (map (λ bytes. bytes.items) files.now) }
    requires faults { I.faults inputs.old < 2 ^ 64 - 1 }
    ensures verdict { ReadiesPackage (I.held inputs.old) (words_seen asked.entry) script.now result }
    ensures count { CountsTaking (I.faults inputs.old) (I.faults inputs.new) result }
    ensures name { IfErr result (NamesFailed (I.last_failed inputs.new) ((words_seen asked.entry).files ++ script.now ∷ [])) }
    ensures same { I.held inputs.new ≡ I.held inputs.old }
{
    let script = take_other(alloc, script, asked.files.len(), inputs)?;
    readied(alloc, asked.name, files, script)
}

/// Takes the files of the package with these words and then the script with this name, and judges the package. Ok is the accepted
/// package with the bytes of the script.
pub(crate) fn ready_package<I: Inputs>(
    alloc: Global,
    asked: PackageWords<'_>,
    script: &str,
    inputs: &mut I,
) -> Result<Ready, TakingFault>
    requires named { is_package_name (words_seen asked).package_name ≡ true }
    requires faults { I.faults inputs.old < 2 ^ 64 - 1 }
    ensures verdict { ReadiesPackage (I.held inputs.old) (words_seen asked.entry) script.now result }
    ensures count { CountsTaking (I.faults inputs.old) (I.faults inputs.new) result }
    ensures name { IfErr result (NamesFailed (I.last_failed inputs.new) ((words_seen asked.entry).files ++ script.now ∷ [])) }
    ensures same { I.held inputs.new ≡ I.held inputs.old }
{
    let files = take_package(alloc, asked.files, inputs)?;
    ready_taken(alloc, asked, files.as_slice(), script, inputs)
}

/// A package that is accepted, with the bytes of a script that is to run over these bytes as its C text.
#[derive(Drop)]
pub(crate) struct ReadyText {
    pub ready: Ready,
    pub text: Vec<u8>,
}

// Judges a package whose files have been taken, and a script and a text after them.
fn readied_text(
    alloc: Global,
    name: &str,
    files: &[Vec<u8>],
    script: Vec<u8>,
    text: Vec<u8>,
) -> Result<ReadyText, TakingFault>
    requires named { is_package_name name.now ≡ true }
    requires sized { too_large (map (λ bytes. bytes.items) files.now) ≡ None }
    ensures verdict { JudgesReadyText name.now (map (λ bytes. bytes.items) files.now) script.items text.items result }
{
    let ready = readied(alloc, name, files, script)?;
    Ok(ReadyText { ready, text })
}

// Takes a text after the files of a package and a script, and judges the package.
fn text_taken<I: Inputs>(
    alloc: Global,
    asked: TextWords<'_>,
    files: &[Vec<u8>],
    script: Vec<u8>,
    inputs: &mut I,
) -> Result<ReadyText, TakingFault>
    requires named { is_package_name (words_seen asked.package_words).package_name ≡ true }
    requires taken { TakesPackage (I.held inputs.old) (words_seen asked.package_words).files (map (λ bytes. bytes.items) files.now) }
    requires script { TakesScript (I.held inputs.old) asked.script.now script.items }
    requires faults { I.faults inputs.old < 2 ^ 64 - 1 }
    ensures verdict { ReadiesText (I.held inputs.old) (words_seen asked.entry.package_words) asked.entry.script.now asked.entry.text.now result }
    ensures count { CountsTaking (I.faults inputs.old) (I.faults inputs.new) result }
    ensures name { IfErr result (NamesFailed (I.last_failed inputs.new) ((words_seen asked.entry.package_words).files ++ asked.entry.script.now ∷ asked.entry.text.now ∷ [])) }
    ensures same { I.held inputs.new ≡ I.held inputs.old }
{
    let text = take_other(
        alloc,
        asked.text,
        asked.package_words.files.len() + 1,
        inputs,
    )?;
    readied_text(alloc, asked.package_words.name, files, script, text)
}

// Takes a script after the files of a package, then a text, and judges the package.
fn script_taken<I: Inputs>(
    alloc: Global,
    asked: TextWords<'_>,
    files: &[Vec<u8>],
    inputs: &mut I,
) -> Result<ReadyText, TakingFault>
    requires named { is_package_name (words_seen asked.package_words).package_name ≡ true }
    requires taken { TakesPackage (I.held inputs.old) (words_seen asked.package_words).files (map (λ bytes. bytes.items) files.now) }
    requires faults { I.faults inputs.old < 2 ^ 64 - 1 }
    ensures verdict { ReadiesText (I.held inputs.old) (words_seen asked.entry.package_words) asked.entry.script.now asked.entry.text.now result }
    ensures count { CountsTaking (I.faults inputs.old) (I.faults inputs.new) result }
    ensures name { IfErr result (NamesFailed (I.last_failed inputs.new) ((words_seen asked.entry.package_words).files ++ asked.entry.script.now ∷ asked.entry.text.now ∷ [])) }
    ensures same { I.held inputs.new ≡ I.held inputs.old }
{
    let script = take_other(alloc, asked.script, asked.package_words.files.len(), inputs)?;
    text_taken(alloc, asked, files, script, inputs)
}

/// Takes the files of the package with these words, then the script and then the text, and judges the package. Ok is the accepted
/// package with the bytes of the script and of the text.
pub(crate) fn ready_text<I: Inputs>(
    alloc: Global,
    asked: TextWords<'_>,
    inputs: &mut I,
) -> Result<ReadyText, TakingFault>
    requires named { is_package_name (words_seen asked.package_words).package_name ≡ true }
    requires faults { I.faults inputs.old < 2 ^ 64 - 1 }
    ensures verdict { ReadiesText (I.held inputs.old) (words_seen asked.entry.package_words) asked.entry.script.now asked.entry.text.now result }
    ensures count { CountsTaking (I.faults inputs.old) (I.faults inputs.new) result }
    ensures name { IfErr result (NamesFailed (I.last_failed inputs.new) ((words_seen asked.entry.package_words).files ++ asked.entry.script.now ∷ asked.entry.text.now ∷ [])) }
    ensures same { I.held inputs.new ≡ I.held inputs.old }
{
    let files = take_package(alloc, asked.package_words.files, inputs)?;
    script_taken(alloc, asked, files.as_slice(), inputs)
}
