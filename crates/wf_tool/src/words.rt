// The words of a command.

ghost use Rattle.std.specs.Prelude.{◌≡◌, true, [], length, map, string_bytes, IfSome};
ghost use Rattle.std.specs.List.{list_all};
ghost use Rattle.std.specs.Option.{option_map};
ghost use Rattle.wf_tool.specs.Answer.{asked_package, file_name};
ghost use Rattle.wf_tool.specs.Told.{input_name};
ghost use Rattle.wf_tool.specs.Views.{command_seen, words_seen};
ghost use Rattle.wf_tool.specs.Words.{asked_of, command_of, is_between, is_package_byte, is_package_name, script_words, to_check, to_exec, to_gen, to_mean, to_run};

/// A package by its words: its name, and the names of its files in order.
#[derive(Clone, Copy)]
pub(crate) struct PackageWords<'a> {
    pub name: &'a str,
    pub files: &'a [String],
}

/// A package, a script and a C text by their words.
#[derive(Clone, Copy)]
pub(crate) struct TextWords<'a> {
    pub package_words: PackageWords<'a>,
    pub script: &'a str,
    pub text: &'a str,
}

/// What words ask for.
#[derive(Clone, Copy)]
pub(crate) enum Command<'a> {
    /// A package is to be checked.
    Check(PackageWords<'a>),
    /// Its C text is to be written.
    Gen(PackageWords<'a>),
    /// The script with this name is to be run over its C text.
    Run(PackageWords<'a>, &'a str),
    /// The script with this name is to be run over its source.
    Mean(PackageWords<'a>, &'a str),
    /// A script is to be run over a C text that is handed in.
    Exec(TextWords<'a>),
}

/// What words ask for: `check PACKAGE FILE...`, `gen PACKAGE FILE...`, `run PACKAGE SCRIPT FILE...`, `mean PACKAGE SCRIPT FILE...` or
/// `exec PACKAGE SCRIPT TEXT FILE...`. None for other words, which are no command form.
pub(crate) fn command_of(words: &[String]) -> Option<Command>
    ensures command { option_map command_seen result ≡ command_of (map (λ word. string_bytes word) words.now) }
    ensures named { IfSome result (λ asked. is_package_name (asked_package (command_seen asked)).package_name ≡ true) }
{
    match words {
        [command, name, rest @ ..] => {
            if is_package_name(name.as_str()) {
                asked_of(command.as_str(), name.as_str(), rest)
            } else {
                None
            }
        }
        _ => None,
    }
}

// What this command asks for of the package with this name, by the words after it.
fn asked_of<'a>(command: &str, name: &'a str, rest: &'a [String]) -> Option<Command<'a>>
    ensures command { option_map command_seen result ≡ asked_of command.now name.now (map (λ word. string_bytes word) rest.now) }
    ensures named { IfSome result (λ asked. (asked_package (command_seen asked)).package_name ≡ name.now) }
{
    if command == "check" {
        to_check(name, rest)
    } else if command == "gen" {
        to_gen(name, rest)
    } else if command == "run" {
        to_run(name, rest)
    } else if command == "mean" {
        to_mean(name, rest)
    } else if command == "exec" {
        to_exec(name, rest)
    } else {
        None
    }
}

fn to_check<'a>(name: &'a str, files: &'a [String]) -> Option<Command<'a>>
    ensures command { option_map command_seen result ≡ to_check name.now (map (λ word. string_bytes word) files.now) }
    ensures named { IfSome result (λ asked. (asked_package (command_seen asked)).package_name ≡ name.now) }
{
    match files {
        [] => None,
        _ => Some(Command::Check(PackageWords { name, files })),
    }
}

fn to_gen<'a>(name: &'a str, files: &'a [String]) -> Option<Command<'a>>
    ensures command { option_map command_seen result ≡ to_gen name.now (map (λ word. string_bytes word) files.now) }
    ensures named { IfSome result (λ asked. (asked_package (command_seen asked)).package_name ≡ name.now) }
{
    match files {
        [] => None,
        _ => Some(Command::Gen(PackageWords { name, files })),
    }
}

// A package and a script before its files.
fn script_words<'a>(name: &'a str, rest: &'a [String]) -> Option<(PackageWords<'a>, &'a str)>
    ensures words { option_map (λ it. (words_seen it.0, it.1.now)) result ≡ script_words name.now (map (λ word. string_bytes word) rest.now) }
    ensures named { IfSome result (λ it. (words_seen it.0).package_name ≡ name.now) }
{
    match rest {
        [script, files @ ..] => {
            if files.is_empty() {
                None
            } else {
                Some((PackageWords { name, files }, script.as_str()))
            }
        }
        _ => None,
    }
}

fn to_run<'a>(name: &'a str, rest: &'a [String]) -> Option<Command<'a>>
    ensures command { option_map command_seen result ≡ to_run name.now (map (λ word. string_bytes word) rest.now) }
    ensures named { IfSome result (λ asked. (asked_package (command_seen asked)).package_name ≡ name.now) }
{
    let (asked, script) = script_words(name, rest)?;
    Some(Command::Run(asked, script))
}

fn to_mean<'a>(name: &'a str, rest: &'a [String]) -> Option<Command<'a>>
    ensures command { option_map command_seen result ≡ to_mean name.now (map (λ word. string_bytes word) rest.now) }
    ensures named { IfSome result (λ asked. (asked_package (command_seen asked)).package_name ≡ name.now) }
{
    let (asked, script) = script_words(name, rest)?;
    Some(Command::Mean(asked, script))
}

fn to_exec<'a>(name: &'a str, rest: &'a [String]) -> Option<Command<'a>>
    ensures command { option_map command_seen result ≡ to_exec name.now (map (λ word. string_bytes word) rest.now) }
    ensures named { IfSome result (λ asked. (asked_package (command_seen asked)).package_name ≡ name.now) }
{
    match rest {
        [script, text, files @ ..] => {
            if files.is_empty() {
                None
            } else {
                Some(Command::Exec(TextWords {
                    package_words: PackageWords { name, files },
                    script: script.as_str(),
                    text: text.as_str(),
                }))
            }
        }
        _ => None,
    }
}

/// The name of the file with this number, from 0. No bytes where there is none.
pub(crate) fn file_name(names: &[String], number: usize) -> &str
    ensures { result.now ≡ file_name (map (λ name. string_bytes name) names.now) number }
{
    match names.get(number) {
        Some(name) => name.as_str(),
        None => "",
    }
}

/// The name of the input with this number: the files', and then these two.
pub(crate) fn input_name<'a>(
    files: &'a [String],
    script: &'a str,
    text: &'a str,
    number: usize,
) -> &'a str
    ensures { result.now ≡ input_name (map (λ name. string_bytes name) files.now) script.now text.now number }
{
    match files.get(number) {
        Some(name) => name.as_str(),
        None => { if number == files.len() { script } else { text } }
    }
}

/// Whether a name is a package's: 1 to 32 lower-case letters, digits and underscores, and not `base`.
fn is_package_name(name: &str) -> bool
    ensures { result ≡ is_package_name name.now }
{
    has_lawful_length(name) && has_lawful_bytes(name) && name != "base"
}

fn has_lawful_length(name: &str) -> bool
    ensures { result ≡ is_between 1 32 (length name.now) }
{
    1 <= name.len() && name.len() <= 32
}

fn has_lawful_bytes(name: &str) -> bool
    ensures { result ≡ list_all is_package_byte name.now }
{
    name.as_bytes().iter().all(|byte| is_package_byte(*byte))
}

fn is_package_byte(byte: u8) -> bool
    ensures { result ≡ is_package_byte byte }
{
    (b'a' <= byte && byte <= b'z') || (b'0' <= byte && byte <= b'9') || byte == b'_'
}
