// The arguments of a call, judged by the names declared so far.

ghost use Rattle.std.specs.Prelude.{◌≡◌, ◌<◌, ◌-◌, ◌^◌, length, bytes_eq, find, OnOk};
ghost use Rattle.std.specs.List.{position, list_any};
ghost use Rattle.std.specs.Option.{option_copied, ok_or};
ghost use Rattle.wf_base.specs.LawfulActions.{struct_numbered};
ghost use Rattle.wf_bufs.specs.SurfaceViews.{arg_kind_of, receiver_of};
ghost use Rattle.wf_base.specs.BaseTable.{bits_of};
ghost use Rattle.wf_script_rules.specs.declared.rules.XRule.TheVariants.{X3};
ghost use Rattle.wf_script_rules.specs.Words.{cut_at};
ghost use Rattle.wf_script_rules.specs.Values.{known_struct, known_method, flag_value, io_value, bytes_value, number_value, value_of, unless_given, names_same, arg_word, arg_value, with_arg, with_args, all_given, args_of};
ghost use Rattle.wf_script_rules.specs.Answers.{Answers, Gives};
ghost use Rattle.wf_script.specs.Values.{GivenBy, word_of_arg};

use crate::names::Names;
use std::alloc::Global;
use wf_base::Width;
use wf_bufs::{Arg, ArgDecl, ArgKind, MethodDecl, PublicSurface, ReceiverDecl, StructDecl};
use wf_script_rules::words::{cut_at, demand, is_null, number_up_to};
use wf_script_rules::{LineFault, Words, XRule};
use wf_text::StructId;

/// What stands before and after the first byte `mark`; X3 where there is none.
pub(crate) fn parts_at(mark: u8, word: &[u8]) -> Result<(&[u8], &[u8]), XRule>
    ensures { Answers (λ parts. (parts.0.now, parts.1.now)) result (ok_or (cut_at mark word.now) X3) }
{
    match cut_at(mark, word) {
        Some(parts) => Ok(parts),
        None => Err(XRule::X3),
    }
}

fn struct_named<'s>(surface: &'s PublicSurface, word: &[u8]) -> Option<&'s StructDecl>
    ensures { option_copied result ≡ find (λ it. bytes_eq it.name word.now) surface.now.structs }
{
    surface.structs.iter().find(|it| it.name.as_slice() == word)
}

/// The public struct of this name; X2 where there is none.
#[tactic(auto, unfolding(wf_script_rules::specs::Values::known_struct))]
pub(crate) fn known_struct<'s>(
    surface: &'s PublicSurface,
    word: &[u8],
) -> Result<&'s StructDecl, XRule>
    ensures { Answers (λ it. it.now) result (known_struct surface.now word.now) }
{
    match struct_named(surface, word) {
        Some(it) => Ok(it),
        None => Err(XRule::X2),
    }
}

/// The public struct with this number.
pub fn struct_numbered(surface: &PublicSurface, of: StructId) -> Option<&StructDecl>
    ensures { option_copied result ≡ struct_numbered surface.now of.0 }
{
    surface.structs.iter().find(|it| it.number == of)
}

fn method_named<'s>(it: &'s StructDecl, word: &[u8]) -> Option<&'s MethodDecl>
    ensures { option_copied result ≡ find (λ method. bytes_eq method.name word.now) it.now.methods }
{
    it.methods
        .iter()
        .find(|method| method.name.as_slice() == word)
}

/// The public method of this name of a receiver's struct; X2 where there is none.
#[tactic(auto, unfolding(wf_script_rules::specs::Values::known_method))]
pub(crate) fn known_method<'s>(
    surface: &'s PublicSurface,
    receiver: ReceiverDecl,
    word: &[u8],
) -> Result<&'s MethodDecl, XRule>
    ensures { Answers (λ it. it.now) result (known_method surface.now (receiver_of receiver) word.now) }
{
    match struct_numbered(surface, receiver.of) {
        Some(it) => match method_named(it, word) {
            Some(method) => Ok(method),
            None => Err(XRule::X2),
        },
        None => Err(XRule::X2),
    }
}

#[tactic(auto, unfolding(wf_script_rules::specs::Values::flag_value))]
fn flag_value(word: &[u8]) -> Result<Arg, XRule>
    ensures { result ≡ flag_value word.now }
{
    if word == b"true".as_slice() {
        Ok(Arg::Flag(true))
    } else if word == b"false".as_slice() {
        Ok(Arg::Flag(false))
    } else {
        Err(XRule::X3)
    }
}

#[tactic(auto, unfolding(wf_script_rules::specs::Values::io_value))]
fn io_value(names: &Names, word: &[u8]) -> Result<Arg, XRule>
    ensures { result ≡ io_value names.now word.now }
{
    if is_null(word) {
        return Ok(Arg::Io(None));
    }
    let k = names.known_buffer(word)?;
    Ok(Arg::Io(Some(k)))
}

#[tactic(auto, unfolding(wf_script_rules::specs::Values::bytes_value))]
fn bytes_value(names: &Names, word: &[u8]) -> Result<Arg, XRule>
    ensures { result ≡ bytes_value names.now word.now }
{
    if is_null(word) {
        return Ok(Arg::Bytes(None));
    }
    let k = names.known_array(word)?;
    Ok(Arg::Bytes(Some(k)))
}

fn greatest(width: Width) -> u64
    ensures { result ≡ 2 ^ bits_of width - 1 }
{
    match width {
        Width::W8 => u8::MAX as u64,
        Width::W16 => u16::MAX as u64,
        Width::W32 => u32::MAX as u64,
        Width::W64 => u64::MAX,
    }
}

#[tactic(auto, unfolding(wf_script_rules::specs::Values::number_value))]
fn number_value(width: Width, word: &[u8]) -> Result<Arg, XRule>
    ensures { result ≡ number_value (bits_of width) word.now }
{
    let n = number_up_to(greatest(width), word)?;
    Ok(Arg::Num(n))
}

/// The value of an argument of this kind. Only slices of bytes can be given.
fn value_of(names: &Names, kind: ArgKind, word: &[u8]) -> Result<Arg, XRule>
    ensures { result ≡ value_of names.now (arg_kind_of kind) word.now }
{
    match kind {
        ArgKind::Number(width) => number_value(width, word),
        ArgKind::Flag => flag_value(word),
        ArgKind::Reader | ArgKind::Writer => io_value(names, word),
        ArgKind::Slice(Width::W8) => bytes_value(names, word),
        ArgKind::Slice(_) => Err(XRule::X3),
    }
}

fn unless_given(given: bool, value: Result<Arg, XRule>) -> Result<Arg, XRule>
    ensures { result ≡ unless_given given value }
{
    match (given, value) {
        (false, value) => value,
        (true, Err(XRule::X2)) => Err(XRule::X2),
        (true, _) => Err(XRule::X3),
    }
}

fn names_same(value: Arg, other: Option<Arg>) -> bool
    ensures { result ≡ names_same value other }
{
    match (value, other) {
        (Arg::Io(Some(j)), Some(Arg::Io(Some(k)))) => j == k,
        (Arg::Bytes(Some(j)), Some(Arg::Bytes(Some(k)))) => j == k,
        _ => false,
    }
}

fn stands(value: Arg, given: &[Option<Arg>]) -> bool
    ensures { result ≡ list_any (names_same value) given.now }
{
    given.iter().any(|other| names_same(value, *other))
}

fn arg_named(args: &[ArgDecl], name: &[u8]) -> Option<usize>
    ensures { result ≡ position (λ it. bytes_eq it.name name.now) args.now }
{
    args.iter().position(|it| it.name.as_slice() == name)
}

/// A word that gives an argument: its number, its kind, and the text of its value.
#[derive(Clone, Copy)]
pub(crate) struct ArgWord<'a> {
    number: usize,
    kind: ArgKind,
    text: &'a [u8],
}

#[tactic(auto, unfolding(wf_script_rules::specs::Values::arg_word))]
fn arg_word<'a>(args: &[ArgDecl], word: &'a [u8]) -> Result<ArgWord<'a>, XRule>
    ensures { Answers word_of_arg result (arg_word args.now word.now) }
{
    let (name, text) = parts_at(b'=', word)?;
    let Some(number) = arg_named(args, name) else {
        return Err(XRule::X3);
    };
    match args.get(number) {
        Some(it) => Ok(ArgWord {
            number,
            kind: it.kind,
            text,
        }),
        None => Err(XRule::X3),
    }
}

#[tactic(auto, unfolding(wf_script_rules::specs::Values::arg_value))]
fn arg_value(names: &Names, given: &[Option<Arg>], at: &ArgWord<'_>) -> Result<Arg, XRule>
    ensures value { result ≡ arg_value names.now given.now (word_of_arg at.now) }
    ensures within { OnOk result (at.now.number < length given.now) }
{
    let Some(before) = given.get(at.number) else {
        return Err(XRule::X3);
    };
    let value = unless_given(before.is_some(), value_of(names, at.kind, at.text))?;
    demand(!stands(value, given), XRule::X5)?;
    Ok(value)
}

#[tactic(auto, unfolding(wf_script_rules::specs::Values::with_arg))]
fn with_arg(
    names: &Names,
    args: &[ArgDecl],
    given: &mut [Option<Arg>],
    word: &[u8],
) -> Result<(), XRule>
    ensures { GivenBy result given.new (with_arg names.now args.now given.old word.now) }
{
    let at = arg_word(args, word)?;
    let value = arg_value(names, given, &at)?;
    given[at.number] = Some(value);
    Ok(())
}

#[tactic(auto, unfolding(wf_script_rules::specs::Values::with_args))]
fn with_args(
    names: &Names,
    args: &[ArgDecl],
    given: &mut [Option<Arg>],
    words: &mut Words<'_>,
) -> Result<(), XRule>
    ensures { GivenBy result given.new (with_args names.now args.now given.old words.old) }
{
    while let Some(word) = words.take() {
        with_arg(names, args, given, word)?;
    }
    Ok(())
}

#[tactic(auto, unfolding(wf_script_rules::specs::Values::all_given))]
fn all_given(alloc: Global, given: &[Option<Arg>]) -> Result<Vec<Arg>, LineFault>
    ensures { Gives (λ args. args.items) result (all_given given.now) }
{
    let mut args = Vec::new(alloc);
    for one in given {
        match one {
            Some(arg) => args.push(*arg)?,
            None => return Err(LineFault::Refused(XRule::X3)),
        }
    }
    Ok(args)
}

/// The arguments of a call, in declared order.
#[tactic(auto, unfolding(wf_script_rules::specs::Values::args_of))]
pub(crate) fn args_of(
    alloc: Global,
    names: &Names,
    args: &[ArgDecl],
    words: &mut Words<'_>,
) -> Result<Vec<Arg>, LineFault>
    ensures { Gives (λ all. all.items) result (args_of names.now args.now words.old) }
{
    let mut given = vec![in alloc; None; args.len()]?;
    with_args(names, args, given.as_mut_slice(), words)?;
    all_given(alloc, given.as_slice())
}
