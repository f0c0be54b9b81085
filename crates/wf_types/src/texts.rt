// The texts of a typed package: those of the resolved one, and the texts of statuses as a caller sees them.

ghost use Rattle.std.specs.Prelude.{◌≡◌, ◌≤◌, ◌++◌, ◌∷◌, [], codes, length, take, IfOk};
ghost use Rattle.wf_named.specs.NamedParts.{named_package};
ghost use Rattle.wf_types_rules.specs.DeclaredTypes.{status_texts};
ghost use Rattle.wf_typed_tree.specs.ElaboratedPackage.{seen_text as text_seen};
ghost use Rattle.wf_types.specs.DeclaredNodes.{seen_statuses as statuses_seen};

use std::alloc::Global;
use wf_ast::{Sequence, TextId};
use wf_named::NamedNodes;
use wf_text::faults::NoMemory;
use wf_types_decls::declarations::with_text;

// How many numbers there are for texts.
const NUMBERS: usize = 4294967296;

// How many statuses the language has, with ok.
const BASE_STATUSES: usize = 10;

fn with_bytes(text: Sequence<u8>, bytes: &[u8]) -> Result<Sequence<u8>, NoMemory>
    ensures { IfOk result (λ all. all ≡ text ++ bytes.now) }
{
    let mut text = text;
    for byte in bytes {
        text.push(*byte)?;
    }
    Ok(text)
}

// The first texts of a list, so many.
fn first_texts(
    alloc: Global,
    texts: &[Sequence<u8>],
    count: usize,
) -> Result<Sequence<Sequence<u8>>, NoMemory>
    requires { count ≤ length texts.now }
    ensures { IfOk result (λ all. all ≡ take count texts.now) }
{
    let mut all = Sequence::new(alloc);
    for number in 0..count {
        all = with_text(alloc, all, texts[number].as_slice())?;
    }
    Ok(all)
}

/// The texts of a resolved package, by number. `Err` also comes where there are more than numbers.
pub(crate) fn texts_copied(
    alloc: Global,
    nodes: &NamedNodes,
) -> Result<Sequence<Sequence<u8>>, NoMemory>
    ensures { IfOk result (λ all. all ≡ nodes.now.texts) }
{
    let count = nodes.texts();
    if count > NUMBERS {
        return Err(NoMemory);
    }
    let mut all = Sequence::new(alloc);
    for number in 0..count {
        all = with_text(alloc, all, nodes.text(TextId(number as u32)))?;
    }
    Ok(all)
}

// The first byte, the package's name, a colon and a space, and the rest.
fn seen_from(
    alloc: Global,
    byte: u8,
    package_name: &[u8],
    rest: &[u8],
) -> Result<Sequence<u8>, NoMemory>
    ensures { IfOk result (λ all. all ≡ byte ∷ (package_name.now ++ (codes ": " ++ rest.now))) }
{
    let mut text = Sequence::new(alloc);
    text.push(byte)?;
    let named = with_bytes(text, package_name)?;
    let begun = with_bytes(named, b": ")?;
    with_bytes(begun, rest)
}

/// The text of a status of the package with this name, as a caller sees it.
pub(crate) fn seen_text(
    alloc: Global,
    package_name: &[u8],
    text: &[u8],
) -> Result<Sequence<u8>, NoMemory>
    ensures { IfOk result (λ all. all ≡ text_seen package_name.now text.now) }
{
    match text {
        [byte, rest @ ..] => seen_from(alloc, *byte, package_name, rest),
        [] => Ok(Sequence::new(alloc)),
    }
}

fn with_seen(
    alloc: Global,
    texts: Sequence<Sequence<u8>>,
    package_name: &[u8],
    text: &[u8],
) -> Result<Sequence<Sequence<u8>>, NoMemory>
    ensures { IfOk result (λ all. all ≡ texts ++ text_seen package_name.now text.now ∷ []) }
{
    let mut texts = texts;
    let seen = seen_text(alloc, package_name, text)?;
    texts.push(seen)?;
    Ok(texts)
}

/// The texts of all statuses as a caller sees them, where `texts` are those that are written.
pub(crate) fn seen_statuses(
    alloc: Global,
    nodes: &NamedNodes,
    texts: &[Sequence<u8>],
) -> Result<Sequence<Sequence<u8>>, NoMemory>
    requires { texts.now ≡ status_texts (named_package nodes.now) }
    ensures { IfOk result (λ all. all ≡ statuses_seen nodes.now) }
{
    let mut all = first_texts(alloc, texts, BASE_STATUSES)?;
    for text in nodes.statuses() {
        all = with_seen(alloc, all, nodes.package_name(), nodes.text(text.text))?;
    }
    Ok(all)
}
