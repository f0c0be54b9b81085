// The passes over lists of names: each adds what it can refuse to what was found before.

ghost use Rattle.std.specs.Prelude.{◌≡◌, ◌<◌, not, [], slice_get, OnOk};
ghost use Rattle.wf_text.specs.Precedence.{soonest};
ghost use Rattle.wf_names_rules.specs.Passes.{refused_if as refuses_if, doubles_of, rise_from, have_text, are_apart, are_plainly_apart as differ_plainly, reserved_name as reserves_name, reserved_of, initialize as is_refused_initialize, initializes_of, is_flagged as flags_at, flagged_from, beyond as beyond_of};

use crate::reserved::{is_initialize, is_reserved};
use crate::tables::text_bytes;
use indexmap::IndexSet;
use std::alloc::Global;
use wf_ast::parsed::Name;
use wf_ast::{PackageNodes, TextId};
use wf_text::Place;
use wf_text::faults::NoMemory;
use wf_text::found::Found;
use wf_text::rules::{Refusal, Rule};

/// That a rule is broken at a place, if it is.
pub fn refused_if(broken: bool, rule: Rule, at: Place) -> Option<Refusal>
    ensures { result ≡ refuses_if broken rule at }
{
    if broken {
        Some(Refusal { rule, at })
    } else {
        None
    }
}

/// That a name is there twice, where it isn't fresh among those before it.
pub fn twice(fresh: bool, name: Name) -> Option<Refusal>
    ensures { (seen : _) → fresh ≡ not seen → result ≡ refuses_if seen Rule.N2 name.at }
{
    if fresh {
        None
    } else {
        Some(Refusal {
            rule: Rule::N2,
            at: name.at,
        })
    }
}

/// So many names at most are compared with one another, rather than gathered in a set.
pub(crate) const FEW: usize = 8;

/// Whether the texts of these names rise from one to the next, so that no two are alike. New names do.
pub fn rise(names: &[Name]) -> bool
    ensures { result ≡ rise_from 0 names.now }
{
    let mut low: u64 = 0;
    for name in names {
        let text = name.text.0 as u64;
        if text < low {
            return false;
        }
        low = text + 1;
    }
    true
}

fn has_text(text: TextId, names: &[Name]) -> bool
    ensures { result ≡ have_text text.0 names.now }
{
    names.iter().any(|other| text.0 == other.text.0)
}

// Whether no two of these names are alike.
fn apart(names: &[Name]) -> bool
    ensures { result ≡ are_apart names.now }
{
    let mut passed = 0;
    for name in names {
        passed += 1;
        let (_, behind) = names.split_at(passed);
        if has_text(name.text, behind) {
            return false;
        }
    }
    true
}

// Whether it is seen without a set that no two of these names are alike: they rise, or they are few.
fn are_plainly_apart(names: &[Name]) -> bool
    ensures { result ≡ differ_plainly names.now }
{
    rise(names) || names.len() <= FEW && apart(names)
}

/// Names that an earlier one of the list has too, each refused at the later.
pub fn doubles(alloc: Global, found: &mut Found, names: &[Name]) -> Result<(), NoMemory>
    ensures { OnOk result (found.new ≡ soonest found.old (doubles_of [] names.now)) }
{
    if are_plainly_apart(names) {
        return Ok(());
    }
    let mut seen = IndexSet::new(alloc);
    for name in names {
        let fresh = seen.insert(name.text.0)?;
        found.refuse(twice(fresh, *name));
    }
    Ok(())
}

/// A name that nothing may be declared under.
pub(crate) fn reserved_name(parsed: &PackageNodes, name: Name) -> Option<Refusal>
    ensures { result ≡ reserves_name parsed.now.texts name }
{
    refused_if(
        is_reserved(text_bytes(parsed, name.text)),
        Rule::N3,
        name.at,
    )
}

/// Names that nothing may be declared under.
pub fn reserved(found: &mut Found, parsed: &PackageNodes, names: &[Name])
    ensures { found.new ≡ soonest found.old (reserved_of parsed.now.texts names.now) }
{
    for name in names {
        found.refuse(reserved_name(parsed, *name));
    }
}

// A method of the name `initialize`.
fn initialize(parsed: &PackageNodes, name: Name) -> Option<Refusal>
    ensures { result ≡ is_refused_initialize parsed.now.texts name }
{
    refused_if(
        is_initialize(text_bytes(parsed, name.text)),
        Rule::N3,
        name.at,
    )
}

/// Methods of the name `initialize`.
pub fn initializes(found: &mut Found, parsed: &PackageNodes, names: &[Name])
    ensures { found.new ≡ soonest found.old (initializes_of parsed.now.texts names.now) }
{
    for name in names {
        found.refuse(initialize(parsed, *name));
    }
}

fn is_flagged(flags: &[bool], a: usize) -> bool
    ensures { result ≡ flags_at (slice_get flags.now a) }
{
    match flags.get(a) {
        Some(flag) => *flag,
        None => false,
    }
}

/// Names whose number is flagged: each breaks the rule.
pub fn flagged(found: &mut Found, rule: Rule, flags: &[bool], names: &[Name])
    ensures { found.new ≡ soonest found.old (flagged_from rule 0 flags.now names.now) }
{
    let mut a = 0;
    for name in names {
        found.refuse(refused_if(is_flagged(flags, a), rule, name.at));
        a += 1;
    }
}

/// The name after the first `limit` ones, if there are so many.
pub fn beyond(names: &[Name], rule: Rule, limit: usize) -> Option<Refusal>
    ensures { result ≡ beyond_of rule limit names.now }
{
    let name = names.get(limit)?;
    Some(Refusal { rule, at: name.at })
}
