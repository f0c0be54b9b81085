// What lists of declared names break.

ghost use Rattle.std.specs.Prelude.{◌≡◌, [], OnOk};
ghost use Rattle.wf_text.specs.Precedence.{soonest};
ghost use Rattle.wf_names_rules.specs.NameRules.{later_of as later_named};
ghost use Rattle.wf_names_decls.specs.DeclarationPass.{names_judged, declared_twice as are_declared_twice, declared_twice_in_struct as are_twice_in_struct, too_many_methods as methods_too_many, methods_judged, local_and_constant as is_local_and_constant, locals_and_constants as are_locals_and_constants, too_many_args as args_too_many, args_judged, too_many_locals as locals_too_many, locals_judged};
ghost use Rattle.wf_names_decls.specs.ConstantNames.{constant_by};

use std::alloc::Global;
use std::collections::BTreeSet;
use wf_ast::parsed::Name;
use wf_ast::{PackageNodes, TextId};
use wf_names_rules::lists::{beyond, doubles, initializes, reserved, rise, twice};
use wf_names_rules::tables::Variables;
use wf_text::faults::NoMemory;
use wf_text::found::Found;
use wf_text::precedence::is_before;
use wf_text::rules::{Refusal, Rule};

/// Names that an earlier one of the list has too.
pub(crate) fn declared_twice(
    alloc: Global,
    found: &mut Found,
    names: &[Name],
) -> Result<(), NoMemory>
    ensures { OnOk result (found.new ≡ soonest found.old (are_declared_twice names.now)) }
{
    doubles(alloc, found, names)
}

/// Of a list of names those that are declared twice, and the reserved ones.
pub(crate) fn judge_names(
    alloc: Global,
    found: &mut Found,
    parsed: &PackageNodes,
    names: &[Name],
) -> Result<(), NoMemory>
    ensures { OnOk result (found.new ≡ names_judged parsed.now.texts found.old names.now) }
{
    declared_twice(alloc, found, names)?;
    reserved(found, parsed, names);
    Ok(())
}

// Methods that an earlier one of their struct has the name of: none where the names rise. Else pairs are looked up in an
// ordered set, so that a look-up takes few comparisons whatever the names are.
fn declared_twice_in_struct(
    alloc: Global,
    found: &mut Found,
    owners: &[Name],
    names: &[Name],
) -> Result<(), NoMemory>
    ensures { OnOk result (found.new ≡ soonest found.old (are_twice_in_struct [] owners.now names.now)) }
{
    if rise(names) {
        return Ok(());
    }
    let mut seen: BTreeSet<(u32, u32)> = BTreeSet::new(alloc);
    for (owner, name) in owners.iter().zip(names) {
        let fresh = seen.insert((owner.text.0, name.text.0))?;
        found.refuse(twice(fresh, *name));
    }
    Ok(())
}

// The method after the 1,024 that a package may have.
fn too_many_methods(names: &[Name]) -> Option<Refusal>
    ensures { result ≡ methods_too_many names.now }
{
    beyond(names, Rule::L6, 1024)
}

/// The methods of a package, by the names of their structs and their own: those of a struct that are declared twice,
/// reserved names, `initialize`, and the one after the 1,024 that a package may have.
pub(crate) fn judge_methods(
    alloc: Global,
    found: &mut Found,
    parsed: &PackageNodes,
    owners: &[Name],
    names: &[Name],
) -> Result<(), NoMemory>
    ensures { OnOk result (found.new ≡ methods_judged parsed.now.texts found.old owners.now names.now) }
{
    declared_twice_in_struct(alloc, found, owners, names)?;
    reserved(found, parsed, names);
    initializes(found, parsed, names);
    found.refuse(too_many_methods(names));
    Ok(())
}

/// The constants of a package: their names, in order, and their places by their texts.
#[derive(Clone, Copy)]
pub(crate) struct Constants<'a> {
    pub names: &'a [Name],
    pub places: &'a Variables,
}

// The name of the constant of this text; of constants with one name the first.
fn constant(constants: &Constants<'_>, text: TextId) -> Option<Name>
    ensures { result ≡ constant_by constants.now.names.now constants.now.places.now text.0 }
{
    let entry = constants.places.entries.get(&text.0)?;
    constants.names.get(entry.place as usize).copied()
}

// Of two names that mean different things and are spelt alike the one after the other.
fn later_of(first: Name, second: Name) -> Refusal
    ensures { result ≡ later_named first second }
{
    let at_first = Refusal {
        rule: Rule::N2,
        at: first.at,
    };
    let at_second = Refusal {
        rule: Rule::N2,
        at: second.at,
    };
    if is_before(at_first, at_second) {
        at_second
    } else {
        at_first
    }
}

// A local of the name of a constant, at the later of the two.
fn local_and_constant(constants: &Constants<'_>, local: Name) -> Option<Refusal>
    ensures { result ≡ is_local_and_constant (constant_by constants.now.names.now constants.now.places.now local.text.0) local }
{
    let constant = constant(constants, local.text)?;
    Some(later_of(local, constant))
}

fn locals_and_constants(found: &mut Found, constants: &Constants<'_>, locals: &[Name])
    ensures { found.new ≡ soonest found.old (are_locals_and_constants (constant_by constants.now.names.now constants.now.places.now) locals.now) }
{
    for local in locals {
        found.refuse(local_and_constant(constants, *local));
    }
}

// The argument after the 64 that a method may have.
fn too_many_args(args: &[Name]) -> Option<Refusal>
    ensures { result ≡ args_too_many args.now }
{
    beyond(args, Rule::L7, 64)
}

/// The arguments of a method: declared twice, reserved, and the one after the 64 that a method may have.
pub(crate) fn judge_args(
    alloc: Global,
    found: &mut Found,
    parsed: &PackageNodes,
    args: &[Name],
) -> Result<(), NoMemory>
    ensures { OnOk result (found.new ≡ args_judged parsed.now.texts found.old args.now) }
{
    judge_names(alloc, found, parsed, args)?;
    found.refuse(too_many_args(args));
    Ok(())
}

// The local after the 256 that a method may have.
fn too_many_locals(locals: &[Name]) -> Option<Refusal>
    ensures { result ≡ locals_too_many locals.now }
{
    beyond(locals, Rule::L7, 256)
}

/// The locals of a method: declared twice, reserved, named as a constant, and the one after the 256 that a method
/// may have.
pub(crate) fn judge_locals(
    alloc: Global,
    found: &mut Found,
    parsed: &PackageNodes,
    constants: &Constants<'_>,
    locals: &[Name],
) -> Result<(), NoMemory>
    ensures { OnOk result (found.new ≡ locals_judged (constant_by constants.now.names.now constants.now.places.now) parsed.now.texts found.old locals.now) }
{
    judge_names(alloc, found, parsed, locals)?;
    locals_and_constants(found, constants, locals);
    found.refuse(too_many_locals(locals));
    Ok(())
}
