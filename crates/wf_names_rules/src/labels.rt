// Loops and the jumps in them: a label of a loop in a loop of the same label, a reserved one, and jumps to what no loop
// round them is.

ghost use Rattle.std.specs.Prelude.{◌≡◌, ◌++◌, ◌∷◌, [], OnOk};
ghost use Rattle.wf_names_rules.specs.Jumps.{labelled, label_jumps, jump as jump_of, is_labelled as labels_it, has_label as among_labels, label_twice as is_label_twice, reserved_label as reserves_label, unknown_label as is_unknown_label, outside_loops as is_outside_loops, jump_judged, jumped};

use crate::lists::{refused_if, reserved_name};
use crate::seen::Gathered;
use wf_ast::parsed::Name;
use wf_ast::{PackageNodes, TextId};
use wf_text::Place;
use wf_text::faults::NoMemory;
use wf_text::found::Found;
use wf_text::rules::{Refusal, Rule};

fn is_labelled(text: TextId, label: Option<Name>) -> bool
    ensures { result ≡ labels_it text.0 label }
{
    match label {
        Some(name) => name.text.0 == text.0,
        None => false,
    }
}

// Whether one of these loops has the label.
fn has_label(loops: &[Option<Name>], text: TextId) -> bool
    ensures { result ≡ among_labels loops.now text.0 }
{
    loops.iter().any(|label| is_labelled(text, *label))
}

// A label of a loop that stands in a loop of the same label.
fn label_twice(loops: &[Option<Name>], label: Name) -> Option<Refusal>
    ensures { result ≡ is_label_twice loops.now label }
{
    refused_if(has_label(loops, label.text), Rule::N2, label.at)
}

// A label of a loop that is reserved.
fn reserved_label(parsed: &PackageNodes, label: Name) -> Option<Refusal>
    ensures { result ≡ reserves_label parsed.now.texts label }
{
    reserved_name(parsed, label)
}

fn judge_label(found: &mut Found, parsed: &PackageNodes, loops: &[Option<Name>], label: Name)
    ensures { found.new ≡ jump_judged parsed.now.texts found.old (labelled loops.now label) }
{
    found.refuse(label_twice(loops, label));
    found.refuse(reserved_label(parsed, label));
}

fn judge_loop(found: &mut Found, parsed: &PackageNodes, loops: &[Option<Name>], label: Option<Name>)
    ensures { found.new ≡ jumped parsed.now.texts found.old (label_jumps loops.now label) }
{
    match label {
        Some(label) => judge_label(found, parsed, loops, label),
        None => {}
    }
}

// A jump to a label that no loop round it has.
fn unknown_label(loops: &[Option<Name>], label: Name) -> Option<Refusal>
    ensures { result ≡ is_unknown_label loops.now label }
{
    refused_if(!has_label(loops, label.text), Rule::N5, label.at)
}

// A jump without a label outside every loop.
fn outside_loops(loops: &[Option<Name>], at: Place) -> Option<Refusal>
    ensures { result ≡ is_outside_loops loops.now at }
{
    match loops.first() {
        Some(_) => None,
        None => Some(Refusal { rule: Rule::N5, at }),
    }
}

fn judge_jump(
    found: &mut Found,
    parsed: &PackageNodes,
    loops: &[Option<Name>],
    label: Option<Name>,
    at: Place,
)
    ensures { found.new ≡ jump_judged parsed.now.texts found.old (jump_of loops.now label at) }
{
    match label {
        Some(label) => found.refuse(unknown_label(loops, label)),
        None => found.refuse(outside_loops(loops, at)),
    }
}

/// A jump out of a loop or to its head: what it breaks joins that of the loops and jumps before it.
pub(crate) fn pass_jump(
    gathered: &mut Gathered,
    parsed: &PackageNodes,
    label: Option<Name>,
    at: Place,
)
    ensures { gathered.new ≡ record { row = gathered.old.row; loops = gathered.old.loops; labels = jump_judged parsed.now.texts gathered.old.labels (jump_of gathered.old.loops.items label at) } }
{
    judge_jump(
        &mut gathered.labels,
        parsed,
        gathered.loops.as_slice(),
        label,
        at,
    );
}

/// A loop begins: what its label breaks joins that of the loops and jumps before it, and the loop those round it.
pub(crate) fn enter_loop(
    gathered: &mut Gathered,
    parsed: &PackageNodes,
    label: Option<Name>,
) -> Result<(), NoMemory>
    ensures row { OnOk result (gathered.new.row ≡ gathered.old.row) }
    ensures labels { OnOk result (gathered.new.labels ≡ jumped parsed.now.texts gathered.old.labels (label_jumps gathered.old.loops.items label)) }
    ensures loops { OnOk result (gathered.new.loops.items ≡ gathered.old.loops.items ++ label ∷ []) }
{
    judge_loop(
        &mut gathered.labels,
        parsed,
        gathered.loops.as_slice(),
        label,
    );
    gathered.loops.push(label)?;
    Ok(())
}
