// Labels of the numbers of a graph: two have one label exactly where they are one, or each has a way to the other. The
// order in which a walk left the numbers is gone through from its end; each number that has no label yet begins a round,
// in which all that have a way to it, and no label yet, get the label of its place.

ghost use Rattle.std.specs.Prelude.{◌≡◌, ◌+◌, ◌<◌, ◌≤◌, ◌^◌, ◌++◌, [], ◌∷◌, if◌then◌else◌, length, slice_index_or, nat_eq, vec_len, IfOk, OnOk};
ghost use Rattle.graphs.specs.Graphs.{AreWithin};
ghost use Rattle.graphs.specs.Leaving.{IsLeaving};
ghost use Rattle.graphs.specs.Labels.{goes_back, AreLabels, AreJoined, IsRound};

use crate::rows::Row;
use crate::walk::{row, set_number, zeros};
use std::alloc::Global;
use wf_text::faults::NoMemory;

// Gives a number its label, and joins it to the queue.
fn give(
    labels: &mut Vec<usize>,
    queue: &mut Vec<usize>,
    a: usize,
    label: usize,
) -> Result<(), NoMemory>
    requires { a < vec_len labels.old }
    ensures len { length labels.new.items ≡ length labels.old.items }
    ensures set { OnOk result ((b d : _) → b < length labels.old.items → slice_index_or labels.new.items b d ≡ (if nat_eq b a then label else slice_index_or labels.old.items b d)) }
    ensures queue { OnOk result (queue.new.items ≡ queue.old.items ++ a ∷ []) }
{
    queue.push(a)?;
    set_number(labels, a, label);
    Ok(())
}

// Gives the round's label to all that go to the number at a place of the queue and have no label yet.
fn give_row(
    labels: &mut Vec<usize>,
    queue: &mut Vec<usize>,
    turned: &[Row],
    order: &Vec<u32>,
    p: usize,
    i: usize,
) -> Result<(), NoMemory>
    requires few { length turned.now ≤ 2 ^ 32 }
    requires within { AreWithin turned.now (length turned.now) }
    requires leaving { IsLeaving (length turned.now) (goes_back turned.now) order.now.items }
    requires p { p < length queue.old.items }
    requires i { i < length order.now.items }
    requires round { IsRound (length turned.now) (goes_back turned.now) order.now.items labels.old.items queue.old.items p i }
    ensures { OnOk result (IsRound (length turned.now) (goes_back turned.now) order.now.items labels.new.items queue.new.items (p + 1) i) }
{
    let b = queue[p];
    let row = row(turned, b);
    for a in row {
        if labels[*a] == 0 {
            give(labels, queue, *a, i + 1)?;
        }
    }
    Ok(())
}

// The round of a place of the order.
fn round(
    labels: &mut Vec<usize>,
    queue: &mut Vec<usize>,
    turned: &[Row],
    order: &Vec<u32>,
    i: usize,
) -> Result<(), NoMemory>
    requires few { length turned.now ≤ 2 ^ 32 }
    requires within { AreWithin turned.now (length turned.now) }
    requires leaving { IsLeaving (length turned.now) (goes_back turned.now) order.now.items }
    requires i { i < length order.now.items }
    requires joined { AreJoined (length turned.now) (goes_back turned.now) order.now.items labels.old.items queue.old.items (i + 1) }
    ensures { OnOk result (AreJoined (length turned.now) (goes_back turned.now) order.now.items labels.new.items queue.new.items i) }
{
    let root = order[i] as usize;
    if labels[root] != 0 {
        return Ok(());
    }
    let mut p = queue.len();
    give(labels, queue, root, i + 1)?;
    while p < queue.len() {
        give_row(labels, queue, turned, order, p, i)?;
        p += 1;
    }
    Ok(())
}

/// Labels of the numbers of a graph, by the lists of those that go to each and by the order in which a walk over the
/// graph left them. `Err` where memory was refused. The time is in proportion to the numbers and what goes to them.
pub(crate) fn labelled(
    alloc: Global,
    turned: &[Row],
    order: &Vec<u32>,
) -> Result<Vec<usize>, NoMemory>
    requires few { length turned.now ≤ 2 ^ 32 }
    requires within { AreWithin turned.now (length turned.now) }
    requires leaving { IsLeaving (length turned.now) (goes_back turned.now) order.now.items }
    ensures { IfOk result (λ labels. AreLabels (length turned.now) (goes_back turned.now) labels.items) }
{
    let mut labels = zeros(alloc, turned.len())?;
    let mut queue = Vec::new(alloc);
    let mut i = order.len();
    while i > 0 {
        i -= 1;
        round(&mut labels, &mut queue, turned, order, i)?;
    }
    Ok(labels)
}
