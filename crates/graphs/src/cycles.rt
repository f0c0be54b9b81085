// Which numbers of a graph have a way back to themselves, and an order of them, by one walk.

ghost use Rattle.std.specs.Prelude.{◌≡◌, ◌<◌, ◌-◌, ◌^◌, true, length, IfOk};
ghost use Rattle.graphs.specs.Graphs.{Path, goes, AreWithin, AreCycles};
ghost use Rattle.graphs.specs.Labels.{AreLabels};
ghost use Rattle.graphs.specs.Orders.{IsOrderOffCycles};

use crate::labels::labelled;
use crate::rows::Row;
use crate::turned::turned;
use crate::walk::{leaving, row};
use std::alloc::Global;
use wf_text::faults::NoMemory;

// Whether a number goes to one that has its label.
fn stays(rows: &[Row], labels: &Vec<usize>, a: usize) -> bool
    requires a { a < length rows.now }
    requires within { AreWithin rows.now (length rows.now) }
    requires labels { AreLabels (length rows.now) (goes rows.now) labels.now.items }
    ensures sound { result ≡ true → Path (goes rows.now) a a }
    ensures complete { Path (goes rows.now) a a → result ≡ true }
{
    let own = labels[a];
    let row = row(rows, a);
    for b in row {
        if labels[*b] == own {
            return true;
        }
    }
    false
}

// The flags of a graph whose numbers have labels.
fn flags_of(alloc: Global, rows: &[Row], labels: &Vec<usize>) -> Result<Vec<bool>, NoMemory>
    requires within { AreWithin rows.now (length rows.now) }
    requires labels { AreLabels (length rows.now) (goes rows.now) labels.now.items }
    ensures { IfOk result (λ flags. AreCycles rows.now flags.items (length rows.now)) }
{
    let mut flags = Vec::new(alloc);
    for a in 0..rows.len() {
        flags.push(stays(rows, labels, a))?;
    }
    Ok(flags)
}

/// What one walk over a graph tells of its numbers: which have a way of one or more steps back to themselves, and an
/// order of them.
#[derive(Drop)]
pub struct Cycles {
    /// For each number whether it has such a way.
    pub flags: Vec<bool>,
    /// Every number once, after those that it goes to, apart from those that have a way back to it.
    pub order: Vec<u32>,
}

/// The cycles of a graph over the numbers below its size, and an order of these; `rows` lists for each number those that
/// it goes to. `Err` where memory was refused. The time is in proportion to the numbers and what they go to, and no
/// recursion is needed for it.
pub fn find_cycles(alloc: Global, rows: &[Row]) -> Result<Cycles, NoMemory>
    requires few { length rows.now < 2 ^ 32 - 1 }
    requires within { AreWithin rows.now (length rows.now) }
    ensures flags { IfOk result (λ cycles. AreCycles rows.now cycles.flags.items (length rows.now)) }
    ensures order { IfOk result (λ cycles. IsOrderOffCycles rows.now cycles.order.items) }
{
    let order = leaving(alloc, rows)?;
    let back = turned(alloc, rows)?;
    let labels = labelled(alloc, back.as_slice(), &order)?;
    let flags = flags_of(alloc, rows, &labels)?;
    Ok(Cycles { flags, order })
}
