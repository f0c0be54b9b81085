// The turned graph: each number has the list of the numbers that go to it.

ghost use Rattle.std.specs.Prelude.{◌≡◌, ◌<◌, ◌||◌, ◌&&◌, true, false, length, nat_eq, vec_len, IfOk, OnOk};
ghost use Rattle.graphs.specs.Graphs.{holds, goes, AreWithin};

use crate::rows::Row;
use crate::walk::row;
use std::alloc::Global;
use wf_text::faults::NoMemory;

// A graph of so many numbers that go nowhere.
fn still(alloc: Global, count: usize) -> Result<Vec<Row>, NoMemory>
    ensures len { IfOk result (λ rows. length rows.items ≡ count) }
    ensures none { IfOk result (λ rows. (a b : _) → goes rows.items a b ≡ false) }
{
    let mut rows = Vec::new(alloc);
    for _number in 0..count {
        rows.push(Row::new(alloc))?;
    }
    Ok(rows)
}

// Makes a number go to another.
fn join(rows: &mut Vec<Row>, a: usize, b: usize) -> Result<(), NoMemory>
    requires { a < vec_len rows.old }
    ensures len { length rows.new.items ≡ length rows.old.items }
    ensures goes { OnOk result ((c d : _) → goes rows.new.items c d ≡ (goes rows.old.items c d || (nat_eq c a && nat_eq d b))) }
{
    rows[a].push(b)?;
    Ok(())
}

// Makes all numbers of a row go to one.
fn join_row(rows: &mut Vec<Row>, row: &[usize], a: usize) -> Result<(), NoMemory>
    requires { (b : _) → holds row.now b ≡ true → b < vec_len rows.old }
    ensures len { length rows.new.items ≡ length rows.old.items }
    ensures goes { OnOk result ((b c : _) → goes rows.new.items b c ≡ (goes rows.old.items b c || (holds row.now b && nat_eq c a))) }
{
    for b in row {
        join(rows, *b, a)?;
    }
    Ok(())
}

/// The graph over the same numbers in which a number goes to another where that one goes to it in the given graph.
/// `Err` where memory was refused.
pub(crate) fn turned(alloc: Global, rows: &[Row]) -> Result<Vec<Row>, NoMemory>
    requires { AreWithin rows.now (length rows.now) }
    ensures len { IfOk result (λ turned. length turned.items ≡ length rows.now) }
    ensures goes { IfOk result (λ turned. (a b : _) → goes turned.items b a ≡ goes rows.now a b) }
{
    let mut turned = still(alloc, rows.len())?;
    for a in 0..rows.len() {
        join_row(&mut turned, row(rows, a), a)?;
    }
    Ok(turned)
}
