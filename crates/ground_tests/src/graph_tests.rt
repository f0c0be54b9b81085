// Graphs of a few numbers and of many, with ample memory: which numbers stand on cycles, and orders.

ghost use Rattle.std.specs.Prelude.{◌≡◌, ◌<◌, true, length};
ghost use Rattle.graphs.specs.Graphs.{holds, AreWithin};

use graphs::cycles::find_cycles;
use graphs::rows::Row;
use std::alloc::Global;
use std::test::Fail;
use wf_text::NoMemory;

fn row_within(row: &[usize], count: usize) -> bool
    ensures { result ≡ true → (b : _) → holds row.now b ≡ true → b < count }
{
    for b in row {
        if count <= *b {
            return false;
        }
    }
    true
}

fn all_within(rows: &[Row]) -> bool
    ensures { result ≡ true → AreWithin rows.now (length rows.now) }
{
    for row in rows {
        if !row_within(row.as_slice(), rows.len()) {
            return false;
        }
    }
    true
}

// A graph of as many numbers as there are rows, each of which goes to those of its row.
fn graph(alloc: Global, edges: &[&[usize]]) -> Result<Vec<Row>, NoMemory> {
    let mut rows = Vec::new(alloc);
    for edge in edges {
        let mut row = Row::new(alloc);
        for number in *edge {
            row.push(*number)?;
        }
        rows.push(row)?;
    }
    Ok(rows)
}

// Whether a graph has these flags and this order.
fn is_told(
    rows: &[Row],
    alloc: Global,
    on_cycles: &[bool],
    in_order: &[u32],
) -> Result<bool, NoMemory> {
    if rows.len() > 100_000 || !all_within(rows) {
        return Ok(false);
    }
    let cycles = find_cycles(alloc, rows)?;
    Ok(cycles.flags.as_slice() == on_cycles && cycles.order.as_slice() == in_order)
}

fn tells(
    alloc: Global,
    edges: &[&[usize]],
    on_cycles: &[bool],
    in_order: &[u32],
) -> Result<bool, NoMemory> {
    let rows = graph(alloc, edges)?;
    is_told(rows.as_slice(), alloc, on_cycles, in_order)
}

// A chain, a ring with a tail, two rings of which one leads to the other, two that share a number, and others.
fn small_graphs_are_told(alloc: Global) -> Result<bool, NoMemory> {
    Ok(
        tells(alloc, &[], &[], &[])?
            && tells(alloc, &[&[0]], &[true], &[0])?
            && tells(
                alloc,
                &[&[1], &[2], &[]],
                &[false, false, false],
                &[2, 1, 0],
            )?
            && tells(
                alloc,
                &[&[1], &[2], &[0, 3], &[]],
                &[true, true, true, false],
                &[3, 2, 1, 0],
            )?
            && tells(
                alloc,
                &[&[1], &[0, 2], &[3], &[2]],
                &[true, true, true, true],
                &[3, 2, 1, 0],
            )?
            && tells(
                alloc,
                &[&[1, 2], &[0], &[0], &[]],
                &[true, true, true, false],
                &[1, 2, 0, 3],
            )?,
    )
}

// Each of so many numbers goes to the next one, and the last to `end`, if that is one of them.
fn row_of_many(alloc: Global, count: usize, end: usize) -> Result<Vec<Row>, NoMemory> {
    let mut rows = Vec::new(alloc);
    for number in 1..count {
        let mut row = Row::new(alloc);
        row.push(number)?;
        rows.push(row)?;
    }
    let mut last = Row::new(alloc);
    if end < count {
        last.push(end)?;
    }
    rows.push(last)?;
    Ok(rows)
}

// Whether a number of a row of so many stands on a cycle, where the last goes to `end`.
fn is_on_a_cycle(alloc: Global, count: usize, end: usize, number: usize) -> Result<bool, NoMemory> {
    let rows = row_of_many(alloc, count, end)?;
    if rows.len() > 100_000 || !all_within(rows.as_slice()) {
        return Ok(false);
    }
    let cycles = find_cycles(alloc, rows.as_slice())?;
    Ok(cycles.flags.get(number).copied() == Some(true))
}

#[test]
fn cycles_and_orders(rt: HostRuntime) -> Result<(), Fail> {
    let alloc = rt.alloc();
    assert!(rt; small_graphs_are_told(alloc) == Ok(true));
    assert!(rt; is_on_a_cycle(alloc, 20_000, 20_000, 19_999) == Ok(false));
    assert!(rt; is_on_a_cycle(alloc, 20_000, 7, 6) == Ok(false));
    assert!(rt; is_on_a_cycle(alloc, 20_000, 7, 7) == Ok(true));
    Ok(())
}
