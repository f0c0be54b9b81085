// A walk over a graph that goes into depth: a number is left, and put into the order, when the walk has begun with all
// that it goes to. What leads to the number where the walk is stands on a path, so that nothing calls itself.

ghost use Rattle.std.specs.Prelude.{◌≡◌, ◌+◌, ◌-◌, ◌<◌, ◌≤◌, ◌^◌, ◌||◌, [], true, false, if◌then◌else◌, Some, length, take, slice_get, slice_index_or, nat_eq, vec_len, IfOk, IfSome, IfNone, OnOk};
ghost use Rattle.graphs.specs.Graphs.{holds, goes, row_at, AreWithin};
ghost use Rattle.graphs.specs.Leaving.{IsLeaving};
ghost use Rattle.graphs.specs.Walking.{IsNext, IsDone, Walks, has_begun, Remembers, Advances};

use crate::rows::Row;
use std::alloc::Global;
use wf_text::faults::NoMemory;

/// A walk over the numbers of a graph.
pub(crate) struct Walk {
    /// The numbers that were left, in that order.
    pub order: Vec<u32>,
    /// The numbers that lead to the one where the walk is, that one last.
    pub path: Vec<usize>,
    /// Of each number whether it stands in the order or on the path.
    pub begun: Vec<bool>,
    /// Of each number how many places of its row were passed.
    pub passed: Vec<usize>,
}

impl Drop for Walk {
    fn drop(self) {
        let Walk {
            order: _,
            path: _,
            begun: _,
            passed: _,
        } = self;
    }
}

impl Walk {
    // The numbers in the order in which they were left.
    fn into_order(self) -> Vec<u32>
        ensures { result ≡ self.order }
    {
        let Walk {
            order,
            path: _,
            begun: _,
            passed: _,
        } = self;
        order
    }
}

/// Where a number of a graph goes.
pub(crate) fn row(rows: &[Row], a: usize) -> &[usize]
    requires { a < length rows.now }
    ensures { result.now ≡ row_at rows.now a }
{
    rows[a].as_slice()
}

/// The first place of a row, from one on, whose number has no flag; beyond the row where all have one.
pub(crate) fn first_left(row: &[usize], flags: &Vec<bool>, from: usize) -> usize
    requires within { (b : _) → holds row.now b ≡ true → b < vec_len flags.now }
    requires from { (b : _) → holds (take from row.now) b ≡ true → slice_index_or flags.now.items b false ≡ true }
    ensures passed { (b : _) → holds (take result row.now) b ≡ true → slice_index_or flags.now.items b false ≡ true }
    ensures stops { result < length row.now → slice_index_or flags.now.items (slice_index_or row.now result 0) false ≡ false }
{
    let mut i = from;
    while i < row.len() && flags[row[i]] {
        i += 1;
    }
    i
}

/// Sets the flag of a number.
pub(crate) fn set_flag(flags: &mut Vec<bool>, a: usize)
    requires { a < vec_len flags.old }
    ensures len { length flags.new.items ≡ length flags.old.items }
    ensures set { (b d : _) → b < length flags.old.items → slice_index_or flags.new.items b d ≡ (nat_eq b a || slice_index_or flags.old.items b d) }
{
    flags[a] = true;
}

/// Sets the number of a number.
pub(crate) fn set_number(numbers: &mut Vec<usize>, a: usize, number: usize)
    requires { a < vec_len numbers.old }
    ensures len { length numbers.new.items ≡ length numbers.old.items }
    ensures set { (b d : _) → b < length numbers.old.items → slice_index_or numbers.new.items b d ≡ (if nat_eq b a then number else slice_index_or numbers.old.items b d) }
{
    numbers[a] = number;
}

// The number where the walk is.
fn last(path: &Vec<usize>) -> Option<usize>
    ensures some { IfSome result (λ a. slice_get path.now.items (length path.now.items - 1) ≡ Some a) }
    ensures none { IfNone result (path.now.items ≡ []) }
{
    path.last().copied()
}

/// So many flags, none of them set. `Err` where memory was refused.
pub(crate) fn falses(alloc: Global, count: usize) -> Result<Vec<bool>, NoMemory>
    ensures len { IfOk result (λ flags. length flags.items ≡ count) }
    ensures none { IfOk result (λ flags. (b d : _) → b < count → slice_index_or flags.items b d ≡ false) }
{
    Ok(vec![in alloc; false; count]?)
}

/// So many zeros. `Err` where memory was refused.
pub(crate) fn zeros(alloc: Global, count: usize) -> Result<Vec<usize>, NoMemory>
    ensures len { IfOk result (λ numbers. length numbers.items ≡ count) }
    ensures zero { IfOk result (λ numbers. (b d : _) → b < count → slice_index_or numbers.items b d ≡ 0) }
{
    Ok(vec![in alloc; 0; count]?)
}

// A walk that has begun nowhere yet, over a graph of so many numbers. `Err` where memory was refused.
fn nowhere(alloc: Global, count: usize) -> Result<Walk, NoMemory>
    ensures walks { IfOk result (λ walk. (rows : _) → length rows ≡ count → Walks rows walk) }
    ensures path { IfOk result (λ walk. walk.path.items ≡ []) }
{
    let begun = falses(alloc, count)?;
    let passed = zeros(alloc, count)?;
    Ok(Walk {
        order: Vec::new(alloc),
        path: Vec::new(alloc),
        begun,
        passed,
    })
}

// Goes on to a number.
fn enter(walk: &mut Walk, a: usize) -> Result<(), NoMemory>
    requires { a < vec_len walk.old.begun }
    ensures walks { OnOk result ((rows : _) → Walks rows walk.old → IsNext rows walk.old a → Advances rows walk.old walk.new) }
    ensures begun { OnOk result (has_begun walk.new a ≡ true) }
{
    walk.path.push(a)?;
    set_flag(&mut walk.begun, a);
    Ok(())
}

// Comes back from the last number of the path, which is put into the order.
fn leave(walk: &mut Walk, a: usize) -> Result<(), NoMemory>
    requires { a < 2 ^ 32 }
    ensures { OnOk result ((rows : _) → Walks rows walk.old → IsDone rows walk.old a → Advances rows walk.old walk.new) }
{
    walk.order.push(a as u32)?;
    walk.path.pop();
    Ok(())
}

// Passes what was begun in the row of a number: the first number in it that wasn't, if there is one.
fn pass(walk: &mut Walk, rows: &[Row], a: usize) -> Option<usize>
    requires a { a < length rows.now }
    requires within { AreWithin rows.now (length rows.now) }
    requires walks { Walks rows.now walk.old }
    ensures walks { Walks rows.now walk.new }
    ensures order { walk.new.order.items ≡ walk.old.order.items }
    ensures path { walk.new.path.items ≡ walk.old.path.items }
    ensures left { IfSome result (λ b. (goes rows.now a b ≡ true) × (has_begun walk.old b ≡ false)) }
    ensures whole { IfNone result ((b : _) → goes rows.now a b ≡ true → has_begun walk.old b ≡ true) }
{
    let row = row(rows, a);
    let i = first_left(row, &walk.begun, walk.passed[a]);
    set_number(&mut walk.passed, a, i);
    if i < row.len() { Some(row[i]) } else { None }
}

// One step from the last number of the path: on to one that it goes to, or back.
fn step(walk: &mut Walk, rows: &[Row], a: usize) -> Result<(), NoMemory>
    requires few { length rows.now ≤ 2 ^ 32 }
    requires within { AreWithin rows.now (length rows.now) }
    requires walks { Walks rows.now walk.old }
    requires last { slice_get walk.old.path.items (length walk.old.path.items - 1) ≡ Some a }
    ensures { OnOk result (Advances rows.now walk.old walk.new) }
{
    match pass(walk, rows, a) {
        Some(b) => enter(walk, b),
        None => leave(walk, a),
    }
}

// Walks from a number to all that it leads to, which the order then has. `Err` where memory was refused.
fn visit(walk: &mut Walk, rows: &[Row], start: usize) -> Result<(), NoMemory>
    requires few { length rows.now ≤ 2 ^ 32 }
    requires within { AreWithin rows.now (length rows.now) }
    requires walks { Walks rows.now walk.old }
    requires path { walk.old.path.items ≡ [] }
    requires start { start < length rows.now }
    ensures walks { OnOk result (Walks rows.now walk.new) }
    ensures path { OnOk result (walk.new.path.items ≡ []) }
    ensures remembers { OnOk result (Remembers walk.old walk.new) }
    ensures begun { OnOk result (has_begun walk.new start ≡ true) }
{
    if walk.begun[start] {
        return Ok(());
    }
    enter(walk, start)?;
    while let Some(a) = last(&walk.path) {
        step(walk, rows, a)?;
    }
    Ok(())
}

/// The numbers of a graph in the order in which a walk into depth leaves them. `Err` where memory was refused. No
/// recursion is needed for it, and the time is in proportion to the numbers and what they go to.
pub(crate) fn leaving(alloc: Global, rows: &[Row]) -> Result<Vec<u32>, NoMemory>
    requires few { length rows.now ≤ 2 ^ 32 }
    requires within { AreWithin rows.now (length rows.now) }
    ensures { IfOk result (λ order. IsLeaving (length rows.now) (goes rows.now) order.items) }
{
    let mut walk = nowhere(alloc, rows.len())?;
    for start in 0..rows.len() {
        visit(&mut walk, rows, start)?;
    }
    Ok(walk.into_order())
}
