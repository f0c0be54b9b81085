// The statements of a body with their numbers, in the order of the text: blocks are gone through by a list of what is left,
// whatever the depth of their nesting and the length of a chain of `else if`.

ghost use Rattle.std.specs.Prelude.{◌≡◌, ◌<◌, ◌≤◌, ◌+◌, ◌++◌, Bool, length, map, IfOk, OnOk};
ghost use Rattle.c_text.specs.CNodes.{code_of};
ghost use Rattle.c_text.specs.CBlocks.{HasBlocks, blocks_in};
ghost use Rattle.c_step_places.specs.Places.{places_of, place_in, HasPlace, HasPlaces, left_of, place_size, size_of, inner_places, rest_number, inner_size};
ghost use Rattle.c_step_places.specs.Weights.{WeighsAll};

use crate::weighing::{Weighed, next_number};
use c_text::{Blocks, CStmtId, Unit};
use std::alloc::Global;
use wf_text::NoMemory;

/// A statement of a body, with what follows it in its block.
#[derive(Clone, Copy)]
pub struct Place {
    /// The statement.
    pub stmt: CStmtId,
    /// Its number.
    pub number: usize,
}

/// The number of the rest of a block after a statement with blocks in it.
fn number_after(it: &Weighed, inner: Blocks, i: usize) -> Result<usize, NoMemory>
    requires weights { WeighsAll it.now.unit.now it.now.weights.now }
    requires inner { HasBlocks it.now.unit.now inner }
    ensures { IfOk result (λ n. n ≡ rest_number i (blocks_in it.now.unit.now inner)) }
{
    match inner {
        Blocks::None => next_number(i),
        Blocks::One(body) => it.past(i, body),
        Blocks::Switch(body) => it.past(i, body),
        Blocks::Branch(body, other) => it.past_both(i, body, other),
    }
}

/// Adds statements to those that are left: they come next.
fn put(unit: &Unit, left: &mut Vec<Place>, stmt: CStmtId, number: usize) -> Result<(), NoMemory>
    requires stmt { stmt.0 < length unit.now.stmts }
    requires has { HasPlaces unit.now left.old.items }
    ensures has { OnOk result (HasPlaces unit.now left.new.items) }
    ensures places { OnOk result ((e : Bool) → left_of unit.now e left.new.items ≡ places_of e number (code_of unit.now stmt.0) ++ left_of unit.now e left.old.items) }
    ensures size { OnOk result (size_of unit.now left.new.items ≡ size_of unit.now left.old.items + place_size unit.now (record { stmt = stmt; number = number })) }
{
    left.push(Place { stmt, number })?;
    Ok(())
}

/// Adds the blocks in a statement to those that are left.
fn put_inner(
    it: &Weighed,
    left: &mut Vec<Place>,
    inner: Blocks,
    i: usize,
    enters: bool,
) -> Result<(), NoMemory>
    requires weights { WeighsAll it.now.unit.now it.now.weights.now }
    requires inner { HasBlocks it.now.unit.now inner }
    requires has { HasPlaces it.now.unit.now left.old.items }
    ensures has { OnOk result (HasPlaces it.now.unit.now left.new.items) }
    ensures places { OnOk result (left_of it.now.unit.now enters left.new.items ≡ inner_places enters i (blocks_in it.now.unit.now inner) (left_of it.now.unit.now enters left.old.items)) }
    ensures size { OnOk result (size_of it.now.unit.now left.new.items ≤ size_of it.now.unit.now left.old.items + inner_size (blocks_in it.now.unit.now inner)) }
{
    let inside = next_number(i)?;
    match inner {
        Blocks::None => Ok(()),
        Blocks::One(body) => put(it.unit, left, body, inside),
        Blocks::Switch(body) => {
            if enters {
                put(it.unit, left, body, inside)
            } else {
                Ok(())
            }
        }
        Blocks::Branch(body, other) => {
            let second = it.second(i, body)?;
            put(it.unit, left, other, second)?;
            put(it.unit, left, body, inside)
        }
    }
}

/// Lists a statement and leaves what is in it and after it; at the end of a block nothing.
fn list(
    it: &Weighed,
    at: Place,
    enters: bool,
    left: &mut Vec<Place>,
    listed: &mut Vec<Place>,
) -> Result<(), NoMemory>
    requires weights { WeighsAll it.now.unit.now it.now.weights.now }
    requires at { HasPlace it.now.unit.now at }
    requires left { HasPlaces it.now.unit.now left.old.items }
    requires listed { HasPlaces it.now.unit.now listed.old.items }
    ensures left { OnOk result (HasPlaces it.now.unit.now left.new.items) }
    ensures listed { OnOk result (HasPlaces it.now.unit.now listed.new.items) }
    ensures places { OnOk result (map (place_in it.now.unit.now) listed.new.items ++ left_of it.now.unit.now enters left.new.items ≡ map (place_in it.now.unit.now) listed.old.items ++ (places_of enters at.number (code_of it.now.unit.now at.stmt.0) ++ left_of it.now.unit.now enters left.old.items)) }
    ensures falls { OnOk result (size_of it.now.unit.now left.new.items < size_of it.now.unit.now left.old.items + place_size it.now.unit.now at) }
{
    let Some((inner, rest)) = it.unit.apart(at.stmt) else {
        return Ok(());
    };
    listed.push(at)?;
    let after = number_after(it, inner, at.number)?;
    put(it.unit, left, rest, after)?;
    put_inner(it, left, inner, at.number, enters)
}

/// The statements from `body` on, which has a number, and those in their blocks, in the order of the text; `enters` tells
/// whether those in the blocks of a `switch` are among them.
pub fn list_places(
    alloc: Global,
    it: &Weighed,
    body: CStmtId,
    number: usize,
    enters: bool,
) -> Result<Vec<Place>, NoMemory>
    requires weights { WeighsAll it.now.unit.now it.now.weights.now }
    requires body { body.0 < length it.now.unit.now.stmts }
    ensures places { IfOk result (λ listed. map (place_in it.now.unit.now) listed.items ≡ places_of enters number (code_of it.now.unit.now body.0)) }
    ensures has { IfOk result (λ listed. HasPlaces it.now.unit.now listed.items) }
{
    let mut listed = Vec::new(alloc);
    let mut left = Vec::new(alloc);
    put(it.unit, &mut left, body, number)?;
    while let Some(at) = left.pop() {
        list(it, at, enters, &mut left, &mut listed)?;
    }
    Ok(listed)
}
