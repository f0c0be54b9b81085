// The statements of a body in the order of the text: blocks are gone through by a list of what is left, whatever the
// depth of their nesting and the length of a chain of `else if`.

ghost use Rattle.std.specs.Prelude.{◌≡◌, ◌<◌, ◌≤◌, ◌+◌, ◌++◌, Bool, false, length, map, IfOk, OnOk};
ghost use Rattle.c_text.specs.CNodes.{code_of};
ghost use Rattle.c_text.specs.CBlocks.{HasBlocks, blocks_in};
ghost use Rattle.c_form_stmts.specs.Lines.{lines_of, line_in, HasLine, HasLines, left_of, line_size, size_of, inner_lines, inner_size};

use c_text::{Blocks, CStmtId, Unit};
use std::alloc::Global;
use wf_text::NoMemory;

/// A statement of a body, with what follows it in its block.
#[derive(Clone, Copy)]
pub(crate) struct Line {
    /// The statement.
    pub stmt: CStmtId,
    /// Whether a `switch` stands round it.
    pub switched: bool,
}

/// Adds statements to those that are left: they come next.
fn put(unit: &Unit, left: &mut Vec<Line>, stmt: CStmtId, switched: bool) -> Result<(), NoMemory>
    requires stmt { stmt.0 < length unit.now.stmts }
    requires has { HasLines unit.now left.old.items }
    ensures has { OnOk result (HasLines unit.now left.new.items) }
    ensures lines { OnOk result ((e : Bool) → left_of unit.now e left.new.items ≡ lines_of e switched (code_of unit.now stmt.0) ++ left_of unit.now e left.old.items) }
    ensures size { OnOk result (size_of unit.now left.new.items ≡ size_of unit.now left.old.items + line_size unit.now (record { stmt = stmt; switched = switched })) }
{
    let _ = unit.stmts();
    left.push(Line { stmt, switched })?;
    Ok(())
}

/// Adds the blocks in a statement to those that are left.
fn put_inner(
    unit: &Unit,
    left: &mut Vec<Line>,
    inner: Blocks,
    switched: bool,
    enters: bool,
) -> Result<(), NoMemory>
    requires inner { HasBlocks unit.now inner }
    requires has { HasLines unit.now left.old.items }
    ensures has { OnOk result (HasLines unit.now left.new.items) }
    ensures lines { OnOk result (left_of unit.now enters left.new.items ≡ inner_lines enters switched (blocks_in unit.now inner) (left_of unit.now enters left.old.items)) }
    ensures size { OnOk result (size_of unit.now left.new.items ≤ size_of unit.now left.old.items + inner_size (blocks_in unit.now inner)) }
{
    match inner {
        Blocks::None => Ok(()),
        Blocks::One(body) => put(unit, left, body, switched),
        Blocks::Switch(body) => {
            if enters {
                put(unit, left, body, true)
            } else {
                Ok(())
            }
        }
        Blocks::Branch(body, other) => {
            put(unit, left, other, switched)?;
            put(unit, left, body, switched)
        }
    }
}

/// Lists a statement and leaves what is in it and after it; at the end of a block nothing.
fn list(
    unit: &Unit,
    at: Line,
    enters: bool,
    left: &mut Vec<Line>,
    listed: &mut Vec<Line>,
) -> Result<(), NoMemory>
    requires at { HasLine unit.now at }
    requires left { HasLines unit.now left.old.items }
    requires listed { HasLines unit.now listed.old.items }
    ensures left { OnOk result (HasLines unit.now left.new.items) }
    ensures listed { OnOk result (HasLines unit.now listed.new.items) }
    ensures lines { OnOk result (map (line_in unit.now) listed.new.items ++ left_of unit.now enters left.new.items ≡ map (line_in unit.now) listed.old.items ++ (lines_of enters at.switched (code_of unit.now at.stmt.0) ++ left_of unit.now enters left.old.items)) }
    ensures falls { OnOk result (size_of unit.now left.new.items < size_of unit.now left.old.items + line_size unit.now at) }
{
    match unit.apart(at.stmt) {
        Some((inner, rest)) => {
            listed.push(at)?;
            put(unit, left, rest, at.switched)?;
            put_inner(unit, left, inner, at.switched, enters)
        }
        None => Ok(()),
    }
}

/// The statements from `body` on and those in their blocks, in the order of the text; `enters` tells whether those in
/// the blocks of a `switch` are among them.
pub(crate) fn lines(
    alloc: Global,
    unit: &Unit,
    body: CStmtId,
    enters: bool,
) -> Result<Vec<Line>, NoMemory>
    requires { body.0 < length unit.now.stmts }
    ensures lines { IfOk result (λ it. map (line_in unit.now) it.items ≡ lines_of enters false (code_of unit.now body.0)) }
    ensures has { IfOk result (λ it. HasLines unit.now it.items) }
{
    let mut listed = Vec::new(alloc);
    let mut left = Vec::new(alloc);
    put(unit, &mut left, body, false)?;
    while let Some(at) = left.pop() {
        list(unit, at, enters, &mut left, &mut listed)?;
    }
    Ok(listed)
}
