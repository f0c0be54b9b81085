// The table of the points' numbers, by statement.

ghost use Rattle.std.specs.Prelude.{◌≡◌, ℕ, ◌<◌, ◌≤◌, ◌+◌, OnOk, length, vec_len, Some, None, Option};
ghost use Rattle.wf_points.specs.PointNumbers.{number_at, earlier, most_points};
ghost use Rattle.wf_points.specs.FoundPoints.{numbered_from, only_at};

use crate::finding::FoundPoint;
use std::alloc::AllocError;
use wf_ast::StmtId;

/// Gives these points, in order, the numbers 1, 2 and so on. A statement that has a number keeps it.
pub(crate) fn number_points(
    numbers: &mut Vec<Option<u32>>,
    points: &[FoundPoint],
) -> Result<(), AllocError>
    requires { length points.now ≤ most_points }
    ensures { OnOk result ((s : ℕ) → number_at numbers.new.items s ≡ earlier (number_at numbers.old.items s) (numbered_from 1 points.now s)) }
{
    for i in 0..points.len() {
        number_point(numbers, points[i].statement, i as u32 + 1)?;
    }
    Ok(())
}

// Gives a statement a number, unless it has one.
fn number_point(numbers: &mut Vec<Option<u32>>, s: StmtId, number: u32) -> Result<(), AllocError>
    ensures { OnOk result ((k : ℕ) → number_at numbers.new.items k ≡ earlier (number_at numbers.old.items k) (only_at s.0 number k)) }
{
    let s = s.0 as usize;
    make_room(numbers, s)?;
    if numbers[s].is_none() {
        numbers[s] = Some(number);
    }
    Ok(())
}

// Makes the table long enough for a statement.
fn make_room(numbers: &mut Vec<Option<u32>>, s: usize) -> Result<(), AllocError>
    ensures same { OnOk result ((k : ℕ) → number_at numbers.new.items k ≡ number_at numbers.old.items k) }
    ensures room { OnOk result (s < vec_len numbers.new) }
{
    while numbers.len() <= s {
        numbers.push(None)?;
    }
    Ok(())
}
