// The laws of lowering. Each is the contract of a function that does nothing.

ghost use Rattle.std.specs.Prelude.{ℕ, ◌<◌, ◌≤◌, ◌^◌, length};
ghost use Rattle.wf_ast.specs.TypedTree.{Site, Block};
ghost use Rattle.wf_meaning.specs.Remaining.{points_in, number_of};
ghost use Rattle.wf_lower_stmts.specs.Forms.{Form};
ghost use Rattle.wf_lower_stmts.specs.Lower.{Trail};
ghost use Rattle.wf_lower_stmts.specs.Laws.{PointsAgree, AreInts, ResumesAtPoint, AreSpelt, IsSpelt, ContinuesAtLoop, BreaksBehindLoop};

/// The points of a block, with their trails, are those of the source's meaning.

pub fn points_agree()
    ensures { (n : Site → ℕ) (k : ℕ) (b : Block) (t : Trail) → PointsAgree n k b t }
{}

/// The `case` of a point stands where the point does: it is found with the rest of the point's statement after it, and
/// after that what follows the point in the source.
pub fn resumes_at_point()
    ensures { (f : Form) (n : Site → ℕ) (k : ℕ) (b : Block) (t : Trail) → AreInts n → ResumesAtPoint f n k b t }
{}

/// A `goto` to the end of a loop's body, which a `continue` is, leads there: the label is found at the end of the body of
/// the loop with this number, or, where the code is that body's own, after it.
pub fn continues_at_loop()
    ensures { (f : Form) (n : Site → ℕ) (w : ℕ) (b : Block) (t : Trail) → w < 2 ^ 64 → AreSpelt b → IsSpelt t → ContinuesAtLoop f n w b t }
{}

/// A `goto` after a loop, which a `break` is, leads there: after the label stands what follows the loop in its block, and
/// after that what follows the block.
pub fn breaks_behind_loop()
    ensures { (f : Form) (n : Site → ℕ) (w : ℕ) (b : Block) (t : Trail) → w < 2 ^ 64 → AreSpelt b → BreaksBehindLoop f n w b t }
{}

/// The points of a method have numbers that are ints, where it has no more than the 1,024 points that a method may have.
pub fn few_points_have_ints()
    ensures { (body : Block) → length (points_in body) ≤ 1024 → AreInts (number_of body) }
{}
