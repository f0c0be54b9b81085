// The laws of typed trees. Each is the contract of a function that does nothing.

ghost use Rattle.std.specs.Prelude.{◌≡◌, true, false};
ghost use Rattle.wf_ast.specs.TypedTree.{NumTree, SliceTree, CondTree};
ghost use Rattle.wf_ast.specs.Value.{State, value, span_of, truth_of};
ghost use Rattle.wf_ast.specs.Same.{same_num, same_slice, same_cond};
ghost use Rattle.wf_ast.specs.declared.things.Thing.{Thing};
ghost use Rattle.wf_ast.specs.Mentions.{num_mentions, slice_mentions, cond_mentions, AgreeBut};
ghost use Rattle.wf_ast.specs.WellTyped.{Context, well_num, well_slice, well_cond};

/// Well typed expressions of one method that are the same have the same value in every state, and are stuck in the
/// same states.
pub fn the_same_trees_have_the_same_value()
    ensures numbers { (c : Context) (s : State) (a b : NumTree) → well_num c a ≡ true → well_num c b ≡ true → same_num a b ≡ true → value s a ≡ value s b }
    ensures slices { (c : Context) (s : State) (a b : SliceTree) → well_slice c a ≡ true → well_slice c b ≡ true → same_slice a b ≡ true → span_of s a ≡ span_of s b }
    ensures conditions { (c : Context) (s : State) (a b : CondTree) → well_cond c a ≡ true → well_cond c b ≡ true → same_cond a b ≡ true → truth_of s a ≡ truth_of s b }
{}

/// An expression's value, and whether it is stuck, depends only on what the expression mentions.
pub fn a_value_depends_on_what_is_mentioned()
    ensures numbers { (x : Thing) (s s' : State) (t : NumTree) → AgreeBut x s s' → num_mentions x t ≡ false → value s t ≡ value s' t }
    ensures slices { (x : Thing) (s s' : State) (t : SliceTree) → AgreeBut x s s' → slice_mentions x t ≡ false → span_of s t ≡ span_of s' t }
    ensures conditions { (x : Thing) (s s' : State) (t : CondTree) → AgreeBut x s s' → cond_mentions x t ≡ false → truth_of s t ≡ truth_of s' t }
{}
