// Calls of base methods as statements.

ghost use Rattle.std.specs.Prelude.{◌≡◌, ℕ, [], ◌∷◌, IsTrue, map};
ghost use Rattle.std.specs.List.{list_all};
ghost use Rattle.wf_text.specs.declared.place.Place.{Place};
ghost use Rattle.wf_ast.specs.TypedTree.{Block, Site, plain};
ghost use Rattle.wf_ast.specs.TypedTrees.{base_call as call_tree, optional_target, tree_of};
ghost use Rattle.wf_ast.specs.TypedInvariant.{IsTyped, is_expr, is_optional_expr};
ghost use Rattle.wf_meaning.specs.SourceState.{Behind, Done};
ghost use Rattle.wf_meaning.specs.SourceStep.{Callees, simple_step};
ghost use Rattle.wf_mean_exprs.specs.MachineState.{done_seen};
ghost use Rattle.wf_mean_stmts.specs.Doings.{did_if as goes_if, did_steps};
ghost use Rattle.wf_mean_stmts.specs.Stages.{body_on, shape, vars_on};

use crate::awaiting::{Did, read, skip, write};
use crate::performing::{copy_to_slice, copy_to_writer, skip_fast, write_fast};
use crate::stage::Stage;
use wf_ast::{ExprId, Typed};
use wf_base::BaseSig;
use wf_mean_exprs::objects::Progress;

/// A call of a base method as its statement has it: where its value goes, what it is called on, which method it is, and what
/// it hands over.
#[derive(Clone, Copy)]
pub struct BaseCall<'a> {
    pub target: Option<ExprId>,
    pub on: ExprId,
    pub sig: BaseSig,
    pub args: &'a [ExprId],
}

/// What the call of a base method comes to, which has done so much of it. One with other arguments than its method's stands
/// for no statement, and is stuck.
pub fn base_call(t: &Typed, stage: &mut Stage, call: BaseCall<'_>, done: Progress) -> Did
    requires typed { IsTyped t.now }
    requires target { IsTrue (is_optional_expr t.now call.target) }
    requires on { IsTrue (is_expr t.now call.on) }
    requires args { IsTrue (list_all (is_expr t.now) call.args.now) }
    ensures steps { (calls : Callees) (n : ℕ) (site : Site) (at : Place) (rest : Block) (behind : Behind) → simple_step (body_on t.now stage.old) calls n (done_seen done) site (call_tree at (optional_target (tree_of t.now) call.entry.target) (tree_of t.now call.entry.on) call.entry.sig (map (tree_of t.now) call.entry.args.now)) rest behind (vars_on t.now stage.old) ≡ did_steps n result (plain site (call_tree at (optional_target (tree_of t.now) call.entry.target) (tree_of t.now call.entry.on) call.entry.sig (map (tree_of t.now) call.entry.args.now)) rest) rest behind (vars_on t.now stage.new) }
    ensures shape { shape stage.new ≡ shape stage.old }
    ensures turns { stage.new.turns ≡ stage.old.turns }
{
    match call.args {
        [] => call_without(t, stage, call, done),
        [a] => call_with(t, stage, call, *a, done),
        [a, b] => call_with_two(t, stage, call, *a, *b),
        _ => Did::Stuck,
    }
}

// One without arguments.
#[tactic(auto, unfolding(wf_meaning::specs::SourceStep::with_some))]
fn call_without(t: &Typed, stage: &mut Stage, call: BaseCall<'_>, done: Progress) -> Did
    requires typed { IsTyped t.now }
    requires target { IsTrue (is_optional_expr t.now call.target) }
    requires on { IsTrue (is_expr t.now call.on) }
    ensures steps { (calls : Callees) (n : ℕ) (site : Site) (at : Place) (rest : Block) (behind : Behind) → simple_step (body_on t.now stage.old) calls n (done_seen done) site (call_tree at (optional_target (tree_of t.now) call.entry.target) (tree_of t.now call.entry.on) call.entry.sig ([])) rest behind (vars_on t.now stage.old) ≡ did_steps n result (plain site (call_tree at (optional_target (tree_of t.now) call.entry.target) (tree_of t.now call.entry.on) call.entry.sig ([])) rest) rest behind (vars_on t.now stage.new) }
    ensures shape { shape stage.new ≡ shape stage.old }
    ensures turns { stage.new.turns ≡ stage.old.turns }
{
    match call.sig {
        BaseSig::Read(form) => read(t, stage, call.target, call.on, form, done),
        BaseSig::ReaderLength | BaseSig::ReaderIsClosed | BaseSig::ReaderPosition => Did::Stuck,
        BaseSig::Skip | BaseSig::Peek(_) | BaseSig::SkipFast => Did::Stuck,
        BaseSig::WriterLength | BaseSig::WriterPosition | BaseSig::Write => Did::Stuck,
        BaseSig::WriteFast | BaseSig::WriterCopy | BaseSig::SliceCopy(_) => Did::Stuck,
        BaseSig::SliceLength(_) | BaseSig::ArrayLength(_) | BaseSig::IsOk => Did::Stuck,
        BaseSig::IsNote | BaseSig::IsSuspension | BaseSig::IsError => Did::Stuck,
    }
}

// One with the argument `a`.
#[tactic(auto, unfolding(wf_meaning::specs::SourceStep::with_some))]
fn call_with(t: &Typed, stage: &mut Stage, call: BaseCall<'_>, a: ExprId, done: Progress) -> Did
    requires typed { IsTyped t.now }
    requires target { IsTrue (is_optional_expr t.now call.target) }
    requires on { IsTrue (is_expr t.now call.on) }
    requires a { IsTrue (is_expr t.now a) }
    ensures steps { (calls : Callees) (n : ℕ) (site : Site) (at : Place) (rest : Block) (behind : Behind) → simple_step (body_on t.now stage.old) calls n (done_seen done) site (call_tree at (optional_target (tree_of t.now) call.entry.target) (tree_of t.now call.entry.on) call.entry.sig (tree_of t.now a ∷ [])) rest behind (vars_on t.now stage.old) ≡ did_steps n result (plain site (call_tree at (optional_target (tree_of t.now) call.entry.target) (tree_of t.now call.entry.on) call.entry.sig (tree_of t.now a ∷ [])) rest) rest behind (vars_on t.now stage.new) }
    ensures shape { shape stage.new ≡ shape stage.old }
    ensures turns { stage.new.turns ≡ stage.old.turns }
{
    match call.sig {
        BaseSig::Skip => skip(t, stage, call.on, a, done),
        BaseSig::Write => write(t, stage, call.on, a, done),
        BaseSig::WriteFast => did_if(write_fast(t, stage, call.on, a)),
        BaseSig::WriterCopy => did_if(copy_to_writer(t, stage, call.target, call.on, a)),
        BaseSig::SliceCopy(_) => did_if(copy_to_slice(t, stage, call.target, call.on, a)),
        BaseSig::ReaderLength | BaseSig::ReaderIsClosed | BaseSig::ReaderPosition => Did::Stuck,
        BaseSig::Read(_) | BaseSig::Peek(_) | BaseSig::SkipFast => Did::Stuck,
        BaseSig::WriterLength | BaseSig::WriterPosition | BaseSig::SliceLength(_) => Did::Stuck,
        BaseSig::ArrayLength(_) | BaseSig::IsOk | BaseSig::IsNote => Did::Stuck,
        BaseSig::IsSuspension | BaseSig::IsError => Did::Stuck,
    }
}

// One with the arguments `a` and `b`. It comes to the same whatever has been done of it.
#[tactic(auto, unfolding(wf_meaning::specs::SourceStep::with_some))]
fn call_with_two(t: &Typed, stage: &mut Stage, call: BaseCall<'_>, a: ExprId, b: ExprId) -> Did
    requires typed { IsTyped t.now }
    requires target { IsTrue (is_optional_expr t.now call.target) }
    requires on { IsTrue (is_expr t.now call.on) }
    requires a { IsTrue (is_expr t.now a) }
    requires b { IsTrue (is_expr t.now b) }
    ensures steps { (done : Done) (calls : Callees) (n : ℕ) (site : Site) (at : Place) (rest : Block) (behind : Behind) → simple_step (body_on t.now stage.old) calls n done site (call_tree at (optional_target (tree_of t.now) call.entry.target) (tree_of t.now call.entry.on) call.entry.sig (tree_of t.now a ∷ tree_of t.now b ∷ [])) rest behind (vars_on t.now stage.old) ≡ did_steps n result (plain site (call_tree at (optional_target (tree_of t.now) call.entry.target) (tree_of t.now call.entry.on) call.entry.sig (tree_of t.now a ∷ tree_of t.now b ∷ [])) rest) rest behind (vars_on t.now stage.new) }
    ensures shape { shape stage.new ≡ shape stage.old }
    ensures turns { stage.new.turns ≡ stage.old.turns }
{
    match call.sig {
        BaseSig::SkipFast => did_if(skip_fast(t, stage, call.on, a, b)),
        BaseSig::ReaderLength | BaseSig::ReaderIsClosed | BaseSig::ReaderPosition => Did::Stuck,
        BaseSig::Read(_) | BaseSig::Skip | BaseSig::Peek(_) => Did::Stuck,
        BaseSig::WriterLength | BaseSig::WriterPosition | BaseSig::Write => Did::Stuck,
        BaseSig::WriteFast | BaseSig::WriterCopy | BaseSig::SliceCopy(_) => Did::Stuck,
        BaseSig::SliceLength(_) | BaseSig::ArrayLength(_) | BaseSig::IsOk => Did::Stuck,
        BaseSig::IsNote | BaseSig::IsSuspension | BaseSig::IsError => Did::Stuck,
    }
}

fn did_if(went: bool) -> Did
    ensures { result ≡ goes_if went }
{
    if went { Did::Goes } else { Did::Stuck }
}
