// Base methods that may suspend: reads, skips and writes of a byte.

ghost use Rattle.std.specs.Prelude.{◌≡◌, ◌≤◌, ◌<◌, ℕ, [], ◌∷◌, IsTrue, MatchBool, Some, take, length, slice_get, option_and_then};
ghost use Rattle.wf_base.specs.BaseOps.{Buffer, skipped, appended, has_room, left_to_skip};
ghost use Rattle.wf_base.specs.BaseTable.{lacking, gathered};
ghost use Rattle.wf_ast.specs.declared.typed_nodes.TypedNodes.{TypedNodes};
ghost use Rattle.wf_ast.specs.TypedTree.{Block, Target, take_number, skip as skip_call, write as write_call};
ghost use Rattle.wf_ast.specs.TypedTrees.{io_in, num_in, optional_target, tree_of};
ghost use Rattle.wf_ast.specs.TypedInvariant.{IsTyped, is_expr, is_optional_expr};
ghost use Rattle.wf_ast.specs.Value.{value};
ghost use Rattle.wf_meaning.specs.SourceState.{Behind};
ghost use Rattle.wf_meaning.specs.World.{updated};
ghost use Rattle.wf_meaning.specs.SourceStep.{with_some, awaited, below, io_of, bytes_so_far, change_buffer, kept_byte, kept_count, skip_on, write_on};
ghost use Rattle.wf_mean_exprs.specs.MachineState.{done_seen};
ghost use Rattle.wf_mean_stmts.specs.Stages.{body_on, sight_on, vars_on, shape};
ghost use Rattle.wf_mean_stmts.specs.Doings.{did_steps, FindsIo};

use crate::any::{any_io, number_on};
use crate::bytes::{Gathered, are_all, gather, spelled};
use crate::stage::Stage;
use crate::targets::put_if_any;
use wf_ast::{ExprId, Typed};
use wf_base::ReadForm;
use wf_bufs::BufList;
use wf_mean_exprs::objects::Progress;
use wf_mean_exprs::values::Slot;

/// What a statement comes to that stands by itself.
#[derive(Clone, Copy)]
pub enum Did {
    /// The next statement follows.
    Goes,
    /// The method suspends with a status, and the statement has done so much.
    Suspends { status: u32, done: Progress },
    Stuck,
}

const SHORT_READ: u32 = 1;

const SHORT_WRITE: u32 = 2;

/// A read takes the bytes that are there, as many as it lacks. With all of its bytes its number goes to the target.
pub(crate) fn read(
    t: &Typed,
    stage: &mut Stage,
    target: Option<ExprId>,
    on: ExprId,
    form: ReadForm,
    done: Progress,
) -> Did
    requires typed { IsTyped t.now }
    requires target { IsTrue (is_optional_expr t.now target) }
    requires on { IsTrue (is_expr t.now on) }
    ensures steps { (n : ℕ) (here rest : Block) (behind : Behind) → with_some (io_of (body_on t.now stage.old) (io_in (tree_of t.now on)) (vars_on t.now stage.old)) (λ io. awaited (body_on t.now stage.old) n (optional_target (tree_of t.now) target) io.0 io.1 (take_number form) (done_seen done) here rest behind (vars_on t.now stage.old)) ≡ did_steps n result here rest behind (vars_on t.now stage.new) }
    ensures shape { shape stage.new ≡ shape stage.old }
    ensures turns { stage.new.turns ≡ stage.old.turns }
{
    match find_io(t, stage, on) {
        Some(k) => read_from(t, stage, target, k, form, done),
        None => Did::Stuck,
    }
}

fn read_from(
    t: &Typed,
    stage: &mut Stage,
    target: Option<ExprId>,
    k: u16,
    form: ReadForm,
    done: Progress,
) -> Did
    requires typed { IsTyped t.now }
    requires target { IsTrue (is_optional_expr t.now target) }
    requires there { k < length stage.old.host.bufs }
    ensures steps { (n : ℕ) (here rest : Block) (behind : Behind) (buffer : Buffer) → slice_get stage.old.host.bufs k ≡ Some buffer → awaited (body_on t.now stage.old) n (optional_target (tree_of t.now) target) k buffer (take_number form) (done_seen done) here rest behind (vars_on t.now stage.old) ≡ did_steps n result here rest behind (vars_on t.now stage.new) }
    ensures shape { shape stage.new ≡ shape stage.old }
    ensures turns { stage.new.turns ≡ stage.old.turns }
{
    let got = gather_from(stage, k, form, done);
    if !are_all(form, got) {
        let bytes = got.bytes;
        return Did::Suspends {
            status: SHORT_READ,
            done: Progress::Bytes {
                bytes,
                count: got.count,
            },
        };
    }
    if put_if_any(t, stage, target, Slot::Num(spelled(form, got))) {
        Did::Goes
    } else {
        Did::Stuck
    }
}

fn gather_from(stage: &mut Stage, k: u16, form: ReadForm, done: Progress) -> Gathered
    requires there { k < length stage.old.host.bufs }
    ensures bytes { (buffer : Buffer) → slice_get stage.old.host.bufs k ≡ Some buffer → take result.count result.bytes ≡ gathered form (bytes_so_far (done_seen done)) buffer }
    ensures few { result.count ≤ 8 }
    ensures vars { (nodes : TypedNodes) → vars_on nodes stage.new ≡ change_buffer k (skipped (lacking form (bytes_so_far (done_seen done)))) (vars_on nodes stage.old) }
    ensures body { (nodes : TypedNodes) → body_on nodes stage.new ≡ body_on nodes stage.old }
    ensures shape { shape stage.new ≡ shape stage.old }
    ensures turns { stage.new.turns ≡ stage.old.turns }
{
    gather_at(&mut stage.host.bufs, k as usize, form, done)
}

fn gather_at(bufs: &mut BufList, k: usize, form: ReadForm, done: Progress) -> Gathered
    requires there { k < length bufs.old }
    ensures bytes { (buffer : Buffer) → slice_get bufs.old k ≡ Some buffer → take result.count result.bytes ≡ gathered form (bytes_so_far (done_seen done)) buffer }
    ensures few { result.count ≤ 8 }
    ensures after { bufs.new ≡ updated (skipped (lacking form (bytes_so_far (done_seen done)))) k bufs.old }
{
    gather(bufs.at_mut(k), form, done)
}

/// The buffer of a reader or a writer, by its number, where there is one.
pub(crate) fn find_io(t: &Typed, stage: &Stage, on: ExprId) -> Option<u16>
    requires typed { IsTyped t.now }
    requires on { IsTrue (is_expr t.now on) }
    ensures { FindsIo stage.now.host.bufs result (io_of (body_on t.now stage.now) (io_in (tree_of t.now on)) (vars_on t.now stage.now)) }
{
    let k = buffer_named(t, stage, on)?;
    if (k as usize) < stage.host.bufs.len() {
        Some(k)
    } else {
        None
    }
}

fn buffer_named(t: &Typed, stage: &Stage, on: ExprId) -> Option<u16>
    requires typed { IsTyped t.now }
    requires on { IsTrue (is_expr t.now on) }
    ensures { result ≡ (sight_on t.now stage.now).buffer_number (io_in (tree_of t.now on)) }
{
    stage.scene(t).buffer_number(any_io(t, on))
}

/// A skip takes up to so many bytes, and goes on when none is left to be taken. How many is evaluated once, and kept.
pub(crate) fn skip(t: &Typed, stage: &mut Stage, on: ExprId, count: ExprId, done: Progress) -> Did
    requires typed { IsTyped t.now }
    requires on { IsTrue (is_expr t.now on) }
    requires count { IsTrue (is_expr t.now count) }
    ensures steps { (n : ℕ) (here rest : Block) (behind : Behind) (target : Target) → with_some (io_of (body_on t.now stage.old) (io_in (tree_of t.now on)) (vars_on t.now stage.old)) (λ io. awaited (body_on t.now stage.old) n target io.0 io.1 (skip_call (num_in (tree_of t.now count))) (done_seen done) here rest behind (vars_on t.now stage.old)) ≡ did_steps n result here rest behind (vars_on t.now stage.new) }
    ensures shape { shape stage.new ≡ shape stage.old }
    ensures turns { stage.new.turns ≡ stage.old.turns }
{
    match find_io(t, stage, on) {
        Some(k) => match count_or_kept(t, stage, count, done) {
            Some(left) => skip_from(stage, k, left),
            None => Did::Stuck,
        },
        None => Did::Stuck,
    }
}

fn count_or_kept(t: &Typed, stage: &Stage, count: ExprId, done: Progress) -> Option<u32>
    requires typed { IsTyped t.now }
    requires count { IsTrue (is_expr t.now count) }
    ensures { result ≡ kept_count (done_seen done) (option_and_then (below 32) (value (sight_on t.now stage.now) (num_in (tree_of t.now count)))) }
{
    match done {
        Progress::ToSkip(left) => Some(left),
        Progress::Untouched | Progress::Bytes { .. } | Progress::ToWrite(_) | Progress::Yielded => {
            below_32(number_on(t, stage, count))
        }
    }
}

fn below_32(n: Option<u64>) -> Option<u32>
    ensures { result ≡ option_and_then (below 32) n }
{
    u32::try_from(n?).ok()
}

fn skip_from(stage: &mut Stage, k: u16, left: u32) -> Did
    requires there { k < length stage.old.host.bufs }
    ensures steps { (nodes : TypedNodes) (n : ℕ) (here rest : Block) (behind : Behind) (buffer : Buffer) → slice_get stage.old.host.bufs k ≡ Some buffer → skip_on n (left_to_skip left buffer) here rest behind (change_buffer k (skipped left) (vars_on nodes stage.old)) ≡ did_steps n result here rest behind (vars_on nodes stage.new) }
    ensures shape { shape stage.new ≡ shape stage.old }
    ensures turns { stage.new.turns ≡ stage.old.turns }
{
    let left = skip_at(&mut stage.host.bufs, k as usize, left);
    if left == 0 {
        Did::Goes
    } else {
        Did::Suspends {
            status: SHORT_READ,
            done: Progress::ToSkip(left),
        }
    }
}

// Takes up to so many bytes, and answers how many are still to be taken.
fn skip_at(bufs: &mut BufList, k: usize, left: u32) -> u32
    requires there { k < length bufs.old }
    ensures left { (buffer : Buffer) → slice_get bufs.old k ≡ Some buffer → result ≡ left_to_skip left buffer }
    ensures after { bufs.new ≡ updated (skipped left) k bufs.old }
{
    left - bufs.at_mut(k).skip(left as u64) as u32
}

/// A write appends its byte where there is room. The byte is evaluated once, and kept.
pub(crate) fn write(t: &Typed, stage: &mut Stage, on: ExprId, byte: ExprId, done: Progress) -> Did
    requires typed { IsTyped t.now }
    requires on { IsTrue (is_expr t.now on) }
    requires byte { IsTrue (is_expr t.now byte) }
    ensures steps { (n : ℕ) (here rest : Block) (behind : Behind) (target : Target) → with_some (io_of (body_on t.now stage.old) (io_in (tree_of t.now on)) (vars_on t.now stage.old)) (λ io. awaited (body_on t.now stage.old) n target io.0 io.1 (write_call (num_in (tree_of t.now byte))) (done_seen done) here rest behind (vars_on t.now stage.old)) ≡ did_steps n result here rest behind (vars_on t.now stage.new) }
    ensures shape { shape stage.new ≡ shape stage.old }
    ensures turns { stage.new.turns ≡ stage.old.turns }
{
    match find_io(t, stage, on) {
        Some(k) => match byte_or_kept(t, stage, byte, done) {
            Some(byte) => write_to(stage, k, byte),
            None => Did::Stuck,
        },
        None => Did::Stuck,
    }
}

fn byte_or_kept(t: &Typed, stage: &Stage, byte: ExprId, done: Progress) -> Option<u8>
    requires typed { IsTyped t.now }
    requires byte { IsTrue (is_expr t.now byte) }
    ensures { result ≡ kept_byte (done_seen done) (option_and_then (below 8) (value (sight_on t.now stage.now) (num_in (tree_of t.now byte)))) }
{
    match done {
        Progress::ToWrite(byte) => Some(byte),
        Progress::Untouched | Progress::Bytes { .. } | Progress::ToSkip(_) | Progress::Yielded => {
            below_8(number_on(t, stage, byte))
        }
    }
}

fn below_8(n: Option<u64>) -> Option<u8>
    ensures { result ≡ option_and_then (below 8) n }
{
    u8::try_from(n?).ok()
}

fn write_to(stage: &mut Stage, k: u16, byte: u8) -> Did
    requires there { k < length stage.old.host.bufs }
    ensures steps { (nodes : TypedNodes) (n : ℕ) (here rest : Block) (behind : Behind) (buffer : Buffer) → slice_get stage.old.host.bufs k ≡ Some buffer → write_on n k byte buffer here rest behind (vars_on nodes stage.old) ≡ did_steps n result here rest behind (vars_on nodes stage.new) }
    ensures shape { shape stage.new ≡ shape stage.old }
    ensures turns { stage.new.turns ≡ stage.old.turns }
{
    if give_at(&mut stage.host.bufs, k as usize, byte) {
        Did::Goes
    } else {
        Did::Suspends {
            status: SHORT_WRITE,
            done: Progress::ToWrite(byte),
        }
    }
}

// Appends a byte; false, and nothing changes, where there is no room.
pub(crate) fn give_at(bufs: &mut BufList, k: usize, byte: u8) -> bool
    requires there { k < length bufs.old }
    ensures room { (buffer : Buffer) → slice_get bufs.old k ≡ Some buffer → result ≡ has_room buffer }
    ensures after { MatchBool result (bufs.new ≡ updated (appended (byte ∷ [])) k bufs.old) (bufs.new ≡ bufs.old) }
{
    bufs.at_mut(k).give_u8(byte)
}
