// Base methods that write and don't suspend.

ghost use Rattle.std.specs.Prelude.{◌≡◌, ◌<◌, IsTrue, MatchBool, Some, length, slice_get};
ghost use Rattle.wf_base.specs.BaseOps.{Buffer, can_skip_fast, skipped};
ghost use Rattle.wf_ast.specs.declared.typed_nodes.TypedNodes.{TypedNodes};
ghost use Rattle.wf_ast.specs.TypedTree.{Target, copy_to_slice as to_slice, copy_to_writer as to_writer, skip_fast as skips, write_fast as writes};
ghost use Rattle.wf_ast.specs.TypedTrees.{io_in, num_in, optional_target, slice_in, tree_of};
ghost use Rattle.wf_ast.specs.TypedInvariant.{IsTyped, is_expr, is_optional_expr};
ghost use Rattle.wf_meaning.specs.World.{updated};
ghost use Rattle.wf_meaning.specs.SourceStep.{performed, skipped_fast, written_fast};
ghost use Rattle.wf_mean_stmts.specs.Stages.{Comes, body_on, shape, vars_on};

use crate::any::{number_on, slice_on};
use crate::awaiting::{find_io, give_at};
use crate::copying::{copy_elements, copy_out, count};
use crate::stage::Stage;
use crate::targets::put_if_any;
use wf_ast::{ExprId, Typed};
use wf_bufs::BufList;
use wf_mean_exprs::values::Slot;

/// `copy_from_slice!` on a slice: the number of the elements that go there goes to the target.
pub(crate) fn copy_to_slice(
    t: &Typed,
    stage: &mut Stage,
    target: Option<ExprId>,
    to: ExprId,
    source: ExprId,
) -> bool
    requires typed { IsTyped t.now }
    requires target { IsTrue (is_optional_expr t.now target) }
    requires to { IsTrue (is_expr t.now to) }
    requires source { IsTrue (is_expr t.now source) }
    ensures vars { Comes result (performed (body_on t.now stage.old) (optional_target (tree_of t.now) target) (to_slice (slice_in (tree_of t.now to)) (slice_in (tree_of t.now source))) (vars_on t.now stage.old)) (vars_on t.now stage.new) }
    ensures shape { shape stage.new ≡ shape stage.old }
    ensures turns { stage.new.turns ≡ stage.old.turns }
{
    match slice_on(t, stage, to) {
        Some(to) => match slice_on(t, stage, source) {
            Some(source) => {
                if copy_elements(t, stage, to, source) {
                    let n = count(to).min(count(source));
                    put_if_any(t, stage, target, Slot::Num(n))
                } else {
                    false
                }
            }
            None => false,
        },
        None => false,
    }
}

/// `copy_from_slice!` on a writer: the number of the bytes that fit goes to the target.
pub(crate) fn copy_to_writer(
    t: &Typed,
    stage: &mut Stage,
    target: Option<ExprId>,
    on: ExprId,
    source: ExprId,
) -> bool
    requires typed { IsTyped t.now }
    requires target { IsTrue (is_optional_expr t.now target) }
    requires on { IsTrue (is_expr t.now on) }
    requires source { IsTrue (is_expr t.now source) }
    ensures vars { Comes result (performed (body_on t.now stage.old) (optional_target (tree_of t.now) target) (to_writer (io_in (tree_of t.now on)) (slice_in (tree_of t.now source))) (vars_on t.now stage.old)) (vars_on t.now stage.new) }
    ensures shape { shape stage.new ≡ shape stage.old }
    ensures turns { stage.new.turns ≡ stage.old.turns }
{
    match find_io(t, stage, on) {
        Some(k) => match slice_on(t, stage, source) {
            Some(source) => match copy_out(t, stage, k, source) {
                Some(n) => put_if_any(t, stage, target, Slot::Num(n)),
                None => false,
            },
            None => false,
        },
        None => false,
    }
}

/// `skip_u32_fast!` takes so many bytes, where the promised number of bytes is there.
pub(crate) fn skip_fast(
    t: &Typed,
    stage: &mut Stage,
    on: ExprId,
    actual: ExprId,
    worst_case: ExprId,
) -> bool
    requires typed { IsTyped t.now }
    requires on { IsTrue (is_expr t.now on) }
    requires actual { IsTrue (is_expr t.now actual) }
    requires worst_case { IsTrue (is_expr t.now worst_case) }
    ensures vars { (target : Target) → Comes result (performed (body_on t.now stage.old) target (skips (io_in (tree_of t.now on)) (num_in (tree_of t.now actual)) (num_in (tree_of t.now worst_case))) (vars_on t.now stage.old)) (vars_on t.now stage.new) }
    ensures shape { shape stage.new ≡ shape stage.old }
    ensures turns { stage.new.turns ≡ stage.old.turns }
{
    match find_io(t, stage, on) {
        Some(k) => match number_on(t, stage, actual) {
            Some(m) => match number_on(t, stage, worst_case) {
                Some(n) => skip_promised(stage, k, m, n),
                None => false,
            },
            None => false,
        },
        None => false,
    }
}

fn skip_promised(stage: &mut Stage, k: u16, actual: u64, worst_case: u64) -> bool
    requires there { k < length stage.old.host.bufs }
    ensures vars { (nodes : TypedNodes) (buffer : Buffer) → slice_get stage.old.host.bufs k ≡ Some buffer → Comes result (skipped_fast k buffer actual worst_case (vars_on nodes stage.old)) (vars_on nodes stage.new) }
    ensures shape { shape stage.new ≡ shape stage.old }
    ensures turns { stage.new.turns ≡ stage.old.turns }
{
    if worst_case < 0x1_0000_0000 {
        skip_there(&mut stage.host.bufs, k as usize, actual, worst_case)
    } else {
        false
    }
}

fn skip_there(bufs: &mut BufList, k: usize, actual: u64, worst_case: u64) -> bool
    requires there { k < length bufs.old }
    ensures can { (buffer : Buffer) → slice_get bufs.old k ≡ Some buffer → result ≡ can_skip_fast actual worst_case buffer }
    ensures after { MatchBool result (bufs.new ≡ updated (skipped actual) k bufs.old) (bufs.new ≡ bufs.old) }
{
    if actual <= worst_case && worst_case <= bufs.at(k).reader_length() {
        let _taken = bufs.at_mut(k).skip(actual);
        true
    } else {
        false
    }
}

/// `write_u8_fast!` appends a byte, where there is room.
pub(crate) fn write_fast(t: &Typed, stage: &mut Stage, on: ExprId, byte: ExprId) -> bool
    requires typed { IsTyped t.now }
    requires on { IsTrue (is_expr t.now on) }
    requires byte { IsTrue (is_expr t.now byte) }
    ensures vars { (target : Target) → Comes result (performed (body_on t.now stage.old) target (writes (io_in (tree_of t.now on)) (num_in (tree_of t.now byte))) (vars_on t.now stage.old)) (vars_on t.now stage.new) }
    ensures shape { shape stage.new ≡ shape stage.old }
    ensures turns { stage.new.turns ≡ stage.old.turns }
{
    match find_io(t, stage, on) {
        Some(k) => match number_on(t, stage, byte) {
            Some(n) => write_byte(stage, k, n),
            None => false,
        },
        None => false,
    }
}

fn write_byte(stage: &mut Stage, k: u16, n: u64) -> bool
    requires there { k < length stage.old.host.bufs }
    ensures vars { (nodes : TypedNodes) (buffer : Buffer) → slice_get stage.old.host.bufs k ≡ Some buffer → Comes result (written_fast k buffer n (vars_on nodes stage.old)) (vars_on nodes stage.new) }
    ensures shape { shape stage.new ≡ shape stage.old }
    ensures turns { stage.new.turns ≡ stage.old.turns }
{
    if n < 0x100 {
        give_at(&mut stage.host.bufs, k as usize, n as u8)
    } else {
        false
    }
}
