// What buffers answer.

ghost use Rattle.std.specs.Prelude.{◌≡◌, ◌≤◌, ◌<◌, ◌^◌, nat_le, length, IsTrue, option_map, option_and_then, Some};
ghost use Rattle.wf_base.specs.BaseOps.{reader_length, taken, little_endian};
ghost use Rattle.wf_ast.specs.TypedTree.{numeric, asked, peek};
ghost use Rattle.wf_ast.specs.TypedTrees.{io_in, place_of_node, tree_of, type_of_node};
ghost use Rattle.wf_ast.specs.TypedInvariant.{is_expr, is_io};
ghost use Rattle.wf_ast.specs.Value.{value, told, only_if};
ghost use Rattle.wf_ast.specs.NodeKinds.{node_number};
ghost use Rattle.wf_mean_exprs.specs.MachineState.{seen_from};
ghost use Rattle.wf_mean_exprs.specs.Questions.{question_of};

use crate::reading::Scene;
use wf_ast::{ExprId, io_arg};
use wf_base::PeekForm;
use wf_bufs::Buf;

/// What is asked of a reader or a writer for a number.
#[derive(Clone, Copy)]
pub(crate) enum Asked {
    ReaderLength,
    ReaderPosition,
    Peek(PeekForm),
    WriterLength,
    WriterPosition,
}

/// What the reader or writer `on` answers; None where it is stuck.
pub(crate) fn ask(scene: &Scene, e: ExprId, on: ExprId, what: Asked) -> Option<u64>
    requires tree { tree_of scene.now.package.now e ≡ numeric (asked (place_of_node scene.now.package.now e.0) (question_of what) (io_in (tree_of scene.now.package.now on))) }
    requires on { IsTrue (is_expr scene.now.package.now on) }
    requires kind { IsTrue (is_io (type_of_node scene.now.package.now on.0)) }
    ensures { result ≡ value (seen_from scene.now) (node_number scene.now.package.now e) }
{
    told_by(scene.buffer(io_arg(scene.package, on)), what)
}

fn told_by(buf: Option<&Buf>, what: Asked) -> Option<u64>
    ensures { result ≡ option_and_then (told (question_of what)) (option_map (λ b. b.now) buf.entry) }
{
    told_of(buf?, what)
}

fn told_of(buf: &Buf, what: Asked) -> Option<u64>
    ensures { result ≡ told (question_of what) buf.now }
{
    match what {
        Asked::ReaderLength => Some(buf.reader_length()),
        Asked::ReaderPosition => Some(buf.reader_position()),
        Asked::Peek(form) => peeked(buf, form),
        Asked::WriterLength => Some(buf.writer_length()),
        Asked::WriterPosition => Some(buf.writer_position()),
    }
}

// A peek needs its bytes.
fn peeked(buf: &Buf, form: PeekForm) -> Option<u64>
    ensures { result ≡ told (peek form) buf.now }
{
    match form {
        PeekForm::PeekU8 => spelt(buf, 1),
        PeekForm::PeekU16Le => spelt(buf, 2),
        PeekForm::PeekU32Le => spelt(buf, 4),
    }
}

// The number that the next bytes spell, the lowest first, where there are so many.
fn spelt(buf: &Buf, count: u64) -> Option<u64>
    requires { count ≤ 4 }
    ensures { result ≡ only_if (nat_le count (reader_length buf.now)) (Some (little_endian (taken count buf.now))) }
{
    if buf.reader_length() < count {
        return None;
    }
    let (_, unread) = buf.bytes().split_at(buf.ri() as usize);
    let (bytes, _) = unread.split_at(count as usize);
    Some(low_first(bytes))
}

// The number that bytes spell, the lowest first.
fn low_first(bytes: &[u8]) -> u64
    requires { length bytes.now ≤ 4 }
    ensures value { result ≡ little_endian bytes.now }
    ensures below { result < 2 ^ 32 }
{
    match bytes {
        [] => 0,
        [a] => *a as u64,
        [a, b] => *a as u64 + 256 * *b as u64,
        [a, b, c] => *a as u64 + 256 * (*b as u64 + 256 * *c as u64),
        [a, b, c, d] => *a as u64 + 256 * (*b as u64 + 256 * (*c as u64 + 256 * *d as u64)),
        _ => unreachable!(),
    }
}
