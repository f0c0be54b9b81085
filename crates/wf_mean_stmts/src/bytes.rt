// The bytes of numbers that are read.

ghost use Rattle.std.specs.Prelude.{◌≡◌, ◌≤◌, ◌+◌, ◌++◌, ◌<◌, ◌^◌, [], ◌∷◌, length, take};
ghost use Rattle.wf_base.specs.BaseOps.{little_endian, overwritten, skipped, taken};
ghost use Rattle.wf_base.specs.BaseTable.{bytes_of, gathered, is_whole, lacking, read_value, read_width};
ghost use Rattle.wf_meaning.specs.SourceStep.{bytes_so_far};
ghost use Rattle.wf_mean_exprs.specs.MachineState.{done_seen};

use wf_base::{ReadForm, Width};
use wf_bufs::Buf;
use wf_mean_exprs::objects::Progress;

/// The bytes of a number so far: the first `count` of these.
#[derive(Clone, Copy)]
pub(crate) struct Gathered {
    pub(crate) bytes: [u8; 8],
    pub(crate) count: u8,
}

/// Takes what a read lacks from a buffer, as much as is there.
pub(crate) fn gather(buf: &mut Buf, form: ReadForm, done: Progress) -> Gathered
    ensures bytes { take result.count result.bytes ≡ gathered form (bytes_so_far (done_seen done)) buf.old }
    ensures after { buf.new ≡ skipped (lacking form (bytes_so_far (done_seen done))) buf.old }
    ensures few { result.count ≤ 8 }
{
    let had = so_far(done);
    let lacks = size(form).saturating_sub(had.count);
    let got = add_bytes(had, buf, lacks);
    let _taken = buf.skip(lacks as u64);
    got
}

// What a read has.
fn so_far(done: Progress) -> Gathered
    ensures bytes { take result.count result.bytes ≡ bytes_so_far (done_seen done) }
    ensures count { length (bytes_so_far (done_seen done)) ≡ result.count }
    ensures few { result.count ≤ 8 }
{
    match done {
        Progress::Bytes { bytes, count } => Gathered {
            bytes,
            count: count.min(8),
        },
        Progress::Untouched | Progress::ToSkip(_) | Progress::ToWrite(_) | Progress::Yielded => {
            Gathered {
                bytes: [0; 8],
                count: 0,
            }
        }
    }
}

// How many bytes a number has.
fn size(form: ReadForm) -> u8
    ensures bytes { result ≡ bytes_of (read_width form) }
    ensures few { result ≤ 8 }
{
    match form.width() {
        Width::W8 => 1,
        Width::W16 => 2,
        Width::W32 => 4,
        Width::W64 => 8,
    }
}

// The bytes with the next unread ones, as many as `lacks` says or as there are.
fn add_bytes(had: Gathered, buf: &Buf, lacks: u8) -> Gathered
    requires { had.count + lacks ≤ 8 }
    ensures bytes { take result.count result.bytes ≡ take had.count had.bytes ++ taken lacks buf.now }
    ensures few { result.count ≤ 8 }
{
    let n = (lacks as u64).min(buf.reader_length());
    let (_, unread) = buf.bytes().split_at(buf.ri() as usize);
    let (more, _) = unread.split_at(n as usize);
    let mut bytes = had.bytes;
    write_over(&mut bytes, had.count as usize, more);
    Gathered {
        bytes,
        count: had.count + n as u8,
    }
}

// Writes bytes over the cells from `at` on.
fn write_over(cells: &mut [u8], at: usize, bytes: &[u8])
    requires { at + length bytes.now ≤ length cells.old }
    ensures { cells.new ≡ overwritten at bytes.now cells.old }
{
    let (_, rest) = cells.split_at_mut(at);
    let (front, _) = rest.split_at_mut(bytes.len());
    front.copy_from_slice(bytes);
}

/// Whether all bytes of a number are there.
pub(crate) fn are_all(form: ReadForm, got: Gathered) -> bool
    requires { got.count ≤ 8 }
    ensures { result ≡ is_whole form (take got.count got.bytes) }
{
    got.count == size(form)
}

/// The number that its bytes spell, all of which are there.
pub(crate) fn spelled(form: ReadForm, got: Gathered) -> u64
    requires { got.count ≡ bytes_of (read_width form) }
    ensures { result ≡ read_value form (take got.count got.bytes) }
{
    let [a, b, c, d, e, f, g, h] = got.bytes;
    match form {
        ReadForm::ReadU8 => a as u64,
        ReadForm::ReadU16Be => two(b, a),
        ReadForm::ReadU16Le => two(a, b),
        ReadForm::ReadU32Be => four(d, c, b, a),
        ReadForm::ReadU32Le => four(a, b, c, d),
        ReadForm::ReadU64Be => four(h, g, f, e) + 0x1_0000_0000 * four(d, c, b, a),
        ReadForm::ReadU64Le => four(a, b, c, d) + 0x1_0000_0000 * four(e, f, g, h),
    }
}

fn two(a: u8, b: u8) -> u64
    ensures value { result ≡ little_endian (a ∷ b ∷ []) }
    ensures below { result < 2 ^ 16 }
{
    a as u64 + 256 * b as u64
}

fn four(a: u8, b: u8, c: u8, d: u8) -> u64
    ensures value { result ≡ little_endian (a ∷ b ∷ c ∷ d ∷ []) }
    ensures below { result < 2 ^ 32 }
{
    a as u64 + 256 * (b as u64 + 256 * (c as u64 + 256 * d as u64))
}
