// The words of a report's lines, written over a pen. Nothing here takes memory.

ghost use Rattle.std.specs.Prelude.{◌≡◌, ◌++◌, [], decimal, codes, get_or, slice_get};
ghost use Rattle.std.specs.Option.{option_map};
ghost use Rattle.hex.specs.Hex.{encode_lower};
ghost use Rattle.wf_base.specs.BaseOps.{seen_buffer};
ghost use Rattle.wf_bufs.specs.HostViews.{answer_of, arg_of};
ghost use Rattle.wf_bufs.specs.HostSeen.{host_of};
ghost use Rattle.wf_script_rules.specs.declared.rules.Thing.TheVariants as thing;
ghost use Rattle.wf_script_rules.specs.Names.{name_of};
ghost use Rattle.wf_script_rules.specs.Report.{status_text, quoted, answer_text, shown_bytes, closed_text, counts_text, at_buffer, at_array, io_text, buffer_text, array_text};
ghost use Rattle.wf_script_drive.specs.Sights.{sight_of};

use pens::Pen;
use wf_bufs::{Arg, Buf, Bufs, Outcome, PublicSurface};
use wf_script::names::Names;
use wf_script_rules::Thing;
use wf_text::{StatusId, hex_text, number_text};

/// A number in decimal digits.
pub(crate) fn number<P: Pen>(n: u64, pen: &mut P)
    requires ready { P.ready pen.old }
    ensures ready { P.ready pen.new }
    ensures writes { P.writes pen.old pen.new (decimal n) }
{
    let mut digits = [0; 20];
    let count = number_text(n, &mut digits);
    let (front, _) = digits.split_at(count);
    pen.write(front);
}

// Two lower-case hexadecimal digits a byte.
fn digits_of<P: Pen>(bytes: &[u8], pen: &mut P)
    requires ready { P.ready pen.old }
    ensures ready { P.ready pen.new }
    ensures writes { P.writes pen.old pen.new (encode_lower bytes.now) }
{
    for byte in bytes {
        let mut two = [0; 2];
        hex_text(&[*byte], &mut two);
        pen.write(&two);
    }
}

/// Bytes, or `-` for none.
pub(crate) fn bytes<P: Pen>(bytes: &[u8], pen: &mut P)
    requires ready { P.ready pen.old }
    ensures ready { P.ready pen.new }
    ensures writes { P.writes pen.old pen.new (shown_bytes bytes.now) }
{
    match bytes {
        [] => pen.write(b"-"),
        _ => digits_of(bytes, pen),
    }
}

fn closed<P: Pen>(closed: bool, pen: &mut P)
    requires ready { P.ready pen.old }
    ensures ready { P.ready pen.new }
    ensures writes { P.writes pen.old pen.new (closed_text closed) }
{
    if closed {
        pen.write(b" closed");
    } else {
        pen.write(b" open");
    }
}

/// A buffer's counts.
pub(crate) fn counts<P: Pen>(buf: &Buf, pen: &mut P)
    requires ready { P.ready pen.old }
    ensures ready { P.ready pen.new }
    ensures writes { P.writes pen.old pen.new (counts_text (seen_buffer buf.now)) }
{
    pen.write(b" ri=");
    number(buf.ri(), pen);
    pen.write(b" wi=");
    number(buf.wi(), pen);
    pen.write(b" pos=");
    number(buf.pos(), pen);
    closed(buf.is_closed(), pen);
}

// A buffer's written bytes and its counts.
fn whole_buffer<P: Pen>(buf: &Buf, pen: &mut P)
    requires ready { P.ready pen.old }
    ensures ready { P.ready pen.new }
    ensures writes { P.writes pen.old pen.new (buffer_text (seen_buffer buf.now)) }
{
    pen.write(b" ");
    let cells = buf.bytes();
    let (written, _) = cells.split_at(buf.wi() as usize);
    bytes(written, pen);
    counts(buf, pen);
}

fn quote<P: Pen>(text: &[u8], pen: &mut P)
    requires ready { P.ready pen.old }
    ensures ready { P.ready pen.new }
    ensures writes { P.writes pen.old pen.new (quoted text.now) }
{
    pen.write(b"\"");
    pen.write(text);
    pen.write(b"\"");
}

// `ok`, or another status's text in quotes.
fn status<P: Pen>(text: &[u8], pen: &mut P)
    requires ready { P.ready pen.old }
    ensures ready { P.ready pen.new }
    ensures writes { P.writes pen.old pen.new (status_text text.now) }
{
    match text {
        [] => pen.write(b"ok"),
        _ => quote(text, pen),
    }
}

fn status_of(surface: &PublicSurface, id: StatusId) -> &[u8]
    ensures { result.now ≡ get_or surface.now.statuses id.0 [] }
{
    match surface.statuses.get(id.0 as usize) {
        Some(text) => text.as_slice(),
        None => &[],
    }
}

/// What a call answers.
pub(crate) fn answer<P: Pen>(surface: &PublicSurface, outcome: Outcome, pen: &mut P)
    requires ready { P.ready pen.old }
    ensures ready { P.ready pen.new }
    ensures writes { P.writes pen.old pen.new (answer_text (answer_of surface.now outcome)) }
{
    match outcome {
        Outcome::Status(id) => status(status_of(surface, id), pen),
        Outcome::Num(n) => number(n, pen),
        Outcome::Flag(true) => pen.write(b"true"),
        Outcome::Flag(false) => pen.write(b"false"),
        Outcome::Nothing => pen.write(b"done"),
    }
}

fn buffer_at(host: &Bufs, k: u16) -> Option<&Buf>
    ensures { option_map (λ buf. buf.now) result ≡ slice_get host.now.bufs k }
{
    if (k as usize) < host.bufs.len() {
        Some(host.bufs.at(k as usize))
    } else {
        None
    }
}

fn array_at(host: &Bufs, k: u16) -> Option<&[u8]>
    ensures { option_map (λ array. array.now) result ≡ slice_get host.now.arrays k }
{
    if (k as usize) < host.arrays.len() {
        Some(host.arrays.at(k as usize).bytes())
    } else {
        None
    }
}

fn counts_at<P: Pen>(host: &Bufs, k: u16, pen: &mut P)
    requires ready { P.ready pen.old }
    ensures ready { P.ready pen.new }
    ensures writes { P.writes pen.old pen.new (at_buffer counts_text (sight_of (host_of host.now)) k) }
{
    match buffer_at(host, k) {
        Some(buf) => counts(buf, pen),
        None => pen.write(b""),
    }
}

/// A buffer as it is shown.
pub(crate) fn show_buffer<P: Pen>(host: &Bufs, k: u16, pen: &mut P)
    requires ready { P.ready pen.old }
    ensures ready { P.ready pen.new }
    ensures writes { P.writes pen.old pen.new (at_buffer buffer_text (sight_of (host_of host.now)) k) }
{
    match buffer_at(host, k) {
        Some(buf) => whole_buffer(buf, pen),
        None => pen.write(b""),
    }
}

fn whole_array<P: Pen>(array: &[u8], pen: &mut P)
    requires ready { P.ready pen.old }
    ensures ready { P.ready pen.new }
    ensures writes { P.writes pen.old pen.new (array_text array.now) }
{
    pen.write(b" ");
    bytes(array, pen);
}

/// A byte array as it is shown.
pub(crate) fn show_array<P: Pen>(host: &Bufs, k: u16, pen: &mut P)
    requires ready { P.ready pen.old }
    ensures ready { P.ready pen.new }
    ensures writes { P.writes pen.old pen.new (at_array array_text (sight_of (host_of host.now)) k) }
{
    match array_at(host, k) {
        Some(array) => whole_array(array, pen),
        None => pen.write(b""),
    }
}

fn io_buffer<P: Pen>(names: &Names, host: &Bufs, k: u16, pen: &mut P)
    requires ready { P.ready pen.old }
    ensures ready { P.ready pen.new }
    ensures writes { P.writes pen.old pen.new (codes " " ++ name_of (thing.Buffer k) names.now ++ at_buffer counts_text (sight_of (host_of host.now)) k) }
{
    pen.write(b" ");
    pen.write(names.name_of(Thing::Buffer(k)));
    counts_at(host, k, pen);
}

/// A buffer that a call was given, with its counts.
pub(crate) fn io_arg<P: Pen>(names: &Names, host: &Bufs, arg: Arg, pen: &mut P)
    requires ready { P.ready pen.old }
    ensures ready { P.ready pen.new }
    ensures writes { P.writes pen.old pen.new (io_text names.now (sight_of (host_of host.now)) (arg_of arg)) }
{
    match arg {
        Arg::Io(Some(k)) => {
            io_buffer(names, host, k, pen);
        }
        _ => pen.write(b""),
    }
}
