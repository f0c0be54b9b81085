// The lines of a report, written over a pen. Nothing here takes memory.

ghost use Rattle.std.specs.Prelude.{◌≡◌, ◌++◌, [], map, decimal, codes, if◌then◌else◌};
ghost use Rattle.std.specs.Option.{option_copied};
ghost use Rattle.wf_base.specs.LawfulActions.{method_of, method_numbered};
ghost use Rattle.wf_bufs.specs.HostSeen.{host_of};
ghost use Rattle.wf_bufs.specs.HostViews.{arg_of};
ghost use Rattle.wf_bufs.specs.SurfaceViews.{receiver_of};
ghost use Rattle.wf_script_rules.specs.declared.rules.Thing.TheVariants as thing;
ghost use Rattle.wf_script_rules.specs.Report.{named_text, declares_text, shows_text, io_texts, method_name, at_buffer, at_array, buffer_text, array_text};
ghost use Rattle.wf_script_drive.specs.Sights.{sight_of};

use crate::printing::{io_arg, number, show_array, show_buffer};
use pens::Pen;
use wf_bufs::{Arg, Bufs, MethodDecl, PublicSurface, ReceiverDecl, StructDecl};
use wf_script::Declared;
use wf_script::names::Names;
use wf_script::values::struct_numbered;
use wf_script_rules::Thing;
use wf_text::MethodId;

/// A command's word with a name.
pub(crate) fn named<P: Pen>(names: &Names, verb: &[u8], it: Thing, pen: &mut P)
    requires ready { P.ready pen.old }
    ensures ready { P.ready pen.new }
    ensures writes { P.writes pen.old pen.new (named_text names.now verb.now it) }
{
    pen.write(verb);
    pen.write(names.name_of(it));
}

fn receiver_words<P: Pen>(names: &Names, k: u16, null: bool, pen: &mut P)
    requires ready { P.ready pen.old }
    ensures ready { P.ready pen.new }
    ensures writes { P.writes pen.old pen.new (named_text names.now (if null then codes "null " else codes "new ") (thing.Receiver k)) }
{
    if null {
        named(names, b"null ", Thing::Receiver(k), pen);
    } else {
        named(names, b"new ", Thing::Receiver(k), pen);
    }
}

fn sized<P: Pen>(names: &Names, verb: &[u8], it: Thing, n: u64, pen: &mut P)
    requires ready { P.ready pen.old }
    ensures ready { P.ready pen.new }
    ensures writes { P.writes pen.old pen.new (named_text names.now verb.now it ++ codes " " ++ decimal n) }
{
    named(names, verb, it, pen);
    pen.write(b" ");
    number(n, pen);
}

pub(crate) fn declares<P: Pen>(declared: &Declared, it: Thing, pen: &mut P)
    requires ready { P.ready pen.old }
    ensures ready { P.ready pen.new }
    ensures writes { P.writes pen.old pen.new (declares_text declared.now it) }
{
    match it {
        Thing::Receiver(k) => match declared.receiver(k) {
            Some(decl) => receiver_words(declared.names(), k, decl.null, pen),
            None => pen.write(b""),
        },
        Thing::Buffer(k) => match declared.size(k) {
            Some(size) => sized(declared.names(), b"buf ", it, size as u64, pen),
            None => pen.write(b""),
        },
        Thing::Array(k) => match declared.array_len(k) {
            Some(count) => sized(declared.names(), b"bytes ", it, count as u64, pen),
            None => pen.write(b""),
        },
    }
}

fn shows_buffer<P: Pen>(names: &Names, host: &Bufs, k: u16, pen: &mut P)
    requires ready { P.ready pen.old }
    ensures ready { P.ready pen.new }
    ensures writes { P.writes pen.old pen.new (named_text names.now (codes "show ") (thing.Buffer k) ++ at_buffer buffer_text (sight_of (host_of host.now)) k) }
{
    named(names, b"show ", Thing::Buffer(k), pen);
    show_buffer(host, k, pen);
}

fn shows_array<P: Pen>(names: &Names, host: &Bufs, k: u16, pen: &mut P)
    requires ready { P.ready pen.old }
    ensures ready { P.ready pen.new }
    ensures writes { P.writes pen.old pen.new (named_text names.now (codes "show ") (thing.Array k) ++ at_array array_text (sight_of (host_of host.now)) k) }
{
    named(names, b"show ", Thing::Array(k), pen);
    show_array(host, k, pen);
}

pub(crate) fn shows<P: Pen>(names: &Names, host: &Bufs, it: Thing, pen: &mut P)
    requires ready { P.ready pen.old }
    ensures ready { P.ready pen.new }
    ensures writes { P.writes pen.old pen.new (shows_text names.now (sight_of (host_of host.now)) it) }
{
    match it {
        Thing::Receiver(_) => pen.write(b""),
        Thing::Buffer(k) => shows_buffer(names, host, k, pen),
        Thing::Array(k) => shows_array(names, host, k, pen),
    }
}

pub(crate) fn io_args<P: Pen>(names: &Names, host: &Bufs, args: &[Arg], pen: &mut P)
    requires ready { P.ready pen.old }
    ensures ready { P.ready pen.new }
    ensures writes { P.writes pen.old pen.new (io_texts names.now (sight_of (host_of host.now)) (map arg_of args.now)) }
{
    for arg in args {
        io_arg(names, host, *arg, pen);
    }
}

pub(crate) fn init_word<P: Pen>(names: &Names, receiver: u16, pen: &mut P)
    requires ready { P.ready pen.old }
    ensures ready { P.ready pen.new }
    ensures writes { P.writes pen.old pen.new (named_text names.now (codes "init ") (thing.Receiver receiver) ++ codes " ") }
{
    named(names, b"init ", Thing::Receiver(receiver), pen);
    pen.write(b" ");
}

pub(crate) fn put_word<P: Pen>(names: &Names, buffer: u16, pen: &mut P)
    requires ready { P.ready pen.old }
    ensures ready { P.ready pen.new }
    ensures writes { P.writes pen.old pen.new (named_text names.now (codes "put ") (thing.Buffer buffer) ++ codes " ") }
{
    named(names, b"put ", Thing::Buffer(buffer), pen);
    pen.write(b" ");
}

pub(crate) fn turns<P: Pen>(n: u64, pen: &mut P)
    requires ready { P.ready pen.old }
    ensures ready { P.ready pen.new }
    ensures writes { P.writes pen.old pen.new (codes "turns " ++ decimal n) }
{
    pen.write(b"turns ");
    number(n, pen);
}

// The words of a call, of the method with this name.
pub(crate) fn call_word<P: Pen>(names: &Names, receiver: u16, method: &[u8], pen: &mut P)
    requires ready { P.ready pen.old }
    ensures ready { P.ready pen.new }
    ensures writes { P.writes pen.old pen.new (named_text names.now (codes "call ") (thing.Receiver receiver) ++ codes "." ++ method.now ++ codes " ") }
{
    named(names, b"call ", Thing::Receiver(receiver), pen);
    pen.write(b".");
    pen.write(method);
    pen.write(b" ");
}

// The public method with this number of a struct.
fn method_in(it: &StructDecl, number: MethodId) -> Option<&MethodDecl>
    ensures { option_copied result ≡ method_numbered number.0 it.now }
{
    it.methods.iter().find(|method| method.number == number)
}

fn method_of(surface: &PublicSurface, decl: ReceiverDecl, number: MethodId) -> Option<&MethodDecl>
    ensures { option_copied result ≡ method_of surface.now number.0 (receiver_of decl) }
{
    method_in(struct_numbered(surface, decl.of)?, number)
}

pub(crate) fn method_name<'s>(
    declared: &Declared,
    surface: &'s PublicSurface,
    receiver: u16,
    method: MethodId,
) -> &'s [u8]
    ensures { result.now ≡ method_name surface.now declared.now receiver method.0 }
{
    match declared.receiver(receiver) {
        Some(decl) => match method_of(surface, decl, method) {
            Some(it) => it.name.as_slice(),
            None => &[],
        },
        None => &[],
    }
}
