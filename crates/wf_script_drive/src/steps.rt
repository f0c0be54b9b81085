// One command of a script, performed over an engine, and its line of the report.

ghost use Rattle.std.specs.Prelude.{◌≡◌, ◌++◌, ◌<◌, ◌-◌, false, length, map};
ghost use Rattle.wf_base.specs.BaseOps as ops;
ghost use Rattle.wf_base.specs.HostRun.{Host, beside, on_buffer};
ghost use Rattle.wf_base.specs.LawfulActions.{CanCall};
ghost use Rattle.wf_bufs.specs.EngineLaw.{steps_of};
ghost use Rattle.wf_bufs.specs.HostSeen.{host_of};
ghost use Rattle.wf_bufs.specs.HostViews.{arg_of, call_of};
ghost use Rattle.wf_script.specs.Views.{command_of};
ghost use Rattle.wf_script_rules.specs.Report.{answer_text, io_texts, wi_in};
ghost use Rattle.wf_script_drive.specs.Lawful.{MayCome};
ghost use Rattle.wf_script_drive.specs.Sights.{sight_of};
ghost use Rattle.wf_script_drive.specs.Driving.{words_text, answered_text, response_to, Responds, WritesLine, stops_at, KeepsCounts};

use crate::printing::{answer, number};
use crate::report::{
    call_word, declares, init_word, io_args, method_name, named, put_word, shows, turns,
};
use pens::Pen;
use wf_bufs::{Bufs, Call, Engine, PublicSurface, Reply};
use wf_script::{Command, Declared, NumberedCommand};
use wf_script_rules::Thing;

/// What a command does to the script.
#[derive(Clone, Copy, PartialEq, Eq)]
pub(crate) enum Step {
    GoesOn,
    Turns,
    Undefined,
}

/// What a script's commands speak of: what it declares, and the public surface that it was read over.
#[derive(Clone, Copy)]
pub(crate) struct Context<'s> {
    pub declared: &'s Declared,
    pub surface: &'s PublicSurface,
}

// What stands on a command's line before its answer.
fn words<P: Pen>(context: &Context<'_>, host: &Bufs, command: &Command, pen: &mut P)
    requires ready { P.ready pen.old }
    ensures ready { P.ready pen.new }
    ensures writes { P.writes pen.old pen.new (words_text context.now.surface.now context.now.declared.now (sight_of (host_of host.now)) (command_of command.now)) }
{
    let names = context.declared.names();
    match command {
        Command::Declares(it) => declares(context.declared, *it, pen),
        Command::Init { receiver, turns: _ } => init_word(names, *receiver, pen),
        Command::Call(it) => {
            let name = method_name(context.declared, context.surface, it.receiver, it.method);
            call_word(names, it.receiver, name, pen);
        }
        Command::Put { buffer, bytes: _ } => put_word(names, *buffer, pen),
        Command::Close { buffer } => named(names, b"close ", Thing::Buffer(*buffer), pen),
        Command::Compact { buffer } => named(names, b"compact ", Thing::Buffer(*buffer), pen),
        Command::Shows(it) => shows(names, host, *it, pen),
        Command::Turns(n) => turns(*n, pen),
    }
}

fn init<E: Engine, P: Pen>(
    surface: &PublicSurface,
    engine: &mut E,
    receiver: u16,
    turns: u64,
    pen: &mut P,
) -> Step
    requires goes_on { E.stopped (E.state engine.old) ≡ false }
    requires surface { E.surface (E.state engine.old) ≡ surface.now }
    requires exists { receiver < length (E.receivers (E.state engine.old)) }
    requires ready { P.ready pen.old }
    ensures ready { P.ready pen.new }
    ensures responds { (host : Host) → Responds (P.writes pen.old pen.new) (beside host ((steps_of E.surface E.init_gives E.call_gives).init (E.state engine.old) receiver turns)) (λ left answer. answer_text answer) result (E.state engine.new) host }
    ensures stopped { E.stopped (E.state engine.new) ≡ stops_at result }
    ensures surface { E.surface (E.state engine.new) ≡ E.surface (E.state engine.old) }
    ensures receivers { E.receivers (E.state engine.new) ≡ E.receivers (E.state engine.old) }
{
    match engine.init(receiver, turns) {
        Reply::Done(outcome) => {
            answer(surface, outcome, pen);
            Step::GoesOn
        }
        Reply::Turns => {
            pen.write(b"turns");
            Step::Turns
        }
        Reply::Undefined => {
            pen.write(b"undefined");
            Step::Undefined
        }
    }
}

fn call<E: Engine, P: Pen>(
    context: &Context<'_>,
    engine: &mut E,
    host: &mut Bufs,
    what: &Call<'_>,
    turns: u64,
    pen: &mut P,
) -> Step
    requires goes_on { E.stopped (E.state engine.old) ≡ false }
    requires surface { E.surface (E.state engine.old) ≡ context.now.surface.now }
    requires lawful { CanCall context.now.surface.now (E.receivers (E.state engine.old)) (length host.old.bufs) (length host.old.arrays) (call_of what.now) }
    requires ready { P.ready pen.old }
    ensures ready { P.ready pen.new }
    ensures responds { Responds (P.writes pen.old pen.new) ((steps_of E.surface E.init_gives E.call_gives).call (E.state engine.old) (call_of what.now) (host_of host.old) turns) (λ left answer. answer_text answer ++ io_texts context.now.declared.now.names (sight_of left) (map arg_of what.now.args.now)) result (E.state engine.new) (host_of host.new) }
    ensures stopped { E.stopped (E.state engine.new) ≡ stops_at result }
    ensures surface { E.surface (E.state engine.new) ≡ E.surface (E.state engine.old) }
    ensures receivers { E.receivers (E.state engine.new) ≡ E.receivers (E.state engine.old) }
    ensures counts { KeepsCounts result (host_of host.old) (host_of host.new) }
{
    match engine.call(what, host, turns) {
        Reply::Done(outcome) => {
            answer(context.surface, outcome, pen);
            io_args(context.declared.names(), host, what.args, pen);
            Step::GoesOn
        }
        Reply::Turns => {
            pen.write(b"turns");
            Step::Turns
        }
        Reply::Undefined => {
            pen.write(b"undefined");
            Step::Undefined
        }
    }
}

// How many bytes a put appends.
fn put(host: &mut Bufs, buffer: u16, bytes: &[u8]) -> usize
    requires { buffer < length host.old.bufs }
    ensures after { host_of host.new ≡ on_buffer buffer (ops.put bytes.now) (host_of host.old) }
    ensures count { result ≡ wi_in (sight_of (host_of host.new)) buffer - wi_in (sight_of (host_of host.old)) buffer }
    ensures buffers { length host.new.bufs ≡ length host.old.bufs }
    ensures arrays { host.new.arrays ≡ host.old.arrays }
{
    host.bufs.at_mut(buffer as usize).put(bytes)
}

fn close(host: &mut Bufs, buffer: u16)
    requires { buffer < length host.old.bufs }
    ensures after { host_of host.new ≡ on_buffer buffer ops.close (host_of host.old) }
    ensures buffers { length host.new.bufs ≡ length host.old.bufs }
    ensures arrays { host.new.arrays ≡ host.old.arrays }
{
    host.bufs.at_mut(buffer as usize).close();
}

fn compact(host: &mut Bufs, buffer: u16)
    requires { buffer < length host.old.bufs }
    ensures after { host_of host.new ≡ on_buffer buffer ops.compact (host_of host.old) }
    ensures buffers { length host.new.bufs ≡ length host.old.bufs }
    ensures arrays { host.new.arrays ≡ host.old.arrays }
{
    host.bufs.at_mut(buffer as usize).compact();
}

// Performs a command, and writes its answer. A command that is no action does nothing.
fn perform<E: Engine, P: Pen>(
    context: &Context<'_>,
    engine: &mut E,
    host: &mut Bufs,
    command: &Command,
    pen: &mut P,
) -> Step
    requires goes_on { E.stopped (E.state engine.old) ≡ false }
    requires surface { E.surface (E.state engine.old) ≡ context.now.surface.now }
    requires may { MayCome context.now.surface.now (E.receivers (E.state engine.old)) (length host.old.bufs) (length host.old.arrays) (command_of command.now) }
    requires ready { P.ready pen.old }
    ensures ready { P.ready pen.new }
    ensures responds { Responds (P.writes pen.old pen.new) (response_to (steps_of E.surface E.init_gives E.call_gives) (E.state engine.old) (host_of host.old) (command_of command.now)) (λ left answer. answered_text context.now.declared.now (sight_of (host_of host.old)) (sight_of left) (command_of command.now) answer) result (E.state engine.new) (host_of host.new) }
    ensures stopped { E.stopped (E.state engine.new) ≡ stops_at result }
    ensures surface { E.surface (E.state engine.new) ≡ E.surface (E.state engine.old) }
    ensures receivers { E.receivers (E.state engine.new) ≡ E.receivers (E.state engine.old) }
    ensures counts { KeepsCounts result (host_of host.old) (host_of host.new) }
{
    match command {
        Command::Init { receiver, turns } => {
            return init(context.surface, engine, *receiver, *turns, pen);
        }
        Command::Call(it) => {
            let what = Call {
                receiver: it.receiver,
                method: it.method,
                args: it.args.as_slice(),
            };
            return call(context, engine, host, &what, it.turns, pen);
        }
        Command::Put { buffer, bytes } => {
            let count = put(host, *buffer, bytes.as_slice());
            number(count as u64, pen);
        }
        Command::Close { buffer } => {
            close(host, *buffer);
            pen.write(b"");
        }
        Command::Compact { buffer } => {
            compact(host, *buffer);
            pen.write(b"");
        }
        _ => pen.write(b""),
    }
    Step::GoesOn
}

/// Performs a command, and writes its line.
pub(crate) fn line<E: Engine, P: Pen>(
    context: &Context<'_>,
    engine: &mut E,
    host: &mut Bufs,
    one: &NumberedCommand,
    pen: &mut P,
) -> Step
    requires goes_on { E.stopped (E.state engine.old) ≡ false }
    requires surface { E.surface (E.state engine.old) ≡ context.now.surface.now }
    requires may { MayCome context.now.surface.now (E.receivers (E.state engine.old)) (length host.old.bufs) (length host.old.arrays) one.now.command }
    requires ready { P.ready pen.old }
    ensures ready { P.ready pen.new }
    ensures writes { WritesLine (P.writes pen.old pen.new) (steps_of E.surface E.init_gives E.call_gives) context.now.surface.now context.now.declared.now (E.state engine.old) (host_of host.old) one.now result (E.state engine.new) (host_of host.new) }
    ensures stopped { E.stopped (E.state engine.new) ≡ stops_at result }
    ensures surface { E.surface (E.state engine.new) ≡ E.surface (E.state engine.old) }
    ensures receivers { E.receivers (E.state engine.new) ≡ E.receivers (E.state engine.old) }
    ensures counts { KeepsCounts result (host_of host.old) (host_of host.new) }
{
    words(context, host, &one.command, pen);
    let step = perform(context, engine, host, &one.command, pen);
    pen.write(b"\n");
    step
}
