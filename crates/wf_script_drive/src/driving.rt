// Drives a script over an engine, and writes its report.

ghost use Rattle.std.specs.Prelude.{◌≡◌, ◌<◌, ◌-◌, ◌^◌, false, length, All};
ghost use Rattle.pens.specs.Pens.{KeepsLongest};
ghost use Rattle.wf_base.specs.HostRun.{run, empty_host};
ghost use Rattle.wf_bufs.specs.EngineLaw.{steps_of};
ghost use Rattle.wf_bufs.specs.HostSeen.{host_of};
ghost use Rattle.wf_script_rules.specs.Scripts.{actions_of, declared_host};
ghost use Rattle.wf_script_rules.specs.Report.{report_of};
ghost use Rattle.wf_script_drive.specs.Lawful.{HasOwnNumbers, IsScript, MayCome};
ghost use Rattle.wf_script_drive.specs.Driving.{report_at, EndsAs, Drives, CountsDrive, FitsDrive};

use crate::steps::{Context, Step, line};
use pens::{Pen, SinkPen};
use wf_bufs::{Bufs, Engine, PublicSurface};
use wf_outside::Sink;
use wf_script::{NumberedCommand, Script};

/// How driving a script ends.
#[derive(Clone, Copy, PartialEq, Eq)]
pub enum DriveEnd {
    /// Every command is done.
    Done,
    /// The call or init of this line needs more turns than it has.
    Turns { line: u32 },
    /// The call or init of this line takes a step that isn't defined.
    Undefined { line: u32 },
    /// The sink failed.
    OutFailed,
}

// Performs the commands in order, and writes their lines. Where the pen is lost it stops.
fn run_commands<E: Engine, P: Pen>(
    context: &Context<'_>,
    commands: &[NumberedCommand],
    engine: &mut E,
    host: &mut Bufs,
    pen: &mut P,
) -> DriveEnd
    requires goes_on { E.stopped (E.state engine.old) ≡ false }
    requires surface { E.surface (E.state engine.old) ≡ context.now.surface.now }
    requires may { All (λ one. MayCome context.now.surface.now (E.receivers (E.state engine.old)) (length host.old.bufs) (length host.old.arrays) one.command) commands.now }
    requires ready { P.ready pen.old }
    ensures ready { P.ready pen.new }
    ensures writes { P.writes pen.old pen.new (report_at (steps_of E.surface E.init_gives E.call_gives) context.now.surface.now context.now.declared.now (E.state engine.old) (host_of host.old) commands.now).text }
    ensures end { EndsAs result (report_at (steps_of E.surface E.init_gives E.call_gives) context.now.surface.now context.now.declared.now (E.state engine.old) (host_of host.old) commands.now).end (P.lost pen.new) }
{
    for one in commands {
        match line(context, engine, host, one, pen) {
            Step::GoesOn => {}
            Step::Turns => return DriveEnd::Turns { line: one.line },
            Step::Undefined => return DriveEnd::Undefined { line: one.line },
        }
        if pen.is_lost() {
            return DriveEnd::OutFailed;
        }
    }
    DriveEnd::Done
}

/// Performs a script's actions over an engine that was made for the script's receivers, on `host` as `Script::host`
/// gives it, and writes the script's report to `out`, in pieces of at most 4,096 bytes. It takes no memory. `OutFailed`:
/// the sink has counted a fault, and a front of the report is written.
pub fn drive<E: Engine, O: Sink>(
    s: &Script,
    surface: &PublicSurface,
    engine: &mut E,
    host: &mut Bufs,
    out: &mut O,
) -> DriveEnd
    requires countable { O.faults out.old < 2 ^ 64 - 1 }
    requires numbers { HasOwnNumbers surface.now }
    requires script { IsScript surface.now s.now }
    requires goes_on { E.stopped (E.state engine.old) ≡ false }
    requires surface { E.surface (E.state engine.old) ≡ surface.now }
    requires receivers { E.receivers (E.state engine.old) ≡ s.now.declared.receivers }
    requires host { host_of host.old ≡ declared_host s.now.declared }
    ensures report { Drives (O.written out.old) (O.written out.new) result (report_of surface.now s.now (run (steps_of E.surface E.init_gives E.call_gives) (E.state engine.old) empty_host (actions_of s.now))) }
    ensures count { CountsDrive (O.faults out.old) (O.faults out.new) result }
    ensures room { FitsDrive (O.room out.old) (O.room out.new) result (length (report_of surface.now s.now (run (steps_of E.surface E.init_gives E.call_gives) (E.state engine.old) empty_host (actions_of s.now))).text) }
    ensures longest { KeepsLongest (O.longest out.old) (O.longest out.new) }
{
    let context = Context {
        declared: s.declared(),
        surface,
    };
    let mut pen = SinkPen::new(out);
    let end = run_commands(&context, s.commands(), engine, host, &mut pen);
    match pen.finish() {
        Ok(()) => end,
        Err(_) => DriveEnd::OutFailed,
    }
}
