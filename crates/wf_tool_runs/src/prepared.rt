// A script with the public surface that it was read over, which can be driven over any engine.

ghost use Rattle.std.specs.Prelude.{◌≡◌, ◌<◌, ◌-◌, ◌^◌, false, length, map, IfOk};
ghost use Rattle.pens.specs.Pens.{KeepsLongest};
ghost use Rattle.wf_ast.specs.TypedInvariant.{IsTyped};
ghost use Rattle.wf_ast.specs.TypedPackage.{package_of, surface_of};
ghost use Rattle.wf_bufs.specs.EngineLaw.{steps_of};
ghost use Rattle.wf_bufs.specs.SurfaceViews.{receiver_of};
ghost use Rattle.wf_surfaces.specs.Names.{HasNames};
ghost use Rattle.wf_tool_runs.specs.Runs.{CountsRun, FitsRun, IsPrepared, Prepares, WritesRun, report_over};

use std::alloc::Global;
use wf_ast::Typed;
use wf_bufs::{Engine, PublicSurface, ReceiverDecl};
use wf_outside::Sink;
use wf_script::{Script, ScriptFault, read_script};
use wf_script_drive::{DriveEnd, drive};
use wf_surfaces::public_surface;
use wf_text::NoMemory;

/// A script, and the public surface that it was read over.
pub(crate) struct Prepared {
    pub surface: PublicSurface,
    pub script: Script,
}

impl Drop for Prepared {
    fn drop(self) {
        let Prepared {
            surface: _,
            script: _,
        } = self;
    }
}

impl Prepared {
    /// Reads a script over the public surface of a package. `Refused` tells its first line that breaks a rule, and the rule.
    pub(crate) fn read(alloc: Global, t: &Typed, bytes: &[u8]) -> Result<Prepared, ScriptFault>
        requires names { HasNames t.now }
        requires typed { IsTyped t.now }
        ensures reads { Prepares (surface_of (package_of t.now)) bytes.now result }
        ensures prepared { IfOk result IsPrepared }
    {
        let surface = public_surface(alloc, t)?;
        let script = read_script(alloc, bytes, &surface)?;
        Ok(Prepared { surface, script })
    }

    /// The receivers that the script declares, by number.
    pub(crate) fn receivers(&self) -> &[ReceiverDecl]
        ensures { map receiver_of result.now ≡ self.now.script.declared.receivers }
    {
        self.script.receivers()
    }

    /// Performs the script over an engine of the package that was made for the script's receivers, and writes its report to `out`,
    /// in pieces of at most 4,096 bytes. It takes all its memory first, and writes nothing where it doesn't get it.
    pub(crate) fn drive<E: Engine, O: Sink>(
        &self,
        alloc: Global,
        engine: &mut E,
        out: &mut O,
    ) -> Result<DriveEnd, NoMemory>
        requires countable { O.faults out.old < 2 ^ 64 - 1 }
        requires prepared { IsPrepared self.now }
        requires goes_on { E.stopped (E.state engine.old) ≡ false }
        requires surface { E.surface (E.state engine.old) ≡ self.now.surface }
        requires receivers { E.receivers (E.state engine.old) ≡ self.now.script.declared.receivers }
        ensures report { WritesRun (O.written out.old) (O.written out.new) result (report_over (steps_of E.surface E.init_gives E.call_gives) (E.state engine.old) self.now.surface self.now.script) }
        ensures count { CountsRun (O.faults out.old) (O.faults out.new) result }
        ensures room { FitsRun (O.room out.old) (O.room out.new) result (length (report_over (steps_of E.surface E.init_gives E.call_gives) (E.state engine.old) self.now.surface self.now.script).text) }
        ensures longest { KeepsLongest (O.longest out.old) (O.longest out.new) }
    {
        let mut host = self.script.host(alloc)?;
        Ok(drive(&self.script, &self.surface, engine, &mut host, out))
    }
}
