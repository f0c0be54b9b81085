// A script over the source of an accepted package.

ghost use Rattle.std.specs.Prelude.{◌≡◌, ◌<◌, ◌-◌, ◌^◌, length};
ghost use Rattle.pens.specs.Pens.{KeepsLongest};
ghost use Rattle.wf_ast.specs.TypedPackage.{package_of, surface_of};
ghost use Rattle.wf_surfaces.specs.Names.{HasNames};
ghost use Rattle.wf_tool_runs.specs.Runs.{CountsRun, FitsRun, IsPrepared, RunsScript, WritesRun};
ghost use Rattle.wf_tool_runs.specs.Sources.{engine_report};

use crate::prepared::Prepared;
use std::alloc::Global;
use wf_bounds::Accepted;
use wf_mean::SourceEngine;
use wf_outside::Sink;
use wf_script::ScriptFault;
use wf_script_drive::DriveEnd;
use wf_text::NoMemory;

/// Runs a script over the source of an accepted package, and writes its report to `out`, in pieces of at most 4,096 bytes. It takes
/// all its memory before the first byte. `Refused`: the script breaks a rule, and nothing is written.
pub fn run_source<O: Sink>(
    alloc: Global,
    a: &Accepted,
    bytes: &[u8],
    out: &mut O,
) -> Result<DriveEnd, ScriptFault>
    requires names { HasNames a.now.nodes }
    requires countable { O.faults out.old < 2 ^ 64 - 1 }
    ensures runs { RunsScript (surface_of (package_of a.now.nodes)) (engine_report (package_of a.now.nodes)) bytes.now (O.written out.old) (O.written out.new) (O.room out.old) (O.room out.new) result }
    ensures count { CountsRun (O.faults out.old) (O.faults out.new) result }
    ensures longest { KeepsLongest (O.longest out.old) (O.longest out.new) }
{
    let prepared = Prepared::read(alloc, a.typed(), bytes)?;
    let end = run_prepared(alloc, a, &prepared, out)?;
    Ok(end)
}

// Runs a script that is read over the package's surface.
fn run_prepared<O: Sink>(
    alloc: Global,
    a: &Accepted,
    prepared: &Prepared,
    out: &mut O,
) -> Result<DriveEnd, NoMemory>
    requires surface { prepared.now.surface ≡ surface_of (package_of a.now.nodes) }
    requires prepared { IsPrepared prepared.now }
    requires countable { O.faults out.old < 2 ^ 64 - 1 }
    ensures report { WritesRun (O.written out.old) (O.written out.new) result (engine_report (package_of a.now.nodes) prepared.now.script) }
    ensures count { CountsRun (O.faults out.old) (O.faults out.new) result }
    ensures room { FitsRun (O.room out.old) (O.room out.new) result (length (engine_report (package_of a.now.nodes) prepared.now.script).text) }
    ensures longest { KeepsLongest (O.longest out.old) (O.longest out.new) }
{
    let mut engine = SourceEngine::load(alloc, a, prepared.receivers())?;
    prepared.drive(alloc, &mut engine, out)
}
