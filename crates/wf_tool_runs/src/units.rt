// A script over a unit of a C text, by the engine that a loader makes of it.

ghost use Rattle.std.specs.Prelude.{◌≡◌, ◌<◌, ◌-◌, ◌^◌};
ghost use Rattle.pens.specs.Pens.{KeepsLongest};
ghost use Rattle.c_text.specs.CNodes.{unit_tree};
ghost use Rattle.wf_tool_runs.specs.Runs.{CountsRun, IsPrepared};
ghost use Rattle.wf_tool_runs.specs.Units.{RunsUnit};

use crate::prepared::Prepared;
use c_form::LoadFault;
use c_step::Loader;
use c_text::Unit;
use std::alloc::Global;
use wf_outside::Sink;
use wf_script_drive::DriveEnd;

/// Loads the unit as a text of the package with the surface that the script was read over, and performs the script over its engine.
/// Nothing is written where it isn't loaded.
pub(crate) fn run_unit<L: Loader, O: Sink>(
    alloc: Global,
    loader: &mut L,
    prepared: &Prepared,
    unit: Unit,
    out: &mut O,
) -> Result<DriveEnd, LoadFault>
    requires prepared { IsPrepared prepared.now }
    requires countable { O.faults out.old < 2 ^ 64 - 1 }
    ensures same { (L.seen loader.new ≡ L.seen loader.old) × (L.plain loader.new ≡ L.plain loader.old) }
    ensures runs { RunsUnit (L.seen loader.old) (unit_tree unit) prepared.now.surface prepared.now.script (O.written out.old) (O.written out.new) (O.room out.old) (O.room out.new) result }
    ensures count { CountsRun (O.faults out.old) (O.faults out.new) result }
    ensures longest { KeepsLongest (O.longest out.old) (O.longest out.new) }
{
    let mut engine = loader.load(alloc, unit, &prepared.surface, prepared.receivers())?;
    let end = prepared.drive(alloc, &mut engine, out)?;
    Ok(end)
}
