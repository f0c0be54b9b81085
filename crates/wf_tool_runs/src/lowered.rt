// A script over the C text of an accepted package: the text is printed into memory and read back.

ghost use Rattle.std.specs.Prelude.{◌≡◌, ◌<◌, ◌-◌, ◌^◌, IfOk, length};
ghost use Rattle.pens.specs.Pens.{KeepsLongest};
ghost use Rattle.wf_ast.specs.TypedPackage.{package_of, surface_of};
ghost use Rattle.c_text.specs.CGrammar.{unit_tokens};
ghost use Rattle.c_text.specs.CLayout.{text_of};
ghost use Rattle.c_text.specs.CNodes.{unit_tree};
ghost use Rattle.c_read_grammar.specs.Outcomes.{IsShallow};
ghost use Rattle.wf_lower.specs.Made.{IsSpelt};
ghost use Rattle.wf_lower.specs.Unit.{lowered_unit};
ghost use Rattle.wf_surfaces.specs.Names.{HasNames};
ghost use Rattle.wf_tool_runs.specs.Lowered.{IsLowered, lowered_report};
ghost use Rattle.wf_tool_runs.specs.Runs.{CountsRun, FitsRun, IsPrepared, RunsScript, WritesRun};

use crate::prepared::Prepared;
use crate::units::run_unit;
use c_form::LoadFault;
use c_read::{ReadFault, read, what_is_printed_is_read_back};
use c_step::Loader;
use c_text::{Unit, print, print_len};
use std::alloc::Global;
use wf_bounds::Accepted;
use wf_lower::lower;
use wf_outside::{PureSink, Sink};
use wf_script::ScriptFault;
use wf_script_drive::DriveEnd;
use wf_text::NoMemory;

/// Runs a script over the C text of an accepted package, printed into memory and read back, and writes its report to `out`, in pieces
/// of at most 4,096 bytes. It takes all its memory before the first byte. `Refused`: the script breaks a rule, and nothing is written.
pub fn run_lowered<L: Loader, O: Sink>(
    alloc: Global,
    loader: &mut L,
    a: &Accepted,
    bytes: &[u8],
    out: &mut O,
) -> Result<DriveEnd, ScriptFault>
    requires names { HasNames a.now.nodes }
    requires spelt { IsSpelt a.now.nodes }
    requires lowered { IsLowered (package_of a.now.nodes) }
    requires countable { O.faults out.old < 2 ^ 64 - 1 }
    ensures same { (L.seen loader.new ≡ L.seen loader.old) × (L.plain loader.new ≡ L.plain loader.old) }
    ensures runs { RunsScript (surface_of (package_of a.now.nodes)) (lowered_report (L.seen loader.old) (package_of a.now.nodes)) bytes.now (O.written out.old) (O.written out.new) (O.room out.old) (O.room out.new) result }
    ensures count { CountsRun (O.faults out.old) (O.faults out.new) result }
    ensures longest { KeepsLongest (O.longest out.old) (O.longest out.new) }
{
    let prepared = Prepared::read(alloc, a.typed(), bytes)?;
    let end = run_made(alloc, loader, a, &prepared, out)?;
    Ok(end)
}

// The same of a script that is read over the package's surface.
fn run_made<L: Loader, O: Sink>(
    alloc: Global,
    loader: &mut L,
    a: &Accepted,
    prepared: &Prepared,
    out: &mut O,
) -> Result<DriveEnd, NoMemory>
    requires spelt { IsSpelt a.now.nodes }
    requires lowered { IsLowered (package_of a.now.nodes) }
    requires surface { prepared.now.surface ≡ surface_of (package_of a.now.nodes) }
    requires prepared { IsPrepared prepared.now }
    requires countable { O.faults out.old < 2 ^ 64 - 1 }
    ensures same { (L.seen loader.new ≡ L.seen loader.old) × (L.plain loader.new ≡ L.plain loader.old) }
    ensures report { WritesRun (O.written out.old) (O.written out.new) result (lowered_report (L.seen loader.old) (package_of a.now.nodes) prepared.now.script) }
    ensures count { CountsRun (O.faults out.old) (O.faults out.new) result }
    ensures room { FitsRun (O.room out.old) (O.room out.new) result (length (lowered_report (L.seen loader.old) (package_of a.now.nodes) prepared.now.script).text) }
    ensures longest { KeepsLongest (O.longest out.old) (O.longest out.new) }
{
    let unit = made_again(alloc, a)?;
    run_unit(alloc, loader, prepared, unit, out).map_err(|fault| match fault {
        LoadFault::NoSuchForm { item: _ } => unreachable!(),
        LoadFault::Memory => NoMemory,
    })
}

// The unit of the package's C text, printed and read back.
fn made_again(alloc: Global, a: &Accepted) -> Result<Unit, NoMemory>
    requires spelt { IsSpelt a.now.nodes }
    requires lowered { IsLowered (package_of a.now.nodes) }
    ensures { IfOk result (λ unit. unit_tree unit ≡ lowered_unit (package_of a.now.nodes)) }
{
    let unit = lower(alloc, a)?;
    read_back(alloc, &unit)
}

// A unit that is printed and read back.
fn read_back(alloc: Global, unit: &Unit) -> Result<Unit, NoMemory>
    requires { IsShallow 0 (unit_tokens (unit_tree unit.now)) }
    ensures { IfOk result (λ it. unit_tree it ≡ unit_tree unit.now) }
{
    let text = printed(alloc, unit)?;
    what_is_printed_is_read_back(unit);
    read(alloc, text.written()).map_err(|fault| match fault {
        ReadFault::TooDeep { at: _ } => unreachable!(),
        ReadFault::NotC { at: _ } => unreachable!(),
        ReadFault::Memory => NoMemory,
    })
}

// The text of a unit, in memory.
fn printed(alloc: Global, unit: &Unit) -> Result<PureSink, NoMemory>
    ensures { IfOk result (λ it. it.written ≡ text_of (unit_tree unit.now)) }
{
    let mut text = PureSink::with_room(alloc, print_len(unit) as usize)?;
    print(unit, &mut text).map_err(|_| NoMemory)?;
    Ok(text)
}
