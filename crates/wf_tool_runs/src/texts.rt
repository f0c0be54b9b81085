// A script over a C text that is handed in.

ghost use Rattle.std.specs.Prelude.{◌≡◌, ◌<◌, ◌≤◌, ◌-◌, ◌^◌, length};
ghost use Rattle.pens.specs.Pens.{KeepsLongest};
ghost use Rattle.wf_ast.specs.TypedPackage.{package_of, surface_of};
ghost use Rattle.wf_surfaces.specs.Names.{HasNames};
ghost use Rattle.wf_tool_runs.specs.Runs.{CountsRun, IsPrepared};
ghost use Rattle.wf_tool_runs.specs.Units.{RunsRead, RunsText, load_fault, read_fault, script_fault};

use crate::prepared::Prepared;
use crate::units::run_unit;
use c_form::LoadFault;
use c_read::{ReadFault, read};
use c_step::Loader;
use std::alloc::Global;
use wf_bounds::Accepted;
use wf_outside::Sink;
use wf_script::ScriptFault;
use wf_script_drive::DriveEnd;
use wf_script_rules::XRule;

/// How many bytes a text may have.
const MOST_TEXT: usize = 1_048_576;

/// Why bytes aren't run as a C text of a package.
#[derive(Clone, Copy)]
pub enum TextFault {
    /// They are more than 1,048,576.
    TooLong,
    /// The bracket at this byte, from 0, opens where 512 are open.
    TooDeep { at: u64 },
    /// The token at this byte, from 0, can't stand there; at the end, the number of bytes.
    NotC { at: u64 },
    /// The number, counted from 0, of the first item that breaks the unit form; the number of items, where there is none or a
    /// public function is missing.
    NoSuchForm { item: usize },
}

/// Why a script isn't run over a C text.
#[derive(Clone, Copy)]
pub enum RunFault {
    /// This line of the script, from 1, is the first that breaks a rule, and this is the first rule that it breaks.
    Script { line: u32, rule: XRule },
    /// The text is refused.
    Text(TextFault),
    /// Memory was refused.
    Memory,
}

impl From<ScriptFault> for RunFault {
    ghost from_gives = { λ refused fault. fault ≡ script_fault refused };

    fn from(refused: ScriptFault) -> RunFault {
        match refused {
            ScriptFault::Refused { line, rule } => RunFault::Script { line, rule },
            ScriptFault::Memory => RunFault::Memory,
        }
    }
}

impl From<ReadFault> for RunFault {
    ghost from_gives = { λ refused fault. fault ≡ read_fault refused };

    fn from(refused: ReadFault) -> RunFault {
        match refused {
            ReadFault::TooDeep { at } => RunFault::Text(TextFault::TooDeep { at }),
            ReadFault::NotC { at } => RunFault::Text(TextFault::NotC { at }),
            ReadFault::Memory => RunFault::Memory,
        }
    }
}

impl From<LoadFault> for RunFault {
    ghost from_gives = { λ refused fault. fault ≡ load_fault refused };

    fn from(refused: LoadFault) -> RunFault {
        match refused {
            LoadFault::NoSuchForm { item } => RunFault::Text(TextFault::NoSuchForm { item }),
            LoadFault::Memory => RunFault::Memory,
        }
    }
}

/// Runs a script over these bytes as a C text of an accepted package, and writes its report to `out`, in pieces of at most 4,096
/// bytes. It takes all its memory before the first byte. At an `Err` nothing is written; a script that breaks a rule comes before a
/// text that is refused.
pub fn run_text<L: Loader, O: Sink>(
    alloc: Global,
    loader: &mut L,
    a: &Accepted,
    bytes: &[u8],
    text: &[u8],
    out: &mut O,
) -> Result<DriveEnd, RunFault>
    requires names { HasNames a.now.nodes }
    requires countable { O.faults out.old < 2 ^ 64 - 1 }
    ensures same { (L.seen loader.new ≡ L.seen loader.old) × (L.plain loader.new ≡ L.plain loader.old) }
    ensures runs { RunsText (L.seen loader.old) (surface_of (package_of a.now.nodes)) bytes.now text.now (O.written out.old) (O.written out.new) (O.room out.old) (O.room out.new) result }
    ensures count { CountsRun (O.faults out.old) (O.faults out.new) result }
    ensures longest { KeepsLongest (O.longest out.old) (O.longest out.new) }
{
    let prepared = Prepared::read(alloc, a.typed(), bytes)?;
    run_read(alloc, loader, &prepared, text, out)
}

// The same of a script that is read over the package's surface.
fn run_read<L: Loader, O: Sink>(
    alloc: Global,
    loader: &mut L,
    prepared: &Prepared,
    text: &[u8],
    out: &mut O,
) -> Result<DriveEnd, RunFault>
    requires prepared { IsPrepared prepared.now }
    requires countable { O.faults out.old < 2 ^ 64 - 1 }
    ensures same { (L.seen loader.new ≡ L.seen loader.old) × (L.plain loader.new ≡ L.plain loader.old) }
    ensures runs { RunsRead (L.seen loader.old) prepared.now.surface prepared.now.script text.now (O.written out.old) (O.written out.new) (O.room out.old) (O.room out.new) result }
    ensures count { CountsRun (O.faults out.old) (O.faults out.new) result }
    ensures longest { KeepsLongest (O.longest out.old) (O.longest out.new) }
{
    if text.len() > MOST_TEXT {
        return Err(RunFault::Text(TextFault::TooLong));
    }
    run_short(alloc, loader, prepared, text, out)
}

// The same of a text that isn't too long.
fn run_short<L: Loader, O: Sink>(
    alloc: Global,
    loader: &mut L,
    prepared: &Prepared,
    text: &[u8],
    out: &mut O,
) -> Result<DriveEnd, RunFault>
    requires prepared { IsPrepared prepared.now }
    requires short { length text.now ≤ 1048576 }
    requires countable { O.faults out.old < 2 ^ 64 - 1 }
    ensures same { (L.seen loader.new ≡ L.seen loader.old) × (L.plain loader.new ≡ L.plain loader.old) }
    ensures runs { RunsRead (L.seen loader.old) prepared.now.surface prepared.now.script text.now (O.written out.old) (O.written out.new) (O.room out.old) (O.room out.new) result }
    ensures count { CountsRun (O.faults out.old) (O.faults out.new) result }
    ensures longest { KeepsLongest (O.longest out.old) (O.longest out.new) }
{
    let unit = read(alloc, text)?;
    Ok(run_unit(alloc, loader, prepared, unit, out)?)
}
