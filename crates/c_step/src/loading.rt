// What an engine keeps of what it is loaded with: copies, and tables by the numbers of a text.

ghost use Rattle.std.specs.Prelude.{◌≡◌, map, IfOk, OnOk, IfErr};
ghost use Rattle.wf_bufs.specs.SurfaceViews.{receiver_of};
ghost use Rattle.c_text.specs.CNodes.{unit_tree};
ghost use Rattle.c_meaning.specs.CCall.{program_of};
ghost use Rattle.c_meaning.specs.UnitForm.{HasUnitForm};
ghost use Rattle.c_form.specs.Formed.{Refuses};
ghost use Rattle.c_step_engine.specs.Statuses.{AreStatuses};
ghost use Rattle.c_step_tables.specs.Tables.{AreStructs};
ghost use Rattle.c_step.specs.Machines.{IsLoaded};

use c_form::{Formed, LoadFault, formed};
use c_step_cells::frame_cells;
use c_step_entries::{struct_entries, text_statuses};
use c_step_load::Numbered;
use c_step_objects::{Started, start};
use c_step_tables::StructEntry;
use c_text::Unit;
use std::alloc::Global;
use wf_bufs::{PublicSurface, ReceiverDecl};
use wf_text::{NoMemory, StatusId};

/// A copy of the receivers.
pub(crate) fn copied(
    alloc: Global,
    receivers: &[ReceiverDecl],
) -> Result<Vec<ReceiverDecl>, NoMemory>
    ensures { IfOk result (λ it. it.items ≡ receivers.now) }
{
    let all = Vec::from_slice(alloc, receivers)?;
    Ok(all)
}

/// Tables of a text for a package's surface.
#[derive(Drop)]
pub(crate) struct Tables {
    /// The public functions.
    pub structs: Vec<StructEntry>,
    /// The statuses of the strings that have one.
    pub statuses: Vec<Option<StatusId>>,
}

impl Tables {
    /// The tables of a text.
    pub(crate) fn of(
        alloc: Global,
        numbered: &Numbered<'_>,
        surface: &PublicSurface,
    ) -> Result<Tables, NoMemory>
        ensures structs { IfOk result (λ it. AreStructs (program_of (unit_tree numbered.now)) surface.now surface.now.structs it.structs.items) }
        ensures statuses { IfOk result (λ it. AreStatuses (program_of (unit_tree numbered.now)) surface.now it.statuses.items) }
    {
        let structs = struct_entries(alloc, numbered, surface)?;
        let statuses = text_statuses(alloc, numbered.formed(), surface)?;
        Ok(Tables { structs, statuses })
    }
}

/// What a text comes to for a package's surface and receivers.
#[derive(Drop)]
pub(crate) struct LoadedText {
    /// Its tables.
    pub tables: Tables,
    /// Its code, and what calls of it take.
    pub started: Started,
    /// The greatest number of parameters and locals along a chain of calls.
    pub cells: u64,
}

impl LoadedText {
    /// What a text of the unit form comes to. `NoMemory` where memory was refused.
    fn of(
        alloc: Global,
        formed: Formed<'_>,
        surface: &PublicSurface,
        receivers: &[ReceiverDecl],
    ) -> Result<LoadedText, NoMemory>
        ensures { IfOk result (IsLoaded formed.entry surface.now (map receiver_of receivers.now)) }
    {
        let numbered = Numbered::new(alloc, formed)?;
        let tables = Tables::of(alloc, &numbered, surface)?;
        let started = start(alloc, &numbered, surface, receivers)?;
        let cells = frame_cells(alloc, numbered.formed(), &started.code)?;
        Ok(LoadedText {
            tables,
            started,
            cells,
        })
    }
}

/// What a text comes to. `NoSuchForm`: it hasn't the unit form for the package with this surface. `Memory`: memory was
/// refused.
pub(crate) fn load_text(
    alloc: Global,
    unit: &Unit,
    surface: &PublicSurface,
    receivers: &[ReceiverDecl],
) -> Result<LoadedText, LoadFault>
    ensures form { OnOk result (HasUnitForm surface.now (unit_tree unit.now)) }
    ensures loaded { IfOk result (IsLoaded unit.now surface.now (map receiver_of receivers.now)) }
    ensures refused { IfErr result (Refuses surface.now (unit_tree unit.now)) }
{
    let formed = formed(alloc, unit, surface)?;
    let text = LoadedText::of(alloc, formed, surface, receivers)?;
    Ok(text)
}
