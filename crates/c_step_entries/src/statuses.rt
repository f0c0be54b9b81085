// The statuses of a text's strings.

ghost use Rattle.std.specs.Prelude.{◌≡◌, ◌<◌, ◌++◌, ℕ, List, [], ◌∷◌, if◌then◌else◌, length, map, slice_get, Some, bytes_eq, vec_items, IfOk, OnOk};
ghost use Rattle.c_text.specs.CTree.{ItemTree};
ghost use Rattle.c_text.specs.CNodes.{bytes_at, unit_tree};
ghost use Rattle.c_meaning.specs.CTypes.{texts_of};
ghost use Rattle.c_meaning.specs.CCall.{program_of};
ghost use Rattle.c_form_exprs.specs.Tables.{named};
ghost use Rattle.c_step_engine.specs.Statuses.{AreStatuses};
ghost use Rattle.c_step_entries.specs.Known.{known_status};

use c_form::Formed;
use c_form_exprs::SpellingTable;
use c_text::{CItem, CItemId, Unit};
use std::alloc::Global;
use wf_bufs::PublicSurface;
use wf_text::{NoMemory, StatusId};

/// The number of the status at a place, where no status after the first and before the place has the same text: that of the
/// first status, where this has it.
fn number_at(statuses: &[Vec<u8>], i: usize) -> usize
    requires { i < length statuses.now }
    ensures { result ≡ (if bytes_eq (bytes_at (map vec_items statuses.now) i) (bytes_at (map vec_items statuses.now) 0) then 0 else i) }
{
    if statuses[i].as_slice() == statuses[0].as_slice() {
        0
    } else {
        i
    }
}

/// The status with a number; `NoMemory` where no status has such a number.
fn status(number: usize) -> Result<StatusId, NoMemory>
    ensures { IfOk result (λ it. it.0 ≡ number) }
{
    let n = u32::try_from(number).map_err(|_| NoMemory)?;
    Ok(StatusId(n))
}

/// The statuses but the first, by their texts.
fn status_table<'s>(
    alloc: Global,
    statuses: &'s [Vec<u8>],
) -> Result<SpellingTable<'s, StatusId>, NoMemory>
    ensures { IfOk result (λ table. (text : List ℕ) → named table text ≡ known_status (map vec_items statuses.now) text) }
{
    let mut table = SpellingTable::new(alloc);
    let mut i = 1;
    while i < statuses.len() {
        let id = status(number_at(statuses, i))?;
        table.add(statuses[i].as_slice(), id)?;
        i += 1;
    }
    Ok(table)
}

/// Adds the status of an item, where the item is a string.
fn add_status(
    unit: &Unit,
    i: usize,
    table: &SpellingTable<'_, StatusId>,
    statuses: &mut Vec<Option<StatusId>>,
) -> Result<(), NoMemory>
    requires { i < length unit.now.items }
    ensures { (item : ItemTree) → slice_get (unit_tree unit.now) i ≡ Some item → OnOk result (statuses.new.items ≡ statuses.old.items ++ map (λ t. named table.now t.bytes) (texts_of (item ∷ []))) }
{
    match unit.item(CItemId(i)) {
        CItem::Text { text, .. } => {
            statuses.push(table.get(unit.string(*text)))?;
            Ok(())
        }
        CItem::Struct { .. } => Ok(()),
        CItem::Function { .. } => Ok(()),
    }
}

/// The statuses of all strings, by a table of statuses.
fn statuses_by(
    alloc: Global,
    unit: &Unit,
    table: &SpellingTable<'_, StatusId>,
) -> Result<Vec<Option<StatusId>>, NoMemory>
    ensures { IfOk result (λ it. it.items ≡ map (λ t. named table.now t.bytes) (texts_of (unit_tree unit.now))) }
{
    let mut statuses = Vec::new(alloc);
    let mut i = 0;
    while i < unit.items() {
        add_status(unit, i, table, &mut statuses)?;
        i += 1;
    }
    Ok(statuses)
}

/// The status of each string of the text, where its bytes are a status's text other than that of ok. `NoMemory` where memory
/// was refused, or the package has more statuses than there are numbers for.
pub fn text_statuses(
    alloc: Global,
    formed: &Formed<'_>,
    surface: &PublicSurface,
) -> Result<Vec<Option<StatusId>>, NoMemory>
    ensures { IfOk result (λ it. AreStatuses (program_of (unit_tree formed.now)) surface.now it.items) }
{
    let table = status_table(alloc, surface.statuses.as_slice())?;
    statuses_by(alloc, formed.unit(), &table)
}
