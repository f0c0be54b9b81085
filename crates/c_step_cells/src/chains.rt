// The cells of the functions of a text, one after the other.

ghost use Rattle.std.specs.Prelude.{◌≡◌, ◌<◌, ◌+◌, ◌++◌, ◌∷◌, [], max, length, IfOk, OnOk};
ghost use Rattle.c_text.specs.CNodes.{unit_tree};
ghost use Rattle.c_meaning.specs.CCall.{program_of};
ghost use Rattle.c_step_load.specs.Loading.{functions_before};
ghost use Rattle.c_step_cells.specs.Chains.{called_cells as called_cells_of, from_host as from_host_of, frame_cells as frame_cells_of};
ghost use Rattle.c_step_cells.specs.Depths.{AreShallow};
ghost use Rattle.c_step_cells.specs.Growing.{AreChains};

use crate::called::called_cells;
use crate::depths::check_depths;
use c_form::Formed;
use c_step_run::Code;
use c_text::{CItem, CItemId, Linkage, Unit};
use std::alloc::Global;
use wf_text::NoMemory;

/// The cells of functions.
#[derive(Drop)]
pub(crate) struct Chains {
    /// Those of each function, by number.
    pub(crate) table: Vec<u64>,
    /// The greatest number of an external function.
    pub(crate) most: u64,
}

/// The sum; `NoMemory` where nothing can have so many parts.
fn sum(a: u64, b: u64) -> Result<u64, NoMemory>
    ensures { IfOk result (λ n. n ≡ a + b) }
{
    match a.checked_add(b) {
        Some(n) => Ok(n),
        None => Err(NoMemory),
    }
}

/// The cells that a host's call of a function takes; 0 where no host can call it.
fn from_host(linkage: Linkage, cells: u64) -> u64
    ensures { result ≡ from_host_of linkage cells }
{
    match linkage {
        Linkage::External => cells,
        Linkage::Static => 0,
        Linkage::StaticInline => 0,
    }
}

impl Chains {
    /// Adds a function of so many parameters and locals.
    fn add(
        &mut self,
        code: &Code,
        linkage: Linkage,
        params: usize,
        locals: usize,
    ) -> Result<(), NoMemory>
        ensures table { OnOk result (self.new.table.items ≡ self.old.table.items ++ (params + locals + called_cells_of code.now self.old.table.items (length self.old.table.items)) ∷ []) }
        ensures most { OnOk result (self.new.most ≡ max (from_host_of linkage (params + locals + called_cells_of code.now self.old.table.items (length self.old.table.items))) self.old.most) }
    {
        let called = called_cells(code, self.table.as_slice(), self.table.len());
        let own = sum(params as u64, locals as u64)?;
        let cells = sum(own, called)?;
        self.table.push(cells)?;
        self.most = from_host(linkage, cells).max(self.most);
        Ok(())
    }

    /// Adds an item, where it is a function.
    fn add_item(&mut self, unit: &Unit, code: &Code, i: usize) -> Result<(), NoMemory>
        requires { i < length unit.now.items }
        ensures { AreChains code.now (functions_before unit.now i) self.old → OnOk result (AreChains code.now (functions_before unit.now (i + 1)) self.new) }
    {
        match unit.item(CItemId(i)) {
            CItem::Function {
                linkage,
                params,
                locals,
                ..
            } => {
                let params = params.as_slice().len();
                let locals = locals.as_slice().len();
                self.add(code, *linkage, params, locals)?;
                Ok(())
            }
            CItem::Struct { .. } => Ok(()),
            CItem::Text { .. } => Ok(()),
        }
    }
}

/// The greatest number of parameters and locals along a chain of calls that begins at an external function of a unit, by the
/// unit's code. `NoMemory` where memory was refused, or where a chain of calls has more than 4,096 functions.
pub fn frame_cells(alloc: Global, formed: &Formed<'_>, code: &Code) -> Result<u64, NoMemory>
    ensures cells { IfOk result (λ n. n ≡ frame_cells_of code.now (program_of (unit_tree formed.now)).functions) }
    ensures shallow { OnOk result (AreShallow code.now) }
{
    check_depths(alloc, code)?;
    let unit = formed.unit();
    let mut chains = Chains {
        table: Vec::new(alloc),
        most: 0,
    };
    let mut i = 0;
    while i < unit.items() {
        chains.add_item(unit, code, i)?;
        i += 1;
    }
    Ok(chains.most)
}
