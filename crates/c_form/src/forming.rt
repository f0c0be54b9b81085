// Whether a unit has the unit form, item by item.

ghost use Rattle.std.specs.Prelude.{◌≡◌, length, None, IfOk, OnOk, IfErr};
ghost use Rattle.c_text.specs.CNodes.{unit_tree};
ghost use Rattle.c_meaning.specs.UnitForm.{HasUnitForm, first_break as first_break_of};
ghost use Rattle.c_form.specs.Formed.{Refuses};

use crate::demands::Demands;
use crate::faults::LoadFault;
use crate::items::{is_formed_item, item_names};
use crate::units::Formed;
use c_form_exprs::Front;
use c_text::Unit;
use std::alloc::Global;
use wf_bufs::PublicSurface;

/// What all items of a unit declare, where the unit has the unit form for the package with this surface. `NoSuchForm` exactly
/// where it hasn't, with the number of the first item that breaks it; the number of items, where none does but a public
/// function is missing or there is no item. `Memory` where memory was refused.
fn checked<'u>(
    alloc: Global,
    unit: &'u Unit,
    surface: &PublicSurface,
) -> Result<Front<'u>, LoadFault>
    ensures whole { IfOk result (λ front. front ≡ record { nodes = unit.now; count = length unit.now.items }) }
    ensures form { OnOk result (first_break_of surface.now (unit_tree unit.now) ≡ None) }
    ensures refused { IfErr result (Refuses surface.now (unit_tree unit.now)) }
{
    let names = item_names(alloc, unit)?;
    let demands = Demands::of(alloc, unit, &names, surface)?;
    let mut front = Front::new(alloc, unit);
    let mut i = 0;
    while i < unit.items() {
        if !is_formed_item(alloc, &front, &names, i)? {
            return Err(LoadFault::NoSuchForm { item: i });
        }
        if !demands.are_met(i) {
            return Err(LoadFault::NoSuchForm { item: i });
        }
        front.declare()?;
        i += 1;
    }
    if i == 0 {
        return Err(LoadFault::NoSuchForm { item: i });
    }
    if demands.are_complete() {
        Ok(front)
    } else {
        Err(LoadFault::NoSuchForm { item: i })
    }
}

/// Takes a unit that has the unit form for the package with this surface. `NoSuchForm` exactly where it hasn't, with the
/// number of the first item that breaks it; the number of items, where no item does but a public function is missing
/// or there is none.
/// `Memory` where memory was refused.
pub fn formed<'u>(
    alloc: Global,
    unit: &'u Unit,
    surface: &PublicSurface,
) -> Result<Formed<'u>, LoadFault>
    ensures same { IfOk result (λ it. it ≡ unit.now) }
    ensures has { IfOk result (λ it. HasUnitForm surface.now (unit_tree it)) }
    ensures refused { IfErr result (Refuses surface.now (unit_tree unit.now)) }
{
    let front = checked(alloc, unit, surface)?;
    Ok(Formed::new(front))
}
