// The objects of the strings of a text (ISO/IEC 9899:1999, 6.7.8p14).

ghost use Rattle.std.specs.Prelude.{◌≡◌, ◌<◌, ◌+◌, ◌++◌, ◌∷◌, [], length, map, IfOk, OnOk};
ghost use Rattle.c_text.specs.CNodes.{unit_tree};
ghost use Rattle.c_meaning.specs.CTypes.{texts_of};
ghost use Rattle.c_meaning.specs.CRun.{text_object};
ghost use Rattle.c_step_objects.specs.Texts.{texts_before};

use crate::objects::bytes_object;
use c_mem::Object;
use c_text::{CItem, CItemId, Unit};
use std::alloc::Global;
use wf_text::NoMemory;

/// The bytes of a string with the zero byte at its end.
fn with_end(alloc: Global, text: &[u8]) -> Result<Vec<u8>, NoMemory>
    ensures { IfOk result (λ bytes. bytes.items ≡ text.now ++ 0 ∷ []) }
{
    let mut bytes = Vec::from_slice(alloc, text)?;
    bytes.push(0)?;
    Ok(bytes)
}

/// Adds the object of an item, where it is a string.
fn add_item(alloc: Global, unit: &Unit, i: usize, all: &mut Vec<Object>) -> Result<(), NoMemory>
    requires { i < length unit.now.items }
    ensures { all.old.items ≡ texts_before unit.now i → OnOk result (all.new.items ≡ texts_before unit.now (i + 1)) }
{
    match unit.item(CItemId(i)) {
        CItem::Text { text, .. } => {
            let bytes = with_end(alloc, unit.string(*text))?;
            all.push(bytes_object(alloc, bytes)?)?;
            Ok(())
        }
        CItem::Struct { .. } => Ok(()),
        CItem::Function { .. } => Ok(()),
    }
}

/// The objects of the strings of a unit.
pub(crate) fn text_objects(alloc: Global, unit: &Unit) -> Result<Vec<Object>, NoMemory>
    ensures { IfOk result (λ all. all.items ≡ map text_object (texts_of (unit_tree unit.now))) }
{
    let mut all = Vec::new(alloc);
    let mut i = 0;
    while i < unit.items() {
        add_item(alloc, unit, i, &mut all)?;
        i += 1;
    }
    Ok(all)
}
