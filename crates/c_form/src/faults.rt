// Why a C text isn't loaded.

ghost use Rattle.std.specs.Prelude.{◌≡◌};
ghost use Rattle.c_form.specs.declared.faults.LoadFault.TheVariants as faults;

use thiserror::Error;
use wf_text::NoMemory;

/// Why a unit isn't taken.
#[derive(Debug, Drop, Error)]
pub enum LoadFault {
    /// The number, counted from 0, of the first item that breaks the unit form; the number of items, where there is none or
    /// a public function is missing.
    #[error("item {item} breaks the unit form")]
    NoSuchForm {
        /// The number of the item.
        item: usize,
    },
    /// Memory was refused; nothing is said of the unit.
    #[error("out of memory")]
    Memory,
}

impl From<NoMemory> for LoadFault {
    ghost from_gives = { λ _ fault. fault ≡ faults.Memory };

    fn from(_refused: NoMemory) -> LoadFault {
        LoadFault::Memory
    }
}
