// The public functions of a text, by the numbers that a package's structs and methods have.

ghost use Rattle.std.specs.Prelude.{◌≡◌, option_copied};
ghost use Rattle.c_step_tables.specs.Tables.{method_at, struct_at};

use wf_bufs::AnswerKind;
use wf_text::{MethodId, StructId};

/// A public method.
#[derive(Clone, Copy)]
pub struct MethodEntry {
    /// Its number in the package.
    pub number: MethodId,
    /// What it answers.
    pub kind: AnswerKind,
    /// The number of its function.
    pub function: Option<usize>,
}

/// A public struct.
#[derive(Drop)]
pub struct StructEntry {
    /// Its number in the package.
    pub number: StructId,
    /// The number of the function that initializes it.
    pub initialize: Option<usize>,
    /// Its public methods.
    pub methods: Vec<MethodEntry>,
}

impl StructEntry {
    /// The method with a number.
    pub fn method(&self, k: MethodId) -> Option<MethodEntry>
        ensures { result ≡ method_at self.now.methods.items k.0 }
    {
        self.found(k).copied()
    }

    fn found(&self, k: MethodId) -> Option<&MethodEntry>
        ensures { option_copied result ≡ method_at self.now.methods.items k.0 }
    {
        self.methods.iter().find(|it| it.number == k)
    }
}

/// The struct with a number.
pub fn struct_entry(structs: &Vec<StructEntry>, k: StructId) -> Option<&StructEntry>
    ensures { option_copied result ≡ struct_at structs.now.items k.0 }
{
    structs.iter().find(|it| it.number == k)
}
