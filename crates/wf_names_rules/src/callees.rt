// What a call's method name stands for, and the row of the methods that are called.

ghost use Rattle.std.specs.Prelude.{◌≡◌, ◌++◌, [], ◌∷◌, OnOk};
ghost use Rattle.wf_names_rules.specs.Called.{with_callee};

use graphs::rows::Row;
use wf_base::base_methods::BaseSig;
use wf_text::faults::NoMemory;

/// What a method's name stands for, by what the call is made on.
#[derive(Clone, Copy, PartialEq, Eq)]
pub enum Callee {
    /// A method of the package, by its number.
    Own(usize),
    /// One of a field's struct that is private, and so isn't called through the field.
    Hidden(usize),
    Base(BaseSig),
    /// Called on `this`: not a method of its struct, but of another.
    Foreign,
    /// No method.
    Missing,
    /// What it is called on has no meaning.
    Baseless,
}

fn add_method(row: &mut Row, m: usize) -> Result<(), NoMemory>
    ensures { OnOk result (row.new ≡ row.old ++ m ∷ []) }
{
    row.push(m)?;
    Ok(())
}

/// Joins a callee at the end of a row, where it is a method of the package.
pub(crate) fn add_callee(row: &mut Row, callee: Callee) -> Result<(), NoMemory>
    ensures { OnOk result (row.new ≡ with_callee row.old callee) }
{
    match callee {
        Callee::Own(m) => add_method(row, m),
        Callee::Hidden(m) => add_method(row, m),
        Callee::Base(_) => Ok(()),
        Callee::Foreign => Ok(()),
        Callee::Missing => Ok(()),
        Callee::Baseless => Ok(()),
    }
}
