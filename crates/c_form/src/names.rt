// The names of a package's types and functions in a text of C.

ghost use Rattle.std.specs.Prelude.{◌≡◌, ◌++◌, codes, IfOk, OnOk};

use std::alloc::Global;
use wf_text::NoMemory;

/// Adds bytes at the end.
fn append(text: &mut Vec<u8>, more: &[u8]) -> Result<(), NoMemory>
    ensures { OnOk result (text.new.items ≡ text.old.items ++ more.now) }
{
    text.extend_from_slice(more)?;
    Ok(())
}

/// The name of a struct's type in a package's C text, from the package's name and the struct's: `wuffs_PACKAGE__NAME`.
/// `NoMemory` where memory was refused.
pub fn type_name(alloc: Global, of_package: &[u8], name: &[u8]) -> Result<Vec<u8>, NoMemory>
    ensures { IfOk result (λ it. it.items ≡ codes "wuffs_" ++ (of_package.now ++ (codes "__" ++ name.now))) }
{
    let mut text = Vec::new(alloc);
    append(&mut text, b"wuffs_")?;
    append(&mut text, of_package)?;
    append(&mut text, b"__")?;
    append(&mut text, name)?;
    Ok(text)
}

/// The name of a function of a struct whose type has the name `of` in a package's C text: `OF__NAME`. `NoMemory` where
/// memory was refused.
pub fn function_name(alloc: Global, of: &[u8], name: &[u8]) -> Result<Vec<u8>, NoMemory>
    ensures { IfOk result (λ it. it.items ≡ of.now ++ (codes "__" ++ name.now)) }
{
    let mut text = Vec::from_slice(alloc, of)?;
    append(&mut text, b"__")?;
    append(&mut text, name)?;
    Ok(text)
}
