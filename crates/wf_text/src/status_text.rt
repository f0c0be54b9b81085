// Which kind a status is of, as the first byte of its text tells.

ghost use Rattle.std.specs.Prelude.{◌≡◌};
ghost use Rattle.wf_text.specs.StatusText.{category_of};

use crate::categories::Category;

/// The kind of the status with this text: `@` begins a note, `$` a suspension, `#` an error; the empty text
/// is that of ok, and a text that begins with any other byte counts as fine.
pub fn category(text: &[u8]) -> Category
    ensures { result ≡ category_of text.now }
{
    match text.first() {
        Some(b'@') => Category::Note,
        Some(b'$') => Category::Suspension,
        Some(b'#') => Category::Fault,
        _ => Category::Fine,
    }
}
