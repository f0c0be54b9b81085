// The names of a C text, which are put into its unit: each begins with a word of its own, and keeps the source's name.

ghost use Rattle.std.specs.Prelude.{IfOk, ◌++◌, decimal};
ghost use Rattle.c_text.specs.CGrammar.{IsName};
ghost use Rattle.wf_exprs.specs.Grown.{Grows, HasNamed};

use c_text::{CNameId, Unit};
use wf_text::{NoMemory, number_text};

/// The number of a name, which is added where the unit doesn't have it yet.
pub fn put_name(u: &mut Unit, name: &[u8]) -> Result<CNameId, NoMemory>
    requires { IsName name.now }
    ensures grows { Grows u.old u.new }
    ensures made { IfOk result (λ n. HasNamed u.new n.0 name.now) }
{
    put_words(u, b"", b"", b"", name)
}

/// The number of the name that is these words, one after the other; a word may be empty.
#[inline(always)]
pub fn put_words(
    u: &mut Unit,
    first: &[u8],
    second: &[u8],
    third: &[u8],
    fourth: &[u8],
) -> Result<CNameId, NoMemory>
    requires { IsName (first.now ++ (second.now ++ (third.now ++ fourth.now))) }
    ensures grows { Grows u.old u.new }
    ensures made { IfOk result (λ n. HasNamed u.new n.0 (first.now ++ (second.now ++ (third.now ++ fourth.now)))) }
{
    u.is_sound();
    u.add_words(first, second, third, fourth)
}

/// The number of the name that is spelt so, its end after its beginning.
pub fn put_spelt(u: &mut Unit, begin: &[u8], end: &[u8]) -> Result<CNameId, NoMemory>
    requires { IsName (begin.now ++ end.now) }
    ensures grows { Grows u.old u.new }
    ensures made { IfOk result (λ n. HasNamed u.new n.0 (begin.now ++ end.now)) }
{
    put_words(u, b"", b"", begin, end)
}

/// The number of the name that ends with a number in decimal digits.
pub fn put_numbered(u: &mut Unit, begin: &[u8], number: u64) -> Result<CNameId, NoMemory>
    requires { IsName (begin.now ++ decimal number) }
    ensures grows { Grows u.old u.new }
    ensures made { IfOk result (λ n. HasNamed u.new n.0 (begin.now ++ decimal number)) }
{
    let mut digits = [0; 20];
    let count = number_text(number, &mut digits);
    put_spelt(u, begin, &digits[..count])
}
