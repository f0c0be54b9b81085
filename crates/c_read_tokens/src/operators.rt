// Which operators may repeat.

ghost use Rattle.std.specs.Prelude.{◌≡◌};
ghost use Rattle.c_text.specs.CGrammar.{repeats};

use c_text::COp;

/// Whether an operation may have more than two operands.
pub fn repeats(op: COp) -> bool
    ensures { result ≡ repeats op }
{
    match op {
        COp::Add | COp::Mul | COp::BitAnd | COp::BitOr | COp::BitXor | COp::Both | COp::Either =>
            true,
        _ => false,
    }
}
