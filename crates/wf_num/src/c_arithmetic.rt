//! The arithmetic of C (ISO/IEC 9899:1999, 6.5.5 to 6.5.7) on an implementation whose `int` and `unsigned int` have 32
//! bits and whose `unsigned long long` has 64, `int` in two's complement: each operation has one value, or is undefined.
//!
//! Operands and answers are the bits that carry a value. In the types of 32 bits these are the low 32: the others are
//! ignored in an operand, and 0 in an answer. So an int operand may come with its sign repeated above bit 31 or without.
//! Each call takes the type in which C computes, that is after the promotions and the usual conversions, and answers
//! None exactly where the behavior is undefined. No call takes memory.

ghost use Rattle.std.specs.Prelude.{◌≡◌, ◌+◌, ◌-◌, ◌*◌, ◌^◌, ◌<◌, ◌≤◌, ◌+ℤ◌, ◌-ℤ◌, ◌*ℤ◌, ◌≤ℤ◌, ◌<ℤ◌, pos, negsuc, int_div, int_rem, IfSome, IsNone, ◌↔◌, ◌⊎◌};
ghost use Rattle.std.specs.Int.{int_div_euclid};
ghost use Rattle.wf_num.specs.CArithmetic.{Carries, HasNoQuotient, Overflows, c_difference, c_product, c_quotient, c_remainder, c_result, c_shifted_left, c_shifted_right, c_sum, c_value, c_width};

/// The types in which C computes, once operands are promoted and converted (6.3.1.1, 6.3.1.8).
#[derive(Clone, Copy, PartialEq, Eq)]
pub enum CTy {
    /// `int`: 32 bits in two's complement.
    Int,
    /// `unsigned int`: 32 bits.
    U32,
    /// `unsigned long long`: 64 bits.
    U64,
}

impl CTy {
    /// How many bits the type has.
    pub(crate) fn width(self) -> u32
        ensures { result ≡ c_width self }
    {
        match self {
            CTy::Int | CTy::U32 => 32,
            CTy::U64 => 64,
        }
    }

    /// The whole number that `bits` stand for. In the types of 32 bits the low 32 count, and the others are ignored.
    fn value(self, bits: u64) -> i128
        ensures exact { result ≡ c_value self bits }
        ensures low { negsuc (2 ^ 31 - 1) ≤ℤ result }
        ensures high { result <ℤ pos (2 ^ 64) }
    {
        let low = bits % (1 << 32);
        match self {
            CTy::Int if low < 1 << 31 => low as i128,
            CTy::Int => low as i128 - (1 << 32),
            CTy::U32 => low as i128,
            CTy::U64 => bits as i128,
        }
    }

    /// The bits of an operation whose result as a whole number is `value`; None where that is undefined.
    fn carried(self, value: i128) -> Option<u64>
        ensures exact { result ≡ c_result self value }
        ensures undefined { IsNone result ↔ Overflows self value }
        ensures carries { IfSome result (Carries self value) }
    {
        match self {
            CTy::Int if value < -(1 << 31) || value >= 1 << 31 => None,
            CTy::Int | CTy::U32 => Some(value.rem_euclid(1 << 32) as u64),
            CTy::U64 => Some(value.rem_euclid(1 << 64) as u64),
        }
    }
}

/// `a + b` (6.5.6). None where `ty` is int and int can't hold the sum (6.5, 5); unsigned sums are taken modulo 2^N
/// (6.2.5, 9).
pub fn c_add(ty: CTy, a: u64, b: u64) -> Option<u64>
    ensures exact { result ≡ c_sum ty a b }
    ensures undefined { IsNone result ↔ Overflows ty (c_value ty a +ℤ c_value ty b) }
    ensures carries { IfSome result (Carries ty (c_value ty a +ℤ c_value ty b)) }
{
    ty.carried(ty.value(a) + ty.value(b))
}

/// `a - b` (6.5.6). None where `ty` is int and int can't hold the difference.
pub fn c_sub(ty: CTy, a: u64, b: u64) -> Option<u64>
    ensures exact { result ≡ c_difference ty a b }
    ensures undefined { IsNone result ↔ Overflows ty (c_value ty a -ℤ c_value ty b) }
    ensures carries { IfSome result (Carries ty (c_value ty a -ℤ c_value ty b)) }
{
    ty.carried(ty.value(a) - ty.value(b))
}

/// `a * b` (6.5.5). None where `ty` is int and int can't hold the product.
pub fn c_mul(ty: CTy, a: u64, b: u64) -> Option<u64>
    ensures exact { result ≡ c_product ty a b }
    ensures undefined { IsNone result ↔ Overflows ty (c_value ty a *ℤ c_value ty b) }
    ensures carries { IfSome result (Carries ty (c_value ty a *ℤ c_value ty b)) }
{
    match ty {
        CTy::U64 => Some(a.wrapping_mul(b)),
        CTy::Int | CTy::U32 => ty.carried(ty.value(a) * ty.value(b)),
    }
}

/// `a / b`, the fraction dropped (6.5.5, 6). None where `b` is 0 (6.5.5, 5), or the least int is divided by -1.
pub fn c_div(ty: CTy, a: u64, b: u64) -> Option<u64>
    ensures exact { result ≡ c_quotient ty a b }
    ensures undefined { IsNone result ↔ HasNoQuotient ty a b }
    ensures carries { IfSome result (Carries ty (int_div (c_value ty a) (c_value ty b))) }
{
    let divisor = ty.value(b);
    if divisor == 0 {
        return None;
    }
    ty.carried(ty.value(a) / divisor)
}

/// `a % b`, which is 0 or has the sign of `a` (6.5.5, 6). None where `a / b` is undefined.
pub fn c_rem(ty: CTy, a: u64, b: u64) -> Option<u64>
    ensures exact { result ≡ c_remainder ty a b }
    ensures undefined { IsNone result ↔ HasNoQuotient ty a b }
    ensures carries { IfSome result (Carries ty (int_rem (c_value ty a) (c_value ty b))) }
{
    c_div(ty, a, b)?;
    ty.carried(ty.value(a) % ty.value(b))
}

/// `a << b` (6.5.7). The two operands are promoted apart, so `b` is not of type `ty`: it is the value of the promoted
/// right operand as 64 bits, a negative one in two's complement and so above every width. None where `b` is not below
/// the width (6.5.7, 3), or `ty` is int and `a` is negative or int can't hold a times 2^b (6.5.7, 4).
pub fn c_shl(ty: CTy, a: u64, b: u64) -> Option<u64>
    ensures exact { result ≡ c_shifted_left ty a b }
    ensures undefined { IsNone result ↔
        ((c_width ty ≤ b) ⊎ ((c_value ty a <ℤ pos 0) ⊎ Overflows ty (c_value ty a *ℤ pos (2 ^ b)))) }
    ensures carries { IfSome result (Carries ty (c_value ty a *ℤ pos (2 ^ b))) }
{
    let value = ty.value(a);
    if b >= ty.width() as u64 || value < 0 {
        return None;
    }
    ty.carried(value << b)
}

/// `a >> b` (6.5.7), `b` as for `c_shl`: the quotient by 2^b, rounded down. For a negative `a` the standard leaves the
/// value to the implementation, and the assumed one rounds down too. None where `b` is not below the width (6.5.7, 3).
pub fn c_shr(ty: CTy, a: u64, b: u64) -> Option<u64>
    ensures exact { result ≡ c_shifted_right ty a b }
    ensures undefined { IsNone result ↔ (c_width ty ≤ b) }
    ensures carries { IfSome result (Carries ty (int_div_euclid (c_value ty a) (pos (2 ^ b)))) }
{
    if b >= ty.width() as u64 {
        return None;
    }
    ty.carried(ty.value(a) >> b)
}
