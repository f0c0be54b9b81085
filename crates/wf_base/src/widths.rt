// The widths of numbers.

ghost use Rattle.std.specs.Prelude.{◌≡◌};
ghost use Rattle.wf_base.specs.BaseTable.{bits_of};

/// How many bits the numbers of a type have: `base.u8` to `base.u64`.
#[derive(Clone, Copy, PartialEq, Eq)]
pub enum Width {
    W8,
    W16,
    W32,
    W64,
}

impl Width {
    /// The number of bits: 8, 16, 32 or 64.
    pub fn bits(self) -> u32
        ensures { result ≡ bits_of self }
    {
        match self {
            Width::W8 => 8,
            Width::W16 => 16,
            Width::W32 => 32,
            Width::W64 => 64,
        }
    }
}
