//! A plain program that finds the range of `x & y` and of `x | y` by trying every x and y. It takes a step for each pair,
//! so it is for small ranges: `Range::and` and `Range::or` are compared with it.

ghost use Rattle.std.specs.Prelude.{◌≡◌, ◌-◌, ◌≤◌};
ghost use Rattle.wf_num.specs.Extremes.{greatest, greatest_of, least, least_of};
ghost use Rattle.wf_num.specs.Ranges.{IsSmall, tight};
ghost use Rattle.wf_num.specs.Trials.{bitwise};

use crate::ranges::Range;
use crate::spans::Span;

/// The operations on bits whose range is the tight one.
#[derive(Clone, Copy, PartialEq, Eq)]
pub enum Bitwise {
    /// `x & y`.
    And,
    /// `x | y`.
    Or,
}

impl Bitwise {
    /// The operation's value.
    fn apply(self, x: u64, y: u64) -> u64
        ensures { result ≡ bitwise self x y }
    {
        match self {
            Bitwise::And => x & y,
            Bitwise::Or => x | y,
        }
    }

    /// From the least to the greatest value of the operation for x in `left` and y in `right`, found by trying all.
    pub fn range_by_trying(self, left: Range, right: Range) -> Range
        requires left { IsSmall left }
        requires right { IsSmall right }
        ensures { result ≡ tight (bitwise self) left right }
    {
        if left.is_empty() || right.is_empty() {
            return Range::EMPTY;
        }
        let xs = left.span();
        let ys = right.span();
        Range {
            lo: self.least(xs, ys) as i128,
            hi: self.greatest(xs, ys) as u128,
        }
    }

    /// The greatest value for the given x, and y of the span.
    fn greatest_in_row(self, x: u64, ys: Span) -> u64
        requires { ys.lo ≤ ys.hi }
        ensures { result ≡ greatest_of (bitwise self x) ys.lo (ys.hi - ys.lo) }
    {
        let mut top = self.apply(x, ys.lo);
        for i in 0..ys.hi - ys.lo {
            top = top.max(self.apply(x, ys.lo + i + 1));
        }
        top
    }

    /// The least value for the given x, and y of the span.
    fn least_in_row(self, x: u64, ys: Span) -> u64
        requires { ys.lo ≤ ys.hi }
        ensures { result ≡ least_of (bitwise self x) ys.lo (ys.hi - ys.lo) }
    {
        let mut bottom = self.apply(x, ys.lo);
        for i in 0..ys.hi - ys.lo {
            bottom = bottom.min(self.apply(x, ys.lo + i + 1));
        }
        bottom
    }

    /// The greatest value for x and y of the spans.
    fn greatest(self, xs: Span, ys: Span) -> u64
        requires xs { xs.lo ≤ xs.hi }
        requires ys { ys.lo ≤ ys.hi }
        ensures { result ≡ greatest (bitwise self) xs.lo xs.hi ys.lo ys.hi }
    {
        let mut top = self.greatest_in_row(xs.lo, ys);
        for i in 0..xs.hi - xs.lo {
            top = top.max(self.greatest_in_row(xs.lo + i + 1, ys));
        }
        top
    }

    /// The least value for x and y of the spans.
    fn least(self, xs: Span, ys: Span) -> u64
        requires xs { xs.lo ≤ xs.hi }
        requires ys { ys.lo ≤ ys.hi }
        ensures { result ≡ least (bitwise self) xs.lo xs.hi ys.lo ys.hi }
    {
        let mut bottom = self.least_in_row(xs.lo, ys);
        for i in 0..xs.hi - xs.lo {
            bottom = bottom.min(self.least_in_row(xs.lo + i + 1, ys));
        }
        bottom
    }
}
