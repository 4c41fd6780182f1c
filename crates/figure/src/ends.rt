// The two ends of a result, before the test of the range.
ghost use Rattle.std.specs.Prelude.{◌≡◌, false, ◌&&◌, ◌≤ℤ◌};
ghost use Rattle.figure.specs.Bands.{around, corners, crossed, end_by_end, ends_of, high_end, joined, low_end, zero_end};
ghost use Rattle.figure.specs.Exact.{divides, exact};

use crate::band::Bands;
use crate::exact::exact;
use crate::tick::Ticks;
use formula::Operation;

// The order of the ends is no ghost field: `end_by_end` and `crossed` give it for their own operations only.
#[derive(Clone, Copy)]
pub(crate) struct Ends {
    pub(crate) low: i64,
    pub(crate) high: i64,
}

impl Ends {
    // Two results, the smaller as the low end.
    fn around(a: i64, b: i64) -> Ends
        ensures { result ≡ around a b }
    {
        Ends {
            low: a.min(b),
            high: a.max(b),
        }
    }

    // The lower of the low ends and the higher of the high ends.
    fn join(self, other: Ends) -> Ends
        ensures { result ≡ joined self other }
    {
        Ends {
            low: self.low.min(other.low),
            high: self.high.max(other.high),
        }
    }
}

// An operation on two bands that divides by zero at no end.
#[derive(Clone, Copy)]
pub(crate) struct BandOperation {
    pub(crate) operation: Operation,
    pub(crate) left: Bands,
    pub(crate) right: Bands,
    ghost divisible: { (divides operation && zero_end right) ≡ false },
}

impl BandOperation {
    pub(crate) fn ends(self) -> Ends
        ensures ends { result ≡ ends_of self.operation self.left self.right }
        ensures ordered { result.low ≤ℤ result.high }
    {
        match self.operation {
            Operation::Add | Operation::Min | Operation::Max => self.end_by_end(),
            Operation::Sub => self.crossed(),
            Operation::Mul | Operation::Div => self.corners(),
        }
    }

    // At the two low ends, and at the two high ends.
    fn end_by_end(self) -> Ends
        ensures { result ≡ end_by_end self.operation self.left self.right }
    {
        Ends {
            low: exact(self.operation, self.left.low, self.right.low),
            high: exact(self.operation, self.left.high, self.right.high),
        }
    }

    // At each end of the first with the other of the second. One function for this and `end_by_end` would be given ends and no longer know that none is zero.
    fn crossed(self) -> Ends
        ensures { result ≡ crossed self.operation self.left self.right }
    {
        Ends {
            low: exact(self.operation, self.left.low, self.right.high),
            high: exact(self.operation, self.left.high, self.right.low),
        }
    }

    fn corners(self) -> Ends
        ensures { result ≡ corners self.operation self.left self.right }
    {
        self.at_both_ends(self.left.low)
            .join(self.at_both_ends(self.left.high))
    }

    fn at_both_ends(self, a: Ticks) -> Ends
        ensures { result ≡ around (exact self.operation a.0 (low_end self.right)) (exact self.operation a.0 (high_end self.right)) }
    {
        Ends::around(
            exact(self.operation, a, self.right.low),
            exact(self.operation, a, self.right.high),
        )
    }
}
