// Bands: two ticks, the low end never above the high end.
ghost use Rattle.std.specs.Prelude.{◌≡◌, ◌≤ℤ◌, Some};

use crate::ends::{BandOperation, Ends};
use crate::fault::FigureFault;
use crate::figure::Figure;
use crate::tick::Ticks;
use formula::Operation;
use std::fmt;

#[derive(Clone, Copy, PartialEq, Eq, Debug)]
pub struct Bands {
    pub(crate) low: Ticks,
    pub(crate) high: Ticks,
    ghost ordered: { low.0 ≤ℤ high.0 },
}

impl Bands {
    ghost use Rattle.figure.specs.Bands.{band, high_end, holds_zero, low_end, ranged_ends};
    ghost use Rattle.figure.specs.Ticks.{tick};

    // The band of two ticks, the smaller as its low end.
    pub fn between(a: Ticks, b: Ticks) -> Bands
        ensures { result ≡ band a.0 b.0 }
    {
        Bands {
            low: Ticks(a.0.min(b.0)),
            high: Ticks(a.0.max(b.0)),
        }
    }

    pub fn low(self) -> Ticks
        ensures { result ≡ tick (low_end self) }
    {
        self.low
    }

    pub fn high(self) -> Ticks
        ensures { result ≡ tick (high_end self) }
    {
        self.high
    }

    fn holds_zero(self) -> bool
        ensures { result ≡ holds_zero self }
    {
        (self.low.0..=self.high.0).contains(&0)
    }

    // Two ends as a band, where both are in range. `TryFrom` has no `requires`, and would have to sort them.
    fn from_ends(ends: Ends) -> Result<Bands, FigureFault>
        requires { ends.low ≤ℤ ends.high }
        ensures { result ≡ ranged_ends ends }
    {
        let low = Ticks::try_from(ends.low)?;
        let high = Ticks::try_from(ends.high)?;
        Ok(Bands::in_order(low, high))
    }

    // Two ticks that are in order; which is named first makes no difference.
    fn in_order(low: Ticks, high: Ticks) -> Bands
        requires { low.0 ≤ℤ high.0 }
        ensures band { result ≡ band low.0 high.0 }
        ensures either { result ≡ band high.0 low.0 }
    {
        Bands { low, high }
    }
}

impl Figure for Bands {
    ghost use Rattle.figure.specs.Bands.{band_outcome, point};

    const CODE: u32 = 2;

    ghost CODE = { 2 };

    ghost number = { point };

    ghost outcome = { band_outcome };

    fn number(n: i32) -> Bands {
        Bands::between(Ticks(n), Ticks(n))
    }

    fn operate(operation: Operation, left: Bands, right: Bands) -> Result<Bands, FigureFault> {
        match operation {
            Operation::Div if right.holds_zero() => Err(FigureFault::ZeroDivisor),
            _ => {
                let divisible = BandOperation {
                    operation,
                    left,
                    right,
                };
                Bands::from_ends(divisible.ends())
            }
        }
    }
}

impl fmt::Display for Bands {
    ghost use Rattle.figure.specs.Bands.{band_text};

    ghost output = { λ band. Some (band_text band) };

    fn fmt<W: fmt::Write>(&self, f: &mut fmt::Formatter<W>) -> fmt::Result {
        let low = self.low;
        let high = self.high;
        write!(f, "{low} to {high}")
    }
}
