// Ticks: signed 32-bit numbers.
ghost use Rattle.std.specs.Prelude.{◌≡◌, Some};
ghost use Rattle.std.specs.Fmt.{signed_decimal};
ghost use Rattle.figure.specs.Ticks.{ranged, tick, tick_outcome};

use crate::exact::exact;
use crate::fault::FigureFault;
use crate::figure::Figure;
use formula::Operation;
use std::fmt;

#[derive(Clone, Copy, PartialEq, Eq, Debug)]
pub struct Ticks(pub i32);

impl Figure for Ticks {
    const CODE: u32 = 1;

    ghost CODE = { 1 };

    ghost number = { tick };

    ghost outcome = { tick_outcome };

    fn number(n: i32) -> Ticks {
        Ticks(n)
    }

    fn operate(operation: Operation, left: Ticks, right: Ticks) -> Result<Ticks, FigureFault> {
        match operation {
            Operation::Div if right.0 == 0 => Err(FigureFault::ZeroDivisor),
            _ => Ticks::try_from(exact(operation, left, right)),
        }
    }
}

// Another range is to be a change of these two and of the definition `in_range` alone, so the test
// below is not `i32::try_from`.
const LEAST: i64 = -2_147_483_648;

const GREATEST: i64 = 2_147_483_647;

// An exact result as a tick, where it is in range.
impl TryFrom<i64> for Ticks {
    type Error = FigureFault;

    ghost try_from_gives = { λ exact outcome. outcome ≡ ranged exact };

    fn try_from(exact: i64) -> Result<Ticks, FigureFault> {
        if (LEAST..=GREATEST).contains(&exact) {
            Ok(Ticks(exact as i32))
        } else {
            Err(FigureFault::OutOfRange)
        }
    }
}

impl fmt::Display for Ticks {
    ghost output = { λ tick. Some (signed_decimal tick.0) };

    fn fmt<W: fmt::Write>(&self, f: &mut fmt::Formatter<W>) -> fmt::Result {
        write!(f, "{}", self.0)
    }
}
