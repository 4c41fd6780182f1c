// Exact results: the operations on ticks, wide enough that none is lost.
ghost use Rattle.std.specs.Prelude.{◌≡◌, false, ◌&&◌};
ghost use Rattle.figure.specs.Exact.{divides, exact, quotient};
ghost use Rattle.figure.specs.Ticks.{is_zero};

use crate::tick::Ticks;
use formula::Operation;

pub(crate) fn exact(operation: Operation, a: Ticks, b: Ticks) -> i64
    requires { (divides operation && is_zero b) ≡ false }
    ensures { result ≡ exact operation a.0 b.0 }
{
    let left = i64::from(a.0);
    let right = i64::from(b.0);
    match operation {
        Operation::Add => left + right,
        Operation::Sub => left - right,
        Operation::Mul => left * right,
        Operation::Div => quotient(a, b),
        Operation::Min => left.min(right),
        Operation::Max => left.max(right),
    }
}

// Rounded towards zero.
fn quotient(a: Ticks, b: Ticks) -> i64
    requires { is_zero b ≡ false }
    ensures { result ≡ quotient a.0 b.0 }
{
    i64::from(a.0) / i64::from(b.0)
}
