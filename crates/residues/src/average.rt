// The middle of two figures of any kind.
ghost use Rattle.std.specs.Prelude.{◌≡◌};
ghost use Rattle.residues.specs.Averages.{average_of};

use figure::{Figure, FigureFault};
use formula::Operation;

// (a + b) div 2, where both steps have a figure.
pub(crate) fn average<F: Figure>(a: F, b: F) -> Result<F, FigureFault>
    ensures { result ≡ average_of F.number F.outcome a b }
{
    let sum = F::operate(Operation::Add, a, b)?;
    F::operate(Operation::Div, sum, F::number(2))
}
