// A kind of figure.
ghost use Rattle.std.specs.Prelude.{◌≡◌, ℕ, ℤ, Result};
ghost use Rattle.formula.specs.declared.Operation.{Operation};
ghost use Rattle.figure.specs.declared.fault.FigureFault.{FigureFault};

use crate::fault::FigureFault;
use formula::Operation;

// The ghost members are what the kind means. Generic code is proved against them alone.
pub trait Figure: Copy {
    // The kind's own number.
    const CODE: u32;

    // That number, as contracts see it.
    ghost CODE: { ℕ };

    // The figure of a number.
    ghost number: { ℤ → Self };

    // What an operation gives on two figures.
    ghost outcome: { Operation → Self → Self → Result Self FigureFault };

    // No `From<i32>`: what that gives is a relation, and meanings are made of a function.
    fn number(n: i32) -> Self
        ensures { result ≡ number n };

    fn operate(operation: Operation, left: Self, right: Self) -> Result<Self, FigureFault>
        ensures { result ≡ outcome operation left right };
}
