// Why an operation on two figures gives no figure.
ghost use Rattle.std.specs.Prelude.{◌≡◌, Some};
ghost use Rattle.figure.specs.Faults.{fault_number, fault_text};

use std::error::Error;
use std::fmt;

#[derive(Clone, Copy, PartialEq, Eq, Debug)]
pub enum FigureFault {
    // The kind has no figure for the result.
    OutOfRange,
    // A division by zero, or by a figure that may be zero.
    ZeroDivisor,
}

impl FigureFault {
    // A method and no `From`: `fault.number()` names what it gives, and `u32::from(fault)` is no plainer.
    pub fn number(self) -> u32
        ensures { result ≡ fault_number self }
    {
        match self {
            FigureFault::OutOfRange => 3,
            FigureFault::ZeroDivisor => 4,
        }
    }
}

impl fmt::Display for FigureFault {
    ghost output = { λ fault. Some (fault_text fault) };

    fn fmt<W: fmt::Write>(&self, f: &mut fmt::Formatter<W>) -> fmt::Result {
        let number = self.number();
        write!(f, "fault {number}")
    }
}

impl Error for FigureFault {}
