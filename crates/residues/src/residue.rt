// Numbers modulo 7, and what they are as figures.
ghost use Rattle.std.specs.Prelude.{◌≡◌, ◌<◌, Some, decimal};

use figure::{Figure, FigureFault};
use formula::Operation;
use std::fmt;

#[derive(Clone, Copy, PartialEq, Eq, Debug)]
pub struct Residues {
    value: u32,
    ghost below: { value < 7 },
}

impl From<u32> for Residues {
    ghost use Rattle.residues.specs.Residues.{residue};

    ghost from_gives = { λ n result. result ≡ residue n };

    fn from(n: u32) -> Residues {
        Residues { value: n % 7 }
    }
}

impl Residues {
    ghost use Rattle.residues.specs.Residues.{inverse_of};

    // The value's inverse modulo 7, which zero has not.
    fn inverse(self) -> u32
        ensures value { result ≡ inverse_of self.value }
        ensures below { result < 7 }
    {
        match self.value {
            1 => 1,
            2 => 4,
            3 => 5,
            4 => 2,
            5 => 3,
            6 => 6,
            _ => 0,
        }
    }
}

impl Figure for Residues {
    ghost use Rattle.residues.specs.Residues.{residue_number, residue_outcome};

    const CODE: u32 = 7;

    ghost CODE = { 7 };

    ghost number = { residue_number };

    ghost outcome = { residue_outcome };

    fn number(n: i32) -> Residues {
        Residues::from(n.rem_euclid(7).unsigned_abs())
    }

    fn operate(
        operation: Operation,
        left: Residues,
        right: Residues,
    ) -> Result<Residues, FigureFault> {
        let a = left.value;
        let b = right.value;
        let n = match operation {
            Operation::Add => a + b,
            Operation::Sub => a + (7 - b),
            Operation::Mul => a * b,
            Operation::Div if b == 0 => return Err(FigureFault::ZeroDivisor),
            Operation::Div => a * right.inverse(),
            Operation::Min => a.min(b),
            Operation::Max => a.max(b),
        };
        Ok(Residues::from(n))
    }
}

impl fmt::Display for Residues {
    ghost output = { λ residue. Some (decimal residue.value) };

    fn fmt<W: fmt::Write>(&self, f: &mut fmt::Formatter<W>) -> fmt::Result {
        write!(f, "{}", self.value)
    }
}
