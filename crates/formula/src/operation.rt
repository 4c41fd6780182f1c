// The operations on two figures.
ghost use Rattle.std.specs.Prelude.{◌≡◌, Some};
ghost use Rattle.formula.specs.Operations.{code_of, decoded_operation, name_of, unknown_text};

use std::error::Error;
use std::fmt;

#[derive(Clone, Copy, PartialEq, Eq, Debug)]
pub enum Operation {
    Add,
    Sub,
    Mul,
    Div,
    Min,
    Max,
}

// A code that no operation has.
#[derive(Clone, Copy, PartialEq, Eq, Debug)]
pub struct UnknownOperation(pub u32);

impl TryFrom<u32> for Operation {
    type Error = UnknownOperation;

    ghost try_from_gives = { λ code result. result ≡ decoded_operation code };

    fn try_from(code: u32) -> Result<Operation, UnknownOperation> {
        match code {
            0 => Ok(Operation::Add),
            1 => Ok(Operation::Sub),
            2 => Ok(Operation::Mul),
            3 => Ok(Operation::Div),
            4 => Ok(Operation::Min),
            5 => Ok(Operation::Max),
            _ => Err(UnknownOperation(code)),
        }
    }
}

// By a match, which reads as the inverse of `try_from` above; for `as` each variant would need its
// code too, which is no plainer.
impl From<Operation> for u32 {
    ghost from_gives = { λ operation code. code ≡ code_of operation };

    fn from(operation: Operation) -> u32 {
        match operation {
            Operation::Add => 0,
            Operation::Sub => 1,
            Operation::Mul => 2,
            Operation::Div => 3,
            Operation::Min => 4,
            Operation::Max => 5,
        }
    }
}

impl fmt::Display for Operation {
    ghost output = { λ operation. Some (name_of operation) };

    fn fmt<W: fmt::Write>(&self, f: &mut fmt::Formatter<W>) -> fmt::Result {
        f.write_str(match self {
            Operation::Add => "add",
            Operation::Sub => "sub",
            Operation::Mul => "mul",
            Operation::Div => "div",
            Operation::Min => "min",
            Operation::Max => "max",
        })
    }
}

impl fmt::Display for UnknownOperation {
    ghost output = { λ unknown. Some (unknown_text unknown.0) };

    fn fmt<W: fmt::Write>(&self, f: &mut fmt::Formatter<W>) -> fmt::Result {
        write!(f, "no operation has the code {}", self.0)
    }
}

impl Error for UnknownOperation {}
