// Ticks that count the operations that went into them: a kind of figure, and a program that prints some outcomes.
#![tactic(auto)]

ghost use Rattle.counted.specs.Meaning.{count_after, counted_number, counted_outcome, counted_text, squared};
ghost use Rattle.formula.specs.declared.Operation.TheVariants.{Add};
ghost use Rattle.std.specs.Prelude.{◌≡◌, Some};

use figure::{Figure, FigureFault, Ticks};
use formula::Operation;
use std::{fmt, io};

#[derive(Clone, Copy, PartialEq, Eq, Debug)]
pub struct Counted {
    pub tick: Ticks,
    pub count: u32,
}

fn count_after(m: u32, n: u32) -> u32
    ensures { result ≡ count_after m n }
{
    m.saturating_add(n).saturating_add(1)
}

impl Figure for Counted {
    const CODE: u32 = 100;

    ghost CODE = { 100 };

    ghost number = { counted_number };

    ghost outcome = { counted_outcome };

    fn number(n: i32) -> Self {
        let tick = Ticks::number(n);
        Counted { tick, count: 0 }
    }

    fn operate(operation: Operation, left: Self, right: Self) -> Result<Self, FigureFault> {
        let tick = Ticks::operate(operation, left.tick, right.tick)?;
        let count = count_after(left.count, right.count);
        Ok(Counted { tick, count })
    }
}

impl fmt::Display for Counted {
    ghost output = { λ counted. Some (counted_text counted) };

    fn fmt<W: fmt::Write>(&self, f: &mut fmt::Formatter<W>) -> fmt::Result {
        let Counted { tick, count } = self;
        write!(f, "{tick} by {count}")
    }
}

// (a add b) mul (a add b)
fn square_of_sum(a: Counted, b: Counted) -> Result<Counted, FigureFault>
    ensures { result ≡ squared (counted_outcome Add a b) }
{
    let sum = Counted::operate(Operation::Add, a, b)?;
    Counted::operate(Operation::Mul, sum, sum)
}

// The test programs share no code, also where they print alike: each is what a host writes.
fn show(rt: &impl Print, outcome: Result<Counted, FigureFault>) -> io::Result<()> {
    match outcome {
        Ok(counted) => println!(rt; "{counted}"),
        Err(fault) => println!(rt; "{fault}"),
    }
}

fn main(rt: HostRuntime) -> io::Result<()> {
    let zero = Counted::number(0);
    let two = Counted::number(2);
    let seven = Counted::number(7);
    let (tick, count) = (Ticks(i32::MAX), u32::MAX);
    let greatest = Counted { tick, count };
    show(&rt, Ok(seven))?;
    show(&rt, Counted::operate(Operation::Div, seven, two))?;
    show(&rt, square_of_sum(seven, two))?;
    show(&rt, Counted::operate(Operation::Sub, greatest, two))?;
    show(&rt, Counted::operate(Operation::Div, seven, zero))?;
    show(&rt, Counted::operate(Operation::Add, greatest, two))
}
