// Residues, a kind of figure of its own, beside ticks and bands.
#![tactic(auto)]

mod average;
mod laws;
mod residue;

use average::average;
use figure::{Bands, Figure, FigureFault, Ticks};
use formula::Operation;
use laws::back_again;
use residue::Residues;
use std::{fmt, io};

// The test programs share no code, also where they print alike: each is what a host writes.
fn tell<F: fmt::Display + Drop>(
    rt: &impl Print,
    outcome: Result<F, FigureFault>,
) -> io::Result<()> {
    match outcome {
        Ok(figure) => println!(rt; "{figure}"),
        Err(fault) => println!(rt; "{fault}"),
    }
}

fn numbers(rt: &impl Print) -> io::Result<()> {
    for n in [0, 6, 7, 20, -1, -7, -20, i32::MIN] {
        let residue = Residues::number(n);
        println!(rt; "number {n}: {residue}")?;
    }
    Ok(())
}

fn operations(rt: &impl Print, a: i32, b: i32) -> io::Result<()> {
    let left = Residues::number(a);
    let right = Residues::number(b);
    let all = [
        Operation::Add,
        Operation::Sub,
        Operation::Mul,
        Operation::Div,
        Operation::Min,
        Operation::Max,
    ];
    for operation in all {
        print!(rt; "{a} {operation} {b}: ")?;
        tell(rt, Residues::operate(operation, left, right))?;
    }
    print!(rt; "{a} mul {b} div {b}: ")?;
    tell(rt, back_again(left, right))
}

fn tell_average<F: Figure + fmt::Display>(rt: &impl Print, a: F, b: F) -> io::Result<()> {
    let kind = F::CODE;
    print!(rt; "average of kind {kind}: ")?;
    tell(rt, average(a, b))
}

fn averages(rt: &impl Print) -> io::Result<()> {
    for (a, b) in [(3, 8), (-3, -4), (i32::MAX, 1)] {
        tell_average(rt, Ticks(a), Ticks(b))?;
    }
    let first = Bands::between(Ticks(3), Ticks(-2));
    let second = Bands::between(Ticks(1), Ticks(4));
    tell_average(rt, first, second)?;
    tell_average(rt, Residues::number(3), Residues::number(6))
}

fn main(rt: HostRuntime) -> io::Result<()> {
    numbers(&rt)?;
    operations(&rt, 2, 5)?;
    operations(&rt, 4, 0)?;
    averages(&rt)
}
