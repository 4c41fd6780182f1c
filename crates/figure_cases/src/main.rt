// The outcome on each line of standard input: an operation's code, and then two ticks or the ends of two bands.
#![tactic(auto)]

ghost use Rattle.std.specs.Prelude.{◌++◌, Some, codes};
ghost use Rattle.std.specs.Fmt.{signed_decimal};
ghost use Rattle.figure.specs.Bands.{high_end, low_end};

use anyhow::{Context, anyhow};
use figure::{Bands, Figure, FigureFault, Ticks};
use formula::Operation;
use std::fmt;

fn answer(rt: &HostRuntime, line: &str) -> anyhow::Result<()> {
    let mut parts = line.split(' ');
    let code = parts.next().context("no code")?.parse::<u32>()?;
    let operation = Operation::try_from(code).ok().context("no operation")?;
    let ticks: Vec<Ticks> = parts
        .map(|part| -> anyhow::Result<Ticks> { Ok(Ticks(part.parse::<i32>()?)) })
        .try_collect(rt.alloc())?;
    match ticks.as_slice() {
        [left, right] => show(rt, Ticks::operate(operation, *left, *right)),
        [a, b, c, d] => {
            let left = Bands::between(*a, *b);
            let right = Bands::between(*c, *d);
            show(rt, Bands::operate(operation, left, right).map(BothEnds))
        }
        _ => Err(anyhow!("neither two ticks nor four ends")),
    }
}

// A band, shown by its two ends with a blank between.
#[derive(Clone, Copy)]
struct BothEnds(Bands);

impl fmt::Display for BothEnds {
    ghost output = { λ band. Some (signed_decimal (low_end band.0) ++ (codes " " ++ signed_decimal (high_end band.0))) };

    fn fmt<W: fmt::Write>(&self, f: &mut fmt::Formatter<W>) -> fmt::Result {
        let low = self.0.low();
        let high = self.0.high();
        write!(f, "{low} {high}")
    }
}

// The test programs share no code, also where they print alike: each is what a host writes.
fn show<F: fmt::Display + Drop>(
    rt: &HostRuntime,
    outcome: Result<F, FigureFault>,
) -> anyhow::Result<()> {
    match outcome {
        Ok(figure) => println!(rt; "{figure}")?,
        Err(fault) => println!(rt; "{fault}")?,
    }
    Ok(())
}

// The test programs share no code: each is what a host writes.
fn main(rt: HostRuntime) -> anyhow::Result<()> {
    for line in rt.lines(rt.alloc()) {
        answer(&rt, line?.as_str())?;
    }
    Ok(())
}
