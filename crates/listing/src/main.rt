// Lists a formula: each word with its shape and its binder count, and whether it is admitted.
#![tactic(auto)]

mod argument;
mod report;

use anyhow::anyhow;
use argument::input_count;
use report::{MOST_LINES, report};
use std::env;
use std::io::Read;

// Nine bytes a line, and one that shows that more lines follow: the report needs no more.
const MOST_BYTES: u64 = 9 * MOST_LINES as u64 + 1;

fn main(rt: HostRuntime) -> anyhow::Result<()> {
    let mut args = env::args(&rt)?.skip(1);
    let argument = args.next();
    let inputs = match (input_count(argument.as_deref()), args.next()) {
        (Some(inputs), None) => inputs,
        _ => return Err(anyhow!("usage: listing [INPUT-COUNT]")),
    };
    let mut text = Vec::new(rt.alloc());
    rt.stdin().take(MOST_BYTES).read_to_end(&mut text)?;
    rt.print(report(rt.alloc(), text.as_slice(), inputs)?)?;
    Ok(())
}

#[cfg(test)]
mod tests;
