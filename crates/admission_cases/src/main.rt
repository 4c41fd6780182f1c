// Admits the table on each line of standard input: an input count, and then the words.
// The work table has a place more than there are words, and holds 9 in every place before.
#![tactic(auto)]

use anyhow::Context;
use formula::{Formula, admit};

fn answer(rt: &HostRuntime, line: &str) -> anyhow::Result<()> {
    let heap = rt.alloc();
    let mut parts = line.split(' ');
    let inputs = parts.next().context("no input count")?.parse::<u32>()?;
    let words = parts
        .map(|part| hexline::read(part.as_bytes()).context("no word"))
        .try_collect::<Vec<u32>>(heap)?;
    let mut work = vec![in heap; 9u32; words.len().saturating_add(1)]?;
    let mut formula = Formula::fresh();
    match admit(words.as_slice(), inputs, work.as_mut_slice(), &mut formula) {
        Ok(()) => println!(rt; "admitted {work:?}")?,
        Err(why) => println!(rt; "{why} {work:?}")?,
    }
    Ok(())
}

// The test programs share no code: each is what a host writes.
fn main(rt: HostRuntime) -> anyhow::Result<()> {
    for line in rt.lines(rt.alloc()) {
        answer(&rt, line?.as_str())?;
    }
    Ok(())
}
