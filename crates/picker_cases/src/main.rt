// What a picker writes, for some examples, and then for each line of standard input: its name, q, the places of its list, and the numbers shown.
#![tactic(auto)]

mod examples;

use anyhow::{Context, anyhow};
use examples::{on_and_round, three_of_three, three_oldest, three_youngest};
use picker::{Oldest, Picker, Turn, Youngest, pick_greedily};

// A list of so many places that holds 1000, 1001 and so on.
fn list_of(rt: &HostRuntime, places: u32) -> anyhow::Result<Vec<u32>> {
    let list = (0..places)
        .map(|place| place.saturating_add(1000))
        .collect(rt.alloc())?;
    Ok(list)
}

fn tell(rt: &HostRuntime, list: &[u32]) -> anyhow::Result<()> {
    for number in list {
        print!(rt; " {number}")?;
    }
    println!(rt; "")?;
    Ok(())
}

// How many picks are due, and the list afterwards.
fn show<P: Picker>(
    rt: &HostRuntime,
    picker: &mut P,
    shown: &[u32],
    q: usize,
    list: &mut [u32],
) -> anyhow::Result<()> {
    let count = pick_greedily(picker, shown, q, list);
    print!(rt; "{count}:")?;
    tell(rt, list)
}

fn show_examples(rt: &HostRuntime) -> anyhow::Result<()> {
    print!(rt; "oldest:")?;
    tell(rt, &three_oldest())?;
    print!(rt; "youngest:")?;
    tell(rt, &three_youngest())?;
    print!(rt; "turn:")?;
    tell(rt, &on_and_round())?;
    print!(rt; "all, youngest:")?;
    tell(rt, &three_of_three(&mut Youngest))
}

fn number(part: &str) -> anyhow::Result<u32> {
    Ok(part.parse()?)
}

fn answer(rt: &HostRuntime, turn: &mut Turn, line: &str) -> anyhow::Result<()> {
    let mut parts = line.split(' ');
    let name = parts.next().context("no name")?;
    let q = parts.next().context("no q")?.parse::<usize>()?;
    let places = parts.next().context("no places")?.parse::<u32>()?;
    let shown = parts.map(number).try_collect::<Vec<u32>>(rt.alloc())?;
    let mut list = list_of(rt, places)?;
    // Each arm has a picker of its own type: a `dyn Picker` cannot be passed for the bound of `pick_greedily`.
    match name {
        "oldest" => show(rt, &mut Oldest, &shown, q, &mut list),
        "youngest" => show(rt, &mut Youngest, &shown, q, &mut list),
        "turn" => show(rt, turn, &shown, q, &mut list),
        "new" => {
            *turn = Turn::new();
            show(rt, turn, &shown, q, &mut list)
        }
        _ => Err(anyhow!("no such picker")),
    }
}

// The test programs share no code: each is what a host writes.
fn main(rt: HostRuntime) -> anyhow::Result<()> {
    show_examples(&rt)?;
    let mut turn = Turn::new();
    for line in rt.lines(rt.alloc()) {
        answer(&rt, &mut turn, line?.as_str())?;
    }
    Ok(())
}
