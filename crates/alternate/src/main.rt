// Prints what the picker `Alternate`, and the library's `Turn`, pick of some shown numbers.
#![tactic(auto)]

ghost use Rattle.picker.specs.Greedy.{Picks};

mod second;

use picker::{Picker, Turn, pick_greedily};
use second::Alternate;
use std::io;

// Has the picker write into the list, and prints how many picks are due and the list afterwards.
fn show<P: Picker>(
    rt: &HostRuntime,
    picker: &mut P,
    shown: &[u32],
    q: usize,
    list: &mut [u32],
) -> io::Result<()>
    ensures { Picks P.chooses picker.old picker.new shown.now q list.old list.new }
{
    let due = pick_greedily(picker, shown, q, list);
    println!(rt; "q = {q}: {due} due, {list:?}")
}

fn show_alternate(rt: &HostRuntime) -> io::Result<()> {
    let shown = [2, 5, 7, 9, 12];
    for q in [1, 3, 4, 5, 6] {
        show(rt, &mut Alternate, &shown, q, &mut [90, 91, 92, 93, 94, 95])?;
    }
    show(rt, &mut Alternate, &shown, 64, &mut [90; 64])?;
    show(rt, &mut Alternate, &[3, 4, 8, 10], 3, &mut [90, 91, 92, 93])?;
    show(rt, &mut Alternate, &[6], 2, &mut [90, 91, 92])
}

// What it does where it is asked wrongly: no slots, too short a list, numbers that do not rise.
fn show_asked_wrongly(rt: &HostRuntime) -> io::Result<()> {
    let shown = [2, 5, 7, 9, 12];
    show(rt, &mut Alternate, &shown, 0, &mut [90, 91, 92])?;
    show(rt, &mut Alternate, &shown, 4, &mut [90, 91])?;
    show(rt, &mut Alternate, &[9, 2, 2, 7], 3, &mut [90, 91, 92, 93])
}

fn show_turn(rt: &HostRuntime) -> io::Result<()> {
    let mut turn = Turn::new();
    show(rt, &mut turn, &[2, 5, 7, 9], 3, &mut [90, 91, 92, 93])?;
    show(rt, &mut turn, &[2, 5, 8, 9], 3, &mut [90, 91, 92, 93])
}

fn main(rt: HostRuntime) -> io::Result<()> {
    show_alternate(&rt)?;
    show_asked_wrongly(&rt)?;
    show_turn(&rt)
}
