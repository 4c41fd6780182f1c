// What a caller knows of any picker.
ghost use Rattle.std.specs.Prelude.{◌≡◌};
ghost use Rattle.picker.specs.Greedy.{PicksGreedily, share};

use crate::picker::Picker;

// Has the picker write its picks at the head of the list, and says how many are due.
pub fn pick_greedily<P: Picker>(picker: &mut P, shown: &[u32], q: usize, list: &mut [u32]) -> usize
    ensures count { result ≡ share q shown.now }
    ensures picks { PicksGreedily P.chooses picker.old picker.new shown.now q list.old list.new }
{
    ask(picker, shown, q, list);
    q.min(shown.len())
}

// The numbers and the list are lent by the step, as slices of u32, so they are no struct with the picker and q.
fn ask<P: Picker>(picker: &mut P, shown: &[u32], q: usize, list: &mut [u32])
    ensures { PicksGreedily P.chooses picker.old picker.new shown.now q list.old list.new }
{
    picker.pick(shown, q, list);
}
