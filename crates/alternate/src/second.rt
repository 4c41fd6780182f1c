// The picker `Alternate`: every second of the shown numbers first, then those that were passed over.
ghost use Rattle.std.specs.Prelude.{◌≡◌, min, length};
ghost use Rattle.alternate.specs.Meaning.{alternate};
ghost use Rattle.picker.specs.Greedy.{overlaid};
ghost use Rattle.alternate.specs.Alternation.{alternate_greedy};

use picker::Picker;

#[derive(Clone, Copy)]
pub struct Alternate;

// Writes the picks at the head of the list, as many as there are slots and places for.
// A loop of its own, since `write_first` of `picker` has a `requires` and so is not public; by index,
// since nothing is known of a slice after a loop over an adapter of its `iter_mut`.
fn write_alternate(shown: &[u32], q: usize, list: &mut [u32])
    ensures { list.new ≡ overlaid (alternate (min q (length list.old)) shown.now) list.old }
{
    let firsts = shown.iter().step_by(2);
    let passed_over = shown.iter().skip(1).step_by(2);
    for (place, number) in firsts
        .chain(passed_over)
        .take(q.min(list.len()))
        .enumerate()
    {
        list[place] = *number;
    }
}

impl Picker for Alternate {
    ghost chooses = { λ _ shown q picks _. picks ≡ alternate q shown };

    ghost greedy = { λ before shown q picks after asked chosen. alternate_greedy q shown picks asked.rising chosen };

    fn pick(&mut self, shown: &[u32], q: usize, list: &mut [u32])
        ensures { list.new ≡ overlaid (alternate (min q (length list.old)) shown.now) list.old }
    {
        write_alternate(shown, q, list);
    }
}
