// Youngest: the threads with the highest numbers, falling.
ghost use Rattle.std.specs.Prelude.{◌≡◌, min, length};
ghost use Rattle.picker.specs.Greedy.{overlaid};
ghost use Rattle.picker.specs.Orders.{FirstBy, Younger, highest};
ghost use Rattle.picker.specs.GreedyChoices.{highest_greedy};

use crate::picker::Picker;
use crate::write::write_first;

#[derive(Clone, Copy)]
pub struct Youngest;

impl Picker for Youngest {
    ghost chooses = { λ _ shown q picks _. (picks ≡ highest q shown) × FirstBy Younger shown picks };

    ghost greedy = { λ before shown q picks after asked chosen. highest_greedy q shown picks asked.rising chosen.0 };

    #[tactic(auto, using(crate::proofs::Sources::highest_written))]
    fn pick(&mut self, shown: &[u32], q: usize, list: &mut [u32])
        ensures { list.new ≡ overlaid (highest (min q (length list.old)) shown.now) list.old }
    {
        write_first(shown.iter().rev(), q, list);
    }
}
