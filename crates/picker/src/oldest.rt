// Oldest: the threads with the lowest numbers, rising.
ghost use Rattle.std.specs.Prelude.{◌≡◌, min, length};
ghost use Rattle.picker.specs.Greedy.{overlaid};
ghost use Rattle.picker.specs.Orders.{FirstBy, Older, lowest};
ghost use Rattle.picker.specs.GreedyChoices.{lowest_greedy};

use crate::picker::Picker;
use crate::write::write_first;

#[derive(Clone, Copy)]
pub struct Oldest;

impl Picker for Oldest {
    ghost chooses = { λ _ shown q picks _. (picks ≡ lowest q shown) × FirstBy Older shown picks };

    ghost greedy = { λ before shown q picks after asked chosen. lowest_greedy q shown picks asked.rising chosen.0 };

    #[tactic(auto, using(crate::proofs::Sources::lowest_written))]
    fn pick(&mut self, shown: &[u32], q: usize, list: &mut [u32])
        ensures { list.new ≡ overlaid (lowest (min q (length list.old)) shown.now) list.old }
    {
        write_first(shown.iter(), q, list);
    }
}
