// Turn: the threads above the one it picked last, rising, and then round to the lowest.
ghost use Rattle.std.specs.Prelude.{◌≡◌, ◌≤◌, min, length, None};
ghost use Rattle.std.specs.List.{prefix_len};
ghost use Rattle.picker.specs.Greedy.{overlaid};
ghost use Rattle.picker.specs.Orders.{FirstBy, Sooner, behind, had_turn, in_turn, last_pick};
ghost use Rattle.picker.specs.GreedyChoices.{in_turn_greedy};

use crate::picker::Picker;
use crate::write::write_both;

// It has no `Model`: a host's `Copy` struct that held one with a model could not be passed by value and used again.
#[derive(Clone, Copy)]
pub struct Turn {
    last: Option<u32>,
}

impl Turn {
    // It begins at the lowest.
    pub fn new() -> Turn
        ensures { result.last ≡ None }
    {
        Turn { last: None }
    }

    // How many of the numbers shown had their turn.
    fn passed(&self, shown: &[u32]) -> usize
        ensures count { result ≡ behind self.now.last shown.now }
        ensures within { result ≤ length shown.now }
    {
        self.last.map_or(0, |last| up_to(last, shown))
    }
}

// How many numbers stand at the head that had their turn.
fn up_to(last: u32, numbers: &[u32]) -> usize
    ensures count { result ≡ prefix_len (had_turn last) numbers.now }
    ensures within { result ≤ length numbers.now }
{
    numbers.iter().take_while(|number| **number <= last).count()
}

impl Picker for Turn {
    ghost chooses = { λ before shown q picks after. (picks ≡ in_turn before.last q shown) × FirstBy (Sooner before.last) shown picks × (after.last ≡ last_pick before.last picks) };

    ghost greedy = { λ before shown q picks after asked chosen. in_turn_greedy before.last q shown picks asked.rising chosen.0 };

    #[tactic(auto, using(crate::proofs::Sources::in_turn_written, crate::proofs::Sources::in_turn_told))]
    fn pick(&mut self, shown: &[u32], q: usize, list: &mut [u32])
        ensures written { list.new ≡ overlaid (in_turn self.old.last (min q (length list.old)) shown.now) list.old }
        ensures left { self.new.last ≡ last_pick self.old.last (in_turn self.old.last (min q (length list.old)) shown.now) }
    {
        let (passed, ahead) = shown.split_at(self.passed(shown));
        let last = write_both(ahead, passed, q, list);
        self.last = last.or(self.last);
    }
}
