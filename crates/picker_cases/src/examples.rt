// Worked examples, proved of the rules.
ghost use Rattle.std.specs.Prelude.{◌≡◌, [], ◌∷◌};
ghost use Rattle.picker.specs.Greedy.{AllPicked};

use picker::{Oldest, Picker, Turn, Youngest, pick_greedily};

// Two functions, since the picks that each is proved to write are what the examples are for.
pub(crate) fn three_oldest() -> [u32; 4]
    ensures { result ≡ 2 ∷ 5 ∷ 7 ∷ 0 ∷ [] }
{
    let mut list = [0; 4];
    Oldest.pick(&[2, 5, 7, 9], 3, &mut list);
    list
}

pub(crate) fn three_youngest() -> [u32; 4]
    ensures { result ≡ 9 ∷ 7 ∷ 5 ∷ 0 ∷ [] }
{
    let mut list = [0; 4];
    Youngest.pick(&[2, 5, 7, 9], 3, &mut list);
    list
}

// After 2, 5 and 7 it goes on above 7, which is gone, and comes round to the lowest.
pub(crate) fn on_and_round() -> [u32; 4]
    ensures { result ≡ 8 ∷ 9 ∷ 2 ∷ 0 ∷ [] }
{
    let mut turn = Turn::new();
    let mut list = [0; 4];
    turn.pick(&[2, 5, 7, 9], 3, &mut list);
    turn.pick(&[2, 5, 8, 9], 3, &mut list);
    list
}

// With three slots for three threads, every picker picks them all.
pub(crate) fn three_of_three<P: Picker>(picker: &mut P) -> [u32; 3]
    ensures { AllPicked (2 ∷ 5 ∷ 7 ∷ []) result }
{
    let mut list = [0; 3];
    pick_greedily(picker, &[2, 5, 7], 3, &mut list);
    list
}
