// A picker: it says which of the active threads get the slots.
ghost use Rattle.std.specs.Prelude.{ℕ, List};
ghost use Rattle.picker.specs.Greedy.{Asked, Choice, Greedy, Picks};

pub trait Picker {
    // What it chooses. Code above pickers speaks of the picks through this member alone.
    ghost chooses: { Choice Self };

    // Writes its picks at the head of the list. The step lends the numbers and the list, so both are slices of u32 and not a type of the picker's.
    fn pick(&mut self, shown: &[u32], q: usize, list: &mut [u32])
        ensures { Picks chooses self.old self.new shown.now q list.old list.new };

    ghost greedy: { (before : Self) (shown : List ℕ) (q : ℕ) (picks : List ℕ) (after : Self) → Asked q shown → chooses before shown q picks after → Greedy q shown picks };
}
