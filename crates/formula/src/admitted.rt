// A formula: words whose type says that they were admitted.
ghost use Rattle.formula.specs.Admission.{Admitted};

use crate::word::Word;

#[derive(Clone, Copy)]
pub struct Formula<'a> {
    pub(crate) words: &'a [u32],
    pub(crate) inputs: u32,
    ghost admitted: { Admitted inputs words.now },
}

impl<'a> Formula<'a> {
    ghost use Rattle.std.specs.Prelude.{◌≡◌, [], ◌∷◌};
    ghost use Rattle.formula.specs.Formulas.{Holds, WordAt, inputs_of, words_of};

    // The number 7 with no inputs, which a host's formula holds before anything is admitted.
    #[tactic(auto, unfolding(crate::specs::Words::shape))]
    pub fn fresh() -> Formula<'a>
        ensures { Holds (7 ∷ []) 0 result }
    {
        Formula {
            words: &[7],
            inputs: 0,
        }
    }

    pub fn words(&self) -> &'a [u32]
        ensures value { result.now ≡ words_of self.now }
        ensures admitted { Admitted (inputs_of self.now) result.now }
    {
        self.words
    }

    pub fn inputs(&self) -> u32
        ensures { result ≡ inputs_of self.now }
    {
        self.inputs
    }

    // The word at a place, none past the root.
    pub fn word(&self, place: u32) -> Option<Word>
        ensures { WordAt self.now place result }
    {
        let word = self.words.get(place as usize)?;
        Word::try_from(*word).ok()
    }
}
