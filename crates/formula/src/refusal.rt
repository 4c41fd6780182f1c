// Why a table of words is not admitted.
ghost use Rattle.std.specs.Prelude.{◌≡◌, Some};
ghost use Rattle.formula.specs.Refusals.{number_of, place_of, refusal_text};

use std::error::Error;
use std::fmt;

#[derive(Clone, Copy, PartialEq, Eq, Debug)]
pub enum Refusal {
    // No words, or more than 32,768.
    WordCount,
    // The work table has fewer places than there are words.
    ShortTable,
    // A leaf with the tell that is not allowed, or an operation above 5.
    BadLeaf(u32),
    // A named place that is not below the word's own.
    PlaceNotBelow(u32),
    // An input index that is not below the input count.
    NoSuchInput(u32),
    // The root's binder count is not 0.
    NotClosed(u32),
}

impl Refusal {
    // A method and no conversion, since a refusal has two numbers.
    pub fn number(self) -> u32
        ensures { result ≡ number_of self }
    {
        match self {
            Refusal::WordCount => 1,
            Refusal::ShortTable => 2,
            Refusal::BadLeaf(_) => 3,
            Refusal::PlaceNotBelow(_) => 4,
            Refusal::NoSuchInput(_) => 5,
            Refusal::NotClosed(_) => 6,
        }
    }

    // The place of the word that is refused, 0 for a refused size.
    pub fn place(self) -> u32
        ensures { result ≡ place_of self }
    {
        match self {
            Refusal::WordCount | Refusal::ShortTable => 0,
            Refusal::BadLeaf(place)
            | Refusal::PlaceNotBelow(place)
            | Refusal::NoSuchInput(place)
            | Refusal::NotClosed(place) => place,
        }
    }
}

impl fmt::Display for Refusal {
    ghost output = { λ refusal. Some (refusal_text refusal) };

    fn fmt<W: fmt::Write>(&self, f: &mut fmt::Formatter<W>) -> fmt::Result {
        write!(f, "refused {} {}", self.number(), self.place())
    }
}

impl Error for Refusal {}
