// The shapes of a 32-bit word.
ghost use Rattle.std.specs.Prelude.{◌≡◌, ◌^◌, ◌<◌, Some, Ok, Err};
ghost use Rattle.formula.specs.Words.{Decoded, bit_field, twos_complement};
ghost use Rattle.formula.specs.Spelling.{in_words, not_allowed_text};

use crate::operation::Operation;
use std::error::Error;
use std::fmt;

#[derive(Clone, Copy, PartialEq, Eq, Debug)]
pub enum Word {
    Number(i32),
    Variable(u32),
    Operation(Operation),
    Input(u32),
    Abstraction { body: u32 },
    Application { function: u32, argument: u32 },
}

// The error for a word that has no shape: a leaf with tell 3, or an operation above 5.
#[derive(Clone, Copy, PartialEq, Eq, Debug)]
pub struct NotAllowed;

impl TryFrom<u32> for Word {
    type Error = NotAllowed;

    ghost try_from_gives = { Decoded };

    #[tactic(auto, using(crate::proofs::Shapes::shape_decoded), unfolding(crate::specs::Words::shape))]
    fn try_from(word: u32) -> Result<Word, NotAllowed> {
        let index = bits(word, 0, 28);
        match (bits(word, 30, 2), bits(word, 28, 2)) {
            (0, _) => Ok(Word::Number(signed(bits(word, 0, 30)))),
            (1, 0) => Ok(Word::Variable(index)),
            (1, 1) => {
                let operation = Operation::try_from(index).map_err(|_| NotAllowed)?;
                Ok(Word::Operation(operation))
            }
            (1, 2) => Ok(Word::Input(index)),
            (1, _) => Err(NotAllowed),
            (2, _) => Ok(Word::Abstraction {
                body: bits(word, 0, 30),
            }),
            _ => Ok(Word::Application {
                function: bits(word, 15, 15),
                argument: bits(word, 0, 15),
            }),
        }
    }
}

// So many bits of a word, from bit `low` upwards.
fn bits(word: u32, low: u32, many: u32) -> u32
    requires low { low < 32 }
    requires many { many < 32 }
    ensures value { result ≡ bit_field word low many }
    ensures bound { result < 2 ^ many }
{
    (word >> low) & ((1 << many) - 1)
}

// Thirty bits in two's complement: a width for which the language has no type to convert from.
fn signed(bits: u32) -> i32
    requires { bits < 2 ^ 30 }
    ensures { result ≡ twos_complement bits }
{
    if bits < 0x2000_0000 {
        bits.cast_signed()
    } else {
        bits.cast_signed() - 0x4000_0000
    }
}

impl fmt::Display for Word {
    ghost output = { λ word. Some (in_words word) };

    fn fmt<W: fmt::Write>(&self, f: &mut fmt::Formatter<W>) -> fmt::Result {
        match self {
            Word::Number(n) => write!(f, "number {n}"),
            Word::Variable(index) => write!(f, "variable {index}"),
            Word::Operation(operation) => write!(f, "operation {operation}"),
            Word::Input(index) => write!(f, "input {index}"),
            Word::Abstraction { body } => write!(f, "abstraction of {body}"),
            Word::Application { function, argument } => {
                write!(f, "application of {function} to {argument}")
            }
        }
    }
}

impl fmt::Display for NotAllowed {
    ghost output = { λ _. Some not_allowed_text };

    fn fmt<W: fmt::Write>(&self, f: &mut fmt::Formatter<W>) -> fmt::Result {
        f.write_str("not allowed")
    }
}

impl Error for NotAllowed {}
