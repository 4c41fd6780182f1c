// One line: eight lowercase hexadecimal digits, the most significant first.
ghost use Rattle.std.specs.Prelude.{◌≡◌, ◌+◌, ◌*◌, ◌^◌, ◌<◌, option_map};
ghost use Rattle.hexline.specs.Hex.{digit_at, digit_value, line_of, word_of};

use std::array;

const LENGTH: usize = 8;

// The value of a digit; `to_digit` takes capitals too.
fn digit(byte: u8) -> Option<u32>
    ensures { result ≡ digit_value byte }
{
    match byte {
        b'0'..=b'9' => Some(u32::from(byte - b'0')),
        b'a'..=b'f' => Some(u32::from(byte - b'a') + 10),
        _ => None,
    }
}

// The number with one digit more.
fn with_digit(number: u32, byte: u8) -> Option<u32>
    requires { number < 2 ^ 28 }
    ensures { result ≡ option_map (λ d. 16 * number + d) (digit_value byte) }
{
    Some(16 * number + digit(byte)?)
}

// The word that a line of exactly eight digits spells.
// `u32::from_str_radix` takes capitals, a plus sign and fewer digits too.
#[tactic(auto, using(crate::proofs::Digits::room))]
pub fn read(line: &[u8]) -> Option<u32>
    ensures { result ≡ word_of line.now }
{
    if line.len() != LENGTH {
        return None;
    }
    let mut word = 0;
    for byte in line {
        word = with_digit(word, *byte)?;
    }
    Some(word)
}

// The digit of the four bits of `word` that start at `bit`. It ends in `as`, since `u8::try_from` of
// a `char` would need a second `unwrap`.
fn digit_at(word: u32, bit: u32) -> u8
    requires { bit < 32 }
    ensures { result ≡ digit_at word bit }
{
    char::from_digit((word >> bit) % 16, 16).unwrap() as u8
}

// The digits of a word, the highest first. `{:08x}` gives text and not eight bytes, and is no shorter.
fn digits(word: u32) -> [u8; 8]
    ensures { result ≡ line_of word }
{
    array::from_fn(|place| digit_at(word, 28 - 4 * place as u32))
}

// The line of a word, which `read` gives back.
#[tactic(auto, using(crate::proofs::Digits::word_back))]
pub fn write(word: u32) -> [u8; 8]
    ensures value { result ≡ line_of word }
    ensures reads_back { word_of result ≡ Some word }
{
    digits(word)
}
