// Admission: a table of words is checked from place 0 upwards, and its binder counts are written.
ghost use Rattle.std.specs.Prelude.{◌≡◌, ◌^◌, ◌<◌, ◌≤◌, true, length, is_ok, IfOk, if◌then◌else◌, MatchResult, slice_index, slice_set};
ghost use Rattle.std.specs.Result.{result_err};
ghost use Rattle.formula.specs.Admission.{Answers, Counted, GoodBefore, Refused, Sized, all_below, counted_by, shape_refusal, word_refusal};
ghost use Rattle.formula.specs.Binders.{binders_of, named_places, shape_binders};
ghost use Rattle.formula.specs.Formulas.{Filled, Holds};
ghost use Rattle.formula.specs.Words.{index_of, shape};

use crate::admitted::Formula;
use crate::refusal::Refusal;
use crate::word::Word;

const MOST_WORDS: usize = 32_768;

// The first check that the word fails, if any.
fn check(word: Word, place: u32, inputs: u32) -> Result<(), Refusal>
    ensures { result_err result ≡ word_refusal inputs word place }
{
    match word {
        Word::Abstraction { body } if body >= place => Err(Refusal::PlaceNotBelow(place)),
        Word::Application { function, argument } if function >= place || argument >= place => {
            Err(Refusal::PlaceNotBelow(place))
        }
        Word::Input(index) if index >= inputs => Err(Refusal::NoSuchInput(place)),
        _ => Ok(()),
    }
}

// The binder count of a word, from the counts of the places below it.
fn binders(word: Word, counts: &[u32]) -> u32
    requires index { index_of word < 2 ^ 28 }
    requires named { all_below (length counts.now) (named_places word) ≡ true }
    ensures { result ≡ binders_of word (λ place. slice_index counts.now place) }
{
    match word {
        Word::Variable(index) => index + 1,
        Word::Abstraction { body } => counts[body as usize].saturating_sub(1),
        Word::Application { function, argument } => {
            counts[function as usize].max(counts[argument as usize])
        }
        _ => 0,
    }
}

// Checks one word and writes its binder count.
fn count_word(word: u32, place: usize, inputs: u32, work: &mut [u32]) -> Result<(), Refusal>
    requires few { place < 32768 }
    requires room { place < length work.old }
    ensures answer { result_err result ≡ shape_refusal inputs (shape word) place }
    ensures count { work.new ≡ (if is_ok result then slice_set work.old place (shape_binders (shape word) (λ p. slice_index work.old p)) else work.old) }
{
    let at = place as u32;
    let word = Word::try_from(word).map_err(|_| Refusal::BadLeaf(at))?;
    check(word, at, inputs)?;
    work[place] = binders(word, work);
    Ok(())
}

// Checks the words from place 0 upwards and writes their binder counts, beside the words in the
// host's own table: the crate has no memory but what is lent.
fn count(words: &[u32], inputs: u32, work: &mut [u32]) -> Result<(), Refusal>
    requires sized { Sized words.now }
    requires room { length words.now ≤ length work.old }
    ensures answer { MatchResult result (λ _. GoodBefore inputs words.now (length words.now)) (λ why. Refused inputs words.now (length work.old) why) }
    ensures counts { Counted words.now (counted_by words.now result) work.old work.new }
{
    for (place, word) in words.iter().enumerate() {
        count_word(*word, place, inputs, work)?;
    }
    Ok(())
}

// The formula of these words, if they are admitted for so many inputs. Words, input count and work
// table are passed one by one, since a struct of the first two is a `Formula`, and they are one only
// when admitted. What it promises of answer and counts is what `admit` promises, so both say it.
fn admitted<'a>(words: &'a [u32], inputs: u32, work: &mut [u32]) -> Result<Formula<'a>, Refusal>
    ensures answer { Answers inputs words.now (length work.old) result }
    ensures counts { Counted words.now (counted_by words.now result) work.old work.new }
    ensures formula { IfOk result (Holds words.now inputs) }
{
    if words.is_empty() || words.len() > MOST_WORDS {
        return Err(Refusal::WordCount);
    }
    if work.len() < words.len() {
        return Err(Refusal::ShortTable);
    }
    count(words, inputs, work)?;
    let root = words.len() - 1;
    if work[root] != 0 {
        return Err(Refusal::NotClosed(root as u32));
    }
    Ok(Formula { words, inputs })
}

// Fills the formula that a host keeps with these words, if they are admitted for so many inputs.
// It is lent and not answered, since a refusal leaves the host the one it had.
pub fn admit<'a>(
    words: &'a [u32],
    inputs: u32,
    work: &mut [u32],
    formula: &mut Formula<'a>,
) -> Result<(), Refusal>
    ensures answer { Answers inputs words.now (length work.old) result }
    ensures counts { Counted words.now (counted_by words.now result) work.old work.new }
    ensures filled { Filled words.now inputs formula.old formula.new result }
{
    *formula = admitted(words, inputs, work)?;
    Ok(())
}
