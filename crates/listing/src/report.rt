// What the program prints of what it reads.
ghost use Rattle.std.specs.Prelude.{◌≡◌, ℕ, ◌<◌, ◌≤◌, length, IfOk, Some, string_bytes, slice_index};
ghost use Rattle.formula.specs.Admission.{counted_by};
ghost use Rattle.formula.specs.Binders.{binders};
ghost use Rattle.formula.specs.Words.{shape};
ghost use Rattle.listing.specs.Report.{Decided, Listed, Reported, Told, count_text, row_text, rows_text, verdict_text};

use formula::{Formula, Refusal, Word, admit};
use hexline::{BadLine, read_table};
use std::alloc::{AllocError, Global};
use std::{fmt, str};

// The places of each of the two tables. They are arrays: a `Vec` would be no shorter, and could fail.
pub const MOST_LINES: usize = 4096;

// A binder count, if admission wrote one.
#[derive(Drop)]
struct Count(Option<u32>);

impl fmt::Display for Count {
    ghost output = { λ count. Some (count_text count.0) };

    fn fmt<W: fmt::Write>(&self, f: &mut fmt::Formatter<W>) -> fmt::Result {
        match self.0 {
            Some(count) => write!(f, "binders {count}"),
            None => f.write_str("not counted"),
        }
    }
}

// No line below needs `hex_line`: by it `{word:08x}` in the first arm is proved too, so that the edit `digits_not_filled_with_zeros` is refused for the missing zeros.
#[tactic(auto, using(crate::proofs::Digits::hex_line))]
fn row(heap: Global, place: usize, word: u32, count: Option<u32>) -> Result<String, AllocError>
    ensures { IfOk result (λ out. string_bytes out ≡ row_text place word (shape word) count) }
{
    // By `hexline::write`, whose contract says that reading what is printed gives the word back.
    let digits = hexline::write(word);
    let line = str::from_utf8(&digits).unwrap();
    let count = Count(count);
    // Two arms: for one, a shape or its error would have to be a type of its own with a `Display`.
    match Word::try_from(word) {
        Ok(shape) => format!(in heap; "{place} {line} {shape}, {count}\n"),
        Err(not_allowed) => format!(in heap; "{place} {line} {not_allowed}, {count}\n"),
    }
}

fn verdict(heap: Global, answer: Result<(), Refusal>) -> Result<String, AllocError>
    ensures { IfOk result (λ out. string_bytes out ≡ verdict_text answer) }
{
    match answer {
        Ok(()) => format!(in heap; "admitted\n"),
        Err(why) => format!(in heap; "{why}\n"),
    }
}

// How many binder counts admission wrote.
fn counted(words: &[u32], answer: Result<(), Refusal>) -> usize
    ensures { result ≡ counted_by words.now answer }
{
    match answer {
        Ok(()) | Err(Refusal::NotClosed(_)) => words.len(),
        Err(Refusal::WordCount | Refusal::ShortTable) => 0,
        Err(
            Refusal::BadLeaf(place) | Refusal::PlaceNotBelow(place) | Refusal::NoSuchInput(place),
        ) => place as usize,
    }
}

// The rows of the words, with the binder counts of the first of them, which are the head of the
// work table that admission wrote.
#[tactic(auto, using(crate::proofs::Rows::rows_more, crate::proofs::Rows::found_count))]
fn rows(heap: Global, words: &[u32], counts: &[u32]) -> Result<String, AllocError>
    requires { (place : ℕ) → place < length counts.now → slice_index counts.now place ≡ binders words.now place }
    ensures { IfOk result (λ out. string_bytes out ≡ rows_text words.now (length counts.now) (length words.now)) }
{
    let mut out = String::new(heap);
    for (place, word) in words.iter().enumerate() {
        let line = row(heap, place, *word, counts.get(place).copied())?;
        out.push_str(line.as_str())?;
    }
    Ok(out)
}

// The rows of the words, and how admission answers.
fn list(heap: Global, words: &[u32], inputs: u32) -> Result<String, AllocError>
    requires { length words.now ≤ 4096 }
    ensures { IfOk result (λ out. Listed words.now inputs (string_bytes out)) }
{
    let mut work = [0; MOST_LINES];
    let mut formula = Formula::fresh();
    let answer = admit(words, inputs, &mut work, &mut formula);
    let mut out = rows(heap, words, &work[0..counted(words, answer)])?;
    out.push_str(verdict(heap, answer)?.as_str())?;
    Ok(out)
}

// What is printed of a table that a text was read into.
fn told(
    heap: Global,
    table: &[u32],
    lines: Result<usize, BadLine>,
    inputs: u32,
) -> Result<String, AllocError>
    requires few { length table.now ≤ 4096 }
    requires room { IfOk lines (λ count. count ≤ length table.now) }
    ensures { IfOk result (λ out. Told inputs table.now lines (string_bytes out)) }
{
    match lines {
        Ok(count) => list(heap, &table[0..count], inputs),
        Err(bad) => format!(in heap; "{bad}\n"),
    }
}

// What is printed of a text, for so many inputs. A text of more than nine bytes for each of
// 4,096 lines decides it, whatever follows.
pub fn report(heap: Global, text: &[u8], inputs: u32) -> Result<String, AllocError>
    ensures reported { IfOk result (λ out. Reported text.now inputs (string_bytes out)) }
    ensures enough { IfOk result (λ out. Decided text.now inputs (string_bytes out)) }
{
    let mut table = [0; MOST_LINES];
    let lines = read_table(text, &mut table);
    told(heap, &table, lines, inputs)
}
