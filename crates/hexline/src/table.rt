// A text of lines, one word each, read into a table.
ghost use Rattle.std.specs.Prelude.{◌≡◌, ◌≤◌, Some, length};
ghost use Rattle.hexline.specs.Lines.{Decided, LineInto, ReadInto, bad_line_text, lines_of, without_newline};

use crate::line::read;
use std::error::Error;
use std::fmt;

const NEWLINE: u8 = b'\n';

// A line, numbered from 1, that is no word or has no place left in the table.
#[derive(Clone, Copy, PartialEq, Eq, Debug)]
pub struct BadLine {
    pub number: usize,
}

impl fmt::Display for BadLine {
    ghost output = { λ bad. Some (bad_line_text bad.number) };

    fn fmt<W: fmt::Write>(&self, f: &mut fmt::Formatter<W>) -> fmt::Result {
        write!(f, "bad line {}", self.number)
    }
}

impl Error for BadLine {}

// A line of a text without the newline that ends it.
fn without_newline(line: &[u8]) -> &[u8]
    ensures { result.now ≡ without_newline line.now }
{
    match line {
        [line @ .., NEWLINE] => line,
        _ => line,
    }
}

// Reads a line into a place of the table.
fn read_line(line: &[u8], table: &mut [u32], place: usize) -> Result<(), BadLine>
    requires { place ≤ length table.old }
    ensures { LineInto line.now place table.old table.new result }
{
    let bad = BadLine { number: place + 1 };
    // A test and an index, since `get_mut` does not promise that the slice is written.
    if place == table.len() {
        return Err(bad);
    }
    table[place] = read(line).ok_or(bad)?;
    Ok(())
}

// Reads the lines of `text` into the head of `table`, and says how many there were.
// A text of more than nine bytes for each place decides the answer, whatever follows it.
// The table is lent and its head filled, since the crate has no heap.
pub fn read_table(text: &[u8], table: &mut [u32]) -> Result<usize, BadLine>
    ensures reads { ReadInto (lines_of text.now) table.old table.new result }
    ensures enough { Decided text.now table.old table.new result }
{
    // The count is the next line's place, and at the end the answer.
    let mut count = 0;
    for line in text.split_inclusive(|byte| *byte == NEWLINE) {
        read_line(without_newline(line), table, count)?;
        count += 1;
    }
    Ok(count)
}
