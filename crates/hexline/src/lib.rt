// A 32-bit word as a line of eight lowercase hexadecimal digits, and a text of such lines read into a table.
#![tactic(auto)]

mod line;
mod table;

pub use line::{read, write};
pub use table::{BadLine, read_table};

#[cfg(test)]
mod tests;
