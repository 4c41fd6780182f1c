// Formulas as tables of words, and their admission.
#![tactic(auto)]

mod admission;
mod admitted;
mod operation;
mod refusal;
mod word;

pub use admission::admit;
pub use admitted::Formula;
pub use operation::{Operation, UnknownOperation};
pub use refusal::Refusal;
pub use word::{NotAllowed, Word};

#[cfg(test)]
mod tests;
