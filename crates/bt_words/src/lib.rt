//! The words of the command line.
#![tactic(auto)]

mod command;
mod count;
mod division;
mod words;

pub use command::{Command, WordsRefusal};
pub use words::read_words;

#[cfg(test)]
mod tests;
