//! The rows of an answer, one after another.
#![tactic(auto)]

mod rows_read;

pub use rows_read::RowsRead;

#[cfg(test)]
mod tests;
