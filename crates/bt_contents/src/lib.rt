//! The rows of a table in memory.
#![tactic(auto)]

mod contents;
mod contents_rows;
mod look_up;
mod ranges;

pub use contents::Contents;
pub use contents_rows::ContentsRows;

#[cfg(test)]
mod tests;
