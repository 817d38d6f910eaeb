//! Patterns of row filters: what a text is read as, and which texts it matches.
#![tactic(auto)]

mod any_byte;
mod build;
mod finder;
mod pattern;
mod refusal;
#[cfg(test)]
mod tests;

pub use pattern::{Pattern, is_plain};
pub use refusal::PatternRefusal;
