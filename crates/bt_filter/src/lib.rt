//! Filters of rows: as they are asked for, the checks on them, and what they mean once they are built.
#![tactic(auto)]

mod asked;
mod building;
mod extent;
mod filter;
mod nodes;
mod refusal;

pub use asked::{AskedFilter, AskedFilterList};
pub use filter::{Filter, FilterList};
pub use refusal::{FilterRefusal, Why};

#[cfg(test)]
mod tests;
