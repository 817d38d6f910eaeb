//! The tables in memory, and what an entry of the history changes.
#![tactic(auto)]

mod allowed;
mod batches;
mod present;
mod rows;

pub use present::Present;

#[cfg(test)]
mod tests;
