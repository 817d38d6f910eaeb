//! Segments of the write-ahead log: made, loaded, and added to.
#![tactic(auto)]

mod body;
mod fault;
mod log;
mod records;
#[cfg(test)]
mod tests;

pub use body::Record;
pub use log::Log;
