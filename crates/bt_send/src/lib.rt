//! Replies, written to a connection.
#![tactic(auto)]

mod read;
mod send_fault;
mod whole;

pub use read::send_read;
pub use whole::send;
