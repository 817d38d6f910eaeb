//! One request line, one reply: what a line is answered, and what it changes.
#![tactic(auto)]

mod carrying;
mod committing;
mod handled;
mod outcome;
mod writing;

pub use handled::{Handled, handle};
