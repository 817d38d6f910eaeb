//! What a line is answered, and what it changes, before either is done.
#![tactic(auto)]

mod planning;

pub use planning::planned;
