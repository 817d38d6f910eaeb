//! The condition of a conditional change.
#![tactic(auto)]

mod condition;

pub use condition::choose;
