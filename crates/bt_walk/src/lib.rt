//! The shapes of JSON messages as data, and one walk that finds the first faults of a message.
#![tactic(auto)]

mod found;
mod leaf;
mod member;
mod shape;
mod walk;

pub use found::{Faults, Pass};
pub use shape::{Many, Member, Name, Schema, Shape, Support};
pub use walk::faults;

#[cfg(test)]
mod tests;
