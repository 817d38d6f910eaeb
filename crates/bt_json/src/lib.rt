//! JSON texts (RFC 8259), read without copies of their strings.
#![tactic(auto)]

mod gathering;
mod number;
mod reading;
mod value;

pub use json::Scratch;
pub use number::Number;
pub use reading::{ReadRefusal, read};
pub use value::{Members, Value};

#[cfg(test)]
mod tests;
