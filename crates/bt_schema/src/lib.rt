//! The tables without their rows, what an entry of the history changes in them, and their one
//! spelling in bytes.
#![tactic(auto)]

mod changes;
mod checks;
mod families;
mod reading;
mod refusal;
mod schema;

pub use families::{has_family, is_family_of};
pub use refusal::SchemaRefusal;
pub use schema::{Schema, set_retention};

#[cfg(test)]
mod tests;
