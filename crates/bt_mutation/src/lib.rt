//! Mutations as a request asks for them, the rules that they keep, and what they become.
#![tactic(auto)]

mod asked;
mod checks;
mod refusal;
mod resolution;

pub use asked::{AskedMutation, AskedMutationList};
pub use checks::{check_list, has_family};
pub use refusal::MutationRefusal;
pub use resolution::resolve;

#[cfg(test)]
mod tests;
