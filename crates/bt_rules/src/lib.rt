//! Column families, and rules of collection: which cells of a family may be let go.
#![tactic(auto)]

mod condemned;
mod family;
mod limits;
mod rule;

pub use condemned::keep_count;
pub use family::{Families, Family};
pub use limits::{BadRule, check_rule};
pub use rule::{Rule, RuleList};

#[cfg(test)]
mod tests;
