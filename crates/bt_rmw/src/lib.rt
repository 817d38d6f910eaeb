//! Rules that modify the latest cells of a row's columns.
#![tactic(auto)]

mod asked;
mod column;
mod lawful;
mod outcome;
mod refusal;
mod rule;
mod version;

pub use asked::{AskedRule, AskedRuleList};
pub use column::{Column, ColumnList, columns_of};
pub use lawful::lawful_rules;
pub use outcome::modify;
pub use refusal::{ModifyRefusal, RulesRefusal};
pub use rule::{Action, ModifyRule, ModifyRuleList};

#[cfg(test)]
mod tests;
