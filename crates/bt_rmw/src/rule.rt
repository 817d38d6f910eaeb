//! Rules of a read that writes.
use bt_base::{Blob, ListOf};
use bt_types::{FamilyName, Qualifier};

/// What becomes of the latest value of a column (`google.bigtable.v2.ReadModifyWriteRule.rule`).
#[derive(Debug, Drop)]
pub enum Action {
    /// These bytes stand behind it; an absent value is empty.
    Append(Blob),
    /// It is eight bytes, a number with a sign whose most significant byte is the first, and this is added;
    /// an absent value is zero.
    Increment(i64),
}

/// A rule for a column (`google.bigtable.v2.ReadModifyWriteRule`).
#[derive(Debug, Drop)]
pub struct ModifyRule {
    pub family: FamilyName,
    pub qualifier: Qualifier,
    pub action: Action,
}

/// Rules, in order.
pub type ModifyRuleList = ListOf<ModifyRule>;
