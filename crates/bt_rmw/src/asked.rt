//! Rules as they were read.
use crate::rule::Action;
use bt_base::{Blob, ListOf};

/// A rule as it was read (`google.bigtable.v2.ReadModifyWriteRule`). What the request leaves out is empty,
/// and an action that it leaves out is `None`.
#[derive(Debug, Drop)]
pub struct AskedRule {
    pub family: Blob,
    pub qualifier: Blob,
    pub action: Option<Action>,
}

/// The rules of one request, in order.
pub type AskedRuleList = ListOf<AskedRule>;
