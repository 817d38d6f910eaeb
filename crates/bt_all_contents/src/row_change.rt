//! A change of a row of some table.
use bt_types::{MutationList, RowKey};

/// Mutations of a row of the table of that incarnation, applied in order.
#[derive(Debug, Drop)]
pub struct RowChange {
    pub incarnation: u64,
    pub key: RowKey,
    pub mutations: MutationList,
}
