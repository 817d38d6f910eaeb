//! Rows to be mutated, as they were read.
use bt_base::{Blob, ListOf};
use bt_mutation::AskedMutationList;

/// The mutations of one row (`google.bigtable.v2.MutateRowsRequest.Entry`).
#[derive(Debug, Drop)]
pub struct AskedEntry {
    pub key: Blob,
    pub mutations: AskedMutationList,
}

/// Entries, in order.
pub type AskedEntryList = ListOf<AskedEntry>;
