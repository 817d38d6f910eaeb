//! The rows of a table of a store.
use bt_contents::ContentsRows;
use bt_types::NoReads;

/// The rows of a table in a range of keys (`bt_types::Rows`), with the reading that they are read
/// over.
#[derive(Drop)]
pub struct TableCursor<'a> {
    pub rows: ContentsRows<'a>,
    pub reads: NoReads,
}
