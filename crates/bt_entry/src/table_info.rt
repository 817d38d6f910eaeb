//! What is known of a table besides its rows.
use bt_base::{OutOfMemory, Plain};
use bt_rules::Families;
use bt_types::TableName;
use std::alloc::Global;

/// A table without its rows (`google.bigtable.admin.v2.Table`). Its incarnation is the sequence of
/// the entry that made it. `since` is the sequence of the entry that began its change stream, and
/// `since_moment` the moment of that entry; both are 0 where it has none. `retention` says for how
/// many microseconds its changes are kept for streams, and is 0 where they are not.
#[derive(Debug, Drop)]
pub struct TableInfo {
    pub name: TableName,
    pub incarnation: u64,
    pub families: Families,
    pub since: u64,
    pub since_moment: u64,
    pub retention: u64,
}

impl Plain for TableInfo {
    fn copy(&self, alloc: Global) -> Result<TableInfo, OutOfMemory> {
        Ok(TableInfo {
            name: self.name.copy(alloc)?,
            incarnation: self.incarnation,
            families: self.families.copy(alloc)?,
            since: self.since,
            since_moment: self.since_moment,
            retention: self.retention,
        })
    }
}
