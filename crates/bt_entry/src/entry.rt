//! An entry of the write-ahead log: one change of the tables.
use bt_base::{OutOfMemory, Plain};
use bt_rules::Families;
use bt_types::{MutationList, RowKey, TableName};
use std::alloc::Global;

/// One change of the tables. A table is meant by its incarnation, which no other table ever has,
/// also none that is made later under the same name. Retentions are in microseconds; 0 is for a
/// table without a change stream.
#[derive(Debug, Drop)]
pub enum Entry {
    /// A row was changed: by a user (`google.bigtable.v2.MutateRowRequest`), or by a rule of
    /// collection.
    Row {
        incarnation: u64,
        key: RowKey,
        by_rule: bool,
        mutations: MutationList,
    },
    /// A table was made (`google.bigtable.admin.v2.CreateTableRequest`).
    Create {
        name: TableName,
        families: Families,
        retention: u64,
    },
    /// A table was deleted (`google.bigtable.admin.v2.DeleteTableRequest`).
    Delete {
        incarnation: u64,
    },
    /// A table has these families from now on
    /// (`google.bigtable.admin.v2.ModifyColumnFamiliesRequest`).
    Alter {
        incarnation: u64,
        families: Families,
    },
    /// A table's change stream began, ended, or keeps changes for another time
    /// (`google.bigtable.admin.v2.ChangeStreamConfig`).
    Stream {
        incarnation: u64,
        retention: u64,
    },
    /// Nothing but that no later entry has a lesser moment.
    Floor,
}

impl Plain for Entry {
    fn copy(&self, alloc: Global) -> Result<Entry, OutOfMemory> {
        match self {
            Entry::Row {
                incarnation,
                key,
                by_rule,
                mutations,
            } => Ok(Entry::Row {
                incarnation: *incarnation,
                key: key.copy(alloc)?,
                by_rule: *by_rule,
                mutations: mutations.copy(alloc)?,
            }),
            Entry::Create {
                name,
                families,
                retention,
            } => Ok(Entry::Create {
                name: name.copy(alloc)?,
                families: families.copy(alloc)?,
                retention: *retention,
            }),
            Entry::Delete { incarnation } => Ok(Entry::Delete {
                incarnation: *incarnation,
            }),
            Entry::Alter {
                incarnation,
                families,
            } => Ok(Entry::Alter {
                incarnation: *incarnation,
                families: families.copy(alloc)?,
            }),
            Entry::Stream {
                incarnation,
                retention,
            } => Ok(Entry::Stream {
                incarnation: *incarnation,
                retention: *retention,
            }),
            Entry::Floor => Ok(Entry::Floor),
        }
    }
}
