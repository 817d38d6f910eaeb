//! What a method answers.
use bt_base::{ListOf, OutOfMemory, Plain};
use bt_chunks::ChunkList;
use bt_entry::TableInfo;
use bt_types::{CellList, RowKey, TableName, Text};
use std::alloc::Global;

/// Names of tables.
pub type TableNameList = ListOf<TableName>;

/// What became of an entry of MutateRows (`google.rpc.Status`): code 0 and no text where it was
/// accepted.
#[derive(Debug, Drop)]
pub struct EntryStatus {
    pub code: u8,
    pub text: Text,
}

/// The statuses of entries, in the order of the request.
pub type EntryStatusList = ListOf<EntryStatus>;

impl Plain for EntryStatus {
    fn copy(&self, alloc: Global) -> Result<EntryStatus, OutOfMemory> {
        Ok(EntryStatus {
            code: self.code,
            text: self.text.copy(alloc)?,
        })
    }
}

/// What a method answers in one response line. Each is named for its method.
#[derive(Debug, Drop)]
pub enum Response {
    /// The table that was made (`google.bigtable.admin.v2.Table`).
    CreateTable(TableInfo),
    /// The table (`google.bigtable.admin.v2.Table`).
    GetTable(TableInfo),
    /// The tables of an instance, by their names (`google.bigtable.admin.v2.ListTablesResponse`).
    ListTables(TableNameList),
    /// Nothing (`google.protobuf.Empty`).
    DeleteTable,
    /// The table as it is now (`google.bigtable.admin.v2.Table`).
    UpdateTable(TableInfo),
    /// The table as it is now (`google.bigtable.admin.v2.Table`).
    ModifyColumnFamilies(TableInfo),
    /// Nothing (`google.protobuf.Empty`).
    DropRowRange,
    /// Nothing (`google.bigtable.v2.MutateRowResponse`).
    MutateRow,
    /// What became of each entry (`google.bigtable.v2.MutateRowsResponse`).
    MutateRows(EntryStatusList),
    /// Some of the chunks of a read (`google.bigtable.v2.ReadRowsResponse`).
    ReadRows(ChunkList),
    /// Whether the condition held (`google.bigtable.v2.CheckAndMutateRowResponse`).
    CheckAndMutateRow(bool),
    /// The cells that were written, in order of family and qualifier
    /// (`google.bigtable.v2.ReadModifyWriteRowResponse`). Labels are not shown: what is written has
    /// none.
    ReadModifyWriteRow { key: RowKey, cells: CellList },
}
