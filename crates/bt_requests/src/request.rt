//! What a line asks for.
use crate::families::{AskedFamilyList, ModificationList};
use crate::rows::AskedEntryList;
use bt_base::{Blob, BlobList};
use bt_filter::AskedFilter;
use bt_mutation::AskedMutationList;
use bt_range::AskedRangeList;
use bt_rmw::AskedRuleList;
use bt_types::{TableName, Text};

/// The rows that DropRowRange is to remove.
#[derive(Debug, Drop)]
pub enum DropTarget {
    /// Those whose keys begin with these bytes.
    Prefix(Blob),
    /// All rows of the table, or none where it is false.
    All(bool),
}

/// A request whose names of tables are lawful. The rest is as it was read; what the request leaves
/// out is zero or empty, a filter that it leaves out is unset, and a predicate that it leaves out is
/// `None`. A retention is in microseconds; it is `None` where there is no `changeStreamConfig`, and 0
/// where that has no `retentionPeriod`.
#[derive(Debug, Drop)]
pub enum Request {
    /// `google.bigtable.admin.v2.CreateTableRequest`.
    CreateTable {
        name: TableName,
        families: AskedFamilyList,
        retention: Option<i64>,
    },
    /// `google.bigtable.admin.v2.GetTableRequest`.
    GetTable {
        name: TableName,
    },
    /// `google.bigtable.admin.v2.ListTablesRequest`. The parent is `projects/P/instances/I`.
    ListTables {
        parent: Text,
        page_token: Text,
    },
    /// `google.bigtable.admin.v2.DeleteTableRequest`.
    DeleteTable {
        name: TableName,
    },
    /// `google.bigtable.admin.v2.UpdateTableRequest`.
    UpdateTable {
        name: TableName,
        mask: Text,
        retention: Option<i64>,
    },
    /// `google.bigtable.admin.v2.ModifyColumnFamiliesRequest`.
    ModifyColumnFamilies {
        name: TableName,
        changes: ModificationList,
    },
    /// `google.bigtable.admin.v2.DropRowRangeRequest`.
    DropRowRange {
        name: TableName,
        target: Option<DropTarget>,
    },
    /// `google.bigtable.v2.ReadRowsRequest`. A request without `rows` lists nothing.
    ReadRows {
        name: TableName,
        keys: BlobList,
        ranges: AskedRangeList,
        filter: AskedFilter,
        rows_limit: i64,
    },
    /// `google.bigtable.v2.MutateRowRequest`.
    MutateRow {
        name: TableName,
        key: Blob,
        mutations: AskedMutationList,
    },
    /// `google.bigtable.v2.MutateRowsRequest`.
    MutateRows {
        name: TableName,
        entries: AskedEntryList,
    },
    /// `google.bigtable.v2.CheckAndMutateRowRequest`. `yes` is to be done where the row meets the
    /// predicate, and `no` where it does not.
    CheckAndMutateRow {
        name: TableName,
        key: Blob,
        predicate: Option<AskedFilter>,
        yes: AskedMutationList,
        no: AskedMutationList,
    },
    /// `google.bigtable.v2.ReadModifyWriteRowRequest`.
    ReadModifyWriteRow {
        name: TableName,
        key: Blob,
        rules: AskedRuleList,
    },
}
