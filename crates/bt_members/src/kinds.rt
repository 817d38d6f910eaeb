//! The numbers of messages and of lists of names.

pub const CREATE_TABLE: u8 = 0;

pub const TABLE: u8 = 1;

pub const COLUMN_FAMILY: u8 = 2;

pub const SPLIT: u8 = 3;

pub const READ_ROWS: u8 = 4;

pub const MUTATE_ROW: u8 = 5;

pub const MUTATION: u8 = 6;

pub const SET_CELL: u8 = 7;

pub const GC_RULE: u8 = 8;

/// `google.bigtable.admin.v2.GcRule.Intersection`, which has the members of `Union`.
pub const RULES: u8 = 9;

pub const CHANGE_STREAM_CONFIG: u8 = 10;

pub const GET_TABLE: u8 = 11;

pub const LIST_TABLES: u8 = 12;

pub const DELETE_TABLE: u8 = 13;

pub const UPDATE_TABLE: u8 = 14;

pub const MODIFY_COLUMN_FAMILIES: u8 = 15;

pub const MODIFICATION: u8 = 16;

pub const DROP_ROW_RANGE: u8 = 17;

pub const MUTATE_ROWS: u8 = 18;

/// `google.bigtable.v2.MutateRowsRequest.Entry`.
pub const ENTRY: u8 = 19;

pub const DELETE_FROM_COLUMN: u8 = 20;

pub const TIMESTAMP_RANGE: u8 = 21;

pub const DELETE_FROM_FAMILY: u8 = 22;

pub const DELETE_FROM_ROW: u8 = 23;

pub const ROW_FILTER: u8 = 24;

/// `google.bigtable.v2.RowFilter.Chain`, which has the members of `Interleave`.
pub const FILTERS: u8 = 25;

/// `google.bigtable.v2.RowFilter.Condition`.
pub const CONDITION: u8 = 26;

pub const COLUMN_RANGE: u8 = 27;

pub const VALUE_RANGE: u8 = 28;

pub const ROW_SET: u8 = 29;

pub const ROW_RANGE: u8 = 30;

pub const CHECK_AND_MUTATE_ROW: u8 = 31;

pub const READ_MODIFY_WRITE_ROW: u8 = 32;

pub const READ_MODIFY_WRITE_RULE: u8 = 33;

/// `google.bigtable.admin.v2.Table.TimestampGranularity`.
pub const GRANULARITIES: u8 = 0;

/// `google.bigtable.v2.ReadRowsRequest.RequestStatsView`.
pub const STATS_VIEWS: u8 = 1;

/// Those of them that are supported.
pub const SUPPORTED_STATS_VIEWS: u8 = 2;
