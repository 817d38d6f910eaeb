//! The lines of the first example, and what its read is answered.

/// Makes a table with the family `f`.
pub const CREATE: &[u8] =
    br#"{"method":"CreateTable","request":{"parent":"projects/p/instances/i","tableId":"t","table":{"columnFamilies":{"f":{}}}}}
"#;

/// Sets a cell of row `r`.
pub const SET: &[u8] =
    br#"{"method":"MutateRow","request":{"tableName":"projects/p/instances/i/tables/t","rowKey":"cg==","mutations":[{"setCell":{"familyName":"f","columnQualifier":"cQ==","timestampMicros":"1000","value":"dg=="}}]}}
"#;

/// Reads the table.
pub const READ: &[u8] =
    br#"{"method":"ReadRows","request":{"tableName":"projects/p/instances/i/tables/t"}}
"#;

/// The answer to the read where the cell is there.
pub const ROW: &[u8] =
    br#"{"response":{"chunks":[{"commitRow":true,"familyName":"f","qualifier":"cQ==","rowKey":"cg==","timestampMicros":"1000","value":"dg=="}]}}
{"status":{}}
"#;

/// The answer to the read where the table has no row.
pub const NO_ROW: &[u8] = b"{\"status\":{}}\n";

/// The answer to the read where there is no table.
pub const NO_TABLE: &[u8] = b"{\"status\":{\"code\":5,\"message\":\"table not found\"}}\n";
