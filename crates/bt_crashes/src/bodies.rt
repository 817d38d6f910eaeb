//! Records whose bodies have just as many bytes as the limit, and one more.

use crate::bounds::limited_line;
use crate::example::{CREATE, READ};
use crate::runs::joined;
use bt_store::StoreFault;
use bt_top::Limits;
use std::alloc::Global;

// A set whose value has 18 bytes.
const SET_18: &[u8] =
    br#"{"method":"MutateRow","request":{"tableName":"projects/p/instances/i/tables/t","rowKey":"cg==","mutations":[{"setCell":{"familyName":"f","columnQualifier":"cQ==","timestampMicros":"1000","value":"dnZ2dnZ2dnZ2dnZ2dnZ2dnZ2"}}]}}
"#;

// A set whose value has 19 bytes.
const SET_19: &[u8] =
    br#"{"method":"MutateRow","request":{"tableName":"projects/p/instances/i/tables/t","rowKey":"cg==","mutations":[{"setCell":{"familyName":"f","columnQualifier":"cQ==","timestampMicros":"1000","value":"dnZ2dnZ2dnZ2dnZ2dnZ2dnZ2dg=="}}]}}
"#;

// The same where there is no row.
const CHECK_18: &[u8] =
    br#"{"method":"CheckAndMutateRow","request":{"tableName":"projects/p/instances/i/tables/t","rowKey":"cg==","falseMutations":[{"setCell":{"familyName":"f","columnQualifier":"cQ==","timestampMicros":"1000","value":"dnZ2dnZ2dnZ2dnZ2dnZ2dnZ2"}}]}}
"#;

const CHECK_19: &[u8] =
    br#"{"method":"CheckAndMutateRow","request":{"tableName":"projects/p/instances/i/tables/t","rowKey":"cg==","falseMutations":[{"setCell":{"familyName":"f","columnQualifier":"cQ==","timestampMicros":"1000","value":"dnZ2dnZ2dnZ2dnZ2dnZ2dnZ2dg=="}}]}}
"#;

// The same by a rule.
const APPEND_18: &[u8] =
    br#"{"method":"ReadModifyWriteRow","request":{"tableName":"projects/p/instances/i/tables/t","rowKey":"cg==","rules":[{"familyName":"f","columnQualifier":"cQ==","appendValue":"dnZ2dnZ2dnZ2dnZ2dnZ2dnZ2"}]}}
"#;

const APPEND_19: &[u8] =
    br#"{"method":"ReadModifyWriteRow","request":{"tableName":"projects/p/instances/i/tables/t","rowKey":"cg==","rules":[{"familyName":"f","columnQualifier":"cQ==","appendValue":"dnZ2dnZ2dnZ2dnZ2dnZ2dnZ2dg=="}]}}
"#;

// Sets of the rows `r` and `s`, whose values have 6 bytes each, and one in between that is refused.
const SETS_12: &[u8] =
    br#"{"method":"MutateRows","request":{"tableName":"projects/p/instances/i/tables/t","entries":[{"rowKey":"cg==","mutations":[{"setCell":{"familyName":"f","columnQualifier":"cQ==","timestampMicros":"1000","value":"dnZ2dnZ2"}}]},{"rowKey":"cg==","mutations":[{"setCell":{"familyName":"h"}}]},{"rowKey":"cw==","mutations":[{"setCell":{"familyName":"f","columnQualifier":"cQ==","timestampMicros":"1000","value":"dnZ2dnZ2"}}]}]}}
"#;

// Sets of the rows `r` and `s`, whose values have 6 and 7 bytes.
const SETS_13: &[u8] =
    br#"{"method":"MutateRows","request":{"tableName":"projects/p/instances/i/tables/t","entries":[{"rowKey":"cg==","mutations":[{"setCell":{"familyName":"f","columnQualifier":"cQ==","timestampMicros":"1000","value":"dnZ2dnZ2"}}]},{"rowKey":"cw==","mutations":[{"setCell":{"familyName":"f","columnQualifier":"cQ==","timestampMicros":"1000","value":"dnZ2dnZ2dg=="}}]}]}}
"#;

// Makes the rows `a`, `ab` and `abc`, and `b`, `bc` and `bd`.
const SIX_ROWS: &[u8] =
    br#"{"method":"MutateRow","request":{"tableName":"projects/p/instances/i/tables/t","rowKey":"YQ==","mutations":[{"setCell":{"familyName":"f"}}]}}
{"method":"MutateRow","request":{"tableName":"projects/p/instances/i/tables/t","rowKey":"YWI=","mutations":[{"setCell":{"familyName":"f"}}]}}
{"method":"MutateRow","request":{"tableName":"projects/p/instances/i/tables/t","rowKey":"YWJj","mutations":[{"setCell":{"familyName":"f"}}]}}
{"method":"MutateRow","request":{"tableName":"projects/p/instances/i/tables/t","rowKey":"Yg==","mutations":[{"setCell":{"familyName":"f"}}]}}
{"method":"MutateRow","request":{"tableName":"projects/p/instances/i/tables/t","rowKey":"YmM=","mutations":[{"setCell":{"familyName":"f"}}]}}
{"method":"MutateRow","request":{"tableName":"projects/p/instances/i/tables/t","rowKey":"YmQ=","mutations":[{"setCell":{"familyName":"f"}}]}}
"#;

const DROP_A: &[u8] =
    br#"{"method":"DropRowRange","request":{"name":"projects/p/instances/i/tables/t","rowKeyPrefix":"YQ=="}}
"#;

const DROP_B: &[u8] =
    br#"{"method":"DropRowRange","request":{"name":"projects/p/instances/i/tables/t","rowKeyPrefix":"Yg=="}}
"#;

/// Lines that make rows, a change whose body has one byte more than the limit, and one that fits.
#[derive(Clone, Copy)]
struct Case<'a> {
    what: &'a str,
    body: u32,
    rows: &'a [u8],
    larger: &'a [u8],
    fitting: &'a [u8],
}

// A read stands behind each of the two changes.
fn case_line(alloc: Global, case: Case<'_>) -> Result<String, StoreFault> {
    let limits = Limits {
        line: 8_192,
        body: case.body,
        ..Limits::standard()
    };
    let parts = [CREATE, case.rows, case.larger, READ, case.fitting, READ];
    let bytes = joined(alloc, &parts)?;
    limited_line(alloc, case.what, &limits, &bytes)
}

// A body of one set has 46 bytes and its value.
fn single_sets(alloc: Global) -> Result<String, StoreFault> {
    let mutate = Case {
        what: "limit 64, MutateRow of 65 and of 64 bytes",
        body: 64,
        rows: b"",
        larger: SET_19,
        fitting: SET_18,
    };
    let check = Case {
        what: "limit 64, CheckAndMutateRow of 65 and of 64 bytes",
        larger: CHECK_19,
        fitting: CHECK_18,
        ..mutate
    };
    let append = Case {
        what: "limit 64, ReadModifyWriteRow of 65 and of 64 bytes",
        larger: APPEND_19,
        fitting: APPEND_18,
        ..mutate
    };
    let mut lines = case_line(alloc, mutate)?;
    lines.push_str(case_line(alloc, check)?.as_str())?;
    lines.push_str(case_line(alloc, append)?.as_str())?;
    Ok(lines)
}

// A body of two sets has 88 bytes and their values, and one that drops three rows 76 and their keys.
fn several_rows(alloc: Global) -> Result<String, StoreFault> {
    let mutate = Case {
        what: "limit 100, MutateRows of 101 and of 100 bytes",
        body: 100,
        rows: b"",
        larger: SETS_13,
        fitting: SETS_12,
    };
    let drop = Case {
        what: "limit 81, DropRowRange of 82 and of 81 bytes",
        body: 81,
        rows: SIX_ROWS,
        larger: DROP_A,
        fitting: DROP_B,
    };
    let mut lines = case_line(alloc, mutate)?;
    lines.push_str(case_line(alloc, drop)?.as_str())?;
    Ok(lines)
}

/// Changes at the limit and past it.
pub fn lines(alloc: Global) -> Result<String, StoreFault> {
    let mut lines = single_sets(alloc)?;
    lines.push_str(several_rows(alloc)?.as_str())?;
    Ok(lines)
}
