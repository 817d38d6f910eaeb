//! A MutateRows and a ModifyColumnFamilies on disks that stop.

use crate::example::CREATE;
use crate::runs::{image_after, joined};
use crate::trials::{Stage, Trial, stops};
use bt_store::StoreFault;
use std::alloc::Global;

// Sets a cell of the rows `a`, `b` and `c`, that of `b` in a family that is not there.
const SET_ROWS: &[u8] =
    br#"{"method":"MutateRows","request":{"tableName":"projects/p/instances/i/tables/t","entries":[{"rowKey":"YQ==","mutations":[{"setCell":{"familyName":"f"}}]},{"rowKey":"Yg==","mutations":[{"setCell":{"familyName":"h"}}]},{"rowKey":"Yw==","mutations":[{"setCell":{"familyName":"f"}}]}]}}
"#;

const READ: &[u8] =
    br#"{"method":"ReadRows","request":{"tableName":"projects/p/instances/i/tables/t"}}
"#;

const BOTH_ROWS: &[u8] =
    br#"{"response":{"chunks":[{"commitRow":true,"familyName":"f","qualifier":"","rowKey":"YQ=="},{"commitRow":true,"familyName":"f","qualifier":"","rowKey":"Yw=="}]}}
{"status":{}}
"#;

// The rows `a` and `b` have a cell in the family `g`, and `a` one in `f`.
const TWO_FAMILIES: &[u8] =
    br#"{"method":"CreateTable","request":{"parent":"projects/p/instances/i","tableId":"t","table":{"columnFamilies":{"f":{},"g":{}}}}}
{"method":"MutateRow","request":{"tableName":"projects/p/instances/i/tables/t","rowKey":"YQ==","mutations":[{"setCell":{"familyName":"f"}},{"setCell":{"familyName":"g"}}]}}
{"method":"MutateRow","request":{"tableName":"projects/p/instances/i/tables/t","rowKey":"Yg==","mutations":[{"setCell":{"familyName":"g"}}]}}
"#;

const DROP_FAMILY: &[u8] =
    br#"{"method":"ModifyColumnFamilies","request":{"name":"projects/p/instances/i/tables/t","modifications":[{"id":"g","drop":true}]}}
"#;

const GET: &[u8] = br#"{"method":"GetTable","request":{"name":"projects/p/instances/i/tables/t"}}
"#;

const UNDROPPED: &[u8] =
    br#"{"response":{"columnFamilies":{"f":{},"g":{}},"granularity":"MILLIS","name":"projects/p/instances/i/tables/t"}}
{"status":{}}
{"response":{"chunks":[{"familyName":"f","qualifier":"","rowKey":"YQ=="},{"commitRow":true,"familyName":"g","qualifier":""},{"commitRow":true,"familyName":"g","qualifier":"","rowKey":"Yg=="}]}}
{"status":{}}
"#;

const DROPPED: &[u8] =
    br#"{"response":{"columnFamilies":{"f":{}},"granularity":"MILLIS","name":"projects/p/instances/i/tables/t"}}
{"status":{}}
{"response":{"chunks":[{"commitRow":true,"familyName":"f","qualifier":"","rowKey":"YQ=="}]}}
{"status":{}}
"#;

fn set_rows(alloc: Global) -> Result<String, StoreFault> {
    let trial = Trial {
        name: "MutateRows",
        change: SET_ROWS,
        read: READ,
        records: 1,
        stages: &[
            Stage {
                reply: b"{\"status\":{}}\n",
                words: "no rows",
            },
            Stage {
                reply: BOTH_ROWS,
                words: "both rows",
            },
        ],
    };
    let before = image_after(alloc, CREATE)?;
    stops(alloc, &trial, &before)
}

fn drop_family(alloc: Global) -> Result<String, StoreFault> {
    let read = joined(alloc, &[GET, READ])?;
    let trial = Trial {
        name: "family dropped",
        change: DROP_FAMILY,
        read: &read,
        records: 1,
        stages: &[
            Stage {
                reply: UNDROPPED,
                words: "family with its cells",
            },
            Stage {
                reply: DROPPED,
                words: "neither",
            },
        ],
    };
    let before = image_after(alloc, TWO_FAMILIES)?;
    stops(alloc, &trial, &before)
}

/// Each of them stopped at each of its calls.
pub fn lines(alloc: Global) -> Result<String, StoreFault> {
    let mut lines = set_rows(alloc)?;
    lines.push_str(drop_family(alloc)?.as_str())?;
    Ok(lines)
}
