//! A DropRowRange of 2,500 rows on disks that stop.

use crate::example::CREATE;
use crate::runs::{image_after, joined};
use crate::trials::{Stage, Trial, stops};
use bt_base::OutOfMemory;
use bt_outside::DiskImage;
use bt_store::StoreFault;
use std::alloc::Global;

// The digits of base64. A row key is three bytes, which four digits spell: two of 0, and one each of
// the row's number by 64 and of what is left.
const DIGITS: &[u8] = b"ABCDEFGHIJKLMNOPQRSTUVWXYZabcdefghijklmnopqrstuvwxyz0123456789+/";

// The digits from 0 to 38, with which 2,496 keys begin.
const FRONT: &[u8] = b"ABCDEFGHIJKLMNOPQRSTUVWXYZabcdefghijklm";

const HEAD: &[u8] =
    br#"{"method":"MutateRows","request":{"tableName":"projects/p/instances/i/tables/t","entries":["#;

const DROP: &[u8] =
    br#"{"method":"DropRowRange","request":{"name":"projects/p/instances/i/tables/t","deleteAllDataFromTable":true}}
"#;

// Reads the rows 0, 999, 1000, 1999, 2000 and 2499, which are the ends of the batches.
const READ: &[u8] =
    br#"{"method":"ReadRows","request":{"tableName":"projects/p/instances/i/tables/t","rows":{"rowKeys":["AAAA","AAPn","AAPo","AAfP","AAfQ","AAnD"]}}}
"#;

const ALL: &[u8] =
    br#"{"response":{"chunks":[{"commitRow":true,"familyName":"f","qualifier":"","rowKey":"AAAA"},{"commitRow":true,"familyName":"f","qualifier":"","rowKey":"AAPn"},{"commitRow":true,"familyName":"f","qualifier":"","rowKey":"AAPo"},{"commitRow":true,"familyName":"f","qualifier":"","rowKey":"AAfP"},{"commitRow":true,"familyName":"f","qualifier":"","rowKey":"AAfQ"},{"commitRow":true,"familyName":"f","qualifier":"","rowKey":"AAnD"}]}}
{"status":{}}
"#;

const FROM_1000: &[u8] =
    br#"{"response":{"chunks":[{"commitRow":true,"familyName":"f","qualifier":"","rowKey":"AAPo"},{"commitRow":true,"familyName":"f","qualifier":"","rowKey":"AAfP"},{"commitRow":true,"familyName":"f","qualifier":"","rowKey":"AAfQ"},{"commitRow":true,"familyName":"f","qualifier":"","rowKey":"AAnD"}]}}
{"status":{}}
"#;

const FROM_2000: &[u8] =
    br#"{"response":{"chunks":[{"commitRow":true,"familyName":"f","qualifier":"","rowKey":"AAfQ"},{"commitRow":true,"familyName":"f","qualifier":"","rowKey":"AAnD"}]}}
{"status":{}}
"#;

fn push_entry(lines: &mut Vec<u8>, lead: &[u8], high: u8, low: u8) -> Result<(), OutOfMemory> {
    lines.extend_from_slice(lead)?;
    lines.extend_from_slice(b"{\"rowKey\":\"AA")?;
    lines.push(high)?;
    lines.push(low)?;
    lines.extend_from_slice(b"\",\"mutations\":[{\"setCell\":{\"familyName\":\"f\"}}]}")?;
    Ok(())
}

// A line that makes the rows whose keys end with this digit and one of those.
fn push_line(lines: &mut Vec<u8>, high: u8, lows: &[u8]) -> Result<(), OutOfMemory> {
    lines.extend_from_slice(HEAD)?;
    let mut lead: &[u8] = b"";
    for low in lows {
        push_entry(lines, lead, high, *low)?;
        lead = b",";
    }
    lines.extend_from_slice(b"]}}\n")?;
    Ok(())
}

// Lines that make the rows 0 to 2499.
fn rows_lines(alloc: Global) -> Result<Vec<u8>, OutOfMemory> {
    let mut lines = CREATE.to_vec(alloc)?;
    for high in FRONT {
        push_line(&mut lines, *high, DIGITS)?;
    }
    push_line(&mut lines, b'n', b"ABCD")?;
    Ok(lines)
}

const DROPPED: &[u8] = b"{\"response\":{}}\n{\"status\":{}}\n";

const NO_ROW: &[u8] = b"{\"status\":{}}\n";

fn drop_once(alloc: Global, before: &DiskImage) -> Result<String, StoreFault> {
    let trial = Trial {
        name: "2500 rows dropped",
        change: DROP,
        read: READ,
        records: 3,
        stages: &[
            Stage {
                reply: ALL,
                words: "all rows",
            },
            Stage {
                reply: FROM_1000,
                words: "1000 rows gone",
            },
            Stage {
                reply: FROM_2000,
                words: "2000 rows gone",
            },
            Stage {
                reply: NO_ROW,
                words: "2500 rows gone",
            },
        ],
    };
    stops(alloc, &trial, before)
}

// The same request is sent again after the crash.
fn drop_again(alloc: Global, before: &DiskImage) -> Result<String, StoreFault> {
    let read = joined(alloc, &[DROP, READ])?;
    let reply = joined(alloc, &[DROPPED, NO_ROW])?;
    let trial = Trial {
        name: "2500 rows dropped and again",
        change: DROP,
        read: &read,
        records: 3,
        stages: &[Stage {
            reply: &reply,
            words: "no rows",
        }],
    };
    stops(alloc, &trial, before)
}

/// It stopped at each call of its three records.
pub fn lines(alloc: Global) -> Result<String, StoreFault> {
    let made = rows_lines(alloc)?;
    let before = image_after(alloc, &made)?;
    let mut lines = drop_once(alloc, &before)?;
    lines.push_str(drop_again(alloc, &before)?.as_str())?;
    Ok(lines)
}
