use crate::{BatchRefusal, fits, read_batch, write_batch};
use bt_base::Blob;
use std::alloc::Global;
use std::test::Fail;

// The table projects/p/instances/i/tables/t with the family f, made at 5000000.
const CREATE: &[u8] =
    b"\0\0\0\x01\0\0\0\0\0\x4C\x4B\x40\x03\0\x1Fprojects/p/instances/i/tables/t\0\x01\x01f\0\0\0\0\0\0\0\0\0";

// The cell f:q at 1000 set to v in the row r of the first table, at 7.
const ROW: &[u8] =
    b"\0\0\0\x01\0\0\0\0\0\0\0\x07\x01\0\0\0\0\0\0\0\x01\0\x01r\0\0\0\x01\x01\x01f\0\x01q\0\0\0\0\0\0\x03\xE8\0\0\0\x01v";

// Each kind of entry and of mutation. The family g has the rule "one version, or two versions that
// are older than a millisecond".
const ALL: &[u8] = b"\0\0\0\x07\
\0\0\0\0\0\0\0\x01\x03\0\x1Fprojects/p/instances/i/tables/t\0\x02\
\x01f\0\
\x01g\x04\x02\x01\0\0\0\x01\x03\x02\x01\0\0\0\x02\x02\0\0\0\0\0\0\x03\xE8\
\0\0\0\x14\x1D\xD7\x60\0\
\0\0\0\0\0\0\0\x02\x01\0\0\0\0\0\0\0\x01\0\x01r\0\0\0\x04\
\x01\x01f\0\x01q\0\0\0\0\0\0\x03\xE8\0\0\0\x01v\
\x02\x01f\0\x01q\0\0\0\0\0\0\0\x05\x7F\xFF\xFF\xFF\xFF\xFF\xFF\xFF\
\x03\x01g\
\x04\
\0\0\0\0\0\0\0\x03\x02\0\0\0\0\0\0\0\x01\0\x01r\0\0\0\x01\x04\
\0\0\0\0\0\0\0\x04\x05\0\0\0\0\0\0\0\x01\0\0\
\0\0\0\0\0\0\0\x05\x06\0\0\0\0\0\0\0\x01\0\0\0\0\0\0\0\0\
\0\0\0\0\0\0\0\x06\x04\0\0\0\0\0\0\0\x01\
\0\0\0\0\0\0\0\x07\x07";

// The first table has the family f with the rule that follows, at 7.
const ALTER: &[u8] = b"\0\0\0\x01\0\0\0\0\0\0\0\x07\x05\0\0\0\0\0\0\0\x01\0\x01\x01f";

// What is read of these bytes as entries from 9 on, written again, and the sequence of the first.
fn written_again(alloc: Global, bytes: &[u8]) -> Result<(Blob, u64), Fail> {
    let Ok(batch) = read_batch(alloc, bytes, 9) else {
        return Err(Fail::from("refused"));
    };
    let Some(first) = batch.items().first() else {
        return Err(Fail::from("no entry"));
    };
    let sequence = first.sequence;
    Ok((write_batch(alloc, &batch)?, sequence))
}

#[test]
fn a_new_table_is_read_and_written(rt: HostRuntime) -> Result<(), Fail> {
    let (bytes, sequence) = written_again(rt.alloc(), CREATE)?;
    assert_eq!(rt; bytes.bytes(), CREATE);
    assert_eq!(rt; sequence, 9);
    Ok(())
}

#[test]
fn a_row_is_read_and_written(rt: HostRuntime) -> Result<(), Fail> {
    let (bytes, _sequence) = written_again(rt.alloc(), ROW)?;
    assert_eq!(rt; bytes.bytes(), ROW);
    Ok(())
}

#[test]
fn each_kind_is_read_and_written(rt: HostRuntime) -> Result<(), Fail> {
    let (bytes, _sequence) = written_again(rt.alloc(), ALL)?;
    assert_eq!(rt; bytes.bytes(), ALL);
    Ok(())
}

fn fits_in(alloc: Global, bytes: &[u8], limit: u32) -> Option<bool> {
    match read_batch(alloc, bytes, 9) {
        Ok(batch) => Some(fits(&batch, limit)),
        Err(_) => None,
    }
}

#[test]
fn a_row_fits_in_its_bytes(rt: HostRuntime) -> Result<(), Fail> {
    assert_eq!(rt; fits_in(rt.alloc(), ROW, 47), Some(true));
    assert_eq!(rt; fits_in(rt.alloc(), ROW, 46), Some(false));
    Ok(())
}

fn place_of_fault(alloc: Global, bytes: &[u8]) -> Option<u64> {
    match read_batch(alloc, bytes, 9) {
        Err(BatchRefusal::BadEntry { at }) => Some(at),
        _ => None,
    }
}

#[test]
fn the_first_bad_field_is_named(rt: HostRuntime) -> Result<(), Fail> {
    let alloc = rt.alloc();
    // No entry.
    assert_eq!(rt; place_of_fault(alloc, b"\0\0\0\0"), Some(0));
    // Cut within the moment, within the bytes of the name, and before the retention.
    assert_eq!(rt; place_of_fault(alloc, &CREATE[..8]), Some(4));
    assert_eq!(rt; place_of_fault(alloc, &CREATE[..20]), Some(15));
    assert_eq!(rt; place_of_fault(alloc, &CREATE[..51]), Some(51));
    // A byte behind the last entry.
    let mut longer = Vec::from_slice(alloc, ROW)?;
    longer.push(0)?;
    assert_eq!(rt; place_of_fault(alloc, &longer), Some(ROW.len() as u64));
    Ok(())
}

// The place of the fault in these bytes behind those of `ALTER`, which are 25.
fn place_in_rule(alloc: Global, rule: &[u8]) -> Result<Option<u64>, Fail> {
    let mut bytes = Vec::from_slice(alloc, ALTER)?;
    bytes.extend_from_slice(rule)?;
    Ok(place_of_fault(alloc, &bytes))
}

#[test]
fn the_limits_of_rules_are_kept(rt: HostRuntime) -> Result<(), Fail> {
    let alloc = rt.alloc();
    // An unknown tag, an intersection without rules, and an age of 999.
    assert_eq!(rt; place_in_rule(alloc, b"\x05")?, Some(25));
    assert_eq!(rt; place_in_rule(alloc, b"\x03\0")?, Some(26));
    assert_eq!(rt;
        place_in_rule(alloc, b"\x02\0\0\0\0\0\0\x03\xE7")?,
        Some(26)
    );
    // A list of 32 rules; and one of 30, the last of which has two of its own.
    assert_eq!(rt; place_in_rule(alloc, b"\x04\x20")?, Some(26));
    let mut nodes = Vec::from_slice(alloc, b"\x04\x1E")?;
    for _ in 0..29 {
        nodes.extend_from_slice(b"\x01\0\0\0\x01")?;
    }
    nodes.extend_from_slice(b"\x03\x02")?;
    assert_eq!(rt; place_in_rule(alloc, &nodes)?, Some(25 + 2 + 29 * 5 + 1));
    // A ninth level.
    let levels = b"\x03\x01\x04\x01\x03\x01\x04\x01\x03\x01\x04\x01\x03\x01\x04\x01\x01\0\0\0\x01";
    assert_eq!(rt; place_in_rule(alloc, levels)?, Some(25 + 16));
    // The eighth is read, and nothing else of the entry is missing.
    assert_eq!(rt; place_in_rule(alloc, &levels[2..])?, None);
    Ok(())
}

#[test]
fn retentions_are_days(rt: HostRuntime) -> Result<(), Fail> {
    let alloc = rt.alloc();
    // A day, and a microsecond less; seven days and a microsecond.
    let day = b"\0\0\0\x01\0\0\0\0\0\0\0\x07\x06\0\0\0\0\0\0\0\x01\0\0\0\x14\x1D\xD7\x60\0";
    assert_eq!(rt; place_of_fault(alloc, day), None);
    let less = b"\0\0\0\x01\0\0\0\0\0\0\0\x07\x06\0\0\0\0\0\0\0\x01\0\0\0\x14\x1D\xD7\x5F\xFF";
    assert_eq!(rt; place_of_fault(alloc, less), Some(21));
    let week = b"\0\0\0\x01\0\0\0\0\0\0\0\x07\x06\0\0\0\0\0\0\0\x01\0\0\0\x8C\xD0\xE3\xA0\x01";
    assert_eq!(rt; place_of_fault(alloc, week), Some(21));
    // An entry of no kind.
    assert_eq!(rt;
        place_of_fault(alloc, b"\0\0\0\x01\0\0\0\0\0\0\0\x07\x08"),
        Some(12)
    );
    Ok(())
}
