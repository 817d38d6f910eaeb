//! Members of each kind, by their JSON names and by their original names.
use super::*;
use bt_json::{Scratch, read};
use bt_walk::{Many, Shape, faults};
use std::test::Fail;

#[test]
fn members_are_read_by_either_name(rt: HostRuntime) -> Result<(), Fail> {
    let alloc = rt.alloc();
    let mut scratch = Scratch::new(alloc);
    let value = read(
        alloc,
        r#"{"tableName":"t","row_key":"cg==","timestampMicros":"-1","retention_period":"1.5s","rules":[null],"columnFamilies":{"f":{}},"drop":true,"maxNumVersions":7,"familyName":null}"#,
        &mut scratch,
    )?;
    assert_eq!(rt; text_at(&value, names::TABLE_NAME), "t");
    assert_eq!(rt; text_at(&value, names::FAMILY_NAME), "");
    assert_eq!(rt;
        text_bytes_at(alloc, &value, names::TABLE_NAME)?.bytes(),
        b"t".as_slice()
    );
    assert_eq!(rt;
        bytes_at(alloc, &value, names::ROW_KEY)?.bytes(),
        b"r".as_slice()
    );
    assert_eq!(rt; int64_at(alloc, &value, names::TIMESTAMP_MICROS)?, -1);
    assert_eq!(rt;
        micros_at(alloc, &value, names::RETENTION_PERIOD)?,
        1_500_000
    );
    assert_eq!(rt; items_at(&value, names::RULES).len(), 1);
    assert!(rt; members_at(&value, names::COLUMN_FAMILIES).is_some());
    assert!(rt; value_at(&value, names::DROP).is_some_and(|drop| is_yes(drop)));
    let count = value_at(&value, names::MAX_NUM_VERSIONS).ok_or("a count")?;
    assert_eq!(rt; int32_or_zero(alloc, count)?, 7);
    Ok(())
}

#[test]
fn a_member_that_is_not_known_is_a_fault(rt: HostRuntime) -> Result<(), Fail> {
    let alloc = rt.alloc();
    let mut scratch = Scratch::new(alloc);
    let value = read(alloc, r#"{"rowKey":"","zoo":1}"#, &mut scratch)?;
    let shape = Shape::Of(kinds::MUTATE_ROW);
    let found = faults(&Messages, Many::One, shape, "request", &value);
    assert_eq!(rt; found.bad, Some("zoo"));
    Ok(())
}
