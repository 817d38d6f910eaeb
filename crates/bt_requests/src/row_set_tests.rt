//! Rows that a request lists, as they are read.
use crate::Request;
use crate::read_rows::read_rows;
use bt_json::{Scratch, read};
use bt_range::{AskedRange, Bound};
use std::test::Fail;

#[test]
fn keys_and_ranges_are_listed(rt: HostRuntime) -> Result<(), Fail> {
    let alloc = rt.alloc();
    let mut scratch = Scratch::new(alloc);
    let value = read(
        alloc,
        r#"{"tableName":"projects/p/instances/i/tables/t","rows":{"rowKeys":["cg==",""],"row_ranges":[{"startKeyClosed":"YQ==","endKeyOpen":"Yg=="},{"endKeyClosed":""},{}]},"rowsLimit":"2"}"#,
        &mut scratch,
    )?;
    let Some(
        Request::ReadRows {
            keys,
            ranges,
            rows_limit,
            ..
        },
    ) = read_rows(alloc, &value)?
    else {
        return Err(Fail::from("ReadRows"));
    };
    let [first, second] = keys.items() else {
        return Err(Fail::from("two keys"));
    };
    assert_eq!(rt; first.bytes(), b"r".as_slice());
    assert!(rt; second.bytes().is_empty());
    let [inner, empty, all] = ranges.items() else {
        return Err(Fail::from("three ranges"));
    };
    let AskedRange {
        start: Bound::Closed(start),
        end: Bound::Past(end),
    } = inner
    else {
        return Err(Fail::from("a closed start and an open end"));
    };
    assert_eq!(rt; start.bytes(), b"a".as_slice());
    assert_eq!(rt; end.bytes(), b"b".as_slice());
    let Bound::Closed(end) = &empty.end else {
        return Err(Fail::from("a closed end"));
    };
    assert!(rt; end.bytes().is_empty());
    assert!(rt;
        matches!(
            (&empty.start, &all.start, &all.end),
            (Bound::Unset, Bound::Unset, Bound::Unset)
        )
    );
    assert_eq!(rt; rows_limit, 2);
    Ok(())
}
