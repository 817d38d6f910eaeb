//! Lines of refusals, as written by hand.
use crate::{Refusal, bad_field_line, unsupported_line};
use std::test::Fail;

#[test]
fn refusals_have_their_codes_and_texts(rt: HostRuntime) {
    let lines = [
        (
            Refusal::NotJson,
            r#"{"status":{"code":3,"message":"not json"}}"#,
        ),
        (
            Refusal::NotBuilt,
            r#"{"status":{"code":12,"message":"not built"}}"#,
        ),
        (
            Refusal::TableNotFound,
            r#"{"status":{"code":5,"message":"table not found"}}"#,
        ),
        (
            Refusal::TableExists,
            r#"{"status":{"code":6,"message":"table exists"}}"#,
        ),
        (
            Refusal::NegativeRowsLimit,
            r#"{"status":{"code":3,"message":"negative rowsLimit"}}"#,
        ),
        (
            Refusal::TooManyTables,
            r#"{"status":{"code":9,"message":"too many tables"}}"#,
        ),
        (
            Refusal::IncrementOutOfRange,
            r#"{"status":{"code":9,"message":"increment out of range"}}"#,
        ),
        (
            Refusal::OutOfMemory,
            r#"{"status":{"code":8,"message":"out of memory"}}"#,
        ),
        (
            Refusal::DiskFailed,
            r#"{"status":{"code":14,"message":"disk failed"}}"#,
        ),
    ];
    for (refusal, line) in lines {
        let printed = refusal.line();
        assert_eq!(rt; printed.strip_suffix(b"\n"), Some(line.as_bytes()));
    }
}

#[test]
fn members_at_fault_are_named(rt: HostRuntime) -> Result<(), Fail> {
    let alloc = rt.alloc();
    let unsupported = unsupported_line(alloc, b"gcRule")?;
    assert_eq!(rt;
        unsupported.bytes(),
        b"{\"status\":{\"code\":12,\"message\":\"unsupported gcRule\"}}\n".as_slice()
    );
    let bad_field = bad_field_line(alloc, b"a\"\xff")?;
    assert_eq!(rt;
        bad_field.bytes(),
        "{\"status\":{\"code\":3,\"message\":\"bad field a\\\"\u{fffd}\"}}\n".as_bytes()
    );
    Ok(())
}
