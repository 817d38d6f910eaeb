//! Requests, as they are read.
use super::*;
use bt_json::Scratch;
use bt_mutation::AskedMutation;
use bt_rmw::Action;
use std::alloc::Global;
use std::test::Fail;

fn asked(alloc: Global, line: &str) -> Result<Request, Fail> {
    let mut scratch = Scratch::new(alloc);
    let (method, object) = read_envelope(alloc, line.as_bytes(), &mut scratch)?;
    Ok(read_request(alloc, method, &object)?)
}

#[test]
fn a_row_is_mutated(rt: HostRuntime) -> Result<(), Fail> {
    let line =
        r#"{"method":"MutateRow","request":{"tableName":"projects/p/instances/i/tables/t","rowKey":"cg","mutations":[{"setCell":{"familyName":"f","column_qualifier":"cQ==","timestampMicros":"-1","value":"dg=="}},{}]}}"#;
    let Request::MutateRow { key, mutations, .. } = asked(rt.alloc(), line)? else {
        return Err(Fail::from("MutateRow"));
    };
    assert_eq!(rt; key.bytes(), b"r".as_slice());
    let [set, AskedMutation::Missing] = mutations.items() else {
        return Err(Fail::from("two mutations"));
    };
    let AskedMutation::SetCell {
        family,
        qualifier,
        at,
        value,
    } = set
    else {
        return Err(Fail::from("a cell"));
    };
    assert_eq!(rt; family.bytes(), b"f".as_slice());
    assert_eq!(rt; qualifier.bytes(), b"q".as_slice());
    assert_eq!(rt; *at, -1);
    assert_eq!(rt; value.bytes(), b"v".as_slice());
    Ok(())
}

#[test]
fn an_amount_and_an_empty_value_are_actions(rt: HostRuntime) -> Result<(), Fail> {
    let line =
        r#"{"method":"ReadModifyWriteRow","request":{"tableName":"projects/p/instances/i/tables/t","rules":[{"incrementAmount":"1"},{"append_value":""},{}]}}"#;
    let Request::ReadModifyWriteRow { rules, .. } = asked(rt.alloc(), line)? else {
        return Err(Fail::from("ReadModifyWriteRow"));
    };
    let [increment, append, neither] = rules.items() else {
        return Err(Fail::from("three rules"));
    };
    assert!(rt; matches!(increment.action, Some(Action::Increment(1))));
    let Some(Action::Append(value)) = &append.action else {
        return Err(Fail::from("a value to append"));
    };
    assert!(rt; value.bytes().is_empty());
    assert!(rt; neither.action.is_none());
    Ok(())
}

#[test]
fn a_line_without_a_request_has_an_empty_one(rt: HostRuntime) -> Result<(), Fail> {
    let mut scratch = Scratch::new(rt.alloc());
    let line = br#"{"method":"GetTable"}"#;
    let (method, object) = read_envelope(rt.alloc(), line, &mut scratch)?;
    assert_eq!(rt; method, Method::GetTable);
    assert!(rt; object.value.is_object());
    Ok(())
}
