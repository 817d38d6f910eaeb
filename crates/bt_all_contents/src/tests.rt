ghost use Rattle.std.specs.Prelude.{IfOk};
ghost use Rattle.bt_all_contents.specs.AllContents.{AreShortChanges};
ghost use Rattle.bt_row.specs.Sound.{HaveShort};

use crate::{AllContents, RowChange, RowChangeList};
use bt_base::Blob;
use bt_contents::Contents;
use bt_types::{
    Cell, FamilyName, KeyList, Micros, Mutation, MutationList, NoReads, Qualifier, RowKey,
    RowRange, Rows,
};
use std::alloc::Global;
use std::test::Fail;

fn family(alloc: Global, text: &str) -> Result<FamilyName, Fail> {
    Ok(FamilyName::new(alloc, text)?.ok_or("family")?)
}

fn qualifier(alloc: Global, byte: u8) -> Result<Qualifier, Fail> {
    Ok(Qualifier::new(alloc, &[byte])?.ok_or("qualifier")?)
}

// Sets a cell whose qualifier and value have one byte.
fn set(alloc: Global, column: (&str, u8), at: i64, value: u8) -> Result<MutationList, Fail>
    ensures { IfOk result (λ list. HaveShort list) }
{
    let mut mutations = MutationList::new(alloc);
    mutations.push(Mutation::SetCell {
        family: family(alloc, column.0)?,
        qualifier: qualifier(alloc, column.1)?,
        at: Micros::new(at).ok_or("timestamp")?,
        value: Blob::new(alloc, &[value])?,
    })?;
    Ok(mutations)
}

fn delete_row(alloc: Global) -> Result<MutationList, Fail>
    ensures { IfOk result (λ list. HaveShort list) }
{
    let mut mutations = MutationList::new(alloc);
    mutations.push(Mutation::DeleteRow)?;
    Ok(mutations)
}

fn range(alloc: Global, start: &[u8], end: Option<&[u8]>) -> Result<RowRange, Fail> {
    let end = match end {
        Some(end) => Some(Blob::new(alloc, end)?),
        None => None,
    };
    let start = Blob::new(alloc, start)?;
    Ok(RowRange { start, end })
}

fn value_is(cell: Option<Cell>, value: u8) -> bool {
    match cell {
        Some(cell) => cell.value.bytes() == [value].as_slice(),
        None => false,
    }
}

// The values of the first row, a byte each.
fn first_row_is(alloc: Global, contents: &Contents, values: &[u8]) -> Result<bool, Fail> {
    let range = range(alloc, b"", None)?;
    let mut rows = contents.rows_in(alloc, &range);
    if rows.next_row(&mut NoReads)?.is_none() {
        return Ok(values.is_empty());
    }
    for value in values {
        if !value_is(rows.next_cell(&mut NoReads)?, *value) {
            return Ok(false);
        }
    }
    Ok(rows.next_cell(&mut NoReads)?.is_none())
}

// The keys, a byte each.
fn keys_are(keys: &KeyList, bytes: &[u8]) -> bool {
    let firsts = keys.items().iter().map(|key| key.bytes());
    keys.items().len() == bytes.len() && firsts.zip(bytes).all(|(k, b)| k == [*b].as_slice())
}

fn row_change(
    alloc: Global,
    incarnation: u64,
    key: &[u8],
    mutations: MutationList,
) -> Result<RowChange, Fail>
    requires { HaveShort mutations }
    ensures { IfOk result (λ change. HaveShort change.mutations) }
{
    let key = RowKey::new(alloc, key)?.ok_or("key")?;
    Ok(RowChange {
        incarnation,
        key,
        mutations,
    })
}

// Three rows of two tables, of which one is set, deleted and set anew.
fn three_rows(alloc: Global) -> Result<RowChangeList, Fail>
    ensures { IfOk result (λ changes. AreShortChanges changes) }
{
    let column = ("f", b'q');
    let mut changes = RowChangeList::new(alloc);
    changes.push(row_change(alloc, 1, b"a", set(alloc, column, 1000, b'1')?)?)?;
    changes.push(row_change(alloc, 2, b"a", set(alloc, column, 1000, b'2')?)?)?;
    changes.push(row_change(alloc, 1, b"a", delete_row(alloc)?)?)?;
    changes.push(row_change(alloc, 1, b"b", set(alloc, column, 1000, b'3')?)?)?;
    changes.push(row_change(alloc, 1, b"a", set(alloc, column, 2000, b'4')?)?)?;
    Ok(changes)
}

// Deletes the row of the second table, and one that is not there.
fn two_rows_gone(alloc: Global) -> Result<RowChangeList, Fail>
    ensures { IfOk result (λ changes. AreShortChanges changes) }
{
    let mut changes = RowChangeList::new(alloc);
    changes.push(row_change(alloc, 2, b"a", delete_row(alloc)?)?)?;
    changes.push(row_change(alloc, 3, b"a", delete_row(alloc)?)?)?;
    Ok(changes)
}

#[test]
fn rows_of_several_tables_change_together(rt: HostRuntime) -> Result<(), Fail> {
    let alloc = rt.alloc();
    let mut all = AllContents::new(alloc);
    all.change_all(alloc, three_rows(alloc)?)?;
    let range = range(alloc, b"", None)?;
    let rows = all.rows_of(1).ok_or("rows")?;
    assert!(rt; keys_are(&rows.keys_in(alloc, &range)?, b"ab"));
    assert!(rt; first_row_is(alloc, rows, b"4")?);
    assert!(rt; first_row_is(alloc, all.rows_of(2).ok_or("rows")?, b"2")?);
    all.change_all(alloc, two_rows_gone(alloc)?)?;
    assert!(rt; all.rows_of(2).is_none());
    assert!(rt; all.rows_of(3).is_none());
    all.forget(1);
    assert!(rt; all.rows_of(1).is_none());
    Ok(())
}
