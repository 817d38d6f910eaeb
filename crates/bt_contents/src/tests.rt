ghost use Rattle.std.specs.Prelude.{IfOk};
ghost use Rattle.bt_row.specs.Sound.{HaveShort};

use crate::Contents;
use bt_base::Blob;
use bt_row::Row;
use bt_types::{
    Cell, FamilyName, KeyList, Micros, Mutation, MutationList, NoReads, Qualifier, RowKey,
    RowRange, Rows, SourceFault,
};
use std::alloc::Global;
use std::test::Fail;

fn family(alloc: Global, text: &str) -> Result<FamilyName, Fail> {
    Ok(FamilyName::new(alloc, text)?.ok_or("family")?)
}

fn qualifier(alloc: Global, byte: u8) -> Result<Qualifier, Fail> {
    Ok(Qualifier::new(alloc, &[byte])?.ok_or("qualifier")?)
}

// Sets a cell whose qualifier and value have one byte.
fn set(alloc: Global, column: (&str, u8), at: i64, value: u8) -> Result<MutationList, Fail>
    ensures { IfOk result (λ list. HaveShort list) }
{
    let mut mutations = MutationList::new(alloc);
    mutations.push(Mutation::SetCell {
        family: family(alloc, column.0)?,
        qualifier: qualifier(alloc, column.1)?,
        at: Micros::new(at).ok_or("timestamp")?,
        value: Blob::new(alloc, &[value])?,
    })?;
    Ok(mutations)
}

fn delete_column(
    alloc: Global,
    column: (&str, u8),
    start: u64,
    end: u64,
) -> Result<MutationList, Fail>
    ensures { IfOk result (λ list. HaveShort list) }
{
    let mut mutations = MutationList::new(alloc);
    mutations.push(Mutation::DeleteColumn {
        family: family(alloc, column.0)?,
        qualifier: qualifier(alloc, column.1)?,
        start,
        end,
    })?;
    Ok(mutations)
}

// Deletes a family, and then sets a cell of it.
fn family_anew(alloc: Global, column: (&str, u8), value: u8) -> Result<MutationList, Fail>
    ensures { IfOk result (λ list. HaveShort list) }
{
    let mut mutations = MutationList::new(alloc);
    mutations.push(Mutation::DeleteFamily {
        family: family(alloc, column.0)?,
    })?;
    mutations.append(set(alloc, column, 1000, value)?)?;
    Ok(mutations)
}

fn delete_row(alloc: Global) -> Result<MutationList, Fail>
    ensures { IfOk result (λ list. HaveShort list) }
{
    let mut mutations = MutationList::new(alloc);
    mutations.push(Mutation::DeleteRow)?;
    Ok(mutations)
}

// The mutations of the one list, and then those of the other.
fn then(mut first: MutationList, second: MutationList) -> Result<MutationList, Fail>
    requires first { HaveShort first }
    requires second { HaveShort second }
    ensures { IfOk result (λ list. HaveShort list) }
{
    first.append(second)?;
    Ok(first)
}

// The row that the mutations make is put at the key, where it has cells.
fn put(
    alloc: Global,
    contents: &mut Contents,
    key: &[u8],
    mutations: MutationList,
) -> Result<(), Fail>
    requires { HaveShort mutations }
{
    let key = RowKey::new(alloc, key)?.ok_or("key")?;
    let mut row = Row::new(alloc);
    row.apply(alloc, mutations)?;
    if !row.is_empty() {
        contents.put(key, row)?;
    }
    Ok(())
}

// Four rows, of which the second one has two cells.
fn four_rows(alloc: Global) -> Result<Contents, Fail> {
    let mut contents = Contents::new(alloc);
    let last = set(alloc, ("f", b'q'), 1000, b'5')?;
    put(alloc, &mut contents, b"d", last)?;
    let older = set(alloc, ("f", b'q'), 1000, b'3')?;
    let newer = set(alloc, ("f", b'q'), 2000, b'2')?;
    put(alloc, &mut contents, b"b", then(older, newer)?)?;
    let first = set(alloc, ("f", b'q'), 1000, b'1')?;
    put(alloc, &mut contents, b"a", first)?;
    let third = set(alloc, ("f", b'q'), 1000, b'4')?;
    put(alloc, &mut contents, b"c", third)?;
    Ok(contents)
}

fn range(alloc: Global, start: &[u8], end: Option<&[u8]>) -> Result<RowRange, Fail> {
    let end = match end {
        Some(end) => Some(Blob::new(alloc, end)?),
        None => None,
    };
    let start = Blob::new(alloc, start)?;
    Ok(RowRange { start, end })
}

fn first_key(
    alloc: Global,
    contents: &Contents,
    start: &[u8],
    end: Option<&[u8]>,
) -> Result<Option<RowKey>, Fail> {
    let range = range(alloc, start, end)?;
    let row = contents.rows_in(alloc, &range).next_row(&mut NoReads)?;
    Ok(row)
}

// Rows of any kind, asked through their trait.
fn next_key<R: Rows<NoReads>>(rows: &mut R) -> Result<Option<RowKey>, SourceFault> {
    rows.next_row(&mut NoReads)
}

fn key_is(row: Option<RowKey>, bytes: &[u8]) -> bool {
    match row {
        Some(key) => key.bytes() == bytes,
        None => false,
    }
}

fn value_is(cell: Option<Cell>, value: u8) -> bool {
    match cell {
        Some(cell) => cell.value.bytes() == [value].as_slice(),
        None => false,
    }
}

// The values of the first row, a byte each.
fn first_row_is(alloc: Global, contents: &Contents, values: &[u8]) -> Result<bool, Fail> {
    let range = range(alloc, b"", None)?;
    let mut rows = contents.rows_in(alloc, &range);
    if rows.next_row(&mut NoReads)?.is_none() {
        return Ok(values.is_empty());
    }
    for value in values {
        if !value_is(rows.next_cell(&mut NoReads)?, *value) {
            return Ok(false);
        }
    }
    Ok(rows.next_cell(&mut NoReads)?.is_none())
}

#[test]
fn a_range_has_its_rows_and_their_cells(rt: HostRuntime) -> Result<(), Fail> {
    let alloc = rt.alloc();
    let contents = four_rows(alloc)?;
    let range = range(alloc, b"b", Some(b"d"))?;
    let mut rows = contents.rows_in(alloc, &range);
    assert!(rt; key_is(next_key(&mut rows)?, b"b"));
    assert!(rt; value_is(rows.next_cell(&mut NoReads)?, b'2'));
    assert!(rt; value_is(rows.next_cell(&mut NoReads)?, b'3'));
    assert!(rt; rows.next_cell(&mut NoReads)?.is_none());
    assert!(rt; key_is(next_key(&mut rows)?, b"c"));
    assert!(rt; next_key(&mut rows)?.is_none());
    Ok(())
}

fn latest(
    alloc: Global,
    contents: &Contents,
    key: &[u8],
    column: (&str, u8),
) -> Result<Option<Cell>, Fail> {
    let key = RowKey::new(alloc, key)?.ok_or("key")?;
    let family = family(alloc, column.0)?;
    let qualifier = qualifier(alloc, column.1)?;
    Ok(contents.latest(alloc, &key, family, qualifier)?)
}

#[test]
fn the_latest_cell_of_a_column_is_found(rt: HostRuntime) -> Result<(), Fail> {
    let alloc = rt.alloc();
    let contents = four_rows(alloc)?;
    assert!(rt; value_is(latest(alloc, &contents, b"b", ("f", b'q'))?, b'2'));
    assert!(rt; latest(alloc, &contents, b"b", ("f", b'p'))?.is_none());
    assert!(rt; latest(alloc, &contents, b"bb", ("f", b'q'))?.is_none());
    Ok(())
}

#[test]
fn a_row_is_found_alone(rt: HostRuntime) -> Result<(), Fail> {
    let alloc = rt.alloc();
    let contents = four_rows(alloc)?;
    let key = RowKey::new(alloc, b"b")?.ok_or("key")?;
    let mut row = contents.row(alloc, &key);
    assert!(rt; key_is(next_key(&mut row)?, b"b"));
    assert!(rt; value_is(row.next_cell(&mut NoReads)?, b'2'));
    assert!(rt; next_key(&mut row)?.is_none());
    let key = RowKey::new(alloc, b"bb")?.ok_or("key")?;
    assert!(rt; next_key(&mut contents.row(alloc, &key))?.is_none());
    Ok(())
}

// The keys, a byte each.
fn keys_are(keys: &KeyList, bytes: &[u8]) -> bool {
    let firsts = keys.items().iter().map(|key| key.bytes());
    keys.items().len() == bytes.len() && firsts.zip(bytes).all(|(k, b)| k == [*b].as_slice())
}

#[test]
fn keys_are_found_by_range_and_family(rt: HostRuntime) -> Result<(), Fail> {
    let alloc = rt.alloc();
    let mut contents = four_rows(alloc)?;
    let third = then(
        set(alloc, ("f", b'q'), 1000, b'4')?,
        set(alloc, ("g", b'q'), 1000, b'6')?,
    )?;
    put(alloc, &mut contents, b"c", third)?;
    let first = then(
        set(alloc, ("f", b'q'), 1000, b'1')?,
        set(alloc, ("g", b'q'), 1000, b'7')?,
    )?;
    put(alloc, &mut contents, b"a", first)?;
    let range = range(alloc, b"b", Some(b"d"))?;
    assert!(rt; keys_are(&contents.keys_in(alloc, &range)?, b"bc"));
    let family = family(alloc, "g")?;
    assert!(rt; keys_are(&contents.keys_with(alloc, &family)?, b"ac"));
    Ok(())
}

#[test]
fn a_bound_may_be_no_key(rt: HostRuntime) -> Result<(), Fail> {
    let alloc = rt.alloc();
    let contents = four_rows(alloc)?;
    let long = [b'b'; 5000];
    assert!(rt; key_is(first_key(alloc, &contents, b"", None)?, b"a"));
    assert!(rt; key_is(first_key(alloc, &contents, &long, None)?, b"c"));
    assert!(rt; first_key(alloc, &contents, b"bb", Some(&long))?.is_none());
    assert!(rt; first_key(alloc, &contents, b"c", Some(b"b"))?.is_none());
    assert!(rt; first_key(alloc, &contents, b"", Some(b""))?.is_none());
    Ok(())
}

// Six cells, of which one is set twice.
fn six_cells(alloc: Global) -> Result<MutationList, Fail>
    ensures { IfOk result (λ list. HaveShort list) }
{
    let mutations = set(alloc, ("f0", b'q'), 1000, b'6')?;
    let mutations = then(mutations, set(alloc, ("f", b'b'), 2000, b'5')?)?;
    let mutations = then(mutations, set(alloc, ("f", b'a'), 1000, b'4')?)?;
    let mutations = then(mutations, set(alloc, ("f", b'a'), 3000, b'2')?)?;
    let mutations = then(mutations, set(alloc, ("f", b'a'), 2000, b'9')?)?;
    let mutations = then(mutations, set(alloc, ("f", b'a'), 2000, b'3')?)?;
    then(mutations, set(alloc, ("e", b'q'), 1000, b'1')?)
}

// The same, and then all but four of them go.
fn four_cells(alloc: Global) -> Result<MutationList, Fail>
    ensures { IfOk result (λ list. HaveShort list) }
{
    let mutations = six_cells(alloc)?;
    then(mutations, delete_column(alloc, ("f", b'a'), 1000, 3000)?)
}

// The same, and then all but three of them go.
fn three_cells(alloc: Global) -> Result<MutationList, Fail>
    ensures { IfOk result (λ list. HaveShort list) }
{
    let mutations = four_cells(alloc)?;
    then(mutations, delete_column(alloc, ("f", b'b'), 2000, 0)?)
}

#[test]
fn deletions_take_what_they_name(rt: HostRuntime) -> Result<(), Fail> {
    let alloc = rt.alloc();
    let mut contents = Contents::new(alloc);
    put(alloc, &mut contents, b"r", six_cells(alloc)?)?;
    assert!(rt; first_row_is(alloc, &contents, b"123456")?);
    put(alloc, &mut contents, b"r", four_cells(alloc)?)?;
    assert!(rt; first_row_is(alloc, &contents, b"1256")?);
    put(alloc, &mut contents, b"r", three_cells(alloc)?)?;
    assert!(rt; first_row_is(alloc, &contents, b"126")?);
    let anew = family_anew(alloc, ("f", b'c'), b'7')?;
    let mutations = then(three_cells(alloc)?, anew)?;
    put(alloc, &mut contents, b"r", mutations)?;
    assert!(rt; first_row_is(alloc, &contents, b"176")?);
    Ok(())
}

#[test]
fn a_row_goes_with_its_last_cell(rt: HostRuntime) -> Result<(), Fail> {
    let alloc = rt.alloc();
    let mut contents = Contents::new(alloc);
    let cell = set(alloc, ("f", b'q'), 1000, b'1')?;
    put(alloc, &mut contents, b"r", then(cell, delete_row(alloc)?)?)?;
    assert!(rt; contents.is_empty());
    let cell = set(alloc, ("f", b'q'), 1000, b'1')?;
    let deletion = delete_column(alloc, ("f", b'q'), 0, 0)?;
    put(alloc, &mut contents, b"r", then(cell, deletion)?)?;
    assert!(rt; contents.is_empty());
    Ok(())
}

#[test]
fn a_row_is_taken_out(rt: HostRuntime) -> Result<(), Fail> {
    let alloc = rt.alloc();
    let mut contents = Contents::new(alloc);
    let cell = set(alloc, ("f", b'q'), 1000, b'1')?;
    put(alloc, &mut contents, b"r", cell)?;
    assert!(rt; contents.has_family(&family(alloc, "f")?));
    assert!(rt; !contents.has_family(&family(alloc, "e")?));
    let key = RowKey::new(alloc, b"r")?.ok_or("key")?;
    assert!(rt; contents.get(&key).is_some());
    contents.remove(&key);
    assert!(rt; contents.get(&key).is_none());
    assert!(rt; contents.is_empty());
    Ok(())
}
