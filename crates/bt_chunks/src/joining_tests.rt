use crate::{Chunk, ChunkRefusal, Joiner};
use bt_base::Blob;
use std::alloc::Global;
use std::test::Fail;

// A whole cell of column q of family f, which begins a row.
fn first(alloc: Global, key: &[u8], commit: bool) -> Result<Chunk, Fail> {
    Ok(Chunk {
        key: Blob::new(alloc, key)?,
        family: Some(Blob::new(alloc, b"f")?),
        qualifier: Some(Blob::new(alloc, b"q")?),
        at: 2000,
        label: None,
        value: Blob::new(alloc, b"new")?,
        size: 0,
        commit,
    })
}

// A chunk behind another of its row, of no column of its own.
fn later(alloc: Global, at: i64, value: &[u8], size: u32, commit: bool) -> Result<Chunk, Fail> {
    Ok(Chunk {
        key: Blob::new(alloc, b"")?,
        family: None,
        qualifier: None,
        at,
        label: None,
        value: Blob::new(alloc, value)?,
        size,
        commit,
    })
}

#[test]
fn cells_of_one_column_make_a_row(rt: HostRuntime) -> Result<(), Fail> {
    let alloc = rt.alloc();
    let mut joiner = Joiner::new(alloc);
    let none = joiner
        .push(alloc, first(alloc, b"r", false)?)
        .ok()
        .ok_or("first")?;
    assert!(rt; none.is_none());
    let row = joiner
        .push(alloc, later(alloc, 1000, b"old", 0, true)?)
        .ok()
        .ok_or("later")?;
    let row = row.ok_or("row")?;
    assert_eq!(rt; row.key.bytes(), b"r".as_slice());
    assert_eq!(rt; row.cells.items().len(), 2);
    let last = row.cells.items().last().ok_or("cell")?;
    assert_eq!(rt; last.qualifier.bytes(), b"q".as_slice());
    assert_eq!(rt; last.value.bytes(), b"old".as_slice());
    Ok(())
}

#[test]
fn pieces_make_a_value(rt: HostRuntime) -> Result<(), Fail> {
    let alloc = rt.alloc();
    let mut joiner = Joiner::new(alloc);
    let mut begun = first(alloc, b"r", false)?;
    begun.size = 6;
    let none = joiner.push(alloc, begun).ok().ok_or("first")?;
    assert!(rt; none.is_none());
    let none = joiner
        .push(alloc, later(alloc, 0, b"er", 6, false)?)
        .ok()
        .ok_or("middle")?;
    assert!(rt; none.is_none());
    let row = joiner
        .push(alloc, later(alloc, 0, b"s", 0, true)?)
        .ok()
        .ok_or("last")?;
    let row = row.ok_or("row")?;
    let cell = row.cells.items().last().ok_or("cell")?;
    assert_eq!(rt; cell.value.bytes(), b"newers".as_slice());
    Ok(())
}

#[test]
fn behind_a_bad_chunk_each_is_bad(rt: HostRuntime) -> Result<(), Fail> {
    let alloc = rt.alloc();
    let mut joiner = Joiner::new(alloc);
    let mut bad = first(alloc, b"r", true)?;
    bad.qualifier = None;
    let refused = joiner.push(alloc, bad);
    assert!(rt; matches!(refused, Err(ChunkRefusal::BadChunk { index: 0 })));
    let refused = joiner.push(alloc, first(alloc, b"r", true)?);
    assert!(rt; matches!(refused, Err(ChunkRefusal::BadChunk { index: 1 })));
    Ok(())
}

#[test]
fn a_key_comes_once(rt: HostRuntime) -> Result<(), Fail> {
    let alloc = rt.alloc();
    let mut joiner = Joiner::new(alloc);
    let row = joiner
        .push(alloc, first(alloc, b"r", true)?)
        .ok()
        .ok_or("first")?;
    assert!(rt; row.is_some());
    let refused = joiner.push(alloc, first(alloc, b"r", true)?);
    assert!(rt; matches!(refused, Err(ChunkRefusal::BadChunk { index: 1 })));
    Ok(())
}
