//! The lines of responses, as written by hand.
use crate::{EntryStatus, EntryStatusList, Response, response_line, served_lines};
use bt_base::Blob;
use bt_chunks::{Chunk, ChunkList};
use bt_types::{Cell, CellList, FamilyName, Label, Micros, Qualifier, RowKey, Text};
use std::alloc::Global;
use std::test::Fail;

// A further piece of a value.
fn piece(alloc: Global, value: &[u8]) -> Result<Chunk, Fail> {
    Ok(Chunk {
        key: Blob::new(alloc, b"")?,
        family: None,
        qualifier: None,
        at: 0,
        label: None,
        value: Blob::new(alloc, value)?,
        size: 0,
        commit: false,
    })
}

fn first(alloc: Global, family: &[u8], qualifier: &[u8], value: &[u8]) -> Result<Chunk, Fail> {
    let mut chunk = piece(alloc, value)?;
    chunk.key = Blob::new(alloc, b"r")?;
    chunk.family = Some(Blob::new(alloc, family)?);
    chunk.qualifier = Some(Blob::new(alloc, qualifier)?);
    Ok(chunk)
}

#[test]
fn chunks_are_printed(rt: HostRuntime) -> Result<(), Fail> {
    let alloc = rt.alloc();
    let mut chunks = ChunkList::new(alloc);
    let mut labelled = first(alloc, b"A", b"", b"w")?;
    labelled.at = 1000;
    labelled.label = Label::new(alloc, "foo")?;
    labelled.size = 2;
    chunks.push(labelled)?;
    let mut last = piece(alloc, b"\0")?;
    last.commit = true;
    chunks.push(last)?;
    let line = response_line(alloc, &Response::ReadRows(chunks))?;
    assert_eq!(rt;
        line.bytes(),
        br#"{"response":{"chunks":[{"familyName":"A","labels":["foo"],"qualifier":"","rowKey":"cg==","timestampMicros":"1000","value":"dw==","valueSize":2},{"commitRow":true,"value":"AA=="}]}}
"#
            .as_slice()
    );
    Ok(())
}

// A cell of column q of family f that is the number 1.
fn counted(alloc: Global) -> Result<Cell, Fail> {
    Ok(Cell::plain(
        FamilyName::new(alloc, "f")?.ok_or("family")?,
        Qualifier::new(alloc, b"q")?.ok_or("qualifier")?,
        Micros::new(5_000_000).ok_or("time")?,
        Blob::new(alloc, b"\0\0\0\0\0\0\0\x01")?,
    ))
}

#[test]
fn a_row_is_printed(rt: HostRuntime) -> Result<(), Fail> {
    let alloc = rt.alloc();
    let key = RowKey::new(alloc, b"r")?.ok_or("key")?;
    let mut cells = CellList::new(alloc);
    cells.push(counted(alloc)?)?;
    let line = response_line(alloc, &Response::ReadModifyWriteRow { key, cells })?;
    assert_eq!(rt;
        line.bytes(),
        br#"{"response":{"row":{"families":[{"columns":[{"cells":[{"timestampMicros":"5000000","value":"AAAAAAAAAAE="}],"qualifier":"cQ=="}],"name":"f"}],"key":"cg=="}}}
"#
            .as_slice()
    );
    Ok(())
}

#[test]
fn a_match_is_printed(rt: HostRuntime) -> Result<(), Fail> {
    let alloc = rt.alloc();
    let held = response_line(alloc, &Response::CheckAndMutateRow(true))?;
    assert_eq!(rt;
        held.bytes(),
        b"{\"response\":{\"predicateMatched\":true}}\n".as_slice()
    );
    let failed = response_line(alloc, &Response::CheckAndMutateRow(false))?;
    assert_eq!(rt; failed.bytes(), b"{\"response\":{}}\n".as_slice());
    Ok(())
}

// What became of an entry.
fn status(alloc: Global, code: u8, text: &str) -> Result<EntryStatus, Fail> {
    Ok(EntryStatus {
        code,
        text: Text::new(alloc, text)?,
    })
}

#[test]
fn statuses_are_printed(rt: HostRuntime) -> Result<(), Fail> {
    let alloc = rt.alloc();
    let mut statuses = EntryStatusList::new(alloc);
    statuses.push(status(alloc, 0, "")?)?;
    statuses.push(status(alloc, 0, "")?)?;
    statuses.push(status(alloc, 5, "family not found")?)?;
    let lines = served_lines(alloc, &Response::MutateRows(statuses))?;
    assert_eq!(rt;
        lines.bytes(),
        br#"{"response":{"entries":[{"status":{}},{"index":"1","status":{}},{"index":"2","status":{"code":5,"message":"family not found"}}]}}
{"status":{}}
"#
            .as_slice()
    );
    Ok(())
}

#[test]
fn no_statuses_are_printed(rt: HostRuntime) -> Result<(), Fail> {
    let alloc = rt.alloc();
    let line = response_line(alloc, &Response::MutateRows(EntryStatusList::new(alloc)))?;
    assert_eq!(rt; line.bytes(), b"{\"response\":{}}\n".as_slice());
    Ok(())
}
