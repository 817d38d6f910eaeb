//! Answers the lines of standard input as one connection, over tables that are kept in memory alone.
#![tactic(auto)]

use bt_base::{Blob, BlobList, OutOfMemory};
use bt_outside::{ListClock, MemoryDisk, MemoryLinks, MemoryPrint, PieceLists, Readings};
use bt_top::{Exit, bigtable};
use bt_types::{Text, TextList};
use std::alloc::Global;
use std::io::{Read, Write};
use std::process::ExitCode;

fn words(alloc: Global) -> Result<TextList, OutOfMemory> {
    let mut words = TextList::new(alloc);
    words.push(Text::new(alloc, "run")?)?;
    words.push(Text::new(alloc, "data")?)?;
    Ok(words)
}

// What came of serving these bytes, with a clock that stands still.
fn served(alloc: Global, input: &[u8]) -> Result<(Exit, MemoryLinks), OutOfMemory> {
    let mut pieces = BlobList::new(alloc);
    pieces.push(Blob::new(alloc, input)?)?;
    let mut connections = PieceLists::new(alloc);
    connections.push(pieces)?;
    let mut links = MemoryLinks::new(alloc, connections);
    let mut readings = Readings::new(alloc);
    readings.push(5_000_000)?;
    let mut clock = ListClock::new(readings);
    let mut disk = MemoryDisk::new(alloc);
    let mut screen = MemoryPrint::new(alloc);
    let words = words(alloc)?;
    let exit = bigtable(
        alloc,
        &words,
        &mut disk,
        &mut links,
        &mut clock,
        &mut screen,
    );
    Ok((exit, links))
}

fn main(rt: HostRuntime) -> ExitCode {
    let alloc = rt.alloc();
    let mut input = Vec::new(alloc);
    if rt.stdin().read_to_end(&mut input).is_err() {
        return ExitCode::from(1);
    }
    let Ok((Exit::Done, links)) = served(alloc, input.as_slice()) else {
        return ExitCode::from(1);
    };
    match rt.stdout().write_all(links.written(0)) {
        Ok(()) => ExitCode::from(0),
        Err(_) => ExitCode::from(1),
    }
}
