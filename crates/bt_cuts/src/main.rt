//! Serves the bytes of standard input cut in every way, and prints the replies where they are the
//! same each time.
#![tactic(auto)]

use bt_base::{Blob, BlobList, OutOfMemory};
use bt_outside::{ListClock, MemoryDisk, MemoryLinks, MemoryPrint, PieceLists, Readings};
use bt_top::{Exit, bigtable};
use bt_types::{Text, TextList};
use std::alloc::Global;
use std::io::{Read, Write};
use std::process::ExitCode;

fn words(alloc: Global) -> Result<TextList, OutOfMemory> {
    let mut words = TextList::new(alloc);
    words.push(Text::new(alloc, "run")?)?;
    words.push(Text::new(alloc, "data")?)?;
    Ok(words)
}

// The links after one connection with these pieces was served.
fn served(alloc: Global, pieces: BlobList) -> Result<(Exit, MemoryLinks), OutOfMemory> {
    let mut connections = PieceLists::new(alloc);
    connections.push(pieces)?;
    let mut links = MemoryLinks::new(alloc, connections);
    let mut readings = Readings::new(alloc);
    readings.push(5_000_000)?;
    let mut clock = ListClock::new(readings);
    let mut disk = MemoryDisk::new(alloc);
    let mut screen = MemoryPrint::new(alloc);
    let words = words(alloc)?;
    let exit = bigtable(
        alloc,
        &words,
        &mut disk,
        &mut links,
        &mut clock,
        &mut screen,
    );
    Ok((exit, links))
}

fn halves(alloc: Global, front: &[u8], back: &[u8]) -> Result<BlobList, OutOfMemory> {
    let mut pieces = BlobList::new(alloc);
    pieces.push(Blob::new(alloc, front)?)?;
    pieces.push(Blob::new(alloc, back)?)?;
    Ok(pieces)
}

fn single_bytes(alloc: Global, input: &[u8]) -> Result<BlobList, OutOfMemory> {
    let mut pieces = BlobList::new(alloc);
    for byte in input {
        pieces.push(Blob::new(alloc, &[*byte])?)?;
    }
    Ok(pieces)
}

// Whether these pieces are answered by these replies.
fn is_answered(alloc: Global, pieces: BlobList, replies: &[u8]) -> Result<bool, OutOfMemory> {
    let (exit, links) = served(alloc, pieces)?;
    Ok(exit == Exit::Done && links.written(0) == replies)
}

// How many ways of cutting the input are answered otherwise than by these replies.
fn differing(alloc: Global, input: &[u8], replies: &[u8]) -> Result<u64, OutOfMemory> {
    let mut count = 0u64;
    for at in 0..input.len() {
        let pieces = halves(alloc, &input[..at], &input[at..])?;
        if !is_answered(alloc, pieces, replies)? {
            count = count.saturating_add(1);
        }
    }
    let pieces = single_bytes(alloc, input)?;
    if !is_answered(alloc, pieces, replies)? {
        count = count.saturating_add(1);
    }
    Ok(count)
}

fn main(rt: HostRuntime) -> ExitCode {
    let alloc = rt.alloc();
    let mut input = Vec::new(alloc);
    if rt.stdin().read_to_end(&mut input).is_err() {
        return ExitCode::from(1);
    }
    let Ok(whole) = halves(alloc, &input, b"") else {
        return ExitCode::from(3);
    };
    let Ok((_, links)) = served(alloc, whole) else {
        return ExitCode::from(3);
    };
    match differing(alloc, &input, links.written(0)) {
        Ok(0) => {
            let _ = rt.stdout().write_all(links.written(0));
            ExitCode::from(0)
        }
        Ok(_) => ExitCode::from(1),
        Err(OutOfMemory) => ExitCode::from(3),
    }
}
