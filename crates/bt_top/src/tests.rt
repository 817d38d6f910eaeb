use crate::serving::session;
use crate::{Exit, Limits, bigtable};
use bt_base::{Blob, BlobList};
use bt_outside::{
    DiskImage, FileBytes, FileList, ListClock, MemoryDisk, MemoryLinks, MemoryPrint, PieceLists,
    Readings,
};
use bt_store::Store;
use bt_types::{Text, TextList};
use std::alloc::Global;
use std::test::Fail;

fn links_of(alloc: Global, bytes: &[u8]) -> Result<MemoryLinks, Fail> {
    let mut pieces = BlobList::new(alloc);
    pieces.push(Blob::new(alloc, bytes)?)?;
    let mut connections = PieceLists::new(alloc);
    connections.push(pieces)?;
    Ok(MemoryLinks::new(alloc, connections))
}

fn new_clock(alloc: Global) -> Result<ListClock, Fail> {
    let mut readings = Readings::new(alloc);
    readings.push(5_000_000)?;
    Ok(ListClock::new(readings))
}

// Serves one connection with lines of at most 8 bytes, of which at most 20 bytes are read.
fn serve(alloc: Global, links: &mut MemoryLinks) -> Result<Exit, Fail> {
    let limits = Limits {
        line: 8,
        connection: 20,
        ..Limits::standard()
    };
    let mut disk = MemoryDisk::new(alloc);
    let mut store = Store::load(alloc, &mut disk, &limits)?;
    let mut clock = new_clock(alloc)?;
    let exit = session(alloc, &mut store, &mut disk, links, &mut clock, 1);
    Ok(exit)
}

// Whether a connection with these bytes is served, and answered so.
fn is_answered(alloc: Global, bytes: &[u8], replies: &[u8]) -> Result<bool, Fail> {
    let mut links = links_of(alloc, bytes)?;
    let exit = serve(alloc, &mut links)?;
    Ok(exit == Exit::Done && links.written(0) == replies)
}

#[test]
fn limits_end_a_connection(rt: HostRuntime) -> Result<(), Fail> {
    let alloc = rt.alloc();
    let reply = b"{\"status\":{\"code\":3,\"message\":\"not json\"}}\n";
    assert!(rt; is_answered(alloc, b"nonsense\n", reply)?);
    let reply = b"{\"status\":{\"code\":3,\"message\":\"line too long\"}}\n";
    assert!(rt; is_answered(alloc, b"nonsenses\nx\n", reply)?);
    let reply = b"{\"status\":{\"code\":3,\"message\":\"connection too long\"}}\n";
    assert!(rt; is_answered(alloc, b"\n\n\n\n\n\n\n\n\n\n\n\n\n\n\n\n\n\n\n\n\n", reply)?);
    Ok(())
}

// Calls are numbered from 1: `next`, `read`, and a `write` for each line.
fn fails_at(alloc: Global, number: u64) -> Result<(Exit, usize, bool), Fail> {
    let mut links = links_of(alloc, b"x\ny\n")?;
    links.fail_calls(&[number])?;
    let exit = serve(alloc, &mut links)?;
    Ok((exit, links.written(0).len(), links.failed(0)))
}

#[test]
fn failing_links_end_their_connection(rt: HostRuntime) -> Result<(), Fail> {
    let alloc = rt.alloc();
    assert_eq!(rt; fails_at(alloc, 1)?, (Exit::LinkFault, 0, false));
    assert_eq!(rt; fails_at(alloc, 2)?, (Exit::Done, 0, true));
    assert_eq!(rt; fails_at(alloc, 3)?, (Exit::Done, 0, true));
    assert_eq!(rt; fails_at(alloc, 4)?, (Exit::Done, 43, true));
    Ok(())
}

// Runs over this disk, with one connection that has a blank line.
fn run(alloc: Global, words: &TextList, disk: &mut MemoryDisk) -> Result<Exit, Fail> {
    let mut links = links_of(alloc, b"\n")?;
    let mut clock = new_clock(alloc)?;
    let mut screen = MemoryPrint::new(alloc);
    let exit = bigtable(alloc, words, disk, &mut links, &mut clock, &mut screen);
    Ok(exit)
}

fn run_words(alloc: Global) -> Result<TextList, Fail> {
    let mut words = TextList::new(alloc);
    words.push(Text::new(alloc, "run")?)?;
    words.push(Text::new(alloc, "data")?)?;
    Ok(words)
}

#[test]
fn words_decide_what_is_served(rt: HostRuntime) -> Result<(), Fail> {
    let alloc = rt.alloc();
    let mut disk = MemoryDisk::new(alloc);
    assert_eq!(rt; run(alloc, &TextList::new(alloc), &mut disk)?, Exit::Usage);
    assert_eq!(rt; run(alloc, &run_words(alloc)?, &mut disk)?, Exit::Done);
    Ok(())
}

#[test]
fn a_disk_that_stops_ends_the_run(rt: HostRuntime) -> Result<(), Fail> {
    let alloc = rt.alloc();
    let mut disk = MemoryDisk::new(alloc);
    disk.stop_at(3);
    let exit = run(alloc, &run_words(alloc)?, &mut disk)?;
    assert_eq!(rt; (exit, exit.status()), (Exit::DiskFault, 4));
    Ok(())
}

#[test]
fn a_damaged_file_is_named(rt: HostRuntime) -> Result<(), Fail> {
    let alloc = rt.alloc();
    let bytes = Blob::new(alloc, b"\x01nonsense nonsense")?;
    let mut files = FileList::new(alloc);
    files.push(FileBytes { number: 0, bytes })?;
    let mut disk = MemoryDisk::from_image(alloc, DiskImage { files });
    let exit = run(alloc, &run_words(alloc)?, &mut disk)?;
    assert_eq!(rt;
        (exit, exit.status()),
        (Exit::Damaged { file: 0, at: 0 }, 5)
    );
    Ok(())
}
