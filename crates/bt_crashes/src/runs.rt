//! Runs of the service over a disk in memory.

use crate::disks::{disk_of, image_of, new_disk};
use crate::spelling::reply_text;
use bt_base::{Blob, BlobList, OutOfMemory};
use bt_outside::{
    Disk, DiskImage, ListClock, MemoryDisk, MemoryLinks, MemoryPrint, PieceLists, Readings,
};
use bt_store::{Store, StoreFault};
use bt_top::{Exit, Limits, bigtable, session};
use bt_types::{Text, TextList};
use std::alloc::Global;

/// How a run ended, and its links.
#[derive(Drop)]
pub struct Served {
    pub exit: Exit,
    links: MemoryLinks,
}

impl Served {
    /// What was written to its connection.
    pub fn reply(&self) -> &[u8] {
        self.links.written(0)
    }

    /// Its exit, and what was written.
    pub fn words(&self, alloc: Global) -> Result<String, OutOfMemory> {
        let exit = self.exit;
        let reply = reply_text(alloc, self.reply())?;
        let words = format!(in alloc; "{exit:?}, written {reply}")?;
        Ok(words)
    }
}

/// These bytes, one behind the other.
pub fn joined(alloc: Global, parts: &[&[u8]]) -> Result<Vec<u8>, OutOfMemory> {
    let mut bytes = Vec::new(alloc);
    for part in parts {
        bytes.extend_from_slice(part)?;
    }
    Ok(bytes)
}

/// Connections that come in one piece each.
pub fn links_of(alloc: Global, connections: &[&[u8]]) -> Result<MemoryLinks, OutOfMemory> {
    let mut lists = PieceLists::new(alloc);
    for bytes in connections {
        let mut pieces = BlobList::new(alloc);
        pieces.push(Blob::new(alloc, bytes)?)?;
        lists.push(pieces)?;
    }
    Ok(MemoryLinks::new(alloc, lists))
}

// It always reads 5 seconds after 1970 began.
fn new_clock(alloc: Global) -> Result<ListClock, OutOfMemory> {
    let mut readings = Readings::new(alloc);
    readings.push(5_000_000)?;
    Ok(ListClock::new(readings))
}

fn run_words(alloc: Global) -> Result<TextList, OutOfMemory> {
    let mut words = TextList::new(alloc);
    words.push(Text::new(alloc, "run")?)?;
    words.push(Text::new(alloc, "data")?)?;
    Ok(words)
}

fn call(
    alloc: Global,
    words: &TextList,
    disk: &mut MemoryDisk,
    links: &mut MemoryLinks,
    clock: &mut ListClock,
) -> Exit {
    let mut screen = MemoryPrint::new(alloc);
    bigtable(alloc, words, disk, links, clock, &mut screen)
}

/// Runs the program over this disk, with one connection of these bytes.
pub fn run(alloc: Global, disk: &mut MemoryDisk, bytes: &[u8]) -> Result<Served, OutOfMemory> {
    let mut links = links_of(alloc, &[bytes])?;
    let mut clock = new_clock(alloc)?;
    let words = run_words(alloc)?;
    let exit = call(alloc, &words, disk, &mut links, &mut clock);
    Ok(Served { exit, links })
}

fn load_and_serve(
    alloc: Global,
    limits: &Limits,
    disk: &mut MemoryDisk,
    links: &mut MemoryLinks,
    clock: &mut ListClock,
    count: u32,
) -> Result<Exit, StoreFault> {
    let mut store = Store::load(alloc, disk, limits)?;
    let exit = session(alloc, &mut store, disk, links, clock, count);
    Ok(exit)
}

/// Loads the tables of this disk, and serves at most so many of these connections within limits.
pub fn serve_links(
    alloc: Global,
    limits: &Limits,
    disk: &mut MemoryDisk,
    links: &mut MemoryLinks,
    count: u32,
) -> Result<Exit, StoreFault> {
    let mut clock = new_clock(alloc)?;
    load_and_serve(alloc, limits, disk, links, &mut clock, count)
}

/// Loads the tables of this disk, and serves a connection of these bytes, whose lines are short.
pub fn serve(alloc: Global, disk: &mut MemoryDisk, bytes: &[u8]) -> Result<Served, StoreFault> {
    let limits = Limits {
        line: 8_192,
        ..Limits::standard()
    };
    let mut links = links_of(alloc, &[bytes])?;
    let exit = serve_links(alloc, &limits, disk, &mut links, 1)?;
    Ok(Served { exit, links })
}

/// What a disk has after these lines.
pub fn image_after(alloc: Global, lines: &[u8]) -> Result<DiskImage, StoreFault> {
    let mut disk = new_disk(alloc);
    let _served = serve(alloc, &mut disk, lines)?;
    let image = image_of(&disk, 1)?;
    Ok(image)
}

fn load(alloc: Global, disk: &mut MemoryDisk) -> Result<(), StoreFault> {
    let _store = Store::load(alloc, disk, &Limits::standard())?;
    Ok(())
}

/// How many calls of the disk it takes to load the tables of these files.
pub fn calls_to_load(alloc: Global, image: &DiskImage) -> Result<u64, StoreFault> {
    let mut disk = disk_of(alloc, image)?;
    load(alloc, &mut disk)?;
    Ok(disk.moment())
}
