//! Tests of the objects in memory.
use super::*;
use bt_base::{Blob, Plain};
use std::alloc::Global;
use std::test::Fail;

fn pieces(alloc: Global, first: &str, second: &str) -> Result<BlobList, Fail> {
    let mut list = BlobList::new(alloc);
    list.push(Blob::new(alloc, first.as_bytes())?)?;
    list.push(Blob::new(alloc, second.as_bytes())?)?;
    Ok(list)
}

fn two_connections(alloc: Global) -> Result<MemoryLinks, Fail> {
    let mut connections = PieceLists::new(alloc);
    connections.push(pieces(alloc, "ab", "c")?)?;
    connections.push(pieces(alloc, "", "xyz")?)?;
    Ok(MemoryLinks::new(alloc, connections))
}

// Goes to the next connection, reads a part of it, and answers it.
fn serve(
    links: &mut MemoryLinks,
    disk: &MemoryDisk,
    into: &mut [u8; 4],
    answer: &str,
) -> Result<usize, LinkFailed> {
    if !Links::<MemoryDisk>::next(links)? {
        return Ok(0);
    }
    let count = Links::<MemoryDisk>::read(links, into)?;
    links.write(answer.as_bytes(), disk)?;
    Ok(count)
}

#[test]
fn clock_repeats_its_last_reading(rt: HostRuntime) -> Result<(), Fail> {
    let mut readings = Readings::new(rt.alloc());
    readings.push(100)?;
    readings.push(200)?;
    let mut clock = ListClock::new(readings);
    assert_eq!(rt; (clock.now(), clock.now(), clock.now()), (100, 200, 200));
    Ok(())
}

#[test]
fn printer_keeps_its_texts(rt: HostRuntime) -> Result<(), Fail> {
    let mut printer = MemoryPrint::new(rt.alloc());
    printer.print(b"rows 1")?;
    printer.print(b" cells 3\n")?;
    assert_eq!(rt; printer.printed(), "rows 1 cells 3\n".as_bytes());
    Ok(())
}

fn put(disk: &mut MemoryDisk, file: u64, at: u64, text: &str) -> Result<(), DiskFailed> {
    if at <= disk.length(file)? {
        disk.write(file, at, text.as_bytes())?;
    }
    Ok(())
}

fn settle(disk: &mut MemoryDisk, file: u64) -> Result<(), DiskFailed> {
    disk.sync(file)
}

// The bytes of the first file of this image.
fn image_bytes(alloc: Global, disk: &MemoryDisk, choice: u8) -> Result<Vec<u8>, Fail> {
    let image = disk.image(choice)?;
    match image.files.items().first() {
        Some(file) => Ok(Vec::from_slice(alloc, file.bytes.bytes())?),
        None => Ok(Vec::new(alloc)),
    }
}

fn two_served(alloc: Global) -> Result<MemoryLinks, Fail> {
    let disk = MemoryDisk::new(alloc);
    let mut links = two_connections(alloc)?;
    let mut into = [0; 4];
    let _ = serve(&mut links, &disk, &mut into, "first")?;
    let _ = serve(&mut links, &disk, &mut into, "second")?;
    Ok(links)
}

#[test]
fn links_serve_one_connection_after_another(rt: HostRuntime) -> Result<(), Fail> {
    let links = two_served(rt.alloc())?;
    assert_eq!(rt; links.written(0), "first".as_bytes());
    assert_eq!(rt; links.written(1), "second".as_bytes());
    Ok(())
}

fn settled_then_written(alloc: Global) -> Result<MemoryDisk, Fail> {
    let mut disk = MemoryDisk::new(alloc);
    put(&mut disk, 7, 0, "abcd")?;
    settle(&mut disk, 7)?;
    put(&mut disk, 7, 2, "xyz")?;
    Ok(disk)
}

#[test]
fn disk_leaves_its_images(rt: HostRuntime) -> Result<(), Fail> {
    let disk = settled_then_written(rt.alloc())?;
    let stable = image_bytes(rt.alloc(), &disk, 0)?;
    assert_eq!(rt; stable.as_slice(), "abcd".as_bytes());
    let filled = image_bytes(rt.alloc(), &disk, 4)?;
    assert_eq!(rt; filled.as_slice(), "ab\x03\x03\x03".as_bytes());
    Ok(())
}

fn begun_with_an_image(alloc: Global) -> Result<MemoryDisk, Fail> {
    let disk = settled_then_written(alloc)?;
    let image = disk.image(1)?.copy(alloc)?;
    Ok(MemoryDisk::from_image(alloc, image))
}

#[test]
fn disk_begins_with_an_image(rt: HostRuntime) -> Result<(), Fail> {
    let mut disk = begun_with_an_image(rt.alloc())?;
    put(&mut disk, 7, 5, "!")?;
    let stable = image_bytes(rt.alloc(), &disk, 0)?;
    assert_eq!(rt; stable.as_slice(), "abxyz".as_bytes());
    Ok(())
}

fn fails_to_settle(disk: &mut MemoryDisk) -> bool {
    disk.sync(7).is_err()
}

fn three_syncs(alloc: Global) -> Result<[bool; 3], Fail> {
    let mut disk = MemoryDisk::new(alloc);
    disk.fail_calls(&[2])?;
    let first = fails_to_settle(&mut disk);
    let second = fails_to_settle(&mut disk);
    let third = fails_to_settle(&mut disk);
    Ok([first, second, third])
}

#[test]
fn disk_fails_its_planned_call(rt: HostRuntime) -> Result<(), Fail> {
    let failed = three_syncs(rt.alloc())?;
    assert_eq!(rt; failed, [false, true, false]);
    Ok(())
}
