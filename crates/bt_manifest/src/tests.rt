//! Tests of the manifest over disks in memory.
ghost use Rattle.std.specs.Prelude.{◌≤◌, IfOk};
ghost use Rattle.bt_manifest.specs.Grammar.{AreTables, IsSnapshot, most_number};

use super::*;
use bt_base::{Blob, OutOfMemory, Plain};
use bt_gate::LogFault;
use bt_outside::{Disk, DiskImage, FileBytes, FileList, MemoryDisk};
use std::alloc::Global;
use std::test::Fail;

// Generation 1 of the first snapshot, as file 1 holds it.
const FIRST: &[u8] =
    b"\x01\0\0\0\0\0\0\0\x01\0\0\0\x38\0\0\0\0\0\0\0\x03\0\0\0\0\0\0\0\0\0\0\0\0\0\0\0\0\0\0\0\x01\0\0\0\0\0\0\0\x02\0\0\0\0\0\0\0\x01\0\0\0\0\0\0\0\x04\0\0\0\0";

// One segment from entry 1 on in file 2, these tables, and a schema without any.
fn snapshot(alloc: Global, base: u64, tables: TableFileList) -> Result<Snapshot, OutOfMemory>
    requires base { base ≤ most_number }
    requires tables { AreTables tables }
    ensures { IfOk result IsSnapshot }
{
    let mut segments = SegmentList::new(alloc);
    segments.push(Segment { file: 2, first: 1 })?;
    Ok(Snapshot {
        next_file: 3,
        floor: 0,
        base,
        segments,
        tables,
        schema: Blob::new(alloc, &[0, 0, 0, 0])?,
    })
}

// Loads the disk, six calls, and publishes the snapshot as the next generation.
fn publish_next<D: Disk>(alloc: Global, disk: &mut D, snapshot: &Snapshot) -> Result<(), LogFault>
    requires { IsSnapshot snapshot.now }
{
    let generation = match load_manifest(alloc, disk)? {
        Some((_, last)) => last + 1,
        None => 1,
    };
    let length = snapshot.body_length();
    if generation > 4_611_686_018_427_387_904 || length > 1_073_741_824 {
        return Err(LogFault::TooLarge { length });
    }
    publish(alloc, disk, snapshot, generation)
}

// A disk on which the first snapshot was published, and then, up to that call, the second one.
fn stopped_at(alloc: Global, number: u64) -> Result<MemoryDisk, LogFault> {
    let first = snapshot(alloc, 0, TableFileList::new(alloc))?;
    let second = snapshot(alloc, 1, TableFileList::new(alloc))?;
    let mut disk = MemoryDisk::new(alloc);
    publish_next(alloc, &mut disk, &first)?;
    disk.stop_at(number);
    let _ = publish_next(alloc, &mut disk, &second);
    Ok(disk)
}

// The generation that counts, and the base of its snapshot.
fn counting<D: Disk>(alloc: Global, disk: &mut D) -> Result<Option<(u64, u64)>, LogFault> {
    let said = load_manifest(alloc, disk)?;
    Ok(said.map(|x| (x.1, x.0.base)))
}

// The same of what a crash leaves.
fn left(alloc: Global, disk: &MemoryDisk, choice: u8) -> Result<Option<(u64, u64)>, LogFault> {
    let image = disk.image(choice)?;
    let mut disk = MemoryDisk::from_image(alloc, image);
    counting(alloc, &mut disk)
}

fn bytes_of_file_1(image: &DiskImage) -> &[u8] {
    for file in image.files.items() {
        if file.number == 1 {
            return file.bytes.bytes();
        }
    }
    &[]
}

#[test]
fn a_first_snapshot_is_69_bytes(rt: HostRuntime) -> Result<(), Fail> {
    let alloc = rt.alloc();
    let disk = stopped_at(alloc, 14).map_err(|_| Fail::from("not published"))?;
    let image = disk.image(0)?;
    assert_eq!(rt; bytes_of_file_1(&image), FIRST);
    Ok(())
}

// What is answered over a disk whose file 1 has these bytes.
fn answer_over(alloc: Global, bytes: &[u8]) -> Result<Option<(u64, u64)>, LogFault> {
    let bytes = Blob::new(alloc, bytes)?;
    let mut files = FileList::new(alloc);
    files.push(FileBytes { number: 1, bytes })?;
    let mut disk = MemoryDisk::from_image(alloc, DiskImage { files });
    counting(alloc, &mut disk)
}

fn answer_to_front(alloc: Global, length: usize) -> Result<Option<(u64, u64)>, LogFault> {
    answer_over(alloc, FIRST.get(..length).unwrap_or(FIRST))
}

#[test]
fn a_slot_that_is_cut_is_closed_or_damaged(rt: HostRuntime) {
    let alloc = rt.alloc();
    for length in 0..13 {
        assert_eq!(rt; answer_to_front(alloc, length), Ok(None));
    }
    for length in 13..69 {
        assert_eq!(rt;
            answer_to_front(alloc, length),
            Err(LogFault::Damaged { file: 1, at: 0 })
        );
    }
    assert_eq!(rt; answer_to_front(alloc, 69), Ok(Some((1, 0))));
}

#[test]
fn a_crash_leaves_the_old_snapshot_or_the_new_one(rt: HostRuntime) -> Result<(), Fail> {
    let alloc = rt.alloc();
    // Calls 14 to 19 load, and calls 20 to 26 publish.
    for number in 14..28 {
        let disk = stopped_at(alloc, number).map_err(|_| Fail::from("not published"))?;
        for choice in 0..4 {
            let said = left(alloc, &disk, choice);
            assert!(rt;
                (number < 27 && said == Ok(Some((1, 0))))
                    || (number > 20 && said == Ok(Some((2, 1))))
            );
        }
    }
    Ok(())
}

// The snapshot with one table.
fn with_table(alloc: Global) -> Result<Snapshot, OutOfMemory>
    ensures { IfOk result IsSnapshot }
{
    let mut files = FileNumbers::new(alloc);
    files.push(7)?;
    files.push(9)?;
    let mut tables = TableFileList::new(alloc);
    tables.push(TableFiles {
        incarnation: 5,
        lost: 2,
        files,
    })?;
    snapshot(alloc, 11, tables)
}

// What is loaded after it was published, copied.
fn loaded_again(alloc: Global, snapshot: &Snapshot) -> Result<Option<Snapshot>, LogFault>
    requires { IsSnapshot snapshot.now }
{
    let mut disk = MemoryDisk::new(alloc);
    publish_next(alloc, &mut disk, snapshot)?;
    match load_manifest(alloc, &mut disk)? {
        Some((snapshot, _)) => Ok(Some(snapshot.copy(alloc)?)),
        None => Ok(None),
    }
}

#[test]
fn tables_are_kept(rt: HostRuntime) -> Result<(), Fail> {
    let alloc = rt.alloc();
    let snapshot = with_table(alloc)?;
    assert_eq!(rt; snapshot.body_length(), 92);
    let Ok(Some(again)) = loaded_again(alloc, &snapshot) else {
        return Err(Fail::from("not loaded"));
    };
    assert_eq!(rt; again.base, 11);
    for table in again.tables.items() {
        assert_eq!(rt; (table.incarnation, table.lost), (5, 2));
        assert_eq!(rt; table.files.items(), [7, 9].as_slice());
    }
    Ok(())
}
