//! A segment in memory: its bytes, and what a crash leaves of it.
use crate::Log;
use bt_entry::Batch;
use bt_gate::LogFault;
use bt_outside::{DiskImage, MemoryDisk};
use std::alloc::Global;
use std::test::Fail;

// The table projects/p/instances/i/tables/t with the family f, made at 5000000.
const CREATE: &[u8] =
    b"\0\0\0\x01\0\0\0\0\0\x4C\x4B\x40\x03\0\x1Fprojects/p/instances/i/tables/t\0\x01\x01f\0\0\0\0\0\0\0\0\0";

// The cell f:q at 1000 set to v in the row r of the first table, at 7.
const ROW: &[u8] =
    b"\0\0\0\x01\0\0\0\0\0\0\0\x07\x01\0\0\0\0\0\0\0\x01\0\x01r\0\0\0\x01\x01\x01f\0\x01q\0\0\0\0\0\0\x03\xE8\0\0\0\x01v";

// Makes the segment in three calls.
fn create(disk: &mut MemoryDisk) -> Result<Log, LogFault> {
    Log::create(disk, 7)
}

fn load(alloc: Global, disk: &mut MemoryDisk) -> Result<(Log, Batch), LogFault> {
    Log::load(alloc, disk, 7, 1)
}

// Loads the log in three calls, and adds a record to it in four.
fn add(alloc: Global, disk: &mut MemoryDisk, body: &[u8], limit: u32) -> Result<(), LogFault> {
    let (mut log, _entries) = Log::load(alloc, disk, 7, 1)?;
    log.append(alloc, disk, body, limit)
}

// How many entries a disk has that begins with this image.
fn entries_in(alloc: Global, image: DiskImage) -> Result<usize, LogFault> {
    let mut disk = MemoryDisk::from_image(alloc, image);
    let (_log, entries) = load(alloc, &mut disk)?;
    Ok(entries.items().len())
}

// The bytes of the first file of a disk as it reads.
fn bytes_of(alloc: Global, disk: &MemoryDisk) -> Result<Vec<u8>, Fail> {
    let image = disk.image(1)?;
    match image.files.items().first() {
        Some(file) => Ok(Vec::from_slice(alloc, file.bytes.bytes())?),
        None => Ok(Vec::new(alloc)),
    }
}

fn two_records(alloc: Global) -> Result<Vec<u8>, Fail> {
    let mut disk = MemoryDisk::new(alloc);
    let _log = create(&mut disk)?;
    add(alloc, &mut disk, CREATE, 59)?;
    add(alloc, &mut disk, ROW, u32::MAX)?;
    bytes_of(alloc, &disk)
}

#[test]
fn records_stand_one_behind_the_other(rt: HostRuntime) -> Result<(), Fail> {
    let bytes = two_records(rt.alloc())?;
    assert_eq!(rt; bytes.len(), 117);
    assert_eq!(rt; &bytes[..5], b"\x01\0\0\0\x3B".as_slice());
    assert_eq!(rt; &bytes[5..64], CREATE);
    assert_eq!(rt; &bytes[64..69], b"\x01\0\0\0\x2F".as_slice());
    assert_eq!(rt; &bytes[69..116], ROW);
    assert_eq!(rt; bytes[116], 0);
    Ok(())
}

fn one_record(alloc: Global) -> Result<Vec<u8>, Fail> {
    let mut disk = MemoryDisk::new(alloc);
    let _log = create(&mut disk)?;
    add(alloc, &mut disk, CREATE, 59)?;
    bytes_of(alloc, &disk)
}

#[test]
fn a_closed_gate_stands_behind_the_last_record(rt: HostRuntime) -> Result<(), Fail> {
    let bytes = one_record(rt.alloc())?;
    assert_eq!(rt; bytes.len(), 65);
    assert_eq!(rt; bytes[0], 1);
    assert_eq!(rt; bytes[64], 0);
    Ok(())
}

// How many entries a crash leaves where this call of an append fails, and all behind it.
fn left_after(alloc: Global, call: u64, choice: u8) -> Result<usize, Fail> {
    let mut disk = MemoryDisk::new(alloc);
    let _log = create(&mut disk)?;
    disk.stop_at(call.saturating_add(6));
    let _result = add(alloc, &mut disk, CREATE, u32::MAX);
    let image = disk.image(choice)?;
    Ok(entries_in(alloc, image)?)
}

#[test]
fn a_record_that_is_not_durable_is_absent(rt: HostRuntime) -> Result<(), Fail> {
    for choice in 0..4 {
        assert_eq!(rt; left_after(rt.alloc(), 1, choice)?, 0);
        assert_eq!(rt; left_after(rt.alloc(), 2, choice)?, 0);
    }
    Ok(())
}

#[test]
fn an_opened_record_is_absent_or_whole(rt: HostRuntime) -> Result<(), Fail> {
    for choice in 0..4 {
        assert!(rt; left_after(rt.alloc(), 3, choice)? <= 1);
        assert!(rt; left_after(rt.alloc(), 4, choice)? <= 1);
    }
    Ok(())
}

#[test]
fn a_record_that_was_added_stays(rt: HostRuntime) -> Result<(), Fail> {
    for choice in 0..4 {
        assert_eq!(rt; left_after(rt.alloc(), 5, choice)?, 1);
    }
    Ok(())
}

fn fault_of_a_long_record(alloc: Global) -> Result<(), LogFault> {
    let mut disk = MemoryDisk::new(alloc);
    let _log = create(&mut disk)?;
    add(alloc, &mut disk, CREATE, 58)
}

fn fault_of_no_segment(alloc: Global) -> Option<LogFault> {
    let mut disk = MemoryDisk::new(alloc);
    load(alloc, &mut disk).err()
}

#[test]
fn faults_are_told(rt: HostRuntime) -> Result<(), Fail> {
    assert_eq!(rt;
        fault_of_a_long_record(rt.alloc()),
        Err(LogFault::TooLarge { length: 59 })
    );
    assert_eq!(rt;
        fault_of_no_segment(rt.alloc()),
        Some(LogFault::Damaged { file: 7, at: 0 })
    );
    Ok(())
}
