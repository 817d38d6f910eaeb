//! A file in memory, read whole.
use crate::{LogFault, read_file};
use bt_outside::{Disk, DiskFailed, MemoryDisk};
use std::alloc::Global;
use std::test::Fail;

fn write(disk: &mut MemoryDisk) -> Result<(), DiskFailed> {
    disk.write(7, 0, b"abc")
}

fn read(alloc: Global, disk: &mut MemoryDisk) -> Result<Vec<u8>, LogFault> {
    read_file(alloc, disk, 7)
}

fn written(alloc: Global) -> Result<MemoryDisk, Fail> {
    let mut disk = MemoryDisk::new(alloc);
    write(&mut disk)?;
    Ok(disk)
}

#[test]
fn a_file_is_read_once(rt: HostRuntime) -> Result<(), Fail> {
    let mut disk = written(rt.alloc())?;
    let bytes = read(rt.alloc(), &mut disk)?;
    assert_eq!(rt; bytes.as_slice(), b"abc".as_slice());
    assert_eq!(rt; disk.asked(), 3);
    Ok(())
}

// The fault where this call of the disk fails. The first one is the write.
fn fault_at(alloc: Global, call: u64) -> Result<Option<LogFault>, Fail> {
    let mut disk = written(alloc)?;
    disk.stop_at(call);
    Ok(read(alloc, &mut disk).err())
}

#[test]
fn each_call_may_fail(rt: HostRuntime) -> Result<(), Fail> {
    assert_eq!(rt; fault_at(rt.alloc(), 2)?, Some(LogFault::DiskFailed));
    assert_eq!(rt; fault_at(rt.alloc(), 3)?, Some(LogFault::DiskFailed));
    assert_eq!(rt; fault_at(rt.alloc(), 4)?, Some(LogFault::DiskFailed));
    assert_eq!(rt; fault_at(rt.alloc(), 5)?, None);
    Ok(())
}
