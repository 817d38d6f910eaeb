//! A disk over a folder of the machine.
use crate::{FileDisk, LockRefused};
use bt_outside::Disk;
use std::alloc::Global;
use std::fs::File;
use std::rt::Files;
use std::test::Fail;
use std::{env, fs, process};

fn put<R: Files<File = File>>(disk: &mut FileDisk<'_, R>, at: u64, text: &str) -> bool {
    disk.write(7, at, text.as_bytes()).is_ok()
}

fn settle<R: Files<File = File>>(disk: &mut FileDisk<'_, R>) -> bool {
    disk.sync(7).is_ok()
}

fn shorten<R: Files<File = File>>(disk: &mut FileDisk<'_, R>, length: u64) -> bool {
    disk.cut(7, length).is_ok()
}

fn size<R: Files<File = File>>(disk: &mut FileDisk<'_, R>) -> u64 {
    disk.length(7).unwrap_or(0)
}

fn fill<R: Files<File = File>>(disk: &mut FileDisk<'_, R>, at: u64, into: &mut [u8; 3]) -> bool {
    disk.read(7, at, into).is_ok()
}

// Whether a disk in this folder takes a text, settles it and is cut to 4 bytes.
fn is_written<R: Files<File = File>>(rt: &R, alloc: Global, folder: &str) -> bool {
    let mut disk = FileDisk::new(rt, alloc, folder);
    put(&mut disk, 0, "abc")
        && put(&mut disk, 3, "def")
        && settle(&mut disk)
        && shorten(&mut disk, 4)
}

#[test]
fn a_file_is_written_synced_cut_and_read(rt: HostRuntime) -> Result<(), Fail> {
    let temporary = env::temp_dir(&rt)?;
    let folder = format!(in rt.alloc();
        "{}/bt_real_{}",
        temporary.as_str(),
        process::id(rt.process())
    )?;
    let _ = fs::remove_dir_all(&rt, folder.as_str());
    assert!(rt; is_written(&rt, rt.alloc(), folder.as_str()));
    let mut disk = FileDisk::new(&rt, rt.alloc(), folder.as_str());
    assert_eq!(rt; size(&mut disk), 4);
    let mut bytes = [0u8; 3];
    assert!(rt; fill(&mut disk, 1, &mut bytes));
    assert_eq!(rt; bytes, *b"bcd");
    // Past the end.
    assert!(rt; !fill(&mut disk, 2, &mut bytes));
    assert!(rt; settle(&mut disk));
    fs::remove_dir_all(&rt, folder.as_str())?;
    Ok(())
}

#[test]
fn a_folder_is_locked_once(rt: HostRuntime) -> Result<(), Fail> {
    let temporary = env::temp_dir(&rt)?;
    let folder = format!(in rt.alloc();
        "{}/bt_lock_{}",
        temporary.as_str(),
        process::id(rt.process())
    )?;
    let _ = fs::remove_dir_all(&rt, folder.as_str());
    let mut first = FileDisk::new(&rt, rt.alloc(), folder.as_str());
    let mut second = FileDisk::new(&rt, rt.alloc(), folder.as_str());
    assert_eq!(rt; first.lock(), Ok(()));
    assert_eq!(rt; second.lock(), Err(LockRefused::InUse));
    fs::remove_dir_all(&rt, folder.as_str())?;
    Ok(())
}
