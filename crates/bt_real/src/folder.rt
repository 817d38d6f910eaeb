//! The files of a folder, each opened once.
ghost use Rattle.std.specs.Prelude.{◌≤◌, ◌+◌, length, IfOk, OnOk};
ghost use Rattle.bt_outside.specs.Disk.{max_length};

use bt_outside::DiskFailed;
use std::alloc::Global;
use std::collections::BTreeMap;
use std::fs::{File, OpenOptions, TryLockError};
use std::io::ErrorKind;
use std::os::unix::fs::FileExt;
use std::path::Path;
use std::rt::Files;
use std::{fs, io};

const MAX_LENGTH: u64 = 35184372088832;

/// Why a folder was not locked.
#[derive(Clone, Copy, Debug, PartialEq, Eq)]
pub enum LockRefused {
    /// Another run has the folder.
    InUse,
    /// The lock's file could not be had.
    Failed,
}

// What of the folder's entries has reached the device.
#[derive(Clone, Copy, Debug, PartialEq, Eq)]
enum Entries {
    Synced,
    Changed,
    Lost,
}

#[derive(Drop)]
struct OpenFile {
    handle: File,
    // A sync has failed. The system may then drop what was to be written and answer Ok to the next
    // one, so no later one counts.
    is_lost: bool,
}

/// A folder with its open files. It is made at the first call, in a folder that is there.
#[derive(Drop)]
pub struct Folder<'r, R: Files<File = File>> {
    rt: &'r R,
    alloc: Global,
    path: &'r str,
    is_made: bool,
    entries: Entries,
    files: BTreeMap<u64, OpenFile>,
    lock: Option<File>,
}

impl<'r, R: Files<File = File>> Folder<'r, R> {
    pub fn new(rt: &'r R, alloc: Global, path: &'r str) -> Folder<'r, R> {
        Folder {
            rt,
            alloc,
            path,
            is_made: false,
            entries: Entries::Synced,
            files: BTreeMap::new(alloc),
            lock: None,
        }
    }

    /// The length of a file in bytes.
    pub fn length(&mut self, file: u64) -> Result<u64, DiskFailed>
        ensures { IfOk result (λ n. n ≤ max_length) }
    {
        let metadata = self.handle(file)?.metadata().map_err(|_| DiskFailed)?;
        if metadata.len() > MAX_LENGTH {
            return Err(DiskFailed);
        }
        Ok(metadata.len())
    }

    /// Fills `into` from that place on. It fails where the file ends before.
    pub fn read(&mut self, file: u64, at: u64, into: &mut [u8]) -> Result<(), DiskFailed> {
        done(self.handle(file)?.read_exact_at(into, at))
    }

    /// Writes all bytes from that place on.
    pub fn write(&mut self, file: u64, at: u64, bytes: &[u8]) -> Result<(), DiskFailed>
        ensures { OnOk result (at + length bytes.now ≤ max_length) }
    {
        if at > MAX_LENGTH || bytes.len() as u64 > MAX_LENGTH - at {
            return Err(DiskFailed);
        }
        done(self.handle(file)?.write_all_at(bytes, at))
    }

    pub fn cut(&mut self, file: u64, length: u64) -> Result<(), DiskFailed> {
        done(self.handle(file)?.set_len(length))
    }

    /// Lets the file's bytes reach the device, and its entry where it is not known to be there.
    pub fn sync(&mut self, file: u64) -> Result<(), DiskFailed> {
        self.load(file)?;
        match self.files.get_mut(&file) {
            Some(open) => sync_file(open)?,
            None => return Err(DiskFailed),
        }
        self.sync_entries()
    }

    /// Keeps other runs from locking the folder, until this object is dropped or the run ends.
    pub fn lock(&mut self) -> Result<(), LockRefused> {
        if self.lock.is_some() {
            return Ok(());
        }
        let handle = self.open("lock").map_err(|_| LockRefused::Failed)?;
        match handle.try_lock() {
            Ok(()) => {
                self.lock = Some(handle);
                Ok(())
            }
            Err(TryLockError::WouldBlock) => Err(LockRefused::InUse),
            Err(TryLockError::Error(_)) => Err(LockRefused::Failed),
        }
    }

    fn handle(&mut self, file: u64) -> Result<&File, DiskFailed> {
        self.load(file)?;
        match self.files.get(&file) {
            Some(open) => Ok(&open.handle),
            None => Err(DiskFailed),
        }
    }

    // Opens the file, if it is not open.
    fn load(&mut self, file: u64) -> Result<(), DiskFailed> {
        if self.files.contains_key(&file) {
            return Ok(());
        }
        let name = format!(in self.alloc; "{file}.bt").map_err(|_| DiskFailed)?;
        let handle = self.open(name.as_str())?;
        // An earlier run may have made it, and ended before a sync.
        if self.entries == Entries::Synced {
            self.entries = Entries::Changed;
        }
        let open = OpenFile {
            handle,
            is_lost: false,
        };
        self.files.insert(file, open).map_err(|_| DiskFailed)?;
        Ok(())
    }

    // Opens a file of that name, which is made if it is not there.
    fn open(&mut self, name: &str) -> Result<File, DiskFailed> {
        self.make()?;
        let path = format!(in self.alloc; "{}/{name}", self.path).map_err(|_| DiskFailed)?;
        OpenOptions::new()
            .read(true)
            .write(true)
            .create(true)
            .open(self.rt, path.as_str())
            .map_err(|_| DiskFailed)
    }

    // Makes the folder, if it is not there, and lets its entry reach the device.
    fn make(&mut self) -> Result<(), DiskFailed> {
        if self.is_made {
            return Ok(());
        }
        match fs::create_dir(self.rt, self.path) {
            Ok(()) => sync_folder(self.rt, parent_of(self.path))?,
            Err(e) if e.kind() == ErrorKind::AlreadyExists => {}
            Err(_) => return Err(DiskFailed),
        }
        self.is_made = true;
        Ok(())
    }

    fn sync_entries(&mut self) -> Result<(), DiskFailed> {
        match self.entries {
            Entries::Synced => Ok(()),
            Entries::Lost => Err(DiskFailed),
            Entries::Changed => {
                let synced = sync_folder(self.rt, self.path);
                self.entries = match synced {
                    Ok(()) => Entries::Synced,
                    Err(DiskFailed) => Entries::Lost,
                };
                synced
            }
        }
    }
}

fn done(outcome: io::Result<()>) -> Result<(), DiskFailed> {
    outcome.map_err(|_| DiskFailed)
}

fn sync_file(open: &mut OpenFile) -> Result<(), DiskFailed> {
    if open.is_lost {
        return Err(DiskFailed);
    }
    let synced = done(open.handle.sync_all());
    open.is_lost = synced.is_err();
    synced
}

fn sync_folder<R: Files<File = File>>(rt: &R, path: &str) -> Result<(), DiskFailed> {
    let folder = File::open(rt, path).map_err(|_| DiskFailed)?;
    done(folder.sync_all())
}

// The folder that holds the one of that path.
fn parent_of(path: &str) -> &str {
    match Path::new(path).parent() {
        Some(parent) if !parent.as_str().is_empty() => parent.as_str(),
        _ => ".",
    }
}
