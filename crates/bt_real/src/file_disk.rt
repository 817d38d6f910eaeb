//! A disk over a folder.
ghost use Rattle.std.specs.Prelude.{◌≡◌, []};
ghost use Rattle.bt_real.specs.Counted.{unused};

use crate::folder::{Folder, LockRefused};
use bt_outside::{Disk, DiskFailed, Tally};
use std::alloc::Global;
use std::fs::File;
use std::marker::Model;
use std::rt::Files;

/// A disk whose file n is `n.bt` in a folder. The folder is made at the first call, in a folder
/// that is there, and a file at the first call on it. Each file is opened once, and stays open.
///
/// A sync reaches the device: it lets the file's bytes and its entry in the folder get there. After
/// a sync of a file has failed, each later one of it fails, since the system may have dropped what
/// it could not write; after a new run begins, what is read is what the system then has.
///
/// A call that finds no memory fails. A read past the end of a file fails. The disk counts its
/// calls and those that failed, and tells neither its bytes nor its images.
#[derive(Drop)]
pub struct FileDisk<'r, R: Files<File = File>> {
    folder: Folder<'r, R>,
    calls: u64,
    tally: Tally,
}

impl<'r, R: Files<File = File>> Model for FileDisk<'r, R> {
    ghost use Rattle.bt_real.specs.Counted.{Counted};

    ghost Value = { Counted };

    ghost view = { λ d. record {
      calls = d.calls;
      faults = d.tally.faults;
      write_faults = d.tally.write_faults;
      failing = d.tally.failing;
    } };
}

impl<'r, R: Files<File = File>> FileDisk<'r, R> {
    /// A disk over the folder of that path. Nothing is made or opened yet.
    pub fn new(rt: &'r R, alloc: Global, folder: &'r str) -> FileDisk<'r, R>
        ensures { result ≡ unused }
    {
        FileDisk {
            folder: Folder::new(rt, alloc, folder),
            calls: 0,
            tally: Tally::new(),
        }
    }

    /// Locks the folder, by its file `lock`, until this object is dropped or the run ends. It is
    /// refused while another object or run has the lock, and fails where that file cannot be had.
    /// A run that asks for no lock is not kept out. It is no call of the disk, and is not counted.
    pub fn lock(&mut self) -> Result<(), LockRefused>
        ensures { self.new ≡ self.old }
    {
        self.folder.lock()
    }
}

impl<R: Files<File = File>> Disk for FileDisk<'_, R> {
    ghost tells = { ⊥ };

    ghost held = { λ _ _. [] };

    ghost may_leave = { λ _ _. ⊥ };

    ghost moment = { λ d. d.calls };

    ghost left_since = { λ _ _ _. ⊥ };

    ghost asked = { λ _. 0 };

    ghost faults = { λ d. d.faults };

    ghost write_faults = { λ d. d.write_faults };

    ghost failing = { λ d. d.failing };

    ghost reads_as_image = { λ d told. absurd told };

    ghost counts_now = { λ d t c told le now. absurd told };

    ghost only_now = { λ d c told below left. absurd told };

    ghost sooner = { λ d t u c told le left. absurd told };

    fn length(&mut self, file: u64) -> Result<u64, DiskFailed> {
        self.calls = self.calls.saturating_add(1);
        let length = self.folder.length(file);
        self.tally.look(length.is_ok())?;
        length
    }

    fn read(&mut self, file: u64, at: u64, into: &mut [u8]) -> Result<(), DiskFailed> {
        self.calls = self.calls.saturating_add(1);
        let done = self.folder.read(file, at, into).is_ok();
        self.tally.look(done)
    }

    fn write(&mut self, file: u64, at: u64, bytes: &[u8]) -> Result<(), DiskFailed> {
        self.calls = self.calls.saturating_add(1);
        let done = self.folder.write(file, at, bytes).is_ok();
        self.tally.change(done)
    }

    fn cut(&mut self, file: u64, length: u64) -> Result<(), DiskFailed> {
        self.calls = self.calls.saturating_add(1);
        let done = self.folder.cut(file, length).is_ok();
        self.tally.change(done)
    }

    fn sync(&mut self, file: u64) -> Result<(), DiskFailed> {
        self.calls = self.calls.saturating_add(1);
        let done = self.folder.sync(file).is_ok();
        self.tally.change(done)
    }

    fn moment(&self) -> u64 {
        self.calls
    }
}
