//! What a disk in memory has been through.
ghost use Rattle.std.specs.Prelude.{◌≡◌, ◌<◌, ◌≤◌, ℕ, ◌+◌, List, [], length, slice_range, OnOk, OnErr, IfOk};

use crate::FileList;
use crate::calls::{Call, Kind};
use crate::files::{FileState, bytes_of, image_of, keep};
use crate::image::FileBytes;
use bt_base::OutOfMemory;
use std::alloc::{AllocError, Global};
use std::marker::Model;

#[derive(Drop)]
pub struct DiskCore {
    alloc: Global,
    base: FileList,
    files: Vec<FileState>,
    calls: Vec<Call>,
    moment: u64,
}

impl Model for DiskCore {
    ghost use Rattle.bt_outside.specs.History.{Core};
    ghost use Rattle.bt_outside.specs.DiskSteps.{Keeps};

    ghost Value = { Core };

    ghost view = { λ d. record { base = d.base; files = d.files.items; calls = d.calls.items; moment = d.moment } };

    ghost invariant = { λ d. Keeps d.base d.files.items d.calls.items d.moment };
}

impl DiskCore {
    ghost use Rattle.bt_base.specs.Counts.{most, counted};
    ghost use Rattle.bt_outside.specs.Disk.{Elapses};
    ghost use Rattle.bt_outside.specs.Model.{settled, IsBounded, Chosen};
    ghost use Rattle.bt_outside.specs.History.{Core, LeftSince, Images, states_of, stepped};
    ghost use Rattle.bt_outside.specs.DiskSteps.{CanBe};
    ghost use Rattle.bt_outside.specs.DiskImage.{files_of};

    /// Files with these bytes, all of them stable, on which no call was made.
    pub fn new(alloc: Global, base: FileList) -> DiskCore
        ensures states { (file : ℕ) → states_of result file ≡ settled (files_of base file) }
        ensures moment { result.moment ≡ 0 }
    {
        DiskCore {
            alloc,
            base,
            files: Vec::new(alloc),
            calls: Vec::new(alloc),
            moment: 0,
        }
    }

    pub fn moment(&self) -> u64
        ensures { result ≡ self.now.moment }
    {
        self.moment
    }

    /// The length of a file.
    pub fn length(&self, file: u64) -> u64
        ensures { result ≡ length (states_of self.now file).bytes }
    {
        bytes_of(&self.files, &self.base, file).len() as u64
    }

    /// Copies the bytes from that place on.
    pub fn copy(&self, file: u64, at: u64, into: &mut [u8])
        requires { at + length into.old ≤ length (states_of self.now file).bytes }
        ensures { into.new ≡ slice_range (states_of self.now file).bytes at (at + length into.old) }
    {
        let bytes = bytes_of(&self.files, &self.base, file);
        let at = at as usize;
        into.copy_from_slice(&bytes[at..at + into.len()]);
    }

    /// What this choice leaves.
    pub fn image(&self, choice: u8) -> Result<Vec<FileBytes>, OutOfMemory>
        ensures chosen { IfOk result (λ image. (file : ℕ) → Chosen choice (states_of self.now file) (files_of image.items file)) }
        ensures possible { IfOk result (λ image. Images (states_of self.now) (files_of image.items)) }
    {
        image_of(self.alloc, &self.files, &self.base, choice)
    }

    /// Makes a call, which finds no memory at `Err`.
    pub fn make(&mut self, file: u64, kind: Kind, failed: bool) -> Result<(), AllocError>
        requires { CanBe kind (states_of self.old file) }
        ensures kept { OnOk result ((other : ℕ) → states_of self.new other ≡ stepped file kind failed (states_of self.old) other) }
        ensures stayed { OnErr result ((other : ℕ) → states_of self.new other ≡ states_of self.old other) }
        ensures time { self.new.moment < most → Elapses self.old.moment self.new.moment (LeftSince self.old) (LeftSince self.new) (Images (states_of self.new)) }
        ensures moment { self.new.moment ≡ counted self.old.moment }
        ensures bounded { (other : ℕ) → IsBounded (states_of self.old other) }
    {
        let moment = self.moment;
        self.moment = moment.saturating_add(1);
        keep(
            &mut self.files,
            &self.base,
            &mut self.calls,
            self.alloc,
            Call {
                moment,
                file,
                kind,
                failed,
            },
        )
    }

    /// Counts a call that found no memory.
    pub fn skip(&mut self)
        ensures stayed { (other : ℕ) → states_of self.new other ≡ states_of self.old other }
        ensures time { self.new.moment < most → Elapses self.old.moment self.new.moment (LeftSince self.old) (LeftSince self.new) (Images (states_of self.new)) }
        ensures moment { self.new.moment ≡ counted self.old.moment }
    {
        self.moment = self.moment.saturating_add(1);
    }
}
