//! A disk in memory.
ghost use Rattle.std.specs.Prelude.{◌≡◌, ◌↔◌, ◌<◌, ◌≤◌, ℕ, ◌+◌, ◌++◌, [], Some, None, min, length, slice_range, false, IsTrue, IsFalse, IsErr, IfOk, OnOk, OnErr, IsPermutation};
ghost use Rattle.std.proofs.Common.{inl};
ghost use Rattle.bt_base.specs.Counts.{most, counted, Counts};
ghost use Rattle.bt_outside.specs.Disk.{size, max_length, Holds, Shortened, Torn, TornCut, AtFile, Alike, Follows, NoMore, Settles, Elapses};
ghost use Rattle.bt_outside.specs.Model.{settled, Chosen};
ghost use Rattle.bt_outside.specs.History.{held_of, LeftSince, Images, states_of, reads_as_image_lem, only_now_lem, sooner_lem};
ghost use Rattle.bt_outside.specs.DiskSteps.{IsLook, IsStopped};
ghost use Rattle.bt_outside.specs.DiskImage.{files_of};

use crate::calls::Kind;
use crate::disk_core::DiskCore;
use crate::failing_calls::FailingCalls;
use crate::tally::Tally;
use crate::{Disk, DiskFailed, DiskImage, FileList};
use bt_base::OutOfMemory;
use std::alloc::Global;
use std::marker::Model;

const MAX_LENGTH: u64 = 35184372088832;

/// Files in memory. It keeps a record of all its calls, from which it knows what a crash may leave
/// and might have left. Its calls have numbers, from 1 in the order in which they are made, those of
/// `moment` not counted. A call fails where its number was given to `fail_calls`, where it is not
/// below the one given to `stop_at`, where a file would become too long, and where there is no
/// memory. After a failed write or cut the file reads as before.
#[derive(Drop)]
pub struct MemoryDisk {
    alloc: Global,
    core: DiskCore,
    asked: u64,
    tally: Tally,
    fails: FailingCalls,
    stop: Option<u64>,
}

impl Model for MemoryDisk {
    ghost use Rattle.bt_outside.specs.MemoryDisk.{DiskSeen};

    ghost Value = { DiskSeen };

    ghost view = { λ d. record {
      core = d.core;
      asked = d.asked;
      faults = d.tally.faults;
      write_faults = d.tally.write_faults;
      failing = d.tally.failing;
      fails = d.fails;
      stop = d.stop;
    } };
}

// Whether the call after so many is to fail.
fn is_stopped(fails: &FailingCalls, stop: Option<u64>, so_far: u64) -> bool
    ensures { IsTrue result ↔ IsStopped fails.now stop (counted so_far) }
{
    let number = so_far.saturating_add(1);
    match stop {
        Some(first) if first <= number => true,
        _ => fails.has(number),
    }
}

// A call that changes nothing, or none for want of memory.
fn look(core: &mut DiskCore, file: u64, kind: Kind, failed: bool) -> bool
    requires { IsLook kind }
    ensures held { Alike (held_of core.old) (held_of core.new) }
    ensures crash { NoMore (Images (states_of core.old)) (Images (states_of core.new)) }
    ensures time { core.new.moment < most → Elapses core.old.moment core.new.moment (LeftSince core.old) (LeftSince core.new) (Images (states_of core.new)) }
    ensures moment { core.new.moment ≡ counted core.old.moment }
    ensures fine { IsTrue result → IsFalse failed }
{
    core.make(file, kind, failed).is_ok() && !failed
}

fn write(core: &mut DiskCore, alloc: Global, file: u64, at: u64, bytes: &[u8], failed: bool) -> bool
    requires { at ≤ size (held_of core.old) file }
    ensures written { IsTrue result → AtFile file (Holds at bytes.now) (held_of core.old) (held_of core.new) }
    ensures torn { AtFile file (Torn at (length bytes.now)) (held_of core.old) (held_of core.new) }
    ensures crash { Follows (AtFile file (Torn at (length bytes.now))) (Images (states_of core.old)) (Images (states_of core.new)) }
    ensures time { core.new.moment < most → Elapses core.old.moment core.new.moment (LeftSince core.old) (LeftSince core.new) (Images (states_of core.new)) }
    ensures moment { core.new.moment ≡ counted core.old.moment }
    ensures fine { IsTrue result → IsFalse failed }
{
    match bytes.to_vec(alloc) {
        Ok(copy) => core.make(file, Kind::Write(at, copy), failed).is_ok() && !failed,
        Err(_) => {
            core.skip();
            false
        }
    }
}

fn cut(core: &mut DiskCore, file: u64, n: u64, failed: bool) -> bool
    requires { n ≤ size (held_of core.old) file }
    ensures cut { IsTrue result → AtFile file (Shortened n) (held_of core.old) (held_of core.new) }
    ensures torn { AtFile file (TornCut n) (held_of core.old) (held_of core.new) }
    ensures crash { Follows (AtFile file (TornCut n)) (Images (states_of core.old)) (Images (states_of core.new)) }
    ensures time { core.new.moment < most → Elapses core.old.moment core.new.moment (LeftSince core.old) (LeftSince core.new) (Images (states_of core.new)) }
    ensures moment { core.new.moment ≡ counted core.old.moment }
    ensures fine { IsTrue result → IsFalse failed }
{
    core.make(file, Kind::Cut(n), failed).is_ok() && !failed
}

fn sync(core: &mut DiskCore, file: u64, failed: bool) -> bool
    ensures durable { IsTrue result → Settles file (held_of core.old file) (Images (states_of core.new)) }
    ensures held { Alike (held_of core.old) (held_of core.new) }
    ensures crash { NoMore (Images (states_of core.old)) (Images (states_of core.new)) }
    ensures time { core.new.moment < most → Elapses core.old.moment core.new.moment (LeftSince core.old) (LeftSince core.new) (Images (states_of core.new)) }
    ensures moment { core.new.moment ≡ counted core.old.moment }
    ensures fine { IsTrue result → IsFalse failed }
{
    core.make(file, Kind::Sync, failed).is_ok() && !failed
}

impl MemoryDisk {
    ghost use Rattle.bt_outside.specs.MemoryDisk.{IsFresh};

    /// A disk whose files were never written.
    pub fn new(alloc: Global) -> MemoryDisk
        ensures files { (file : ℕ) → states_of result.core file ≡ settled [] }
        ensures moment { result.core.moment ≡ 0 }
        ensures others { IsFresh result }
    {
        let files = FileList::new(alloc);
        MemoryDisk::from_image(alloc, DiskImage { files })
    }

    /// A disk that has these bytes as its stable ones, with nothing touched. They are not copied.
    pub fn from_image(alloc: Global, image: DiskImage) -> MemoryDisk
        ensures files { (file : ℕ) → states_of result.core file ≡ settled (files_of image.files file) }
        ensures moment { result.core.moment ≡ 0 }
        ensures others { IsFresh result }
    {
        MemoryDisk {
            alloc,
            core: DiskCore::new(alloc, image.files),
            asked: 0,
            tally: Tally::new(),
            fails: FailingCalls::new(alloc),
            stop: None,
        }
    }

    /// Lets the calls of these numbers fail, beside those that were given before.
    /// Where there is no memory for the numbers, nothing has changed.
    pub fn fail_calls(&mut self, numbers: &[u64]) -> Result<(), OutOfMemory>
        ensures ok { OnOk result (IsPermutation (self.old.fails ++ numbers.now) self.new.fails) }
        ensures others { self.new ≡ record self.old { fails = self.new.fails } }
        ensures err { OnErr result (self.new ≡ self.old) }
    {
        self.fails.add(numbers)
    }

    /// Lets every call from that one on fail. A number that was given before no longer counts.
    pub fn stop_at(&mut self, number: u64)
        ensures { self.new ≡ record self.old { stop = Some number } }
    {
        self.stop = Some(number);
    }

    /// What a crash now may leave: at choice 0 the stable bytes, at 1 the bytes as read, and above it
    /// of each file the greatest length, with `choice - 1` at each place that is touched.
    /// Where the stable bytes are too short or too long, they are filled up by 0 to the least length
    /// or cut to the greatest.
    pub fn image(&self, choice: u8) -> Result<DiskImage, OutOfMemory>
        ensures chosen { IfOk result (λ image. (file : ℕ) → Chosen choice (states_of self.now.core file) (files_of image.files file)) }
        ensures possible { IfOk result (λ image. Images (states_of self.now.core) (files_of image.files)) }
    {
        let files = self.core.image(choice)?;
        Ok(DiskImage {
            files: FileList::from_vec(files),
        })
    }

    /// The bytes that reads asked for, also failed ones.
    pub fn asked(&self) -> u64
        ensures { result ≡ self.now.asked }
    {
        self.asked
    }
}

// The clauses of a method stand in place of the trait's, which they repeat for this disk: `planned`
// and `plan` are its own.
impl Disk for MemoryDisk {
    ghost tells = { Unit {0} };

    ghost held = { λ d. held_of d.core };

    ghost may_leave = { λ d. Images (states_of d.core) };

    ghost moment = { λ d. d.core.moment };

    ghost left_since = { λ d. LeftSince d.core };

    ghost asked = { λ d. d.asked };

    ghost faults = { λ d. d.faults };

    ghost write_faults = { λ d. d.write_faults };

    ghost failing = { λ d. d.failing };

    ghost reads_as_image = { λ d _. reads_as_image_lem d.core };

    ghost counts_now = { λ d t c _ le now. inl now };

    ghost only_now = { λ d c _ below left. only_now_lem d.core c left };

    ghost sooner = { λ d t u c _ le left. sooner_lem d.core t u c le left };

    fn length(&mut self, file: u64) -> Result<u64, DiskFailed>
        ensures length { IfOk result (λ n. n ≡ size (held_of self.old.core) file) }
        ensures limit { IfOk result (λ n. n ≤ max_length) }
        ensures held { Alike (held_of self.old.core) (held_of self.new.core) }
        ensures crash { NoMore (Images (states_of self.old.core)) (Images (states_of self.new.core)) }
        ensures time { self.new.core.moment < most → Elapses self.old.core.moment self.new.core.moment (LeftSince self.old.core) (LeftSince self.new.core) (Images (states_of self.new.core)) }
        ensures asked { self.new.asked ≡ self.old.asked }
        ensures moment { self.new.core.moment ≡ counted self.old.core.moment }
        ensures faults { Counts self.old.faults self.new.faults result }
        ensures write_faults { self.new.write_faults ≡ self.old.write_faults }
        ensures failing { IsTrue self.new.failing ↔ IsErr result }
        ensures planned { IsStopped self.old.fails self.old.stop (counted self.old.core.moment) → IsErr result }
        ensures plan { (self.new.fails ≡ self.old.fails) × (self.new.stop ≡ self.old.stop) }
    {
        let stopped = is_stopped(&self.fails, self.stop, self.core.moment());
        let length = self.core.length(file);
        let done = look(
            &mut self.core,
            file,
            Kind::Length,
            stopped || length > MAX_LENGTH,
        );
        self.tally.look(done)?;
        Ok(length)
    }

    fn read(&mut self, file: u64, at: u64, into: &mut [u8]) -> Result<(), DiskFailed>
        requires { at + length into.old ≤ size (held_of self.old.core) file }
        ensures bytes { OnOk result (into.new ≡ slice_range (held_of self.old.core file) at (at + length into.old)) }
        ensures held { Alike (held_of self.old.core) (held_of self.new.core) }
        ensures crash { NoMore (Images (states_of self.old.core)) (Images (states_of self.new.core)) }
        ensures time { self.new.core.moment < most → Elapses self.old.core.moment self.new.core.moment (LeftSince self.old.core) (LeftSince self.new.core) (Images (states_of self.new.core)) }
        ensures asked { self.new.asked ≡ min (self.old.asked + length into.old) most }
        ensures moment { self.new.core.moment ≡ counted self.old.core.moment }
        ensures faults { Counts self.old.faults self.new.faults result }
        ensures write_faults { self.new.write_faults ≡ self.old.write_faults }
        ensures failing { IsTrue self.new.failing ↔ IsErr result }
        ensures planned { IsStopped self.old.fails self.old.stop (counted self.old.core.moment) → IsErr result }
        ensures plan { (self.new.fails ≡ self.old.fails) × (self.new.stop ≡ self.old.stop) }
    {
        let stopped = is_stopped(&self.fails, self.stop, self.core.moment());
        self.asked = self.asked.saturating_add(into.len() as u64);
        self.core.copy(file, at, into);
        let done = look(
            &mut self.core,
            file,
            Kind::Read(at, into.len() as u64),
            stopped,
        );
        self.tally.look(done)
    }

    fn write(&mut self, file: u64, at: u64, bytes: &[u8]) -> Result<(), DiskFailed>
        requires { at ≤ size (held_of self.old.core) file }
        ensures written { OnOk result (AtFile file (Holds at bytes.now) (held_of self.old.core) (held_of self.new.core)) }
        ensures torn { AtFile file (Torn at (length bytes.now)) (held_of self.old.core) (held_of self.new.core) }
        ensures limit { OnOk result (at + length bytes.now ≤ max_length) }
        ensures crash { Follows (AtFile file (Torn at (length bytes.now))) (Images (states_of self.old.core)) (Images (states_of self.new.core)) }
        ensures time { self.new.core.moment < most → Elapses self.old.core.moment self.new.core.moment (LeftSince self.old.core) (LeftSince self.new.core) (Images (states_of self.new.core)) }
        ensures asked { self.new.asked ≡ self.old.asked }
        ensures moment { self.new.core.moment ≡ counted self.old.core.moment }
        ensures faults { Counts self.old.faults self.new.faults result }
        ensures write_faults { Counts self.old.write_faults self.new.write_faults result }
        ensures failing { IsTrue self.new.failing ↔ IsErr result }
        ensures planned { IsStopped self.old.fails self.old.stop (counted self.old.core.moment) → IsErr result }
        ensures plan { (self.new.fails ≡ self.old.fails) × (self.new.stop ≡ self.old.stop) }
    {
        let stopped = is_stopped(&self.fails, self.stop, self.core.moment());
        let far = at > MAX_LENGTH || bytes.len() as u64 > MAX_LENGTH - at;
        let done = write(&mut self.core, self.alloc, file, at, bytes, stopped || far);
        self.tally.change(done)
    }

    fn cut(&mut self, file: u64, length: u64) -> Result<(), DiskFailed>
        requires { length ≤ size (held_of self.old.core) file }
        ensures cut { OnOk result (AtFile file (Shortened length) (held_of self.old.core) (held_of self.new.core)) }
        ensures torn { AtFile file (TornCut length) (held_of self.old.core) (held_of self.new.core) }
        ensures crash { Follows (AtFile file (TornCut length)) (Images (states_of self.old.core)) (Images (states_of self.new.core)) }
        ensures time { self.new.core.moment < most → Elapses self.old.core.moment self.new.core.moment (LeftSince self.old.core) (LeftSince self.new.core) (Images (states_of self.new.core)) }
        ensures asked { self.new.asked ≡ self.old.asked }
        ensures moment { self.new.core.moment ≡ counted self.old.core.moment }
        ensures faults { Counts self.old.faults self.new.faults result }
        ensures write_faults { Counts self.old.write_faults self.new.write_faults result }
        ensures failing { IsTrue self.new.failing ↔ IsErr result }
        ensures planned { IsStopped self.old.fails self.old.stop (counted self.old.core.moment) → IsErr result }
        ensures plan { (self.new.fails ≡ self.old.fails) × (self.new.stop ≡ self.old.stop) }
    {
        let stopped = is_stopped(&self.fails, self.stop, self.core.moment());
        let done = cut(&mut self.core, file, length, stopped);
        self.tally.change(done)
    }

    fn sync(&mut self, file: u64) -> Result<(), DiskFailed>
        ensures durable { OnOk result (Settles file (held_of self.old.core file) (Images (states_of self.new.core))) }
        ensures held { Alike (held_of self.old.core) (held_of self.new.core) }
        ensures crash { NoMore (Images (states_of self.old.core)) (Images (states_of self.new.core)) }
        ensures time { self.new.core.moment < most → Elapses self.old.core.moment self.new.core.moment (LeftSince self.old.core) (LeftSince self.new.core) (Images (states_of self.new.core)) }
        ensures asked { self.new.asked ≡ self.old.asked }
        ensures moment { self.new.core.moment ≡ counted self.old.core.moment }
        ensures faults { Counts self.old.faults self.new.faults result }
        ensures write_faults { Counts self.old.write_faults self.new.write_faults result }
        ensures failing { IsTrue self.new.failing ↔ IsErr result }
        ensures planned { IsStopped self.old.fails self.old.stop (counted self.old.core.moment) → IsErr result }
        ensures plan { (self.new.fails ≡ self.old.fails) × (self.new.stop ≡ self.old.stop) }
    {
        let stopped = is_stopped(&self.fails, self.stop, self.core.moment());
        let done = sync(&mut self.core, file, stopped);
        self.tally.change(done)
    }

    fn moment(&self) -> u64 {
        self.core.moment()
    }
}
