//! A segment that is open for appends.
ghost use Rattle.std.specs.Prelude.{◌≡◌, ◌+◌, ◌<◌, ◌≤◌, ◌++◌, ◌∷◌, [], ℕ, List, length, Ok, Err, OnOk, OnErr, IfOk, IfErr};
ghost use Rattle.std.specs.List.{AllByRecursion};
ghost use Rattle.bt_base.specs.Counts.{counted};
ghost use Rattle.bt_outside.specs.Disk.{size, max_length, AtFile, Alike};
ghost use Rattle.bt_entry.specs.declared.numbered.Numbered.{Numbered};
ghost use Rattle.bt_entry.specs.Grammar.{IsSpellable, IsSpellableNumbered, AreNumbered};
ghost use Rattle.bt_entry.specs.Spelling.{spelling};
ghost use Rattle.bt_crash.specs.Moments.{Keeps};
ghost use Rattle.bt_crash.specs.Steps.{Anyhow, StepsAt};
ghost use Rattle.bt_gate.specs.Faults.{Failed, WriteFailed};
ghost use Rattle.bt_gate.specs.declared.log_fault.LogFault.TheVariants as fault;
ghost use Rattle.bt_log.specs.Segment.{segment};
ghost use Rattle.bt_log.specs.Log.{IsOpen, IsSomeOpen, WithOrWithout, IsLoadFault, IsAppendFault};

use crate::body::Record;
use crate::fault::Fault;
use crate::records::records_in;
use bt_entry::Batch;
use bt_gate::{LogFault, append, read_file};
use bt_outside::{Disk, DiskFailed};
use std::alloc::Global;
use std::marker::Model;

/// A segment of the write-ahead log that is open for appends.
///
/// A segment is one file: records one after another, and then a closed gate. A record is an opened
/// gate, the length of its body in four bytes (big-endian), and the body, which spells a batch of
/// entries. A gate is a byte: 1 is opened, every other value is closed, and 0 is written for it.
/// What stands behind the first closed gate counts for nothing. Sequences are not written: the
/// entries are numbered on from the first sequence that the caller gives.
#[derive(Debug, Drop)]
pub struct Log {
    file: u64,
    end: u64,
}

impl Model for Log {
    ghost use Rattle.std.specs.Prelude.{◌≤◌};
    ghost use Rattle.bt_outside.specs.Disk.{max_length};
    ghost use Rattle.bt_log.specs.Place.{Place};

    ghost Value = { Place };

    ghost view = { λ log. record { file = log.file; end = log.end } };

    ghost invariant = { λ log. log.end ≤ max_length };
}

impl Log {
    /// Makes the file an empty segment: cuts it to nothing, writes a closed gate, and syncs it. The
    /// file is then the one byte 0. Nothing is read.
    ///
    /// It answers no other fault than `DiskFailed`. The file may then have any bytes.
    pub fn create<D: Disk>(disk: &mut D, file: u64) -> Result<Log, LogFault>
        ensures file { IfOk result (λ log. log.file ≡ file) }
        ensures open { D.tells → IfOk result (λ log. (first : ℕ) → IsOpen log first [] (D.held disk.new) (D.may_leave disk.new)) }
        ensures bytes { D.tells → OnOk result (D.held disk.new file ≡ 0 ∷ []) }
        ensures others { D.tells → AtFile file Anyhow (D.held disk.old) (D.held disk.new) }
        ensures any_moment { StepsAt D.Disk file Anyhow disk.old disk.new }
        ensures asked { D.tells → D.asked disk.new ≡ D.asked disk.old }
        ensures cause { IfErr result (λ e. (e ≡ fault.DiskFailed) × WriteFailed D.Disk disk.old disk.new) }
        ensures fine { OnOk result ((D.faults disk.new ≡ D.faults disk.old) × (D.write_faults disk.new ≡ D.write_faults disk.old)) }
        ensures three { OnOk result (D.moment disk.new ≡ counted (counted (counted (D.moment disk.old)))) }
    {
        disk.cut(file, 0)?;
        disk.write(file, 0, &[0])?;
        disk.sync(file)?;
        Ok(Log { file, end: 0 })
    }

    /// Syncs the segment and reads it once, whole. It gives the log, and the entries of the records
    /// up to the first closed gate, numbered on from `first`.
    ///
    /// It answers `Damaged` where the file is no segment: `at` is the place where an opened record
    /// begins that is outside the format, or the end of the file where a gate must stand. It answers
    /// `DiskFailed` or `OutOfMemory` too. The file reads as before in every case.
    pub fn load<D: Disk>(
        alloc: Global,
        disk: &mut D,
        file: u64,
        first: u64,
    ) -> Result<(Log, Batch), LogFault>
        requires { first ≤ 4611686018427387904 }
        ensures file { IfOk result (λ x. x.0.file ≡ file) }
        ensures entries { D.tells → IfOk result (λ x. segment first (D.held disk.old file) ≡ Ok x.1) }
        ensures numbered { IfOk result (λ x. AreNumbered first x.1) }
        ensures spellable { IfOk result (λ x. AllByRecursion IsSpellableNumbered x.1) }
        ensures few { IfOk result (λ x. length x.1 ≤ max_length) }
        ensures open { D.tells → IfOk result (λ x. IsOpen x.0 first x.1 (D.held disk.new) (D.may_leave disk.new)) }
        ensures fault { IfErr result (IsLoadFault (Failed D.Disk disk.old disk.new) file (λ at. D.tells → segment first (D.held disk.old file) ≡ Err at)) }
        ensures held { D.tells → Alike (D.held disk.old) (D.held disk.new) }
        ensures any_moment { Keeps D.Disk disk.old disk.new (D.may_leave disk.old) }
        ensures asked { D.tells → D.asked disk.new ≤ D.asked disk.old + size (D.held disk.old) file }
        ensures fine { OnOk result ((D.faults disk.new ≡ D.faults disk.old) × (D.write_faults disk.new ≡ D.write_faults disk.old)) }
    {
        let bytes = read_file(alloc, disk, file)?;
        match records_in(alloc, &bytes, first) {
            Ok((entries, left)) => {
                let end = (bytes.len() - left) as u64;
                Ok((Log { file, end }, entries))
            }
            Err(Fault::Bad { left }) => {
                let at = (bytes.len() - left) as u64;
                Err(LogFault::Damaged { file, at })
            }
            Err(Fault::OutOfMemory) => Err(LogFault::OutOfMemory),
        }
    }

    /// Adds a record, whose body is the spelling of a batch. It makes four calls of the disk: it
    /// writes the record behind the closed gate and syncs it, and then opens the gate and syncs it.
    /// Nothing is read.
    ///
    /// It fails only where a call failed: the segment has then its entries, with those of the record
    /// or without, and the log is only dropped, since nobody can tell which.
    pub fn add<D: Disk>(&mut self, disk: &mut D, staged: &Record) -> Result<(), DiskFailed>
        requires { D.tells → IsSomeOpen self.old (D.held disk.old) (D.may_leave disk.old) }
        ensures file { self.new.file ≡ self.old.file }
        ensures open { (first : ℕ) (entries batch : List Numbered) → IsSpellable batch → AreNumbered (first + length entries) batch → staged.now ≡ spelling batch → D.tells → IsOpen self.old first entries (D.held disk.old) (D.may_leave disk.old) → OnOk result (IsOpen self.new first (entries ++ batch) (D.held disk.new) (D.may_leave disk.new)) }
        ensures any_moment { (first : ℕ) (entries batch : List Numbered) → IsSpellable batch → AreNumbered (first + length entries) batch → staged.now ≡ spelling batch → (D.tells → IsOpen self.old first entries (D.held disk.old) (D.may_leave disk.old)) → StepsAt D.Disk self.old.file (WithOrWithout first entries batch) disk.old disk.new }
        ensures others { D.tells → AtFile self.old.file Anyhow (D.held disk.old) (D.held disk.new) }
        ensures asked { D.tells → D.asked disk.new ≡ D.asked disk.old }
        ensures cause { OnErr result (WriteFailed D.Disk disk.old disk.new) }
        ensures fine { OnOk result ((D.faults disk.new ≡ D.faults disk.old) × (D.write_faults disk.new ≡ D.write_faults disk.old)) }
        ensures four { OnOk result (D.moment disk.new ≡ counted (counted (counted (counted (D.moment disk.old))))) }
    {
        let bytes = staged.bytes();
        append(disk, self.file, self.end, bytes)?;
        self.end += bytes.len() as u64;
        Ok(())
    }

    /// Makes a record of this body, the spelling of a batch, and adds it in four calls of the disk.
    ///
    /// It answers `TooLarge` where the body has more than `limit` bytes, and `OutOfMemory`; both
    /// come before any call of the disk, and nothing has changed. It answers `DiskFailed` where a
    /// call failed: the segment has then its entries, with those of the body or without, and the log
    /// is only dropped, since nobody can tell which.
    pub fn append<D: Disk>(
        &mut self,
        alloc: Global,
        disk: &mut D,
        body: &[u8],
        limit: u32,
    ) -> Result<(), LogFault>
        requires { D.tells → IsSomeOpen self.old (D.held disk.old) (D.may_leave disk.old) }
        ensures file { self.new.file ≡ self.old.file }
        ensures open { (first : ℕ) (entries batch : List Numbered) → IsSpellable batch → AreNumbered (first + length entries) batch → body.now ≡ spelling batch → D.tells → IsOpen self.old first entries (D.held disk.old) (D.may_leave disk.old) → OnOk result (IsOpen self.new first (entries ++ batch) (D.held disk.new) (D.may_leave disk.new)) }
        ensures any_moment { (first : ℕ) (entries batch : List Numbered) → IsSpellable batch → AreNumbered (first + length entries) batch → body.now ≡ spelling batch → (D.tells → IsOpen self.old first entries (D.held disk.old) (D.may_leave disk.old)) → StepsAt D.Disk self.old.file (WithOrWithout first entries batch) disk.old disk.new }
        ensures others { D.tells → AtFile self.old.file Anyhow (D.held disk.old) (D.held disk.new) }
        ensures asked { D.tells → D.asked disk.new ≡ D.asked disk.old }
        ensures large { limit < length body.now → result ≡ Err (fault.TooLarge (length body.now)) }
        ensures fault { IfErr result (IsAppendFault (WriteFailed D.Disk disk.old disk.new) limit (length body.now) ((disk.new ≡ disk.old) × (self.new ≡ self.old))) }
        ensures fine { OnOk result ((D.faults disk.new ≡ D.faults disk.old) × (D.write_faults disk.new ≡ D.write_faults disk.old)) }
        ensures four { OnOk result (D.moment disk.new ≡ counted (counted (counted (counted (D.moment disk.old))))) }
    {
        let staged = Record::new(alloc, body, limit)?;
        self.add(disk, &staged)?;
        Ok(())
    }
}
