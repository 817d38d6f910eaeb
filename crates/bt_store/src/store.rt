//! The tables in memory, and the log that holds them.
ghost use Rattle.std.specs.Prelude.{◌≡◌, ◌↔◌, ◌<◌, ◌≤◌, ◌+◌, ◌*◌, ◌^◌, [], ◌∷◌, List, length, Ok, Err, OnOk, IfOk, IfErr, IsTrue, IsFalse};
ghost use Rattle.bt_base.specs.Counts.{counted};
ghost use Rattle.bt_outside.specs.Disk.{size};
ghost use Rattle.bt_entry.specs.Grammar.{AreNumbered, last_moment};
ghost use Rattle.bt_entry.specs.Spelling.{spelling};
ghost use Rattle.bt_crash.specs.Moments.{Keeps};
ghost use Rattle.bt_crash.specs.Changes.{StepsThrough};
ghost use Rattle.bt_gate.specs.Faults.{Failed, WriteFailed};
ghost use Rattle.bt_state.specs.State.{State, AreLawful, after_record, events_of, greatest_sequence, moment_used, presents_after, rows_of};
ghost use Rattle.bt_contents.specs.Ranges.{rows_within, unread};
ghost use Rattle.bt_store.specs.Held.{HoldsState, IsBroken, LikeSome, disk_state, log_size};
ghost use Rattle.bt_store.specs.Stands.{Stands};
ghost use Rattle.bt_store.specs.Faults.{IsTooLarge, IsRefused, IsCommitFault, IsLoadFault, IsStageFault};

use crate::begun::begin;
use crate::limits::Limits;
use crate::loaded::load_from;
use crate::table_cursor::TableCursor;
use bt_contents::ContentsRows;
use bt_entry::{Batch, fits, write_batch};
use bt_gate::LogFault;
use bt_log::{Log, Record};
use bt_manifest::load_manifest;
use bt_outside::Disk;
use bt_schema::Schema;
use bt_state::Present;
use bt_types::{NoReads, RowRange};
use std::alloc::Global;
use std::marker::Model;

/// The tables in memory, with the log that holds their entries. It does not hold the disk: each
/// call is given it.
#[derive(Drop)]
pub struct Store {
    present: Present,
    log: Log,
    limits: Limits,
}

impl Model for Store {
    ghost use Rattle.std.specs.Prelude.{◌≤◌};
    ghost use Rattle.std.specs.Coded.{codes};
    ghost use Rattle.bt_entry.specs.Grammar.{last_moment};
    ghost use Rattle.bt_rules.specs.contracts.rule.Rule as rule;
    ghost use Rattle.bt_store.specs.Stands.{Seen};

    ghost Value = { Seen };

    ghost coded = { Prim.hlevel (codes, rule.the_row.coded) };

    ghost view = { λ s. record { present = s.present; log = s.log; limits = s.limits } };

    ghost invariant = { λ s. s.present.floor ≤ last_moment };
}

impl Store {
    /// A store of these parts.
    pub(crate) fn new(present: Present, log: Log, limits: Limits) -> Store
        requires { present.floor ≤ last_moment }
        ensures { result ≡ (record { present = present; log = log; limits = limits }) }
    {
        Store {
            present,
            log,
            limits,
        }
    }

    /// Loads the state that the files stand for. A disk on which no slot of the manifest is opened
    /// stands for the state before the first entry: then an empty log is made in file 2, and the
    /// manifest names it. A crash at each moment leaves files that stand for what those before did.
    /// It asks for at most twice the bytes of the slots, and for those of the log once.
    ///
    /// It answers `Damaged` only where the files stand for no state, with the first place that is
    /// outside the format: a slot of the manifest, or a record of the log, or place 0 of the log
    /// where an entry may not come behind those before it. It answers `DiskFailed` where a call of
    /// the disk failed, which is then its last; and `OutOfMemory`.
    pub fn load<D: Disk>(alloc: Global, disk: &mut D, limits: &Limits) -> Result<Store, LogFault>
        ensures stands { D.tells → IfOk result (λ store. (s : State) × (disk_state (D.held disk.old) ≡ Ok s) × Stands store s (D.held disk.new) (D.may_leave disk.new)) }
        ensures same { D.tells → disk_state (D.held disk.new) ≡ disk_state (D.held disk.old) }
        ensures any_moment { Keeps D.Disk disk.old disk.new (LikeSome (D.may_leave disk.old)) }
        ensures asked { D.tells → D.asked disk.new ≤ D.asked disk.old + 2 * (size (D.held disk.old) 0 + size (D.held disk.old) 1) + log_size (D.held disk.old) }
        ensures fault { IfErr result (IsLoadFault (Failed D.Disk disk.old disk.new) (λ file at. D.tells → IsBroken (D.held disk.old) file at)) }
        ensures fine { OnOk result ((D.faults disk.new ≡ D.faults disk.old) × (D.write_faults disk.new ≡ D.write_faults disk.old)) }
        ensures limits { IfOk result (λ store. store.limits ≡ limits.now) }
    {
        let Some((snapshot, generation)) = load_manifest(alloc, disk)? else {
            return begin(alloc, disk, limits);
        };
        load_from(alloc, disk, limits, &snapshot, generation)
    }

    /// Commits entries that may come next, all or none: adds them to the log as one record, in four
    /// calls of the disk, and makes their changes. A crash at each moment leaves the state before
    /// the first entry or the one behind the last, and after `Ok` the one behind the last. Nothing is
    /// read.
    ///
    /// It answers `TooLarge` where the record's body, which has `length` bytes, is longer than the
    /// limit, or where sequences are not left for all entries; and `OutOfMemory`. Both come before
    /// the first call of the disk, and nothing has changed. It answers `DiskFailed` where a call of
    /// the disk failed: the disk has then the state with the entries or without, and the store is
    /// only dropped.
    pub fn commit<D: Disk>(
        &mut self,
        alloc: Global,
        disk: &mut D,
        batch: Batch,
    ) -> Result<(), LogFault>
        requires stands { D.tells → (s : State) × Stands self.old s (D.held disk.old) (D.may_leave disk.old) }
        requires some { (1 ≤ length batch) × (length batch < 2 ^ 32) }
        requires numbered { AreNumbered (self.old.present.last + 1) batch }
        requires lawful { AreLawful self.old.present (events_of batch) }
        ensures stands { (s : State) → D.tells → Stands self.old s (D.held disk.old) (D.may_leave disk.old) → OnOk result (Stands self.new (after_record s (events_of batch)) (D.held disk.new) (D.may_leave disk.new)) }
        ensures any_moment { (s : State) → (D.tells → Stands self.old s (D.held disk.old) (D.may_leave disk.old)) → StepsThrough D.Disk HoldsState after_record s (events_of batch ∷ []) disk.old disk.new }
        ensures asked { D.tells → D.asked disk.new ≡ D.asked disk.old }
        ensures present { OnOk result (self.new.present ≡ presents_after self.old.present (events_of batch)) }
        ensures limits { self.new.limits ≡ self.old.limits }
        ensures large { IsTooLarge self.old batch → IsRefused (length (spelling batch)) result }
        ensures fault { IfErr result (IsCommitFault self.old batch (WriteFailed D.Disk disk.old disk.new) ((disk.new ≡ disk.old) × (self.new ≡ self.old))) }
        ensures fine { OnOk result ((D.faults disk.new ≡ D.faults disk.old) × (D.write_faults disk.new ≡ D.write_faults disk.old)) }
        ensures four { OnOk result (D.moment disk.new ≡ counted (counted (counted (counted (D.moment disk.old))))) }
    {
        let body = write_batch(alloc, &batch)?;
        let record = self.record(alloc, body.bytes(), batch.items().len())?;
        // All memory is taken before the first call of the disk.
        self.present.apply_all(alloc, batch)?;
        self.log.add(disk, &record)?;
        Ok(())
    }

    // The record of so many entries, whose body has these bytes.
    fn record(&self, alloc: Global, body: &[u8], entries: usize) -> Result<Record, LogFault>
        ensures some { IfOk result (λ r. (r ≡ body.now) × (length body.now ≤ self.now.limits.body) × (self.now.present.last + entries ≤ greatest_sequence)) }
        ensures fault { IfErr result (IsStageFault self.now (length body.now) entries) }
    {
        if !self.present.has_room(entries) {
            let length = body.len() as u64;
            return Err(LogFault::TooLarge { length });
        }
        Record::new(alloc, body, self.limits.body)
    }

    /// Whether the record of these entries is too large: longer than the limit, or without sequences
    /// for all of them. It takes no memory.
    pub fn is_too_large(&self, batch: &Batch) -> bool
        ensures large { IsTrue result ↔ IsTooLarge self.now batch.now }
        ensures few { IsFalse result → length batch.now < 2 ^ 32 }
    {
        !self.present.has_room(batch.items().len()) || !fits(batch, self.limits.body)
    }

    /// The tables as they are.
    pub fn present(&self) -> &Present
        ensures { result.now ≡ self.now.present }
    {
        &self.present
    }

    /// The limits with which it was loaded.
    pub fn limits(&self) -> &Limits
        ensures { result.now ≡ self.now.limits }
    {
        &self.limits
    }

    /// What is known of the tables besides their rows.
    pub fn schema(&self) -> &Schema
        ensures { result.now ≡ self.now.present.schema }
    {
        self.present.schema()
    }

    /// The rows whose keys are in the range of the table of that incarnation, in the order of keys.
    /// There are none where it never had one.
    pub fn cursor(&self, alloc: Global, incarnation: u64, range: &RowRange) -> TableCursor<'_>
        ensures { result.rows ≡ unread (rows_within range.now (rows_of incarnation self.now.present.contents)) }
    {
        let rows = match self.present.rows_of(incarnation) {
            Some(contents) => contents.rows_in(alloc, range),
            None => ContentsRows::empty(alloc),
        };
        TableCursor {
            rows,
            reads: NoReads,
        }
    }

    /// The sequence of the last entry, or 0.
    pub fn last_sequence(&self) -> u64
        ensures { result ≡ self.now.present.last }
    {
        self.present.last_sequence()
    }

    /// The moment to use for a reading of the clock, in microseconds since 1970: moments never
    /// fall, and none is past the year 9999.
    pub fn moment_used(&self, reading: u64) -> u64
        ensures moment { result ≡ moment_used self.now.present.floor reading }
        ensures within { result ≤ last_moment }
    {
        self.present.moment_used(reading)
    }
}
