//! A disk whose manifest names a log.
ghost use Rattle.std.specs.Prelude.{◌≡◌, ◌+◌, ◌<◌, ◌≤◌, true, false, length, Ok, Some, None, OnOk, IfOk, IfErr, IfSome};
ghost use Rattle.std.specs.List.{AllByRecursion};
ghost use Rattle.bt_outside.specs.Disk.{Alike, max_length};
ghost use Rattle.bt_entry.specs.Grammar.{IsSpellableNumbered, last_moment};
ghost use Rattle.bt_crash.specs.Moments.{Keeps};
ghost use Rattle.bt_gate.specs.Faults.{Failed};
ghost use Rattle.bt_manifest.specs.Slots.{SlotsSettle, counting};
ghost use Rattle.bt_state.specs.State.{State, event_of, greatest_sequence, present_after};
ghost use Rattle.bt_store.specs.Held.{IsBroken, disk_state, segment_of, only_segment, has_no_files, base_state, follow, log_size, may_come};
ghost use Rattle.bt_store.specs.Stands.{Stands};
ghost use Rattle.bt_store.specs.Faults.{IsLoadFault, IsReplayFault};

use crate::limits::Limits;
use crate::store::Store;
use bt_entry::{Batch, Numbered};
use bt_gate::LogFault;
use bt_log::Log;
use bt_manifest::{Segment, Snapshot, TableFiles};
use bt_outside::Disk;
use bt_state::Present;
use std::alloc::Global;

/// Loads what a snapshot names. The files read as before.
pub(crate) fn load_from<D: Disk>(
    alloc: Global,
    disk: &mut D,
    limits: &Limits,
    snapshot: &Snapshot,
    generation: u64,
) -> Result<Store, LogFault>
    requires settled { D.tells → SlotsSettle (D.held disk.old) (D.may_leave disk.old) }
    requires counts { D.tells → counting (D.held disk.old) ≡ Ok (Some (snapshot.now, generation)) }
    requires floor { snapshot.now.floor ≤ last_moment }
    ensures stands { D.tells → IfOk result (λ store. (s : State) × (disk_state (D.held disk.old) ≡ Ok s) × Stands store s (D.held disk.new) (D.may_leave disk.new)) }
    ensures held { D.tells → Alike (D.held disk.old) (D.held disk.new) }
    ensures any_moment { Keeps D.Disk disk.old disk.new (D.may_leave disk.old) }
    ensures asked { D.tells → D.asked disk.new ≤ D.asked disk.old + log_size (D.held disk.old) }
    ensures fault { IfErr result (IsLoadFault (Failed D.Disk disk.old disk.new) (λ file at. D.tells → IsBroken (D.held disk.old) file at)) }
    ensures fine { OnOk result ((D.faults disk.new ≡ D.faults disk.old) × (D.write_faults disk.new ≡ D.write_faults disk.old)) }
    ensures limits { IfOk result (λ store. store.limits ≡ limits.now) }
{
    let Some(file) = segment_of(snapshot) else {
        return Err(LogFault::Damaged {
            file: generation % 2,
            at: 0,
        });
    };
    let (log, entries) = Log::load(alloc, disk, file, snapshot.base + 1)?;
    let present = replay(alloc, file, snapshot, entries)?;
    Ok(Store::new(present, log, *limits))
}

// The file of the log, where that holds every entry.
fn segment_of(snapshot: &Snapshot) -> Option<u64>
    ensures file { result ≡ segment_of snapshot.now }
    ensures base { IfSome result (λ _. snapshot.now.base ≡ 0) }
{
    let whole = snapshot.base == 0
        && have_no_files(snapshot.tables.items())
        && snapshot.schema.bytes() == b"\0\0\0\0".as_slice();
    if !whole {
        return None;
    }
    only_segment(snapshot.next_file, snapshot.segments.items())
}

fn have_no_files(tables: &[TableFiles]) -> bool
    ensures { result ≡ has_no_files tables.now }
{
    match tables {
        [] => true,
        _ => false,
    }
}

fn only_segment(next_file: u64, segments: &[Segment]) -> Option<u64>
    ensures { result ≡ only_segment next_file segments.now }
{
    let [segment] = segments else {
        return None;
    };
    if segment.first == 1 && 2 <= segment.file && segment.file < next_file {
        Some(segment.file)
    } else {
        None
    }
}

// The tables after the entries of a log that holds every entry.
fn replay(
    alloc: Global,
    file: u64,
    snapshot: &Snapshot,
    entries: Batch,
) -> Result<Present, LogFault>
    requires base { snapshot.now.base ≡ 0 }
    requires floor { snapshot.now.floor ≤ last_moment }
    requires few { length entries ≤ max_length }
    requires spellable { AllByRecursion IsSpellableNumbered entries }
    ensures some { IfOk result (λ p. (s : State) × (follow (base_state snapshot.now) entries ≡ Some s) × (p ≡ s.present)) }
    ensures floor { IfOk result (λ p. p.floor ≤ last_moment) }
    ensures fault { IfErr result (IsReplayFault file (follow (base_state snapshot.now) entries ≡ None)) }
{
    let mut present = Present::with_floor(alloc, snapshot.floor);
    for numbered in entries.into_vec() {
        apply_next(alloc, &mut present, file, numbered)?;
    }
    Ok(present)
}

fn apply_next(
    alloc: Global,
    present: &mut Present,
    file: u64,
    numbered: Numbered,
) -> Result<(), LogFault>
    requires room { present.old.last < greatest_sequence }
    requires spellable { IsSpellableNumbered numbered }
    ensures some { OnOk result ((may_come present.old (event_of numbered) ≡ true) × (present.new ≡ present_after present.old (event_of numbered))) }
    ensures fault { IfErr result (IsReplayFault file (may_come present.old (event_of numbered) ≡ false)) }
{
    if numbered.moment < present.floor() || !present.allows(&numbered.entry) {
        return Err(LogFault::Damaged { file, at: 0 });
    }
    present.apply(alloc, numbered.entry, numbered.moment)?;
    Ok(())
}
