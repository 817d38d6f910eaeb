//! A disk on which no slot is opened.
ghost use Rattle.std.specs.Prelude.{◌≡◌, ◌+◌, ◌≤◌, Ok, None, IfOk, IfErr, OnOk};
ghost use Rattle.bt_outside.specs.Disk.{size};
ghost use Rattle.bt_crash.specs.Moments.{Keeps};
ghost use Rattle.bt_gate.specs.Faults.{Failed, IsDiskFault};
ghost use Rattle.bt_manifest.specs.Slots.{SlotsSettle, counting};
ghost use Rattle.bt_state.specs.State.{empty_state};
ghost use Rattle.bt_store.specs.Held.{HoldsState, first_snapshot};
ghost use Rattle.bt_store.specs.Stands.{Stands};

use crate::limits::Limits;
use crate::store::Store;
use bt_base::{Blob, OutOfMemory};
use bt_gate::LogFault;
use bt_log::Log;
use bt_manifest::{Segment, SegmentList, Snapshot, TableFileList, publish};
use bt_outside::Disk;
use bt_state::Present;
use std::alloc::Global;

const FIRST_FILE: u64 = 2;

/// Makes an empty log, and publishes it: a crash at each moment leaves files that stand for the
/// state before the first entry.
pub(crate) fn begin<D: Disk>(
    alloc: Global,
    disk: &mut D,
    limits: &Limits,
) -> Result<Store, LogFault>
    requires settled { D.tells → SlotsSettle (D.held disk.old) (D.may_leave disk.old) }
    requires none { D.tells → counting (D.held disk.old) ≡ Ok None }
    ensures stands { D.tells → IfOk result (λ store. Stands store empty_state (D.held disk.new) (D.may_leave disk.new)) }
    ensures any_moment { Keeps D.Disk disk.old disk.new (HoldsState empty_state) }
    ensures asked { D.tells → D.asked disk.new ≤ D.asked disk.old + size (D.held disk.old) 1 }
    ensures fault { IfErr result (IsDiskFault (Failed D.Disk disk.old disk.new)) }
    ensures fine { OnOk result ((D.faults disk.new ≡ D.faults disk.old) × (D.write_faults disk.new ≡ D.write_faults disk.old)) }
    ensures limits { IfOk result (λ store. store.limits ≡ limits.now) }
{
    let snapshot = first_snapshot(alloc)?;
    let log = Log::create(disk, FIRST_FILE)?;
    publish(alloc, disk, &snapshot, 1)?;
    Ok(Store::new(Present::new(alloc), log, *limits))
}

fn first_snapshot(alloc: Global) -> Result<Snapshot, OutOfMemory>
    ensures { IfOk result (λ s. s ≡ first_snapshot) }
{
    let mut segments = SegmentList::new(alloc);
    segments.push(Segment {
        file: FIRST_FILE,
        first: 1,
    })?;
    let schema = Blob::new(alloc, &[0, 0, 0, 0])?;
    Ok(Snapshot {
        next_file: 3,
        floor: 0,
        base: 0,
        segments,
        tables: TableFileList::new(alloc),
        schema,
    })
}
