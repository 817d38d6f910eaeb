//! The records of a change, committed one after another.
ghost use Rattle.std.specs.Prelude.{◌≡◌, ◌≤◌, ◌+◌, [], ◌∷◌, length, map, OnOk};
ghost use Rattle.bt_entry.specs.Grammar.{AreNumbered};
ghost use Rattle.bt_plans.specs.Plans.{AreRecords};
ghost use Rattle.bt_service.specs.Commits.{CommitsSo, fault_of, is_failed};
ghost use Rattle.bt_service.specs.Outcomes.{FailsIf};
ghost use Rattle.bt_state.specs.State.{AreLawful, State, events_of, presents_after};
ghost use Rattle.bt_store.specs.Stands.{Stands};

use bt_entry::Batch;
use bt_outside::Disk;
use bt_plans::RecordList;
use bt_store::{Store, StoreFault};
use std::alloc::Global;

/// Why a record was not committed, nor those behind it.
#[derive(Clone, Copy, Debug, PartialEq, Eq)]
pub(crate) enum ChangeFault {
    TooLarge,
    OutOfMemory,
    DiskFailed,
}

/// Commits records in order, up to the first that is not committed.
pub(crate) fn commit_records<D: Disk>(
    alloc: Global,
    store: &mut Store,
    disk: &mut D,
    records: RecordList,
) -> Result<(), ChangeFault>
    requires stands { D.tells → (s : State) × Stands store.old s (D.held disk.old) (D.may_leave disk.old) }
    requires lawful { AreRecords store.old.present records }
    ensures commits { D.tells → (s : State) → Stands store.old s (D.held disk.old) (D.may_leave disk.old) → CommitsSo D.Disk store.old.limits s (map events_of records) disk.old disk.new store.new result }
    ensures counted { FailsIf D.Disk (is_failed result) disk.old disk.new }
    ensures limits { store.new.limits ≡ store.old.limits }
{
    let batches = records.into_vec();
    for batch in batches {
        commit_record(alloc, store, disk, batch)?;
    }
    Ok(())
}

// A record that is too large is refused as that, also where memory is short: the records before it
// are there, and stay.
fn commit_record<D: Disk>(
    alloc: Global,
    store: &mut Store,
    disk: &mut D,
    batch: Batch,
) -> Result<(), ChangeFault>
    requires stands { D.tells → (s : State) × Stands store.old s (D.held disk.old) (D.may_leave disk.old) }
    requires some { 1 ≤ length batch }
    requires numbered { AreNumbered (store.old.present.last + 1) batch }
    requires lawful { AreLawful store.old.present (events_of batch) }
    ensures commits { D.tells → (s : State) → Stands store.old s (D.held disk.old) (D.may_leave disk.old) → CommitsSo D.Disk store.old.limits s (events_of batch ∷ []) disk.old disk.new store.new result }
    ensures present { OnOk result (store.new.present ≡ presents_after store.old.present (events_of batch)) }
    ensures counted { FailsIf D.Disk (is_failed result) disk.old disk.new }
    ensures limits { store.new.limits ≡ store.old.limits }
{
    if store.is_too_large(&batch) {
        return Err(ChangeFault::TooLarge);
    }
    match store.commit(alloc, disk, batch) {
        Ok(()) => Ok(()),
        Err(fault) => Err(change_fault(fault)),
    }
}

// No commit finds damage.
fn change_fault(fault: StoreFault) -> ChangeFault
    ensures { result ≡ fault_of fault }
{
    match fault {
        StoreFault::TooLarge { .. } => ChangeFault::TooLarge,
        StoreFault::OutOfMemory => ChangeFault::OutOfMemory,
        StoreFault::DiskFailed | StoreFault::Damaged { .. } => ChangeFault::DiskFailed,
    }
}
