//! A new snapshot in the slot that does not count.
ghost use Rattle.std.specs.Prelude.{◌≡◌, ◌↔◌, ℕ, ◌+◌, ◌%◌, ◌≤◌, [], Ok, Some, length, IsTrue, IsErr, OnOk, OnErr, IfOk, IfErr};
ghost use Rattle.bt_base.specs.Counts.{Counts};
ghost use Rattle.bt_outside.specs.Disk.{size, AtFile, Settles};
ghost use Rattle.bt_crash.specs.Moments.{Keeps};
ghost use Rattle.bt_crash.specs.Steps.{StepsAt, Anyhow};
ghost use Rattle.bt_gate.specs.Gate.{IsOpened};
ghost use Rattle.bt_manifest.specs.Grammar.{IsSnapshot, most_body, most_number};
ghost use Rattle.bt_manifest.specs.Spelling.{snapshot_bytes};
ghost use Rattle.bt_manifest.specs.Slots.{SlotsSettle, counting, slot_bytes};
ghost use Rattle.bt_manifest.specs.Publishing.{IsNext, IsPublishFault, OldOrNew, SlotFailed, SlotStep};

use crate::Snapshot;
use crate::closing::close;
use crate::writing::put_snapshot;
use bt_codec::{put_u32, put_u64};
use bt_gate::{LogFault, append};
use bt_outside::{Disk, DiskFailed};
use std::alloc::{AllocError, Global};

/// Publishes the snapshot as this generation, in the file of its parity: a crash at each moment
/// leaves a disk on which the snapshot of before counts, or this one, and after `Ok` this one
/// counts.
///
/// The caller sees to it that nothing of the slots is pending, and gives the generation that comes
/// behind the one that counts, or 1 where no slot is opened. `Snapshot::body_length` tells whether
/// the body keeps its limit of 1,073,741,824 bytes.
///
/// It asks for no more bytes than the file has. It answers `OutOfMemory` before its first call of
/// the disk, or `DiskFailed` after a call that failed, which is its last.
pub fn publish<D: Disk>(
    alloc: Global,
    disk: &mut D,
    snapshot: &Snapshot,
    generation: u64,
) -> Result<(), LogFault>
    requires grammar { IsSnapshot snapshot.now }
    requires body { length (snapshot_bytes snapshot.now) ≤ most_body }
    requires limit { generation ≤ most_number }
    requires settled { D.tells → SlotsSettle (D.held disk.old) (D.may_leave disk.old) }
    requires next { D.tells → IsNext (counting (D.held disk.old)) generation }
    ensures published { D.tells → OnOk result (counting (D.held disk.new) ≡ Ok (Some (snapshot.now, generation))) }
    ensures settled { D.tells → OnOk result (SlotsSettle (D.held disk.new) (D.may_leave disk.new)) }
    ensures others { D.tells → AtFile (generation % 2) Anyhow (D.held disk.old) (D.held disk.new) }
    ensures any_moment { Keeps D.Disk disk.old disk.new (OldOrNew (D.may_leave disk.old) (counting (D.held disk.old)) snapshot.now generation) }
    ensures asked { D.tells → D.asked disk.new ≤ D.asked disk.old + size (D.held disk.old) (generation % 2) }
    ensures fault { IfErr result (IsPublishFault D.Disk disk.old disk.new) }
    ensures fine { OnOk result ((D.faults disk.new ≡ D.faults disk.old) × (D.write_faults disk.new ≡ D.write_faults disk.old)) }
{
    let bytes = bytes_of(alloc, snapshot, generation)?;
    write_slot(disk, generation % 2, &bytes)?;
    Ok(())
}

// What stands behind the gate.
fn bytes_of(alloc: Global, snapshot: &Snapshot, generation: u64) -> Result<Vec<u8>, AllocError>
    requires grammar { IsSnapshot snapshot.now }
    requires body { length (snapshot_bytes snapshot.now) ≤ most_body }
    ensures { IfOk result (λ v. v.items ≡ slot_bytes snapshot.now generation) }
{
    let length = snapshot.body_length();
    let mut bytes = Vec::with_capacity(alloc, 12 + length as usize)?;
    put_u64(&mut bytes, generation)?;
    put_u32(&mut bytes, length as u32)?;
    put_snapshot(&mut bytes, snapshot)?;
    Ok(bytes)
}

// Closes the gate of the slot, writes these bytes behind it, and opens it.
fn write_slot<D: Disk>(disk: &mut D, file: u64, bytes: &[u8]) -> Result<(), DiskFailed>
    requires { D.tells → Settles file (D.held disk.old file) (D.may_leave disk.old) }
    ensures written { D.tells → OnOk result (AtFile file (λ _ new. IsOpened [] bytes.now new) (D.held disk.old) (D.held disk.new)) }
    ensures settled { D.tells → OnOk result (Settles file (D.held disk.new file) (D.may_leave disk.new)) }
    ensures others { D.tells → AtFile file Anyhow (D.held disk.old) (D.held disk.new) }
    ensures any_moment { StepsAt D.Disk file (SlotStep file bytes.now) disk.old disk.new }
    ensures asked { D.tells → D.asked disk.new ≤ D.asked disk.old + size (D.held disk.old) file }
    ensures cause { OnErr result (SlotFailed D.Disk disk.old disk.new) }
    ensures faults { Counts (D.faults disk.old) (D.faults disk.new) result }
    ensures write_faults { OnOk result (D.write_faults disk.new ≡ D.write_faults disk.old) }
    ensures failing { IsTrue (D.failing disk.new) ↔ IsErr result }
{
    close(disk, file)?;
    append(disk, file, 0, bytes)
}
