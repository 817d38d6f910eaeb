//! The snapshot that counts.
ghost use Rattle.std.specs.Prelude.{◌≡◌, ◌+◌, ◌≤◌, OnOk, IfOk, IfErr};
ghost use Rattle.bt_outside.specs.Disk.{size, Alike};
ghost use Rattle.bt_crash.specs.Moments.{Keeps};
ghost use Rattle.bt_manifest.specs.Slots.{SlotsSettle, counting};
ghost use Rattle.bt_manifest.specs.Loading.{Answers, CouldStand, IsLoadFault};

use crate::Snapshot;
use crate::slot::{latest_of, slot_of};
use bt_gate::{LogFault, read_file};
use bt_outside::Disk;
use std::alloc::Global;

/// Syncs both slots, and gives the snapshot that counts with its generation, or none where no slot
/// is opened.
///
/// It answers `Damaged` exactly where an opened slot is outside the format, with the file of that
/// slot, 0 before 1, and place 0; `DiskFailed` where a call of the disk failed, which is then its
/// last; and `OutOfMemory`. The files read as before in every case.
pub fn load_manifest<D: Disk>(
    alloc: Global,
    disk: &mut D,
) -> Result<Option<(Snapshot, u64)>, LogFault>
    ensures answer { D.tells → Answers result (counting (D.held disk.old)) }
    ensures lawful { IfOk result (λ o. CouldStand o) }
    ensures held { D.tells → Alike (D.held disk.old) (D.held disk.new) }
    ensures settled { D.tells → OnOk result (SlotsSettle (D.held disk.new) (D.may_leave disk.new)) }
    // A crash leaves nothing that it might not have left before.
    ensures any_moment { Keeps D.Disk disk.old disk.new (D.may_leave disk.old) }
    ensures asked { D.tells → D.asked disk.new ≤ D.asked disk.old + size (D.held disk.old) 0 + size (D.held disk.old) 1 }
    ensures fault { IfErr result (IsLoadFault D.Disk disk.old disk.new) }
    ensures fine { OnOk result ((D.faults disk.new ≡ D.faults disk.old) × (D.write_faults disk.new ≡ D.write_faults disk.old)) }
{
    let first = read_file(alloc, disk, 0)?;
    let second = read_file(alloc, disk, 1)?;
    let a = slot_of(alloc, 0, &first)?;
    let b = slot_of(alloc, 1, &second)?;
    Ok(latest_of(a, b))
}
