//! A file read whole.
ghost use Rattle.std.specs.Prelude.{◌≡◌, ◌+◌, ◌≤◌, vec_len, OnOk, IfOk, IfErr};
ghost use Rattle.bt_outside.specs.Disk.{size, max_length, Alike, Settles};
ghost use Rattle.bt_crash.specs.Moments.{Keeps};
ghost use Rattle.bt_gate.specs.Faults.{Failed, IsDiskFault};

use crate::LogFault;
use bt_outside::Disk;
use std::alloc::Global;

/// Syncs the file, and gives its bytes. They are read once, into one buffer of their length.
///
/// It answers `DiskFailed` or `OutOfMemory`. The file reads as before in every case.
pub fn read_file<D: Disk>(alloc: Global, disk: &mut D, file: u64) -> Result<Vec<u8>, LogFault>
    ensures bytes { D.tells → IfOk result (λ bytes. bytes.items ≡ D.held disk.old file) }
    ensures limit { IfOk result (λ bytes. vec_len bytes ≤ max_length) }
    ensures held { D.tells → Alike (D.held disk.old) (D.held disk.new) }
    // A crash leaves the bytes that were read.
    ensures settled { D.tells → OnOk result (Settles file (D.held disk.old file) (D.may_leave disk.new)) }
    // A crash leaves nothing that it might not have left before.
    ensures any_moment { Keeps D.Disk disk.old disk.new (D.may_leave disk.old) }
    ensures asked { D.tells → D.asked disk.new ≤ D.asked disk.old + size (D.held disk.old) file }
    ensures cause { IfErr result (IsDiskFault (Failed D.Disk disk.old disk.new)) }
    ensures fine { OnOk result ((D.faults disk.new ≡ D.faults disk.old) × (D.write_faults disk.new ≡ D.write_faults disk.old)) }
{
    disk.sync(file)?;
    let length = disk.length(file)?;
    let mut bytes = vec![in alloc; 0; length as usize]?;
    disk.read(file, 0, &mut bytes)?;
    Ok(bytes)
}
