//! Bytes behind a gate.
ghost use Rattle.std.specs.Prelude.{◌≡◌, ◌↔◌, ◌+◌, ◌^◌, ◌<◌, ◌≤◌, length, take, IsTrue, IsErr, OnOk, OnErr};
ghost use Rattle.bt_base.specs.Counts.{counted, Counts};
ghost use Rattle.bt_outside.specs.Disk.{size, max_length, Settles, AtFile};
ghost use Rattle.bt_crash.specs.Steps.{Anyhow, StepsAt};
ghost use Rattle.bt_gate.specs.Faults.{WriteFailed};
ghost use Rattle.bt_gate.specs.Gate.{IsReady, IsOpened, Gated};

use bt_outside::{Disk, DiskFailed};

/// Writes the body behind the closed gate at that place, and opens the gate once the body is
/// stable. A gate is a byte: 1 is opened, every other value is closed. What stands behind a closed
/// gate counts for nothing, so that a crash at any moment leaves the file without the body or with
/// all of it.
///
/// After a failure the gate may be closed or opened. Nothing is read.
pub fn append<D: Disk>(disk: &mut D, file: u64, at: u64, body: &[u8]) -> Result<(), DiskFailed>
    requires room { at < 2 ^ 63 }
    requires at { D.tells → at < size (D.held disk.old) file }
    requires ready { D.tells → IsReady file (take at (D.held disk.old file)) (D.held disk.old) (D.may_leave disk.old) }
    ensures opened { D.tells → OnOk result (AtFile file (λ old new. IsOpened (take at old) body.now new) (D.held disk.old) (D.held disk.new)) }
    ensures settled { D.tells → OnOk result (Settles file (D.held disk.new file) (D.may_leave disk.new)) }
    ensures others { D.tells → AtFile file Anyhow (D.held disk.old) (D.held disk.new) }
    ensures any_moment { StepsAt D.Disk file (Gated (take at (D.held disk.old file)) body.now) disk.old disk.new }
    ensures asked { D.tells → D.asked disk.new ≡ D.asked disk.old }
    ensures limit { OnOk result (at + 1 + length body.now ≤ max_length) }
    ensures cause { OnErr result (WriteFailed D.Disk disk.old disk.new) }
    ensures faults { Counts (D.faults disk.old) (D.faults disk.new) result }
    ensures write_faults { Counts (D.write_faults disk.old) (D.write_faults disk.new) result }
    ensures failing { IsTrue (D.failing disk.new) ↔ IsErr result }
    // Two writes and two syncs.
    ensures four { OnOk result (D.moment disk.new ≡ counted (counted (counted (counted (D.moment disk.old))))) }
{
    disk.write(file, at + 1, body)?;
    disk.sync(file)?;
    disk.write(file, at, &[1])?;
    disk.sync(file)?;
    Ok(())
}
