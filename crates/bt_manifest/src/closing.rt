//! A slot before it is written over.
ghost use Rattle.std.specs.Prelude.{◌≡◌, ◌↔◌, ◌+◌, ◌≤◌, [], IsTrue, IsErr, OnOk, OnErr, IfOk};
ghost use Rattle.bt_base.specs.Counts.{Counts};
ghost use Rattle.bt_outside.specs.Disk.{size, Alike, AtFile, Settles};
ghost use Rattle.bt_crash.specs.Moments.{Keeps};
ghost use Rattle.bt_crash.specs.Steps.{StepsAt, Anyhow};
ghost use Rattle.bt_gate.specs.Gate.{IsReady};
ghost use Rattle.bt_manifest.specs.Publishing.{CanClose, HasGate, SameOrClosed, SlotFailed};

use bt_outside::{Disk, DiskFailed};

/// Sees to it that the slot's gate is closed and stable. A gate that is closed already stays as it
/// is: while stale bytes stand behind it, a write that is cut short could open it.
pub(crate) fn close<D: Disk>(disk: &mut D, file: u64) -> Result<(), DiskFailed>
    requires { D.tells → Settles file (D.held disk.old file) (D.may_leave disk.old) }
    ensures ready { D.tells → OnOk result (IsReady file [] (D.held disk.new) (D.may_leave disk.new)) }
    ensures others { D.tells → AtFile file Anyhow (D.held disk.old) (D.held disk.new) }
    ensures any_moment { StepsAt D.Disk file (SameOrClosed file) disk.old disk.new }
    ensures asked { D.tells → D.asked disk.new ≤ D.asked disk.old + size (D.held disk.old) file }
    ensures cause { OnErr result (SlotFailed D.Disk disk.old disk.new) }
    ensures faults { Counts (D.faults disk.old) (D.faults disk.new) result }
    ensures write_faults { OnOk result (D.write_faults disk.new ≡ D.write_faults disk.old) }
    ensures failing { IsTrue (D.failing disk.new) ↔ IsErr result }
{
    if let Some(gate) = gate_of(disk, file)? {
        if gate != 1 {
            return Ok(());
        }
    }
    shut(disk, file)
}

// The gate, if there is one.
fn gate_of<D: Disk>(disk: &mut D, file: u64) -> Result<Option<u8>, DiskFailed>
    ensures gate { D.tells → IfOk result (λ gate. HasGate gate (D.held disk.old file)) }
    ensures held { D.tells → Alike (D.held disk.old) (D.held disk.new) }
    ensures any_moment { Keeps D.Disk disk.old disk.new (D.may_leave disk.old) }
    ensures asked { D.tells → D.asked disk.new ≤ D.asked disk.old + size (D.held disk.old) file }
    ensures faults { Counts (D.faults disk.old) (D.faults disk.new) result }
    ensures write_faults { D.write_faults disk.new ≡ D.write_faults disk.old }
    ensures failing { IsTrue (D.failing disk.new) ↔ IsErr result }
{
    if disk.length(file)? == 0 {
        return Ok(None);
    }
    let mut gate = [0];
    disk.read(file, 0, &mut gate)?;
    Ok(Some(gate[0]))
}

// Makes a closed gate, where there is none or it is opened.
fn shut<D: Disk>(disk: &mut D, file: u64) -> Result<(), DiskFailed>
    requires settled { D.tells → Settles file (D.held disk.old file) (D.may_leave disk.old) }
    requires lawful { D.tells → CanClose (D.held disk.old file) }
    ensures ready { D.tells → OnOk result (IsReady file [] (D.held disk.new) (D.may_leave disk.new)) }
    ensures others { D.tells → AtFile file Anyhow (D.held disk.old) (D.held disk.new) }
    ensures any_moment { StepsAt D.Disk file (SameOrClosed file) disk.old disk.new }
    ensures asked { D.tells → D.asked disk.new ≡ D.asked disk.old }
    ensures faults { Counts (D.faults disk.old) (D.faults disk.new) result }
    ensures write_faults { Counts (D.write_faults disk.old) (D.write_faults disk.new) result }
    ensures failing { IsTrue (D.failing disk.new) ↔ IsErr result }
{
    disk.write(file, 0, &[0])?;
    disk.sync(file)
}
