//! The failed calls of a disk.
ghost use Rattle.std.specs.Prelude.{◌≡◌, ◌↔◌, false, IsTrue, IsOk, IsErr};
ghost use Rattle.bt_base.specs.Counts.{Counts};

use crate::DiskFailed;

/// How many calls failed, how many of them were to change the disk, and whether the last one failed.
#[derive(Drop)]
pub struct Tally {
    pub faults: u64,
    pub write_faults: u64,
    pub failing: bool,
}

impl Tally {
    /// No call has failed.
    pub fn new() -> Tally
        ensures { result ≡ record { faults = 0; write_faults = 0; failing = false } }
    {
        Tally {
            faults: 0,
            write_faults: 0,
            failing: false,
        }
    }

    /// Counts a call that changes nothing.
    pub fn look(&mut self, done: bool) -> Result<(), DiskFailed>
        ensures done { IsOk result ↔ IsTrue done }
        ensures faults { Counts self.old.faults self.new.faults result }
        ensures write_faults { self.new.write_faults ≡ self.old.write_faults }
        ensures failing { IsTrue self.new.failing ↔ IsErr result }
    {
        self.failing = !done;
        if done {
            return Ok(());
        }
        self.faults = self.faults.saturating_add(1);
        Err(DiskFailed)
    }

    /// Counts a write, a cut or a sync.
    pub fn change(&mut self, done: bool) -> Result<(), DiskFailed>
        ensures done { IsOk result ↔ IsTrue done }
        ensures faults { Counts self.old.faults self.new.faults result }
        ensures write_faults { Counts self.old.write_faults self.new.write_faults result }
        ensures failing { IsTrue self.new.failing ↔ IsErr result }
    {
        self.failing = !done;
        if done {
            return Ok(());
        }
        self.faults = self.faults.saturating_add(1);
        self.write_faults = self.write_faults.saturating_add(1);
        Err(DiskFailed)
    }
}
