//! The failed calls of links.
ghost use Rattle.std.specs.Prelude.{◌≡◌, ◌↔◌, IsTrue, IsOk};
ghost use Rattle.bt_base.specs.Counts.{Counts};

use bt_outside::LinkFailed;

/// How many calls failed, and how many of them were to go to the next connection.
#[derive(Drop)]
pub struct LinkTally {
    pub faults: u64,
    pub next_faults: u64,
}

impl LinkTally {
    /// No call has failed.
    pub fn new() -> LinkTally
        ensures { result ≡ record { faults = 0; next_faults = 0 } }
    {
        LinkTally {
            faults: 0,
            next_faults: 0,
        }
    }

    /// Counts a call that is to go to the next connection, or to make that possible.
    pub fn next(&mut self, done: bool) -> Result<(), LinkFailed>
        ensures done { IsOk result ↔ IsTrue done }
        ensures faults { Counts self.old.faults self.new.faults result }
        ensures next_faults { Counts self.old.next_faults self.new.next_faults result }
    {
        if done {
            return Ok(());
        }
        self.faults = self.faults.saturating_add(1);
        self.next_faults = self.next_faults.saturating_add(1);
        Err(LinkFailed)
    }

    /// Counts a read or a write.
    pub fn transfer(&mut self, done: bool) -> Result<(), LinkFailed>
        ensures done { IsOk result ↔ IsTrue done }
        ensures faults { Counts self.old.faults self.new.faults result }
        ensures next_faults { self.new.next_faults ≡ self.old.next_faults }
    {
        if done {
            return Ok(());
        }
        self.faults = self.faults.saturating_add(1);
        Err(LinkFailed)
    }
}
