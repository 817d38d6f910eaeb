//! What was written to a connection in memory.
ghost use Rattle.std.specs.Prelude.{◌≡◌, OnOk, OnErr};
ghost use Rattle.bt_outside.specs.Links.{Sent, fresh, Adds, Marks};

use std::alloc::{AllocError, Global};
use std::marker::Model;

/// The bytes, for each write their number after it and the moment of the disk, and the mark.
#[derive(Drop)]
pub struct Kept {
    bytes: Vec<u8>,
    notes: Vec<(u64, u64)>,
    failed: bool,
}

impl Model for Kept {
    ghost Value = { Sent };

    ghost view = { λ k. record { bytes = k.bytes.items; notes = k.notes.items; failed = k.failed } };
}

impl Kept {
    pub fn new(alloc: Global) -> Kept
        ensures { result ≡ fresh }
    {
        Kept {
            bytes: Vec::new(alloc),
            notes: Vec::new(alloc),
            failed: false,
        }
    }

    pub fn bytes(&self) -> &[u8]
        ensures { result.now ≡ self.now.bytes }
    {
        &self.bytes
    }

    pub fn is_failed(&self) -> bool
        ensures { result ≡ self.now.failed }
    {
        self.failed
    }

    pub fn mark(&mut self)
        ensures { Marks self.old self.new }
    {
        self.failed = true;
    }

    /// Adds a piece and notes the moment, or marks it as failed and adds nothing.
    pub fn add(&mut self, bytes: &[u8], moment: u64) -> Result<(), AllocError>
        ensures ok { OnOk result (Adds bytes.now moment self.old self.new) }
        ensures err { OnErr result (Marks self.old self.new) }
    {
        let added = self.add_whole(bytes, moment);
        if added.is_err() {
            self.mark();
        }
        added
    }

    fn add_whole(&mut self, bytes: &[u8], moment: u64) -> Result<(), AllocError>
        ensures ok { OnOk result (Adds bytes.now moment self.old self.new) }
        ensures err { OnErr result (self.new ≡ self.old) }
    {
        self.notes.try_reserve(1)?;
        self.bytes.extend_from_slice(bytes)?;
        self.notes.push((self.bytes.len() as u64, moment))?;
        Ok(())
    }
}
