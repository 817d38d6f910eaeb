//! A printer in memory.
ghost use Rattle.std.specs.Prelude.{◌≡◌, []};

use crate::{Print, PrintFailed};
use std::alloc::Global;
use std::marker::Model;

/// A printer that keeps what was printed. A call of it fails where there is no memory for the
/// text, and has then printed nothing of it.
#[derive(Drop)]
pub struct MemoryPrint {
    text: Vec<u8>,
    faults: u64,
}

impl Model for MemoryPrint {
    ghost use Rattle.bt_outside.specs.Print.{Printed};

    ghost Value = { Printed };

    ghost view = { λ p. record { text = p.text.items; faults = p.faults } };
}

impl MemoryPrint {
    /// A printer that has printed nothing.
    pub fn new(alloc: Global) -> MemoryPrint
        ensures { result ≡ record { text = []; faults = 0 } }
    {
        MemoryPrint {
            text: Vec::new(alloc),
            faults: 0,
        }
    }

    /// What was printed.
    pub fn printed(&self) -> &[u8]
        ensures { result.now ≡ self.now.text }
    {
        &self.text
    }
}

impl Print for MemoryPrint {
    ghost tells = { λ _. Unit {0} };

    ghost printed = { λ p. p.text };

    ghost faults = { λ p. p.faults };

    fn print(&mut self, text: &[u8]) -> Result<(), PrintFailed> {
        match self.text.extend_from_slice(text) {
            Ok(()) => Ok(()),
            Err(_) => {
                self.faults = self.faults.saturating_add(1);
                Err(PrintFailed)
            }
        }
    }
}
