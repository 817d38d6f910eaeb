//! Standard output as a screen.
ghost use Rattle.std.specs.Prelude.{◌≡◌, []};

use bt_outside::{Print, PrintFailed};
use std::io;
use std::marker::Model;

/// Prints to standard output. It counts its failed calls, and is seen as their count alone: it
/// tells no text.
#[derive(Drop)]
pub struct StdPrint<'r, R: io::Print> {
    rt: &'r R,
    faults: u64,
}

impl<'r, R: io::Print> Model for StdPrint<'r, R> {
    ghost use Rattle.std.specs.Prelude.{ℕ};

    ghost Value = { ℕ };

    ghost view = { λ p. p.faults };
}

impl<'r, R: io::Print> StdPrint<'r, R> {
    /// A screen on which nothing was printed, and no call has failed.
    pub fn new(rt: &'r R) -> StdPrint<'r, R>
        ensures { result ≡ 0 }
    {
        StdPrint { rt, faults: 0 }
    }
}

impl<R: io::Print> Print for StdPrint<'_, R> {
    ghost tells = { λ _. ⊥ };

    ghost printed = { λ _. [] };

    ghost faults = { λ p. p };

    fn print(&mut self, text: &[u8]) -> Result<(), PrintFailed> {
        match self.rt.write_all(text) {
            Ok(()) => Ok(()),
            Err(_) => {
                self.faults = self.faults.saturating_add(1);
                Err(PrintFailed)
            }
        }
    }
}
