//! Standard input and output as one connection.
ghost use Rattle.std.specs.Prelude.{◌≡◌, None, []};

use bt_outside::{Disk, LinkFailed, Links};
use std::io::{Read, Write};
use std::marker::Model;

/// A reader and a writer as one connection. It counts its failed calls, and is seen as their count
/// alone: it tells no bytes. Its `next` never fails.
#[derive(Drop)]
pub struct StdLinks<I: Read + Drop, O: Write + Drop> {
    input: I,
    output: O,
    was_given: bool,
    faults: u64,
}

impl<I: Read + Drop, O: Write + Drop> Model for StdLinks<I, O> {
    ghost use Rattle.std.specs.Prelude.{ℕ};

    ghost Value = { ℕ };

    ghost view = { λ l. l.faults };
}

impl<I: Read + Drop, O: Write + Drop> StdLinks<I, O> {
    /// One connection over these two. Nothing is read or written yet, and no call has failed.
    pub fn new(input: I, output: O) -> StdLinks<I, O>
        ensures { result ≡ 0 }
    {
        StdLinks {
            input,
            output,
            was_given: false,
            faults: 0,
        }
    }
}

impl<D: Disk, I: Read + Drop, O: Write + Drop> Links<D> for StdLinks<I, O> {
    ghost tells = { ⊥ };

    ghost left = { λ _. [] };

    ghost at_hand = { λ _. None };

    ghost sent = { λ _. [] };

    ghost noted = { λ _. None };

    ghost faults = { λ l. l };

    ghost next_faults = { λ _. 0 };

    fn next(&mut self) -> Result<bool, LinkFailed> {
        let is_first = !self.was_given;
        self.was_given = true;
        Ok(is_first)
    }

    fn read(&mut self, into: &mut [u8]) -> Result<usize, LinkFailed> {
        match self.input.read(into) {
            Ok(count) => Ok(count),
            Err(_) => {
                self.faults = self.faults.saturating_add(1);
                Err(LinkFailed)
            }
        }
    }

    // A reply leaves at once, in one piece, so that no reply is lost unseen when the run ends.
    fn write(&mut self, bytes: &[u8], _disk: &D) -> Result<(), LinkFailed> {
        match self.output.write_all(bytes) {
            Ok(()) => Ok(()),
            Err(_) => {
                self.faults = self.faults.saturating_add(1);
                Err(LinkFailed)
            }
        }
    }

    fn close(&mut self) {}
}
