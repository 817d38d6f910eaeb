//! The timestamp of a cell.
ghost use Rattle.std.specs.Prelude.{◌≡◌, IsTrue, pos};
ghost use Rattle.bt_types.specs.Time.{is_micros, micros_of};

use bt_base::{OutOfMemory, Plain};
use std::alloc::Global;
use std::marker::Model;

/// The timestamp of a cell: microseconds, in whole milliseconds, from 0 on
/// (`google.bigtable.v2.Cell.timestamp_micros`). A contract sees the number.
#[derive(Clone, Copy, Debug)]
pub struct Micros {
    at: u64,
}

impl Model for Micros {
    ghost use Rattle.std.specs.Prelude.{ℕ, IsTrue};
    ghost use Rattle.bt_types.specs.Time.{is_micros};

    ghost Value = { ℕ };

    ghost view = { λ m. m.at };

    ghost inverse = { λ n. record { at = n } };

    ghost invariant = { λ m. IsTrue (is_micros m.at) };
}

impl Micros {
    /// The timestamp, or `None` where the number is negative or no multiple of 1,000.
    pub fn new(at: i64) -> Option<Micros>
        ensures { result ≡ micros_of at }
    {
        if at < 0 || at % 1000 != 0 {
            return None;
        }
        Some(Micros { at: at as u64 })
    }

    pub fn number(self) -> i64
        ensures value { result ≡ pos self }
        ensures lawful { IsTrue (is_micros self) }
    {
        self.at as i64
    }
}

impl Plain for Micros {
    fn copy(&self, _alloc: Global) -> Result<Micros, OutOfMemory> {
        Ok(*self)
    }
}
