//! Ranges of times.
ghost use Rattle.std.specs.Prelude.{◌≡◌};
ghost use Rattle.bt_range.specs.Bounds.{is_in_time};

use bt_base::{OutOfMemory, Plain};
use bt_types::Micros;
use std::alloc::Global;

/// Timestamps from `start` up to and without `end`, in microseconds. An `end` of 0 is without
/// bound (`google.bigtable.v2.TimestampRange`).
#[derive(Clone, Copy, Debug)]
pub struct TimeRange {
    pub start: u64,
    pub end: u64,
}

impl TimeRange {
    /// Whether the timestamp is in the range.
    pub fn holds(&self, at: Micros) -> bool
        ensures { result ≡ is_in_time self.now at }
    {
        let at = at.number() as u64;
        at >= self.start && (self.end == 0 || at < self.end)
    }
}

impl Plain for TimeRange {
    fn copy(&self, _alloc: Global) -> Result<TimeRange, OutOfMemory> {
        Ok(*self)
    }
}
