//! Ranges of bytes.
ghost use Rattle.std.specs.Prelude.{◌≡◌};
ghost use Rattle.bt_range.specs.Bounds.{is_in_bytes};

use crate::Bound;
use bt_base::{OutOfMemory, Plain};
use std::alloc::Global;

/// A range of qualifiers (`google.bigtable.v2.ColumnRange`) or of values
/// (`google.bigtable.v2.ValueRange`). A bound that is unset is no bound. One that is set and
/// empty is: nothing is before an empty end that is open.
#[derive(Debug, Drop)]
pub struct ByteRange {
    pub start: Bound,
    pub end: Bound,
}

impl ByteRange {
    /// Whether the bytes are in the range.
    pub fn holds(&self, bytes: &[u8]) -> bool
        ensures { result ≡ is_in_bytes self.now bytes.now }
    {
        self.start.starts(bytes) && self.end.ends(bytes)
    }
}

impl Plain for ByteRange {
    fn copy(&self, alloc: Global) -> Result<ByteRange, OutOfMemory> {
        Ok(ByteRange {
            start: self.start.copy(alloc)?,
            end: self.end.copy(alloc)?,
        })
    }
}
