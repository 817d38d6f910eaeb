//! A bound of a range.
ghost use Rattle.std.specs.Prelude.{◌≡◌};
ghost use Rattle.bt_range.specs.Bounds.{is_from, is_up_to};

use crate::order::is_below;
use bt_base::{Blob, OutOfMemory, Plain};
use std::alloc::Global;

/// One end of a range of bytes, as `start_key_closed` and `start_key_open` of
/// `google.bigtable.v2.RowRange`. Bytes are compared one by one, as unsigned numbers.
#[derive(Debug, Drop)]
pub enum Bound {
    /// Neither of the two fields is set.
    Unset,
    /// The range begins or ends with these bytes.
    Closed(Blob),
    /// The range begins past these bytes, or ends before them.
    Past(Blob),
}

impl Plain for Bound {
    fn copy(&self, alloc: Global) -> Result<Bound, OutOfMemory> {
        match self {
            Bound::Unset => Ok(Bound::Unset),
            Bound::Closed(bytes) => Ok(Bound::Closed(bytes.copy(alloc)?)),
            Bound::Past(bytes) => Ok(Bound::Past(bytes.copy(alloc)?)),
        }
    }
}

impl Bound {
    // Whether the bytes are in a range that starts here.
    pub(crate) fn starts(&self, bytes: &[u8]) -> bool
        ensures { result ≡ is_from self.now bytes.now }
    {
        match self {
            Bound::Unset => true,
            Bound::Closed(start) => !is_below(bytes, start.bytes()),
            Bound::Past(start) => is_below(start.bytes(), bytes),
        }
    }

    // Whether the bytes are in a range that ends here.
    pub(crate) fn ends(&self, bytes: &[u8]) -> bool
        ensures { result ≡ is_up_to self.now bytes.now }
    {
        match self {
            Bound::Unset => true,
            Bound::Closed(end) => !is_below(end.bytes(), bytes),
            Bound::Past(end) => is_below(bytes, end.bytes()),
        }
    }
}
