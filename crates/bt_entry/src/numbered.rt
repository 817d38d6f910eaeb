//! An entry with its place in the history.
use crate::Entry;
use bt_base::{OutOfMemory, Plain};
use std::alloc::Global;

/// An entry, the number that it has among all entries of the service, counted from 1, and the
/// moment at which it was made, in microseconds since 1970-01-01T00:00:00Z.
#[derive(Debug, Drop)]
pub struct Numbered {
    pub sequence: u64,
    pub moment: u64,
    pub entry: Entry,
}

impl Plain for Numbered {
    fn copy(&self, alloc: Global) -> Result<Numbered, OutOfMemory> {
        let entry = self.entry.copy(alloc)?;
        Ok(Numbered {
            sequence: self.sequence,
            moment: self.moment,
            entry,
        })
    }
}
