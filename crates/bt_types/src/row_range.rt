//! A range of row keys.
use bt_base::{Blob, OutOfMemory, Plain};
use std::alloc::Global;

/// Row keys from `start` up to and without `end`, or without bound where there is no end.
#[derive(Debug, Drop)]
pub struct RowRange {
    pub start: Blob,
    pub end: Option<Blob>,
}

impl Plain for RowRange {
    fn copy(&self, alloc: Global) -> Result<RowRange, OutOfMemory> {
        let end = match &self.end {
            Some(end) => Some(end.copy(alloc)?),
            None => None,
        };
        Ok(RowRange {
            start: self.start.copy(alloc)?,
            end,
        })
    }
}
