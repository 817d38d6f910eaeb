//! The column of a cell.
use bt_base::{OutOfMemory, Plain};
use bt_types::{FamilyName, Qualifier};
use std::alloc::Global;

/// The column of the cell before a chunk in its row, by which the chunk leaves out what is as in it.
#[derive(Debug, Drop)]
pub struct LastColumn {
    pub family: FamilyName,
    pub qualifier: Qualifier,
}

impl Plain for LastColumn {
    fn copy(&self, alloc: Global) -> Result<LastColumn, OutOfMemory> {
        Ok(LastColumn {
            family: self.family.copy(alloc)?,
            qualifier: self.qualifier.copy(alloc)?,
        })
    }
}
