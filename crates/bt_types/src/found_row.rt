//! A row of an answer.
use crate::{CellList, RowKey};
use bt_base::{OutOfMemory, Plain};
use std::alloc::Global;

/// A row that a read found: its key, and the cells that its filter let through.
#[derive(Debug, Drop)]
pub struct FoundRow {
    pub key: RowKey,
    pub cells: CellList,
}

impl Plain for FoundRow {
    fn copy(&self, alloc: Global) -> Result<FoundRow, OutOfMemory> {
        Ok(FoundRow {
            key: self.key.copy(alloc)?,
            cells: self.cells.copy(alloc)?,
        })
    }
}
