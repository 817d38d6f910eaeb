//! What is found at a key, without going through other rows.
ghost use Rattle.std.specs.Prelude.{◌≡◌, IfOk};
ghost use Rattle.std.specs.List.{find};
ghost use Rattle.bt_types.specs.Mutations.{is_in_column};
ghost use Rattle.bt_contents.specs.Contents.{row_at};
ghost use Rattle.bt_contents.specs.Ranges.{row_with, unread};

use crate::contents::Contents;
use crate::contents_rows::ContentsRows;
use bt_base::OutOfMemory;
use bt_types::{Cell, FamilyName, Qualifier, RowKey};
use std::alloc::Global;

impl Contents {
    /// The row at a key, which is searched for: one row, or none where it is not there.
    pub fn row(&self, alloc: Global, key: &RowKey) -> ContentsRows<'_>
        ensures { result ≡ unread (row_with key.now self.now) }
    {
        ContentsRows::new(alloc, Some(self.rows.range(key..=key)))
    }

    /// The latest cell of a column in the row at a key. The row is searched for, and the cell in it; one
    /// cell is copied.
    pub fn latest(
        &self,
        alloc: Global,
        key: &RowKey,
        family: FamilyName,
        qualifier: Qualifier,
    ) -> Result<Option<Cell>, OutOfMemory>
        ensures { IfOk result (λ cell. cell ≡ find (is_in_column family qualifier 0 0) (row_at key.now self.now)) }
    {
        match self.rows.get(key) {
            Some(row) => row.latest(alloc, family, qualifier),
            None => Ok(None),
        }
    }
}
