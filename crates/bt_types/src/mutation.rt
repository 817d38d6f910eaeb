//! A change of one row.
use crate::{FamilyName, Micros, Qualifier};
use bt_base::{Blob, OutOfMemory, Plain};
use std::alloc::Global;

/// A change of one row (`google.bigtable.v2.Mutation`).
#[derive(Debug, Drop)]
pub enum Mutation {
    /// Puts a cell in place of the one of its column and timestamp.
    SetCell {
        family: FamilyName,
        qualifier: Qualifier,
        at: Micros,
        value: Blob,
    },
    /// Removes the column's cells from `start` up to and without `end`, in microseconds.
    /// An `end` of 0 is without bound.
    DeleteColumn {
        family: FamilyName,
        qualifier: Qualifier,
        start: u64,
        end: u64,
    },
    /// Removes the cells of a family.
    DeleteFamily {
        family: FamilyName,
    },
    /// Removes all cells.
    DeleteRow,
}

impl Plain for Mutation {
    fn copy(&self, alloc: Global) -> Result<Mutation, OutOfMemory> {
        match self {
            Mutation::SetCell {
                family,
                qualifier,
                at,
                value,
            } => Ok(Mutation::SetCell {
                family: family.copy(alloc)?,
                qualifier: qualifier.copy(alloc)?,
                at: *at,
                value: value.copy(alloc)?,
            }),
            Mutation::DeleteColumn {
                family,
                qualifier,
                start,
                end,
            } => Ok(Mutation::DeleteColumn {
                family: family.copy(alloc)?,
                qualifier: qualifier.copy(alloc)?,
                start: *start,
                end: *end,
            }),
            Mutation::DeleteFamily { family } => Ok(Mutation::DeleteFamily {
                family: family.copy(alloc)?,
            }),
            Mutation::DeleteRow => Ok(Mutation::DeleteRow),
        }
    }
}
