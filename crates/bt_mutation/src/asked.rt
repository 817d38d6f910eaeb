//! Mutations as they were read, before any rule about them is checked.
use bt_base::{Blob, ListOf, OutOfMemory, Plain};
use std::alloc::Global;

/// A mutation as it was read (`google.bigtable.v2.Mutation`). What the request leaves out is zero or
/// empty.
#[derive(Debug, Drop)]
pub enum AskedMutation {
    /// `at` is in microseconds since 1970, and -1 asks for the server's time
    /// (`google.bigtable.v2.Mutation.SetCell.timestamp_micros`).
    SetCell {
        family: Blob,
        qualifier: Blob,
        at: i64,
        value: Blob,
    },
    /// The cells of a column from `start` up to and without `end`, in microseconds since 1970; an
    /// `end` of 0 is without bound (`google.bigtable.v2.Mutation.DeleteFromColumn`).
    DeleteColumn {
        family: Blob,
        qualifier: Blob,
        start: i64,
        end: i64,
    },
    /// The row's cells of a family (`google.bigtable.v2.Mutation.DeleteFromFamily`).
    DeleteFamily {
        family: Blob,
    },
    /// All cells of the row (`google.bigtable.v2.Mutation.DeleteFromRow`).
    DeleteRow,
    /// None of its kinds is set.
    Missing,
}

/// The timestamp that asks for the server's time.
pub(crate) const SERVER_TIME: i64 = -1;

/// The mutations of one row, in order.
pub type AskedMutationList = ListOf<AskedMutation>;

impl Plain for AskedMutation {
    fn copy(&self, alloc: Global) -> Result<AskedMutation, OutOfMemory> {
        match self {
            AskedMutation::SetCell {
                family,
                qualifier,
                at,
                value,
            } => Ok(AskedMutation::SetCell {
                family: family.copy(alloc)?,
                qualifier: qualifier.copy(alloc)?,
                at: *at,
                value: value.copy(alloc)?,
            }),
            AskedMutation::DeleteColumn {
                family,
                qualifier,
                start,
                end,
            } => Ok(AskedMutation::DeleteColumn {
                family: family.copy(alloc)?,
                qualifier: qualifier.copy(alloc)?,
                start: *start,
                end: *end,
            }),
            AskedMutation::DeleteFamily { family } => Ok(AskedMutation::DeleteFamily {
                family: family.copy(alloc)?,
            }),
            AskedMutation::DeleteRow => Ok(AskedMutation::DeleteRow),
            AskedMutation::Missing => Ok(AskedMutation::Missing),
        }
    }
}
