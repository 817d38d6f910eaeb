//! What a manifest says.
ghost use Rattle.std.specs.Prelude.{◌≡◌, length, min};
ghost use Rattle.bt_base.specs.Counts.{most};

use crate::table_length::tables_length;
use crate::{FileNumbers, SegmentList, TableFileList};
use bt_base::{Blob, OutOfMemory, Plain};
use std::alloc::Global;

// In the body of a snapshot: three numbers, two counts and the length of the schema.
const FIXED: u64 = 36;

const OF_SEGMENT: u64 = 16;

/// A segment of the log: the number of its file, and the sequence of its first entry.
#[derive(Clone, Copy, Debug, PartialEq, Eq)]
pub struct Segment {
    pub file: u64,
    pub first: u64,
}

/// The sorted files of a table, oldest first.
#[derive(Debug, Drop)]
pub struct TableFiles {
    /// The sequence of the entry that made the table.
    pub incarnation: u64,
    /// The greatest sequence of those of its row entries that are no longer kept, or 0.
    pub lost: u64,
    pub files: FileNumbers,
}

/// Which files hold the state.
#[derive(Debug, Drop)]
pub struct Snapshot {
    /// The number that the next new file takes.
    pub next_file: u64,
    /// The moment below which no entry is made, in microseconds since 1970-01-01T00:00:00Z.
    pub floor: u64,
    /// The sequence up to which the sorted files hold all entries.
    pub base: u64,
    pub segments: SegmentList,
    pub tables: TableFileList,
    /// The tables and their families, in bytes that mean nothing here.
    pub schema: Blob,
}

impl Snapshot {
    ghost use Rattle.bt_manifest.specs.Spelling.{snapshot_bytes};

    /// The length in bytes of the body that spells the snapshot, or 18446744073709551615 where that
    /// is less. `publish` takes a snapshot where it is at most 1,073,741,824.
    pub fn body_length(&self) -> u64
        ensures { result ≡ min (length (snapshot_bytes self.now)) most }
    {
        let segments = (self.segments.items().len() as u64).saturating_mul(OF_SEGMENT);
        let tables = tables_length(self.tables.items());
        let schema = self.schema.bytes().len() as u64;
        FIXED
            .saturating_add(segments)
            .saturating_add(tables)
            .saturating_add(schema)
    }
}

impl Plain for Segment {
    fn copy(&self, _alloc: Global) -> Result<Segment, OutOfMemory> {
        Ok(*self)
    }
}

impl Plain for TableFiles {
    fn copy(&self, alloc: Global) -> Result<TableFiles, OutOfMemory> {
        let files = FileNumbers::from_vec(Vec::from_slice(alloc, self.files.items())?);
        Ok(TableFiles {
            incarnation: self.incarnation,
            lost: self.lost,
            files,
        })
    }
}

impl Plain for Snapshot {
    fn copy(&self, alloc: Global) -> Result<Snapshot, OutOfMemory> {
        let segments = self.segments.copy(alloc)?;
        let tables = self.tables.copy(alloc)?;
        let schema = self.schema.copy(alloc)?;
        Ok(Snapshot {
            next_file: self.next_file,
            floor: self.floor,
            base: self.base,
            segments,
            tables,
            schema,
        })
    }
}
