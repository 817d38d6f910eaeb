//! A chunk: a cell, or a piece of one.
ghost use Rattle.std.specs.Prelude.{◌≡◌, IfOk};

use bt_base::{Blob, OutOfMemory, Plain};
use bt_types::Label;
use std::alloc::Global;

/// A cell of a read's answer, or a piece of its value
/// (`google.bigtable.v2.ReadRowsResponse.CellChunk`). What a chunk leaves out is as in the chunk
/// before it. Nothing here is tested: a chunk may also be one that no read gives.
#[derive(Debug, Drop)]
pub struct Chunk {
    /// `row_key`: 1 to 4,096 bytes on the first chunk of a row, and empty on its others.
    pub key: Blob,
    /// `family_name`, where the cell begins another family: a name of 1 to 64 bytes.
    pub family: Option<Blob>,
    /// `qualifier`, where the cell begins another column: at most 16,384 bytes, which may be none.
    pub qualifier: Option<Blob>,
    /// `timestamp_micros` of the cell in microseconds, and 0 on the further pieces of its value.
    pub at: i64,
    /// The one item of `labels`, on the first piece of a cell that a filter put a label on.
    pub label: Option<Label>,
    /// `value`: the bytes of the cell, or of this piece.
    pub value: Blob,
    /// `value_size`: the length in bytes of the whole value on each piece of a split value but its
    /// last, and 0 on every other chunk.
    pub size: u32,
    /// `commit_row`: the row ends with this chunk.
    pub commit: bool,
}

impl Plain for Chunk {
    fn copy(&self, alloc: Global) -> Result<Chunk, OutOfMemory> {
        let label = match &self.label {
            Some(label) => Some(label.copy(alloc)?),
            None => None,
        };
        Ok(Chunk {
            key: self.key.copy(alloc)?,
            family: bytes_copy(alloc, &self.family)?,
            qualifier: bytes_copy(alloc, &self.qualifier)?,
            at: self.at,
            label,
            value: self.value.copy(alloc)?,
            size: self.size,
            commit: self.commit,
        })
    }
}

fn bytes_copy(alloc: Global, bytes: &Option<Blob>) -> Result<Option<Blob>, OutOfMemory>
    ensures { IfOk result (λ copy. copy ≡ bytes.now) }
{
    match bytes {
        Some(bytes) => Ok(Some(bytes.copy(alloc)?)),
        None => Ok(None),
    }
}
