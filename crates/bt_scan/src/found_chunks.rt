//! The chunks of the rows that a read finds, one after another.
ghost use Rattle.std.specs.Prelude.{◌≡◌, [], IfOk, filter, option_map, unwrap_or};
ghost use Rattle.bt_range.specs.RowSets.{is_in_any};
ghost use Rattle.bt_read.specs.Answers.{found, limit_of, limited};
ghost use Rattle.bt_chunks.specs.Chunks.{chunks_of};
ghost use Rattle.bt_scan.specs.Responses.{GivesChunk};

use crate::found_rows::FoundRows;
use bt_base::OutOfMemory;
use bt_chunks::{Chunk, row_chunks};
use bt_contents::Contents;
use bt_filter_run::Node;
use bt_range::RowSet;
use std::alloc::Global;
use std::marker::Model;

/// The chunks of a read of a table in memory. A contract sees the chunks that are left. After a refusal
/// it is only dropped.
#[derive(Drop)]
pub struct FoundChunks<'a> {
    alloc: Global,
    rows: FoundRows<'a>,
    // Those left of the row at hand, the last one first.
    pending: Vec<Chunk>,
}

impl<'a> Model for FoundChunks<'a> {
    ghost use Rattle.std.specs.Prelude.{◌++◌, List, reverse};
    ghost use Rattle.bt_chunks.specs.declared.chunk.Chunk.{Chunk};
    ghost use Rattle.bt_chunks.specs.Chunks.{chunks_of};

    ghost Value = { List Chunk };

    ghost view = { λ s. reverse s.pending.items ++ chunks_of s.rows };
}

impl<'a> FoundChunks<'a> {
    /// No row is looked for yet. `table` is `None` for a table without rows, and a `rows_limit` of 0 is
    /// no limit.
    pub fn new(
        alloc: Global,
        table: Option<&'a Contents>,
        set: RowSet,
        node: Node,
        rows_limit: u64,
    ) -> FoundChunks<'a>
        ensures { result ≡ chunks_of (limited (limit_of rows_limit) (found node (filter (λ r. is_in_any set r.0) (unwrap_or (option_map (λ c. c.now) table.entry) [])))) }
    {
        FoundChunks {
            alloc,
            rows: FoundRows::new(alloc, table, set, node, rows_limit),
            pending: Vec::new(alloc),
        }
    }

    /// The next chunk, or `None` at the end. A row is looked for when its first chunk is asked for.
    pub fn next_chunk(&mut self) -> Result<Option<Chunk>, OutOfMemory>
        ensures { IfOk result (λ chunk. GivesChunk chunk self.old self.new) }
    {
        loop {
            if let Some(chunk) = self.pending.pop() {
                return Ok(Some(chunk));
            }
            let Some(row) = self.rows.next_row()? else {
                return Ok(None);
            };
            let mut chunks = row_chunks(self.alloc, &row, None)?.into_vec();
            chunks.reverse();
            self.pending = chunks;
        }
    }
}
