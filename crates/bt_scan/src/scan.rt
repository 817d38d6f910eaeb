//! A read, response by response.
ghost use Rattle.std.specs.Prelude.{◌≡◌, [], IfOk, filter, option_map, unwrap_or};
ghost use Rattle.bt_range.specs.RowSets.{is_in_any};
ghost use Rattle.bt_read.specs.Answers.{found, limit_of, limited};
ghost use Rattle.bt_chunks.specs.Chunks.{chunks_of, responses_of};
ghost use Rattle.bt_scan.specs.Responses.{GivesResponse};

use crate::found_chunks::FoundChunks;
use bt_base::OutOfMemory;
use bt_chunks::{ChunkList, Packer};
use bt_contents::Contents;
use bt_filter_run::Node;
use bt_range::RowSet;
use std::alloc::Global;
use std::marker::Model;

/// A read of a table in memory, given response by response (`google.bigtable.v2.ReadRowsResponse`). A
/// contract sees the responses that are left. After a refusal it is only dropped.
#[derive(Drop)]
pub struct Scan<'a> {
    chunks: FoundChunks<'a>,
    packer: Packer,
}

impl<'a> Model for Scan<'a> {
    ghost use Rattle.std.specs.Prelude.{List};
    ghost use Rattle.bt_chunks.specs.declared.chunk.Chunk.{Chunk};
    ghost use Rattle.bt_chunks.specs.Chunks.{packed};

    ghost Value = { List (List Chunk) };

    ghost view = { λ s. packed s.packer s.chunks };
}

impl<'a> Scan<'a> {
    /// A read of the rows in a set, filtered. `table` is `None` for a table without rows. It has at
    /// most `rows_limit` rows, and 0 is no limit. Nothing is looked up yet, and it takes no memory.
    pub fn new(
        alloc: Global,
        table: Option<&'a Contents>,
        rows: RowSet,
        node: Node,
        rows_limit: u64,
    ) -> Scan<'a>
        ensures { result ≡ responses_of (chunks_of (limited (limit_of rows_limit) (found node (filter (λ r. is_in_any rows r.0) (unwrap_or (option_map (λ c. c.now) table.entry) []))))) }
    {
        Scan {
            chunks: FoundChunks::new(alloc, table, rows, node, rows_limit),
            packer: Packer::new(alloc),
        }
    }

    /// The next response, or `None` at the end. A row is looked at only when its response is asked
    /// for, and none once the limit is used up. It fails only where an allocation is refused.
    pub fn next_response(&mut self) -> Result<Option<ChunkList>, OutOfMemory>
        ensures { IfOk result (λ response. GivesResponse response self.old self.new) }
    {
        while let Some(chunk) = self.chunks.next_chunk()? {
            if let Some(closed) = self.packer.push(chunk)? {
                return Ok(Some(closed));
            }
        }
        let rest = self.packer.rest();
        if rest.is_empty() {
            return Ok(None);
        }
        Ok(Some(rest))
    }
}
