//! The rows of the chunks of an answer.
ghost use Rattle.std.specs.Prelude.{◌≡◌, true, None, IfOk, OnErr, option_map};
ghost use Rattle.bt_base.specs.Counts.{counted};
ghost use Rattle.bt_chunks.specs.Joiner.{Grows, Joins, ended_key, found_of, new_joining};
ghost use Rattle.bt_chunks.specs.Joining.{row_after, row_begun};
ghost use Rattle.bt_chunks.specs.declared.chunk_refusal.ChunkRefusal.TheVariants.{BadChunk};

use crate::part_row::PartRow;
use crate::{Chunk, ChunkRefusal};
use bt_base::{OutOfMemory, Plain};
use bt_types::{FoundRow, RowKey};
use std::alloc::Global;
use std::marker::Model;

/// Puts the chunks of an answer together to its rows, as a client does that takes none of them on
/// trust (`google.bigtable.v2.ReadRowsResponse.CellChunk`). A chunk begins a row, or a cell of the
/// row that is begun, or goes on with the value that is begun; each may leave out only what the
/// chunk before it tells, and rows, cells and sizes must come as a read gives them.
#[derive(Drop)]
pub struct Joiner {
    before: Option<RowKey>,
    row: Option<PartRow>,
    index: u64,
    has_refused: bool,
}

impl Model for Joiner {
    ghost use Rattle.bt_chunks.specs.Joiner.{Joining};

    ghost Value = { Joining };

    ghost view = { λ j. record { client = record { before = j.before; row = j.row }; index = j.index; has_refused = j.has_refused } };
}

impl Joiner {
    /// A joiner to which no chunk has come yet.
    pub fn new(_alloc: Global) -> Joiner
        ensures { result ≡ new_joining }
    {
        Joiner {
            before: None,
            row: None,
            index: 0,
            has_refused: false,
        }
    }

    /// The row that the chunk completes, if it completes one. `BadChunk` comes exactly where the
    /// chunk has no place, with its index; from then on each chunk is refused so, with an index of
    /// its own. After `OutOfMemory` the joiner is as before, and the chunk is lost.
    #[tactic(auto, using(crate::proofs::Steps::ending, crate::proofs::Steps::going))]
    pub fn push(&mut self, alloc: Global, chunk: Chunk) -> Result<Option<FoundRow>, ChunkRefusal>
        ensures { Joins result self.old chunk self.new }
    {
        if self.has_refused {
            return Err(self.refuse());
        }
        let ends = chunk.commit;
        let key = ended_key(alloc, &self.row, &chunk)?;
        if !add(alloc, &self.before, &mut self.row, chunk)? {
            return Err(self.refuse());
        }
        self.index = self.index.saturating_add(1);
        if !ends {
            return Ok(None);
        }
        Ok(self.settle(key))
    }

    // Ends the row, whose key is that.
    fn settle(&mut self, key: Option<RowKey>) -> Option<FoundRow>
        ensures found { result ≡ option_map found_of self.old.client.row }
        ensures after { self.new ≡ record self.old { client = record { before = key; row = None } } }
    {
        self.before = key;
        let row = self.row.take()?;
        Some(row.into_found())
    }

    fn refuse(&mut self) -> ChunkRefusal
        ensures refusal { result ≡ BadChunk self.old.index }
        ensures after { self.new ≡ record self.old { index = counted self.old.index; has_refused = true } }
    {
        let index = self.index;
        self.index = index.saturating_add(1);
        self.has_refused = true;
        ChunkRefusal::BadChunk { index }
    }
}

// The row after the chunk, and whether the chunk has a place; nothing changes where it has none.
fn add(
    alloc: Global,
    before: &Option<RowKey>,
    row: &mut Option<PartRow>,
    chunk: Chunk,
) -> Result<bool, OutOfMemory>
    ensures added { IfOk result (λ has_place. Grows has_place (row_after before.now row.old chunk) row.old row.new) }
    ensures err { OnErr result (row.new ≡ row.old) }
{
    match row {
        Some(part) => part.add(alloc, chunk),
        None => begin(alloc, before, row, chunk),
    }
}

fn begin(
    alloc: Global,
    before: &Option<RowKey>,
    row: &mut Option<PartRow>,
    chunk: Chunk,
) -> Result<bool, OutOfMemory>
    requires { row.old ≡ None }
    ensures added { IfOk result (λ has_place. Grows has_place (row_begun before.now chunk) row.old row.new) }
    ensures err { OnErr result (row.new ≡ row.old) }
{
    match PartRow::begun(alloc, before, chunk)? {
        Some(part) => {
            *row = Some(part);
            Ok(true)
        }
        None => Ok(false),
    }
}

// A copy of the key of the row that the chunk ends, if it ends one.
fn ended_key(
    alloc: Global,
    row: &Option<PartRow>,
    chunk: &Chunk,
) -> Result<Option<RowKey>, OutOfMemory>
    ensures { IfOk result (λ key. key ≡ ended_key row.now chunk.now) }
{
    if !chunk.commit {
        return Ok(None);
    }
    match row {
        Some(part) => Ok(Some(part.key().copy(alloc)?)),
        None => RowKey::new(alloc, chunk.key.bytes()),
    }
}
