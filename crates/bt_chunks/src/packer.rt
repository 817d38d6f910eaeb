//! Responses that chunks are put into.
ghost use Rattle.std.specs.Prelude.{◌≡◌, [], IfOk, OnErr};
ghost use Rattle.bt_chunks.specs.Chunks.{is_closed, value_bytes};
ghost use Rattle.bt_chunks.specs.Packing.{Pushed};

use crate::{Chunk, ChunkList};
use bt_base::OutOfMemory;
use std::alloc::Global;
use std::marker::Model;
use std::mem;

const MOST_CHUNKS: usize = 64;

const MOST_BYTES: usize = 65_536;

/// Puts chunks into responses. A response is closed once it has 64 chunks or 65,536 bytes of
/// values (`google.bigtable.v2.ReadRowsResponse`). A contract sees the chunks of the open one.
#[derive(Debug, Drop)]
pub struct Packer {
    alloc: Global,
    chunks: ChunkList,
    // The bytes of their values.
    bytes: usize,
}

impl Model for Packer {
    ghost use Rattle.std.specs.Prelude.{◌≡◌, false, List};
    ghost use Rattle.bt_chunks.specs.declared.chunk.Chunk.{Chunk};
    ghost use Rattle.bt_chunks.specs.Chunks.{is_closed, value_bytes};

    ghost Value = { List Chunk };

    ghost view = { λ p. p.chunks };

    ghost invariant = { λ p. (p.bytes ≡ value_bytes p.chunks) × (is_closed p.chunks ≡ false) };
}

impl Packer {
    /// No chunk is in the open response, which takes no memory yet.
    pub fn new(alloc: Global) -> Packer
        ensures { result ≡ [] }
    {
        Packer {
            alloc,
            chunks: ChunkList::new(alloc),
            bytes: 0,
        }
    }

    /// Puts the chunk into the open response: the response that it closes, or `None` where it
    /// stays open.
    #[tactic(auto, using(crate::proofs::Packing::value_bytes_push))]
    pub fn push(&mut self, chunk: Chunk) -> Result<Option<ChunkList>, OutOfMemory>
        ensures open_or_closed { IfOk result (λ closed. Pushed closed self.old chunk self.new) }
        ensures err { OnErr result (self.new ≡ self.old) }
    {
        let bytes = self.bytes + chunk.value.bytes().len();
        self.chunks.push(chunk)?;
        if is_closed(&self.chunks, bytes) {
            self.bytes = 0;
            return Ok(Some(taken(self.alloc, &mut self.chunks)));
        }
        self.bytes = bytes;
        Ok(None)
    }

    /// The chunks of the open response, which has none then. It takes no memory.
    pub fn rest(&mut self) -> ChunkList
        ensures value { result ≡ self.old }
        ensures empty { self.new ≡ [] }
    {
        self.bytes = 0;
        taken(self.alloc, &mut self.chunks)
    }
}

// Whether a response of these chunks, with so many bytes of values, takes no more.
fn is_closed(chunks: &ChunkList, bytes: usize) -> bool
    requires { bytes ≡ value_bytes chunks.now }
    ensures { result ≡ is_closed chunks.now }
{
    chunks.items().len() >= MOST_CHUNKS || bytes >= MOST_BYTES
}

fn taken(alloc: Global, chunks: &mut ChunkList) -> ChunkList
    ensures value { result ≡ chunks.old }
    ensures empty { chunks.new ≡ [] }
{
    mem::replace(chunks, ChunkList::new(alloc))
}
