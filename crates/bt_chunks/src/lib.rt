//! The pieces in which the cells of a read go out, and the rows that a client makes of them.
#![tactic(auto)]

mod chunk;
mod chunk_refusal;
mod first_chunks;
mod joiner;
mod last_column;
mod laws;
mod packer;
mod part_row;
mod pieces;

use bt_base::ListOf;
pub use chunk::Chunk;
pub use chunk_refusal::ChunkRefusal;
pub use joiner::Joiner;
pub use last_column::LastColumn;
pub use laws::chunks_join;
pub use packer::Packer;
pub use pieces::row_chunks;

/// Chunks of one response, in the order in which a reader puts them together.
pub type ChunkList = ListOf<Chunk>;

#[cfg(test)]
mod joining_tests;
#[cfg(test)]
mod tests;
