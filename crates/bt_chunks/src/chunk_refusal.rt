//! Why chunks cannot be put together further.
ghost use Rattle.std.specs.Prelude.{◌≡◌};

use bt_base::OutOfMemory;

/// Why a joiner gave no answer.
#[derive(Clone, Copy, Debug, PartialEq, Eq)]
pub enum ChunkRefusal {
    /// That chunk has no place, or one before it had none. The first chunk has the index 0.
    BadChunk { index: u64 },
    /// An allocation was refused.
    OutOfMemory,
}

impl From<OutOfMemory> for ChunkRefusal {
    ghost use Rattle.bt_chunks.specs.declared.chunk_refusal.ChunkRefusal.TheVariants.{OutOfMemory};

    ghost from_gives = { λ _ refusal. refusal ≡ OutOfMemory };

    fn from(_: OutOfMemory) -> Self {
        ChunkRefusal::OutOfMemory
    }
}
