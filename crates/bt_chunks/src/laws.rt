//! What follows from the definitions alone.
ghost use Rattle.bt_chunks.specs.Joining.{ChunksJoin};

/// A client reads from the chunks of an answer exactly the rows of the answer.
pub fn chunks_join()
    ensures { ChunksJoin }
{}
