//! What a client reads of a state.
ghost use Rattle.bt_laws.specs.Reads.{ReadsJoin};

/// A client reads from the chunks of the answer of a read of a table, in a valid state and with a
/// valid filter, exactly its rows.
pub fn reads_join()
    ensures { ReadsJoin }
{}
