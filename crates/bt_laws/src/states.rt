//! What holds of every state.
ghost use Rattle.bt_laws.specs.Disks.{HeldValid};
ghost use Rattle.bt_laws.specs.States.{IsValid, ValidAfter, ValidAfterRecords, ValidCut, ValidReached, ValidTables};
ghost use Rattle.bt_state.specs.State.{empty_state};

/// The empty state is valid, and lawful events and records lead from a valid state to valid ones, as
/// long as sequences are left for them.
pub fn states_valid()
    ensures empty { IsValid empty_state }
    ensures event { ValidAfter }
    ensures records { ValidAfterRecords }
{}

/// What is known of a present, and of the rows that are held in memory, is known of a valid state.
pub fn states_reached()
    ensures present { ValidReached }
    ensures rows { ValidTables }
{}

/// A valid state stays one without the first entries of its history.
pub fn states_cut()
    ensures { ValidCut }
{}

/// The state that files stand for is valid, where they are files of bytes, none longer than a file
/// may be.
pub fn states_held()
    ensures { HeldValid }
{}
