//! What holds of runs.
ghost use Rattle.bt_run_laws.specs.Reads.{RunReadsJoin};
ghost use Rattle.bt_run_laws.specs.Runs.{RunsValid, StatesValid, TurnsValid};

use bt_laws::{reads_join, states_valid};

/// The records of a run from a valid state may come in turn, and the state behind any first ones of
/// them is valid, that behind all of them included. Each of its turns is one in the state that the
/// turns before it leave, which is valid. The state that files stand for is valid
/// (`bt_laws::states_held`).
pub fn runs_valid()
    ensures records { RunsValid }
    ensures states { StatesValid }
    ensures turns { TurnsValid }
{
    states_valid();
}

/// In a run from a valid state, a read is refused, or a client joins from its whole reply, however
/// much of that was written, the rows that were asked for, of the state before it.
pub fn run_reads_join()
    ensures { RunReadsJoin }
{
    states_valid();
    reads_join();
}
