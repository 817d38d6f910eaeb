//! Laws of replies and of runs, which follow from the definitions alone.
#![tactic(auto)]

mod replies;
mod runs;

pub use replies::replies_valid;
pub use runs::{run_reads_join, runs_valid};
