//! The manifest: which files of a disk hold the service's state. It stands twice, in two slots, and
//! a new snapshot takes the place of the older one in one step, whatever a crash leaves.
#![tactic(auto)]

mod closing;
mod fields;
mod loading;
mod publishing;
mod reading;
mod slot;
mod snapshot;
mod table_length;
#[cfg(test)]
mod tests;
mod writing;

use bt_base::ListOf;
pub use loading::load_manifest;
pub use publishing::publish;
pub use snapshot::{Segment, Snapshot, TableFiles};

/// Numbers of files, oldest first.
pub type FileNumbers = ListOf<u64>;

/// Segments of the log, oldest first.
pub type SegmentList = ListOf<Segment>;

/// Files of tables, by ascending incarnation.
pub type TableFileList = ListOf<TableFiles>;
