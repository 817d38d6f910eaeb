//! What the program has of the outside: a disk, links, a clock and a printer, and such objects in memory.
#![tactic(auto)]

mod calls;
mod clock;
mod disk;
mod disk_core;
mod failing_calls;
mod failures;
mod files;
mod image;
mod kept;
mod links;
mod list_clock;
mod memory_disk;
mod memory_links;
mod memory_print;
mod print;
mod tally;
#[cfg(test)]
mod tests;

use bt_base::{BlobList, ListOf};
pub use clock::Clock;
pub use disk::Disk;
pub use failures::{DiskFailed, LinkFailed, PrintFailed};
pub use image::{DiskImage, FileBytes};
pub use links::Links;
pub use list_clock::ListClock;
pub use memory_disk::MemoryDisk;
pub use memory_links::MemoryLinks;
pub use memory_print::MemoryPrint;
pub use print::Print;
pub use tally::Tally;

/// The files of an image.
pub type FileList = ListOf<FileBytes>;

/// For each connection the pieces in which it is served.
pub type PieceLists = ListOf<BlobList>;

/// What a clock reads, in microseconds since 1970-01-01T00:00:00Z.
pub type Readings = ListOf<u64>;
