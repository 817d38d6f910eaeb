//! What every other crate of the service may need: bytes, lists, counters, and the refusal for want of memory.
#![tactic(auto)]

mod blob;
mod list_of;
mod out_of_memory;
mod plain;

pub use blob::Blob;
pub use list_of::ListOf;
pub use out_of_memory::OutOfMemory;
pub use plain::Plain;

/// A list of byte strings.
pub type BlobList = ListOf<Blob>;

#[cfg(test)]
mod tests;
