//! The record of calls of a disk in memory.

/// What was called, with the place and the length or the bytes. What a call answered is not kept.
#[derive(Drop)]
pub enum Kind {
    Length,
    Read(u64, u64),
    Write(u64, Vec<u8>),
    Cut(u64),
    Sync,
}

/// A call, with the number of calls before it.
#[derive(Drop)]
pub struct Call {
    pub moment: u64,
    pub file: u64,
    pub kind: Kind,
    pub failed: bool,
}
