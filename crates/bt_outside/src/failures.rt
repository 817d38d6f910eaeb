//! The refusals of the outside: a disk, a connection or a printer that failed.

/// A call of a disk failed. What then stands is what `Disk` says of a failed call.
#[derive(Clone, Copy, Debug, PartialEq, Eq)]
pub struct DiskFailed;

/// A call on a connection failed, or the next one could not be had.
#[derive(Clone, Copy, Debug, PartialEq, Eq)]
pub struct LinkFailed;

/// A text was not printed whole.
#[derive(Clone, Copy, Debug, PartialEq, Eq)]
pub struct PrintFailed;
