//! Why bytes are no batch.

/// Why bytes were not read as a batch.
#[derive(Clone, Copy, Debug, PartialEq, Eq)]
pub enum BatchRefusal {
    /// The bytes spell no batch. Read from the left they do so up to `at`, where the first field
    /// begins that is cut off, that breaks a rule of the format, or that stands behind the last
    /// entry.
    BadEntry { at: u64 },
    /// An allocation was refused.
    OutOfMemory,
}
