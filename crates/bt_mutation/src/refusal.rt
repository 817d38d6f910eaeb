//! Why a list of mutations is refused.

/// Why a list of mutations is refused (`google.bigtable.v2.MutateRowRequest.mutations`). An index is
/// the place of the mutation in the list, from 0 on.
#[derive(Clone, Copy, Debug, PartialEq, Eq)]
pub enum MutationRefusal {
    /// The list is empty.
    NoMutations,
    /// The list has more mutations than it may have.
    TooMany,
    /// None of the mutation's kinds is set.
    Kind { index: u32 },
    /// No family of the table has the name that the mutation gives.
    UnknownFamily { index: u32 },
    /// The qualifier has more than 16,384 bytes.
    LongQualifier { index: u32 },
    /// The timestamp is neither -1 nor a multiple of 1,000 from 0 on.
    BadTimestamp { index: u32 },
    /// The value has more than 4,194,304 bytes.
    TooLarge { index: u32 },
    /// The start or the end of the times to be removed is negative.
    BadTimeRange { index: u32 },
}
