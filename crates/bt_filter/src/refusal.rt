//! Why filters are refused.
use bt_base::OutOfMemory;
use std::alloc::AllocError;

/// What is against a filter, in the order of the checks. The first four are of the whole filter, the
/// others of one of its nodes.
#[derive(Clone, Copy, Debug, PartialEq, Eq)]
pub enum Why {
    /// It is more than 20 deep. A filter without parts is 1 deep.
    TooDeep,
    /// It has more than 1,024 nodes. Each filter in it is one.
    TooMany,
    /// Its patterns, bounds of ranges, family names and labels have more than 20,480 bytes.
    TooLarge,
    /// It has more than 16 patterns that are not plain.
    TooManyPatterns,
    /// A sink stands below a condition (`google.bigtable.v2.RowFilter.Condition`).
    SinkUnderCondition,
    /// `pass_all_filter`, `block_all_filter`, `sink` or `strip_value_transformer` is false.
    FlagNotTrue,
    /// The label is not 1 to 15 characters of `[a-z0-9\-]`.
    BadLabel,
    /// Two parts of the chain have a label in them
    /// (`google.bigtable.v2.RowFilter.apply_label_transformer`).
    TwoLabels,
    /// A number of cells is negative.
    NegativeCount,
    /// A bound of the timestamps is negative.
    BadTimeRange,
    /// The text is no pattern, or it is a pattern of family names and has a `:`
    /// (`google.bigtable.v2.RowFilter.family_name_regex_filter`).
    BadPattern,
    /// The pattern would be larger than `regex` builds.
    LargePattern,
}

/// What is against a filter, and at which node.
#[derive(Clone, Copy, Debug, PartialEq, Eq)]
pub(crate) struct Flaw {
    pub(crate) why: Why,
    pub(crate) node: u32,
}

/// Why a filter was not built.
#[derive(Clone, Copy, Debug, PartialEq, Eq)]
pub enum FilterRefusal {
    /// What is against the filter, and at which node. Nodes are counted from 0 on, each before its
    /// parts, and the parts of a condition as its predicate, its true filter and its false filter.
    /// What is against the whole filter is at node 0.
    BadFilter { why: Why, node: u32 },
    OutOfMemory,
}

impl From<OutOfMemory> for FilterRefusal {
    ghost use Rattle.std.specs.Prelude.{◌≡◌};
    ghost use Rattle.bt_filter.specs.declared.refusal.FilterRefusal.TheVariants.{OutOfMemory};

    ghost from_gives = { λ _ refusal. refusal ≡ OutOfMemory };

    fn from(_: OutOfMemory) -> FilterRefusal {
        FilterRefusal::OutOfMemory
    }
}

impl From<AllocError> for FilterRefusal {
    ghost use Rattle.std.specs.Prelude.{◌≡◌};
    ghost use Rattle.bt_filter.specs.declared.refusal.FilterRefusal.TheVariants.{OutOfMemory};

    ghost from_gives = { λ _ refusal. refusal ≡ OutOfMemory };

    fn from(_: AllocError) -> FilterRefusal {
        FilterRefusal::OutOfMemory
    }
}
