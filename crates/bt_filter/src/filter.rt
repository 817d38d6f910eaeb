//! Filters that were built.
use bt_base::Blob;
use bt_pattern::Pattern;
use bt_range::{ByteRange, TimeRange};
use bt_types::Label;
use sqlite_items::{Boxed, Items};

/// Filters, in the order of the request.
pub type FilterList = Items<Filter>;

/// A filter that was built, one variant a kind (`google.bigtable.v2.RowFilter`).
#[derive(Drop)]
pub enum Filter {
    /// No kind was set, which passes all cells.
    Unset,
    Pass,
    Block,
    /// Gives its cells to the answer, past all filters around it.
    Sink,
    /// Empties values.
    Strip,
    Chain(FilterList),
    Interleave(FilterList),
    Condition {
        predicate: Option<Boxed<Filter>>,
        matched: Option<Boxed<Filter>>,
        unmatched: Option<Boxed<Filter>>,
    },
    RowKey(Pattern),
    Family(Pattern),
    Qualifier(Pattern),
    Value(Pattern),
    /// The cells of the family with qualifiers in the range.
    ColumnRange {
        family: Blob,
        range: ByteRange,
    },
    ValueRange(ByteRange),
    Times(TimeRange),
    /// All but so many of the first cells of a row.
    RowOffset(u32),
    /// So many of the first cells of a row.
    RowLimit(u32),
    /// So many of the first cells of each column.
    ColumnLimit(u32),
    Label(Label),
}
