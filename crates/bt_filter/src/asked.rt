//! Filters as they were read, before any rule about them is checked.
ghost use Rattle.std.specs.Prelude.{◌≡◌, IfOk};

use bt_base::{Blob, OutOfMemory, Plain};
use bt_range::ByteRange;
use sqlite_items::{Boxed, Items};
use std::alloc::Global;

/// Filters, in the order of the request.
pub type AskedFilterList = Items<AskedFilter>;

/// A filter as it was read, one variant a kind (`google.bigtable.v2.RowFilter`).
#[derive(Debug, Drop)]
pub enum AskedFilter {
    /// None of its kinds is set.
    Unset,
    /// `pass_all_filter`, with the value that was given.
    Pass(bool),
    /// `block_all_filter`, with the value that was given.
    Block(bool),
    /// `sink`, with the value that was given.
    Sink(bool),
    /// `strip_value_transformer`, with the value that was given.
    Strip(bool),
    /// `chain.filters`.
    Chain(AskedFilterList),
    /// `interleave.filters`.
    Interleave(AskedFilterList),
    /// `condition`, with its `true_filter` and its `false_filter`.
    Condition {
        predicate: Option<Boxed<AskedFilter>>,
        matched: Option<Boxed<AskedFilter>>,
        unmatched: Option<Boxed<AskedFilter>>,
    },
    /// `row_key_regex_filter`.
    RowKey(Blob),
    /// `family_name_regex_filter`.
    Family(Blob),
    /// `column_qualifier_regex_filter`.
    Qualifier(Blob),
    /// `value_regex_filter`.
    Value(Blob),
    /// `column_range_filter`, with its `family_name` and its range of qualifiers.
    ColumnRange {
        family: Blob,
        range: ByteRange,
    },
    /// `value_range_filter`.
    ValueRange(ByteRange),
    /// `timestamp_range_filter`: from `start` up to and without `end`, in microseconds. An `end` of 0
    /// is without bound.
    Times {
        start: i64,
        end: i64,
    },
    /// `cells_per_row_offset_filter`.
    RowOffset(i32),
    /// `cells_per_row_limit_filter`.
    RowLimit(i32),
    /// `cells_per_column_limit_filter`.
    ColumnLimit(i32),
    /// `apply_label_transformer`.
    Label(Blob),
}

impl Plain for AskedFilter {
    fn copy(&self, alloc: Global) -> Result<AskedFilter, OutOfMemory> {
        filter_copy(alloc, self)
    }
}

#[cycle(filter_copy)]
fn filter_copy(alloc: Global, filter: &AskedFilter) -> Result<AskedFilter, OutOfMemory>
    ensures { IfOk result (λ copy. copy ≡ filter.now) }
{
    match filter {
        AskedFilter::Unset => Ok(AskedFilter::Unset),
        AskedFilter::Pass(flag) => Ok(AskedFilter::Pass(*flag)),
        AskedFilter::Block(flag) => Ok(AskedFilter::Block(*flag)),
        AskedFilter::Sink(flag) => Ok(AskedFilter::Sink(*flag)),
        AskedFilter::Strip(flag) => Ok(AskedFilter::Strip(*flag)),
        AskedFilter::Chain(parts) => {
            let parts = list_copy(alloc, parts.as_slice())?;
            Ok(AskedFilter::Chain(parts))
        }
        AskedFilter::Interleave(parts) => {
            let parts = list_copy(alloc, parts.as_slice())?;
            Ok(AskedFilter::Interleave(parts))
        }
        AskedFilter::Condition {
            predicate,
            matched,
            unmatched,
        } => Ok(AskedFilter::Condition {
            predicate: part_copy(alloc, predicate)?,
            matched: part_copy(alloc, matched)?,
            unmatched: part_copy(alloc, unmatched)?,
        }),
        AskedFilter::RowKey(text) => Ok(AskedFilter::RowKey(text.copy(alloc)?)),
        AskedFilter::Family(text) => Ok(AskedFilter::Family(text.copy(alloc)?)),
        AskedFilter::Qualifier(text) => Ok(AskedFilter::Qualifier(text.copy(alloc)?)),
        AskedFilter::Value(text) => Ok(AskedFilter::Value(text.copy(alloc)?)),
        AskedFilter::ColumnRange { family, range } => Ok(AskedFilter::ColumnRange {
            family: family.copy(alloc)?,
            range: range.copy(alloc)?,
        }),
        AskedFilter::ValueRange(range) => Ok(AskedFilter::ValueRange(range.copy(alloc)?)),
        AskedFilter::Times { start, end } => Ok(AskedFilter::Times {
            start: *start,
            end: *end,
        }),
        AskedFilter::RowOffset(count) => Ok(AskedFilter::RowOffset(*count)),
        AskedFilter::RowLimit(count) => Ok(AskedFilter::RowLimit(*count)),
        AskedFilter::ColumnLimit(count) => Ok(AskedFilter::ColumnLimit(*count)),
        AskedFilter::Label(label) => Ok(AskedFilter::Label(label.copy(alloc)?)),
    }
}

#[cycle(filter_copy)]
fn list_copy(alloc: Global, filters: &[AskedFilter]) -> Result<AskedFilterList, OutOfMemory>
    ensures { IfOk result (λ copy. copy ≡ filters.now) }
{
    let mut copy = Items::new(alloc);
    for filter in filters {
        let item = filter_copy(alloc, filter)?;
        copy.push(item)?;
    }
    Ok(copy)
}

#[cycle(filter_copy)]
fn part_copy(
    alloc: Global,
    part: &Option<Boxed<AskedFilter>>,
) -> Result<Option<Boxed<AskedFilter>>, OutOfMemory>
    ensures { IfOk result (λ copy. copy ≡ part.now) }
{
    match part {
        Some(filter) => {
            let copy = filter_copy(alloc, filter.get())?;
            let boxed = Boxed::new(alloc, copy)?;
            Ok(Some(boxed))
        }
        None => Ok(None),
    }
}
