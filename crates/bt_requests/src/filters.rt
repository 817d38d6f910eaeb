//! Filters as requests ask for them (`google.bigtable.v2.RowFilter`).
ghost use Rattle.std.specs.Prelude.{◌≡◌, IfOk};
ghost use Rattle.bt_json.specs.View.{view};
ghost use Rattle.bt_requests.specs.Filters.{flag_in, count_in, qualifiers_in, values_in, times_in, range_in, text_in, filters_in, branch_in, condition_in, kind_in, filter_in, filter_at, predicate_at};

use crate::bounds::bound_of;
use bt_base::OutOfMemory;
use bt_filter::{AskedFilter, AskedFilterList};
use bt_json::Value;
use bt_members::{
    bytes_or_empty, int32_or_zero, int64_at, is_yes, items_at, names, text_bytes, text_bytes_at,
    value_at,
};
use bt_range::ByteRange;
use bt_walk::Name;
use sqlite_items::Boxed;
use std::alloc::Global;

const MOST_LEVELS: u8 = 21;

/// The filter of a request, unset where it has none.
pub(crate) fn filter_at(alloc: Global, value: &Value<'_>) -> Result<AskedFilter, OutOfMemory>
    ensures { IfOk result (λ f. f ≡ filter_at (view value.now)) }
{
    match value_at(value, names::FILTER) {
        Some(found) => filter_in(alloc, MOST_LEVELS, found),
        None => Ok(AskedFilter::Unset),
    }
}

/// The predicate of a request, or `None` where it has none.
pub(crate) fn predicate_at(
    alloc: Global,
    value: &Value<'_>,
) -> Result<Option<AskedFilter>, OutOfMemory>
    ensures { IfOk result (λ f. f ≡ predicate_at (view value.now)) }
{
    match value_at(value, names::PREDICATE_FILTER) {
        Some(found) => Ok(Some(filter_in(alloc, MOST_LEVELS, found)?)),
        None => Ok(None),
    }
}

// The first levels of a filter.
#[tactic(auto, using(crate::proofs::FilterLevels::no_level, crate::proofs::FilterLevels::one_level))]
#[cycle(filter_in)]
fn filter_in(alloc: Global, levels: u8, value: &Value<'_>) -> Result<AskedFilter, OutOfMemory>
    ensures { IfOk result (λ f. f ≡ filter_in levels (view value.now)) }
{
    if levels == 0 {
        return Ok(AskedFilter::Unset);
    }
    kind_in(alloc, levels - 1, value)
}

// By the kind that is set, with so many levels below it.
#[cycle(filter_in)]
fn kind_in(alloc: Global, below: u8, value: &Value<'_>) -> Result<AskedFilter, OutOfMemory>
    ensures { IfOk result (λ f. f ≡ kind_in (filter_in below) (view value.now)) }
{
    if let Some(found) = value_at(value, names::CHAIN) {
        return Ok(AskedFilter::Chain(filters_in(alloc, below, found)?));
    }
    if let Some(found) = value_at(value, names::INTERLEAVE) {
        return Ok(AskedFilter::Interleave(filters_in(alloc, below, found)?));
    }
    if let Some(found) = value_at(value, names::CONDITION) {
        return condition_in(alloc, below, found);
    }
    text_in(alloc, value)
}

#[cycle(filter_in)]
fn filters_in(alloc: Global, levels: u8, value: &Value<'_>) -> Result<AskedFilterList, OutOfMemory>
    ensures { IfOk result (λ list. list ≡ filters_in (filter_in levels) (view value.now)) }
{
    let mut filters = AskedFilterList::new(alloc);
    for item in items_at(value, names::FILTERS) {
        filters.push(filter_in(alloc, levels, item)?)?;
    }
    Ok(filters)
}

#[cycle(filter_in)]
fn condition_in(alloc: Global, levels: u8, value: &Value<'_>) -> Result<AskedFilter, OutOfMemory>
    ensures { IfOk result (λ f. f ≡ condition_in (filter_in levels) (view value.now)) }
{
    Ok(AskedFilter::Condition {
        predicate: branch_at(alloc, levels, value, names::PREDICATE_FILTER)?,
        matched: branch_at(alloc, levels, value, names::TRUE_FILTER)?,
        unmatched: branch_at(alloc, levels, value, names::FALSE_FILTER)?,
    })
}

#[cycle(filter_in)]
fn branch_at(
    alloc: Global,
    levels: u8,
    value: &Value<'_>,
    name: Name,
) -> Result<Option<Boxed<AskedFilter>>, OutOfMemory>
    ensures { IfOk result (λ f. f ≡ branch_in (filter_in levels) name.0.now name.1.now (view value.now)) }
{
    let Some(found) = value_at(value, name) else {
        return Ok(None);
    };
    let filter = filter_in(alloc, levels, found)?;
    let boxed = Boxed::new(alloc, filter)?;
    Ok(Some(boxed))
}

// By the pattern or the label that is set, or else by a range, a count or a flag.
fn text_in(alloc: Global, value: &Value<'_>) -> Result<AskedFilter, OutOfMemory>
    ensures { IfOk result (λ f. f ≡ text_in (view value.now)) }
{
    if let Some(found) = value_at(value, names::ROW_KEY_REGEX_FILTER) {
        return Ok(AskedFilter::RowKey(bytes_or_empty(alloc, found)?));
    }
    if let Some(found) = value_at(value, names::FAMILY_NAME_REGEX_FILTER) {
        return Ok(AskedFilter::Family(text_bytes(alloc, found)?));
    }
    if let Some(found) = value_at(value, names::COLUMN_QUALIFIER_REGEX_FILTER) {
        return Ok(AskedFilter::Qualifier(bytes_or_empty(alloc, found)?));
    }
    if let Some(found) = value_at(value, names::VALUE_REGEX_FILTER) {
        return Ok(AskedFilter::Value(bytes_or_empty(alloc, found)?));
    }
    if let Some(found) = value_at(value, names::APPLY_LABEL_TRANSFORMER) {
        return Ok(AskedFilter::Label(text_bytes(alloc, found)?));
    }
    range_in(alloc, value)
}

// By the range that is set, or else by a count or a flag.
fn range_in(alloc: Global, value: &Value<'_>) -> Result<AskedFilter, OutOfMemory>
    ensures { IfOk result (λ f. f ≡ range_in (view value.now)) }
{
    if let Some(found) = value_at(value, names::COLUMN_RANGE_FILTER) {
        let family = text_bytes_at(alloc, found, names::FAMILY_NAME)?;
        let range = qualifiers_in(alloc, found)?;
        return Ok(AskedFilter::ColumnRange { family, range });
    }
    if let Some(found) = value_at(value, names::VALUE_RANGE_FILTER) {
        return Ok(AskedFilter::ValueRange(values_in(alloc, found)?));
    }
    if let Some(found) = value_at(value, names::TIMESTAMP_RANGE_FILTER) {
        return times_in(alloc, found);
    }
    count_in(alloc, value)
}

fn qualifiers_in(alloc: Global, value: &Value<'_>) -> Result<ByteRange, OutOfMemory>
    ensures { IfOk result (λ range. range ≡ qualifiers_in (view value.now)) }
{
    let closed = value_at(value, names::START_QUALIFIER_CLOSED);
    let past = value_at(value, names::START_QUALIFIER_OPEN);
    let start = bound_of(alloc, closed, past)?;
    let closed = value_at(value, names::END_QUALIFIER_CLOSED);
    let past = value_at(value, names::END_QUALIFIER_OPEN);
    let end = bound_of(alloc, closed, past)?;
    Ok(ByteRange { start, end })
}

fn values_in(alloc: Global, value: &Value<'_>) -> Result<ByteRange, OutOfMemory>
    ensures { IfOk result (λ range. range ≡ values_in (view value.now)) }
{
    let closed = value_at(value, names::START_VALUE_CLOSED);
    let past = value_at(value, names::START_VALUE_OPEN);
    let start = bound_of(alloc, closed, past)?;
    let closed = value_at(value, names::END_VALUE_CLOSED);
    let past = value_at(value, names::END_VALUE_OPEN);
    let end = bound_of(alloc, closed, past)?;
    Ok(ByteRange { start, end })
}

fn times_in(alloc: Global, value: &Value<'_>) -> Result<AskedFilter, OutOfMemory>
    ensures { IfOk result (λ f. f ≡ times_in (view value.now)) }
{
    Ok(AskedFilter::Times {
        start: int64_at(alloc, value, names::START_TIMESTAMP_MICROS)?,
        end: int64_at(alloc, value, names::END_TIMESTAMP_MICROS)?,
    })
}

// By the count that is set, or else by a flag.
fn count_in(alloc: Global, value: &Value<'_>) -> Result<AskedFilter, OutOfMemory>
    ensures { IfOk result (λ f. f ≡ count_in (view value.now)) }
{
    if let Some(found) = value_at(value, names::CELLS_PER_ROW_OFFSET_FILTER) {
        return Ok(AskedFilter::RowOffset(int32_or_zero(alloc, found)?));
    }
    if let Some(found) = value_at(value, names::CELLS_PER_ROW_LIMIT_FILTER) {
        return Ok(AskedFilter::RowLimit(int32_or_zero(alloc, found)?));
    }
    if let Some(found) = value_at(value, names::CELLS_PER_COLUMN_LIMIT_FILTER) {
        return Ok(AskedFilter::ColumnLimit(int32_or_zero(alloc, found)?));
    }
    Ok(flag_in(value))
}

// By the flag that is set, with its value.
fn flag_in(value: &Value<'_>) -> AskedFilter
    ensures { result ≡ flag_in (view value.now) }
{
    if let Some(found) = value_at(value, names::PASS_ALL_FILTER) {
        return AskedFilter::Pass(is_yes(found));
    }
    if let Some(found) = value_at(value, names::BLOCK_ALL_FILTER) {
        return AskedFilter::Block(is_yes(found));
    }
    if let Some(found) = value_at(value, names::SINK) {
        return AskedFilter::Sink(is_yes(found));
    }
    if let Some(found) = value_at(value, names::STRIP_VALUE_TRANSFORMER) {
        return AskedFilter::Strip(is_yes(found));
    }
    AskedFilter::Unset
}
