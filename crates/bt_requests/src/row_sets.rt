//! Sets of rows as requests ask for them (`google.bigtable.v2.RowSet`).
ghost use Rattle.std.specs.Prelude.{◌≡◌, IfOk};
ghost use Rattle.bt_json.specs.View.{view};
ghost use Rattle.bt_requests.specs.RowSets.{keys_at, keys_in, range_in, ranges_at, ranges_in};

use crate::bounds::bound_of;
use bt_base::{BlobList, OutOfMemory};
use bt_json::Value;
use bt_members::{bytes_or_empty, items_at, names, value_at};
use bt_range::{AskedRange, AskedRangeList};
use std::alloc::Global;

/// The keys that a request lists, none where it has no `rows`.
pub(crate) fn keys_at(alloc: Global, value: &Value<'_>) -> Result<BlobList, OutOfMemory>
    ensures { IfOk result (λ keys. keys ≡ keys_at (view value.now)) }
{
    match value_at(value, names::ROWS) {
        Some(rows) => keys_in(alloc, rows),
        None => Ok(BlobList::new(alloc)),
    }
}

/// The ranges that a request lists, none where it has no `rows`.
pub(crate) fn ranges_at(alloc: Global, value: &Value<'_>) -> Result<AskedRangeList, OutOfMemory>
    ensures { IfOk result (λ ranges. ranges ≡ ranges_at (view value.now)) }
{
    match value_at(value, names::ROWS) {
        Some(rows) => ranges_in(alloc, rows),
        None => Ok(AskedRangeList::new(alloc)),
    }
}

fn keys_in(alloc: Global, value: &Value<'_>) -> Result<BlobList, OutOfMemory>
    ensures { IfOk result (λ keys. keys ≡ keys_in (view value.now)) }
{
    let mut keys = BlobList::new(alloc);
    for item in items_at(value, names::ROW_KEYS) {
        keys.push(bytes_or_empty(alloc, item)?)?;
    }
    Ok(keys)
}

fn ranges_in(alloc: Global, value: &Value<'_>) -> Result<AskedRangeList, OutOfMemory>
    ensures { IfOk result (λ ranges. ranges ≡ ranges_in (view value.now)) }
{
    let mut ranges = AskedRangeList::new(alloc);
    for item in items_at(value, names::ROW_RANGES) {
        ranges.push(range_in(alloc, item)?)?;
    }
    Ok(ranges)
}

fn range_in(alloc: Global, value: &Value<'_>) -> Result<AskedRange, OutOfMemory>
    ensures { IfOk result (λ range. range ≡ range_in (view value.now)) }
{
    let closed = value_at(value, names::START_KEY_CLOSED);
    let past = value_at(value, names::START_KEY_OPEN);
    let start = bound_of(alloc, closed, past)?;
    let closed = value_at(value, names::END_KEY_CLOSED);
    let past = value_at(value, names::END_KEY_OPEN);
    let end = bound_of(alloc, closed, past)?;
    Ok(AskedRange { start, end })
}
