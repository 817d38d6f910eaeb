//! The rows in a range of keys, searched by the order of keys.
ghost use Rattle.std.specs.Prelude.{◌≡◌, [], option_map, unwrap_or, IfSome};
ghost use Rattle.std.specs.List.{AllByRecursion, find};
ghost use Rattle.std.specs.List.Sorted.{IsStrictlySortedBy};
ghost use Rattle.std.specs.Map.{keys_of};
ghost use Rattle.std.specs.Ordering.{nat_cmp, is_le};
ghost use Rattle.std.specs.Cmp.Lexicographic.{slice_cmp};
ghost use Rattle.bt_contents.specs.Ranges.{between, is_from, rows_within};

use bt_row::Row;
use bt_types::{RowKey, RowRange};
use std::alloc::Global;
use std::collections::BTreeMap;
use std::collections::btree_map::Range;

/// The rows whose keys are in the range; `None` only where there are none.
pub(crate) fn rows_within<'a>(
    alloc: Global,
    rows: &'a BTreeMap<RowKey, Row>,
    range: &RowRange,
) -> Option<Range<'a, RowKey, Row>>
    ensures rows { unwrap_or result [] ≡ rows_within range.now rows.now.entries }
    ensures sorted { IsStrictlySortedBy (slice_cmp nat_cmp) (keys_of (unwrap_or result [])) }
{
    let start_key = key_of(alloc, range.start.bytes());
    let start = bound(rows, start_key.as_ref(), range.start.bytes());
    match &range.end {
        None => between(rows, start, None),
        Some(end) => {
            let end_key = key_of(alloc, end.bytes());
            let end = bound(rows, end_key.as_ref(), end.bytes());
            between(rows, start, end)
        }
    }
}

// The bytes as a key, where they are one and there is memory for it.
fn key_of(alloc: Global, bytes: &[u8]) -> Option<RowKey>
    ensures { IfSome result (λ key. key ≡ bytes.now) }
{
    match RowKey::new(alloc, bytes) {
        Ok(key) => key,
        Err(_) => None,
    }
}

// A key that the keys at or past these bytes are at or past: the bytes themselves, or the first
// such key, for which it goes through the keys before it.
fn bound<'x>(
    rows: &'x BTreeMap<RowKey, Row>,
    made: Option<&'x RowKey>,
    bytes: &[u8],
) -> Option<&'x RowKey>
    requires { IfSome made (λ key. key.now ≡ bytes.now) }
    ensures { AllByRecursion (λ q. is_le (slice_cmp nat_cmp bytes.now q) ≡ is_from (option_map (λ k. k.now) result) q) (keys_of rows.now.entries) }
{
    match made {
        Some(key) => Some(key),
        None => first_from(rows, bytes),
    }
}

fn first_from<'x>(rows: &'x BTreeMap<RowKey, Row>, bytes: &[u8]) -> Option<&'x RowKey>
    ensures first { option_map (λ k. k.now) result ≡ find (λ k. is_le (slice_cmp nat_cmp bytes.now k)) (keys_of rows.now.entries) }
    ensures sorted { IsStrictlySortedBy (slice_cmp nat_cmp) (keys_of rows.now.entries) }
{
    rows.keys().find(|key| bytes.cmp(key.bytes()).is_le())
}

// The rows from the one key on and before the other.
fn between<'a>(
    rows: &'a BTreeMap<RowKey, Row>,
    start: Option<&RowKey>,
    end: Option<&RowKey>,
) -> Option<Range<'a, RowKey, Row>>
    ensures rows { unwrap_or result [] ≡ between (option_map (λ k. k.now) start.entry) (option_map (λ k. k.now) end.entry) rows.now.entries }
    ensures sorted { IsStrictlySortedBy (slice_cmp nat_cmp) (keys_of (unwrap_or result [])) }
{
    let Some(start) = start else {
        return None;
    };
    let Some(end) = end else {
        return Some(rows.range(start..));
    };
    if end < start {
        return None;
    }
    Some(rows.range(start..end))
}
