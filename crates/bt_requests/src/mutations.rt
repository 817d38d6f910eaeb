//! The requests MutateRow and MutateRows, and mutations.
ghost use Rattle.std.specs.Prelude.{◌≡◌, IfOk};
ghost use Rattle.bt_json.specs.View.{view, items_view};
ghost use Rattle.bt_requests.specs.Readers.{IsInOrder, mutate_row, mutate_rows, entries_in, entry, mutations_in, mutation_in, set_cell, delete_from_column, bound_of};

use crate::request::Request;
use crate::rows::{AskedEntry, AskedEntryList};
use bt_base::OutOfMemory;
use bt_json::Value;
use bt_members::{bytes_at, int64_at, items_at, names, text_at, text_bytes_at, value_at};
use bt_mutation::{AskedMutation, AskedMutationList};
use bt_types::TableName;
use bt_walk::Name;
use std::alloc::Global;

pub(crate) fn mutate_row(alloc: Global, value: &Value<'_>) -> Result<Option<Request>, OutOfMemory>
    ensures exact { IfOk result (λ r. r ≡ mutate_row (view value.now)) }
    ensures order { IfOk result IsInOrder }
{
    let Some(name) = TableName::new(alloc, text_at(value, names::TABLE_NAME))? else {
        return Ok(None);
    };
    Ok(Some(Request::MutateRow {
        name,
        key: bytes_at(alloc, value, names::ROW_KEY)?,
        mutations: mutations_in(alloc, items_at(value, names::MUTATIONS))?,
    }))
}

pub(crate) fn mutate_rows(alloc: Global, value: &Value<'_>) -> Result<Option<Request>, OutOfMemory>
    ensures exact { IfOk result (λ r. r ≡ mutate_rows (view value.now)) }
    ensures order { IfOk result IsInOrder }
{
    let Some(name) = TableName::new(alloc, text_at(value, names::TABLE_NAME))? else {
        return Ok(None);
    };
    let entries = entries_in(alloc, items_at(value, names::ENTRIES))?;
    Ok(Some(Request::MutateRows { name, entries }))
}

fn entries_in(alloc: Global, items: &[Value<'_>]) -> Result<AskedEntryList, OutOfMemory>
    ensures { IfOk result (λ list. list ≡ entries_in (items_view items.now)) }
{
    let mut list = AskedEntryList::new(alloc);
    for item in items {
        list.push(entry(alloc, item)?)?;
    }
    Ok(list)
}

fn entry(alloc: Global, value: &Value<'_>) -> Result<AskedEntry, OutOfMemory>
    ensures { IfOk result (λ e. e ≡ entry (view value.now)) }
{
    Ok(AskedEntry {
        key: bytes_at(alloc, value, names::ROW_KEY)?,
        mutations: mutations_in(alloc, items_at(value, names::MUTATIONS))?,
    })
}

/// The mutations of a list.
pub(crate) fn mutations_in(
    alloc: Global,
    items: &[Value<'_>],
) -> Result<AskedMutationList, OutOfMemory>
    ensures { IfOk result (λ list. list ≡ mutations_in (items_view items.now)) }
{
    let mut list = AskedMutationList::new(alloc);
    for item in items {
        list.push(mutation_in(alloc, item)?)?;
    }
    Ok(list)
}

fn mutation_in(alloc: Global, value: &Value<'_>) -> Result<AskedMutation, OutOfMemory>
    ensures { IfOk result (λ m. m ≡ mutation_in (view value.now)) }
{
    if let Some(set) = value_at(value, names::SET_CELL) {
        return set_cell(alloc, set);
    }
    if let Some(column) = value_at(value, names::DELETE_FROM_COLUMN) {
        return delete_from_column(alloc, column);
    }
    if let Some(deletion) = value_at(value, names::DELETE_FROM_FAMILY) {
        let family = text_bytes_at(alloc, deletion, names::FAMILY_NAME)?;
        return Ok(AskedMutation::DeleteFamily { family });
    }
    if value_at(value, names::DELETE_FROM_ROW).is_some() {
        return Ok(AskedMutation::DeleteRow);
    }
    Ok(AskedMutation::Missing)
}

fn set_cell(alloc: Global, value: &Value<'_>) -> Result<AskedMutation, OutOfMemory>
    ensures { IfOk result (λ m. m ≡ set_cell (view value.now)) }
{
    Ok(AskedMutation::SetCell {
        family: text_bytes_at(alloc, value, names::FAMILY_NAME)?,
        qualifier: bytes_at(alloc, value, names::COLUMN_QUALIFIER)?,
        at: int64_at(alloc, value, names::TIMESTAMP_MICROS)?,
        value: bytes_at(alloc, value, names::VALUE)?,
    })
}

fn delete_from_column(alloc: Global, value: &Value<'_>) -> Result<AskedMutation, OutOfMemory>
    ensures { IfOk result (λ m. m ≡ delete_from_column (view value.now)) }
{
    Ok(AskedMutation::DeleteColumn {
        family: text_bytes_at(alloc, value, names::FAMILY_NAME)?,
        qualifier: bytes_at(alloc, value, names::COLUMN_QUALIFIER)?,
        start: bound_at(alloc, value, names::START_TIMESTAMP_MICROS)?,
        end: bound_at(alloc, value, names::END_TIMESTAMP_MICROS)?,
    })
}

// A bound of the time range; without a range it is 0.
fn bound_at(alloc: Global, value: &Value<'_>, name: Name) -> Result<i64, OutOfMemory>
    ensures { IfOk result (λ n. n ≡ bound_of name.0.now name.1.now (view value.now)) }
{
    match value_at(value, names::TIME_RANGE) {
        Some(range) => int64_at(alloc, range, name),
        None => Ok(0),
    }
}
