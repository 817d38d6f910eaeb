//! The requests GetTable, DeleteTable and UpdateTable.
ghost use Rattle.std.specs.Prelude.{◌≡◌, IfOk};
ghost use Rattle.bt_json.specs.View.{view};
ghost use Rattle.bt_requests.specs.Readers.{IsInOrder, named_table, table_to_update, get_table, delete_table, update_table};

use crate::create_table::retention_in;
use crate::request::Request;
use bt_base::OutOfMemory;
use bt_json::Value;
use bt_members::{names, text_at, value_at};
use bt_types::{TableName, Text};
use std::alloc::Global;

pub(crate) fn get_table(alloc: Global, value: &Value<'_>) -> Result<Option<Request>, OutOfMemory>
    ensures exact { IfOk result (λ r. r ≡ get_table (view value.now)) }
    ensures order { IfOk result IsInOrder }
{
    let Some(name) = named_table(alloc, value)? else {
        return Ok(None);
    };
    Ok(Some(Request::GetTable { name }))
}

pub(crate) fn delete_table(alloc: Global, value: &Value<'_>) -> Result<Option<Request>, OutOfMemory>
    ensures exact { IfOk result (λ r. r ≡ delete_table (view value.now)) }
    ensures order { IfOk result IsInOrder }
{
    let Some(name) = named_table(alloc, value)? else {
        return Ok(None);
    };
    Ok(Some(Request::DeleteTable { name }))
}

pub(crate) fn update_table(alloc: Global, value: &Value<'_>) -> Result<Option<Request>, OutOfMemory>
    ensures exact { IfOk result (λ r. r ≡ update_table (view value.now)) }
    ensures order { IfOk result IsInOrder }
{
    let Some(name) = table_to_update(alloc, value)? else {
        return Ok(None);
    };
    let mask = Text::new(alloc, text_at(value, names::UPDATE_MASK))?;
    let retention = retention_in(alloc, value)?;
    Ok(Some(Request::UpdateTable {
        name,
        mask,
        retention,
    }))
}

fn table_to_update(alloc: Global, value: &Value<'_>) -> Result<Option<TableName>, OutOfMemory>
    ensures { IfOk result (λ name. name ≡ table_to_update (view value.now)) }
{
    match value_at(value, names::TABLE) {
        Some(table) => named_table(alloc, table),
        None => Ok(None),
    }
}

/// The table of the member `name`, or `None` where that is no name of a table.
pub(crate) fn named_table(
    alloc: Global,
    value: &Value<'_>,
) -> Result<Option<TableName>, OutOfMemory>
    ensures { IfOk result (λ name. name ≡ named_table (view value.now)) }
{
    TableName::new(alloc, text_at(value, names::NAME))
}
