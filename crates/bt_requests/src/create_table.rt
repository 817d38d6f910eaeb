//! The request CreateTable.
ghost use Rattle.std.specs.Prelude.{◌≡◌, IfOk};
ghost use Rattle.bt_json.specs.View.{view, members_view};
ghost use Rattle.bt_requests.specs.Order.{InOrder};
ghost use Rattle.bt_requests.specs.Readers.{IsInOrder, create_table, families_in, families_of, family, retention_in};

use crate::families::{AskedFamily, AskedFamilyList};
use crate::request::Request;
use crate::rules::rule_of_family;
use bt_base::{Blob, OutOfMemory};
use bt_json::{Members, Value};
use bt_members::{members_at, micros_at, names, text_at, value_at};
use bt_types::TableName;
use std::alloc::Global;

pub(crate) fn create_table(alloc: Global, value: &Value<'_>) -> Result<Option<Request>, OutOfMemory>
    requires in_order { ∥ InOrder (view value.now) ∥₁ }
    ensures exact { IfOk result (λ r. r ≡ create_table (view value.now)) }
    ensures order { IfOk result IsInOrder }
{
    let parent = text_at(value, names::PARENT);
    let id = text_at(value, names::TABLE_ID);
    let Some(name) = TableName::in_instance(alloc, parent, id)? else {
        return Ok(None);
    };
    let families = families_in(alloc, value)?;
    let retention = retention_in(alloc, value)?;
    Ok(Some(Request::CreateTable {
        name,
        families,
        retention,
    }))
}

/// The retention of the table's change stream, in microseconds.
pub(crate) fn retention_in(alloc: Global, value: &Value<'_>) -> Result<Option<i64>, OutOfMemory>
    ensures { IfOk result (λ r. r ≡ retention_in (view value.now)) }
{
    let Some(table) = value_at(value, names::TABLE) else {
        return Ok(None);
    };
    let Some(stream) = value_at(table, names::CHANGE_STREAM_CONFIG) else {
        return Ok(None);
    };
    let retention = micros_at(alloc, stream, names::RETENTION_PERIOD)?;
    Ok(Some(retention))
}

fn families_in(alloc: Global, value: &Value<'_>) -> Result<AskedFamilyList, OutOfMemory>
    ensures { IfOk result (λ list. list ≡ families_in (view value.now)) }
{
    let Some(table) = value_at(value, names::TABLE) else {
        return Ok(AskedFamilyList::new(alloc));
    };
    let Some(entries) = members_at(table, names::COLUMN_FAMILIES) else {
        return Ok(AskedFamilyList::new(alloc));
    };
    families_of(alloc, entries)
}

fn families_of(alloc: Global, entries: &Members<'_>) -> Result<AskedFamilyList, OutOfMemory>
    ensures { IfOk result (λ list. list ≡ families_of (members_view entries.now.items)) }
{
    let mut families = AskedFamilyList::new(alloc);
    for (key, value) in entries.iter() {
        if value.is_null() {
            continue;
        }
        families.push(family(alloc, *key, value)?)?;
    }
    Ok(families)
}

fn family(alloc: Global, name: &str, value: &Value<'_>) -> Result<AskedFamily, OutOfMemory>
    ensures { IfOk result (λ f. f ≡ family name.now (view value.now)) }
{
    let name = Blob::new(alloc, name.as_bytes())?;
    let rule = rule_of_family(alloc, value)?;
    Ok(AskedFamily { name, rule })
}
