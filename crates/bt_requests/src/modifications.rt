//! The request ModifyColumnFamilies.
ghost use Rattle.std.specs.Prelude.{◌≡◌, IfOk};
ghost use Rattle.bt_json.specs.View.{view, items_view};
ghost use Rattle.bt_requests.specs.Readers.{IsInOrder, modify_column_families, modifications_in, modification, change_in};

use crate::families::{FamilyChange, Modification, ModificationList};
use crate::named_table::named_table;
use crate::request::Request;
use crate::rules::rule_of_family;
use bt_base::OutOfMemory;
use bt_json::Value;
use bt_members::{is_yes, items_at, names, text_bytes_at, value_at};
use std::alloc::Global;

pub(crate) fn modify_column_families(
    alloc: Global,
    value: &Value<'_>,
) -> Result<Option<Request>, OutOfMemory>
    ensures exact { IfOk result (λ r. r ≡ modify_column_families (view value.now)) }
    ensures order { IfOk result IsInOrder }
{
    let Some(name) = named_table(alloc, value)? else {
        return Ok(None);
    };
    let changes = modifications_in(alloc, items_at(value, names::MODIFICATIONS))?;
    Ok(Some(Request::ModifyColumnFamilies { name, changes }))
}

fn modifications_in(alloc: Global, items: &[Value<'_>]) -> Result<ModificationList, OutOfMemory>
    ensures { IfOk result (λ list. list ≡ modifications_in (items_view items.now)) }
{
    let mut list = ModificationList::new(alloc);
    for item in items {
        list.push(modification(alloc, item)?)?;
    }
    Ok(list)
}

fn modification(alloc: Global, value: &Value<'_>) -> Result<Modification, OutOfMemory>
    ensures { IfOk result (λ m. m ≡ modification (view value.now)) }
{
    Ok(Modification {
        id: text_bytes_at(alloc, value, names::ID)?,
        change: change_in(alloc, value)?,
    })
}

fn change_in(alloc: Global, value: &Value<'_>) -> Result<FamilyChange, OutOfMemory>
    ensures { IfOk result (λ c. c ≡ change_in (view value.now)) }
{
    if let Some(family) = value_at(value, names::CREATE) {
        return Ok(FamilyChange::Create(rule_of_family(alloc, family)?));
    }
    if let Some(family) = value_at(value, names::UPDATE) {
        return Ok(FamilyChange::Update(rule_of_family(alloc, family)?));
    }
    if let Some(drop) = value_at(value, names::DROP) {
        return Ok(FamilyChange::Drop(is_yes(drop)));
    }
    Ok(FamilyChange::Missing)
}
