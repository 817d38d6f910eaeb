//! The request ReadModifyWriteRow, and its rules.
ghost use Rattle.std.specs.Prelude.{◌≡◌, IfOk};
ghost use Rattle.bt_json.specs.View.{view, items_view};
ghost use Rattle.bt_requests.specs.ReadModifyWrite.{action_in, rule_in, rules_in, read_modify_write_row};
ghost use Rattle.bt_requests.specs.Readers.{IsInOrder};

use crate::request::Request;
use bt_base::OutOfMemory;
use bt_json::Value;
use bt_members::{
    bytes_at, bytes_or_empty, int64_at, items_at, names, text_at, text_bytes_at, value_at,
};
use bt_rmw::{Action, AskedRule, AskedRuleList};
use bt_types::TableName;
use std::alloc::Global;

pub(crate) fn read_modify_write_row(
    alloc: Global,
    value: &Value<'_>,
) -> Result<Option<Request>, OutOfMemory>
    ensures exact { IfOk result (λ r. r ≡ read_modify_write_row (view value.now)) }
    ensures order { IfOk result IsInOrder }
{
    let Some(name) = TableName::new(alloc, text_at(value, names::TABLE_NAME))? else {
        return Ok(None);
    };
    Ok(Some(Request::ReadModifyWriteRow {
        name,
        key: bytes_at(alloc, value, names::ROW_KEY)?,
        rules: rules_in(alloc, items_at(value, names::RULES))?,
    }))
}

fn rules_in(alloc: Global, items: &[Value<'_>]) -> Result<AskedRuleList, OutOfMemory>
    ensures { IfOk result (λ list. list ≡ rules_in (items_view items.now)) }
{
    let mut list = AskedRuleList::new(alloc);
    for item in items {
        list.push(rule_in(alloc, item)?)?;
    }
    Ok(list)
}

fn rule_in(alloc: Global, value: &Value<'_>) -> Result<AskedRule, OutOfMemory>
    ensures { IfOk result (λ rule. rule ≡ rule_in (view value.now)) }
{
    Ok(AskedRule {
        family: text_bytes_at(alloc, value, names::FAMILY_NAME)?,
        qualifier: bytes_at(alloc, value, names::COLUMN_QUALIFIER)?,
        action: action_in(alloc, value)?,
    })
}

fn action_in(alloc: Global, value: &Value<'_>) -> Result<Option<Action>, OutOfMemory>
    ensures { IfOk result (λ action. action ≡ action_in (view value.now)) }
{
    if let Some(found) = value_at(value, names::APPEND_VALUE) {
        return Ok(Some(Action::Append(bytes_or_empty(alloc, found)?)));
    }
    if value_at(value, names::INCREMENT_AMOUNT).is_some() {
        let amount = int64_at(alloc, value, names::INCREMENT_AMOUNT)?;
        return Ok(Some(Action::Increment(amount)));
    }
    Ok(None)
}
