//! The request DropRowRange.
ghost use Rattle.std.specs.Prelude.{◌≡◌, IfOk};
ghost use Rattle.bt_json.specs.View.{view};
ghost use Rattle.bt_requests.specs.Readers.{IsInOrder, drop_row_range, target_in};

use crate::named_table::named_table;
use crate::request::{DropTarget, Request};
use bt_base::OutOfMemory;
use bt_json::Value;
use bt_members::{bytes_or_empty, is_yes, names, value_at};
use std::alloc::Global;

pub(crate) fn drop_row_range(
    alloc: Global,
    value: &Value<'_>,
) -> Result<Option<Request>, OutOfMemory>
    ensures exact { IfOk result (λ r. r ≡ drop_row_range (view value.now)) }
    ensures order { IfOk result IsInOrder }
{
    let Some(name) = named_table(alloc, value)? else {
        return Ok(None);
    };
    let target = target_in(alloc, value)?;
    Ok(Some(Request::DropRowRange { name, target }))
}

fn target_in(alloc: Global, value: &Value<'_>) -> Result<Option<DropTarget>, OutOfMemory>
    ensures { IfOk result (λ t. t ≡ target_in (view value.now)) }
{
    if let Some(prefix) = value_at(value, names::ROW_KEY_PREFIX) {
        return Ok(Some(DropTarget::Prefix(bytes_or_empty(alloc, prefix)?)));
    }
    if let Some(all) = value_at(value, names::DELETE_ALL_DATA_FROM_TABLE) {
        return Ok(Some(DropTarget::All(is_yes(all))));
    }
    Ok(None)
}
