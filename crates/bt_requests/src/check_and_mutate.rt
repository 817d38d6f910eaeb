//! The request CheckAndMutateRow.
ghost use Rattle.std.specs.Prelude.{◌≡◌, IfOk};
ghost use Rattle.bt_json.specs.View.{view};
ghost use Rattle.bt_requests.specs.CheckAndMutate.{check_and_mutate_row};
ghost use Rattle.bt_requests.specs.Readers.{IsInOrder};

use crate::filters::predicate_at;
use crate::mutations::mutations_in;
use crate::request::Request;
use bt_base::OutOfMemory;
use bt_json::Value;
use bt_members::{bytes_at, items_at, names, text_at};
use bt_types::TableName;
use std::alloc::Global;

pub(crate) fn check_and_mutate_row(
    alloc: Global,
    value: &Value<'_>,
) -> Result<Option<Request>, OutOfMemory>
    ensures exact { IfOk result (λ r. r ≡ check_and_mutate_row (view value.now)) }
    ensures order { IfOk result IsInOrder }
{
    let Some(name) = TableName::new(alloc, text_at(value, names::TABLE_NAME))? else {
        return Ok(None);
    };
    Ok(Some(Request::CheckAndMutateRow {
        name,
        key: bytes_at(alloc, value, names::ROW_KEY)?,
        predicate: predicate_at(alloc, value)?,
        yes: mutations_in(alloc, items_at(value, names::TRUE_MUTATIONS))?,
        no: mutations_in(alloc, items_at(value, names::FALSE_MUTATIONS))?,
    }))
}
