//! The request ReadRows.
ghost use Rattle.std.specs.Prelude.{◌≡◌, IfOk};
ghost use Rattle.bt_json.specs.View.{view};
ghost use Rattle.bt_requests.specs.Readers.{IsInOrder, read_rows};

use crate::filters::filter_at;
use crate::request::Request;
use crate::row_sets::{keys_at, ranges_at};
use bt_base::OutOfMemory;
use bt_json::Value;
use bt_members::{int64_at, names, text_at};
use bt_types::TableName;
use std::alloc::Global;

pub(crate) fn read_rows(alloc: Global, value: &Value<'_>) -> Result<Option<Request>, OutOfMemory>
    ensures exact { IfOk result (λ r. r ≡ read_rows (view value.now)) }
    ensures order { IfOk result IsInOrder }
{
    let Some(name) = TableName::new(alloc, text_at(value, names::TABLE_NAME))? else {
        return Ok(None);
    };
    Ok(Some(Request::ReadRows {
        name,
        keys: keys_at(alloc, value)?,
        ranges: ranges_at(alloc, value)?,
        filter: filter_at(alloc, value)?,
        rows_limit: int64_at(alloc, value, names::ROWS_LIMIT)?,
    }))
}
