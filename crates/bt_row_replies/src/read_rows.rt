//! ReadRows.
ghost use Rattle.std.specs.Prelude.{◌≡◌, IfOk};
ghost use Rattle.bt_plans.specs.Plans.{IsPlanOf};
ghost use Rattle.bt_row_replies.specs.Rows.{IsReadReply, limit_in};
ghost use Rattle.bt_schema.specs.Schema.{table_of};

use bt_base::{BlobList, OutOfMemory};
use bt_filter::{AskedFilter, FilterRefusal};
use bt_filter_run::Node;
use bt_messages::Refusal;
use bt_plans::{Plan, ReadPlan, refusal_for_filter};
use bt_range::{AskedRangeList, RowSet};
use bt_state::Present;
use bt_types::TableName;
use std::alloc::Global;

/// The rows of a table that are asked for, in the order of their keys, each with the cells that the
/// filter leaves (`google.bigtable.v2.ReadRowsRequest`).
pub fn read_rows(
    alloc: Global,
    present: &Present,
    name: &TableName,
    keys: BlobList,
    ranges: AskedRangeList,
    filter: AskedFilter,
    rows_limit: i64,
) -> Result<Plan, OutOfMemory>
    ensures { IfOk result (λ plan. IsPlanOf plan present.now (IsReadReply present.now keys ranges filter rows_limit (table_of name.now present.now.schema))) }
{
    let Some(table) = present.table(name) else {
        return Ok(Plan::refuses(Refusal::TableNotFound));
    };
    let Some(rows_limit) = limit_in(rows_limit) else {
        return Ok(Plan::refuses(Refusal::NegativeRowsLimit));
    };
    match filter.build(alloc) {
        Ok(filter) => {
            // Each of them has a key that a row may have.
            let _rows = present.rows_of(table.incarnation);
            Ok(Plan::Reads(ReadPlan {
                incarnation: table.incarnation,
                rows: RowSet::new(alloc, keys.items(), ranges.items())?,
                node: Node::new(alloc, filter)?,
                rows_limit,
            }))
        }
        Err(FilterRefusal::BadFilter { why, .. }) => Ok(Plan::refuses(refusal_for_filter(why))),
        Err(FilterRefusal::OutOfMemory) => Err(OutOfMemory),
    }
}

// The limit, unless it is negative.
fn limit_in(rows_limit: i64) -> Option<u64>
    ensures { result ≡ limit_in rows_limit }
{
    if rows_limit < 0 {
        return None;
    }
    Some(rows_limit as u64)
}
